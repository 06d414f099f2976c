//! Sessions over the drive of a file, whose bytes are kept in memory from one session to the next.

use crate::fault::RowsFault;
use crate::run::Setting;
use crate::show::show_replies;
use disk_jobs::{Habit, Stop};
use drive_images::write_image;
use drive_journal::Held;
use nbd_jobs::{
    Forgotten, NbdFault, NbdJob, ServedFile, failed_note, forgotten_note, serve_drive,
    serve_read_only,
};
use nbd_session::WriteThrough;
use std::alloc::Global;
use zone_drive::Drive;

/// How many bytes a file may have before it is written anew.
const LIMIT: usize = 1 << 20;

/// The image of a fresh drive.
pub fn fresh_file(alloc: Global, setting: Setting) -> Result<Vec<u8>, RowsFault> {
    let Ok(drive) = Drive::new(alloc, setting.geometry()) else {
        return Err(RowsFault::Drive);
    };
    let mut file = Vec::new(alloc);
    write_image(&drive, &mut file).or(Err(RowsFault::Memory))?;
    Ok(file)
}

/// Serves a drive as `blocks` logical blocks if it does not say how many, and cleans between requests.
pub fn job_of(alloc: Global, blocks: Option<u64>, statistics: bool) -> NbdJob {
    NbdJob {
        image: String::new(alloc),
        blocks,
        stop: Stop::NEVER,
        forget: None,
        fail: None,
        habit: Habit::Lazy,
        statistics,
        idle: true,
        read_only: false,
    }
}

/// Shows what was counted, if it was asked for.
fn show_counts(counts: &Option<String>, out: &mut String) -> Result<(), RowsFault> {
    if let Some(text) = counts {
        out.push_str(text)?;
    }
    Ok(())
}

/// Shows what a disk forgot, if it does forget.
fn show_forgotten(
    alloc: Global,
    job: &NbdJob,
    forgotten: Option<Forgotten>,
    out: &mut String,
) -> Result<(), RowsFault> {
    if let Some(forgotten) = forgotten {
        let note = forgotten_note(alloc, job, &forgotten)?;
        writeln!(out, "{note}")?;
    }
    Ok(())
}

/// Shows how many requests failed by chance, if some were to.
fn show_failed(alloc: Global, failed: Option<u64>, out: &mut String) -> Result<(), RowsFault> {
    if let Some(failed) = failed {
        let note = failed_note(alloc, failed)?;
        writeln!(out, "{note}")?;
    }
    Ok(())
}

/// Shows how a session ended.
fn show_end(ended: Result<(), NbdFault>, out: &mut String) -> Result<(), RowsFault> {
    match ended {
        Ok(()) => write!(out, "ended\n\n")?,
        Err(fault) => write!(out, "fault: {fault}\n\n")?,
    }
    Ok(())
}

/// Serves the drive in a file. Shows what the server sent, what was counted if the job asks for it, what was forgotten
/// if the disk forgets, how many requests failed if some were to, and how the session ended. The file has all changes
/// then.
pub fn show_kept(
    alloc: Global,
    job: &NbdJob,
    input: &[u8],
    file: &mut Vec<u8>,
    out: &mut String,
) -> Result<(), RowsFault> {
    let served = ServedFile {
        bytes: file.as_slice(),
        store: Held::new(alloc, Vec::from_slice(alloc, file)?, LIMIT),
        medium: WriteThrough::new(),
    };
    let mut sent = Vec::new(alloc);
    let ended = serve_drive(alloc, job, served, &mut &*input, &mut sent);
    *file = Vec::from_slice(alloc, ended.store.bytes())?;
    show_replies(&sent, out)?;
    let told = ended.told;
    show_counts(&told.statistics, out)?;
    show_forgotten(alloc, job, told.forgotten, out)?;
    show_failed(alloc, told.failed, out)?;
    show_end(told.result, out)
}

/// Serves the drive in a file read only. Shows what the server sent, how many requests failed if some were to, and how
/// the session ended.
pub fn show_read_only(
    alloc: Global,
    job: &NbdJob,
    input: &[u8],
    file: &[u8],
    out: &mut String,
) -> Result<(), RowsFault> {
    let mut sent = Vec::new(alloc);
    let done = serve_read_only(alloc, job, &mut &*file, &mut &*input, &mut sent);
    show_replies(&sent, out)?;
    show_failed(alloc, done.told.failed, out)?;
    show_end(done.told.result, out)
}
