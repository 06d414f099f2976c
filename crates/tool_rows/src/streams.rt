// Jobs that read or write a stream of their own.

use crate::memory_devices::{MemoryDevices, drive_of};
use device_jobs::{
    DeviceJob, DeviceRun, Devices, export_device, run_device, send_lines, serve_client,
};
use disk_copies::{CopyJob, ExportJob, ImportJob, import_mounted};
use disk_files::LineReader;
use disk_jobs::Habit;
use nbd_jobs::{NbdJob, failed_note, forgotten_note};
use nbd_session::WriteThrough;
use rescue_jobs::{RescueJob, lists_text, rescue_to_output};
use std::alloc::Global;
use std::cell::Cell;
use std::test::Fail;

/// Answers the lines of a trace.
fn show_run<R: Print>(rt: &R, alloc: Global, job: &DeviceRun, lines: &[u8]) -> Result<(), Fail> {
    let mut written = Vec::new(alloc);
    let mut reader = LineReader::new(alloc, lines);
    let drive = drive_of(alloc, &job.device)?;
    let (_, mounting, ran) = run_device(alloc, drive, job, &mut reader, &mut written);
    print!(rt; "{}", std::str::from_utf8(&written)?)?;
    println!(rt;
        "{ran:?}, {:?} blocks",
        mounting.disk.map(|disk| disk.blocks)
    )?;
    Ok(())
}

/// Sends raw lines.
fn show_sent<R: Print>(
    rt: &R,
    alloc: Global,
    path: &str,
    sync: bool,
    lines: &[u8],
) -> Result<(), Fail> {
    let mut written = Vec::new(alloc);
    let mut reader = LineReader::new(alloc, lines);
    let mut raw = MemoryDevices.open_raw(alloc, path, Habit::Lazy)?;
    let sent = send_lines(alloc, sync, &mut raw, &mut reader, &mut written);
    print!(rt; "{}", std::str::from_utf8(&written)?)?;
    println!(rt; "{sent:?}")?;
    Ok(())
}

/// Serves a client that sends these bytes.
fn show_served<R: Print>(rt: &R, alloc: Global, job: &NbdJob, sent: &[u8]) -> Result<(), Fail> {
    let mut written = Vec::new(alloc);
    let drive = drive_of(alloc, &job.image)?;
    let served = serve_client(alloc, job, drive, WriteThrough::new(), sent, &mut written);
    println!(rt;
        "{} bytes, {:?}, {:?} blocks",
        written.len(),
        served.told.result,
        served.told.disk.map(|disk| disk.blocks)
    )?;
    if let Some(forgotten) = served.told.forgotten {
        println!(rt; "{}", forgotten_note(alloc, job, &forgotten)?)?;
    }
    if let Some(failed) = served.told.failed {
        println!(rt; "{}", failed_note(alloc, failed)?)?;
    }
    Ok(())
}

/// Exports blocks.
fn show_exported<R: Print>(rt: &R, alloc: Global, job: &ExportJob) -> Result<(), Fail> {
    let mut written = Vec::new(alloc);
    let total = Cell::new(None);
    let drive = drive_of(alloc, &job.image)?;
    let (_, exported) = export_device(alloc, job, &total, drive, &mut written);
    let first = written.first().copied();
    println!(rt;
        "{} bytes of {:?}, the first {first:?}, {exported:?}",
        written.len(),
        total.get()
    )?;
    Ok(())
}

/// Rescues the disk of a drive.
fn show_rescued<R: Print>(rt: &R, alloc: Global, job: &RescueJob) -> Result<(), Fail> {
    let mut written = Vec::new(alloc);
    let mut source = MemoryDevices.open_source(alloc, &job.image)?;
    let total = Cell::new(None);
    let rescued = rescue_to_output(alloc, job, &total, &mut source, &mut written);
    let first = written.first().copied();
    println!(rt;
        "{} bytes of {:?}, the first {first:?}",
        written.len(),
        total.get()
    )?;
    match rescued {
        Ok(rescued) => print!(rt; "{}", lists_text(alloc, &rescued)?)?,
        Err(fault) => println!(rt; "{fault:?}")?,
    }
    Ok(())
}

/// Imports blocks.
fn show_imported<R: Print>(
    rt: &R,
    alloc: Global,
    job: &ImportJob,
    mut blocks: &[u8],
) -> Result<(), Fail> {
    let drive = drive_of(alloc, &job.image)?;
    let mut written = 0;
    let (_, taken) = import_mounted(alloc, job, drive, &mut blocks, &mut written);
    println!(rt; "{taken:?}, {written} written")?;
    Ok(())
}

/// Does a job that takes or gives a stream, and shows what became of it: whether it is such a job.
pub fn show_streams<R: Print>(
    rt: &R,
    alloc: Global,
    job: &DeviceJob,
    lines: &[u8],
) -> Result<bool, Fail> {
    match job {
        DeviceJob::Run(job) => show_run(rt, alloc, job, lines)?,
        DeviceJob::Nvme { device, sync, .. } => show_sent(rt, alloc, device, *sync, lines)?,
        DeviceJob::Nbd(job) => show_served(rt, alloc, job, lines)?,
        DeviceJob::Copy(CopyJob::Export(job)) => show_exported(rt, alloc, job)?,
        DeviceJob::Copy(CopyJob::Import(job)) => show_imported(rt, alloc, job, lines)?,
        DeviceJob::Rescue(job) if job.to.is_none() => show_rescued(rt, alloc, job)?,
        _ => return Ok(false),
    }
    Ok(true)
}
