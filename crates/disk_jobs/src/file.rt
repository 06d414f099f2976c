ghost use Rattle.std.specs.Prelude.{◌≡◌, ◌⊎◌};
ghost use Rattle.disk_runs.specs.declared.fault.RunFault.TheVariants as runs;
ghost use Rattle.disk_jobs.specs.declared.fault.ProgramFault.TheVariants as program;

use crate::begun::fresh_drive;
use crate::fault::ProgramFault;
use crate::formatting::format_file;
use crate::input::JobInput;
use crate::job::Job;
use crate::lines::Answered;
use crate::mounting::Mounting;
use crate::program::run_job;
use crate::saving::{Access, file_access, left_to_save, sent_after};
use crate::sending::{Ran, run_sending, send};
use disk_files::LineReader;
use disk_runs::RunFault;
use drive_journal::Unknown;
use job_drives::{
    ChangesFile, ChangesOutput, DriveFile, FileFault, Finished, ImageFile, LockedFile, Saved,
    Saving, finish, first_told, image_to_format, image_to_read, image_to_save,
};
use std::alloc::Global;
use std::fs::File;
use std::io;
use std::io::{BufReader, Read, Write};
use std::rt::Files;
use zone_drive::{Drive, Habit};
use zone_states::Geometry;

/// How a job ended, and how its drive was saved. Both can fail.
#[derive(Clone, Copy, Debug, PartialEq, Eq)]
pub struct LinesDone {
    /// Of the job, with the replies that it sent.
    pub job: Result<(), ProgramFault>,
    /// Of the drive. It is `Ok` where the job leaves none to save.
    pub saved: Result<Saved, ProgramFault>,
    /// What is known of the mount, if there was one.
    pub mounting: Mounting,
}

impl LinesDone {
    /// A job that leaves no drive to save.
    fn unsaved(job: Result<(), ProgramFault>) -> LinesDone {
        LinesDone {
            job,
            saved: Ok(Saved::IN_PLACE),
            mounting: Mounting::NONE,
        }
    }

    /// The fault that the program ends with: the first one.
    pub fn fault(&self) -> Option<ProgramFault> {
        match self.job {
            Ok(()) => self.saved.err(),
            Err(fault) => Some(fault),
        }
    }
}

/// What is known of the mount of a job, if there was one.
fn mounting(answered: &Option<Answered>) -> Mounting {
    match answered {
        Some(answered) => answered.mounting,
        None => Mounting::NONE,
    }
}

/// What a fault of a file is to the program: that memory ran out is told as in a run.
pub(crate) fn file_told(fault: FileFault) -> ProgramFault
    ensures { (result ≡ program.Run runs.Memory) ⊎ (result ≡ program.File fault) }
{
    if fault.is_memory() {
        return ProgramFault::Run(RunFault::Memory);
    }
    ProgramFault::File(fault)
}

/// Opens and locks the file of a job that reads one, and gives its bytes.
fn open_image<F: Files<File = File>>(
    files: &F,
    alloc: Global,
    job: &Job,
    path: &str,
) -> Result<(ImageFile, BufReader<File>), FileFault> {
    match file_access(job) {
        Access::ToRead => image_to_read(files, alloc, path),
        Access::ToSave => image_to_save(files, alloc, path),
    }
}

/// Does a job that reads no file, and sends what it wrote.
fn run_without_file<R: Read + Drop, W: Write>(
    alloc: Global,
    job: &Job,
    input: &mut LineReader<R>,
    output: &mut W,
) -> Ran {
    let file = DriveFile {
        bytes: io::empty(),
        store: Unknown::new(io::sink()),
    };
    let (answered, _, ran) = run_job(alloc, job, file, input, output);
    (answered, ran.and(send(output)))
}

/// Does a job over the bytes of a file for which its changes are gathered, and sends what it wrote. A reply is sent
/// once the file has the changes before it, and after the sync that the job asks for.
fn run_over<F: Files<File = File>, I: Read + Drop, R: Read + Drop, W: Write>(
    saving: &Saving<'_, F>,
    job: &Job,
    (file, bytes): (&ChangesFile<'_, F>, I),
    input: &mut LineReader<R>,
    output: &mut W,
) -> Ran {
    let store = file.store();
    let waiting = ChangesOutput::new(file, sent_after(job), output);
    run_sending(
        saving.alloc,
        job,
        DriveFile { bytes, store },
        input,
        waiting,
    )
}

/// Does a job on the drive in a file, sends what it wrote, and saves the drive, if there is one to save. Its changes go
/// to the file, if it makes any.
fn run_with_changes<F: Files<File = File>, R: Read + Drop, W: Write>(
    saving: &Saving<'_, F>,
    job: &Job,
    (image, bytes): (ImageFile, BufReader<File>),
    input: &mut JobInput<'_, R>,
    output: &mut W,
) -> LinesDone {
    let file = ChangesFile::with_gate(saving, image, input.gate);
    let (answered, ran) = run_over(saving, job, (&file, bytes), &mut input.lines, output);
    let mounting = mounting(&answered);
    let Finished { fault, saved } = finish(file, left_to_save(job, answered));
    LinesDone {
        // What the lines met of a fault of the file is told as that fault.
        job: first_told(ran, fault.map(ProgramFault::File)),
        saved: saved.map_err(file_told),
        mounting,
    }
}

/// Opens the file of a fresh drive, or makes it, and saves the drive there. A file that was made for it is removed
/// after a fault.
fn save_fresh<F: Files<File = File>, W: Write>(
    saving: &Saving<'_, F>,
    path: &str,
    force: bool,
    drive: &Drive,
    output: &mut W,
) -> Result<Saved, ProgramFault> {
    let opened = image_to_format(saving.files, saving.alloc, path, force);
    let (image, mut bytes) = opened.map_err(file_told)?;
    let mut file = LockedFile::new(saving, image);
    let formatted = format_file(saving.alloc, force, drive, &mut bytes, &mut file, output);
    if formatted.is_err() {
        file.discard();
    }
    formatted
}

/// Makes a fresh drive in the file of a path, and then says `ok`.
fn format<F: Files<File = File>, W: Write>(
    saving: &Saving<'_, F>,
    path: &str,
    force: bool,
    geometry: Geometry,
    output: &mut W,
) -> Result<Saved, ProgramFault> {
    let drive = fresh_drive(saving.alloc, geometry, Habit::Lazy)?;
    let saved = save_fresh(saving, path, force, &drive, output)?;
    send(output)?;
    Ok(saved)
}

/// How a format ended.
fn formatted(done: Result<Saved, ProgramFault>) -> LinesDone {
    match done {
        Ok(saved) => LinesDone {
            job: Ok(()),
            saved: Ok(saved),
            mounting: Mounting::NONE,
        },
        Err(fault) => LinesDone::unsaved(Err(fault)),
    }
}

/// Does a job, sends what it wrote, and then saves the drive if the job works on one in a file, also after
/// a fault. The file is locked from before it is read until after the drive is saved. Each change of the drive is in
/// the file before a reply that depends on it is sent. A report, or a run that only reads, shares the file with others
/// that read it, and changes nothing in it.
pub fn do_job<F: Files<File = File>, R: Read + Drop, W: Write>(
    files: &F,
    alloc: Global,
    job: &Job,
    input: &mut JobInput<'_, R>,
    output: &mut W,
) -> LinesDone {
    let Some(path) = job.image() else {
        let (answered, sent) = run_without_file(alloc, job, &mut input.lines, output);
        return LinesDone {
            job: sent,
            saved: Ok(Saved::IN_PLACE),
            mounting: mounting(&answered),
        };
    };
    let saving = Saving { files, alloc };
    if let Job::Format {
        geometry,
        force,
        ..
    } = job
    {
        return formatted(format(&saving, path, *force, *geometry, output));
    }
    match open_image(files, alloc, job, path) {
        Ok(opened) => run_with_changes(&saving, job, opened, input, output),
        Err(fault) => LinesDone::unsaved(Err(file_told(fault))),
    }
}
