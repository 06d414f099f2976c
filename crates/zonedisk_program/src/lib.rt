//! The program: an array of logical blocks above a zoned drive, which is in a file or behind a device. Lines of calls
//! go in, lines of replies come out.
//!
//! ```text
//! fn main(rt: HostRuntime) -> io::Result<ExitCode> {
//!     run_program(&rt, &NoDevices, &NoDevices)
//! }
//! ```
//!
//! [`run_program`] is the whole program over any two ways: one to devices, and one to drives that stay in their files.
//! The Reads of a device may lie. A drive in its file is always clean, since a rescue writes one. So programs with
//! different ways share all else. [`task_of`] reads the words of the command line, and each job is done by its crate:
//! [`do_job`], [`do_nbd_job`], [`do_export`], [`do_import`], [`do_tool_job`], `do_rescue` and `mend_image` on the drive
//! whose image is in a file, and those of `device_jobs` on the drive of a device. What people are told goes to standard
//! error: what a fault is, what a status means with `nvme --explain`, what to know of the size of a disk, and what is
//! missing of a rescued one.
//!
//! A file that is named by `--image` may hold a drive that stays in it. The first bytes of the file say so. Then the
//! task becomes a job on a device with that path ([`in_place`]), and the second way opens it. A drive is put into a
//! file of the other kind by `convert`: the first bytes of its file say which.
//!
//! # What is promised
//!
//! Of the task:
//!
//! * [`do_device`] ends each job on a device with the exit status 1 if there is no way to any. So does the program
//!   with each task that is such a job, or becomes one. Without a way to drives that stay in their files so do a
//!   `convert`, and a rescue of a device to a new drive.
//! * [`in_place`] says which job on a drive that stays in its file a task on the image in that file stands for
//!   (`specs/InPlace.antt`). One that stands for none is refused with the exit status 1.
//!
//! Of its end:
//!
//! * A session ends with the exit status 1 if it ended by a fault, if its drive had stopped by itself, or if what it
//!   did may not be durable or is not saved (`EndsServed`, `EndsSaved` in `specs/Ends.antt`).
//! * A rescue ends with the exit status 1 if it ended by a fault, or if a block is lost or perhaps older
//!   (`EndsRescue`).
//! * A repair ends with the exit status 1 if it ended by a fault, if what it did may not be durable or is not saved, or
//!   if the drive cannot be mounted then (`EndsMended`). What it finds ends with 0 if all of it was sent and all is
//!   well: nothing is to be repaired, or the drive can be mounted. Else that ends with 1 (`EndsTold`).
//! * A run on a device, and a format of one, end with the line of a device and the exit status 1 if only the sync at
//!   their end failed (`EndsLines`).
//!
//! Which words ask for a task is promised by `asked_tasks`, and what the replies are by the crates of the jobs.
//!
//! # What is not proved
//!
//! * That an output has failed where a repair says so: one that sends nothing, and ends with 1, meets its contracts.
//! * The texts, the files and any other exit status 0 are tested; so is how a drive that stays in its file is known,
//!   and that a format is forced only where that was asked for (`tool_rows`).
//!
//! Tests: `job_tests`, and the rows of `tool_rows`.
#![tactic(auto)]

ghost use Rattle.zonedisk_program.specs.Ends.{EndsAsked, EndsTask};

mod converting;
mod counterpart;
mod devices;
mod files;
mod folders;
mod in_file;
mod repairing;
mod rescuing;

use crate::converting::{into_drive_file, into_image};
pub use crate::counterpart::in_place;
pub use crate::devices::do_device;
use crate::files::{copy, do_lines, do_nbd, fail, use_tool};
use crate::folders::tell_missing_folders;
use crate::in_file::{begins_in_place, refuse_in_place};
use crate::repairing::repair_image;
use crate::rescuing::{rescue_device, rescue_image};
pub use asked_tasks::{Task, task_of};
use clap::error::ErrorKind;
pub use device_jobs::{Devices, NoDevices};
pub use disk_copies::{do_export, do_import};
use disk_jobs::ProgramFault;
pub use disk_jobs::do_job;
use disk_runs::RunFault;
use drive_port::Honest;
pub use nbd_jobs::do_nbd_job;
use std::alloc::Global;
use std::env::Env;
use std::io::BufWriter;
use std::process::ExitCode;
use std::rt::Files;
use std::time::Clock;
use std::{fs, io};
pub use tool_jobs::do_tool_job;

/// The exit status where the words were refused.
const REFUSED: u8 = 2;

const OUT_OF_MEMORY: ProgramFault = ProgramFault::Run(RunFault::Memory);

/// The words of the command line, the program's name first. One that is not UTF-8 is refused.
fn given_words<R: Env + Alloc<A = Global>>(rt: &R) -> io::Result<Vec<String>> {
    Ok(std::env::args(rt)?.collect(rt.alloc())?)
}

/// Opens the root folder three times. Where a standard stream is closed, the next file that is opened takes its place:
/// so it is this folder, which cannot be read as a file nor written, and no image.
fn fill_streams<F: Files>(files: &F) -> [io::Result<F::File>; 3] {
    [
        fs::open(files, "/"),
        fs::open(files, "/"),
        fs::open(files, "/"),
    ]
}

/// Does a task, whatever its file holds. What a job with lines writes goes through a buffer.
fn do_as_it_is<
    R: Clock + Eprint + Files<File = fs::File> + Input + Print,
    D: Devices,
    F: Devices,
    W: io::Write,
>(rt: &R, alloc: Global, devices: &D, files: &F, task: &Task, output: &mut W) -> ExitCode
where
    F::Drive: Honest,
    ensures { EndsTask (record { devices = D.has_way devices.now; files = F.has_way files.now }) task.now result }
{
    match task {
        Task::Lines(job) => do_lines(rt, alloc, job, output),
        Task::Nbd(job) => do_nbd(rt, alloc, job, &mut io::writer(rt)),
        Task::Copy(job) => copy(rt, alloc, job),
        Task::Tool(job) => use_tool(rt, alloc, job, output),
        Task::Convert(job) => into_drive_file(rt, alloc, files, job, output),
        Task::Rescue(job) => rescue_image(rt, alloc, job),
        Task::Repair(job) => repair_image(rt, alloc, job, output),
        Task::Device(job) => do_device(rt, alloc, devices, files, job, output),
    }
}

/// Does a task. Where its file begins as a drive does that stays in it, the task is done on that drive.
fn do_asked<
    R: Clock + Eprint + Files<File = fs::File> + Input + Print,
    D: Devices,
    F: Devices,
    W: io::Write,
>(
    rt: &R,
    alloc: Global,
    devices: &D,
    files: &F,
    begins: bool,
    task: Task,
    output: &mut W,
) -> ExitCode
where
    F::Drive: Honest,
    ensures { EndsAsked begins (record { devices = D.has_way devices.now; files = F.has_way files.now }) task result }
{
    if !begins {
        return do_as_it_is(rt, alloc, devices, files, &task, output);
    }
    match in_place(task) {
        Ok(job) => do_device(rt, alloc, files, files, &job, output),
        Err(Task::Convert(job)) => into_image(rt, alloc, files, &job, output),
        Err(task) => refuse_in_place(rt, &task),
    }
}

/// Does a task, with this way to devices, and this one to drives that stay in their files. A job on a device, or on a
/// new drive in a file, ends with the status of a fault if there is no way to it.
pub fn do_task<
    R: Clock + Eprint + Files<File = fs::File> + Input + Print,
    D: Devices,
    F: Devices,
    W: io::Write,
>(rt: &R, alloc: Global, devices: &D, files: &F, task: Task, output: &mut W) -> ExitCode
where
    F::Drive: Honest,
    ensures { EndsTask (record { devices = D.has_way devices.now; files = F.has_way files.now }) task result }
{
    let begins = begins_in_place(rt, &task);
    do_asked(rt, alloc, devices, files, begins, task, output)
}

/// Says on standard error how a drive in a file is named, where a subcommand was given a path without its option.
fn tell_image<R: Eprint>(rt: &R, words: &[String], refusal: ErrorKind) {
    let Some(path) = words.get(2) else {
        return;
    };
    if refusal == ErrorKind::UnknownArgument && !path.as_str().starts_with('-') {
        let _ = eprintln!(rt; "\nThe drive in a file is named by '--image {path}'.");
    }
}

/// The task that the words of the command line ask for; or the exit status where there is none, which was told.
fn asked<R: Env + Alloc<A = Global> + Eprint, W: io::Write>(
    rt: &R,
    alloc: Global,
    output: &mut W,
) -> Result<Task, ExitCode> {
    let words = match given_words(rt) {
        Ok(words) => words,
        Err(error) if error.kind() == io::ErrorKind::OutOfMemory => {
            return Err(fail(alloc, OUT_OF_MEMORY, output));
        }
        Err(_) => {
            let _ = eprintln!(rt; "error: a word of the command line is not UTF-8");
            return Err(ExitCode::from(REFUSED));
        }
    };
    match task_of(alloc, &words) {
        Ok(task) => Ok(task),
        Err(error) if error.kind() == ErrorKind::OutOfMemory => {
            Err(fail(alloc, OUT_OF_MEMORY, output))
        }
        Err(error) => {
            let _ = eprint!(rt; "{error}");
            tell_image(rt, &words, error.kind());
            Err(ExitCode::from(REFUSED))
        }
    }
}

/// Does what the words of the command line ask for, with this way to devices, and this one to drives that stay in their
/// files.
pub fn run_program<
    R: Env + Alloc<A = Global> + Clock + Eprint + Files<File = fs::File> + Input + Print,
    D: Devices,
    F: Devices,
>(rt: &R, devices: &D, files: &F) -> io::Result<ExitCode>
where
    F::Drive: Honest,
{
    let _streams = fill_streams(rt);
    let alloc = rt.alloc();
    let Ok(mut output) = BufWriter::new(alloc, io::writer(rt)) else {
        return Ok(fail(alloc, OUT_OF_MEMORY, &mut io::writer(rt)));
    };
    match asked(rt, alloc, &mut output) {
        Ok(task) => {
            tell_missing_folders(rt, &task);
            Ok(do_task(rt, alloc, devices, files, task, &mut output))
        }
        Err(code) => Ok(code),
    }
}
