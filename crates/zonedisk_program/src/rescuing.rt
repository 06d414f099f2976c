// The disk of a drive, however broken the drive is.

ghost use Rattle.std.specs.Prelude.{◌≡◌, false, is_some, true};
ghost use Rattle.std.specs.Process.{exit_status};
ghost use Rattle.zonedisk_program.specs.Ends.{EndsRescue};

use crate::devices::{is_synced, refuse};
use crate::files::counted;
use device_jobs::{Devices, OpenDevice};
use disk_jobs::{Habit, Watched};
use drive_port::{Halt, Honest};
use drive_rescue::{RescueFault, Rescued, Source};
use rescue_jobs::{
    ListFile, RescueJob, RescueJobFault, do_rescue, explain, given_blocks, is_whole, lists_text,
    rescue_into, rescue_to_output,
};
use std::alloc::Global;
use std::cell::Cell;
use std::process::ExitCode;
use std::rt::Files;
use std::time::Clock;
use std::{fs, io};

/// Says on standard error why a disk is not rescued, or only its first blocks.
fn refuse_rescue<R: Eprint>(
    rt: &R,
    alloc: Global,
    job: &RescueJob,
    fault: RescueJobFault,
) -> ExitCode
    ensures { exit_status result ≡ 1 }
{
    if let Ok(text) = explain(alloc, job, fault) {
        let _ = eprintln!(rt; "zonedisk: {text}");
    }
    ExitCode::FAILURE
}

/// Tells which blocks of a disk are lost, and which may be older: on standard error, and as JSON if that was asked for.
fn tell_lists<R: Eprint>(
    rt: &R,
    alloc: Global,
    job: &RescueJob,
    lists: ListFile,
    rescued: &Rescued,
) -> Result<(), RescueJobFault> {
    let Ok(text) = lists_text(alloc, rescued) else {
        return Err(RescueJobFault::Rescue(RescueFault::Halted(Halt::Memory)));
    };
    let path = job.image.as_str();
    for line in text.lines() {
        let _ = eprintln!(rt; "zonedisk: {path}: {line}");
    }
    lists.write(alloc, rescued)
}

/// Tells how a rescue ended. It ends well only if nothing of the disk is missing.
fn end_rescue<R: Eprint>(
    rt: &R,
    alloc: Global,
    job: &RescueJob,
    lists: ListFile,
    rescued: Result<Rescued, RescueJobFault>,
) -> ExitCode
    ensures { EndsRescue rescued result }
{
    let rescued = match rescued {
        Ok(rescued) => rescued,
        Err(fault) => return refuse_rescue(rt, alloc, job, fault),
    };
    if let Err(fault) = tell_lists(rt, alloc, job, lists, &rescued) {
        return refuse_rescue(rt, alloc, job, fault);
    }
    if is_whole(&rescued) {
        ExitCode::SUCCESS
    } else {
        ExitCode::FAILURE
    }
}

/// Rescues the disk of the drive in an image.
pub(crate) fn rescue_image<R: Clock + Eprint + Files<File = fs::File> + Print>(
    rt: &R,
    alloc: Global,
    job: &RescueJob,
) -> ExitCode {
    let lists = match ListFile::make(rt, job) {
        Ok(lists) => lists,
        Err(fault) => return refuse_rescue(rt, alloc, job, fault),
    };
    let total = Cell::new(None);
    let mut output = Watched::output(io::writer(rt), rt, counted(job.progress), &total);
    let rescued = do_rescue(rt, alloc, job, &total, &mut output);
    end_rescue(rt, alloc, job, lists, rescued)
}

/// Writes the disk of a source to a new drive of the same shape, which stays in its file. That ends with a sync.
fn rescue_to_file<R: Eprint, S: Source, F: Devices>(
    rt: &R,
    alloc: Global,
    files: &F,
    job: &RescueJob,
    path: &str,
    source: &mut S,
    lists: ListFile,
) -> ExitCode
where
    F::Drive: Honest,
    ensures { F.has_way files.now ≡ false → exit_status result ≡ 1 }
{
    if let Err(fault) = files.create(path, &source.geometry()) {
        return refuse(rt, path, fault);
    }
    let OpenDevice {
        drive,
        mut medium,
        ..
    } = match files.open(alloc, path, Habit::Lazy) {
        Ok(open) => open,
        Err(fault) => return refuse(rt, path, fault),
    };
    let (mut drive, rescued) = match rescue_into(alloc, given_blocks(job.blocks), source, drive) {
        Ok(done) => done,
        Err(fault) => return refuse_rescue(rt, alloc, job, fault),
    };
    let synced = is_synced(rt, alloc, path, &mut drive, &mut medium);
    let ended = end_rescue(rt, alloc, job, lists, Ok(rescued));
    if synced { ended } else { ExitCode::FAILURE }
}

/// Rescues the disk of the drive behind a device, or of one that stays in its file. A new drive stays in its file.
pub(crate) fn rescue_device<
    R: Clock + Eprint + Files<File = fs::File> + Print,
    D: Devices,
    F: Devices,
>(rt: &R, alloc: Global, devices: &D, files: &F, job: &RescueJob) -> ExitCode
where
    F::Drive: Honest,
    ensures old { D.has_way devices.now ≡ false → exit_status result ≡ 1 }
    ensures new { is_some job.now.to ≡ true → F.has_way files.now ≡ false → exit_status result ≡ 1 }
{
    let lists = match ListFile::make(rt, job) {
        Ok(lists) => lists,
        Err(fault) => return refuse_rescue(rt, alloc, job, fault),
    };
    let mut source = match devices.open_source(alloc, &job.image) {
        Ok(source) => source,
        Err(fault) => return refuse(rt, &job.image, fault),
    };
    if let Some(path) = &job.to {
        return rescue_to_file(rt, alloc, files, job, path, &mut source, lists);
    }
    let total = Cell::new(None);
    let mut output = Watched::output(io::writer(rt), rt, counted(job.progress), &total);
    let rescued = rescue_to_output(alloc, job, &total, &mut source, &mut output);
    end_rescue(rt, alloc, job, lists, rescued)
}
