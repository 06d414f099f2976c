// Drives that are put into files of the other kind.

ghost use Rattle.std.specs.Prelude.{◌≡◌, false};
ghost use Rattle.std.specs.Process.{exit_status};

use crate::devices::{end_made, refuse};
use device_jobs::{ConvertJob, Devices};
use std::alloc::Global;
use std::fs;
use std::io::Write;
use std::process::ExitCode;
use std::rt::Files;
use tool_jobs::{ToolFault, drive_in_image, make_image};

/// Says on standard error why an image is not read, or not made.
fn refuse_image<R: Eprint>(rt: &R, path: &str, fault: ToolFault) -> ExitCode
    ensures { exit_status result ≡ 1 }
{
    let _ = eprintln!(rt; "zonedisk: {path}: {fault}");
    ExitCode::FAILURE
}

/// Puts the drive of an image into a new file, in which it stays.
pub(crate) fn into_drive_file<R: Eprint + Files<File = fs::File>, F: Devices, W: Write>(
    rt: &R,
    alloc: Global,
    files: &F,
    job: &ConvertJob,
    output: &mut W,
) -> ExitCode
    ensures { F.has_way files.now ≡ false → exit_status result ≡ 1 }
{
    let drive = match drive_in_image(rt, alloc, &job.image) {
        Ok(drive) => drive,
        Err(fault) => return refuse_image(rt, &job.image, fault),
    };
    match files.store(&job.to, &drive) {
        Ok(()) => end_made(rt, &job.to, output),
        Err(fault) => refuse(rt, &job.to, fault),
    }
}

/// Puts a drive that stays in its file into a new image.
pub(crate) fn into_image<R: Eprint + Files<File = fs::File>, F: Devices, W: Write>(
    rt: &R,
    alloc: Global,
    files: &F,
    job: &ConvertJob,
    output: &mut W,
) -> ExitCode
    ensures { F.has_way files.now ≡ false → exit_status result ≡ 1 }
{
    let drive = match files.load(alloc, &job.image) {
        Ok(drive) => drive,
        Err(fault) => return refuse(rt, &job.image, fault),
    };
    match make_image(rt, alloc, &job.to, &drive) {
        Ok(()) => end_made(rt, &job.to, output),
        Err(fault) => refuse_image(rt, &job.to, fault),
    }
}
