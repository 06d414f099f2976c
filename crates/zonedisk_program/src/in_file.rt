// Tasks whose file holds a drive that stays in it.

ghost use Rattle.std.specs.Prelude.{◌≡◌, false, true};
ghost use Rattle.std.specs.Process.{exit_status};
ghost use Rattle.zonedisk_program.specs.Ends.{is_device};

use asked_tasks::Task;
use disk_jobs::Job;
use std::io::Read;
use std::process::ExitCode;
use std::rt::Files;
use std::{fs, io};

/// How a drive begins that stays in its file. Two bytes follow, which say its version.
const BEGINNING: &[u8] = b"ZNSDRV";

/// The path of the image that a task is about, if it is about one. A format replaces the file, whatever it holds.
fn image_of(task: &Task) -> Option<&str> {
    match task {
        Task::Lines(Job::Format { .. }) => None,
        Task::Lines(job) => job.image(),
        Task::Nbd(job) => Some(job.image.as_str()),
        Task::Copy(job) => Some(job.image()),
        Task::Tool(job) => job.image(),
        Task::Convert(job) => Some(job.image.as_str()),
        Task::Rescue(job) => Some(job.image.as_str()),
        Task::Repair(job) => Some(job.image.as_str()),
        Task::Device(_) => None,
    }
}

/// The first eight bytes of a regular file, which is only read.
fn front_of<F: Files<File = fs::File>>(files: &F, path: &str) -> io::Result<[u8; 8]> {
    let mut front = [0; 8];
    // Opening a pipe waits for its other end.
    if fs::metadata(files, path)?.is_file() {
        fs::open(files, path)?.read_exact(&mut front)?;
    }
    Ok(front)
}

/// Whether the file of this path begins as a drive does that stays in its file, of whatever version. One that cannot be
/// opened does not.
fn begins_so<F: Files<File = fs::File>>(files: &F, path: &str) -> bool {
    match front_of(files, path) {
        Ok(front) => front.starts_with(BEGINNING),
        Err(_) => false,
    }
}

/// Whether a task is a job on a device.
fn is_device(task: &Task) -> bool
    ensures { result ≡ is_device task.now }
{
    matches!(task, Task::Device(_))
}

/// Whether a task is about the image in a file, and that file begins so. A job on a device is not.
pub(crate) fn begins_in_place<F: Files<File = fs::File>>(files: &F, task: &Task) -> bool
    ensures { is_device task.now ≡ true → result ≡ false }
{
    if is_device(task) {
        return false;
    }
    match image_of(task) {
        Some(path) => begins_so(files, path),
        None => false,
    }
}

/// Says on standard error that a task cannot be done on the drive that stays in its file. Each task that is about the
/// image in a file can be.
pub(crate) fn refuse_in_place<R: Eprint>(rt: &R, task: &Task) -> ExitCode
    ensures { exit_status result ≡ 1 }
{
    let path = image_of(task).unwrap_or("");
    let _ = eprintln!(rt;
        "zonedisk: {path}: this cannot be done on a drive that stays in its file"
    );
    ExitCode::FAILURE
}
