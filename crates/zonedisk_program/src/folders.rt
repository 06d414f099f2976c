// Paths that lead into a folder which is not there.

use asked_tasks::Task;
use device_jobs::DeviceJob;
use rescue_jobs::RescueJob;
use std::fs;
use std::io::ErrorKind;
use std::rt::Files;

/// The folder of a path, if there is no such folder.
fn missing_folder<'p, F: Files<File = fs::File>>(files: &F, path: &'p str) -> Option<&'p str> {
    let folder = match path.rfind('/') {
        None | Some(0) => return None,
        Some(end) => &path[..end],
    };
    match fs::metadata(files, folder) {
        Ok(metadata) if !metadata.is_dir() => Some(folder),
        Err(error) if error.kind() == ErrorKind::NotFound => Some(folder),
        _ => None,
    }
}

/// Says on standard error if there is no folder for a path.
fn tell_missing<R: Eprint + Files<File = fs::File>>(rt: &R, path: &str) {
    if let Some(folder) = missing_folder(rt, path) {
        let _ = eprintln!(rt; "zonedisk: {path}: there is no folder {folder}");
    }
}

/// The same for the files that a rescue makes.
fn tell_missing_of_rescue<R: Eprint + Files<File = fs::File>>(rt: &R, job: &RescueJob) {
    for path in [&job.to, &job.json] {
        if let Some(path) = path {
            tell_missing(rt, path);
        }
    }
}

/// Says on standard error if there is no folder for a file that a task names.
pub(crate) fn tell_missing_folders<R: Eprint + Files<File = fs::File>>(rt: &R, task: &Task) {
    match task {
        Task::Lines(job) => {
            if let Some(path) = job.image() {
                tell_missing(rt, path);
            }
        }
        Task::Nbd(job) => tell_missing(rt, &job.image),
        Task::Copy(job) => tell_missing(rt, job.image()),
        Task::Tool(job) => {
            if let Some(path) = job.image() {
                tell_missing(rt, path);
            }
        }
        Task::Convert(job) => {
            tell_missing(rt, &job.image);
            tell_missing(rt, &job.to);
        }
        Task::Rescue(job) => {
            tell_missing(rt, &job.image);
            tell_missing_of_rescue(rt, job);
        }
        Task::Repair(job) => tell_missing(rt, &job.image),
        Task::Device(DeviceJob::Create { image, .. }) => tell_missing(rt, image),
        Task::Device(DeviceJob::Rescue(job)) => tell_missing_of_rescue(rt, job),
        Task::Device(_) => {}
    }
}
