// How the file of a drive is left, and what is told of that.

ghost use Rattle.std.specs.Prelude.{◌≡◌};
ghost use Rattle.job_drives.specs.Left.{drive_to_save, first_told, stays};

use crate::changes_file::ChangesFile;
use crate::file_end::FileEnd;
use crate::file_fault::FileFault;
use crate::left::Left;
use crate::new_file::Saved;
use std::fs::File;
use std::rt::Files;
use zone_drive::Drive;

/// Whether a file stays as it is: no change was appended, and it was the image of the drive at rest; or it takes no
/// more changes. Else the drive is saved in it.
pub fn stays(end: FileEnd, was_image: bool) -> bool
    ensures { result ≡ stays end was_image }
{
    end.takes_none || (!end.is_changed && was_image)
}

/// What is saved of a job: the drive that it left, also after a fault. Nothing is saved if the file stays as it is,
/// since it was the image of the drive at rest and is unchanged, or takes no more changes; nor if a change could not be
/// written to it.
pub fn drive_to_save(end: FileEnd, left: Option<Left>) -> Option<Drive>
    ensures { result ≡ drive_to_save end left }
{
    let left = left?;
    if left.failed || stays(end, left.was_image) {
        return None;
    }
    Some(left.drive)
}

/// How a job ended: where its file failed meanwhile, whatever the job met of that is told as the fault of the file.
pub fn first_told<T: Drop, F: Drop>(ended: Result<T, F>, failed: Option<F>) -> Result<T, F>
    ensures { result ≡ first_told ended failed }
{
    match failed {
        Some(fault) => Err(fault),
        None => ended,
    }
}

/// How the use of a file ended. Both can fail.
#[derive(Clone, Copy, Debug, PartialEq, Eq)]
pub struct Finished {
    /// Why the file takes no more changes, or why those that it has may not be on the disk.
    pub fault: Option<FileFault>,
    /// How the drive was saved. It is `Ok` if there was none to save.
    pub saved: Result<Saved, FileFault>,
}

/// Writes all changes to a file, and ends its use: what a job left of the drive is saved in it, unless the file stays
/// as it is.
pub fn finish<F: Files<File = File>>(file: ChangesFile<'_, F>, left: Option<Left>) -> Finished {
    // A fault is told by the file.
    let _ = file.write_out();
    let fault = file.fault();
    let drive = drive_to_save(file.end(), left);
    Finished {
        fault,
        saved: file.save(drive),
    }
}
