// What a job begins with on the drive in a file, and what it leaves of that drive.

ghost use Rattle.std.specs.Prelude.{◌≡◌, IfErr, IfOk, IfSome};
ghost use Rattle.drive_journal.specs.FileFaults.{IsFileFault};
ghost use Rattle.job_drives.specs.Kept.{HoldsFile};
ghost use Rattle.job_drives.specs.Left.{IsLeft, StartsStored};

use crate::kept_drive::{DriveFile, keep, restarted_drive};
use drive_journal::{ChangeStore, Journaling, ReadFault};
use std::alloc::Global;
use std::io::Read;
use zone_drive::{Drive, Habit};

/// A drive whose changes go to a store.
#[derive(Drop)]
pub struct Stored<S: ChangeStore<Drive> + Drop> {
    pub device: Journaling<Drive, S>,
    /// Whether the file was the image of the drive at rest.
    pub was_image: bool,
}

/// What a job left of the drive in a file.
#[derive(Drop)]
pub struct Left {
    pub drive: Drive,
    /// Whether the store failed. Then it has all changes before that one, and the drive that counts is the one that it
    /// holds.
    pub failed: bool,
    /// Whether the file was the image of the drive at rest, before the job.
    pub was_image: bool,
}

/// Reads the drive in a file, restarts it and gives it a habit. Its changes go to the store of the file. With the fault
/// the store is given back.
pub fn keep_restarted<I: Read + Drop, S: ChangeStore<Drive> + Drop>(
    alloc: Global,
    file: DriveFile<I, S>,
    habit: Habit,
) -> Result<Stored<S>, (ReadFault, S)>
    requires { HoldsFile (S.held file.store) (I.remaining file.bytes) }
    ensures ok { IfOk result (λ stored.
        StartsStored (I.remaining file.bytes) habit stored.device.drive stored.was_image) }
    ensures err { IfErr result (λ refusal.
        IfSome (I.remaining file.bytes) (λ bytes. IsFileFault bytes refusal.0)) }
    ensures unused { IfErr result (λ refusal. S.held refusal.1 ≡ S.held file.store) }
{
    let DriveFile { mut bytes, store } = file;
    match restarted_drive(alloc, &mut bytes, habit) {
        Ok(begun) => Ok(Stored {
            was_image: begun.is_image,
            device: keep(alloc, begun, store),
        }),
        Err(fault) => Err((fault, store)),
    }
}

/// What is left of a drive whose changes went to a store, and the store.
pub fn leave<S: ChangeStore<Drive> + Drop>(
    device: Journaling<Drive, S>,
    was_image: bool,
) -> (Left, S)
    ensures left { IsLeft device.drive result.0 (S.held result.1) (S.failed result.1) }
    ensures was_image { result.0.was_image ≡ was_image }
{
    let (drive, store) = device.into_parts();
    let left = Left {
        drive,
        failed: store.has_failed(),
        was_image,
    };
    (left, store)
}
