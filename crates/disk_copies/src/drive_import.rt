// The drive in a file, to which blocks are written.

ghost use Rattle.std.specs.Prelude.{◌≡◌, IfNone, IfSome, IsTrue};
ghost use Rattle.zone_choice.specs.Sane.{KeepsShape};
ghost use Rattle.job_drives.specs.Kept.{HoldsFile};
ghost use Rattle.disk_copies.specs.DriveCopies.{ImportsAnyway, ImportsDrive, ImportsFile, ImportsNothing, import_end};

use crate::copy_fault::CopyFault;
use crate::importing::import_blocks;
use crate::job::ImportJob;
use crate::stream_fault::ImportFault;
use drive_journal::ChangeStore;
use drive_port::{Device, Honest};
use job_drives::{DriveFile, KeepFault, Left, keep_restarted, leave, mount_any};
use std::alloc::Global;
use std::io::Read;
use zone_drive::{Drive, Habit};

/// How an import ended, as it is told.
fn import_end(taken: Result<u64, ImportFault>) -> Result<u64, CopyFault>
    ensures { result ≡ import_end taken }
{
    match taken {
        Ok(count) => Ok(count),
        Err(fault) => Err(CopyFault::Import(fault)),
    }
}

/// Mounts a drive behind any device, and imports blocks into it. It is given back, also after a fault. `written` is how
/// many blocks were written, also before a fault.
pub fn import_mounted<D: Device + Drop, R: Read>(
    alloc: Global,
    job: &ImportJob,
    device: D,
    reader: &mut R,
    written: &mut u64,
) -> (D, Result<u64, CopyFault>)
    // While the drive is clean, the array of its disk has the blocks that were read; or this is why it is not mounted.
    ensures imports { IsTrue (D.drive result.0).clean → ImportsDrive job.now (R.remaining reader.old)
        (R.remaining reader.new) (D.drive device) result.1 written.new (D.drive result.0) }
    // Whatever the Reads returned, the drive has the same shape. Done, the reader is at its end, and gave so many whole
    // blocks. For a drive that is not mounted nothing is read.
    ensures shape { KeepsShape (D.drive device) (D.drive result.0) }
    ensures anyway { ImportsAnyway (D.drive device).geometry (R.remaining reader.old) (R.remaining reader.new)
        result.1 }
{
    *written = 0;
    let mut disk = match mount_any(alloc, device, job.blocks) {
        Ok(disk) => disk,
        Err((fault, device)) => return (device, Err(CopyFault::Mount(fault))),
    };
    let taken = import_blocks(alloc, &mut disk, reader, job.first, job.sparse, written);
    (disk.into_device(), import_end(taken))
}

/// Reads blocks to their end, and writes them to the drive of a file. The changes of the drive go to the store. What
/// is left of the drive is handed back, also after a fault, if the file holds one. `written` is how many blocks were
/// written, also before a fault.
pub fn import_drive<I: Read + Drop, S: ChangeStore<Drive> + Drop, R: Read>(
    alloc: Global,
    job: &ImportJob,
    file: DriveFile<I, S>,
    reader: &mut R,
    written: &mut u64,
) -> (Option<Left>, S, Result<u64, CopyFault>)
    requires { HoldsFile (S.held file.store) (I.remaining file.bytes) }
    // The blocks are imported to the disk of the drive in the file, and the store holds the drive that is left.
    ensures left { IfSome result.0 (λ left. ImportsFile job.now (I.remaining file.bytes)
        (R.remaining reader.old) (R.remaining reader.new) result.2 written.new left (S.held result.1)
        (S.failed result.1)) }
    // Without a drive nothing is read.
    ensures none { IfNone result.0 (ImportsNothing (I.remaining file.bytes)
        (R.remaining reader.old) (R.remaining reader.new) result.2 written.new) }
    ensures unused { IfNone result.0 (S.held result.1 ≡ S.held file.store) }
{
    *written = 0;
    let stored = match keep_restarted(alloc, file, Habit::Lazy) {
        Ok(stored) => stored,
        Err((fault, store)) => {
            return (None, store, Err(CopyFault::File(KeepFault::Image(fault))));
        }
    };
    let (device, taken) = import_mounted(alloc, job, stored.device, reader, written);
    device.vouch();
    let (left, store) = leave(device, stored.was_image);
    (Some(left), store, taken)
}
