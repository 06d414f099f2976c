// The disk with which a session begins.

ghost use Rattle.std.specs.Prelude.{IfErr, IfOk, IsTrue};
ghost use Rattle.zone_choice.specs.Sane.{KeepsShape};
ghost use Rattle.nbd_jobs.specs.Begun.{IsBegun, IsNotBegun, IsOfDrive};

use crate::fault::NbdFault;
use drive_port::Device;
use job_drives::mount_any;
use std::alloc::Global;
use zone_translator::AnyDisk;

/// Mounts a drive to be served, as `blocks` logical blocks if it does not say its size, and flushes it if that is to be
/// done before a session. With the fault the drive is given back.
pub(crate) fn mount_flushed<D: Device + Drop>(
    alloc: Global,
    device: D,
    blocks: Option<u64>,
    flushes: bool,
) -> Result<AnyDisk<D>, (NbdFault, D)>
    // While the drive is clean, this is the disk with which a session begins, or why none does.
    ensures disk { IfOk result (λ disk. IsTrue disk.drive.clean → IsBegun flushes (D.drive device) blocks disk) }
    ensures err { IfErr result (λ refusal. IsTrue (D.drive refusal.1).clean
        → IsNotBegun flushes (D.drive device) blocks refusal.0 (D.drive refusal.1)) }
    // Whatever the Reads returned, the drive has the same shape, and a fault is one of the drive.
    ensures shape { IfOk result (λ disk. KeepsShape (D.drive device) disk.drive) }
    ensures back { IfErr result (λ refusal. KeepsShape (D.drive device) (D.drive refusal.1)) }
    ensures kind { IfErr result (λ refusal. IsOfDrive refusal.0) }
{
    let mut disk = match mount_any(alloc, device, blocks) {
        Ok(disk) => disk,
        Err((fault, device)) => return Err((NbdFault::Mount(fault), device)),
    };
    if !flushes {
        return Ok(disk);
    }
    if let Err(fault) = disk.flush() {
        return Err((NbdFault::Unflushed(fault), disk.into_device()));
    }
    Ok(disk)
}
