// What makes durable what a drive has completed.

ghost use Rattle.std.specs.Prelude.{IsTrue};
ghost use Rattle.device_jobs.specs.Durable.{FlushesBy, Hardens};

use drive_port::{Device, PortFault, flush};
use nbd_session::Medium;
use std::alloc::Global;
use thiserror::Error;

/// Why what a drive has completed may not be durable.
#[derive(Clone, Copy, Debug, PartialEq, Eq, Error)]
pub enum HardenFault {
    /// The drive did not do a Flush.
    #[error("a Flush was not done: {0}")]
    Drive(PortFault),
    /// The medium of the drive failed.
    #[error("what was written could not be made durable")]
    Medium,
}

/// Flushes a drive, if that is asked for.
fn flush_if<D: Device>(alloc: Global, flushes: bool, device: &mut D) -> Result<(), PortFault>
    ensures flushes { FlushesBy flushes (D.drive device.old) result (D.drive device.new) }
    ensures trusted { IsTrue (D.drive device.new).clean → IsTrue (D.drive device.old).clean }
{
    if !flushes {
        return Ok(());
    }
    flush(alloc, device)
}

/// Flushes a drive if that is asked for, and then syncs its medium.
pub(crate) fn harden_by<D: Device, M: Medium>(
    alloc: Global,
    flushes: bool,
    device: &mut D,
    medium: &mut M,
) -> Result<(), HardenFault>
    ensures hardens { Hardens flushes (record { before = M.syncs medium.old; after = M.syncs medium.new })
        (D.drive device.old) result (D.drive device.new) }
    ensures trusted { IsTrue (D.drive device.new).clean → IsTrue (D.drive device.old).clean }
{
    if let Err(fault) = flush_if(alloc, flushes, device) {
        return Err(HardenFault::Drive(fault));
    }
    match medium.sync() {
        Ok(()) => Ok(()),
        Err(_) => Err(HardenFault::Medium),
    }
}

/// Makes durable what a drive has completed: by a Flush where a sync of its medium is that, and by a sync.
pub fn harden<D: Device, M: Medium>(
    alloc: Global,
    device: &mut D,
    medium: &mut M,
) -> Result<(), HardenFault>
    ensures { Hardens (M.flushes medium.old) (record { before = M.syncs medium.old; after = M.syncs medium.new })
        (D.drive device.old) result (D.drive device.new) }
{
    harden_by(alloc, medium.flushes(), device, medium)
}
