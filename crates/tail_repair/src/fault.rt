ghost use Rattle.std.specs.Prelude.{◌≡◌, IsTrue};
ghost use Rattle.drive_port.specs.Drive.{DriveState};
ghost use Rattle.drive_port.specs.declared.device.Halt.TheVariants.{Memory};
ghost use Rattle.tail_repair.specs.Repair.{IsTold, call_fault, look_fault, may_change};
ghost use Rattle.tail_repair.specs.declared.fault.RepairFault.TheVariants.{Halted};

use drive_port::{Halt, PortFault};
use drive_survey::MountFault;
use std::alloc::AllocError;
use thiserror::Error;

/// Why a drive is not repaired.
#[derive(Clone, Copy, Debug, PartialEq, Eq, Error)]
pub enum RepairFault {
    /// The geometry of the drive is out of range.
    #[error("the geometry of the drive is out of range")]
    Limits,
    /// A zone is Read Only or Offline, the lowest such.
    #[error("zone {0} is Read Only or Offline")]
    Unusable(u32),
    /// A zone has two batches with one sequence, or a sequence that is too great.
    #[error("zone {0} has batches that no disk writes")]
    Unsound(u32),
    /// Behind the first foreign block of a zone is a header, at this block: a repair would lose its batch.
    #[error("zone {0} has a header at block {1}, behind blocks that are no batch")]
    Behind(u32, u32),
    /// No zone is Empty, so nothing can be moved.
    #[error("no zone is Empty")]
    NoEmptyZone,
    /// The drive stopped or failed at a command, or memory ran out. A command that failed had no effect. A part may be
    /// done, and the next repair goes on there.
    #[error("{0}")]
    Halted(Halt),
    /// The drive refused a command, or did not hold what was written. A part may be done.
    #[error("the drive did not do what it was asked")]
    Unfinished,
}

/// What a fault that comes after the first change is: nothing promises any more that no zone changed.
pub(crate) fn unfinished(fault: RepairFault) -> RepairFault
    ensures late { IsTrue (may_change result) }
    ensures told { (drive : DriveState) → IsTold drive fault → IsTold drive result }
{
    match fault {
        RepairFault::Halted(halt) => RepairFault::Halted(halt),
        _ => RepairFault::Unfinished,
    }
}

impl From<AllocError> for RepairFault {
    ghost from_gives = { λ _ fault. fault ≡ Halted Memory };

    fn from(_error: AllocError) -> RepairFault {
        RepairFault::Halted(Halt::Memory)
    }
}

impl From<PortFault> for RepairFault {
    ghost from_gives = { λ given fault. fault ≡ call_fault given };

    fn from(fault: PortFault) -> RepairFault {
        match fault {
            PortFault::Memory => RepairFault::Halted(Halt::Memory),
            PortFault::Failed => RepairFault::Halted(Halt::Failed),
            PortFault::Stopped => RepairFault::Halted(Halt::Stopped),
            PortFault::Refused(_) => RepairFault::Unfinished,
        }
    }
}

impl From<MountFault> for RepairFault {
    ghost from_gives = { λ given fault. fault ≡ look_fault given };

    fn from(fault: MountFault) -> RepairFault {
        match fault {
            MountFault::OutOfMemory => RepairFault::Halted(Halt::Memory),
            MountFault::Halted => RepairFault::Halted(Halt::Stopped),
            MountFault::Failed => RepairFault::Halted(Halt::Failed),
            _ => RepairFault::Unfinished,
        }
    }
}
