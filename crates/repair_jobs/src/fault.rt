ghost use Rattle.std.specs.Prelude.{◌≡◌, not};
ghost use Rattle.tail_repair.specs.Repair.{may_change};
ghost use Rattle.repair_jobs.specs.Jobs.{untold};

use drive_port::Halt;
use job_drives::KeepFault;
use tail_repair::RepairFault;
use thiserror::Error;
use tool_jobs::ToolFault;

/// Why a drive is not repaired, or why it is not told what is wrong with it.
#[derive(Clone, Copy, Debug, PartialEq, Eq, Error)]
pub enum RepairJobFault {
    /// The file holds no drive, is not used, takes no more changes, or the drive is not saved in it; or an allocation
    /// failed.
    #[error("{0}")]
    File(KeepFault),
    /// The drive is not repaired, or not to its end.
    #[error("{0}")]
    Repair(RepairFault),
    /// The output failed.
    #[error("standard output failed")]
    Output,
}

/// Whether a repair was refused. Then no zone was changed.
pub fn is_refusal(fault: RepairFault) -> bool
    ensures { result ≡ not (may_change fault) }
{
    match fault {
        RepairFault::Halted(_) | RepairFault::Unfinished => false,
        _ => true,
    }
}

/// Why a text is not written: the output failed, or an allocation did.
pub(crate) fn untold(fault: ToolFault) -> RepairJobFault
    ensures { result ≡ untold fault }
{
    match fault {
        ToolFault::Output => RepairJobFault::Output,
        _ => RepairJobFault::Repair(RepairFault::Halted(Halt::Memory)),
    }
}
