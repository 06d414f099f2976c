ghost use Rattle.std.specs.Prelude.{◌≡◌};
ghost use Rattle.job_drives.specs.declared.keep_fault.KeepFault.TheVariants as keep;
ghost use Rattle.tool_jobs.specs.declared.fault.ToolFault.TheVariants as tool;

use disk_files::WriteFault;
use drive_journal::ReadFault;
use job_drives::KeepFault;
use std::alloc::AllocError;
use thiserror::Error;
use tool_forms::EntryFault;
use write_plan::PlanFault;

/// Why a tool tells nothing, or only a beginning of what it has to tell.
#[derive(Clone, Copy, Debug, PartialEq, Eq, Error)]
pub enum ToolFault {
    /// The file holds no drive, or is not used.
    #[error("{0}")]
    File(KeepFault),
    /// There is no such plan.
    #[error("{0}")]
    Plan(PlanFault),
    /// No drive is planned for this number of bytes.
    #[error("no drive is planned for more than 4398046511104 bytes")]
    Bytes,
    /// There is no such entry.
    #[error("{0}")]
    Entry(EntryFault),
    /// The drive has stopped: it completes no more commands.
    #[error("the drive has stopped")]
    Stopped,
    /// The drive failed at a command. No zone was changed, and the call can be made again.
    #[error("the drive failed at a command")]
    Failed,
    /// What the drive returned does not fit together. No zone was changed.
    #[error("what the drive returned does not fit together")]
    Damaged,
    /// The output failed.
    #[error("standard output failed")]
    Output,
    /// An allocation failed.
    #[error("out of memory")]
    Memory,
}

impl From<AllocError> for ToolFault {
    ghost from_gives = { λ _ fault. fault ≡ tool.Memory };

    fn from(_error: AllocError) -> ToolFault {
        ToolFault::Memory
    }
}

impl From<WriteFault> for ToolFault {
    ghost from_gives = { λ _ fault. fault ≡ tool.Output };

    fn from(_fault: WriteFault) -> ToolFault {
        ToolFault::Output
    }
}

impl From<ReadFault> for ToolFault {
    ghost from_gives = { λ cause fault. fault ≡ tool.File (keep.Image cause) };

    fn from(cause: ReadFault) -> ToolFault {
        ToolFault::File(KeepFault::Image(cause))
    }
}

impl From<EntryFault> for ToolFault {
    ghost from_gives = { λ cause fault. fault ≡ tool.Entry cause };

    fn from(cause: EntryFault) -> ToolFault {
        ToolFault::Entry(cause)
    }
}
