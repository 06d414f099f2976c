ghost use Rattle.std.specs.Prelude.{◌≡◌};
ghost use Rattle.disk_runs.specs.Run.{line_fault};
ghost use Rattle.disk_runs.specs.declared.fault.RunFault.TheVariants.{Memory, Output};

use disk_files::{LineFault, WriteFault};
use std::alloc::AllocError;
use thiserror::Error;
use zone_states::GeometryFault;
use zone_translator::{DiskFault, MountFault};

/// Why a run ended before its lines did. As text it is the name of its variant; `write_fault` writes the
/// line that a program shows.
#[derive(Clone, Copy, Debug, PartialEq, Eq, Error)]
pub enum RunFault {
    /// The line of this number, counted from 1, is not in the grammar.
    #[error("Line")]
    Line(u64),
    /// The line of this number has more than `LONGEST_LINE` bytes.
    #[error("Long")]
    Long(u64),
    /// The disk refused a call, or the drive halted.
    #[error("Disk")]
    Disk(DiskFault),
    /// The drive was not mounted, at first or again.
    #[error("Mount")]
    Mount(MountFault),
    /// The geometry of the drive is out of range.
    #[error("Geometry")]
    Geometry(GeometryFault),
    /// The reader failed, or did not end.
    #[error("Input")]
    Input,
    /// The writer failed, or took no byte.
    #[error("Output")]
    Output,
    /// Memory ran out for a line or a reply. Nothing came of the line.
    #[error("Memory")]
    Memory,
}

impl From<AllocError> for RunFault {
    ghost from_gives = { λ _ fault. fault ≡ Memory };

    fn from(_error: AllocError) -> RunFault {
        RunFault::Memory
    }
}

impl From<WriteFault> for RunFault {
    ghost from_gives = { λ _ fault. fault ≡ Output };

    fn from(_fault: WriteFault) -> RunFault {
        RunFault::Output
    }
}

impl RunFault {
    /// What the fault of a line that was not read is to a run, by the line's number.
    pub(crate) fn of_line(fault: LineFault, number: u64) -> RunFault
        ensures { result ≡ line_fault number fault }
    {
        match fault {
            LineFault::Long => RunFault::Long(number),
            LineFault::Input => RunFault::Input,
            LineFault::Memory => RunFault::Memory,
        }
    }
}
