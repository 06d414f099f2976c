use batch_log::LogFault;
use std::alloc::AllocError;
use thiserror::Error;

/// Why a drive is not mounted. Each but `Halted`, `OutOfMemory`, `Failed` and `Damaged` comes exactly where it is the
/// first fault that a mount meets.
#[derive(Clone, Copy, Debug, PartialEq, Eq, Error)]
pub enum MountFault {
    /// The number of logical blocks is outside the drive's reserve.
    #[error("the drive's reserve does not allow this number of logical blocks")]
    Reserve,
    /// The drive's geometry is out of range.
    #[error("the geometry of the drive is out of range")]
    Limits,
    /// A zone is Read Only or Offline, the lowest such.
    #[error("zone {0} is Read Only or Offline")]
    ZoneUnusable(u32),
    /// In a zone, at a block of it, no batch begins where one should: with its cause.
    #[error("zone {0} holds no batch at block {1}: {2}")]
    Log(u32, u32, LogFault),
    /// Two batches have one sequence.
    #[error("two batches have one sequence")]
    SequenceRepeated,
    /// A batch names a block past the end of the disk.
    #[error("a batch names a block past the end of the disk")]
    BlockOutOfRange,
    /// More than two zones are partly written.
    #[error("more than two zones are partly written")]
    TooManyPartial,
    /// No zone is vacant or half clean.
    #[error("no zone is vacant or half clean")]
    NoSpare,
    /// A batch has a sequence that is too great, or none is left for the repair of a torn zone.
    #[error("a sequence is 2^63 or more, or too few are left to repair a torn zone")]
    Spent,
    /// The drive has stopped.
    #[error("the drive has stopped")]
    Halted,
    /// An allocation failed.
    #[error("out of memory")]
    OutOfMemory,
    /// The drive failed at a command, which had no effect.
    #[error("the drive failed at a command")]
    Failed,
    /// What the device returned does not fit together. Never of a device that returns what it holds.
    #[error("what the drive returned does not fit together")]
    Damaged,
    /// A zone that an Append was stopped in cannot be repaired.
    #[error("zone {0} is torn, and cannot be repaired")]
    TornZone(u32),
}

impl From<AllocError> for MountFault {
    ghost use Rattle.std.specs.Prelude.{◌≡◌};
    ghost use Rattle.drive_survey.specs.declared.fault.MountFault.TheVariants.{OutOfMemory};

    ghost from_gives = { λ _ fault. fault ≡ OutOfMemory };

    fn from(_error: AllocError) -> MountFault {
        MountFault::OutOfMemory
    }
}
