use std::alloc::AllocError;
use thiserror::Error;
use zone_cleaner::CleanFault;

/// Why a call of a disk was refused.
#[derive(Clone, Copy, Debug, PartialEq, Eq, Error)]
pub enum DiskFault {
    /// A block at or past the end of the disk was named. Nothing was sent, and nothing changed.
    #[error("a block at or past the end of the disk was named")]
    OutOfRange,
    /// An allocation failed. Of a write, a fill or a trim a front is in place, a growth is not done, and the disk
    /// continues.
    #[error("out of memory")]
    OutOfMemory,
    /// The drive has stopped. Of a write, a fill or a trim a front is in place; of a growth only a mount of the
    /// restarted drive can tell whether it is done.
    #[error("the drive has stopped")]
    Stopped,
    /// The sequence numbers that are left are kept for the repair of a zone, at a mount. Of a write, a fill or a
    /// trim a front is in place, a growth is not done, and reads continue.
    #[error("no sequence number is left for a batch of the disk")]
    Spent,
    /// A remount was refused, and none was done since. Nothing was sent, and nothing changed.
    #[error("the disk is not mounted")]
    Unmounted,
    /// A growth to fewer blocks than the disk has. Nothing was sent, and nothing changed.
    #[error("the disk has more blocks already")]
    Smaller,
    /// A growth to more blocks than the drive's reserve allows. Nothing was sent, and nothing changed.
    #[error("the drive's reserve does not allow this number of logical blocks")]
    Reserve,
    /// The drive failed at a command, which had no effect. Of a write, a fill or a trim a front is in place, a growth
    /// is not done, and the disk continues.
    #[error("the drive failed at a command")]
    Failed,
    /// What the drive returned does not fit, or it refused a command. A drive that obeys, and returns what it holds,
    /// gives no cause for it. The disk answers `Stopped` from then on, until its drive is mounted again.
    #[error("what the drive returned does not fit")]
    Damaged,
}

impl From<AllocError> for DiskFault {
    ghost use Rattle.std.specs.Prelude.{◌≡◌};
    ghost use Rattle.zone_translator.specs.declared.fault.DiskFault.TheVariants.{OutOfMemory};

    ghost from_gives = { λ _ fault. fault ≡ OutOfMemory };

    fn from(_error: AllocError) -> DiskFault {
        DiskFault::OutOfMemory
    }
}

impl From<CleanFault> for DiskFault {
    ghost use Rattle.std.specs.Prelude.{◌≡◌};
    ghost use Rattle.zone_translator.specs.Changes.{cleaning_fault};

    ghost from_gives = { λ cause fault. fault ≡ cleaning_fault cause };

    fn from(cause: CleanFault) -> DiskFault {
        match cause {
            CleanFault::OutOfMemory => DiskFault::OutOfMemory,
            CleanFault::Failed => DiskFault::Failed,
            CleanFault::Stopped => DiskFault::Stopped,
            CleanFault::Spent => DiskFault::Spent,
            CleanFault::Damaged => DiskFault::Damaged,
        }
    }
}
