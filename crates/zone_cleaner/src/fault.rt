use std::alloc::AllocError;
use thiserror::Error;

/// Why a turn was not done. The clean is as it was before the turn.
#[derive(Clone, Copy, Debug, PartialEq, Eq, Error)]
pub enum CleanFault {
    /// An allocation failed. The drive may have completed a Read or a Close.
    #[error("out of memory")]
    OutOfMemory,
    /// The drive failed at a command, which had no effect. It may have completed a Close.
    #[error("the drive failed at a command")]
    Failed,
    /// The drive has stopped.
    #[error("the drive has stopped")]
    Stopped,
    /// The sequence numbers that are left are kept for the repair of a zone, at a mount. Nothing was sent.
    #[error("no sequence number is left for a Move")]
    Spent,
    /// The drive refused a command, or the tables do not fit the clean: a Read returned other bytes than the drive
    /// holds. While the drive is clean this is never answered.
    #[error("the drive does not hold what it returned")]
    Damaged,
}

impl From<AllocError> for CleanFault {
    ghost use Rattle.std.specs.Prelude.{◌≡◌};
    ghost use Rattle.zone_cleaner.specs.declared.fault.CleanFault.TheVariants.{OutOfMemory};

    ghost from_gives = { λ _ fault. fault ≡ OutOfMemory };

    fn from(_error: AllocError) -> CleanFault {
        CleanFault::OutOfMemory
    }
}
