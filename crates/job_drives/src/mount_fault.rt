use drive_survey::MountFault;
use thiserror::Error;

/// Why no disk is mounted on a drive. The greatest number of blocks is told where another number would help.
#[derive(Clone, Copy, Debug, PartialEq, Eq, Error)]
pub enum NoDiskFault {
    /// The drive is not mounted.
    #[error("{0}")]
    Mount(MountFault),
    /// The drive has not room for that many logical blocks, but for `most` of them.
    #[error("the drive has room for 1 to {most} logical blocks")]
    Reserve { most: u64 },
    /// Nothing was written to the drive, so it does not say how many logical blocks it has, and no number was given. It
    /// has room for `most`.
    #[error("the drive does not say how many logical blocks it has: --blocks says it, from 1 to {most}")]
    Unwritten { most: u64 },
    /// The drive was written, but its headers say no size, as those of version 1, and no number was given. It has room
    /// for `most`.
    #[error("the drive was written, but its headers say no size: --blocks says it, from 1 to {most}")]
    NoSize { most: u64 },
}
