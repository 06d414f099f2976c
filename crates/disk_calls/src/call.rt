use thiserror::Error;
use zone_translator::DiskFault;

/// How many bytes one call reads or writes at most: 32 MiB.
pub const MOST_BYTES: u64 = 33_554_432;

/// What a host asks of a disk.
#[derive(Clone, Copy, Debug, PartialEq, Eq)]
pub enum Asked {
    /// To show `blocks` blocks from `first` on.
    Read { first: u64, blocks: u64 },
    /// To write `blocks` blocks from `first` on. The host gives their bytes.
    Write { first: u64, blocks: u64 },
    /// To make `blocks` blocks from `first` on zeros, whose data take no room.
    Trim { first: u64, blocks: u64 },
    /// To write `blocks` blocks of zeros from `first` on. They take room, as other data do.
    Zero { first: u64, blocks: u64 },
    /// To tell which of `blocks` blocks from `first` on have data.
    Extents { first: u64, blocks: u64 },
    /// To make the array durable.
    Flush,
    /// To take a turn of cleaning.
    Idle,
    /// To have `blocks` blocks.
    Grow { blocks: u64 },
    /// To let the host look at the disk.
    Look,
}

/// Blocks in a row which all have data, or none of which has.
#[derive(Clone, Copy, Debug, PartialEq, Eq)]
pub struct Extent {
    pub blocks: u64,
    pub has_data: bool,
}

/// Why a call of a host was refused.
#[derive(Clone, Copy, Debug, PartialEq, Eq, Error)]
pub enum CallFault {
    /// The disk refused it.
    #[error("{0}")]
    Disk(DiskFault),
    /// It reads or writes more than [`MOST_BYTES`]. Nothing was done.
    #[error("a call reads or writes 32 MiB at most")]
    TooLong,
    /// It may change the disk, which may only be read. Nothing was done.
    #[error("the disk is read only")]
    ReadOnly,
}
