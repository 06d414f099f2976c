ghost use Rattle.std.specs.Prelude.{◌≡◌};
ghost use Rattle.disk_copies.specs.declared.stream_fault.ExportFault.TheVariants as exports;
ghost use Rattle.disk_copies.specs.declared.stream_fault.ImportFault.TheVariants as imports;

use disk_files::{FillFault, WriteFault};
use std::alloc::AllocError;
use thiserror::Error;
use zone_translator::DiskFault;

/// Why blocks are not written, or only the first ones.
#[derive(Clone, Copy, Debug, PartialEq, Eq, Error)]
pub enum ExportFault {
    /// The disk refused to show the blocks.
    #[error("{0}")]
    Disk(DiskFault),
    /// The drive failed at the command that reads this block. All blocks before it are written.
    #[error("block {0} cannot be read: the drive failed at a command")]
    Unread(u64),
    /// The blocks go past the end of the disk, which has that many. Nothing is written.
    #[error("the disk has {0} blocks, and the export goes past its end")]
    PastEnd(u64),
    /// The writer failed.
    #[error("standard output failed")]
    Output,
}

impl From<DiskFault> for ExportFault {
    ghost from_gives = { λ cause fault. fault ≡ exports.Disk cause };

    fn from(cause: DiskFault) -> ExportFault {
        ExportFault::Disk(cause)
    }
}

impl From<WriteFault> for ExportFault {
    ghost from_gives = { λ _ fault. fault ≡ exports.Output };

    fn from(_fault: WriteFault) -> ExportFault {
        ExportFault::Output
    }
}

/// Why an import stopped. The whole blocks before are on the disk.
#[derive(Clone, Copy, Debug, PartialEq, Eq, Error)]
pub enum ImportFault {
    /// The reader failed.
    #[error("standard input failed")]
    Input,
    /// The reader ended within a block.
    #[error("standard input ended within a block")]
    Rest,
    /// A block came for which the disk has no room.
    #[error("standard input has more blocks than the disk has room for")]
    PastEnd,
    /// The disk refused to write the blocks. A front of the last ones may be written.
    #[error("{0}")]
    Disk(DiskFault),
    /// There is no memory for what is read. Nothing was read.
    #[error("out of memory")]
    Memory,
}

impl From<FillFault> for ImportFault {
    ghost from_gives = { λ _ fault. fault ≡ imports.Input };

    fn from(_fault: FillFault) -> ImportFault {
        ImportFault::Input
    }
}

impl From<DiskFault> for ImportFault {
    ghost from_gives = { λ cause fault. fault ≡ imports.Disk cause };

    fn from(cause: DiskFault) -> ImportFault {
        ImportFault::Disk(cause)
    }
}

impl From<AllocError> for ImportFault {
    ghost from_gives = { λ _ fault. fault ≡ imports.Memory };

    fn from(_error: AllocError) -> ImportFault {
        ImportFault::Memory
    }
}
