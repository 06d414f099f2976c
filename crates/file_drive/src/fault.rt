use std::alloc::{AllocError, AllocFailed};
use std::io;
use thiserror::Error;
use zone_states::GeometryFault;

/// Why a file is not opened as a drive.
#[derive(Debug, Error, Drop)]
pub enum OpenFault {
    /// It does not begin with the eight bytes of a drive in a file.
    #[error("it is no drive in a file")]
    NotADrive,
    /// It begins with the eight bytes of another version.
    #[error("a drive in a file of another version")]
    Version,
    /// The first part of the geometry that is out of range.
    #[error("{0}")]
    Geometry(GeometryFault),
    /// It is shorter than its geometry wants, which is this many bytes.
    #[error("the file is too short for its drive: `truncate -s {0}` adds zeros, and rescue reads what is left")]
    Short(u64),
    /// It is longer than that many bytes.
    #[error("the file is too long for its drive: `truncate -s {0}` removes what follows")]
    Long(u64),
    /// The table of the last flush has a word that is none of a zone, or that the zone's state does not allow. The zone
    /// has this number.
    #[error("the table says of zone {0} what cannot be")]
    Table(u32),
    /// More zones are active or open than may be.
    #[error("more zones are active than may be")]
    Limits,
    /// Its mark is that of another file. So it is a copy of one that a program had, or was killed with, and its blocks
    /// may be of different moments.
    #[error("a copy of a drive that was in use")]
    Copied,
    /// A read or a write of the file failed.
    #[error("{0}")]
    Input(io::Error),
    /// The file could not be synced before it was used. So what an earlier program wrote since its last flush may be
    /// lost. The next open takes the table of that flush.
    #[error("the system could not write what an earlier program wrote: {0}")]
    Unsynced(io::Error),
    /// An allocation failed.
    #[error("out of memory")]
    OutOfMemory,
}

impl From<AllocError> for OpenFault {
    ghost use Rattle.std.specs.Prelude.{◌≡◌};
    ghost use Rattle.file_drive.specs.declared.fault.OpenFault.TheVariants.{OutOfMemory};

    ghost from_gives = { λ _ fault. fault ≡ OutOfMemory };

    fn from(_error: AllocError) -> OpenFault {
        OpenFault::OutOfMemory
    }
}

impl<T: Drop> From<AllocFailed<T>> for OpenFault {
    ghost use Rattle.std.specs.Prelude.{◌≡◌};
    ghost use Rattle.file_drive.specs.declared.fault.OpenFault.TheVariants.{OutOfMemory};

    ghost from_gives = { λ _ fault. fault ≡ OutOfMemory };

    fn from(_error: AllocFailed<T>) -> OpenFault {
        OpenFault::OutOfMemory
    }
}

impl From<io::Error> for OpenFault {
    ghost use Rattle.std.specs.Prelude.{◌≡◌};
    ghost use Rattle.file_drive.specs.declared.fault.OpenFault.TheVariants.{Input};

    ghost from_gives = { λ error fault. fault ≡ Input error };

    fn from(error: io::Error) -> OpenFault {
        OpenFault::Input(error)
    }
}
