use crate::stream_fault::{ExportFault, ImportFault};
use job_drives::{FileFault, KeepFault, NoDiskFault};
use thiserror::Error;

/// Why a copy is not made, or only a part of it.
#[derive(Clone, Copy, Debug, PartialEq, Eq, Error)]
pub enum CopyFault {
    /// The file holds no drive, is not used, takes no more changes, or the drive is not saved in it; or an allocation
    /// failed.
    #[error("{0}")]
    File(KeepFault),
    /// The drive in the file is not mounted.
    #[error("{0}")]
    Mount(NoDiskFault),
    /// The blocks are not written out, or only the first ones.
    #[error("{0}")]
    Export(ExportFault),
    /// The import stopped.
    #[error("{0}")]
    Import(ImportFault),
}

/// That memory ran out for a call of the system is told as such.
impl From<FileFault> for CopyFault {
    fn from(fault: FileFault) -> CopyFault {
        CopyFault::File(KeepFault::from(fault))
    }
}
