use job_drives::{FileFault, KeepFault, NoDiskFault};
use nbd_session::SessionFault;
use thiserror::Error;
use zone_translator::DiskFault;

/// Why a drive is not served, or why its session stopped.
#[derive(Clone, Copy, Debug, PartialEq, Eq, Error)]
pub enum NbdFault {
    /// The file holds no drive, is not used, takes no more changes, or the drive is not saved in it; or an allocation
    /// failed.
    #[error("{0}")]
    File(KeepFault),
    /// The drive is not mounted.
    #[error("{0}")]
    Mount(NoDiskFault),
    /// The drive was mounted, but did not do the Flush before the session.
    #[error("the drive was not flushed before the session: {0}")]
    Unflushed(DiskFault),
    /// The session stopped before its client ended it.
    #[error("{0}")]
    Session(SessionFault),
}

/// That memory ran out for a call of the system is told as such.
impl From<FileFault> for NbdFault {
    fn from(fault: FileFault) -> NbdFault {
        NbdFault::File(KeepFault::from(fault))
    }
}
