use hex::FromHexError;
use std::alloc::AllocError;
use thiserror::Error;

/// Why a line has no answer.
#[derive(Clone, Copy, Debug, PartialEq, Eq, Error)]
pub enum RowsFault {
    /// The words are none of a session's.
    #[error("these words are none of a session's")]
    Words,
    /// An allocation failed.
    #[error("out of memory")]
    Memory,
    /// The drive could not be made, or not be mounted.
    #[error("the drive cannot be mounted")]
    Drive,
    /// A cut session did not send a beginning of what the whole one sends.
    #[error("a cut session sends something else")]
    Cut,
}

impl From<AllocError> for RowsFault {
    fn from(_error: AllocError) -> RowsFault {
        RowsFault::Memory
    }
}

impl From<FromHexError> for RowsFault {
    fn from(_error: FromHexError) -> RowsFault {
        RowsFault::Words
    }
}
