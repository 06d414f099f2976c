use hex::FromHexError;
use std::alloc::AllocError;
use thiserror::Error;

/// Why a line has no answer.
#[derive(Clone, Copy, Debug, PartialEq, Eq, Error)]
pub enum RowsFault {
    /// The words are none that a line may have.
    #[error("these words are none that a line may have")]
    Words,
    /// An allocation failed.
    #[error("out of memory")]
    Memory,
}

impl From<AllocError> for RowsFault {
    fn from(_error: AllocError) -> RowsFault {
        RowsFault::Memory
    }
}

impl From<FromHexError> for RowsFault {
    fn from(_error: FromHexError) -> RowsFault {
        RowsFault::Words
    }
}
