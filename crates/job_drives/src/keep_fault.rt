ghost use Rattle.std.specs.Prelude.{◌≡◌};
ghost use Rattle.job_drives.specs.declared.keep_fault.KeepFault.TheVariants.{Image};

use crate::file_fault::FileFault;
use drive_images::ImageFault;
use drive_journal::ReadFault;
use std::alloc::{AllocError, Global};
use thiserror::Error;

/// Why a job does not work on the drive in a file, or why the drive is not saved in it.
#[derive(Clone, Copy, Debug, PartialEq, Eq, Error)]
pub enum KeepFault {
    /// The file holds no drive: its image or a change after it has a fault.
    #[error("{0}")]
    Image(ReadFault),
    /// The file is not used, takes no more changes, or the drive is not saved in it.
    #[error("{0}")]
    File(FileFault),
    /// An allocation failed.
    #[error("out of memory")]
    Memory,
}

impl From<ReadFault> for KeepFault {
    ghost from_gives = { λ cause fault. fault ≡ Image cause };

    fn from(cause: ReadFault) -> KeepFault {
        KeepFault::Image(cause)
    }
}

/// That memory ran out for a call of the system is told as such.
impl From<FileFault> for KeepFault {
    fn from(cause: FileFault) -> KeepFault {
        if cause.is_memory() {
            return KeepFault::Memory;
        }
        KeepFault::File(cause)
    }
}

/// What else people should know of a file in which no drive is read, by the fault of its bytes.
pub fn unread_note(fault: ReadFault) -> &'static str {
    match fault {
        ReadFault::Image(ImageFault::Magic) => {
            ". If a format --in-place or a convert was killed while it made this file, it holds nothing: remove it"
        }
        _ => "",
    }
}

impl KeepFault {
    /// One line for people that says what the fault is, of the file of this path, without a line feed.
    pub fn explain(self, alloc: Global, path: &str) -> Result<String, AllocError> {
        match self {
            KeepFault::Image(fault) => {
                let note = unread_note(fault);
                format!(in alloc; "{path}: {fault}{note}")
            }
            KeepFault::File(fault) => format!(in alloc; "{path} {fault}"),
            KeepFault::Memory => String::from_str(alloc, "out of memory"),
        }
    }
}
