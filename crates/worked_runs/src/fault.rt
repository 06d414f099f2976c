use std::alloc::{AllocError, AllocFailed};
use std::fmt;

/// Why a script ends at a line: it has no answer, or a sweep found something wrong.
#[derive(Clone, Copy)]
pub enum ScriptFault {
    /// The words are none of a script's, or are where they mean nothing.
    Words,
    /// An allocation failed.
    Memory,
    /// The replies are not a flat array's.
    Replies,
    /// A run that is to stop does not.
    NotStopped,
    /// The drive cannot be mounted.
    NotMounted,
    /// Some zone has no log.
    NoLog,
    /// The drive holds another array.
    Array,
}

impl fmt::Display for ScriptFault {
    fn fmt<W: fmt::Write>(&self, f: &mut fmt::Formatter<W>) -> fmt::Result {
        match self {
            ScriptFault::Words => write!(f, "these words are none of a script's"),
            ScriptFault::Memory => write!(f, "out of memory"),
            ScriptFault::Replies => write!(f, "the replies are not those of a flat array"),
            ScriptFault::NotStopped => write!(f, "the run is not stopped"),
            ScriptFault::NotMounted => write!(f, "the drive cannot be mounted"),
            ScriptFault::NoLog => write!(f, "some zone has no log"),
            ScriptFault::Array => write!(f, "the drive holds another array"),
        }
    }
}

impl From<AllocError> for ScriptFault {
    fn from(_error: AllocError) -> ScriptFault {
        ScriptFault::Memory
    }
}

impl<T: Drop> From<AllocFailed<T>> for ScriptFault {
    fn from(_error: AllocFailed<T>) -> ScriptFault {
        ScriptFault::Memory
    }
}
