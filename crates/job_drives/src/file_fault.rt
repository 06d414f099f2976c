use std::fmt::{Display, Formatter};
use std::io::ErrorKind;
use std::{fmt, io};
use thiserror::Error;

/// What the system said of a call that failed.
#[derive(Clone, Copy, Debug, PartialEq, Eq)]
pub struct SystemError {
    kind: ErrorKind,
    code: Option<i32>,
}

impl SystemError {
    /// Whether there was no memory for the call.
    pub fn is_memory(self) -> bool {
        self.kind == ErrorKind::OutOfMemory
    }
}

impl From<io::Error> for SystemError {
    fn from(error: io::Error) -> SystemError {
        SystemError {
            kind: error.kind(),
            code: error.raw_os_error(),
        }
    }
}

impl Display for SystemError {
    fn fmt<W: fmt::Write>(&self, f: &mut Formatter<W>) -> fmt::Result {
        match self.code {
            Some(code) => io::Error::from_raw_os_error(code).fmt(f),
            None => self.kind.fmt(f),
        }
    }
}

/// Why the file of an image is not used, or why the drive is not saved in it. Its text follows the file's path.
/// After each of them the file has all changes that were answered: those of a fresh drive are none.
#[derive(Clone, Copy, Debug, PartialEq, Eq, Error)]
pub enum FileFault {
    /// It cannot be opened, or a new file cannot be made at its path.
    #[error("cannot be opened: {0}")]
    Open(SystemError),
    /// It is a folder, a device or a pipe.
    #[error("is not a regular file")]
    NotRegular,
    /// It is not empty, and does not begin as an image does.
    #[error("does not begin as an image does: --force replaces it all the same")]
    NotImage,
    /// The system keeps no locks for it.
    #[error("cannot be locked: {0}")]
    Lock(SystemError),
    /// Another program has locked it, or has just replaced it.
    #[error("is in use by another program")]
    InUse,
    /// Its folder cannot be synchronized, so no save of it would be durable. Nothing was read or changed.
    #[error("is not opened, since its folder is missing or cannot be synchronized: {0}")]
    Folder(SystemError),
    /// A change cannot be written to it. It has all changes before that one.
    #[error("takes no more changes: {0}")]
    Change(SystemError),
    /// Its changes cannot be brought to the disk. The replies that depend on them are not sent.
    #[error("cannot be synchronized: {0}")]
    Sync(SystemError),
    /// No new file can be made in its folder.
    #[error("is not written anew, and keeps all that it holds: no new file can be made in its folder: {0}")]
    NewFile(SystemError),
    /// The new file cannot be written.
    #[error("is not written anew, and keeps all that it holds: the new file cannot be written: {0}")]
    Write(SystemError),
    /// Another file is at its path now.
    #[error("is not saved: another file is at its path now")]
    Replaced,
    /// The new file cannot take its place.
    #[error("is not written anew, and keeps all that it holds: the new file cannot take its place: {0}")]
    Rename(SystemError),
    /// No file can ever take its place. It is not tried again.
    #[error("is never written anew, since it is mounted by itself: it keeps its image and all changes")]
    Mounted,
    /// No new file can ever be made for it. It is not tried again.
    #[error("is never written anew, since the name of a new file would be too long: it keeps its image and all changes")]
    LongName,
    /// It was removed while it was in use, and no file can be made in its place.
    #[error("was removed while it was in use, and is not saved again: {0}")]
    Removed(SystemError),
}

impl FileFault {
    /// What the system said, if it said something.
    fn error(self) -> Option<SystemError> {
        match self {
            FileFault::Open(error)
            | FileFault::Lock(error)
            | FileFault::Folder(error)
            | FileFault::Change(error)
            | FileFault::Sync(error)
            | FileFault::NewFile(error)
            | FileFault::Write(error)
            | FileFault::Rename(error)
            | FileFault::Removed(error) => Some(error),
            FileFault::NotRegular
            | FileFault::NotImage
            | FileFault::InUse
            | FileFault::Replaced
            | FileFault::Mounted
            | FileFault::LongName => None,
        }
    }

    /// Whether memory ran out.
    pub fn is_memory(self) -> bool {
        match self.error() {
            Some(error) => error.is_memory(),
            None => false,
        }
    }

    /// Whether no later save can do better.
    pub(crate) fn is_final(self) -> bool {
        matches!(self, FileFault::Mounted | FileFault::LongName)
    }

    /// The same fault, of a file that was removed.
    pub(crate) fn of_removed(self) -> FileFault {
        match self.error() {
            Some(error) => FileFault::Removed(error),
            None => self,
        }
    }
}
