use drive_inspection::Written;
use drive_journal::ReadFault;
use std::fmt;

/// What a file holds that a format of it would destroy.
#[derive(Clone, Copy, Debug, PartialEq, Eq)]
pub enum FileHolding {
    /// A drive of which some zones are not Empty.
    Drive(Written),
    /// What begins as an image does, and is not read as a drive, for this reason.
    Unread(ReadFault),
}

impl fmt::Display for FileHolding {
    fn fmt<W: fmt::Write>(&self, f: &mut fmt::Formatter<W>) -> fmt::Result {
        match self {
            FileHolding::Drive(written) => write!(f, "{written}"),
            FileHolding::Unread(fault) => write!(f, "no drive is read in it ({fault})"),
        }
    }
}
