ghost use Rattle.std.specs.Prelude.{◌≡◌};

use std::error::Error;
use std::fmt;
use std::fmt::{Display, Formatter};

/// Why the bytes of a zone hold no log, by the number under which it is told.
#[derive(Clone, Copy, Debug, PartialEq, Eq)]
pub enum LogFault {
    /// A header block does not begin with `ZLOGBAT1`.
    Magic = 1,
    /// The version is neither 1 nor 2.
    Version = 2,
    /// The kind is neither Host nor Move.
    Kind = 3,
    /// More entries than the block has room for.
    Count = 4,
    /// Bytes that must be zero are not: the size in version 1, the source zone of a Host
    /// batch, or those after the entries.
    RestNotZero = 5,
    /// Two entries name one block.
    BlockRepeated = 6,
    /// In a full zone, fewer blocks follow a header than its entries need.
    Torn = 7,
    /// In a full zone, a block of zeros is in a header's place, and not all after it are zeros.
    ForeignTail = 8,
    /// The size of version 2 is 0 or above 2^31.
    Size = 9,
}

impl Display for LogFault {
    ghost use Rattle.std.specs.Prelude.{Some};
    ghost use Rattle.batch_log.specs.Texts.{log_fault_text};

    ghost output = { λ fault. Some (log_fault_text fault) };

    fn fmt<W: fmt::Write>(&self, f: &mut Formatter<W>) -> fmt::Result {
        f.write_str(match self {
            LogFault::Magic => "the header does not begin with ZLOGBAT1",
            LogFault::Version => "the version is neither 1 nor 2",
            LogFault::Kind => "the kind is neither 1 nor 2",
            LogFault::Count => "the header has more entries than there is room for",
            LogFault::RestNotZero => "bytes of the header that must be zero are not",
            LogFault::BlockRepeated => "two entries name one block",
            LogFault::Torn => "the zone is full, and data blocks of its last batch are missing",
            LogFault::ForeignTail => "the zone is full, and after zero blocks something follows",
            LogFault::Size => "the size is not between 1 and 2^31",
        })
    }
}

impl Error for LogFault {}

/// A fault of a zone's log, and the block where it is met.
#[derive(Clone, Copy, Debug, PartialEq, Eq)]
pub struct FaultAt {
    /// Counted from 0, the first block of the zone.
    pub offset: u32,
    /// Why the block is no part of a log.
    pub fault: LogFault,
}

impl FaultAt {
    pub(crate) fn new(offset: u32, fault: LogFault) -> FaultAt
        ensures { result ≡ record { offset = offset; fault = fault } }
    {
        FaultAt { offset, fault }
    }
}

impl Display for FaultAt {
    ghost use Rattle.std.specs.Prelude.{Some};
    ghost use Rattle.batch_log.specs.Texts.{fault_at_text};

    ghost output = { λ fault. Some (fault_at_text fault) };

    fn fmt<W: fmt::Write>(&self, f: &mut Formatter<W>) -> fmt::Result {
        write!(f, "block {}: {}", self.offset, self.fault)
    }
}

impl Error for FaultAt {}
