ghost use Rattle.std.specs.Prelude.{◌≡◌};
ghost use Rattle.nvme_wire.specs.Entry.{action_code, action_of, options_code, options_of, opcode_code, opcode_of};

use crate::zone_state::ZoneState;
use thiserror::Error;

/// What a Zone Management Send does to a zone (Zoned Namespace Command Set 1.1, section 3.4.3).
#[derive(Clone, Copy, Debug, PartialEq, Eq)]
pub enum Action {
    /// 01h: an opened zone becomes Closed, and keeps its blocks.
    Close,
    /// 02h: a zone becomes Full, with the blocks that it has.
    Finish,
    /// 03h: a zone becomes Explicitly Opened.
    Open,
    /// 04h: a zone becomes Empty.
    Reset,
    /// 05h: a Read Only zone becomes Offline.
    Offline,
}

impl Action {
    /// The Zone Send Action field.
    pub(crate) fn code(self) -> u8
        ensures { result ≡ action_code self }
    {
        match self {
            Action::Close => 1,
            Action::Finish => 2,
            Action::Open => 3,
            Action::Reset => 4,
            Action::Offline => 5,
        }
    }

    pub(crate) fn from_code(code: u8) -> Option<Action>
        ensures { result ≡ action_of code }
    {
        match code {
            1 => Some(Action::Close),
            2 => Some(Action::Finish),
            3 => Some(Action::Open),
            4 => Some(Action::Reset),
            5 => Some(Action::Offline),
            _ => None,
        }
    }
}

/// Which zones a report names: the Reporting Options field of a Zone Management Receive (Zoned
/// Namespace Command Set 1.1, section 3.4.2).
#[derive(Clone, Copy, Debug, PartialEq, Eq)]
pub enum ReportingOptions {
    /// 00h: all zones.
    AnyState,
    /// The zones in this state.
    InState(ZoneState),
}

impl ReportingOptions {
    /// The number in the field.
    pub(crate) fn code(self) -> u8
        ensures { result ≡ options_code self }
    {
        match self {
            ReportingOptions::AnyState => 0,
            ReportingOptions::InState(ZoneState::Empty) => 1,
            ReportingOptions::InState(ZoneState::ImplicitlyOpened) => 2,
            ReportingOptions::InState(ZoneState::ExplicitlyOpened) => 3,
            ReportingOptions::InState(ZoneState::Closed) => 4,
            ReportingOptions::InState(ZoneState::Full) => 5,
            ReportingOptions::InState(ZoneState::ReadOnly) => 6,
            ReportingOptions::InState(ZoneState::Offline) => 7,
        }
    }

    pub(crate) fn from_code(code: u8) -> Option<ReportingOptions>
        ensures { result ≡ options_of code }
    {
        match code {
            0 => Some(ReportingOptions::AnyState),
            1 => Some(ReportingOptions::InState(ZoneState::Empty)),
            2 => Some(ReportingOptions::InState(ZoneState::ImplicitlyOpened)),
            3 => Some(ReportingOptions::InState(ZoneState::ExplicitlyOpened)),
            4 => Some(ReportingOptions::InState(ZoneState::Closed)),
            5 => Some(ReportingOptions::InState(ZoneState::Full)),
            6 => Some(ReportingOptions::InState(ZoneState::ReadOnly)),
            7 => Some(ReportingOptions::InState(ZoneState::Offline)),
            _ => None,
        }
    }
}

/// A command to namespace 1. Addresses are in logical blocks; `blocks` and `dwords` are counted from
/// one, though the entry counts them from zero.
#[derive(Clone, Copy, Debug, PartialEq, Eq)]
pub enum Command {
    /// Base Specification 2.0, section 7.1.
    Flush,
    /// NVM Command Set 1.0, section 3.2.4. At most 65,536 blocks.
    Read {
        slba: u64,
        blocks: u32,
    },
    /// NVM Command Set 1.0, section 3.2.6. At most 65,536 blocks.
    Write {
        slba: u64,
        blocks: u32,
    },
    /// Zoned Namespace Command Set 1.1, section 3.4.1. `zslba` is the lowest address of the zone, and
    /// at most 65,536 blocks are appended.
    Append {
        zslba: u64,
        blocks: u32,
    },
    /// Zone Management Send (Zoned Namespace Command Set 1.1, section 3.4.3), to one zone or to all.
    /// `Open` of all zones is not admitted.
    Send {
        slba: u64,
        action: Action,
        all: bool,
    },
    /// Zone Management Receive, action Report Zones (Zoned Namespace Command Set 1.1, section 3.4.2),
    /// into a buffer of 16 to 2^32 dwords. In a `partial` report the head counts the descriptors that
    /// follow, and else the zones that match.
    Receive {
        slba: u64,
        dwords: u64,
        options: ReportingOptions,
        partial: bool,
    },
}

/// Why bytes are not an entry, a completion or a part of a report. The fault of an entry is the first
/// of these that holds.
#[derive(Clone, Copy, Debug, PartialEq, Eq, Error)]
pub enum DecodeFault {
    /// The opcode is none of the six.
    #[error("the opcode is none of this profile's")]
    Opcode,
    /// The namespace is not 1.
    #[error("the namespace is not 1")]
    Namespace,
    /// A field has a value that the profile does not admit, or bytes that have to be zero are not.
    #[error("a field has a value that is not admitted")]
    Field,
}

/// The opcodes of the six commands.
#[derive(Clone, Copy, Debug, PartialEq, Eq)]
pub enum Opcode {
    Flush,
    Write,
    Read,
    Send,
    Receive,
    Append,
}

impl Opcode {
    pub(crate) fn code(self) -> u8
        ensures { result ≡ opcode_code self }
    {
        match self {
            Opcode::Flush => 0x00,
            Opcode::Write => 0x01,
            Opcode::Read => 0x02,
            Opcode::Send => 0x79,
            Opcode::Receive => 0x7a,
            Opcode::Append => 0x7d,
        }
    }

    pub(crate) fn from_code(code: u8) -> Option<Opcode>
        ensures { result ≡ opcode_of code }
    {
        match code {
            0x00 => Some(Opcode::Flush),
            0x01 => Some(Opcode::Write),
            0x02 => Some(Opcode::Read),
            0x79 => Some(Opcode::Send),
            0x7a => Some(Opcode::Receive),
            0x7d => Some(Opcode::Append),
            _ => None,
        }
    }
}
