ghost use Rattle.std.specs.Prelude.{◌≡◌};
ghost use Rattle.nvme_wire.specs.Descriptor.{state_code, state_of};

/// The state of a zone (Zoned Namespace Command Set 1.1, zone state machine).
///
/// `ImplicitlyOpened`, `ExplicitlyOpened` and `Closed` zones are *active*, the first two are *open*.
#[derive(Clone, Copy, Debug, PartialEq, Eq)]
pub enum ZoneState {
    /// No block is written.
    Empty,
    /// A Write or an Append opened it.
    ImplicitlyOpened,
    /// The host opened it by a Zone Management Send.
    ExplicitlyOpened,
    /// It can be written again, and takes no open resource until then.
    Closed,
    /// Its blocks can only be read.
    ReadOnly,
    /// It takes no Write or Append before a Reset.
    Full,
    /// It can be neither read nor written.
    Offline,
}

impl ZoneState {
    /// The Zone State field of a zone descriptor.
    pub fn code(self) -> u8
        ensures { result ≡ state_code self }
    {
        match self {
            ZoneState::Empty => 0x1,
            ZoneState::ImplicitlyOpened => 0x2,
            ZoneState::ExplicitlyOpened => 0x3,
            ZoneState::Closed => 0x4,
            ZoneState::ReadOnly => 0xd,
            ZoneState::Full => 0xe,
            ZoneState::Offline => 0xf,
        }
    }

    /// The state with this code.
    pub fn from_code(code: u8) -> Option<ZoneState>
        ensures { result ≡ state_of code }
    {
        match code {
            0x1 => Some(ZoneState::Empty),
            0x2 => Some(ZoneState::ImplicitlyOpened),
            0x3 => Some(ZoneState::ExplicitlyOpened),
            0x4 => Some(ZoneState::Closed),
            0xd => Some(ZoneState::ReadOnly),
            0xe => Some(ZoneState::Full),
            0xf => Some(ZoneState::Offline),
            _ => None,
        }
    }
}
