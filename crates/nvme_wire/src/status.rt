ghost use Rattle.std.specs.Prelude.{◌≡◌};
ghost use Rattle.nvme_wire.specs.Status.{status_code, status_of};

use std::fmt;

/// How a command ended (Base Specification 2.0, section 3.3.3.2.1; Zoned Namespace Command Set 1.1,
/// status values of zoned namespaces). It is displayed by the standard's name.
#[derive(Clone, Copy, Debug, PartialEq, Eq)]
pub enum Status {
    Success,
    InvalidCommandOpcode,
    InvalidField,
    InvalidNamespace,
    LbaOutOfRange,
    ZoneBoundaryError,
    ZoneIsFull,
    ZoneIsReadOnly,
    ZoneIsOffline,
    ZoneInvalidWrite,
    TooManyActiveZones,
    TooManyOpenZones,
    InvalidZoneStateTransition,
}

impl Status {
    /// Bits 31:16 of dword 3 of a completion, with a phase tag of 0: the status code in bits 8:1, the
    /// status code type in bits 11:9.
    pub fn code(self) -> u16
        ensures { result ≡ status_code self }
    {
        match self {
            Status::Success => 0,
            Status::InvalidCommandOpcode => 0x0002,
            Status::InvalidField => 0x0004,
            Status::InvalidNamespace => 0x0016,
            Status::LbaOutOfRange => 0x0100,
            Status::ZoneBoundaryError => 0x0370,
            Status::ZoneIsFull => 0x0372,
            Status::ZoneIsReadOnly => 0x0374,
            Status::ZoneIsOffline => 0x0376,
            Status::ZoneInvalidWrite => 0x0378,
            Status::TooManyActiveZones => 0x037a,
            Status::TooManyOpenZones => 0x037c,
            Status::InvalidZoneStateTransition => 0x037e,
        }
    }

    /// The status with this code.
    pub fn from_code(code: u16) -> Option<Status>
        ensures { result ≡ status_of code }
    {
        match code {
            0 => Some(Status::Success),
            0x0002 => Some(Status::InvalidCommandOpcode),
            0x0004 => Some(Status::InvalidField),
            0x0016 => Some(Status::InvalidNamespace),
            0x0100 => Some(Status::LbaOutOfRange),
            0x0370 => Some(Status::ZoneBoundaryError),
            0x0372 => Some(Status::ZoneIsFull),
            0x0374 => Some(Status::ZoneIsReadOnly),
            0x0376 => Some(Status::ZoneIsOffline),
            0x0378 => Some(Status::ZoneInvalidWrite),
            0x037a => Some(Status::TooManyActiveZones),
            0x037c => Some(Status::TooManyOpenZones),
            0x037e => Some(Status::InvalidZoneStateTransition),
            _ => None,
        }
    }
}

impl fmt::Display for Status {
    fn fmt<W: fmt::Write>(&self, f: &mut fmt::Formatter<W>) -> fmt::Result {
        f.write_str(match self {
            Status::Success => "Successful Completion",
            Status::InvalidCommandOpcode => "Invalid Command Opcode",
            Status::InvalidField => "Invalid Field in Command",
            Status::InvalidNamespace => "Invalid Namespace or Format",
            Status::LbaOutOfRange => "LBA Out of Range",
            Status::ZoneBoundaryError => "Zone Boundary Error",
            Status::ZoneIsFull => "Zone Is Full",
            Status::ZoneIsReadOnly => "Zone Is Read Only",
            Status::ZoneIsOffline => "Zone Is Offline",
            Status::ZoneInvalidWrite => "Zone Invalid Write",
            Status::TooManyActiveZones => "Too Many Active Zones",
            Status::TooManyOpenZones => "Too Many Open Zones",
            Status::InvalidZoneStateTransition => "Invalid Zone State Transition",
        })
    }
}
