// When the drive of a job stops.

ghost use Rattle.std.specs.Prelude.{◌≡◌};
ghost use Rattle.job_drives.specs.Stop.{stopping};

use drive_port::{Device, StopAfter};

/// When the drive stops: after that many commands, the mount's included, and that many blocks into the Append after
/// them, if any.
#[derive(Clone, Copy, Debug, PartialEq, Eq)]
pub struct Stop {
    /// How many commands are completed before the drive stops.
    pub commands: u64,
    /// How many blocks are written of the Append at which it stops.
    pub tear: u32,
}

impl Stop {
    /// After more commands than a run can send.
    pub const NEVER: Stop = Stop {
        commands: u64::MAX,
        tear: 0,
    };
}

/// A device that stops after the commands of a stop, or inside the Append after them. Then the first blocks of the
/// Append are written.
pub fn stopping<D: Device + Drop>(device: D, stop: Stop) -> StopAfter<D>
    ensures { result ≡ stopping stop (D.drive device) }
{
    StopAfter::tearing(device, stop.commands, stop.tear)
}
