ghost use Rattle.std.specs.Prelude.{◌≡◌, Bool, List, Option, length};
ghost use Rattle.nvme_wire.specs.Entry.{IsAdmitted};
ghost use Rattle.zone_states.specs.declared.geometry.Geometry.{Geometry};
ghost use Rattle.zone_states.specs.Zone.{Zone};
ghost use Rattle.passthrough.specs.Premise.{Answers, AreLawful, IsSafe, IsSent, KeepsFlushed, Recalls};

use nvme_wire::Command;
use zone_states::Geometry;

/// A way to a zoned drive that takes one command at a time, as an operating system passes commands through to a drive.
/// Nothing is known of the drive but what this contract says.
pub trait Passthrough {
    /// The shape of the drive.
    ghost shape: { Self → Geometry };

    /// Its zones.
    ghost zones: { Self → List Zone };

    /// Whether all that was appended is flushed, so that a loss of power keeps it.
    ghost flushed: { Self → Bool };

    /// The zones before the last command, if that was an Append or an action, and was answered by an error. A report
    /// that comes next, and shows these, is believed, too. A way may say none if its reports always show what is there.
    ghost before: { Self → Option (List Zone) };

    /// The shape of the drive, which never changes.
    fn geometry(&self) -> Geometry
        ensures value { result ≡ shape self.now }
        ensures lawful { AreLawful (shape self.now) (zones self.now) };

    /// Sends a command to the drive. The answer is its status without the bits Do Not Retry and More, so 0 for Success.
    /// If there is no answer, it is a number from 2^11 on. What a Read or a report returns fills the room. An Append
    /// that succeeds gives the address of its first block as the value. A Read may go on up to `end`: a way may read
    /// ahead.
    fn submit(
        &mut self,
        command: &Command,
        bytes: &[u8],
        end: u64,
        room: &mut [u8],
        value: &mut u64,
    ) -> u16
        requires admitted { IsAdmitted command.now }
        requires sent { IsSent (shape self.old) (zones self.old) command.now bytes.now end (length room.old) }
        requires safe { IsSafe command.now (flushed self.old) }
        ensures answers { Answers (shape self.old) (zones self.old) command.now bytes.now
            result value.new room.new (zones self.new) }
        ensures flushed { KeepsFlushed command.now result (flushed self.old) (flushed self.new) }
        ensures recalls { Recalls (shape self.old) (zones self.old) (before self.old) command.now
            result room.new (zones self.new) (before self.new) }
        ensures shape { shape self.new ≡ shape self.old }
        ensures lawful { AreLawful (shape self.new) (zones self.new) };
}
