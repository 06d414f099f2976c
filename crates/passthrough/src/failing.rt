// What a command to a zone has done that was not answered by Success.

ghost use Rattle.std.specs.Prelude.{◌≡◌, ◌≢◌, ◌<◌, ◌≤◌, List, length, true};
ghost use Rattle.zone_states.specs.Zone.{Zone};
ghost use Rattle.drive_port.specs.Drive.{IsClosing};
ghost use Rattle.passthrough.specs.Asking.{Leads};
ghost use Rattle.passthrough.specs.Premise.{IsError, WereBefore};
ghost use Rattle.passthrough.specs.Seen.{AreSeen, seen_at};
ghost use Rattle.passthrough.specs.Showing.{WasAsSeen};

use crate::looking::agrees;
use crate::passthrough::Passthrough;
use crate::seen_zone::SeenZone;
use drive_port::{Geometry, Halt};
use nvme_wire::{Command, ReportingOptions};

/// The lowest number that is no status, and stands for no answer.
const NO_ANSWER: u16 = 1 << 11;

/// Whether a report of a zone shows it as it was seen. It is asked for right after a command that was answered by an
/// error.
fn is_as_seen<P: Passthrough>(
    way: &mut P,
    geometry: Geometry,
    seen: &[SeenZone],
    number: u32,
) -> bool
    requires leads { Leads geometry (P.shape way.old) (P.zones way.old) }
    requires there { number < geometry.zones }
    ensures seen { result ≡ true → (zones : List Zone) → WereBefore (P.before way.old) zones
        → length zones ≡ geometry.zones → AreSeen zones seen.now
        → WasAsSeen number (P.zones way.old) (seen_at seen.now number) (P.zones way.new) }
    ensures closes { IsClosing (P.zones way.old) (P.zones way.new) }
    ensures leads { Leads geometry (P.shape way.new) (P.zones way.new) }
    ensures flushed { P.flushed way.old ≡ true → P.flushed way.new ≡ true }
{
    let command = Command::Receive {
        slba: geometry.start_of(number),
        dwords: 32,
        options: ReportingOptions::AnyState,
        partial: true,
    };
    let mut room = [0; 128];
    let mut value = 0;
    way.submit(&command, &[], 0, &mut room, &mut value) == 0
        && agrees(geometry, number, 1, seen, &room)
}

/// How a command to a zone ended that was not answered by Success. If it was answered by an error, a report of the zone
/// is asked for. If that shows the zone as it was seen, the command failed, and had no effect. Else the device has to
/// stop.
pub(crate) fn failure<P: Passthrough>(
    way: &mut P,
    geometry: Geometry,
    seen: &[SeenZone],
    number: u32,
    status: u16,
) -> Halt
    requires bad { 1 ≤ status }
    requires leads { Leads geometry (P.shape way.old) (P.zones way.old) }
    requires there { number < geometry.zones }
    ensures seen { result ≡ Halt.Failed → (zones : List Zone) → (IsError status → WereBefore (P.before way.old) zones)
        → length zones ≡ geometry.zones → AreSeen zones seen.now
        → WasAsSeen number (P.zones way.old) (seen_at seen.now number) (P.zones way.new) }
    ensures closes { IsClosing (P.zones way.old) (P.zones way.new) }
    ensures leads { Leads geometry (P.shape way.new) (P.zones way.new) }
    ensures flushed { P.flushed way.old ≡ true → P.flushed way.new ≡ true }
    ensures halt { result ≢ Halt.Memory }
{
    if status >= NO_ANSWER {
        return Halt::Stopped;
    }
    if !is_as_seen(way, geometry, seen, number) {
        return Halt::Stopped;
    }
    Halt::Failed
}
