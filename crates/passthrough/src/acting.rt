// Actions on one zone: Close, Finish and Reset.

ghost use Rattle.std.specs.Prelude.{◌≡◌, ◌≢◌, [], Err, false, List, length, true};
ghost use Rattle.zone_states.specs.Geometry.{IsInRange};
ghost use Rattle.zone_states.specs.Zone.{Zone};
ghost use Rattle.passthrough.specs.Asking.{Asks, IsReady, Leads};
ghost use Rattle.passthrough.specs.Premise.{IsSentAction};
ghost use Rattle.passthrough.specs.Seen.{AreSeen};

use crate::failing::failure;
use crate::flushing::flush_before;
use crate::looking::look;
use crate::passthrough::Passthrough;
use crate::seen_zone::SeenZone;
use crate::table::{set_zone, zone_at};
use drive_port::{Geometry, Halt};
use nvme_wire::{Action, Command};

/// Whether an action is one that is sent, to the start of a zone that admits it.
fn may_act(geometry: Geometry, seen: &[SeenZone], slba: u64, action: Action) -> bool
    requires { IsInRange geometry }
    ensures { result ≡ true → (zones : List Zone) → length zones ≡ geometry.zones → AreSeen zones seen.now
        → IsSentAction geometry zones slba action [] 0 }
{
    if slba >= geometry.end() {
        return false;
    }
    let number = geometry.zone_of(slba);
    geometry.start_of(number) == slba && zone_at(seen, u64::from(number)).admits(action)
}

/// Closes, finishes or resets the zone that starts at an address. A Flush is sent before a Reset where it is needed. If
/// the drive answers the action by an error, a report has to show that it was not done: then it failed.
pub(crate) fn act<P: Passthrough>(
    way: &mut P,
    geometry: Geometry,
    seen: &mut [SeenZone],
    unflushed: &mut bool,
    slba: u64,
    action: Action,
) -> Result<u64, Halt>
    requires ready { IsReady geometry (P.shape way.old) (P.zones way.old) seen.old }
    requires known { unflushed.old ≡ false → P.flushed way.old ≡ true }
    ensures asks { Asks geometry (P.zones way.old) (Command.Send slba action false) [] result [] (P.zones way.new) }
    ensures ready { result ≢ Err Halt.Stopped → IsReady geometry (P.shape way.new) (P.zones way.new) seen.new }
    ensures leads { Leads geometry (P.shape way.new) (P.zones way.new) }
    ensures known { unflushed.new ≡ false → P.flushed way.new ≡ true }
{
    if !may_act(geometry, seen, slba, action) {
        return Err(Halt::Stopped);
    }
    if !flush_before(way, geometry, action, unflushed) {
        return Err(Halt::Stopped);
    }
    let command = Command::Send {
        slba,
        action,
        all: false,
    };
    let mut value = 0;
    let status = way.submit(&command, &[], 0, &mut [], &mut value);
    let number = geometry.zone_of(slba);
    if status != 0 {
        return Err(failure(way, geometry, seen, number, status));
    }
    let index = u64::from(number);
    let zone = zone_at(seen, index).acted(action);
    set_zone(seen, index, zone);
    Ok(0)
}

/// The same. After a Finish and a Reset the drive is asked for a report of the zone, which has to show what was done.
pub(crate) fn act_seen<P: Passthrough>(
    way: &mut P,
    geometry: Geometry,
    seen: &mut [SeenZone],
    unflushed: &mut bool,
    slba: u64,
    action: Action,
) -> Result<u64, Halt>
    requires ready { IsReady geometry (P.shape way.old) (P.zones way.old) seen.old }
    requires known { unflushed.old ≡ false → P.flushed way.old ≡ true }
    ensures asks { Asks geometry (P.zones way.old) (Command.Send slba action false) [] result [] (P.zones way.new) }
    ensures ready { result ≢ Err Halt.Stopped → IsReady geometry (P.shape way.new) (P.zones way.new) seen.new }
    ensures leads { Leads geometry (P.shape way.new) (P.zones way.new) }
    ensures known { unflushed.new ≡ false → P.flushed way.new ≡ true }
{
    let value = act(way, geometry, seen, unflushed, slba, action)?;
    if action == Action::Close {
        return Ok(value);
    }
    if slba >= geometry.end() {
        return Err(Halt::Stopped);
    }
    let number = geometry.zone_of(slba);
    if look(way, geometry, seen, number, 1, &mut [0; 128]).is_err() {
        return Err(Halt::Stopped);
    }
    Ok(value)
}
