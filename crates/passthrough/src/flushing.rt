// Flushes, and the look at what they made durable.

ghost use Rattle.std.specs.Prelude.{◌≡◌, ◌≢◌, ◌+◌, ◌*◌, ◌^◌, ◌<◌, ◌≤◌, ◌==◌, if◌then◌else◌, [], Err, IfErr, IfOk, Ok};
ghost use Rattle.std.specs.Prelude.{OnOk, length, true, false};
ghost use Rattle.nvme_wire.specs.declared.status.Status.TheVariants.{Success};
ghost use Rattle.drive_port.specs.Drive.{IsClosing};
ghost use Rattle.drive_port.specs.Step.{Effect};
ghost use Rattle.passthrough.specs.Asking.{IsReady, Leads};
ghost use Rattle.passthrough.specs.Seen.{AreSettled};
ghost use Rattle.passthrough.specs.Showing.{CoversDue, DueWereSeen, FlushLooked};

use crate::looking::look;
use crate::passthrough::Passthrough;
use crate::reporting::zones_in_one;
use crate::seen_zone::SeenZone;
use crate::table::{set_zone, zone_at};
use drive_port::{Geometry, Halt};
use nvme_wire::{Action, Command};
use std::alloc::Global;

/// Sends a Flush.
fn send_flush<P: Passthrough>(way: &mut P, geometry: Geometry) -> bool
    requires leads { Leads geometry (P.shape way.old) (P.zones way.old) }
    ensures done { result ≡ true
        → Effect geometry (P.zones way.old) (Ok Command.Flush) [] Success 0 [] (P.zones way.new) }
    ensures closes { IsClosing (P.zones way.old) (P.zones way.new) }
    ensures leads { Leads geometry (P.shape way.new) (P.zones way.new) }
    ensures flushed { result ≡ true → P.flushed way.new ≡ true }
    ensures kept { P.flushed way.old ≡ true → P.flushed way.new ≡ true }
{
    let mut value = 0;
    way.submit(&Command::Flush, &[], 0, &mut [], &mut value) == 0
}

/// Sends a Flush before a Reset, if anything was written since the last one. Else blocks that were moved out of the
/// zone could be lost with the power once the zone is empty.
pub(crate) fn flush_before<P: Passthrough>(
    way: &mut P,
    geometry: Geometry,
    action: Action,
    unflushed: &mut bool,
) -> bool
    requires leads { Leads geometry (P.shape way.old) (P.zones way.old) }
    requires known { unflushed.old ≡ false → P.flushed way.old ≡ true }
    ensures flushed { result ≡ true → action ≡ Action.Reset → P.flushed way.new ≡ true }
    ensures known { unflushed.new ≡ false → P.flushed way.new ≡ true }
    ensures closes { IsClosing (P.zones way.old) (P.zones way.new) }
    ensures leads { Leads geometry (P.shape way.new) (P.zones way.new) }
{
    if action != Action::Reset || !*unflushed {
        return true;
    }
    if !send_flush(way, geometry) {
        return false;
    }
    *unflushed = false;
    true
}

/// A stretch of zones that goes on to a later one. A stretch without zones begins there.
fn widened(stretch: (u32, u32), number: u32) -> (u32, u32)
    requires later { stretch.0 + stretch.1 ≤ number }
    requires fits { number + 1 < 2 ^ 32 }
    ensures first { result.0 ≡ if stretch.1 == 0 then number else stretch.0 }
    ensures end { result.0 + result.1 ≡ number + 1 }
{
    let (first, count) = stretch;
    if count == 0 {
        return (number, 1);
    }
    (first, number - first + 1)
}

/// The shortest stretch that has all zones that are due, of those from a first one on: its first zone, and how many
/// zones it has. There is none if no zone is due.
fn due_stretch(seen: &[SeenZone], first: u32, count: u32) -> (u32, u32)
    requires { first + count < 2 ^ 32 }
    ensures { CoversDue seen.now first count result.0 result.1 }
{
    let mut stretch = (first, 0);
    for i in 0..count {
        let number = first + i;
        if !zone_at(seen, u64::from(number)).is_due() {
            continue;
        }
        stretch = widened(stretch, number);
    }
    stretch
}

/// Looks at those zones that are due, of those from a first one on, by one report.
fn look_at_stretch<P: Passthrough>(
    way: &mut P,
    geometry: Geometry,
    seen: &mut [SeenZone],
    first: u32,
    count: u32,
    room: &mut [u8],
) -> Result<(), Halt>
    requires ready { IsReady geometry (P.shape way.old) (P.zones way.old) seen.old }
    requires there { first + count ≤ geometry.zones }
    requires room { 64 + 64 * count ≤ length room.old }
    requires few { 64 + 64 * count ≤ geometry.transfer * geometry.block }
    ensures seen { OnOk result
        (DueWereSeen first count geometry (P.zones way.old) seen.old seen.new (P.zones way.new)) }
    ensures ready { result ≢ Err Halt.Stopped → IsReady geometry (P.shape way.new) (P.zones way.new) seen.new }
    ensures closes { IsClosing (P.zones way.old) (P.zones way.new) }
    ensures leads { Leads geometry (P.shape way.new) (P.zones way.new) }
    ensures err { IfErr result (λ halt. halt ≢ Halt.Memory) }
    ensures flushed { P.flushed way.old ≡ true → P.flushed way.new ≡ true }
{
    let (from, some) = due_stretch(seen, first, count);
    if some == 0 {
        return Ok(());
    }
    let size = 64 + 64 * some as usize;
    look(way, geometry, seen, from, some, &mut room[..size])
}

/// Looks at all zones that are due, by at most one report for each as many zones as a report can show.
fn look_at_due<P: Passthrough>(
    way: &mut P,
    geometry: Geometry,
    seen: &mut [SeenZone],
    most: u32,
    room: &mut [u8],
) -> Result<(), Halt>
    requires ready { IsReady geometry (P.shape way.old) (P.zones way.old) seen.old }
    requires some { 1 ≤ most }
    requires few { 64 + 64 * most ≤ geometry.transfer * geometry.block }
    requires room { length room.old ≡ 64 + 64 * most }
    ensures seen { OnOk result
        (DueWereSeen 0 geometry.zones geometry (P.zones way.old) seen.old seen.new (P.zones way.new)) }
    ensures ready { result ≢ Err Halt.Stopped → IsReady geometry (P.shape way.new) (P.zones way.new) seen.new }
    ensures closes { IsClosing (P.zones way.old) (P.zones way.new) }
    ensures leads { Leads geometry (P.shape way.new) (P.zones way.new) }
    ensures err { IfErr result (λ halt. halt ≢ Halt.Memory) }
    ensures flushed { P.flushed way.old ≡ true → P.flushed way.new ≡ true }
{
    let mut first = 0;
    while first < geometry.zones {
        let count = most.min(geometry.zones - first);
        look_at_stretch(way, geometry, seen, first, count, room)?;
        first += count;
    }
    Ok(())
}

/// Counts no zone as changed any more.
fn settle(seen: &mut [SeenZone])
    ensures { AreSettled seen.old seen.new }
{
    for i in 0..seen.len() {
        let number = i as u64;
        let zone = zone_at(seen, number);
        let settled = SeenZone {
            changed: false,
            ..zone
        };
        set_zone(seen, number, settled);
    }
}

/// A Flush. Once it is done, the drive is asked for a report of each zone that is active, or was changed since the last
/// Flush. The memory for the report is asked for before the drive is.
pub(crate) fn flush<P: Passthrough>(
    alloc: Global,
    way: &mut P,
    geometry: Geometry,
    seen: &mut [SeenZone],
    unflushed: &mut bool,
) -> Result<u64, Halt>
    requires ready { IsReady geometry (P.shape way.old) (P.zones way.old) seen.old }
    requires known { unflushed.old ≡ false → P.flushed way.old ≡ true }
    ensures ok { IfOk result (λ value. (value ≡ 0)
        × Effect geometry (P.zones way.old) (Ok Command.Flush) [] Success 0 [] (P.zones way.new)) }
    ensures looked { OnOk result (FlushLooked geometry (P.zones way.old) seen.old seen.new (P.zones way.new)) }
    ensures flushed { OnOk result (P.flushed way.new ≡ true) }
    ensures known { unflushed.new ≡ false → P.flushed way.new ≡ true }
    ensures err { IfErr result (λ halt. (halt ≡ Halt.Memory → P.zones way.new ≡ P.zones way.old)
        × IsClosing (P.zones way.old) (P.zones way.new)) }
    ensures ready { result ≢ Err Halt.Stopped
        → IsReady geometry (P.shape way.new) (P.zones way.new) seen.new }
    ensures leads { Leads geometry (P.shape way.new) (P.zones way.new) }
{
    let most = zones_in_one(geometry);
    let Ok(mut room) = Vec::from_elem(alloc, 0, 64 + 64 * most as usize) else {
        return Err(Halt::Memory);
    };
    if !send_flush(way, geometry) {
        return Err(Halt::Stopped);
    }
    *unflushed = false;
    look_at_due(way, geometry, seen, most, &mut room)?;
    settle(seen);
    Ok(0)
}
