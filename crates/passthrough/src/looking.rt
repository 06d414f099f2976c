// Reports of some zones, and what is seen by them.

ghost use Rattle.std.specs.Prelude.{◌≡◌, ◌≢◌, ◌+◌, ◌*◌, ◌≤◌, Err, IfErr, OnOk, length, true};
ghost use Rattle.nvme_wire.specs.Descriptor.{state_of};
ghost use Rattle.drive_port.specs.Drive.{IsClosing};
ghost use Rattle.passthrough.specs.Asking.{IsReady, Leads};
ghost use Rattle.passthrough.specs.Premise.{descriptor_in, state_in};
ghost use Rattle.passthrough.specs.Showing.{AreShown, SeesStates, WereSeen, now_seen};

use crate::passthrough::Passthrough;
use crate::seen_zone::SeenZone;
use crate::showing::shown_state;
use crate::table::{set_zone, zone_at};
use drive_port::{Geometry, Halt};
use nvme_wire::{Command, ReportingOptions, ZoneState};

/// The descriptor with a number in a report.
pub(crate) fn descriptor(report: &[u8], i: u32) -> [u8; 64]
    requires { 128 + 64 * i ≤ length report.now }
    ensures { result ≡ descriptor_in report.now i }
{
    let at = 64 + 64 * i as usize;
    let mut bytes = [0; 64];
    bytes.copy_from_slice(&report[at..at + 64]);
    bytes
}

/// Whether the descriptors of a report show the zones that were seen, from a first one on.
pub(crate) fn agrees(
    geometry: Geometry,
    first: u32,
    count: u32,
    seen: &[SeenZone],
    report: &[u8],
) -> bool
    requires room { length report.now ≡ 64 + 64 * count }
    requires few { first + count ≤ geometry.zones }
    ensures { result ≡ true → AreShown geometry first seen.now report.now count }
{
    for i in 0..count {
        let number = first + i;
        let zone = zone_at(seen, u64::from(number));
        let Some(_state) = shown_state(geometry, number, zone, &descriptor(report, i)) else {
            return false;
        };
    }
    true
}

/// What is seen of a zone when a descriptor shows its state.
fn now_seen(zone: SeenZone, bytes: &[u8; 64]) -> SeenZone
    ensures { result ≡ now_seen zone (state_of (state_in bytes.now)) }
{
    match ZoneState::from_code(bytes[1] / 16) {
        Some(state) => SeenZone { state, ..zone },
        None => zone,
    }
}

/// Sees the states that the descriptors of a report show, from a first zone on.
fn see(first: u32, count: u32, seen: &mut [SeenZone], report: &[u8])
    requires room { length report.now ≡ 64 + 64 * count }
    requires few { first + count ≤ length seen.old }
    ensures { SeesStates first count report.now seen.old seen.new }
{
    for i in 0..count {
        let number = u64::from(first) + u64::from(i);
        let zone = now_seen(zone_at(seen, number), &descriptor(report, i));
        set_zone(seen, number, zone);
    }
}

/// Asks for a report of some zones, and sees what it shows. It is believed only if it agrees with what was seen before.
/// A report that is not answered by Success has no effect: what was seen stays true.
pub(crate) fn look<P: Passthrough>(
    way: &mut P,
    geometry: Geometry,
    seen: &mut [SeenZone],
    first: u32,
    count: u32,
    room: &mut [u8],
) -> Result<(), Halt>
    requires ready { IsReady geometry (P.shape way.old) (P.zones way.old) seen.old }
    requires some { 1 ≤ count }
    requires there { first + count ≤ geometry.zones }
    requires room { length room.old ≡ 64 + 64 * count }
    requires few { 64 + 64 * count ≤ geometry.transfer * geometry.block }
    ensures seen { OnOk result (WereSeen first count geometry (P.zones way.old) seen.old seen.new (P.zones way.new)) }
    ensures ready { result ≢ Err Halt.Stopped → IsReady geometry (P.shape way.new) (P.zones way.new) seen.new }
    ensures closes { IsClosing (P.zones way.old) (P.zones way.new) }
    ensures leads { Leads geometry (P.shape way.new) (P.zones way.new) }
    ensures err { IfErr result (λ halt. halt ≢ Halt.Memory) }
    ensures flushed { P.flushed way.old ≡ true → P.flushed way.new ≡ true }
{
    let command = Command::Receive {
        slba: geometry.start_of(first),
        dwords: 16 + 16 * u64::from(count),
        options: ReportingOptions::AnyState,
        partial: true,
    };
    let mut value = 0;
    if way.submit(&command, &[], 0, room, &mut value) != 0 {
        return Err(Halt::Failed);
    }
    if !agrees(geometry, first, count, seen, room) {
        return Err(Halt::Stopped);
    }
    see(first, count, seen, room);
    Ok(())
}
