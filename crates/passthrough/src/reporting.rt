// Reports of the whole drive, in pieces.

ghost use Rattle.std.specs.Prelude.{◌≡◌, ◌≢◌, ◌+◌, ◌*◌, ◌≤◌, ◌++◌, [], Err, IfErr, IfOk, Ok, OnErr, OnOk, length, map};
ghost use Rattle.std.specs.Prelude.{true};
ghost use Rattle.nvme_wire.specs.declared.command.Command.TheVariants.{Receive};
ghost use Rattle.nvme_wire.specs.declared.status.Status.TheVariants.{Success};
ghost use Rattle.zone_report.specs.Report.{report};
ghost use Rattle.drive_port.specs.Halting.{Adds};
ghost use Rattle.drive_port.specs.Step.{Effect};
ghost use Rattle.zone_states.specs.Geometry.{IsInRange};
ghost use Rattle.drive_port.specs.Drive.{IsClosing};
ghost use Rattle.passthrough.specs.Asking.{IsReady, Leads};
ghost use Rattle.passthrough.specs.Showing.{WereSeen, zone_like};

use crate::looking::look;
use crate::passthrough::Passthrough;
use crate::seen_zone::SeenZone;
use drive_port::{Geometry, Halt};
use nvme_wire::ReportingOptions;
use std::alloc::Global;
use zone_report::{ReportedZones, ZoneStatus, report_bytes};

/// The zones of a drive as they were seen.
#[derive(Drop)]
struct Shown<'a> {
    zones: &'a [SeenZone],
}

impl<'a> ReportedZones for Shown<'a> {
    ghost zones = { λ s. map zone_like s.zones.now };

    fn status(&self, number: u32) -> ZoneStatus {
        let zone = self.zones[number as usize];
        ZoneStatus {
            state: zone.state,
            written: zone.written.unwrap_or(0),
        }
    }
}

/// The fields of a Zone Management Receive.
#[derive(Clone, Copy)]
pub(crate) struct ReportAsked {
    pub(crate) slba: u64,
    pub(crate) dwords: u64,
    pub(crate) options: ReportingOptions,
    pub(crate) partial: bool,
}

/// How many zones of the drive a report can show, that is no longer than one transfer.
pub(crate) fn zones_in_one(geometry: Geometry) -> u32
    requires { IsInRange geometry }
    ensures some { 1 ≤ result }
    ensures few { 64 + 64 * result ≤ geometry.transfer * geometry.block }
    ensures fits { result ≤ 16384 }
{
    (geometry.transfer * geometry.block / 64 - 1).min(geometry.zones)
}

/// Looks at all zones.
fn look_at_all<P: Passthrough>(
    way: &mut P,
    geometry: Geometry,
    seen: &mut [SeenZone],
    most: u32,
    room: &mut [u8],
) -> Result<(), Halt>
    requires ready { IsReady geometry (P.shape way.old) (P.zones way.old) seen.old }
    requires some { 1 ≤ most }
    requires few { 64 + 64 * most ≤ geometry.transfer * geometry.block }
    requires room { length room.old ≡ 64 + 64 * most }
    ensures seen { OnOk result
        (WereSeen 0 geometry.zones geometry (P.zones way.old) seen.old seen.new (P.zones way.new)) }
    ensures ready { result ≢ Err Halt.Stopped → IsReady geometry (P.shape way.new) (P.zones way.new) seen.new }
    ensures closes { IsClosing (P.zones way.old) (P.zones way.new) }
    ensures leads { Leads geometry (P.shape way.new) (P.zones way.new) }
    ensures err { IfErr result (λ halt. halt ≢ Halt.Memory) }
    ensures flushed { P.flushed way.old ≡ true → P.flushed way.new ≡ true }
{
    let mut first = 0;
    while first < geometry.zones {
        let count = most.min(geometry.zones - first);
        let size = 64 + 64 * count as usize;
        look(way, geometry, seen, first, count, &mut room[..size])?;
        first += count;
    }
    Ok(())
}

/// Puts the report of what was seen after what `into` holds.
fn add_report(
    alloc: Global,
    geometry: Geometry,
    seen: &[SeenZone],
    asked: ReportAsked,
    into: &mut Vec<u8>,
) -> Result<(), Halt>
    requires { length seen.now ≡ geometry.zones }
    ensures ok { OnOk result (into.new.items ≡ into.old.items ++ report geometry (map zone_like seen.now)
        asked.slba asked.options asked.partial asked.dwords) }
    ensures err { IfErr result (λ halt. halt ≡ Halt.Stopped) }
    ensures kept { OnErr result (into.new.items ≡ into.old.items) }
{
    let ReportAsked {
        slba,
        dwords,
        options,
        partial,
    } = asked;
    let zones = Shown { zones: seen };
    let Ok(bytes) = report_bytes(alloc, &zones, geometry, slba, options, partial, dwords) else {
        return Err(Halt::Stopped);
    };
    match into.extend_from_slice(&bytes) {
        Ok(()) => Ok(()),
        Err(_) => Err(Halt::Stopped),
    }
}

/// Makes room for a report. There has to be memory for it twice, since it is written first and then copied.
fn has_room(alloc: Global, dwords: u64, into: &mut Vec<u8>) -> bool
    ensures { into.new.items ≡ into.old.items }
{
    let Some(size) = dwords.checked_mul(4) else {
        return false;
    };
    into.reserve(size as usize).is_ok() && Vec::<u8>::with_capacity(alloc, size as usize).is_ok()
}

/// Reports zones, by what is seen of all of them now. The memory for the report is asked for before the drive is: if it
/// is missing afterwards, the device stops.
pub(crate) fn report<P: Passthrough>(
    alloc: Global,
    way: &mut P,
    geometry: Geometry,
    seen: &mut [SeenZone],
    asked: ReportAsked,
    into: &mut Vec<u8>,
) -> Result<u64, Halt>
    requires ready { IsReady geometry (P.shape way.old) (P.zones way.old) seen.old }
    ensures ok { IfOk result (λ value. (value ≡ 0) × Adds into.old.items (λ returned. Effect geometry (P.zones way.old)
        (Ok (Receive asked.slba asked.dwords asked.options asked.partial)) [] Success 0 returned
        (P.zones way.new)) into.new.items) }
    ensures err { IfErr result (λ halt. (halt ≡ Halt.Memory → P.zones way.new ≡ P.zones way.old)
        × IsClosing (P.zones way.old) (P.zones way.new)) }
    ensures ready { result ≢ Err Halt.Stopped
        → IsReady geometry (P.shape way.new) (P.zones way.new) seen.new }
    ensures leads { Leads geometry (P.shape way.new) (P.zones way.new) }
    ensures kept { OnErr result (into.new.items ≡ into.old.items) }
    ensures flushed { P.flushed way.old ≡ true → P.flushed way.new ≡ true }
{
    if asked.slba >= geometry.end() {
        return Err(Halt::Stopped);
    }
    let most = zones_in_one(geometry);
    let Ok(mut room) = Vec::from_elem(alloc, 0, 64 + 64 * most as usize) else {
        return Err(Halt::Memory);
    };
    if !has_room(alloc, asked.dwords, into) {
        return Err(Halt::Memory);
    }
    look_at_all(way, geometry, seen, most, &mut room)?;
    add_report(alloc, geometry, seen, asked, into)?;
    Ok(0)
}
