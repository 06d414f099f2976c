ghost use Rattle.std.specs.Prelude.{◌≡◌, length};

use crate::zone_states_named::is_in;
use nvme_wire::ZoneState;
use serde_json::{Value, json};
use std::alloc::{AllocError, Global};
use zone_report::{ReportedZones, ZoneStatus};
use zone_states::Geometry;

/// The name that nvme-cli gives a state.
fn nvme_name(state: ZoneState) -> &'static str {
    match state {
        ZoneState::Empty => "EMPTY",
        ZoneState::ImplicitlyOpened => "IMP_OPENED",
        ZoneState::ExplicitlyOpened => "EXP_OPENED",
        ZoneState::Closed => "CLOSED",
        ZoneState::ReadOnly => "READONLY",
        ZoneState::Full => "FULL",
        ZoneState::Offline => "OFFLINE",
    }
}

/// The address that is written next, all ones in the states that have none.
fn pointer(zone: ZoneStatus, start: u64) -> u64 {
    match zone.state {
        ZoneState::Full | ZoneState::ReadOnly | ZoneState::Offline => u64::MAX,
        _ => start.saturating_add(u64::from(zone.written)),
    }
}

/// A zone.
fn zone_json(
    alloc: Global,
    geometry: Geometry,
    number: u32,
    zone: ZoneStatus,
) -> Result<Value, AllocError> {
    let start = geometry.start_of(number);
    json!(in alloc; {
        "slba": start,
        "wp": pointer(zone, start),
        "cap": u64::from(geometry.capacity),
        "state": nvme_name(zone.state),
        "type": "SEQWRITE_REQ",
        "attrs": 0u64,
    })
}

/// Whether a zone is shown: one that is in the state, or any.
fn is_shown(state: Option<ZoneState>, zone: ZoneState) -> bool {
    match state {
        None => true,
        Some(state) => is_in(state, zone),
    }
}

/// The zones as JSON, with the names of nvme-cli: `nr_zones` zones in `zone_list`. Each has its start `slba`, its
/// write pointer `wp` (all ones where it has none), its capacity `cap`, `state`, `type` and `attrs`. With a state
/// only the zones in it.
pub fn zones_json<Z: ReportedZones>(
    alloc: Global,
    zones: &Z,
    geometry: Geometry,
    state: Option<ZoneState>,
) -> Result<String, AllocError>
    requires { length (Z.zones zones.now) ≡ geometry.zones }
{
    let mut list = Vec::new(alloc);
    for number in 0..geometry.zones {
        let zone = zones.status(number);
        if is_shown(state, zone.state) {
            list.push(zone_json(alloc, geometry, number, zone)?)?;
        }
    }
    let count = list.len() as u64;
    json!(in alloc; {"nr_zones": count, "zone_list": list})?.to_string_pretty(alloc)
}
