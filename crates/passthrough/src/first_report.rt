// What the first report of a drive shows of its zones.

ghost use Rattle.std.specs.Prelude.{◌≡◌, ◌+◌, ◌*◌, ◌≤◌, IfOk, IfSome, List, OnOk, length};
ghost use Rattle.zone_states.specs.Zone.{Zone};
ghost use Rattle.passthrough.specs.Premise.{AreLawful, ShowsZones};
ghost use Rattle.passthrough.specs.Seen.{AreRows, AreSeen, IsRow};

use crate::looking::descriptor;
use crate::seen_zone::SeenZone;
use crate::showing::{is_of_zone, word_at};
use crate::table::{NO_ZONE, set_zone};
use drive_port::Geometry;
use nvme_wire::ZoneState;
use std::alloc::{AllocError, Global};
use thiserror::Error;

/// Why a report does not show the zones of a drive.
#[derive(Clone, Copy, Debug, PartialEq, Eq, Error)]
pub enum ShownFault {
    /// An allocation failed.
    #[error("out of memory")]
    Memory,
    /// The report has not as many bytes as a head and a descriptor of each zone.
    #[error("the report has another length than the zones of the drive take")]
    Length,
    /// The descriptor is not one of the zone with this number.
    #[error("the report does not show zone {0} of this drive")]
    Zone(u32),
}

impl From<AllocError> for ShownFault {
    fn from(_error: AllocError) -> ShownFault {
        ShownFault::Memory
    }
}

/// What a descriptor shows of the zone with a number, if it is one of that zone.
fn zone_shown(geometry: Geometry, number: u32, bytes: &[u8; 64]) -> Option<SeenZone>
    ensures { IfSome result (IsRow geometry number bytes.now) }
{
    let state = ZoneState::from_code(bytes[1] / 16)?;
    if !is_of_zone(geometry, number, bytes) {
        return None;
    }
    let written = match state {
        ZoneState::Full | ZoneState::ReadOnly | ZoneState::Offline => None,
        _ => {
            let written = word_at(bytes, 24).checked_sub(geometry.start_of(number))?;
            if written >= u64::from(geometry.capacity) {
                return None;
            }
            Some(written as u32)
        }
    };
    Some(SeenZone {
        state,
        written,
        changed: false,
    })
}

/// Sees the zones that the descriptors of a report show, as many as there are.
fn see_zones(geometry: Geometry, report: &[u8], seen: &mut [SeenZone]) -> Result<(), ShownFault>
    requires count { length seen.old ≡ geometry.zones }
    requires room { length report.now ≡ 64 + 64 * geometry.zones }
    ensures count { length seen.new ≡ length seen.old }
    ensures ok { OnOk result (AreRows geometry report.now geometry.zones seen.new) }
{
    for number in 0..geometry.zones {
        let Some(zone) = zone_shown(geometry, number, &descriptor(report, number)) else {
            return Err(ShownFault::Zone(number));
        };
        set_zone(seen, u64::from(number), zone);
    }
    Ok(())
}

/// What a report of all zones shows of each. How many blocks are written is not known of a zone that is Full, Read Only
/// or Offline.
pub fn zones_shown(
    alloc: Global,
    geometry: Geometry,
    report: &[u8],
) -> Result<Vec<SeenZone>, ShownFault>
    requires { 1 ≤ geometry.size }
    ensures seen { IfOk result (λ seen. (zones : List Zone) → AreLawful geometry zones
        → ShowsZones geometry zones 0 report.now → AreSeen zones seen.items) }
    ensures rows { IfOk result (λ seen. AreRows geometry report.now geometry.zones seen.items) }
{
    if report.len() as u64 != 64 + 64 * u64::from(geometry.zones) {
        return Err(ShownFault::Length);
    }
    let mut seen = Vec::from_elem(alloc, NO_ZONE, geometry.zones as usize)?;
    see_zones(geometry, report, &mut seen)?;
    Ok(seen)
}
