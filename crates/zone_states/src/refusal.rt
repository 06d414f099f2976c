ghost use Rattle.std.specs.Prelude.{◌≡◌, length};
ghost use Rattle.zone_states.specs.Checks.{first_failing};
ghost use Rattle.zone_states.specs.Writing.{room_checks, state_checks, zone_append_checks, zone_write_checks};
ghost use Rattle.zone_states.specs.Zone.{Zone};

use crate::geometry::Geometry;
use nvme_wire::{Status, ZoneState};

/// The status with which a state refuses every Write and Append.
fn state_refusal(state: ZoneState) -> Option<Status>
    ensures { (zone : Zone) → zone.state ≡ state → result ≡ first_failing (state_checks zone) }
{
    match state {
        ZoneState::Full => Some(Status::ZoneIsFull),
        ZoneState::ReadOnly => Some(Status::ZoneIsReadOnly),
        ZoneState::Offline => Some(Status::ZoneIsOffline),
        _ => None,
    }
}

/// The status of a Write or an Append of that many blocks for which there is no room after those that are written.
fn room_refusal(geometry: &Geometry, written: u64, blocks: u64) -> Option<Status>
    ensures { (zone : Zone) → length zone.blocks ≡ written → result ≡ first_failing (room_checks geometry.now zone blocks) }
{
    if written.saturating_add(blocks) > u64::from(geometry.capacity) {
        return Some(Status::ZoneBoundaryError);
    }
    None
}

/// The status of the first check that an Append of that many blocks fails, on a zone in this state of which that many
/// blocks are written. The limits on active and open zones are not looked at.
pub fn append_refusal(
    geometry: &Geometry,
    state: ZoneState,
    written: u64,
    blocks: u64,
) -> Option<Status>
    ensures { (zone : Zone) → zone.state ≡ state → length zone.blocks ≡ written
        → result ≡ first_failing (zone_append_checks geometry.now zone blocks) }
{
    if let Some(status) = state_refusal(state) {
        return Some(status);
    }
    room_refusal(geometry, written, blocks)
}

/// The same of a Write, from an offset in blocks on.
pub fn write_refusal(
    geometry: &Geometry,
    state: ZoneState,
    written: u64,
    offset: u64,
    blocks: u64,
) -> Option<Status>
    ensures { (zone : Zone) → zone.state ≡ state → length zone.blocks ≡ written
        → result ≡ first_failing (zone_write_checks geometry.now zone offset blocks) }
{
    if let Some(status) = state_refusal(state) {
        return Some(status);
    }
    if offset != written {
        return Some(Status::ZoneInvalidWrite);
    }
    room_refusal(geometry, written, blocks)
}
