// What a report shows of the zones that were seen.

ghost use Rattle.std.specs.Prelude.{◌≡◌, ◌+◌, ◌*◌, ◌≤◌, ℕ, IfSome, Some, true, unwrap_or};
ghost use Rattle.byteorder.specs.Endian.{little_from};
ghost use Rattle.zone_report.specs.Report.{pointer_of};
ghost use Rattle.passthrough.specs.Premise.{IsOfZone, pointer_in};
ghost use Rattle.passthrough.specs.Seen.{IsState};
ghost use Rattle.passthrough.specs.Showing.{IsShown};

use crate::seen_zone::SeenZone;
use byteorder::{ByteOrder, LittleEndian};
use drive_port::Geometry;
use nvme_wire::ZoneState;

/// The number in the eight bytes from `at` on, lowest byte first.
pub(crate) fn word_at(bytes: &[u8; 64], at: usize) -> u64
    requires { at + 8 ≤ 64 }
    ensures { result ≡ little_from at 8 bytes.now }
{
    LittleEndian::read_u64(&bytes[at..at + 8])
}

/// Whether a zone may be in a state, after it was seen in another.
fn may_be(seen: ZoneState, state: ZoneState) -> bool
    ensures { result ≡ true → IsState seen state }
{
    state == seen || (seen == ZoneState::ImplicitlyOpened && state == ZoneState::Closed)
}

/// Whether a descriptor is that of the zone with a number.
pub(crate) fn is_of_zone(geometry: Geometry, number: u32, bytes: &[u8; 64]) -> bool
    ensures { result ≡ true → IsOfZone geometry number bytes.now }
{
    bytes[0] % 16 == 2
        && word_at(bytes, 8) == u64::from(geometry.capacity)
        && word_at(bytes, 16) == geometry.start_of(number)
}

/// Whether a descriptor shows the pointer of a zone in this state, if it has one.
fn shows_pointer(
    geometry: Geometry,
    number: u32,
    seen: SeenZone,
    state: ZoneState,
    bytes: &[u8; 64],
) -> bool
    ensures { result ≡ true → (next : ℕ)
        → pointer_of state (number * geometry.size + unwrap_or seen.written 0) ≡ Some next
        → pointer_in bytes.now ≡ next }
{
    let start = geometry.start_of(number);
    match state {
        ZoneState::Full | ZoneState::ReadOnly | ZoneState::Offline => true,
        _ => word_at(bytes, 24) == start + u64::from(seen.written.unwrap_or(0)),
    }
}

/// The state that a descriptor shows of the zone with a number, if all that it shows agrees with what was seen.
pub(crate) fn shown_state(
    geometry: Geometry,
    number: u32,
    seen: SeenZone,
    bytes: &[u8; 64],
) -> Option<ZoneState>
    ensures { IfSome result (IsShown geometry number seen bytes.now) }
{
    let state = ZoneState::from_code(bytes[1] / 16)?;
    if !is_of_zone(geometry, number, bytes) || !may_be(seen.state, state) {
        return None;
    }
    if !shows_pointer(geometry, number, seen, state, bytes) {
        return None;
    }
    Some(state)
}
