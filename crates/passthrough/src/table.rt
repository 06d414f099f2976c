// What was seen of each zone, in order.

ghost use Rattle.std.specs.Prelude.{◌≡◌, slice_set};
ghost use Rattle.passthrough.specs.Seen.{seen_at};

use crate::seen_zone::SeenZone;
use nvme_wire::ZoneState;

/// What is known of no zone.
pub(crate) const NO_ZONE: SeenZone = SeenZone {
    state: ZoneState::Offline,
    written: None,
    changed: false,
};

/// What was seen of the zone with a number.
pub(crate) fn zone_at(seen: &[SeenZone], number: u64) -> SeenZone
    ensures { result ≡ seen_at seen.now number }
{
    match seen.get(number as usize) {
        Some(&zone) => zone,
        None => NO_ZONE,
    }
}

/// Sees a zone.
pub(crate) fn set_zone(seen: &mut [SeenZone], number: u64, zone: SeenZone)
    ensures { seen.new ≡ slice_set seen.old number zone }
{
    let number = number as usize;
    if number < seen.len() {
        seen[number] = zone;
    }
}
