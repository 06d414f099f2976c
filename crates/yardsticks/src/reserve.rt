//! The quota of a geometry, by trial.

ghost use Rattle.zone_states.specs.Geometry.{IsInRange};
ghost use Rattle.drive_array.specs.Reserve.{IsQuota, batch_most};

use zone_choice::fill;
use zone_states::Geometry;

/// The greatest number of records whose move leaves two blocks of a zone free. The geometry is one
/// that `check` admits.
pub fn quota(geometry: &Geometry) -> u32
    requires { IsInRange geometry.now }
    ensures { IsQuota (batch_most geometry.now) geometry.now.capacity result }
{
    let mut records = 0;
    while fill(geometry, records + 1) + 2 <= geometry.capacity as u64 {
        records += 1;
    }
    records
}
