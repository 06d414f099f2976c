ghost use Rattle.std.specs.Prelude.{◌≡◌, length};
ghost use Rattle.zone_drive.specs.Stored.{AreZones, zones_of};
ghost use Rattle.zone_states.specs.Geometry.{IsInRange};
ghost use Rattle.drive_images.specs.Image.{image_bytes};

use zone_states::{Geometry, Zone};

/// How many bytes the image of a drive with these zones has.
pub fn image_length(geometry: &Geometry, zones: &[Zone]) -> u64
    requires in_range { IsInRange geometry.now }
    requires are_zones { AreZones geometry.now zones.now }
    ensures { result ≡ length (image_bytes geometry.now (zones_of geometry.now.block zones.now)) }
{
    let mut bytes = 64;
    for zone in zones {
        bytes += 8 + zone.written().len() as u64;
    }
    bytes
}
