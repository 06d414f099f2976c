//! A drive for a number of bytes.

ghost use Rattle.std.specs.Prelude.{◌≡◌, ◌≤◌, ◌<◌, ◌^◌, IfSome, OnSome, IsNone, IsSome};
ghost use Rattle.zone_states.specs.Geometry.{IsInRange};
ghost use Rattle.write_plan.specs.Drives.{IsDriveFor, IsFewest, largest_zone, most_planned, planned_drive};

use drive_array::most_blocks;
use zone_states::Geometry;

/// How many percent of its greatest number of logical blocks such a drive serves at most.
pub const PLANNED_SHARE: u32 = 80;

/// The blocks of a zone that are tried, the fewest first.
const CAPACITIES: [u32; 6] = [1 << 8, 1 << 10, 1 << 12, 1 << 14, 1 << 16, 1 << 18];

/// The most zones of these that a drive has.
const MOST_ZONES: u64 = 1024;

/// The blocks of the largest zones.
const LARGEST: u32 = 1 << 20;

/// A drive with that many zones of that many blocks of 4,096 bytes.
fn planned_drive(zones: u32, capacity: u32) -> Geometry
    ensures { result ≡ planned_drive zones capacity }
{
    Geometry {
        block: 4096,
        zones,
        size: capacity,
        capacity,
        transfer: 128,
        active: 8,
        open: 8,
    }
}

/// The fewest zones of that many blocks that hold the logical blocks in 80 percent of those that they serve, 8 at
/// least.
fn fewest_zones(blocks: u64, capacity: u32) -> u64
    requires capacity { 4 ≤ capacity × capacity ≤ largest_zone }
    requires blocks { blocks ≤ 2 ^ 30 }
    ensures { IsFewest blocks capacity result }
{
    let two_zones = most_blocks(&planned_drive(3, capacity));
    let needed = (5 * blocks).div_ceil(2 * two_zones) + 1;
    needed.max(8)
}

/// A drive for that many bytes, of blocks of 4,096 bytes: it has at most 80 percent of the logical blocks that it can
/// serve. Its zones are as small as 1,024 zones allow, and as few as hold the bytes, 8 at least. None above 2^42 bytes.
pub fn drive_for(bytes: u64) -> Option<Geometry>
    ensures some { IfSome result (IsDriveFor bytes) }
    ensures found { bytes ≤ most_planned → IsSome result }
{
    if bytes > 1 << 42 {
        return None;
    }
    let blocks = bytes.div_ceil(4096);
    for capacity in CAPACITIES {
        let zones = fewest_zones(blocks, capacity);
        if zones <= MOST_ZONES {
            return Some(planned_drive(zones as u32, capacity));
        }
    }
    Some(planned_drive(fewest_zones(blocks, LARGEST) as u32, LARGEST))
}
