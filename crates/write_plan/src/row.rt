ghost use Rattle.std.specs.Prelude.{◌≡◌, ◌≤◌};
ghost use Rattle.zone_states.specs.Geometry.{IsInRange};
ghost use Rattle.drive_array.specs.Reserve.{FitsReserve};
ghost use Rattle.write_plan.specs.Rows.{IsRow, percent_of, share_of, table_bytes};

use crate::estimate::{Estimate, WRITES, expected};
use drive_array::{batch_most, most_blocks};
use zone_states::Geometry;

/// What a number of logical blocks costs on a drive.
#[derive(Clone, Copy, Debug, PartialEq, Eq)]
pub struct Row {
    /// How many logical blocks.
    pub blocks: u64,
    /// How many percent of the greatest number that is, to the nearest.
    pub share: u64,
    /// How many bytes they hold.
    pub bytes: u64,
    /// How many bytes of memory the tables of a mounted disk take at most, about.
    pub memory: u64,
    /// How many Reads a mount sends at least once each block was written.
    pub least_reads: u64,
    /// What random writes are expected to cost, of 1, 4, 16 and 64 blocks together.
    pub estimates: [Estimate; 4],
}

/// That many percent of the greatest number of logical blocks, and one at least.
pub fn share_of(geometry: &Geometry, percent: u32) -> u64
    requires in_range { IsInRange geometry.now }
    requires share { percent ≤ 100 }
    ensures value { result ≡ share_of geometry.now percent }
    ensures fits { FitsReserve geometry.now result }
{
    (most_blocks(geometry) * u64::from(percent) / 100).max(1)
}

/// How many percent of the greatest number these are, to the nearest.
fn percent_of(geometry: &Geometry, blocks: u64) -> u64
    requires in_range { IsInRange geometry.now }
    requires fits { FitsReserve geometry.now blocks }
    ensures { result ≡ percent_of geometry.now blocks }
{
    let most = most_blocks(geometry);
    (200 * blocks + most) / (2 * most)
}

/// The bytes that the tables of a mounted disk take at most, about.
fn table_bytes(geometry: &Geometry, blocks: u64) -> u64
    requires in_range { IsInRange geometry.now }
    requires fits { FitsReserve geometry.now blocks }
    ensures { result ≡ table_bytes geometry.now blocks }
{
    let zones = u64::from(geometry.zones);
    2080 * blocks.div_ceil(256) + 4 * zones * u64::from(geometry.capacity) + 64 * zones
}

/// The row of a number of logical blocks.
pub fn row_of(geometry: &Geometry, blocks: u64) -> Row
    requires in_range { IsInRange geometry.now }
    requires fits { FitsReserve geometry.now blocks }
    ensures { IsRow geometry.now blocks result }
{
    Row {
        blocks,
        share: percent_of(geometry, blocks),
        bytes: blocks * u64::from(geometry.block),
        memory: table_bytes(geometry, blocks),
        least_reads: blocks.div_ceil(u64::from(batch_most(geometry))),
        estimates: WRITES.map(|write| expected(geometry, blocks, write)),
    }
}
