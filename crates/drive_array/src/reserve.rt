ghost use Rattle.std.specs.Prelude.{◌≡◌, ◌≤◌, ◌<◌, ◌↔◌, ℕ, IsTrue};
ghost use Rattle.zone_states.specs.Geometry.{IsInRange};
ghost use Rattle.drive_array.specs.Reserve.{FitsReserve, IsQuota, batch_most, move_blocks, most_size, quota_of};

use batch_log::entry_room;
use zone_states::Geometry;

/// How many entries a batch has at most. The geometry is one that `check` admits.
pub fn batch_most(geometry: &Geometry) -> u32
    requires { IsInRange geometry.now }
    ensures most { result ≡ batch_most geometry.now }
    ensures positive { 1 ≤ result }
{
    entry_room(geometry.block).min(geometry.transfer - 1)
}

/// How many blocks it takes to move that many records: one for each at most, and a header for each batch.
/// The geometry is one that `check` admits.
pub fn fill(geometry: &Geometry, records: u32) -> u64
    requires { IsInRange geometry.now }
    ensures { result ≡ move_blocks (batch_most geometry.now) records }
{
    let records = records as u64;
    let headers = records.div_ceil(batch_most(geometry) as u64);
    (records + headers).max(1)
}

/// The greatest number of records whose move leaves two blocks of a zone free.
fn quota(geometry: &Geometry) -> u64
    requires { IsInRange geometry.now }
    ensures is { result ≡ quota_of geometry.now }
    ensures quota { IsQuota (batch_most geometry.now) geometry.now.capacity result }
    ensures below { result ≤ geometry.now.capacity }
{
    let room = geometry.capacity as u64 - 2;
    let batch_blocks = batch_most(geometry) as u64 + 1;
    room - room.div_ceil(batch_blocks)
}

/// The greatest number of logical blocks that a drive can serve. The geometry is one that `check` admits.
pub fn most_blocks(geometry: &Geometry) -> u64
    requires { IsInRange geometry.now }
    ensures is { result ≡ most_size geometry.now }
    ensures fits { FitsReserve geometry.now result }
    ensures most { (blocks : ℕ) → FitsReserve geometry.now blocks → blocks ≤ result }
{
    (quota(geometry) * (geometry.zones as u64 - 1)).min(1 << 31)
}

/// Whether a drive can serve `blocks` logical blocks: 1 to 2^31, and no more than its reserve allows.
/// The geometry is one that `check` admits.
pub fn fits_reserve(geometry: &Geometry, blocks: u64) -> bool
    requires { IsInRange geometry.now }
    ensures { IsTrue result ↔ FitsReserve geometry.now blocks }
{
    1 <= blocks && blocks <= 1 << 31 && blocks <= quota(geometry) * (geometry.zones as u64 - 1)
}
