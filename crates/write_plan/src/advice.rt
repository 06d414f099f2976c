ghost use Rattle.drive_array.specs.Reserve.{FitsReserve};
ghost use Rattle.zone_states.specs.Geometry.{IsInRange};

use crate::drive::PLANNED_SHARE;
use crate::row::{Row, row_of, share_of};
use drive_array::fits_reserve;
use std::alloc::{AllocError, Global};
use zone_states::Geometry;

/// The greatest write amplification of random writes of one block of which nobody is told, in hundredths.
const SLOW: u32 = 1000;

/// The write amplification of random writes of one block, in hundredths.
fn amplification(row: &Row) -> u32 {
    row.estimates[0].amplification
}

/// Says that random writes to a disk of this size are slow, if they are.
fn slow_advice(
    alloc: Global,
    geometry: &Geometry,
    blocks: u64,
) -> Result<Option<String>, AllocError>
    requires in_range { IsInRange geometry.now }
    requires fits { FitsReserve geometry.now blocks }
{
    let row = row_of(geometry, blocks);
    let slow = amplification(&row);
    if slow <= SLOW {
        return Ok(None);
    }
    let advised = row_of(geometry, share_of(geometry, PLANNED_SHARE));
    let better = amplification(&advised);
    let text = format!(in alloc;
        "{blocks} logical blocks are {} percent of the greatest number: random writes of one block are expected to \
        write {}.{:02} times as much; with {} percent, {} logical blocks, it is {}.{:02} times",
        row.share,
        slow / 100,
        slow % 100,
        PLANNED_SHARE,
        advised.blocks,
        better / 100,
        better % 100
    )?;
    Ok(Some(text))
}

/// Says that random writes to a disk of this size are slow, and which size is advised. None where the write
/// amplification to expect is at most 10, or the drive cannot serve that many logical blocks.
pub fn size_advice(
    alloc: Global,
    geometry: &Geometry,
    blocks: u64,
) -> Result<Option<String>, AllocError> {
    if geometry.check().is_err() || !fits_reserve(geometry, blocks) {
        return Ok(None);
    }
    slow_advice(alloc, geometry, blocks)
}

/// The greatest drive that a machine of 16 GiB of memory has room for, in bytes.
const ROOMY: u64 = 14 << 30;

/// How many bytes a drive of this shape holds once all its blocks are written.
fn bytes_of(geometry: &Geometry) -> u64 {
    u64::from(geometry.zones)
        .saturating_mul(u64::from(geometry.capacity))
        .saturating_mul(u64::from(geometry.block))
}

/// Says how much memory a drive of this shape needs once all its blocks are written. None where that is at most 14 GiB.
pub fn memory_advice(alloc: Global, geometry: &Geometry) -> Result<Option<String>, AllocError> {
    let bytes = bytes_of(geometry);
    if bytes <= ROOMY {
        return Ok(None);
    }
    let whole = bytes.div_ceil(1 << 30);
    let text = format!(in alloc;
        "a drive is held in memory: this one needs {whole} GiB once all its blocks are written, and 2 GiB more; \
        with 16 GiB of memory take one of at most 14 GiB"
    )?;
    Ok(Some(text))
}
