// What was counted of a disk over any device, as text.

use drive_counter::{Counter, Spread, statistics_text};
use drive_port::Device;
use std::alloc::{AllocError, Global};
use zone_translator::AnyDisk;

/// How many blocks are live in each zone, as the tables say.
fn live_blocks<D: Device + Drop>(
    alloc: Global,
    disk: &AnyDisk<Counter<D>>,
) -> Result<Vec<u32>, AllocError> {
    let mut live = Vec::new(alloc);
    for zone in 0..disk.device().geometry().zones {
        live.push(disk.live(zone))?;
    }
    Ok(live)
}

/// The zones that no clean takes.
fn zones_left_out<D: Device + Drop>(
    alloc: Global,
    disk: &AnyDisk<Counter<D>>,
) -> Result<Vec<u32>, AllocError> {
    let mut zones = Vec::new(alloc);
    for zone in 0..disk.device().geometry().zones {
        if disk.is_left_out(zone) {
            zones.push(zone)?;
        }
    }
    Ok(zones)
}

/// What was counted of a disk, how many blocks are live in its zones, and how many zones no clean takes, as text.
pub fn statistics_of<D: Device + Drop>(
    alloc: Global,
    disk: &AnyDisk<Counter<D>>,
) -> Result<String, AllocError> {
    let mut live = live_blocks(alloc, disk)?;
    let left_out = zones_left_out(alloc, disk)?.len();
    statistics_text(
        alloc,
        &disk.device().counts(),
        &Spread::of(&mut live),
        left_out,
    )
}
