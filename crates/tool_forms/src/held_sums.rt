//! Numbers that follow from what was found.

use drive_inspection::{DriveInfo, Holdings, MountWork};
use drive_survey::ReportedZone;
use nvme_wire::ZoneState;
use std::alloc::{AllocError, Global};
use write_plan::{Aim, PlanFault, plan};
use zone_states::Geometry;

/// The blocks of a drive that can be written, by what they hold.
#[derive(Clone, Copy)]
pub struct Shares {
    /// Data of live records.
    pub live: u64,
    /// Anything else: headers, data that is no longer live, torn tails, and what a finished zone leaves out.
    pub dead: u64,
    pub free: u64,
}

/// How many zones are in a state.
pub fn count_state(zones: &[ReportedZone], state: ZoneState) -> usize {
    zones
        .iter()
        .filter(|zone| zone.state.code() == state.code())
        .count()
}

/// How many blocks a host reads of all zones.
fn used_blocks(zones: &[ReportedZone]) -> u64 {
    let mut used: u64 = 0;
    for zone in zones {
        used = used.saturating_add(u64::from(zone.blocks));
    }
    used
}

/// What the blocks of a drive hold.
pub fn block_shares(info: &DriveInfo, holdings: &Holdings) -> Shares {
    let used = used_blocks(&info.zones);
    let live = u64::from(holdings.live.written);
    let all = u64::from(info.geometry.zones).saturating_mul(u64::from(info.geometry.capacity));
    Shares {
        live,
        dead: used.saturating_sub(live),
        free: all.saturating_sub(used),
    }
}

/// How many batches there are.
pub fn count_batches(holdings: &Holdings) -> u64 {
    let mut batches: u64 = 0;
    for zone in &holdings.zones {
        batches = batches.saturating_add(zone.batches as u64);
    }
    batches
}

/// The zones with a torn tail after their batches.
pub fn torn_zones(alloc: Global, holdings: &Holdings) -> Result<Vec<u32>, AllocError> {
    let mut torn = Vec::new(alloc);
    for (number, zone) in (0u32..).zip(holdings.zones.iter()) {
        if zone.is_torn {
            torn.push(number)?;
        }
    }
    Ok(torn)
}

/// How many zones a mount resets.
pub fn count_resets(work: &MountWork) -> usize {
    let torn = usize::from(work.torn.is_some());
    let without = work.vacant.len().saturating_add(work.half_clean.len());
    without.saturating_add(torn)
}

/// How many Moves a mount appends.
pub fn count_moves(work: &MountWork) -> u64 {
    match work.torn {
        Some(repair) => repair.moves,
        None => 0,
    }
}

/// The bytes of memory that the tables of a mounted disk take at most, about.
pub fn memory(alloc: Global, geometry: &Geometry, blocks: u32) -> Result<Option<u64>, AllocError> {
    match plan(alloc, geometry, Aim::Blocks(u64::from(blocks))) {
        Ok(rows) => Ok(rows.first().map(|row| row.memory)),
        Err(PlanFault::OutOfMemory) => Err(AllocError),
        Err(_) => Ok(None),
    }
}
