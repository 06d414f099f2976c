ghost use Rattle.std.specs.Prelude.{◌≡◌, ◌⊎◌, ◌<◌, ◌≤◌, ◌+◌, ◌^◌, ℕ, false, List, length, IfErr, IfNone, IfOk, IfSome};
ghost use Rattle.batch_log.specs.Log.{Batch};
ghost use Rattle.drive_port.specs.Contents.{contents};
ghost use Rattle.drive_port.specs.Drive.{DriveState};
ghost use Rattle.logical_map.specs.Live.{blocks_in};
ghost use Rattle.drive_array.specs.Repair.{moves};
ghost use Rattle.drive_array.specs.Sizes.{encoded_size};
ghost use Rattle.zone_choice.specs.Tables.{size_of};
ghost use Rattle.drive_array.specs.ZoneLogs.{zone_tails};
ghost use Rattle.drive_survey.specs.declared.fault.MountFault.TheVariants as faults;
ghost use Rattle.drive_survey.specs.Known.{Knows};
ghost use Rattle.remount.specs.Mount.{CannotRepair, IsListed, PlansRepair};
ghost use Rattle.remount.specs.Torn.{IsNextTorn, data_count_at, data_in, is_torn_in, is_torn_zone};
ghost use Rattle.zone_states.specs.Geometry.{IsInRange};

use crate::repair::Repair;
use crate::tables::places::place_records;
use drive_survey::{MountFault, ScannedZone, Survey, greatest_sequence};
use logical_map::Place;
use std::alloc::{AllocError, Global};
use zone_choice::{Tables, batch_most};
use zone_states::Geometry;

/// The blocks whose newest record is in a zone, in ascending order.
#[derive(Drop)]
struct LiveBlocks {
    blocks: Vec<u32>,
    /// How many of these records have data.
    with_data: u32,
}

/// Whether a zone has a batch and a torn tail.
fn is_torn(zone: &ScannedZone) -> bool
    ensures { result ≡ is_torn_zone zone.now }
{
    zone.is_torn && zone.heads.blocks() != 0
}

/// The lowest zone from one on that has a batch and a torn tail.
fn find_torn(scanned: &[ScannedZone], from: u32) -> Option<u32>
    requires few { length scanned.now < 2 ^ 32 }
    ensures some { IfSome result (IsNextTorn scanned.now from) }
    ensures none { IfNone result ((zone : ℕ) → from ≤ zone → is_torn_in scanned.now zone ≡ false) }
{
    for zone in from..scanned.len() as u32 {
        if is_torn(&scanned[zone as usize]) {
            return Some(zone);
        }
    }
    None
}

/// How many data blocks the record there has: one, unless it is a trim.
fn data_blocks(place: Place) -> u32
    ensures { result ≡ data_count_at place }
{
    match place {
        Place::At(_) => 1,
        _ => 0,
    }
}

/// The blocks whose newest record is in a zone.
fn live_blocks(alloc: Global, tables: &mut Tables, zone: u32) -> Result<LiveBlocks, AllocError>
    requires few { size_of tables.old ≤ 2 ^ 31 }
    requires zone { zone < tables.old.map.zones }
    // Done, all blocks with a place in the zone are listed, and it is counted how many have data.
    ensures blocks { IfOk result (λ live. live.blocks.items
        ≡ blocks_in tables.old.map.zone_size zone 0 tables.old.map.places) }
    ensures data { IfOk result (λ live. live.with_data ≡ data_in tables.old.map.zone_size zone tables.old.map.places) }
    // Whatever it answers, the tables are unchanged.
    ensures kept { tables.new ≡ tables.old }
{
    let mut blocks = Vec::new(alloc);
    let mut with_data = 0;
    let mut from = 0;
    while let Some((block, place)) = tables.first_record(zone, from) {
        blocks.push(block)?;
        with_data += data_blocks(place);
        from = block + 1;
    }
    Ok(LiveBlocks { blocks, with_data })
}

/// How many Moves that many records take. It is at least one.
fn count_moves(most: u32, records: u64) -> u64
    requires { 1 ≤ most }
    ensures moves { result ≡ moves most records }
    ensures few { result ≤ records + 1 }
{
    records.div_ceil(most as u64).max(1)
}

/// Plans the repair of the torn zone of a cleared drive. Without a torn zone there is none.
/// `TornZone` means that two zones are torn, or that the live records do not fit in a zone. It
/// names the lowest torn zone. `Spent` means that too few sequences are left for the Moves.
pub fn plan_repair(
    alloc: Global,
    survey: &Survey,
    geometry: &Geometry,
) -> Result<Option<Repair>, MountFault>
    requires range { IsInRange geometry.now }
    requires long { length survey.now.scanned.items ≡ geometry.now.zones }
    // Done, this is the repair that the surveyed drive needs, if any, and it can be carried out.
    ensures ok { IfOk result (λ plan. (drive : DriveState) (logs : List (List Batch))
        → drive.geometry ≡ geometry.now → Knows drive survey.now.given logs survey.now
        → PlansRepair geometry.now survey.now.given logs (zone_tails (contents drive.zones)) plan) }
    // The blocks of a repair are those that its tables place in its zone, whatever the Reads returned.
    ensures listed { IfOk result (λ plan. IfSome plan (IsListed (length survey.now.scanned.items))) }
    // It fails only if memory runs out or the drive cannot be repaired. The fault says why.
    ensures err { IfErr result (λ fault. (fault ≡ faults.OutOfMemory)
        ⊎ ((drive : DriveState) (logs : List (List Batch)) → drive.geometry ≡ geometry.now
        → Knows drive survey.now.given logs survey.now
        → CannotRepair geometry.now (encoded_size survey.now.given logs) logs
        (zone_tails (contents drive.zones)) fault)) }
{
    let Some(zone) = find_torn(&survey.scanned, 0) else {
        return Ok(None);
    };
    if find_torn(&survey.scanned, zone + 1).is_some() {
        return Err(MountFault::TornZone(zone));
    }
    let mut tables = place_records(alloc, survey, geometry)?;
    let live = live_blocks(alloc, &mut tables, zone)?;
    let moves = count_moves(batch_most(geometry), live.blocks.len() as u64);
    if (geometry.capacity as u64) < moves + live.with_data as u64 {
        return Err(MountFault::TornZone(zone));
    }
    if greatest_sequence(&survey.scanned) >= (1 << 63) - moves {
        return Err(MountFault::Spent);
    }
    Ok(Some(Repair {
        zone,
        blocks: live.blocks,
        tables,
    }))
}
