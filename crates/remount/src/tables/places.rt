ghost use Rattle.std.specs.Prelude.{◌≡◌, ◌<◌, ◌+◌, ◌≤◌, ◌^◌, ◌++◌, [], ◌∷◌, List, IfOk, OnOk};
ghost use Rattle.std.specs.List.Sorted.{IsNonDecreasingBy};
ghost use Rattle.batch_log.specs.Log.{Batch};
ghost use Rattle.drive_port.specs.Drive.{DriveState};
ghost use Rattle.logical_map.specs.Places.{place_address};
ghost use Rattle.zone_choice.specs.Tables.{size_of};
ghost use Rattle.drive_survey.specs.declared.records.KeptRecord.{KeptRecord};
ghost use Rattle.drive_survey.specs.KeptRecords.{kept_entries};
ghost use Rattle.drive_survey.specs.Known.{Knows};
ghost use Rattle.drive_survey.specs.Scan.{heads_in};
ghost use Rattle.remount.specs.Mount.{IsPlaced};
ghost use Rattle.remount.specs.Placing.{NoneIsOlder, PlacesNewest, SameButPlaces, kept_place, all_listed};
ghost use Rattle.remount.specs.declared.tables.batches.ListedBatch.{ListedBatch};

use crate::tables::batches::{ListedBatch, entries_of, oldest_first};
use drive_survey::{KeptRecord, ScannedZone, Survey, entry_record, is_trim};
use logical_map::Place;
use std::alloc::{AllocError, Global};
use zone_choice::Tables;
use zone_states::Geometry;

/// The greatest number of logical blocks.
const MOST_BLOCKS: u32 = 1 << 31;

/// The greatest address that a place can have.
const LAST_ADDRESS: u64 = (1 << 63) - 2;

/// The place of a record: where its data is or, for a trim, its header.
fn place_of(found: KeptRecord, zone_size: u32) -> Place
    ensures place { result ≡ kept_place zone_size found }
    ensures fits { place_address result + 1 < 2 ^ 63 }
{
    let start = found.zone as u64 * zone_size as u64;
    let address = start.saturating_add(found.offset).min(LAST_ADDRESS);
    if found.trim {
        return Place::Trimmed(address);
    }
    Place::At(address)
}

/// Gives the block of a record its place, unless it has one already. Records have to come newest
/// first: so the first one of a block is its newest.
fn place_record(tables: &mut Tables, zone_size: u32, found: KeptRecord) -> Result<(), AllocError>
    requires few { size_of tables.old ≤ 2 ^ 31 }
    ensures places { OnOk result ((all : List KeptRecord) → PlacesNewest zone_size all tables.old.map.places
        → NoneIsOlder all found.sequence → PlacesNewest zone_size (all ++ found ∷ []) tables.new.map.places) }
    ensures kept { SameButPlaces tables.old tables.new }
{
    let block = found.block;
    if block >= tables.blocks() {
        return Ok(());
    }
    let Place::None = tables.place_of(block) else {
        return Ok(());
    };
    tables.reserve(found.zone, block, 1)?;
    tables.place(block, place_of(found, zone_size));
    Ok(())
}

/// Does so for all records of a batch. Batches have to come newest first.
fn place_batch(
    tables: &mut Tables,
    zone_size: u32,
    batch: &ListedBatch,
    entries: &[u32],
) -> Result<(), AllocError>
    requires few { size_of tables.old ≤ 2 ^ 31 }
    ensures places { OnOk result ((all : List KeptRecord) → PlacesNewest zone_size all tables.old.map.places
        → NoneIsOlder all batch.now.head.sequence
        → PlacesNewest zone_size (all ++ kept_entries batch.now.head.sequence batch.now.zone
        batch.now.head.offset 0 entries.now) tables.new.map.places) }
    ensures kept { SameButPlaces tables.old tables.new }
{
    let mut before = 0;
    for entry in entries {
        let found = entry_record(batch.zone, &batch.head, before, *entry);
        place_record(tables, zone_size, found)?;
        if !is_trim(*entry) {
            before += 1;
        }
    }
    Ok(())
}

/// Does so for all records of these batches, from the newest batch on. The list has the oldest
/// first.
fn place_batches(
    tables: &mut Tables,
    scanned: &[ScannedZone],
    zone_size: u32,
    batches: Vec<ListedBatch>,
) -> Result<(), AllocError>
    requires few { size_of tables.old ≤ 2 ^ 31 }
    requires sorted { IsNonDecreasingBy (λ (batch : ListedBatch). batch.head.sequence) batches.items }
    // Done, each block has the place of the newest of these records, if no block had a place.
    ensures places { OnOk result (PlacesNewest zone_size [] tables.old.map.places
        → PlacesNewest zone_size (all_listed (heads_in scanned.now) batches.items) tables.new.map.places) }
    // Whatever it answers, the tables have the same sizes and given number, and note as much as unreadable.
    ensures kept { SameButPlaces tables.old tables.new }
{
    let mut batches = batches;
    while let Some(batch) = batches.pop() {
        let entries = entries_of(scanned, &batch);
        place_batch(tables, zone_size, &batch, entries)?;
    }
    Ok(())
}

/// Reserves memory for the list of blocks of each zone.
fn reserve_zones(tables: &mut Tables, scanned: &[ScannedZone], zones: u32) -> Result<(), AllocError>
    ensures { tables.new ≡ tables.old }
{
    for zone in 0..zones {
        let Some(found) = scanned.get(zone as usize) else {
            return Ok(());
        };
        let most = found.heads.entries().len().min(tables.blocks() as usize);
        tables.reserve_moves(zone, most as u32)?;
    }
    Ok(())
}

/// Makes tables that say where the newest record of each block is, from the headers that were
/// read. Zones have no roles yet.
pub fn place_records(
    alloc: Global,
    survey: &Survey,
    geometry: &Geometry,
) -> Result<Tables, AllocError>
    // Done, the places are right for the surveyed drive.
    ensures placed { IfOk result (λ tables. (drive : DriveState) (logs : List (List Batch))
        → drive.geometry ≡ geometry.now → Knows drive survey.now.given logs survey.now
        → IsPlaced geometry.now survey.now.given logs tables) }
    // The number of zones is from the geometry, and the given number from the survey. There are few blocks, and none is
    // noted as unreadable.
    ensures few { IfOk result (λ tables. size_of tables ≤ 2 ^ 31) }
    ensures zones { IfOk result (λ tables. tables.map.zones ≡ geometry.now.zones) }
    ensures given { IfOk result (λ tables. tables.given ≡ survey.now.given) }
    ensures readable { IfOk result (λ tables. tables.unreadable ≡ []) }
{
    let size = survey.size.min(MOST_BLOCKS);
    let mut tables = Tables::new(alloc, geometry.zones, geometry.size, size, survey.given)?;
    reserve_zones(&mut tables, &survey.scanned, geometry.zones)?;
    let batches = oldest_first(alloc, &survey.scanned, geometry.zones)?;
    place_batches(&mut tables, &survey.scanned, geometry.size, batches)?;
    Ok(tables)
}
