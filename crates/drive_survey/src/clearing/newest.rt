ghost use Rattle.std.specs.Prelude.{◌≡◌, ◌<◌, ◌≤◌, ◌++◌, ◌∷◌, [], List, Some, length, slice_get, slice_set, IfOk, OnOk};
ghost use Rattle.drive_survey.specs.KeptRecords.{kept_entries, kept_of_zone};
ghost use Rattle.drive_survey.specs.NewestRecords.{AreNewest, KeepsNewest};
ghost use Rattle.drive_survey.specs.declared.records.KeptRecord.{KeptRecord};

use crate::heads::{Head, ZoneHeads};
use crate::records::{KeptRecord, entry_record, is_trim};
use std::alloc::{AllocError, Global};
use std::collections::BTreeMap;

/// The newest records of some blocks, in the order in which the blocks were named first.
#[derive(Drop)]
pub struct Newest {
    records: Vec<KeptRecord>,
    /// Where the record of each block is among them.
    places: BTreeMap<u32, usize>,
}

/// Puts a record in the place of an older one.
fn replace_older(records: &mut Vec<KeptRecord>, place: usize, found: KeptRecord)
    ensures later { (taken : KeptRecord) → slice_get records.old.items place ≡ Some taken
        → taken.sequence < found.sequence → records.new.items ≡ slice_set records.old.items place found }
    ensures earlier { (taken : KeptRecord) → slice_get records.old.items place ≡ Some taken
        → found.sequence ≤ taken.sequence → records.new.items ≡ records.old.items }
{
    if place >= records.len() {
        return;
    }
    if records[place].sequence < found.sequence {
        records[place] = found;
    }
}

/// Takes a record, unless a newer one of its block was taken.
fn take(newest: &mut Newest, found: KeptRecord) -> Result<(), AllocError>
    ensures { OnOk result ((all : List KeptRecord) → KeepsNewest all newest.old
        → KeepsNewest (all ++ found ∷ []) newest.new) }
{
    let Some(place) = newest.places.get(&found.block) else {
        newest.places.insert(found.block, newest.records.len())?;
        newest.records.push(found)?;
        return Ok(());
    };
    replace_older(&mut newest.records, *place, found);
    Ok(())
}

/// Takes the records of a batch.
fn take_batch(
    newest: &mut Newest,
    zone: u32,
    head: &Head,
    entries: &[u32],
) -> Result<(), AllocError>
    ensures { OnOk result ((all : List KeptRecord) → KeepsNewest all newest.old
        → KeepsNewest (all ++ kept_entries head.now.sequence zone head.now.offset 0 entries.now) newest.new) }
{
    let mut before = 0;
    for entry in entries {
        take(newest, entry_record(zone, head, before, *entry))?;
        if !is_trim(*entry) {
            before += 1;
        }
    }
    Ok(())
}

/// Takes the records of a zone's batches.
fn take_zone(newest: &mut Newest, zone: u32, heads: &ZoneHeads) -> Result<(), AllocError>
    ensures { OnOk result ((all : List KeptRecord) → KeepsNewest all newest.old
        → KeepsNewest (all ++ kept_of_zone zone heads.now) newest.new) }
{
    let mut from = 0;
    let mut rest = heads.entries();
    for head in heads.heads() {
        let count = head.end.saturating_sub(from) as usize;
        let (own, others) = rest.split_at(count.min(rest.len()));
        take_batch(newest, zone, head, own)?;
        from = head.end;
        rest = others;
    }
    Ok(())
}

/// Of the records of a zone's batches the newest one of each block that they name, in the order in which they name the
/// blocks first.
pub(crate) fn newest_records(
    alloc: Global,
    zone: u32,
    heads: &ZoneHeads,
) -> Result<Vec<KeptRecord>, AllocError>
    ensures newest { IfOk result (λ own. AreNewest (kept_of_zone zone heads.now) own.items) }
    ensures few { IfOk result (λ own. length own.items ≤ length heads.now.entries) }
{
    let mut newest = Newest {
        records: Vec::new(alloc),
        places: BTreeMap::new(alloc),
    };
    take_zone(&mut newest, zone, heads)?;
    Ok(newest.records)
}
