ghost use Rattle.std.specs.Prelude.{◌≡◌, ◌≢◌, ◌≤◌, ◌<◌, ◌^◌, ℕ, [], ◌∷◌, List, length, IfOk, IsSome, None, OnOk, Some};
ghost use Rattle.std.specs.BTreeMap.{IsOrdered, get};
ghost use Rattle.std.specs.Option.{option_map};
ghost use Rattle.std.specs.Ordering.{nat_cmp};
ghost use Rattle.batch_log.specs.Log.{Batch};
ghost use Rattle.drive_port.specs.Drive.{DriveState};
ghost use Rattle.drive_array.specs.Records.{newest, records, without};
ghost use Rattle.drive_survey.specs.BlockRecords.{HasNoRecord, HoldsEach, HoldsMore, HoldsRecords, IsLastOutside};
ghost use Rattle.drive_survey.specs.BlockRecords.{NotesNewest, NotesZone};
ghost use Rattle.drive_survey.specs.BlockRecords.{forgets, held_of, own_list, notes, own_of, slot_after, slot_in};
ghost use Rattle.drive_survey.specs.Clearing.{AreFew, AreOf, AreOwn, CoversHeads, CoversMoved, CoversZone, IsOwn};
ghost use Rattle.drive_survey.specs.KeptRecords.{kept_record};
ghost use Rattle.drive_survey.specs.Known.{Knows};
ghost use Rattle.drive_survey.specs.Scan.{heads_in};
ghost use Rattle.drive_survey.specs.Waiting.{LosesZone};

use crate::clearing::moved::is_moved;
use crate::clearing::newest::newest_records;
use crate::heads::ZoneHeads;
use crate::records::KeptRecord;
use crate::scan::ScannedZone;
use crate::survey::Survey;
use std::alloc::{AllocError, Global};
use std::collections::BTreeMap;

/// The records of some blocks: of each zone the newest one of each block, by the sequences.
#[derive(Drop)]
pub struct BlockRecords {
    blocks: BTreeMap<u32, BTreeMap<u64, KeptRecord>>,
    /// Those of each zone that may be looked at, by the numbers of the zones.
    pub(crate) own: BTreeMap<u32, Vec<KeptRecord>>,
}

/// Puts the blocks of these records into a table that has no record yet.
fn hold_blocks(
    alloc: Global,
    table: &mut BlockRecords,
    own: &[KeptRecord],
) -> Result<(), AllocError>
    requires none { HasNoRecord table.old }
    // Done, the table has these blocks, too, and still no record. What it keeps of the zones is the same.
    ensures none { OnOk result (HasNoRecord table.new) }
    ensures more { OnOk result (HoldsMore table.old table.new) }
    ensures holds { OnOk result (HoldsEach table.new own.now) }
    ensures own { OnOk result (table.new.own ≡ table.old.own) }
{
    for found in own {
        let none = BTreeMap::new(alloc);
        table.blocks.insert(found.block, none)?;
    }
    Ok(())
}

/// Puts the blocks of a zone's newest records into such a table, and keeps these records.
fn hold_zone(
    alloc: Global,
    table: &mut BlockRecords,
    zone: u32,
    heads: &ZoneHeads,
) -> Result<(), AllocError>
    requires none { HasNoRecord table.old }
    // Done, the table has no block less, and still no record.
    ensures none { OnOk result (HasNoRecord table.new) }
    ensures more { OnOk result (HoldsMore table.old table.new) }
    // It keeps the newest records of this zone, at most one for each entry. Of other zones it keeps the same.
    ensures covers { OnOk result (CoversHeads table.new zone heads.now) }
    ensures few { OnOk result (length (own_of table.new zone) ≤ length heads.now.entries) }
    ensures others { OnOk result ((q : ℕ) → q ≢ zone → get nat_cmp table.new.own q ≡ get nat_cmp table.old.own q) }
{
    let own = newest_records(alloc, zone, heads)?;
    hold_blocks(alloc, table, &own)?;
    table.own.insert(zone, own)?;
    Ok(())
}

/// Puts the blocks of all zones of Moves from an older zone into such a table.
fn hold_moved(
    alloc: Global,
    table: &mut BlockRecords,
    scanned: &[ScannedZone],
) -> Result<(), AllocError>
    // The table has no record yet. Of some zones it keeps the newest records, one for each entry at most.
    requires none { HasNoRecord table.old }
    requires few { AreFew scanned.now table.old }
    requires own { AreOwn scanned.now table.old }
    // Done, that is still so, and the zones of Moves from an older zone are among these zones.
    ensures none { OnOk result (HasNoRecord table.new) }
    ensures few { OnOk result (AreFew scanned.now table.new) }
    ensures own { OnOk result (AreOwn scanned.now table.new) }
    ensures covers { OnOk result (length scanned.now < 2 ^ 32 → (logs : List (List Batch))
        → AreOf scanned.now logs → CoversMoved logs scanned.now table.new) }
{
    for (number, found) in scanned.iter().enumerate() {
        let Ok(zone) = u32::try_from(number) else {
            return Ok(());
        };
        if !is_moved(scanned, zone) {
            continue;
        }
        hold_zone(alloc, table, zone, &found.heads)?;
    }
    Ok(())
}

/// Takes a record, if its block is among these.
fn note(
    blocks: &mut BTreeMap<u32, BTreeMap<u64, KeptRecord>>,
    found: KeptRecord,
) -> Result<(), AllocError>
    ensures { OnOk result ((block sequence : ℕ)
        → slot_in blocks.new block sequence ≡ slot_after notes block sequence (slot_in blocks.old block sequence)
        (found ∷ [])) }
{
    let Some(held) = blocks.get_mut(&found.block) else {
        return Ok(());
    };
    held.insert(found.sequence, found)?;
    Ok(())
}

/// Takes these records.
fn note_each(
    blocks: &mut BTreeMap<u32, BTreeMap<u64, KeptRecord>>,
    own: &[KeptRecord],
) -> Result<(), AllocError>
    ensures { OnOk result ((block sequence : ℕ)
        → slot_in blocks.new block sequence ≡ slot_after notes block sequence (slot_in blocks.old block sequence)
        own.now) }
{
    for found in own {
        note(blocks, *found)?;
    }
    Ok(())
}

/// Takes the newest records of a zone: those that are kept of it or, if none are, those that its headers tell.
fn note_zone(
    alloc: Global,
    table: &mut BlockRecords,
    zone: u32,
    heads: &ZoneHeads,
) -> Result<(), AllocError>
    requires kept { IsOwn table.old zone heads.now }
    ensures noted { OnOk result (NotesZone zone heads.now table.old table.new) }
    ensures own { OnOk result (table.new.own ≡ table.old.own) }
{
    if let Some(own) = table.own.get(&zone) {
        note_each(&mut table.blocks, own)?;
        return Ok(());
    }
    let own = newest_records(alloc, zone, heads)?;
    note_each(&mut table.blocks, &own)?;
    Ok(())
}

/// Takes of each zone the newest record of each block.
fn note_all(
    alloc: Global,
    table: &mut BlockRecords,
    scanned: &[ScannedZone],
) -> Result<(), AllocError>
    requires kept { AreOwn scanned.now table.old }
    // Done, the table has no block less, and keeps the same of the zones. Only these records were put in.
    ensures more { OnOk result (HoldsMore table.old table.new) }
    ensures own { OnOk result (table.new.own ≡ table.old.own) }
    ensures noted { OnOk result (length scanned.now < 2 ^ 32 → NotesNewest (heads_in scanned.now) table.old table.new) }
{
    for (number, found) in scanned.iter().enumerate() {
        let Ok(zone) = u32::try_from(number) else {
            return Ok(());
        };
        note_zone(alloc, table, zone, &found.heads)?;
    }
    Ok(())
}

/// Takes a record out, if its block is among these.
fn forget_record(blocks: &mut BTreeMap<u32, BTreeMap<u64, KeptRecord>>, found: KeptRecord)
    ensures { (block sequence : ℕ) → slot_in blocks.new block sequence ≡ slot_after forgets block sequence
        (slot_in blocks.old block sequence) (found ∷ []) }
{
    if let Some(held) = blocks.get_mut(&found.block) {
        held.remove(&found.sequence);
    }
}

/// Takes these records out.
fn forget_each(blocks: &mut BTreeMap<u32, BTreeMap<u64, KeptRecord>>, own: &[KeptRecord])
    ensures { (block sequence : ℕ) → slot_in blocks.new block sequence ≡ slot_after forgets block sequence
        (slot_in blocks.old block sequence) own.now }
{
    for found in own {
        forget_record(blocks, *found);
    }
}

/// The last record that is outside a zone, of those of a block.
fn last_outside(held: &BTreeMap<u64, KeptRecord>, zone: u32) -> Option<KeptRecord>
    ensures ordered { IsOrdered nat_cmp held.now }
    ensures last { IsLastOutside held.now zone result }
{
    let mut entries = held.iter();
    while let Some((_, found)) = entries.next_back() {
        if found.zone != zone {
            return Some(*found);
        }
    }
    None
}

impl BlockRecords {
    /// A table of no block.
    fn new(alloc: Global) -> BlockRecords
        ensures none { HasNoRecord result }
        ensures held { (block : ℕ) → held_of result block ≡ None }
        ensures own { (zone : ℕ) → get nat_cmp result.own zone ≡ None }
    {
        BlockRecords {
            blocks: BTreeMap::new(alloc),
            own: BTreeMap::new(alloc),
        }
    }

    /// The records of the blocks that zones of Moves from an older zone name. Those of these zones are kept.
    pub(crate) fn of_moved(alloc: Global, survey: &Survey) -> Result<BlockRecords, AllocError>
        ensures few { IfOk result (AreFew survey.now.scanned.items) }
        ensures covers { IfOk result (λ table. (drive : DriveState) (n : ℕ) (logs : List (List Batch))
            → Knows drive n logs survey.now → CoversMoved logs survey.now.scanned.items table) }
        ensures holds { IfOk result (λ table. (drive : DriveState) (n : ℕ) (logs : List (List Batch))
            → Knows drive n logs survey.now → HoldsRecords logs table) }
    {
        let mut table = BlockRecords::new(alloc);
        hold_moved(alloc, &mut table, &survey.scanned)?;
        note_all(alloc, &mut table, &survey.scanned)?;
        Ok(table)
    }

    /// The records of the blocks that a zone names. Those of the zone are kept.
    pub(crate) fn of_zone(
        alloc: Global,
        survey: &Survey,
        zone: u32,
    ) -> Result<BlockRecords, AllocError>
        ensures few { IfOk result (AreFew survey.now.scanned.items) }
        ensures covers { IfOk result (λ table. CoversZone survey.now.scanned.items table zone) }
        ensures holds { IfOk result (λ table. (drive : DriveState) (n : ℕ) (logs : List (List Batch))
            → Knows drive n logs survey.now → HoldsRecords logs table) }
    {
        let mut table = BlockRecords::new(alloc);
        let Some(found) = survey.scanned.get(zone as usize) else {
            return Ok(table);
        };
        hold_zone(alloc, &mut table, zone, &found.heads)?;
        note_all(alloc, &mut table, &survey.scanned)?;
        Ok(table)
    }

    /// The newest record of a block, of those that the table holds.
    pub(crate) fn newest(&self, block: u32) -> Option<KeptRecord>
        ensures { (logs : List (List Batch)) → HoldsRecords logs self.now → IsSome (held_of self.now block)
            → result ≡ option_map kept_record (newest block (records 0 logs)) }
    {
        let held = self.blocks.get(&block)?;
        let (_, found) = held.last_key_value()?;
        Some(*found)
    }

    /// The newest record of a block outside a zone.
    pub(crate) fn newest_outside(&self, block: u32, zone: u32) -> Option<KeptRecord>
        ensures { (logs : List (List Batch)) → HoldsRecords logs self.now → IsSome (held_of self.now block)
            → result ≡ option_map kept_record (newest block (records 0 (without logs zone))) }
    {
        let held = self.blocks.get(&block)?;
        last_outside(held, zone)
    }

    /// Takes the newest records of a zone out of the table, and gives them, if they are kept.
    pub(crate) fn forget(&mut self, zone: u32) -> Option<Vec<KeptRecord>>
        ensures own { own_list result ≡ own_of self.old zone }
        ensures loses { LosesZone self.old self.new zone }
    {
        let own = self.own.remove(&zone)?;
        forget_each(&mut self.blocks, &own);
        Some(own)
    }
}
