ghost use Rattle.std.specs.Prelude.{◌≡◌, ◌+◌, ◌<◌, ◌≤◌, ◌^◌, ◌++◌, ◌∷◌, [], ℕ, List, OnOk, length};
ghost use Rattle.batch_log.specs.Log.{data_count, one_unless};
ghost use Rattle.drive_array.specs.Records.{Record, entry_offset, entry_records};
ghost use Rattle.drive_rescue.specs.Notes.{Notes, is_as_new, slot_at, slot_of};
ghost use Rattle.drive_rescue.specs.declared.table.Slot.{Slot};

use batch_log::HeaderView;
use std::alloc::AllocError;

/// The newest record of a block, as it is kept.
#[derive(Clone, Copy, Debug, PartialEq, Eq)]
pub(crate) struct Slot {
    pub(crate) sequence: u64,
    pub(crate) zone: u32,
    /// The block of the zone where its data is or, of a trim, its header.
    pub(crate) offset: u32,
    pub(crate) trim: bool,
}

/// How many blocks a disk has at most.
const MOST_BLOCKS: u64 = 1 << 31;

/// Where a batch is found.
#[derive(Clone, Copy, Debug, PartialEq, Eq)]
pub(crate) struct HeaderPlace {
    pub(crate) zone: u32,
    pub(crate) offset: u32,
}

/// The slot of a block, if it has one.
pub(crate) fn slot_at(table: &[Option<Slot>], block: usize) -> Option<Slot>
    ensures { result ≡ slot_at table.now block }
{
    if block < table.len() {
        return table[block];
    }
    None
}

/// Gives the table so many slots at least.
fn extend(table: &mut Vec<Option<Slot>>, count: usize) -> Result<(), AllocError>
    ensures slots { OnOk result ((block : ℕ) → slot_at table.new.items block ≡ slot_at table.old.items block) }
    ensures long { OnOk result (count ≤ length table.new.items) }
{
    if count > table.len() {
        table.resize(count, None)?;
    }
    Ok(())
}

/// Whether a slot has a record that is as new as this one.
fn is_as_new(taken: Option<Slot>, found: Slot) -> bool
    ensures { result ≡ is_as_new taken found }
{
    match taken {
        Some(taken) => found.sequence <= taken.sequence,
        None => false,
    }
}

/// Takes a record, unless one that is as new was taken. Blocks that no disk can have are left out.
fn note(table: &mut Vec<Option<Slot>>, block: u64, found: Slot) -> Result<(), AllocError>
    ensures { OnOk result ((rs : List Record) (r : Record) → r.block ≡ block → slot_of r ≡ found
        → Notes rs table.old.items → Notes (rs ++ r ∷ []) table.new.items) }
{
    if block >= MOST_BLOCKS {
        return Ok(());
    }
    let place = block as usize;
    extend(table, place + 1)?;
    if is_as_new(slot_at(table, place), found) {
        return Ok(());
    }
    table[place] = Some(found);
    Ok(())
}

/// Where the next data block of a batch is, if so many blocks belong to the entries before.
fn entry_place(place: HeaderPlace, trim: bool, before: u32) -> u32
    requires { place.offset + 1 + before < 2 ^ 32 }
    ensures { result ≡ entry_offset trim place.offset before }
{
    if trim {
        return place.offset;
    }
    place.offset + 1 + before
}

fn one_unless(trim: bool) -> u32
    ensures { result ≡ one_unless trim }
{
    if trim { 0 } else { 1 }
}

/// Takes the records of a batch.
pub(crate) fn note_batch(
    table: &mut Vec<Option<Slot>>,
    place: HeaderPlace,
    header: &HeaderView<'_>,
) -> Result<(), AllocError>
    requires { place.offset + 1 + data_count header.now.entries < 2 ^ 32 }
    ensures { OnOk result ((rs : List Record) (body : List (List ℕ)) → Notes rs table.old.items
        → Notes (rs ++ entry_records header.now.sequence body place.zone place.offset 0 header.now.entries)
        table.new.items) }
{
    let sequence = header.sequence();
    let mut before = 0;
    for i in 0..header.count() {
        let entry = header.entry(i);
        let found = Slot {
            sequence,
            zone: place.zone,
            offset: entry_place(place, entry.trim, before),
            trim: entry.trim,
        };
        note(table, entry.block, found)?;
        before += one_unless(entry.trim);
    }
    Ok(())
}
