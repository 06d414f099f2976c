ghost use Rattle.std.specs.Prelude.{◌≡◌, ◌-◌, ◌≤◌, ◌++◌, List, length, IfOk, IsPermutation, OnOk};
ghost use Rattle.std.specs.List.Sorted.{IsNonDecreasingBy};
ghost use Rattle.drive_survey.specs.Heads.{HeadsView};
ghost use Rattle.drive_survey.specs.KeptRecords.{kept_of_zone, kept_records};
ghost use Rattle.drive_survey.specs.Scan.{heads_in};
ghost use Rattle.remount.specs.Placing.{AreEndsInOrder, ListsAll, entries_listed, heads_at, all_listed};
ghost use Rattle.remount.specs.declared.tables.batches.ListedBatch.{ListedBatch};

use drive_survey::{Head, ScannedZone, ZoneHeads};
use std::alloc::{AllocError, Global};

/// A batch of a zone, and where its entries are among those of the zone.
#[derive(Clone, Copy, Debug, PartialEq, Eq)]
pub struct ListedBatch {
    pub head: Head,
    pub zone: u32,
    /// How many entries of the zone come before its own.
    pub before: u32,
}

/// Adds the batches of a zone.
fn list_zone(batches: &mut Vec<ListedBatch>, zone: u32, heads: &ZoneHeads) -> Result<(), AllocError>
    ensures { OnOk result ((views : List HeadsView) → heads_at views zone ≡ heads.now
        → AreEndsInOrder 0 heads.now.heads
        → all_listed views batches.new.items ≡ all_listed views batches.old.items ++ kept_of_zone zone heads.now) }
{
    let mut before = 0;
    for head in heads.heads() {
        batches.push(ListedBatch {
            head: *head,
            zone,
            before,
        })?;
        before = head.end;
    }
    Ok(())
}

/// The batches of all zones.
fn list_all(
    alloc: Global,
    scanned: &[ScannedZone],
    zones: u32,
) -> Result<Vec<ListedBatch>, AllocError>
    ensures { IfOk result (λ batches. length scanned.now ≤ zones → ListsAll (heads_in scanned.now) batches.items) }
{
    let mut batches = Vec::new(alloc);
    for zone in 0..zones {
        let Some(found) = scanned.get(zone as usize) else {
            return Ok(batches);
        };
        list_zone(&mut batches, zone, &found.heads)?;
    }
    Ok(batches)
}

/// The batches of all zones, by their sequences, the oldest first.
pub(crate) fn oldest_first(
    alloc: Global,
    scanned: &[ScannedZone],
    zones: u32,
) -> Result<Vec<ListedBatch>, AllocError>
    ensures sorted { IfOk result (λ batches. IsNonDecreasingBy (λ (batch : ListedBatch). batch.head.sequence)
        batches.items) }
    ensures all { IfOk result (λ batches. length scanned.now ≤ zones → (listed : List ListedBatch)
        × IsPermutation listed batches.items × ListsAll (heads_in scanned.now) listed) }
{
    let mut batches = list_all(alloc, scanned, zones)?;
    batches.sort_unstable_by_key(|batch| batch.head.sequence);
    Ok(batches)
}

/// The entries of a batch.
pub(crate) fn entries_of<'a>(scanned: &'a [ScannedZone], batch: &ListedBatch) -> &'a [u32]
    ensures { result.now ≡ entries_listed (heads_in scanned.now) batch.now }
{
    let Some(found) = scanned.get(batch.zone as usize) else {
        return &[];
    };
    let entries = found.heads.entries();
    let (_, rest) = entries.split_at((batch.before as usize).min(entries.len()));
    let count = batch.head.end.saturating_sub(batch.before) as usize;
    let (own, _) = rest.split_at(count.min(rest.len()));
    own
}
