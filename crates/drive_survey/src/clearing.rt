ghost use Rattle.std.specs.Prelude.{◌≡◌, ◌≢◌, ◌+◌, ◌*◌, ◌<◌, ◌≤◌, ◌^◌, ℕ, List, false, length};
ghost use Rattle.std.specs.Prelude.{IfErr, IfOk, IfSome, IsSome, IsTrue, OnOk};
ghost use Rattle.std.specs.BTreeSet.{IsSubset, contains};
ghost use Rattle.std.specs.List.{AllByRecursion};
ghost use Rattle.std.specs.Ordering.{nat_cmp};
ghost use Rattle.batch_log.specs.Log.{Batch};
ghost use Rattle.drive_port.specs.Drive.{DriveState};
ghost use Rattle.drive_array.specs.ZoneLogs.{drive_logs};
ghost use Rattle.drive_array.specs.Records.{without};
ghost use Rattle.drive_array.specs.Repairing.{IsMoved};
ghost use Rattle.drive_array.specs.Spare.{HasSpare, IsClearing, IsHalfClean, cleared};
ghost use Rattle.drive_survey.specs.declared.clearing.Finding.TheVariants.{HalfClean};
ghost use Rattle.drive_survey.specs.declared.fault.MountFault.TheVariants.{NoSpare};
ghost use Rattle.drive_survey.specs.declared.scan.ScannedZone.{ScannedZone};
ghost use Rattle.drive_survey.specs.BlockRecords.{HoldsEach, HoldsRecords, held_of, own_of};
ghost use Rattle.drive_survey.specs.Clearing.{AreFew, AreOf, FindsLowest, HasHeads, Tells, entries_at};
ghost use Rattle.drive_survey.specs.Clearing.{without_heads};
ghost use Rattle.drive_survey.specs.Known.{Finds, Knows};
ghost use Rattle.drive_survey.specs.Reads.{SearchesBy, entries_kept};
ghost use Rattle.drive_survey.specs.Reported.{KeepsZones};
ghost use Rattle.drive_survey.specs.Scan.{AreKnown, FailsBy, IsInterruption, heads_in, tails_in};
ghost use Rattle.drive_survey.specs.SizeCounts.{size_counts};
ghost use Rattle.drive_survey.specs.Waiting.{AllWait, AreCandidates, FindsLowestWaiting, FindsOf, HolderWaits};
ghost use Rattle.drive_survey.specs.Waiting.{TellsFinding};
ghost use Rattle.drive_survey.specs.Waiting.{HoldersWait, LastWaits, LeavesWaiting, LosesZone, OthersWait};

mod block_records;
mod moved;
mod newest;
mod shown;
mod sizes;

use crate::fault::MountFault;
use crate::records::KeptRecord;
use crate::scan::ScannedZone;
use crate::survey::Survey;
use block_records::BlockRecords;
use drive_port::Device;
use moved::{forget, has_moved, has_vacant, is_moved};
use shown::{Buffers, first_needed};
use sizes::{SizeCounts, lowest_sized};
use std::alloc::{AllocError, Global};
use std::collections::BTreeSet;

/// What a mount finds of a zone.
#[derive(Clone, Copy, Debug, PartialEq, Eq)]
pub enum Finding {
    /// All its batches are Moves from an older zone, and nothing is lost with them.
    HalfClean,
    /// It has a batch that is no Move from an older zone, or none.
    NotMoves,
    /// Without it this block would show something else.
    NeedsBlock(u32),
    /// Without it the size of the disk would be another.
    NeedsSize,
}

/// The zones that may be half clean, and what tells whether they are.
#[derive(Drop)]
pub struct Candidates {
    /// All records of the blocks that zones of Moves name.
    records: BlockRecords,
    sizes: SizeCounts,
    /// The zones that are still to be looked at.
    waiting: BTreeSet<u32>,
}

/// Whether a zone is half clean, by the records of the blocks that it names.
fn examine_by<D: Device>(
    device: &mut D,
    survey: &Survey,
    candidates: &Candidates,
    zone: u32,
    buffers: &mut Buffers,
) -> Result<Finding, MountFault>
    // The report is true of all zones, and the candidates fit the survey.
    requires zones { AreKnown (D.drive device.old) survey.now.zones.items }
    requires sizes { IsTrue (D.drive device.old).clean
        → candidates.now.sizes ≡ size_counts survey.now.size (heads_in survey.now.scanned.items) }
    requires few { AreFew survey.now.scanned.items candidates.now.records }
    // Done, the finding is right, if the table holds the records of all blocks that the zone names.
    ensures ok { IsTrue (D.drive device.new).clean
        → IfOk result (TellsFinding (D.drive device.old) survey.now.given survey.now
        candidates.now.records zone) }
    // A zone that is found half clean has a header.
    ensures some { IfOk result (λ finding. finding ≡ HalfClean → HasHeads survey.now.scanned.items zone) }
    // It fails only if the drive stops or memory runs out. Whatever it answers, zones hold what they held.
    ensures err { IfErr result (IsInterruption (D.drive device.new)) }
    ensures kept { KeepsZones (D.drive device.old) (D.drive device.new) }
    // It takes two commands at most for each entry of the zone.
    ensures completed { (D.drive device.new).completed
        ≤ (D.drive device.old).completed + 2 * length (entries_at survey.now.scanned.items zone) }
{
    if !is_moved(&survey.scanned, zone) {
        return Ok(Finding::NotMoves);
    }
    let needed = first_needed(device, &survey.zones, &candidates.records, zone, buffers)?;
    if let Some(block) = needed {
        return Ok(Finding::NeedsBlock(block));
    }
    if !candidates.sizes.keep_size(survey, zone) {
        return Ok(Finding::NeedsSize);
    }
    Ok(Finding::HalfClean)
}

/// Whether a zone is half clean, and why it is not. At most two Reads are sent for each entry of the zone.
pub fn examine_zone<D: Device>(
    alloc: Global,
    device: &mut D,
    survey: &Survey,
    zone: u32,
) -> Result<Finding, MountFault>
    requires zones { AreKnown (D.drive device.old) survey.now.zones.items }
    // Done, the finding is right for the batches whose headers the survey keeps.
    ensures ok { IsTrue (D.drive device.new).clean
        → IfOk result (FindsOf (D.drive device.old) survey.now.given survey.now zone) }
    // It fails only if the drive stops or memory runs out.
    ensures err { IfErr result (IsInterruption (D.drive device.new)) }
    // Whatever it answers, no command was refused, and the zones hold what they held.
    ensures kept { KeepsZones (D.drive device.old) (D.drive device.new) }
    // It takes two commands at most for each entry of the zone.
    ensures completed { (D.drive device.new).completed
        ≤ (D.drive device.old).completed + 2 * length (entries_at survey.now.scanned.items zone) }
{
    if !is_moved(&survey.scanned, zone) {
        return Ok(Finding::NotMoves);
    }
    let records = BlockRecords::of_zone(alloc, survey, zone)?;
    let candidates = Candidates {
        records,
        sizes: SizeCounts::new(survey),
        waiting: BTreeSet::new(alloc),
    };
    let mut buffers = Buffers::new(alloc);
    examine_by(device, survey, &candidates, zone, &mut buffers)
}

/// Adds a zone to a set, if it has only Moves from an older zone.
fn add_moved(
    zones: &mut BTreeSet<u32>,
    scanned: &[ScannedZone],
    zone: u32,
) -> Result<(), AllocError>
    ensures own { OnOk result (contains nat_cmp zones.old zone ≡ false → (logs : List (List Batch))
        → AreOf scanned.now logs → Tells (contains nat_cmp zones.new zone) (IsMoved logs zone)) }
    ensures others { OnOk result ((q : ℕ) → q ≢ zone → contains nat_cmp zones.new q ≡ contains nat_cmp zones.old q) }
{
    if !is_moved(scanned, zone) {
        return Ok(());
    }
    zones.insert(zone)?;
    Ok(())
}

/// All zones of Moves from an older zone.
fn moved_zones(alloc: Global, scanned: &[ScannedZone]) -> Result<BTreeSet<u32>, AllocError>
    requires few { length scanned.now < 2 ^ 32 }
    ensures { IfOk result (λ zones. (logs : List (List Batch)) → AreOf scanned.now logs → (zone : ℕ)
        → Tells (contains nat_cmp zones zone) (IsMoved logs zone)) }
{
    let mut zones = BTreeSet::new(alloc);
    for zone in 0..scanned.len() as u32 {
        add_moved(&mut zones, scanned, zone)?;
    }
    Ok(zones)
}

impl Candidates {
    /// All zones of Moves from an older zone wait.
    fn new(alloc: Global, survey: &Survey) -> Result<Candidates, AllocError>
        requires few { length survey.now.scanned.items < 2 ^ 32 }
        // Done, records and counts are right for the survey, and each half clean zone waits.
        ensures are { IfOk result (λ candidates. (drive : DriveState) (n : ℕ) (logs : List (List Batch))
            → Knows drive n logs survey.now → AreCandidates drive n logs survey.now candidates) }
        ensures wait { IfOk result (λ candidates. (drive : DriveState) (n : ℕ) (logs : List (List Batch))
            → Knows drive n logs survey.now → AllWait drive n logs candidates) }
        // At most one record is kept for each entry of a zone.
        ensures own { IfOk result (λ candidates. AreFew survey.now.scanned.items candidates.records) }
    {
        let records = BlockRecords::of_moved(alloc, survey)?;
        let waiting = moved_zones(alloc, &survey.scanned)?;
        Ok(Candidates {
            records,
            sizes: SizeCounts::new(survey),
            waiting,
        })
    }
}

/// Takes the lowest half clean zone from those that wait, with all below it.
fn next_half_clean<D: Device>(
    alloc: Global,
    device: &mut D,
    survey: &Survey,
    candidates: &mut Candidates,
) -> Result<Option<u32>, MountFault>
    // The report is true of all zones, and the candidates fit the survey.
    requires zones { AreKnown (D.drive device.old) survey.now.zones.items }
    requires sizes { IsTrue (D.drive device.old).clean
        → candidates.old.sizes ≡ size_counts survey.now.size (heads_in survey.now.scanned.items) }
    requires few { AreFew survey.now.scanned.items candidates.old.records }
    // Done, it is the lowest half clean zone or none, provided that each of them waited. The others wait still.
    ensures some { IfOk result (λ found. IfSome found (HasHeads survey.now.scanned.items)) }
    ensures ok { IsTrue (D.drive device.new).clean
        → IfOk result (FindsLowestWaiting (D.drive device.old) survey.now.given survey.now candidates.old) }
    ensures others { IsTrue (D.drive device.new).clean → IfOk result (λ found. IfSome found
        (LeavesWaiting (D.drive device.old) survey.now.given survey.now candidates.old candidates.new)) }
    // It fails only if the drive stops or memory runs out. Records and counts stay, and zones hold what they held.
    ensures err { IfErr result (IsInterruption (D.drive device.new)) }
    ensures tables { (candidates.new.records ≡ candidates.old.records)
        × (candidates.new.sizes ≡ candidates.old.sizes) }
    ensures kept { KeepsZones (D.drive device.old) (D.drive device.new) }
    // It takes two commands at most for each entry of the drive.
    ensures completed { (D.drive device.new).completed
        ≤ (D.drive device.old).completed + 2 * entries_kept survey.now.scanned.items }
{
    let mut buffers = Buffers::new(alloc);
    while let Some(zone) = candidates.waiting.pop_first() {
        let finding = examine_by(device, survey, candidates, zone, &mut buffers)?;
        if let Finding::HalfClean = finding {
            return Ok(Some(zone));
        }
    }
    Ok(None)
}

/// The zone that shows a block is to be looked at.
fn wake_one(
    records: &BlockRecords,
    waiting: &mut BTreeSet<u32>,
    block: u32,
) -> Result<(), AllocError>
    ensures more { OnOk result (IsSubset nat_cmp waiting.old waiting.new) }
    ensures holder { OnOk result ((logs : List (List Batch)) → HoldsRecords logs records.now
        → IsSome (held_of records.now block) → HolderWaits logs waiting.new block) }
{
    let Some(newest) = records.newest(block) else {
        return Ok(());
    };
    waiting.insert(newest.zone)?;
    Ok(())
}

/// The zones that show the blocks of these records are to be looked at.
fn wake(
    records: &BlockRecords,
    waiting: &mut BTreeSet<u32>,
    own: &[KeptRecord],
) -> Result<(), AllocError>
    ensures more { OnOk result (IsSubset nat_cmp waiting.old waiting.new) }
    ensures holders { OnOk result ((logs : List (List Batch)) → HoldsRecords logs records.now
        → HoldsEach records.now own.now → HoldersWait logs waiting.new own.now) }
{
    for found in own {
        wake_one(records, waiting, found.block)?;
    }
    Ok(())
}

/// Takes the records of a zone out of the table. The zones that show their blocks now are to be looked at.
fn forget_records(
    records: &mut BlockRecords,
    waiting: &mut BTreeSet<u32>,
    zone: u32,
) -> Result<(), AllocError>
    ensures loses { LosesZone records.old records.new zone }
    ensures more { OnOk result (IsSubset nat_cmp waiting.old waiting.new) }
    ensures holders { OnOk result ((logs : List (List Batch)) → HoldsRecords logs records.new
        → HoldsEach records.new (own_of records.old zone)
        → HoldersWait logs waiting.new (own_of records.old zone)) }
{
    let Some(own) = records.forget(zone) else {
        return Ok(());
    };
    wake(records, waiting, &own)
}

/// If one zone says a size, and there were more before, it is to be looked at.
fn wake_last(
    before: SizeCounts,
    left: SizeCounts,
    waiting: &mut BTreeSet<u32>,
    scanned: &[ScannedZone],
) -> Result<(), AllocError>
    requires few { length scanned.now < 2 ^ 32 }
    ensures more { OnOk result (IsSubset nat_cmp waiting.old waiting.new) }
    ensures last { OnOk result (left.any ≡ 1 → before.any ≢ 1 → LastWaits (heads_in scanned.now) waiting.new) }
{
    if left.any != 1 {
        return Ok(());
    }
    if before.any == 1 {
        return Ok(());
    }
    let Some(last) = lowest_sized(scanned) else {
        return Ok(());
    };
    waiting.insert(last)?;
    Ok(())
}

/// Forgets the headers of a half clean zone. Zones that show one of its blocks now, and the last one that says a size,
/// may have become half clean with that: they are to be looked at again.
fn give_up(
    alloc: Global,
    survey: &mut Survey,
    candidates: &mut Candidates,
    zone: u32,
) -> Result<(), AllocError>
    requires few { length survey.old.scanned.items < 2 ^ 32 }
    // Done, the candidates are right for the batches without the zone. Each zone that is half clean now waits.
    ensures few { OnOk result (AreFew survey.old.scanned.items candidates.old.records
        → AreFew survey.new.scanned.items candidates.new.records) }
    ensures are { OnOk result ((drive : DriveState) (n : ℕ) (logs : List (List Batch))
        → AreCandidates drive n logs survey.old candidates.old → IsHalfClean drive.geometry.block n logs zone
        → AreCandidates drive n (without logs zone) survey.new candidates.new) }
    ensures wait { OnOk result ((drive : DriveState) (n : ℕ) (logs : List (List Batch))
        → AreCandidates drive n logs survey.old candidates.old → IsHalfClean drive.geometry.block n logs zone
        → OthersWait drive n logs candidates.old zone → AllWait drive n (without logs zone) candidates.new) }
    // Done, the headers of the zone are forgotten. The rest of the survey is the same, whatever it answers.
    ensures heads { OnOk result (heads_in survey.new.scanned.items ≡ without_heads
        (heads_in survey.old.scanned.items) zone) }
    ensures tails { tails_in survey.new.scanned.items ≡ tails_in survey.old.scanned.items }
    ensures others { survey.new ≡ record survey.old { scanned = survey.new.scanned } }
{
    let before = candidates.sizes;
    let left = before.without(survey, zone);
    candidates.sizes = left;
    forget_records(&mut candidates.records, &mut candidates.waiting, zone)?;
    forget(alloc, &mut survey.scanned, zone);
    wake_last(before, left, &mut candidates.waiting, &survey.scanned)
}

/// Finds the half clean zones, each the lowest of its moment, and forgets their headers.
fn clear_moved<D: Device>(
    alloc: Global,
    device: &mut D,
    survey: &mut Survey,
) -> Result<Vec<u32>, MountFault>
    requires known { IsTrue (D.drive device.old).clean → Knows (D.drive device.old) survey.old.given
        (drive_logs (D.drive device.old)) survey.old }
    // Whatever the Reads returned, the report is true of all zones, and these were looked at.
    requires zones { AreKnown (D.drive device.old) survey.old.zones.items }
    requires scanned { length survey.old.scanned.items ≡ length survey.old.zones.items }
    // Whatever the Reads returned, these are zones, and the survey has as many as before.
    ensures inside { IfOk result (λ resets.
        AllByRecursion (λ zone. zone < length survey.old.zones.items) resets.items) }
    ensures scanned { OnOk result (length survey.new.scanned.items ≡ length survey.old.scanned.items) }
    // Done, no zone is half clean once these are emptied, and the survey knows the drive without their batches.
    ensures clearing { IsTrue (D.drive device.new).clean
        → IfOk result (λ resets. IsClearing (D.drive device.old).geometry.block survey.old.given
        (drive_logs (D.drive device.old)) resets.items) }
    ensures known { IsTrue (D.drive device.new).clean
        → IfOk result (λ resets. Knows (D.drive device.new) survey.old.given
        (cleared (drive_logs (D.drive device.old)) resets.items) survey.new) }
    // It fails only if the drive stops or memory runs out. The report is the same, and zones hold what they held.
    ensures err { IfErr result (IsInterruption (D.drive device.new)) }
    ensures zones { survey.new.zones ≡ survey.old.zones }
    ensures kept { KeepsZones (D.drive device.old) (D.drive device.new) }
    // It searches once for each zone that it finds, and once more, by two commands at most for each entry.
    ensures completed { IfOk result (λ resets. (D.drive device.new).completed
        ≤ (D.drive device.old).completed + 2 * ((length resets.items + 1) * entries_kept survey.old.scanned.items)) }
{
    let mut resets = Vec::new(alloc);
    if !has_moved(&survey.scanned) {
        return Ok(resets);
    }
    let mut candidates = Candidates::new(alloc, survey)?;
    while let Some(zone) = next_half_clean(alloc, device, survey, &mut candidates)? {
        if resets.push(zone).is_err() {
            return Err(MountFault::OutOfMemory);
        }
        give_up(alloc, survey, &mut candidates, zone)?;
    }
    Ok(resets)
}

/// Finds the zones that a mount has to empty before it repairs the drive: the lowest half clean one, again and
/// again. The headers of these zones are forgotten; the drive is not changed yet. Of each zone that is looked at, two
/// blocks at most are read for each entry. All zones are looked at once for each that is found, and once more.
pub fn clear_zones<D: Device>(
    alloc: Global,
    device: &mut D,
    survey: &mut Survey,
) -> Result<Vec<u32>, MountFault>
    requires known { IsTrue (D.drive device.old).clean → Knows (D.drive device.old) survey.old.given
        (drive_logs (D.drive device.old)) survey.old }
    // Whatever the Reads returned, the report is true of all zones, and these were looked at.
    requires zones { AreKnown (D.drive device.old) survey.old.zones.items }
    requires scanned { length survey.old.scanned.items ≡ length survey.old.zones.items }
    // Whatever the Reads returned, these are zones, and the survey has as many as before.
    ensures inside { IfOk result (λ resets.
        AllByRecursion (λ zone. zone < length survey.old.zones.items) resets.items) }
    ensures scanned { OnOk result (length survey.new.scanned.items ≡ length survey.old.scanned.items) }
    // Done, no zone is half clean once these are emptied, and the survey knows the drive without their batches.
    ensures clearing { IsTrue (D.drive device.new).clean
        → IfOk result (λ resets. IsClearing (D.drive device.old).geometry.block survey.old.given
        (drive_logs (D.drive device.old)) resets.items) }
    ensures known { IsTrue (D.drive device.new).clean
        → IfOk result (λ resets. Knows (D.drive device.new) survey.old.given
        (cleared (drive_logs (D.drive device.old)) resets.items) survey.new) }
    // It fails if no zone is vacant or half clean. Else it fails only if the drive stops or memory runs out.
    ensures spare { IsTrue (D.drive device.new).clean
        → OnOk result (HasSpare (D.drive device.old).geometry.block survey.old.given
        (drive_logs (D.drive device.old))) }
    ensures err { IsTrue (D.drive device.new).clean → IfErr result (FailsBy (λ fault. (fault ≡ NoSpare)
        × (HasSpare (D.drive device.old).geometry.block survey.old.given (drive_logs (D.drive device.old)) → ⊥))
        (D.drive device.new)) }
    // Whatever it answers, the report is the same, no command was refused, and the zones hold what they held.
    ensures zones { survey.new.zones ≡ survey.old.zones }
    ensures kept { KeepsZones (D.drive device.old) (D.drive device.new) }
    // Unless it was interrupted, each of its searches took two commands at most for each entry.
    ensures completed { SearchesBy survey.old.scanned.items result (D.drive device.old) (D.drive device.new) }
{
    let resets = clear_moved(alloc, device, survey)?;
    if !resets.is_empty() {
        return Ok(resets);
    }
    if has_vacant(&survey.scanned) {
        return Ok(resets);
    }
    Err(MountFault::NoSpare)
}
