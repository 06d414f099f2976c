ghost use Rattle.std.specs.Prelude.{◌≡◌, ◌<◌, ◌^◌, ℕ, List, IsTrue, length, map};
ghost use Rattle.batch_log.specs.Log.{Batch};
ghost use Rattle.drive_survey.specs.Known.{HasVacant};
ghost use Rattle.drive_survey.specs.Clearing.{AreOf, HasHeads, Tells, first_head_sequence, without_heads};
ghost use Rattle.drive_survey.specs.Heads.{heads_of};
ghost use Rattle.drive_array.specs.Repairing.{IsMoved};
ghost use Rattle.drive_survey.specs.Scan.{heads_in, tails_in};

use crate::heads::ZoneHeads;
use crate::scan::ScannedZone;
use std::alloc::Global;

/// The sequence of the first batch.
fn first_sequence(heads: &ZoneHeads) -> Option<u64>
    ensures { result ≡ first_head_sequence heads.now.heads }
{
    let head = heads.heads().first()?;
    Some(head.sequence)
}

/// Whether all batches of a zone, which has one, are Moves from one other zone, whose first batch is older.
pub(crate) fn is_moved(scanned: &[ScannedZone], zone: u32) -> bool
    ensures right { (logs : List (List Batch)) → AreOf scanned.now logs → Tells result (IsMoved logs zone) }
    // It has a header then.
    ensures some { IsTrue result → HasHeads scanned.now zone }
{
    let Some(found) = scanned.get(zone as usize) else {
        return false;
    };
    let source = found.heads.source();
    if !found.heads.are_moves() {
        return false;
    }
    if source == zone {
        return false;
    }
    let Some(victim) = scanned.get(source as usize) else {
        return false;
    };
    let Some(old) = first_sequence(&victim.heads) else {
        return false;
    };
    let Some(new) = first_sequence(&found.heads) else {
        return false;
    };
    old < new
}

/// Whether there is such a zone.
pub(crate) fn has_moved(scanned: &[ScannedZone]) -> bool
    requires few { length scanned.now < 2 ^ 32 }
    ensures { (logs : List (List Batch)) → AreOf scanned.now logs → Tells result ((zone : ℕ) × IsMoved logs zone) }
{
    for zone in 0..scanned.len() as u32 {
        if is_moved(scanned, zone) {
            return true;
        }
    }
    false
}

/// Whether some zone has no batch.
pub(crate) fn has_vacant(scanned: &[ScannedZone]) -> bool
    ensures { (logs : List (List Batch)) → AreOf scanned.now logs → Tells result (HasVacant logs) }
{
    for found in scanned {
        if found.heads.heads().is_empty() {
            return true;
        }
    }
    false
}

/// Forgets the headers of a zone.
pub(crate) fn forget(alloc: Global, scanned: &mut Vec<ScannedZone>, zone: u32)
    ensures heads { heads_in scanned.new.items ≡ without_heads (heads_in scanned.old.items) zone }
    ensures tails { tails_in scanned.new.items ≡ tails_in scanned.old.items }
{
    if let Some(found) = scanned.get_mut(zone as usize) {
        found.heads = ZoneHeads::new(alloc);
    }
}
