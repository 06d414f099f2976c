ghost use Rattle.std.specs.Prelude.{◌≡◌, ◌<◌, ◌≤◌, ◌+◌, ◌^◌, ◌++◌, [], ◌∷◌, List, length, map, IfErr, IfOk, IfSome, IsTrue, OnOk};
ghost use Rattle.std.specs.List.{list_any};
ghost use Rattle.std.specs.Prelude.{◌==◌};
ghost use Rattle.batch_log.specs.Log.{Batch};
ghost use Rattle.drive_port.specs.Contents.{contents};
ghost use Rattle.drive_array.specs.ZoneLogs.{drive_logs, sequences, zone_tails};
ghost use Rattle.drive_survey.specs.Heads.{greatest_sequence, heads_of};
ghost use Rattle.drive_survey.specs.Known.{Finds, Knows};
ghost use Rattle.batch_log.specs.Header.{IsSize};
ghost use Rattle.remount.specs.Kept.{Fits};
ghost use Rattle.remount.specs.Mount.{IsCleared, IsListed, IsRepairPlan};
ghost use Rattle.remount.specs.Moving.{IsMovePlan, IsSafe, early_size, is_last_in, others, ordered};
ghost use Rattle.drive_survey.specs.Reported.{IsKnown, KeepsZones};
ghost use Rattle.drive_survey.specs.Scan.{AreKnown, IsInterruption, heads_in};

use crate::repair::Repair;
use crate::repair::moves::MovePlan;
use drive_port::Device;
use drive_survey::{Finding, MountFault, ScannedZone, Survey, examine_zone};
use std::alloc::{AllocError, Global};
use zone_choice::batch_most;

/// The greatest sequence of all batches, 0 if none.
fn greatest_sequence(scanned: &[ScannedZone]) -> u64
    ensures { (logs : List (List Batch)) → heads_in scanned.now ≡ map heads_of logs
        → result ≡ greatest_sequence (sequences logs) }
{
    drive_survey::greatest_sequence(scanned)
}

/// Finds why the torn zone is needed, so that it is not half clean. A zone that has other batches
/// than Moves is never half clean, so it is not looked at.
fn why_needed<D: Device>(
    alloc: Global,
    device: &mut D,
    survey: &Survey,
    zone: u32,
) -> Result<Finding, MountFault>
    // The report is true of all zones, and this is one of them. While the drive is clean, the survey knows all batches.
    requires zones { AreKnown (D.drive device.old) survey.now.zones.items }
    requires in_range { zone < length survey.now.scanned.items }
    requires known { IsTrue (D.drive device.old).clean
        → Knows (D.drive device.old) survey.now.given (drive_logs (D.drive device.old)) survey.now }
    // Done, the finding is right for the batches of the drive.
    ensures ok { IsTrue (D.drive device.new).clean
        → IfOk result (Finds (D.drive device.old).geometry.block survey.now.given
        (drive_logs (D.drive device.old)) zone) }
    // It fails only if the drive stops or memory runs out. Whatever it answers, zones hold what they held.
    ensures err { IfErr result (IsInterruption (D.drive device.new)) }
    ensures kept { KeepsZones (D.drive device.old) (D.drive device.new) }
{
    if !survey.scanned[zone as usize].heads.are_moves() {
        return Ok(Finding::NotMoves);
    }
    examine_zone(alloc, device, survey, zone)
}

/// Whether a block is one of these.
fn has(blocks: &[u32], last: u32) -> bool
    ensures { result ≡ list_any (λ block. block == last) blocks.now }
{
    blocks.iter().any(|block| *block == last)
}

/// Whether the block that the zone is needed for, if any, is one of these.
fn is_last_in(blocks: &[u32], why: Finding) -> bool
    ensures { result ≡ is_last_in blocks.now why }
{
    match why {
        Finding::NeedsBlock(last) => has(blocks, last),
        _ => true,
    }
}

/// Whether a header can say this size.
fn is_size(size: Option<u32>) -> bool
    ensures yes { IsTrue result → IfSome size IsSize }
    ensures no { IfSome size IsSize → IsTrue result }
{
    match size {
        Some(size) => 1 <= size && size <= 1 << 31,
        None => true,
    }
}

/// Whether sequences are left for this many Moves.
fn lasts(next: u64, count: usize) -> bool
    ensures yes { IsTrue result → next + count ≤ 2 ^ 63 }
    ensures no { next + count ≤ 2 ^ 63 → IsTrue result }
{
    next <= 1 << 63 && count as u64 <= (1 << 63) - next
}

/// These blocks without `last`.
fn others(alloc: Global, blocks: &[u32], last: u32) -> Result<Vec<u32>, AllocError>
    ensures { IfOk result (λ order. order.items ≡ others last blocks.now) }
{
    let mut order = Vec::new(alloc);
    for block in blocks {
        if *block != last {
            order.push(*block)?;
        }
    }
    Ok(order)
}

/// The order in which the blocks are moved. If the torn zone is needed for one block, that one
/// comes last. So the zone does not become half clean before.
fn ordered(alloc: Global, blocks: &[u32], why: Finding) -> Result<Vec<u32>, AllocError>
    ensures { IfOk result (λ order. order.items ≡ ordered blocks.now why) }
{
    let mut order = Vec::new(alloc);
    match why {
        Finding::NeedsBlock(last) => {
            order = others(alloc, blocks, last)?;
            order.push(last)?;
        }
        _ => order.extend_from_slice(blocks)?,
    }
    Ok(order)
}

/// The size that all Moves but the last one say. If the torn zone is needed for the size, they say
/// none.
fn early_size(size: Option<u32>, why: Finding) -> Option<u32>
    ensures { result ≡ early_size size why }
{
    match why {
        Finding::NeedsSize => None,
        _ => size,
    }
}

/// Plans the Moves from a torn zone to an empty one.
pub(crate) fn plan_moves<D: Device>(
    alloc: Global,
    device: &mut D,
    survey: &Survey,
    repair: &Repair,
    into: u32,
) -> Result<MovePlan, MountFault>
    // The report is true of all zones, and the blocks of the repair are those that its tables place in its zone.
    requires fits { Fits (D.drive device.old) survey.now }
    requires listed { IsListed (length survey.now.zones.items) repair.now }
    // While the drive is clean, it is cleared, and the repair is planned for its one torn zone.
    requires cleared { IsTrue (D.drive device.old).clean → IsCleared (D.drive device.old) survey.now.given survey.now }
    requires plan { IsTrue (D.drive device.old).clean
        → IsRepairPlan (D.drive device.old).geometry survey.now.given (drive_logs (D.drive device.old))
        (zone_tails (contents (D.drive device.old).zones)) repair.now }
    // Done, these Moves can be built and sent. While the drive is clean, they have all that is live in that zone. It
    // is not half clean until the last is made.
    ensures safe { IfOk result (IsSafe (D.drive device.old).geometry repair.now.tables) }
    ensures torn { IfOk result (λ plan. (plan.torn ≡ repair.now.zone) × (plan.into ≡ into)) }
    ensures known { IfOk result (λ plan. IsKnown (D.drive device.new) plan.torn plan.reported) }
    ensures ok { IsTrue (D.drive device.new).clean
        → IfOk result (IsMovePlan (D.drive device.old) survey.now.given survey.now repair.now into) }
    // While the drive is clean it fails only if the drive stops or memory runs out. Zones hold what they held.
    ensures err { IsTrue (D.drive device.new).clean → IfErr result (IsInterruption (D.drive device.new)) }
    ensures kept { KeepsZones (D.drive device.old) (D.drive device.new) }
{
    let why = why_needed(alloc, device, survey, repair.zone)?;
    if !is_last_in(&repair.blocks, why) {
        return Err(MountFault::Damaged);
    }
    let size = survey.scanned[repair.zone as usize].heads.size();
    if !is_size(size) {
        return Err(MountFault::Damaged);
    }
    let order = ordered(alloc, &repair.blocks, why)?;
    let most = batch_most(&device.geometry());
    let next = greatest_sequence(&survey.scanned).saturating_add(1);
    let early = early_size(size, why);
    let plan = MovePlan {
        torn: repair.zone,
        reported: survey.zones[repair.zone as usize],
        into,
        blocks: order,
        most,
        next,
        early,
        size,
    };
    let count = plan.count();
    if !lasts(next, count) {
        return Err(MountFault::Damaged);
    }
    Ok(plan)
}
