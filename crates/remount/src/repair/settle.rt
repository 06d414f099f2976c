ghost use Rattle.std.specs.Prelude.{◌≡◌, ◌⊎◌, ◌<◌, ◌≤◌, ◌^◌, ℕ, false, List, length, IfErr, IsTrue, OnOk};
ghost use Rattle.zone_states.specs.Transition.{is_open};
ghost use Rattle.batch_log.specs.Log.{Batch};
ghost use Rattle.drive_port.specs.Contents.{contents, full, usage_of};
ghost use Rattle.drive_port.specs.Drive.{DriveState};
ghost use Rattle.drive_array.specs.ZoneLogs.{drive_logs};
ghost use Rattle.zone_choice.specs.Tables.{TablesView};
ghost use Rattle.drive_survey.specs.Heads.{HeadsView, heads_of};
ghost use Rattle.remount.specs.Kept.{AreVacantEmpty, IsNotedOpen, KeepsMountable, Stays};
ghost use Rattle.drive_survey.specs.Known.{Knows};
ghost use Rattle.remount.specs.Moving.{EmptiesTorn, IsAtMove, move_count, moves_before, source_of, usage_with};
ghost use Rattle.drive_survey.specs.Scan.{IsInterruption};

use crate::repair::moves::MovePlan;
use drive_port::{Device, reset};
use crate::refused::fault_or_damaged;
use drive_survey::{MountFault, ReportedZone, ScannedZone, Survey, ZoneHeads};
use nvme_wire::ZoneState;
use std::alloc::Global;

/// Empties the torn zone, whose records are all moved.
pub(crate) fn empty_torn<D: Device>(
    alloc: Global,
    device: &mut D,
    plan: &MovePlan,
) -> Result<(), MountFault>
    requires done { IsTrue (D.drive device.old).clean
        → (n : ℕ) × (start : DriveState) × (tables : TablesView) × (heads : HeadsView)
        × IsAtMove n start (D.drive device.old) tables plan.now (move_count plan.now) heads }
    // Done, the zone of the Moves has the records, and the drive can be mounted, with the same array.
    ensures ok { (n : ℕ) (start : DriveState) (tables : TablesView) (heads : HeadsView)
        → IsTrue (D.drive device.new).clean
        → IsAtMove n start (D.drive device.old) tables plan.now (move_count plan.now) heads
        → OnOk result (EmptiesTorn n start (D.drive device.new) plan.now
        (moves_before (source_of start tables plan.now.torn) plan.now (move_count plan.now))) }
    // It fails only if the drive stops or memory runs out. A drive that can be mounted stays so, with the same array.
    ensures err { IsTrue (D.drive device.new).clean → IfErr result (IsInterruption (D.drive device.new)) }
    ensures kept { (n : ℕ) (start : DriveState) (tables : TablesView) (heads : HeadsView)
        → IsTrue (D.drive device.new).clean
        → IsAtMove n start (D.drive device.old) tables plan.now (move_count plan.now) heads
        → KeepsMountable n start (D.drive device.new) }
    ensures stays { Stays (D.drive device.old) (D.drive device.new) }
{
    let start = device.geometry().start_of(plan.torn);
    if let Err(fault) = reset(alloc, device, start) {
        return Err(fault_or_damaged(fault));
    }
    Ok(())
}

/// What a report tells of a zone that was empty, after this many blocks were appended to it.
fn filled_zone(blocks: u32, capacity: u32) -> ReportedZone
    // It is Full if these blocks fill it, and else opened.
    ensures usage { 1 ≤ blocks → usage_of result.state ≡ usage_with capacity blocks }
    ensures blocks { result.blocks ≡ blocks }
    ensures opened { is_open result.state ≡ false → usage_of result.state ≡ full }
{
    if blocks == capacity {
        return ReportedZone {
            state: ZoneState::Full,
            blocks,
        };
    }
    ReportedZone {
        state: ZoneState::ImplicitlyOpened,
        blocks,
    }
}

/// Notes in a survey that the torn zone is empty, and which headers the zone of the Moves has.
pub(crate) fn note_repair(
    alloc: Global,
    survey: &mut Survey,
    plan: &MovePlan,
    heads: ZoneHeads,
    capacity: u32,
)
    // The survey has both zones, and the Moves take a block at least.
    requires torn { plan.now.torn < length survey.old.zones.items }
    requires into { plan.now.into < length survey.old.zones.items }
    requires count { length survey.old.scanned.items ≡ length survey.old.zones.items }
    // It knows the repaired drive then, and all vacant zones are noted as Empty.
    ensures known { (n : ℕ) (start new : DriveState) (made : List Batch)
        → 1 ≤ heads.blocks → start.geometry.capacity ≡ capacity
        → heads ≡ heads_of made → Knows start n (drive_logs start) survey.old
        → EmptiesTorn n start new plan.now made → Knows new n (drive_logs new) survey.new }
    ensures vacant { (n : ℕ) (start new : DriveState) (made : List Batch)
        → Knows start n (drive_logs start) survey.old → AreVacantEmpty survey.old.zones.items (drive_logs start)
        → EmptiesTorn n start new plan.now made → AreVacantEmpty survey.new.zones.items (drive_logs new) }
    // As many zones are noted as before. Only the zone of the Moves is newly noted as open.
    ensures kept { (length survey.new.zones.items ≡ length survey.old.zones.items)
        × (length survey.new.scanned.items ≡ length survey.old.scanned.items) }
    ensures noted { (zone : ℕ) → IsNotedOpen survey.new.zones.items zone
        → IsNotedOpen survey.old.zones.items zone ⊎ (zone ≡ plan.now.into) }
{
    let written = filled_zone(heads.blocks(), capacity);
    survey.zones[plan.into as usize] = written;
    survey.zones[plan.torn as usize] = ReportedZone {
        state: ZoneState::Empty,
        blocks: 0,
    };
    survey.scanned[plan.into as usize] = ScannedZone {
        heads,
        is_torn: false,
    };
    survey.scanned[plan.torn as usize] = ScannedZone {
        heads: ZoneHeads::new(alloc),
        is_torn: false,
    };
}
