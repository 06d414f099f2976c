ghost use Rattle.std.specs.Prelude.{◌≡◌, length, IfErr, IsTrue, OnOk};
ghost use Rattle.drive_port.specs.Contents.{contents};
ghost use Rattle.drive_survey.specs.Scan.{IsInterruption};
ghost use Rattle.drive_array.specs.ZoneLogs.{drive_logs, zone_tails};
ghost use Rattle.remount.specs.Kept.{Fits, KeepsMountable, NotesFilledOpen, Stays};
ghost use Rattle.remount.specs.Mount.{IsCleared, IsListed, IsRepairPlan, IsUntorn};
ghost use Rattle.remount.specs.TornRepair.{RepairsBeside, RepairsTorn};

mod beside;
mod moves;
mod order;
mod settle;
pub(crate) mod torn;

use beside::{close_alone, finish_beside, lowest_empty};
use drive_port::Device;
use drive_survey::{MountFault, Survey};
use moves::make_moves;
use order::plan_moves;
use settle::{empty_torn, note_repair};
use std::alloc::Global;
use zone_choice::Tables;

/// A torn zone that can be repaired.
#[derive(Drop)]
pub struct Repair {
    pub zone: u32,
    /// The blocks whose newest record is in the zone, in ascending order.
    pub blocks: Vec<u32>,
    /// Where the newest records of all blocks are.
    pub tables: Tables,
}

/// Moves the live records of the torn zone of a cleared drive to its lowest Empty zone, and resets it. Each other zone
/// that is opened or Closed is finished before.
pub fn repair_zone<D: Device>(
    alloc: Global,
    device: &mut D,
    survey: &mut Survey,
    repair: &Repair,
) -> Result<(), MountFault>
    // The report is true of all zones, and the blocks of the repair are those that its tables place in its zone.
    requires fits { Fits (D.drive device.old) survey.old }
    requires listed { IsListed (length survey.old.zones.items) repair.now }
    // While the drive is clean, it is cleared, and the repair is planned for its one torn zone.
    requires cleared { IsTrue (D.drive device.old).clean → IsCleared (D.drive device.old) survey.old.given survey.old }
    requires plan { IsTrue (D.drive device.old).clean
        → IsRepairPlan (D.drive device.old).geometry survey.old.given (drive_logs (D.drive device.old))
        (zone_tails (contents (D.drive device.old).zones)) repair.now }
    // Done, no zone is torn. What was live in the torn zone is in the Moves, and the zone has no batch.
    ensures untorn { IsTrue (D.drive device.new).clean
        → OnOk result (IsUntorn (D.drive device.new) survey.old.given survey.new) }
    ensures repaired { IsTrue (D.drive device.new).clean
        → OnOk result (RepairsTorn (D.drive device.old).geometry survey.old.given
        (drive_logs (D.drive device.old)) repair.now.zone (drive_logs (D.drive device.new))) }
    // At most the zone of the Moves is opened or Closed now, and only it is newly noted as open.
    ensures beside { IsTrue (D.drive device.new).clean
        → OnOk result (RepairsBeside (D.drive device.old) (D.drive device.new) repair.now.zone) }
    ensures noted { IsTrue (D.drive device.new).clean
        → OnOk result (NotesFilledOpen (D.drive device.old) (D.drive device.new) survey.old.zones.items
        survey.new.zones.items) }
    ensures count { OnOk result ((length survey.new.scanned.items ≡ length survey.new.zones.items)
        × (length survey.new.zones.items ≡ length survey.old.zones.items)) }
    // While the drive is clean it fails only if the drive stops or memory runs out.
    ensures err { IsTrue (D.drive device.new).clean → IfErr result (IsInterruption (D.drive device.new)) }
    // Whatever it answers, while the drive is clean no command was refused, and it can be mounted, with the same array.
    ensures kept { IsTrue (D.drive device.new).clean
        → KeepsMountable survey.old.given (D.drive device.old) (D.drive device.new) }
    ensures stays { Stays (D.drive device.old) (D.drive device.new) }
{
    finish_beside(alloc, device, survey, repair.zone)?;
    let Some(into) = lowest_empty(&survey.zones) else {
        return Err(MountFault::Damaged);
    };
    let plan = plan_moves(alloc, device, survey, repair, into)?;
    close_alone(alloc, device, plan.torn, plan.reported)?;
    let heads = make_moves(alloc, device, &plan, &repair.tables)?;
    empty_torn(alloc, device, &plan)?;
    note_repair(alloc, survey, &plan, heads, device.geometry().capacity);
    Ok(())
}
