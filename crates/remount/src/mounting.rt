ghost use Rattle.std.specs.Prelude.{◌≡◌, ◌≢◌, ◌⊎◌, length, ◌<◌, IfErr, IfOk, IfSome, IsTrue, OnOk};
ghost use Rattle.std.specs.List.{AllByRecursion};
ghost use Rattle.drive_port.specs.Contents.{contents};
ghost use Rattle.drive_survey.specs.declared.fault.MountFault.TheVariants as faults;
ghost use Rattle.drive_survey.specs.Reported.{KeepsZones};
ghost use Rattle.drive_survey.specs.Scan.{FailsBy, IsInterruption};
ghost use Rattle.drive_survey.specs.Survey.{MayAsk};
ghost use Rattle.drive_array.specs.ZoneLogs.{drive_logs, zone_tails};
ghost use Rattle.remount.specs.Kept.{AreSane, Fits, KeepsMountable, Stays, NotesFilledOpen};
ghost use Rattle.remount.specs.Mount.{FinishesByNeed, IsCleared, IsListed, IsPlanned, IsRepaired, IsToMount, IsUntorn};
ghost use Rattle.remount.specs.Mount.{LeavesBeside, LeavesCleared, LeavesPlanned, MountFails, Mounts};
ghost use Rattle.remount.specs.Mount.{NotesOpenByNeed, PlansRepair};

use crate::empty::empty_zones;
use crate::finish::finish_zones;
use crate::plan::{Plan, plan_mount};
use crate::repair::{Repair, repair_zone};
use crate::tables::{are_short, mounted_tables};
use drive_port::Device;
use drive_survey::{MountFault, Survey, greatest_sequence, survey_drive};
use std::alloc::Global;
use zone_choice::Tables;

/// Repairs the torn zone, if there is one.
fn repair_torn<D: Device>(
    alloc: Global,
    device: &mut D,
    survey: &mut Survey,
    repair: &Option<Repair>,
) -> Result<(), MountFault>
    // The drive is cleared, and this is the repair that it needs.
    requires fits { Fits (D.drive device.old) survey.old }
    requires listed { IfSome repair.now (IsListed (length survey.old.zones.items)) }
    requires cleared { IsTrue (D.drive device.old).clean → IsCleared (D.drive device.old) survey.old.given survey.old }
    requires plan { IsTrue (D.drive device.old).clean
        → PlansRepair (D.drive device.old).geometry survey.old.given (drive_logs (D.drive device.old))
        (zone_tails (contents (D.drive device.old).zones)) repair.now }
    // Done, no zone is torn. The batches are the same, except for what the repair has moved.
    ensures ok { IsTrue (D.drive device.new).clean
        → OnOk result (IsUntorn (D.drive device.new) survey.old.given survey.new) }
    ensures left { IsTrue (D.drive device.new).clean
        → OnOk result (LeavesPlanned (D.drive device.old).geometry survey.old.given
        (drive_logs (D.drive device.old)) repair.now (drive_logs (D.drive device.new))) }
    // Without a torn zone the drive is unchanged. Else at most the zone of the Moves is opened or Closed.
    ensures beside { IsTrue (D.drive device.new).clean
        → OnOk result (LeavesBeside (D.drive device.old) repair.now (D.drive device.new)) }
    ensures count { OnOk result ((length survey.new.scanned.items ≡ length survey.new.zones.items)
        × (length survey.new.zones.items ≡ length survey.old.zones.items)) }
    ensures noted { IsTrue (D.drive device.new).clean
        → OnOk result (NotesFilledOpen (D.drive device.old) (D.drive device.new) survey.old.zones.items
        survey.new.zones.items) }
    // It fails only if the drive stops or memory runs out. A drive that can be mounted stays so, with the same array.
    ensures err { IsTrue (D.drive device.new).clean → IfErr result (IsInterruption (D.drive device.new)) }
    ensures stays { Stays (D.drive device.old) (D.drive device.new) }
    ensures kept { IsTrue (D.drive device.new).clean
        → KeepsMountable survey.old.given (D.drive device.old) (D.drive device.new) }
{
    let Some(repair) = repair else {
        return Ok(());
    };
    repair_zone(alloc, device, survey, repair)
}

/// Carries out the plan: empties zones, repairs the torn one, and finishes zones that take no more
/// batches.
fn carry_out<D: Device>(
    alloc: Global,
    device: &mut D,
    survey: &mut Survey,
    plan: &Plan,
) -> Result<(), MountFault>
    requires fits { Fits (D.drive device.old) survey.old }
    requires vacant { AllByRecursion (λ zone. zone < length survey.old.zones.items) plan.now.vacant.items }
    requires half_clean { AllByRecursion (λ zone. zone < length survey.old.zones.items) plan.now.half_clean.items }
    requires listed { IfSome plan.now.repair (IsListed (length survey.old.zones.items)) }
    requires planned { IsTrue (D.drive device.old).clean
        → IsPlanned (D.drive device.old) survey.old.given survey.old plan.now }
    // Done, a disk can serve the drive. The half clean zones were emptied, and a torn one was repaired, if any.
    ensures repaired { IsTrue (D.drive device.new).clean
        → OnOk result (IsRepaired (D.drive device.new) survey.old.given survey.new) }
    ensures left { IsTrue (D.drive device.new).clean
        → OnOk result (LeavesCleared survey.old.given (D.drive device.old) plan.now.half_clean.items
        (D.drive device.new)) }
    // No zone was finished, opened or newly noted as open without need.
    ensures zones { IsTrue (D.drive device.new).clean
        → OnOk result (FinishesByNeed (D.drive device.old) plan.now.half_clean.items (D.drive device.new)) }
    ensures noted { IsTrue (D.drive device.new).clean
        → OnOk result (NotesOpenByNeed (D.drive device.old) plan.now.half_clean.items (D.drive device.new)
        survey.old.zones.items survey.new.zones.items) }
    // It fails only if the drive stops or memory runs out. A drive that can be mounted stays so, with the same array.
    ensures err { IsTrue (D.drive device.new).clean → IfErr result (IsInterruption (D.drive device.new)) }
    ensures stays { Stays (D.drive device.old) (D.drive device.new) }
    ensures kept { IsTrue (D.drive device.new).clean
        → KeepsMountable survey.old.given (D.drive device.old) (D.drive device.new) }
{
    empty_zones(alloc, device, survey, plan)?;
    repair_torn(alloc, device, survey, &plan.repair)?;
    finish_zones(alloc, device, survey)
}

/// Mounts a drive: checks it, repairs what a stop left, and finds where each block is. `given` is how many logical
/// blocks the drive has if no header says how many.
pub fn mount<D: Device>(alloc: Global, device: &mut D, given: u64) -> Result<Tables, MountFault>
    // Done, the drive is cleared and repaired, with the same array, and the tables agree with it.
    ensures ok { IsTrue (D.drive device.new).clean
        → IfOk result (Mounts (D.drive device.old) (D.drive device.new) given) }
    // Whatever the Reads returned, the tables have numbers that a disk can work with.
    ensures sane { IfOk result (AreSane (D.drive device.new).geometry) }
    ensures asked { IfOk result (λ _. MayAsk (D.drive device.old) given) }
    // A fault is the first that is met, and changes no zone, unless the drive stops or memory runs out.
    ensures err { IsTrue (D.drive device.new).clean
        → IfErr result (FailsBy (MountFails (D.drive device.old) given) (D.drive device.new)) }
    ensures refused { IsTrue (D.drive device.new).clean
        → IfErr result (λ fault. fault ≢ faults.Halted → fault ≢ faults.OutOfMemory → fault ≢ faults.Failed
        → KeepsZones (D.drive device.old) (D.drive device.new)) }
    // Only a drive that can be mounted is changed. It still can be, with the same array, and no command was refused.
    ensures early { IsTrue (D.drive device.new).clean
        → IfErr result (λ _. KeepsZones (D.drive device.old) (D.drive device.new)
        ⊎ IsToMount (D.drive device.old) given) }
    ensures stays { Stays (D.drive device.old) (D.drive device.new) }
    ensures kept { IsTrue (D.drive device.new).clean → KeepsMountable given (D.drive device.old) (D.drive device.new) }
    // Nothing is sent if the geometry is out of range, or if the reserve does not allow the number.
    ensures unsent { (MayAsk (D.drive device.old) given → ⊥) → D.drive device.new ≡ D.drive device.old }
{
    let geometry = device.geometry();
    let mut survey = survey_drive(alloc, device, given)?;
    let greatest = greatest_sequence(&survey.scanned);
    let plan = plan_mount(alloc, device, &mut survey)?;
    carry_out(alloc, device, &mut survey, &plan)?;
    if !are_short(&survey.zones, geometry.capacity) {
        return Err(MountFault::Damaged);
    }
    let next = greatest_sequence(&survey.scanned)
        .max(greatest)
        .saturating_add(1)
        .min(1 << 63);
    let tables = mounted_tables(alloc, &survey, &geometry, next)?;
    Ok(tables)
}
