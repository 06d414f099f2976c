//! The same calls of a device that is always clean: what is promised while the drive is clean, is always promised here.

ghost use Rattle.std.specs.Prelude.{◌≡◌, ◌≢◌, ◌⊎◌, IfErr, IfOk, OnOk};
ghost use Rattle.drive_array.specs.ZoneLogs.{drive_logs};
ghost use Rattle.drive_survey.specs.declared.fault.MountFault.TheVariants as faults;
ghost use Rattle.drive_survey.specs.Known.{Knows};
ghost use Rattle.drive_survey.specs.Reported.{KeepsZones};
ghost use Rattle.drive_survey.specs.Scan.{FailsBy};
ghost use Rattle.drive_survey.specs.Survey.{CanScan, MayAsk};
ghost use Rattle.remount.specs.Kept.{KeepsMountable};
ghost use Rattle.remount.specs.Mount.{IsPlanned, IsToMount, MountFails, Mounts, PlanFails};

use crate::plan::Plan;
use drive_port::{Device, Honest};
use drive_survey::{MountFault, Survey};
use std::alloc::Global;
use zone_choice::Tables;

/// Plans what is to be done to a drive, once all headers are read. Afterwards the survey has no batches of the half
/// clean zones.
pub fn plan_mount<D: Device + Honest>(
    alloc: Global,
    device: &mut D,
    survey: &mut Survey,
) -> Result<Plan, MountFault>
    // The survey knows the drive with all its batches, and has found no fault.
    requires known { Knows (D.drive device.old) survey.old.given (drive_logs (D.drive device.old)) survey.old }
    requires can { CanScan (D.drive device.old) survey.old.given }
    // Done, the drive can be mounted, and the plan says what is to be done to it. The report is the same.
    ensures ok { IfOk result (IsPlanned (D.drive device.new) survey.old.given survey.new) }
    ensures zones { OnOk result (survey.new.zones ≡ survey.old.zones) }
    // A fault says why the drive cannot be cleared or repaired, unless it stops or memory runs out.
    ensures err { IfErr result (FailsBy (PlanFails (D.drive device.old) survey.old.given) (D.drive device.new)) }
    ensures kept { KeepsZones (D.drive device.old) (D.drive device.new) }
{
    let plan = crate::plan::plan_mount(alloc, device, survey);
    device.vouch();
    plan
}

/// Mounts a drive.
pub fn mount<D: Device + Honest>(
    alloc: Global,
    device: &mut D,
    given: u64,
) -> Result<Tables, MountFault>
    // Done, the drive is cleared and repaired, with the same array, and the tables agree with it.
    ensures ok { IfOk result (Mounts (D.drive device.old) (D.drive device.new) given) }
    // A fault is the first that is met, and changes no zone, unless the drive stops or memory runs out.
    ensures err { IfErr result (FailsBy (MountFails (D.drive device.old) given) (D.drive device.new)) }
    ensures refused { IfErr result (λ fault. fault ≢ faults.Halted → fault ≢ faults.OutOfMemory → fault ≢ faults.Failed
        → KeepsZones (D.drive device.old) (D.drive device.new)) }
    // Only a drive that can be mounted is changed. It still can be, with the same array, and no command was refused.
    ensures early { IfErr result (λ _. KeepsZones (D.drive device.old) (D.drive device.new)
        ⊎ IsToMount (D.drive device.old) given) }
    ensures kept { KeepsMountable given (D.drive device.old) (D.drive device.new) }
    ensures unsent { (MayAsk (D.drive device.old) given → ⊥) → D.drive device.new ≡ D.drive device.old }
{
    let tables = crate::mounting::mount(alloc, device, given);
    device.vouch();
    tables
}
