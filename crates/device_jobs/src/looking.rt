// What the drive behind a device holds, and what it can hold. No zone is changed, but that the controller may close
// some.

ghost use Rattle.std.specs.Prelude.{◌≡◌, IfErr, IfOk, IsTrue, OnOk};
ghost use Rattle.drive_inspection.specs.Findings.{AreByReport, AreFindings};
ghost use Rattle.drive_inspection.specs.Info.{IsReportInfo};
ghost use Rattle.drive_survey.specs.Reported.{KeepsZones};
ghost use Rattle.tool_jobs.specs.Checks.{EndsLook};
ghost use Rattle.tool_jobs.specs.Telling.{TellsFound, TellsNothing};
ghost use Rattle.tool_jobs.specs.Plans.{IsPlanOf, IsUnplanned};
ghost use Rattle.drive_inspection.specs.Written.{HoldsInfo};
ghost use Rattle.device_jobs.specs.Looks.{AreFindingsOf, AreReportedOf, IsUnasked};

use drive_inspection::{DriveInfo, Findings, blocks_taken, check_drive, inspect_drive};
use drive_port::Device;
use std::alloc::Global;
use std::io::Write;
use tool_jobs::{Form, PlanRows, ToolFault, interrupted, plan_of, tell};
use write_plan::Aim;
use zone_states::Geometry;

/// All faults of a drive.
fn find_faults<D: Device>(alloc: Global, blocks: u64, device: &mut D) -> Result<Findings, ToolFault>
    ensures ok { IsTrue (D.drive device.new).clean
        → IfOk result (AreFindings (D.drive device.old) (D.drive device.new) blocks) }
    ensures err { IsTrue (D.drive device.new).clean → IfErr result (IsUnasked (D.drive device.new)) }
    ensures reported { IfOk result (AreByReport (D.drive device.old)) }
    ensures kinds { IfErr result EndsLook }
    ensures kept { KeepsZones (D.drive device.old) (D.drive device.new) }
{
    match check_drive(alloc, device, blocks) {
        Ok(findings) => Ok(findings),
        Err(fault) => Err(interrupted(fault)),
    }
}

/// Tells all faults of a drive, and whether a mount as `blocks` logical blocks would be done. The drive is not
/// restarted before. No zone is changed, but that the controller may close some.
pub fn check_device<D: Device, F: Form<Findings>, W: Write>(
    alloc: Global,
    blocks: u64,
    device: &mut D,
    form: &F,
    output: &mut W,
) -> Result<bool, ToolFault>
    // While the drive is clean, all of its faults are told. Why it was not asked to its end has its cause.
    ensures ok { IsTrue (D.drive device.new).clean → IfOk result (λ mountable. TellsFound
        (AreFindingsOf (D.drive device.old) (D.drive device.new) blocks mountable)
        (F.shows form.now) (W.contents output.old) (W.contents output.new)) }
    ensures err { IsTrue (D.drive device.new).clean → IfErr result (λ fault. TellsNothing
        (IsUnasked (D.drive device.new)) (AreFindings (D.drive device.old) (D.drive device.new) blocks)
        (F.shows form.now) fault (W.contents output.old) (W.contents output.new)) }
    // Whatever the Reads returned, what is told agrees with the reports. What does not fit together is told by name.
    ensures reported { IfOk result (λ mountable. TellsFound (AreReportedOf (D.drive device.old) mountable)
        (F.shows form.now) (W.contents output.old) (W.contents output.new)) }
    ensures kinds { IfErr result (λ fault. TellsNothing EndsLook (AreByReport (D.drive device.old))
        (F.shows form.now) fault (W.contents output.old) (W.contents output.new)) }
    ensures kept { KeepsZones (D.drive device.old) (D.drive device.new) }
{
    let findings = find_faults(alloc, blocks, device)?;
    tell(alloc, form, &findings, output)?;
    Ok(findings.refusal.is_none())
}

/// What a drive holds. If it does not say how many logical blocks it has, it is taken to have as many as it can serve.
pub(crate) fn look<D: Device>(alloc: Global, device: &mut D) -> Result<DriveInfo, ToolFault>
    ensures ok { IsTrue (D.drive device.new).clean
        → IfOk result (HoldsInfo (D.drive device.old) (D.drive device.new)) }
    ensures err { IsTrue (D.drive device.new).clean → IfErr result (IsUnasked (D.drive device.new)) }
    ensures reported { IfOk result (IsReportInfo (D.drive device.old)) }
    ensures kinds { IfErr result EndsLook }
    ensures kept { KeepsZones (D.drive device.old) (D.drive device.new) }
{
    let given = blocks_taken(&device.geometry());
    match inspect_drive(alloc, device, given) {
        Ok(info) => Ok(info),
        Err(fault) => Err(interrupted(fault)),
    }
}

/// Tells what a drive holds, and what a mount would do. The drive is not restarted before, and it is not mounted: no
/// zone is changed, but that the controller may close some.
pub fn inform_device<D: Device, F: Form<DriveInfo>, W: Write>(
    alloc: Global,
    device: &mut D,
    form: &F,
    output: &mut W,
) -> Result<(), ToolFault>
    // While the drive is clean, this is what it holds. Why it was not asked to its end has its cause.
    ensures ok { IsTrue (D.drive device.new).clean → OnOk result (TellsFound
        (HoldsInfo (D.drive device.old) (D.drive device.new))
        (F.shows form.now) (W.contents output.old) (W.contents output.new)) }
    ensures err { IsTrue (D.drive device.new).clean → IfErr result (λ fault. TellsNothing
        (IsUnasked (D.drive device.new)) (HoldsInfo (D.drive device.old) (D.drive device.new))
        (F.shows form.now) fault (W.contents output.old) (W.contents output.new)) }
    // Whatever the Reads returned, its shape and its report are true. What does not fit together is told by name.
    ensures reported { OnOk result (TellsFound (IsReportInfo (D.drive device.old)) (F.shows form.now)
        (W.contents output.old) (W.contents output.new)) }
    ensures kinds { IfErr result (λ fault. TellsNothing EndsLook (IsReportInfo (D.drive device.old))
        (F.shows form.now) fault (W.contents output.old) (W.contents output.new)) }
    ensures kept { KeepsZones (D.drive device.old) (D.drive device.new) }
{
    let found = look(alloc, device)?;
    tell(alloc, form, &found, output)
}

/// Tells what numbers of logical blocks cost on a drive of this shape. Nothing is asked of the drive itself.
pub fn plan_device<F: Form<PlanRows>, W: Write>(
    alloc: Global,
    geometry: Geometry,
    aim: Aim,
    form: &F,
    output: &mut W,
) -> Result<(), ToolFault>
    ensures ok { OnOk result (TellsFound (IsPlanOf geometry aim) (F.shows form.now)
        (W.contents output.old) (W.contents output.new)) }
    ensures err { IfErr result (λ fault. TellsNothing (IsUnplanned geometry aim) (IsPlanOf geometry aim)
        (F.shows form.now) fault (W.contents output.old) (W.contents output.new)) }
{
    let plan = plan_of(alloc, geometry, aim)?;
    tell(alloc, form, &plan, output)
}
