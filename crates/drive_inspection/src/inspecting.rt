//! A drive is looked at.

ghost use Rattle.std.specs.Prelude.{◌≡◌, Err, IfErr, IfOk, IsTrue};
ghost use Rattle.zone_states.specs.Geometry.{IsInRange};
ghost use Rattle.drive_port.specs.Drive.{IsLawful};
ghost use Rattle.drive_survey.specs.Reported.{KeepsZones};
ghost use Rattle.drive_survey.specs.Scan.{FailsBy, IsInterruption};
ghost use Rattle.remount.specs.Mount.{MountFails};
ghost use Rattle.drive_inspection.specs.Findings.{AreByReport, ListsAll};
ghost use Rattle.drive_inspection.specs.Found.{IsEnd, IsNoFinding, IsTellable};
ghost use Rattle.drive_inspection.specs.Info.{IsDriveInfo, IsInfo, IsReportInfo, WereReported, refusal_of};

use crate::checking::{no_findings, refused_faults};
use crate::finding::Findings;
use crate::holding::holdings;
use crate::info::{DriveInfo, Info};
use crate::work::work_of;
use drive_port::Device;
use drive_survey::{MountFault, ReportedZone, report_zones, survey_drive};
use remount::plan_mount;
use std::alloc::Global;

/// What a drive holds that can be mounted, and what a mount does to it.
fn find_info<D: Device>(alloc: Global, device: &mut D, given: u64) -> Result<Info, MountFault>
    // While the drive is clean: done, it can be mounted, and this is what it holds. A fault is the one by which a mount
    // is refused, unless the drive halts or memory runs out.
    ensures ok { IsTrue (D.drive device.new).clean → IfOk result (IsInfo (D.drive device.old) given) }
    ensures err { IsTrue (D.drive device.new).clean
        → IfErr result (FailsBy (MountFails (D.drive device.old) given) (D.drive device.new)) }
    // Whatever it answers, zones hold what they held.
    ensures kept { KeepsZones (D.drive device.old) (D.drive device.new) }
{
    let geometry = device.geometry();
    let mut survey = survey_drive(alloc, device, given)?;
    let holdings = holdings(alloc, &survey, &geometry)?;
    let plan = plan_mount(alloc, device, &mut survey)?;
    let work = work_of(plan, &geometry);
    Ok(Info { holdings, work })
}

/// What a report tells of each zone, if the geometry is in range.
fn zones_reported<D: Device>(alloc: Global, device: &mut D) -> Result<Vec<ReportedZone>, MountFault>
    ensures ok { IfOk result (λ zones. IsInRange (D.drive device.old).geometry
        → WereReported (D.drive device.old) zones.items) }
    ensures err { IfErr result (IsInterruption (D.drive device.new)) }
    ensures kept { KeepsZones (D.drive device.old) (D.drive device.new) }
{
    let geometry = device.geometry();
    if geometry.check().is_err() {
        return Ok(Vec::new(alloc));
    }
    report_zones(alloc, device)
}

/// What was found, unless the look ends there. After a command that failed it goes on.
fn found_or_ended(found: Result<Info, MountFault>) -> Result<Result<Info, MountFault>, MountFault>
    ensures ok { IfOk result (λ same. (same ≡ found) × IfErr same IsTellable) }
    ensures err { IfErr result (λ fault. (found ≡ Err fault) × IsEnd fault) }
{
    match found {
        Err(MountFault::OutOfMemory) => Err(MountFault::OutOfMemory),
        Err(MountFault::Halted) => Err(MountFault::Halted),
        Err(MountFault::Damaged) => Err(MountFault::Damaged),
        found => Ok(found),
    }
}

/// All faults of a drive of which this was found: none if it can be mounted.
fn faults_of<D: Device>(
    alloc: Global,
    device: &mut D,
    given: u64,
    found: &Result<Info, MountFault>,
) -> Result<Findings, MountFault>
    requires lawful { IsLawful (D.drive device.old) }
    requires tells { IfErr found.now IsTellable }
    // While the drive is clean: done, all faults are listed. It fails only if the drive halts or memory runs out.
    ensures ok { IsTrue (D.drive device.new).clean
        → IfOk result (ListsAll (D.drive device.old) (D.drive device.new) given) }
    ensures err { IsTrue (D.drive device.new).clean → IfErr result (IsInterruption (D.drive device.new)) }
    // Whatever the Reads returned, what reports tell is found, and the refusal is told.
    ensures reported { IfOk result (AreByReport (D.drive device.old)) }
    ensures refusal { IfOk result (λ findings. findings.refusal ≡ refusal_of found.now) }
    ensures kinds { IfErr result IsNoFinding }
    ensures kept { KeepsZones (D.drive device.old) (D.drive device.new) }
{
    match found {
        Ok(_) => Ok(no_findings(alloc, None)),
        Err(refusal) => refused_faults(alloc, device, given, *refusal),
    }
}

/// Looks at a drive, taken as `given` logical blocks if no header says how many. Reports and Reads are sent. After a
/// Read that failed the other zones are looked at. The fault is `Halted` (the drive has stopped), `Failed` (it failed
/// at a report) or `OutOfMemory`; or `Damaged`, which never comes while the drive is clean. After `Failed` the drive
/// can be looked at again.
pub fn inspect_drive<D: Device>(
    alloc: Global,
    device: &mut D,
    given: u64,
) -> Result<DriveInfo, MountFault>
    // While the drive is clean: done, this is what it holds, or by what a mount is refused, with all faults. It fails
    // only if the drive halts or memory runs out.
    ensures ok { IsTrue (D.drive device.new).clean
        → IfOk result (IsDriveInfo (D.drive device.old) (D.drive device.new) given) }
    ensures err { IsTrue (D.drive device.new).clean → IfErr result (IsInterruption (D.drive device.new)) }
    // Whatever the Reads returned, the geometry and the report are true.
    ensures reported { IfOk result (IsReportInfo (D.drive device.old)) }
    // Whatever it answers, a failure tells nothing of what the drive holds, and zones hold what they held.
    ensures kinds { IfErr result IsNoFinding }
    ensures kept { KeepsZones (D.drive device.old) (D.drive device.new) }
{
    let geometry = device.geometry();
    let looked = find_info(alloc, device, given);
    let found = found_or_ended(looked)?;
    let zones = zones_reported(alloc, device)?;
    let faults = faults_of(alloc, device, given, &found)?;
    Ok(DriveInfo {
        geometry,
        zones,
        found,
        faults,
    })
}
