ghost use Rattle.std.specs.Prelude.{IfErr, IfOk, IsTrue};
ghost use Rattle.drive_survey.specs.Reported.{KeepsZones};
ghost use Rattle.drive_survey.specs.Scan.{FailsBy};
ghost use Rattle.drive_survey.specs.Survey.{CanScan};
ghost use Rattle.remount.specs.Mount.{MountFails};
ghost use Rattle.drive_inspection.specs.Findings.{ForeseesMount};

use drive_port::Device;
use drive_survey::{MountFault, Survey, survey_drive};
use remount::{Plan, plan_mount};
use std::alloc::Global;
use zone_states::Geometry;

/// What a mount of a drive finds and would do.
#[derive(Drop)]
pub struct Foreseen {
    /// The geometry of the drive.
    pub geometry: Geometry,
    /// What the drive holds once its half clean zones are forgotten.
    pub survey: Survey,
    /// Which zones are emptied, and how a torn one is repaired.
    pub plan: Plan,
}

/// Goes as far as a mount does before it changes the drive.
pub fn foresee_mount<D: Device>(
    alloc: Global,
    device: &mut D,
    given: u64,
) -> Result<Foreseen, MountFault>
    // While the drive is clean: done, it can be mounted, and this is what a mount would do. A fault is the one by which
    // a mount is refused, unless the drive halts or memory runs out.
    ensures ok { IsTrue (D.drive device.new).clean
        → IfOk result (ForeseesMount (D.drive device.old) (D.drive device.new) given) }
    ensures err { IsTrue (D.drive device.new).clean
        → IfErr result (FailsBy (MountFails (D.drive device.old) given) (D.drive device.new)) }
    // Whatever the Reads returned: done, nothing that a report tells refuses a mount.
    ensures can { IfOk result (λ _. CanScan (D.drive device.old) given) }
    // Whatever it answers, zones hold what they held.
    ensures kept { KeepsZones (D.drive device.old) (D.drive device.new) }
{
    let geometry = device.geometry();
    let mut survey = survey_drive(alloc, device, given)?;
    let plan = plan_mount(alloc, device, &mut survey)?;
    Ok(Foreseen {
        geometry,
        survey,
        plan,
    })
}
