ghost use Rattle.std.specs.Prelude.{◌≡◌, ◌<◌, ◌∷◌, [], length, IfErr, IsTrue, OnOk};
ghost use Rattle.std.specs.List.{AllByRecursion};
ghost use Rattle.drive_port.specs.Contents.{Resets, contents};
ghost use Rattle.drive_survey.specs.Scan.{AreKnown, IsInterruption};
ghost use Rattle.drive_array.specs.ZoneLogs.{drive_logs, zone_tails};
ghost use Rattle.remount.specs.Kept.{Fits, KeepsMountable, NotesNoneOpen, Stays};
ghost use Rattle.remount.specs.Mount.{IsCleared, IsPlanned, LeavesEmptied, PlansRepair};
ghost use Rattle.remount.specs.Resets.{MayChange, MayReset, ResetsAll};

use crate::plan::Plan;
use drive_port::{Device, reset};
use drive_survey::{MountFault, ReportedZone, Survey, fault_of};
use nvme_wire::ZoneState;
use std::alloc::Global;

/// Resets a zone, and notes that it is Empty.
fn reset_zone<D: Device>(
    alloc: Global,
    device: &mut D,
    survey: &mut Survey,
    zone: u32,
) -> Result<(), MountFault>
    // The report is true of all zones, and this is one of them.
    requires zones { AreKnown (D.drive device.old) survey.old.zones.items }
    requires in_range { zone < length survey.old.zones.items }
    requires scanned { length survey.old.scanned.items ≡ length survey.old.zones.items }
    // Done, the zone is Empty, and the survey says so. Nothing else has changed.
    ensures ok { OnOk result (ResetsAll (D.drive device.old) (D.drive device.new) survey.old survey.new (zone ∷ [])) }
    // It fails only if the drive stops or memory runs out. At most this zone was reset, and nothing was refused.
    ensures err { IfErr result (IsInterruption (D.drive device.new)) }
    ensures kept { MayChange (λ old new. Resets old new zone) (D.drive device.old) (D.drive device.new) }
{
    let start = device.geometry().start_of(zone);
    if let Err(fault) = reset(alloc, device, start) {
        return Err(fault_of(fault));
    }
    survey.zones[zone as usize] = ReportedZone {
        state: ZoneState::Empty,
        blocks: 0,
    };
    survey.scanned[zone as usize].is_torn = false;
    Ok(())
}

/// Resets zones, one after the other.
fn reset_zones<D: Device>(
    alloc: Global,
    device: &mut D,
    survey: &mut Survey,
    zones: &[u32],
) -> Result<(), MountFault>
    // The report is true of all zones. When its turn comes, each of these is vacant or the lowest half clean one.
    requires zones { AreKnown (D.drive device.old) survey.old.zones.items }
    requires scanned { length survey.old.scanned.items ≡ length survey.old.zones.items }
    requires inside { AllByRecursion (λ zone. zone < length survey.old.zones.items) zones.now }
    requires may { IsTrue (D.drive device.old).clean → MayReset (D.drive device.old).geometry.block survey.old.given
        (drive_logs (D.drive device.old)) zones.now }
    // Done, these zones are Empty, and the survey says so. Nothing else has changed.
    ensures ok { OnOk result (ResetsAll (D.drive device.old) (D.drive device.new) survey.old survey.new zones.now) }
    // It fails only if the drive stops or memory runs out. A drive that can be mounted stays so, with the same array.
    ensures err { IfErr result (IsInterruption (D.drive device.new)) }
    ensures stays { Stays (D.drive device.old) (D.drive device.new) }
    ensures kept { IsTrue (D.drive device.new).clean
        → KeepsMountable survey.old.given (D.drive device.old) (D.drive device.new) }
{
    for zone in zones {
        reset_zone(alloc, device, survey, *zone)?;
    }
    Ok(())
}

/// Resets the zones that are to be emptied: those without a batch that are not Empty, and then the half clean ones, in
/// the order in which they were found.
pub(crate) fn empty_zones<D: Device>(
    alloc: Global,
    device: &mut D,
    survey: &mut Survey,
    plan: &Plan,
) -> Result<(), MountFault>
    requires fits { Fits (D.drive device.old) survey.old }
    requires vacant { AllByRecursion (λ zone. zone < length survey.old.zones.items) plan.now.vacant.items }
    requires half_clean { AllByRecursion (λ zone. zone < length survey.old.zones.items) plan.now.half_clean.items }
    requires planned { IsTrue (D.drive device.old).clean
        → IsPlanned (D.drive device.old) survey.old.given survey.old plan.now }
    // Done, no zone is half clean any more, and each zone without a batch is Empty.
    ensures fits { OnOk result (Fits (D.drive device.new) survey.new) }
    ensures cleared { IsTrue (D.drive device.new).clean
        → OnOk result (IsCleared (D.drive device.new) survey.old.given survey.new) }
    // Each zone that has a batch holds what it held. No zone was opened, or is newly noted as open.
    ensures left { IsTrue (D.drive device.new).clean
        → OnOk result (LeavesEmptied (D.drive device.old) (D.drive device.new) plan.now.half_clean.items) }
    ensures noted { OnOk result (NotesNoneOpen survey.old.zones.items survey.new.zones.items) }
    // It fails only if the drive stops or memory runs out.
    ensures err { IfErr result (IsInterruption (D.drive device.new)) }
    ensures stays { Stays (D.drive device.old) (D.drive device.new) }
    // Whatever it answers, while the drive is clean no command was refused, and it can be mounted, with the same array.
    ensures kept { IsTrue (D.drive device.new).clean
        → KeepsMountable survey.old.given (D.drive device.old) (D.drive device.new) }
{
    reset_zones(alloc, device, survey, &plan.vacant)?;
    reset_zones(alloc, device, survey, &plan.half_clean)
}
