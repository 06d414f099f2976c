ghost use Rattle.std.specs.Prelude.{◌≡◌, ◌≢◌, ◌<◌, ◌≤◌, ◌^◌, ℕ, true, false, length, slice_get, slice_index_or};
ghost use Rattle.std.specs.Prelude.{Some, IfErr, IfNone, IfOk, IfSome, IsTrue, OnOk};
ghost use Rattle.drive_port.specs.Contents.{contents};
ghost use Rattle.zone_choice.specs.Agreement.{IsShut};
ghost use Rattle.drive_array.specs.ZoneLogs.{drive_logs, zone_tails};
ghost use Rattle.remount.specs.Kept.{AreVacantEmpty, Fits, FitsStill, KeepsMountable, NotesNoneOpen, Stays};
ghost use Rattle.drive_survey.specs.Known.{Knows};
ghost use Rattle.remount.specs.Mount.{IsCleared, IsOnlyTorn};
ghost use Rattle.remount.specs.Moving.{KeepsShut, SettlesOthers, SettlesZone};
ghost use Rattle.drive_survey.specs.Reported.{IsKnown};
ghost use Rattle.drive_survey.specs.Scan.{IsInterruption};
ghost use Rattle.drive_survey.specs.declared.reported.ReportedZone.{ReportedZone};
ghost use Rattle.nvme_wire.specs.declared.zone_state.ZoneState.TheVariants as states;

use crate::finish::finish_zone;
use drive_port::{Device, close};
use drive_survey::{MountFault, ReportedZone, Survey, fault_of};
use nvme_wire::ZoneState;
use std::alloc::Global;
use zone_states::{is_active, is_open};

/// Finishes a zone that is opened or Closed, unless it is the torn one.
fn finish_other<D: Device>(
    alloc: Global,
    device: &mut D,
    survey: &mut Survey,
    torn: u32,
    zone: u32,
) -> Result<(), MountFault>
    // The report is true of all zones, and this is one of them.
    requires fits { Fits (D.drive device.old) survey.old }
    requires in_range { zone < length survey.old.zones.items }
    // While the drive is clean, the survey knows it, its vacant zones are Empty, and its only torn zone is `torn`.
    requires known { IsTrue (D.drive device.old).clean
        → (n : ℕ) × Knows (D.drive device.old) n (drive_logs (D.drive device.old)) survey.old }
    requires vacant { IsTrue (D.drive device.old).clean
        → AreVacantEmpty survey.old.zones.items (drive_logs (D.drive device.old)) }
    requires torn { IsTrue (D.drive device.old).clean → IsOnlyTorn (drive_logs (D.drive device.old))
        (zone_tails (contents (D.drive device.old).zones)) torn }
    // Done, this zone is finished if that was due. No batch has changed, and no zone was opened.
    ensures fits { OnOk result (FitsStill (D.drive device.new) survey.old survey.new) }
    ensures ok { IsTrue (D.drive device.new).clean
        → OnOk result ((n : ℕ) → Knows (D.drive device.old) n (drive_logs (D.drive device.old)) survey.old
        → SettlesZone n (D.drive device.old) (D.drive device.new) survey.old survey.new torn zone) }
    ensures noted { OnOk result (NotesNoneOpen survey.old.zones.items survey.new.zones.items) }
    // It fails only if the drive stops or memory runs out. A drive that can be mounted stays so, with the same array.
    ensures err { IfErr result (IsInterruption (D.drive device.new)) }
    ensures kept { IsTrue (D.drive device.new).clean
        → (n : ℕ) → KeepsMountable n (D.drive device.old) (D.drive device.new) }
    ensures stays { Stays (D.drive device.old) (D.drive device.new) }
{
    if zone == torn {
        return Ok(());
    }
    if !is_active(survey.zones[zone as usize].state) {
        return Ok(());
    }
    finish_zone(alloc, device, survey, zone)
}

/// Finishes each zone but the torn one that is opened or Closed.
pub(crate) fn finish_beside<D: Device>(
    alloc: Global,
    device: &mut D,
    survey: &mut Survey,
    torn: u32,
) -> Result<(), MountFault>
    requires fits { Fits (D.drive device.old) survey.old }
    // While the drive is clean, it is cleared, and this is its one torn zone.
    requires cleared { IsTrue (D.drive device.old).clean → IsCleared (D.drive device.old) survey.old.given survey.old }
    requires torn { IsTrue (D.drive device.old).clean → IsOnlyTorn (drive_logs (D.drive device.old))
        (zone_tails (contents (D.drive device.old).zones)) torn }
    // Done, it is still cleared, with the same batches. Only the torn zone may be opened or Closed.
    ensures fits { OnOk result (FitsStill (D.drive device.new) survey.old survey.new) }
    ensures cleared { IsTrue (D.drive device.new).clean
        → OnOk result (IsCleared (D.drive device.new) survey.old.given survey.new) }
    ensures left { IsTrue (D.drive device.new).clean
        → OnOk result (SettlesOthers (D.drive device.old) (D.drive device.new) torn) }
    ensures noted { OnOk result (NotesNoneOpen survey.old.zones.items survey.new.zones.items) }
    // It fails only if the drive stops or memory runs out.
    ensures err { IfErr result (IsInterruption (D.drive device.new)) }
    // Whatever it answers, while the drive is clean no command was refused, and it can be mounted, with the same array.
    ensures kept { IsTrue (D.drive device.new).clean
        → KeepsMountable survey.old.given (D.drive device.old) (D.drive device.new) }
    ensures stays { Stays (D.drive device.old) (D.drive device.new) }
{
    for zone in 0..survey.zones.len() as u32 {
        finish_other(alloc, device, survey, torn, zone)?;
    }
    Ok(())
}

/// The lowest zone that was reported Empty.
pub(crate) fn lowest_empty(zones: &[ReportedZone]) -> Option<u32>
    requires { length zones.now < 2 ^ 32 }
    ensures some { IfSome result (λ zone. (zone < length zones.now)
        × ((reported : ReportedZone) → slice_get zones.now zone ≡ Some reported → reported.state ≡ states.Empty)) }
    ensures lowest { IfSome result (λ zone. (other : ℕ) (reported : ReportedZone) → other < zone
        → slice_get zones.now other ≡ Some reported → reported.state ≢ states.Empty) }
    ensures none { IfNone result ((zone : ℕ) (reported : ReportedZone) → slice_get zones.now zone ≡ Some reported
        → reported.state ≢ states.Empty) }
{
    for (number, zone) in zones.iter().enumerate() {
        if zone.state == ZoneState::Empty {
            return Some(number as u32);
        }
    }
    None
}

/// Sends Close to a zone that was reported open, if only one zone may be open.
pub(crate) fn close_alone<D: Device>(
    alloc: Global,
    device: &mut D,
    zone: u32,
    reported: ReportedZone,
) -> Result<(), MountFault>
    requires known { IsKnown (D.drive device.old) zone reported }
    // Done, the zone is not open, if only one zone may be. If more may be, nothing is sent.
    ensures shut { OnOk result ((D.drive device.old).geometry.open < 2 → IsShut (D.drive device.new).zones zone) }
    ensures spared { 2 ≤ (D.drive device.old).geometry.open → D.drive device.new ≡ D.drive device.old }
    // It fails only if the drive stops or memory runs out. No zone was opened, and all hold what they held.
    ensures err { IfErr result (IsInterruption (D.drive device.new)) }
    ensures kept { KeepsShut (D.drive device.old) (D.drive device.new) }
{
    let geometry = device.geometry();
    if geometry.open > 1 || !is_open(reported.state) {
        return Ok(());
    }
    if let Err(fault) = close(alloc, device, geometry.start_of(zone)) {
        return Err(fault_of(fault));
    }
    Ok(())
}
