ghost use Rattle.std.specs.Prelude.{◌≡◌, ◌+◌, ◌≤◌, ◌<◌, ◌^◌, ◌↔◌, ℕ, count_by, length, IfErr, IfNone, IfOk, IfSome};
ghost use Rattle.std.specs.Prelude.{IsTrue};
ghost use Rattle.drive_port.specs.Contents.{is_usable, usage_of};
ghost use Rattle.drive_survey.specs.Heads.{HeadsView};
ghost use Rattle.drive_survey.specs.Reads.{ReadsOnce, readable_count};
ghost use Rattle.drive_survey.specs.Reported.{KeepsZones};
ghost use Rattle.drive_survey.specs.Scan.{AreKnown, FailsBy, heads_in};
ghost use Rattle.drive_survey.specs.Survey.{AreBelow, AreReportedUsable, CanScan, IsLowestReported, MayAsk};
ghost use Rattle.drive_survey.specs.Survey.{SurveyFails};
ghost use Rattle.drive_survey.specs.Survey.{Reports, Surveys, TellsShut, greatest_in, is_partly_reported};
ghost use Rattle.drive_array.specs.Sizes.{size_or};

use crate::fault::MountFault;
use crate::heads::larger;
use crate::reported::{ReportedZone, report_zones};
use crate::scan::{ScannedZone, scan_zones};
use drive_array::fits_reserve;
use drive_port::Device;
use nvme_wire::ZoneState;
use std::alloc::Global;
use zone_states::is_active;

/// What a mount knows of a drive once it has read all headers.
#[derive(Drop)]
pub struct Survey {
    /// What the report tells of each zone, in ascending order.
    pub zones: Vec<ReportedZone>,
    /// The headers of each zone, in the same order.
    pub scanned: Vec<ScannedZone>,
    /// How many logical blocks the drive has.
    pub size: u32,
    /// The number given to the mount: how many it has if no header says how many.
    pub given: u32,
}

fn is_usable(zone: ReportedZone) -> bool
    ensures { result ≡ is_usable (usage_of zone.state) }
{
    match zone.state {
        ZoneState::ReadOnly | ZoneState::Offline => false,
        _ => true,
    }
}

/// The lowest zone that is Read Only or Offline.
fn lowest_unusable(zones: &[ReportedZone]) -> Option<u32>
    requires { length zones.now < 2 ^ 32 }
    ensures some { IfSome result (IsLowestReported zones.now) }
    ensures none { IfNone result (AreReportedUsable zones.now) }
{
    for (number, zone) in zones.iter().enumerate() {
        if !is_usable(*zone) {
            return Some(number as u32);
        }
    }
    None
}

/// Whether a zone is opened or Closed, and has blocks that a host reads.
pub fn is_partly_written(zone: ReportedZone) -> bool
    ensures { result ≡ is_partly_reported zone }
{
    is_active(zone.state) && zone.blocks != 0
}

/// How many zones are partly written.
pub fn count_partly_written(zones: &[ReportedZone]) -> usize
    ensures { result ≡ count_by is_partly_reported zones.now }
{
    let mut count = 0;
    for zone in zones {
        if is_partly_written(*zone) {
            count += 1;
        }
    }
    count
}

/// The greatest size that a header says, if one says a size.
pub fn greatest_size(scanned: &[ScannedZone]) -> Option<u32>
    ensures { result ≡ greatest_in (heads_in scanned.now) }
{
    let mut size = None;
    for zone in scanned {
        size = larger(size, zone.heads.size());
    }
    size
}

/// How many logical blocks the drive has: the given number if no header says how many.
fn found_size(scanned: &[ScannedZone], given: u32) -> u32
    ensures { result ≡ size_or given (greatest_in (heads_in scanned.now)) }
{
    greatest_size(scanned).unwrap_or(given)
}

/// Whether all batches name blocks below a size.
fn are_below(scanned: &[ScannedZone], size: u32) -> bool
    ensures { IsTrue result ↔ AreBelow size scanned.now }
{
    scanned
        .iter()
        .all(|zone| zone.heads.highest() < size as u64)
}

/// A report of all zones, none of which is Read Only or Offline, and at most two are partly written.
fn usable_zones<D: Device>(
    alloc: Global,
    device: &mut D,
    given: u64,
) -> Result<Vec<ReportedZone>, MountFault>
    // Done, the headers of the drive can be read, and the report is true of all its zones.
    ensures ok { IfOk result (λ zones. CanScan (D.drive device.old) given × AreKnown (D.drive device.new) zones.items
        × TellsShut (D.drive device.old) zones.items) }
    // A fault is the first that a survey meets, unless the drive stops or memory runs out.
    ensures err { IfErr result (FailsBy (SurveyFails (D.drive device.old) given) (D.drive device.new)) }
    // Whatever it answers, zones hold what they held. At most a report is sent, if geometry and number are in range.
    ensures kept { KeepsZones (D.drive device.old) (D.drive device.new) }
    ensures unsent { (MayAsk (D.drive device.old) given → ⊥) → D.drive device.new ≡ D.drive device.old }
    ensures completed { (D.drive device.new).completed ≤ (D.drive device.old).completed + 1 }
{
    let geometry = device.geometry();
    let Ok(()) = geometry.check() else {
        return Err(MountFault::Limits);
    };
    if !fits_reserve(&geometry, given) {
        return Err(MountFault::Reserve);
    }
    let zones = report_zones(alloc, device)?;
    if let Some(zone) = lowest_unusable(&zones) {
        return Err(MountFault::ZoneUnusable(zone));
    }
    if count_partly_written(&zones) > 2 {
        return Err(MountFault::TooManyPartial);
    }
    Ok(zones)
}

/// Reads the headers of all batches of a drive. `given` is how many logical blocks it has if no header says how many.
/// One report and Reads are sent: one Read for each batch, and at most one for each block after the last batch of its
/// zone. Nothing is sent after `Limits`, nor where the reserve does not allow the given number.
pub fn survey_drive<D: Device>(
    alloc: Global,
    device: &mut D,
    given: u64,
) -> Result<Survey, MountFault>
    // Done, the batches are sound, and the reserve allows the size that they say. All headers are kept.
    ensures ok { IsTrue (D.drive device.new).clean
        → IfOk result (Surveys (D.drive device.old) (D.drive device.new) given) }
    // Whatever the Reads returned, the report is true of all zones, and the zones were looked at.
    ensures reported { IfOk result (Reports (D.drive device.old) (D.drive device.new) given) }
    // A fault is the first that a survey meets, unless the drive stops or memory runs out.
    ensures err { IsTrue (D.drive device.new).clean
        → IfErr result (FailsBy (SurveyFails (D.drive device.old) given) (D.drive device.new)) }
    // Whatever it answers, zones hold what they held. Nothing is sent if the geometry or the number is out of range.
    ensures kept { KeepsZones (D.drive device.old) (D.drive device.new) }
    ensures unsent { (MayAsk (D.drive device.old) given → ⊥) → D.drive device.new ≡ D.drive device.old }
    // Each batch takes one Read. In all there is one report, and there are no more Reads than readable blocks.
    ensures reads { IfOk result (ReadsOnce (D.drive device.old) (D.drive device.new)) }
    ensures completed { (D.drive device.new).completed
        ≤ (D.drive device.old).completed + 1 + readable_count (D.drive device.old) }
{
    let zones = usable_zones(alloc, device, given)?;
    let scanned = scan_zones(alloc, device, &zones)?;
    let size = found_size(&scanned, given as u32);
    if !fits_reserve(&device.geometry(), size as u64) {
        return Err(MountFault::Reserve);
    }
    if !are_below(&scanned, size) {
        return Err(MountFault::BlockOutOfRange);
    }
    Ok(Survey {
        zones,
        scanned,
        size,
        given: given as u32,
    })
}
