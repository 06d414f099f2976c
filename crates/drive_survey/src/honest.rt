//! The same calls of a device that is always clean: what is promised while the drive is clean, is always promised here.

ghost use Rattle.std.specs.Prelude.{◌≡◌, ◌+◌, ◌≤◌, IfErr, IfOk};
ghost use Rattle.drive_port.specs.Contents.{content_at, contents};
ghost use Rattle.drive_survey.specs.Reads.{ReadsOfZone, ReadsOnce, readable_count};
ghost use Rattle.drive_survey.specs.Reported.{IsKnown, KeepsZones};
ghost use Rattle.drive_survey.specs.Scan.{FailsBy, FailsIn, Scans};
ghost use Rattle.drive_survey.specs.Survey.{MayAsk, SurveyFails, Surveys};

use crate::fault::MountFault;
use crate::scan::{ReadableZone, ScannedZone};
use crate::survey::Survey;
use drive_port::{Device, Honest};
use std::alloc::Global;
use std::collections::BTreeSet;

/// Reads the headers of the batches of one zone.
pub fn scan_zone<D: Device + Honest>(
    alloc: Global,
    device: &mut D,
    zone: ReadableZone,
    seen: &mut BTreeSet<u64>,
    block: &mut Vec<u8>,
) -> Result<ScannedZone, MountFault>
    requires zone { IsKnown (D.drive device.old) zone.number zone.reported }
    // Done, the zone holds a log without a fault. Its headers are kept, and whether a torn tail follows.
    ensures ok { IfOk result (λ scanned. Scans (D.drive device.old).geometry
        (content_at (contents (D.drive device.old).zones) zone.number) seen.old.keys scanned.heads scanned.is_torn
        seen.new.keys) }
    // A fault is the first one of the zone, unless the drive stops or memory runs out.
    ensures err { IfErr result (FailsBy (FailsIn (D.drive device.old).geometry
        (content_at (contents (D.drive device.old).zones) zone.number) zone.number seen.old.keys)
        (D.drive device.new)) }
    ensures kept { KeepsZones (D.drive device.old) (D.drive device.new) }
    ensures reads { IfOk result (λ scanned. ReadsOfZone zone.reported scanned.heads (D.drive device.old)
        (D.drive device.new)) }
    ensures completed { (D.drive device.new).completed ≤ (D.drive device.old).completed + zone.reported.blocks }
{
    let scanned = crate::scan::scan_zone(alloc, device, zone, seen, block);
    device.vouch();
    scanned
}

/// Reads the headers of all batches of a drive.
pub fn survey_drive<D: Device + Honest>(
    alloc: Global,
    device: &mut D,
    given: u64,
) -> Result<Survey, MountFault>
    // Done, the batches are sound, and the reserve allows the size that they say. All headers are kept.
    ensures ok { IfOk result (Surveys (D.drive device.old) (D.drive device.new) given) }
    // A fault is the first that a survey meets, unless the drive stops or memory runs out.
    ensures err { IfErr result (FailsBy (SurveyFails (D.drive device.old) given) (D.drive device.new)) }
    ensures kept { KeepsZones (D.drive device.old) (D.drive device.new) }
    ensures unsent { (MayAsk (D.drive device.old) given → ⊥) → D.drive device.new ≡ D.drive device.old }
    ensures reads { IfOk result (ReadsOnce (D.drive device.old) (D.drive device.new)) }
    ensures completed { (D.drive device.new).completed
        ≤ (D.drive device.old).completed + 1 + readable_count (D.drive device.old) }
{
    let survey = crate::survey::survey_drive(alloc, device, given);
    device.vouch();
    survey
}
