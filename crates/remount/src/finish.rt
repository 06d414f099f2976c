ghost use Rattle.std.specs.Prelude.{◌≡◌, ◌<◌, true, length, IfErr, IsTrue, OnOk};
ghost use Rattle.drive_port.specs.Contents.{Finishes};
ghost use Rattle.drive_survey.specs.Scan.{AreKnown, IsInterruption};
ghost use Rattle.drive_array.specs.ZoneLogs.{drive_logs};
ghost use Rattle.drive_array.specs.Reserve.{batch_most};
ghost use Rattle.zone_states.specs.Geometry.{IsInRange};
ghost use Rattle.remount.specs.Kept.{KeepsMountable, NotesNoneOpen, SameLengths, Stays};
ghost use Rattle.remount.specs.Mount.{IsRepaired, IsUntorn};
ghost use Rattle.remount.specs.Resets.{FinishesIf, FinishesNeeded, FinishesOne, IsTested, MayChange, is_to_finish};

use drive_port::{Device, finish};
use crate::refused::fault_or_damaged;
use drive_survey::{MountFault, ReportedZone, Survey, ZoneHeads, is_partly_written};
use nvme_wire::ZoneState;
use std::alloc::Global;
use zone_choice::batch_most;

/// Finishes a zone, and notes that it is Full.
pub(crate) fn finish_zone<D: Device>(
    alloc: Global,
    device: &mut D,
    survey: &mut Survey,
    zone: u32,
) -> Result<(), MountFault>
    requires in_range { zone < length survey.old.zones.items }
    // Done, if the report is true of all zones, the zone is Full, and the survey says so. Nothing else has changed.
    ensures ok { AreKnown (D.drive device.old) survey.old.zones.items
        → OnOk result (FinishesOne (D.drive device.old) (D.drive device.new) survey.old survey.new zone) }
    // Then it fails only if the drive stops or memory runs out. At most this zone was finished, nothing was refused.
    ensures err { AreKnown (D.drive device.old) survey.old.zones.items
        → IfErr result (IsInterruption (D.drive device.new)) }
    ensures kept { AreKnown (D.drive device.old) survey.old.zones.items
        → MayChange (λ old new. Finishes old new zone) (D.drive device.old) (D.drive device.new) }
    ensures stays { Stays (D.drive device.old) (D.drive device.new) }
    ensures count { SameLengths survey.old survey.new }
{
    let geometry = device.geometry();
    if let Err(fault) = finish(alloc, device, geometry.start_of(zone)) {
        return Err(fault_or_damaged(fault));
    }
    survey.zones[zone as usize] = ReportedZone {
        state: ZoneState::Full,
        blocks: geometry.capacity,
    };
    Ok(())
}

/// Whether a zone is partly written, and a disk cannot continue with it. That is so if fewer than
/// two blocks are free, or a batch has more than `most` entries.
fn is_to_finish(reported: ReportedZone, heads: &ZoneHeads, capacity: u32, most: u32) -> bool
    ensures { result ≡ is_to_finish capacity most reported heads.now }
{
    is_partly_written(reported)
        && ((capacity as u64) < reported.blocks as u64 + 2 || most < heads.most())
}

/// Finishes a zone if it is partly written and a disk cannot continue with it.
fn finish_if_due<D: Device>(
    alloc: Global,
    device: &mut D,
    survey: &mut Survey,
    zone: u32,
) -> Result<(), MountFault>
    requires range { IsInRange (D.drive device.old).geometry }
    requires in_range { zone < length survey.old.zones.items }
    requires scanned { length survey.old.scanned.items ≡ length survey.old.zones.items }
    // Done, if the report is true of all zones, the zone is Full if that was due. Else nothing has changed.
    ensures ok { AreKnown (D.drive device.old) survey.old.zones.items
        → OnOk result (FinishesIf (D.drive device.old) (D.drive device.new) survey.old survey.new zone) }
    // Then it fails only if the drive stops or memory runs out. At most this zone was finished, and only if due.
    ensures err { AreKnown (D.drive device.old) survey.old.zones.items
        → IfErr result (IsInterruption (D.drive device.new)) }
    ensures kept { AreKnown (D.drive device.old) survey.old.zones.items → MayChange (λ old new. Finishes old new zone
        × IsTested (D.drive device.old).geometry.capacity
        (batch_most (D.drive device.old).geometry) survey.old zone true) (D.drive device.old) (D.drive device.new) }
    ensures stays { Stays (D.drive device.old) (D.drive device.new) }
    ensures count { SameLengths survey.old survey.new }
{
    let geometry = device.geometry();
    let reported = survey.zones[zone as usize];
    let heads = &survey.scanned[zone as usize].heads;
    if !is_to_finish(reported, heads, geometry.capacity, batch_most(&geometry)) {
        return Ok(());
    }
    finish_zone(alloc, device, survey, zone)
}

/// Finishes each partly written zone that has fewer than two free blocks, or a batch with more
/// entries than this disk writes.
pub(crate) fn finish_zones<D: Device>(
    alloc: Global,
    device: &mut D,
    survey: &mut Survey,
) -> Result<(), MountFault>
    requires range { IsInRange (D.drive device.old).geometry }
    requires long { length survey.old.zones.items ≡ (D.drive device.old).geometry.zones }
    requires scanned { length survey.old.scanned.items ≡ length survey.old.zones.items }
    requires untorn { IsTrue (D.drive device.old).clean → IsUntorn (D.drive device.old) survey.old.given survey.old }
    // Done, a disk can serve the drive, and continue with each zone that is partly written.
    ensures repaired { IsTrue (D.drive device.new).clean
        → OnOk result (IsRepaired (D.drive device.new) survey.old.given survey.new) }
    // No batch has changed. Zones that a disk continues with hold what they held, and no zone was opened.
    ensures logs { IsTrue (D.drive device.new).clean
        → OnOk result (drive_logs (D.drive device.new) ≡ drive_logs (D.drive device.old)) }
    ensures needed { IsTrue (D.drive device.new).clean
        → OnOk result (FinishesNeeded (D.drive device.old) (D.drive device.new)) }
    ensures noted { IsTrue (D.drive device.new).clean
        → OnOk result (NotesNoneOpen survey.old.zones.items survey.new.zones.items) }
    // While the drive is clean it fails only if the drive stops or memory runs out.
    ensures err { IsTrue (D.drive device.new).clean → IfErr result (IsInterruption (D.drive device.new)) }
    // Whatever it answers, while the drive is clean no command was refused, and it can be mounted, with the same array.
    ensures stays { Stays (D.drive device.old) (D.drive device.new) }
    ensures count { SameLengths survey.old survey.new }
    ensures kept { IsTrue (D.drive device.new).clean
        → KeepsMountable survey.old.given (D.drive device.old) (D.drive device.new) }
{
    let _size = device.geometry().size;
    for zone in 0..survey.zones.len() {
        finish_if_due(alloc, device, survey, zone as u32)?;
    }
    Ok(())
}
