ghost use Rattle.std.specs.Prelude.{◌≡◌, ◌≢◌, ◌<◌, ◌^◌, List, length, map, slice_index_or, IfErr, IfOk, IfSome, IsFalse};
ghost use Rattle.std.specs.Prelude.{IsTrue, OnOk};
ghost use Rattle.batch_log.specs.Log.{Batch};
ghost use Rattle.nvme_wire.specs.declared.zone_state.ZoneState.TheVariants.{Empty};
ghost use Rattle.drive_survey.specs.Heads.{heads_of, no_heads};
ghost use Rattle.drive_survey.specs.Known.{Knows};
ghost use Rattle.drive_survey.specs.Reported.{KeepsZones};
ghost use Rattle.drive_survey.specs.Scan.{FailsBy, heads_in};
ghost use Rattle.drive_survey.specs.Survey.{CanScan};
ghost use Rattle.drive_array.specs.ZoneLogs.{drive_logs};
ghost use Rattle.std.specs.List.{AllByRecursion};
ghost use Rattle.remount.specs.Kept.{Fits};
ghost use Rattle.remount.specs.Mount.{AreToEmpty, IsListed, IsPlanned, PlanFails};
ghost use Rattle.remount.specs.Resets.{reported_empty};

use crate::repair::Repair;
use crate::repair::torn::plan_repair;
use drive_port::Device;
use drive_survey::{MountFault, Survey, clear_zones};
use nvme_wire::ZoneState;
use std::alloc::{AllocError, Global};

/// What a mount does to a drive before a disk can serve it.
#[derive(Drop)]
pub struct Plan {
    /// Zones without a batch that are to be emptied, in ascending order.
    pub vacant: Vec<u32>,
    /// Half clean zones, in the order in which they are to be emptied. Each is the lowest one that
    /// is left then.
    pub half_clean: Vec<u32>,
    /// The repair of the zone that is torn then, if one is.
    pub repair: Option<Repair>,
}

/// The zones without a batch that are not Empty, in ascending order.
fn zones_to_empty(alloc: Global, survey: &Survey) -> Result<Vec<u32>, AllocError>
    requires few { length survey.now.zones.items < 2 ^ 32 }
    requires scanned { length survey.now.scanned.items ≡ length survey.now.zones.items }
    ensures inside { IfOk result (λ zones. AllByRecursion (λ zone. zone < length survey.now.zones.items) zones.items) }
    ensures right { IfOk result (λ zones. (logs : List (List Batch))
        → heads_in survey.now.scanned.items ≡ map heads_of logs → length survey.now.zones.items ≡ length logs
        → AreToEmpty logs survey.now zones.items) }
{
    let mut zones = Vec::new(alloc);
    for zone in 0..survey.zones.len() {
        if is_to_empty(survey, zone) {
            zones.push(zone as u32)?;
        }
    }
    Ok(zones)
}

/// Whether a zone has no batch, and is not Empty.
fn is_to_empty(survey: &Survey, zone: usize) -> bool
    requires in_range { zone < length survey.now.zones.items }
    requires scanned { length survey.now.scanned.items ≡ length survey.now.zones.items }
    ensures yes { IsTrue result → (slice_index_or (heads_in survey.now.scanned.items) zone no_heads).blocks ≡ 0 }
    ensures needed { IsTrue result → (slice_index_or survey.now.zones.items zone reported_empty).state ≢ Empty }
    ensures never { IsFalse result → (slice_index_or
        (heads_in survey.now.scanned.items) zone no_heads).blocks ≡ 0
        → (slice_index_or survey.now.zones.items zone reported_empty).state ≡ Empty }
{
    survey.scanned[zone].heads.blocks() == 0 && survey.zones[zone].state != ZoneState::Empty
}

/// Plans what is to be done to a drive, once all headers are read. Afterwards the survey has no
/// batches of the half clean zones.
pub fn plan_mount<D: Device>(
    alloc: Global,
    device: &mut D,
    survey: &mut Survey,
) -> Result<Plan, MountFault>
    // The survey knows the drive with all its batches, and has found no fault.
    requires known { IsTrue (D.drive device.old).clean → Knows (D.drive device.old) survey.old.given
        (drive_logs (D.drive device.old)) survey.old }
    // Whatever the Reads returned, the report is true of all zones, and these were looked at.
    requires fits { Fits (D.drive device.old) survey.old }
    requires can { CanScan (D.drive device.old) survey.old.given }
    // Done, the drive can be mounted, and the plan says what is to be done to it. The report is the same.
    ensures fits { OnOk result (Fits (D.drive device.new) survey.new) }
    ensures inside { IfOk result (λ plan.
        AllByRecursion (λ zone. zone < length survey.old.zones.items) plan.vacant.items
        × AllByRecursion (λ zone. zone < length survey.old.zones.items) plan.half_clean.items) }
    ensures listed { IfOk result (λ plan. IfSome plan.repair (IsListed (length survey.new.zones.items))) }
    ensures ok { IsTrue (D.drive device.new).clean
        → IfOk result (IsPlanned (D.drive device.new) survey.old.given survey.new) }
    ensures zones { OnOk result (survey.new.zones ≡ survey.old.zones) }
    // A fault says why the drive cannot be cleared or repaired, unless it stops or memory runs out.
    ensures err { IsTrue (D.drive device.new).clean
        → IfErr result (FailsBy (PlanFails (D.drive device.old) survey.old.given) (D.drive device.new)) }
    // Whatever it answers, no command was refused, and the zones hold what they held.
    ensures kept { KeepsZones (D.drive device.old) (D.drive device.new) }
{
    let geometry = device.geometry();
    let vacant = zones_to_empty(alloc, survey)?;
    let half_clean = clear_zones(alloc, device, survey)?;
    let repair = plan_repair(alloc, survey, &geometry)?;
    Ok(Plan {
        vacant,
        half_clean,
        repair,
    })
}
