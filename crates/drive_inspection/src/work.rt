//! What a mount does to a drive, by its plan.

ghost use Rattle.std.specs.Prelude.{◌≡◌, ℕ, ◌<◌, ◌≤◌, length};
ghost use Rattle.zone_states.specs.Geometry.{IsInRange};
ghost use Rattle.drive_array.specs.Repair.{moves};
ghost use Rattle.drive_array.specs.Reserve.{batch_most};
ghost use Rattle.drive_inspection.specs.Found.{IsWorkOf, TellsRepair};

use crate::info::{MountWork, TornRepair};
use drive_array::batch_most;
use remount::{Plan, Repair};
use zone_states::Geometry;

/// How many Moves take that many records.
fn count_moves(geometry: &Geometry, records: u64) -> u64
    requires { IsInRange geometry.now }
    ensures { result ≡ moves (batch_most geometry.now) records }
{
    records.div_ceil(u64::from(batch_most(geometry))).max(1)
}

/// How a torn zone is repaired, if one is.
fn repair_of(repair: &Option<Repair>, geometry: &Geometry) -> Option<TornRepair>
    requires { IsInRange geometry.now }
    ensures { TellsRepair geometry.now repair.now result }
{
    let Some(repair) = repair else {
        return None;
    };
    let records = repair.blocks.len() as u64;
    Some(TornRepair {
        zone: repair.zone,
        records,
        moves: count_moves(geometry, records),
    })
}

/// What carrying out a plan does.
pub fn work_of(plan: Plan, geometry: &Geometry) -> MountWork
    requires { IsInRange geometry.now }
    ensures { IsWorkOf geometry.now plan result }
{
    let torn = repair_of(&plan.repair, geometry);
    MountWork {
        vacant: plan.vacant,
        half_clean: plan.half_clean,
        torn,
    }
}
