//! Which zones are torn, and whether a mount can repair them.

ghost use Rattle.std.specs.Prelude.{◌≡◌, ◌↔◌, ◌≤◌, ◌<◌, ◌^◌, ◌+◌, ℕ, length, IfNone, IfOk, IfSome, IsTrue};
ghost use Rattle.std.specs.List.{AllByRecursion};
ghost use Rattle.zone_states.specs.Geometry.{IsInRange};
ghost use Rattle.drive_array.specs.Repair.{CanRepair, Fits, IsTornAt, moves};
ghost use Rattle.drive_array.specs.Reserve.{batch_most};
ghost use Rattle.yardsticks.specs.Zones.{IsFirstTorn, NoneTorn, held_logs};

use crate::batches::Batch;
use crate::live::{live, live_data};
use crate::sequences::{are_below, sequences};
use std::alloc::{AllocError, Global};
use zone_choice::batch_most;
use zone_states::Geometry;

/// Whether a zone has a batch, and a torn tail after its batches.
fn is_torn(logs: &[Vec<Batch>], tails: &[bool], zone: usize) -> bool
    requires { zone < length logs.now }
    ensures { IsTrue result ↔ IsTornAt (held_logs logs.now) tails.now zone }
{
    if logs[zone].is_empty() {
        return false;
    }
    match tails.get(zone) {
        Some(is_torn) => *is_torn,
        None => false,
    }
}

/// The first torn zone from one on, if any.
fn first_torn(logs: &[Vec<Batch>], tails: &[bool], from: usize) -> Option<usize>
    ensures some { let all = held_logs logs.now in
        IfSome result (IsFirstTorn all tails.now from) }
    ensures none { let all = held_logs logs.now in
        IfNone result (NoneTorn all tails.now from (length all)) }
{
    for zone in from..logs.len() {
        if is_torn(logs, tails, zone) {
            return Some(zone);
        }
    }
    None
}

/// How many Moves take that many records.
fn moves(geometry: &Geometry, records: u32) -> u64
    requires { IsInRange geometry.now }
    ensures moves { result ≡ moves (batch_most geometry.now) records }
    ensures few { result < 2 ^ 32 }
{
    (records as u64)
        .div_ceil(batch_most(geometry) as u64)
        .max(1)
}

/// Whether Moves of a zone's live records, and their data, fit in one zone, and the sequences last for them.
fn fits(
    alloc: Global,
    geometry: &Geometry,
    size: u32,
    logs: &[Vec<Batch>],
    zone: usize,
) -> Result<bool, AllocError>
    requires { IsInRange geometry.now }
    ensures { let all = held_logs logs.now in
        IfOk result (λ b. IsTrue b ↔ Fits geometry.now (2 ^ 63) size all zone) }
{
    let moves = moves(geometry, live(size, logs, zone));
    if moves + live_data(size, logs, zone) as u64 > geometry.capacity as u64 {
        return Ok(false);
    }
    Ok(are_below(&sequences(alloc, logs)?, (1 << 63) - moves))
}

/// Whether at most one zone is torn, and can be repaired.
pub(crate) fn can_repair(
    alloc: Global,
    geometry: &Geometry,
    size: u32,
    logs: &[Vec<Batch>],
    tails: &[bool],
) -> Result<bool, AllocError>
    requires { IsInRange geometry.now }
    ensures { let all = held_logs logs.now in
        IfOk result (λ b. IsTrue b ↔ CanRepair geometry.now (2 ^ 63) size all tails.now) }
{
    let Some(zone) = first_torn(logs, tails, 0) else {
        return Ok(true);
    };
    let None = first_torn(logs, tails, zone + 1) else {
        return Ok(false);
    };
    fits(alloc, geometry, size, logs, zone)
}
