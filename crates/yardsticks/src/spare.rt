//! Which zones hold nothing that the array needs, and the clearing of a drive.

ghost use Rattle.std.specs.Prelude.{◌≡◌, ◌⊎◌, ◌↔◌, ◌<◌, ◌≤◌, ℕ, [], length, IfNone, IfOk, IfSome, IsTrue, OnOk};
ghost use Rattle.std.specs.List.{AllByRecursion};
ghost use Rattle.yardsticks.specs.Batches.{batch_of, held_blocks};
ghost use Rattle.drive_array.specs.Records.{without};
ghost use Rattle.drive_array.specs.Spare.{HasSpare, IsBefore, IsHalfClean, IsLowest, IsMoveFrom};
ghost use Rattle.drive_array.specs.Spare.{IsSpare, IsVacant, NoneBelow, first_sequence};
ghost use Rattle.drive_array.specs.ZoneLogs.{log_at};
ghost use Rattle.yardsticks.specs.Zones.{HasClearing, held_logs};

use crate::array::array;
use crate::batches::Batch;
use batch_log::Kind;
use std::alloc::{AllocError, Global};

fn is_move_from(batch: &Batch, source: u32) -> bool
    ensures { IsTrue result ↔ IsMoveFrom source (batch_of batch.now) }
{
    match batch.header.kind {
        Kind::Move => batch.header.source == source,
        Kind::Host => false,
    }
}

fn are_moves_from(log: &[Batch], source: u32) -> bool
    ensures { IsTrue result ↔ AllByRecursion (λ batch. IsMoveFrom source (batch_of batch)) log.now }
{
    log.iter().all(|batch| is_move_from(batch, source))
}

/// The zone from which all batches of a log were moved, if there is a batch and all have one source.
fn moved_from(log: &[Batch]) -> Option<u32>
    ensures some { IfSome result (λ source. (1 ≤ length log.now)
        × AllByRecursion (λ batch. IsMoveFrom source (batch_of batch)) log.now) }
    ensures none { IfNone result ((source : ℕ)
        → AllByRecursion (λ batch. IsMoveFrom source (batch_of batch)) log.now → log.now ≡ []) }
{
    let source = log.first()?.header.source;
    if !are_moves_from(log, source) {
        return None;
    }
    Some(source)
}

/// The sequence of the first batch of a zone.
fn first_sequence(logs: &[Vec<Batch>], zone: usize) -> Option<u64>
    ensures { result ≡ first_sequence (log_at (held_logs logs.now) zone) }
{
    Some(logs.get(zone)?.first()?.header.sequence)
}

/// Whether both zones have a batch, and the first batch of the one is older than the other's.
fn is_older(logs: &[Vec<Batch>], zone: usize, other: usize) -> bool
    ensures { IsTrue result ↔ IsBefore (first_sequence (log_at (held_logs logs.now) zone))
        (first_sequence (log_at (held_logs logs.now) other)) }
{
    match (first_sequence(logs, zone), first_sequence(logs, other)) {
        (Some(old), Some(new)) => old < new,
        _ => false,
    }
}

fn is_same(block: &[u8], other: &[u8]) -> bool
    ensures { IsTrue result ↔ (block.now ≡ other.now) }
{
    block == other
}

fn are_same(blocks: &[Vec<u8>], others: &[Vec<u8>]) -> bool
    ensures { IsTrue result ↔ (held_blocks blocks.now ≡ held_blocks others.now) }
{
    if blocks.len() != others.len() {
        return false;
    }
    for (i, block) in blocks.iter().enumerate() {
        if !is_same(block, &others[i]) {
            return false;
        }
    }
    true
}

/// Whether the array is the same without the batches of a zone.
fn is_spare(
    alloc: Global,
    block_bytes: usize,
    n: u32,
    logs: &[Vec<Batch>],
    zone: usize,
) -> Result<bool, AllocError>
    ensures { IfOk result (λ b. IsTrue b ↔ IsSpare block_bytes n (held_logs logs.now) zone) }
{
    let all = array(alloc, block_bytes, n, logs, None)?;
    let rest = array(alloc, block_bytes, n, logs, Some(zone))?;
    Ok(are_same(&rest, &all))
}

fn is_half_clean(
    alloc: Global,
    block_bytes: usize,
    n: u32,
    logs: &[Vec<Batch>],
    zone: usize,
) -> Result<bool, AllocError>
    requires { zone < length logs.now }
    ensures { IfOk result (λ b. IsTrue b ↔ IsHalfClean block_bytes n (held_logs logs.now) zone) }
{
    let Some(source) = moved_from(&logs[zone]) else {
        return Ok(false);
    };
    if source as usize == zone {
        return Ok(false);
    }
    if !is_older(logs, source as usize, zone) {
        return Ok(false);
    }
    is_spare(alloc, block_bytes, n, logs, zone)
}

fn is_vacant_or_half_clean(
    alloc: Global,
    block_bytes: usize,
    n: u32,
    logs: &[Vec<Batch>],
    zone: usize,
) -> Result<bool, AllocError>
    requires { zone < length logs.now }
    ensures { let all = held_logs logs.now in
        IfOk result (λ b. IsTrue b ↔ (IsVacant all zone ⊎ IsHalfClean block_bytes n all zone)) }
{
    if logs[zone].is_empty() {
        return Ok(true);
    }
    is_half_clean(alloc, block_bytes, n, logs, zone)
}

pub(crate) fn has_spare(
    alloc: Global,
    block_bytes: usize,
    n: u32,
    logs: &[Vec<Batch>],
) -> Result<bool, AllocError>
    ensures { IfOk result (λ b. IsTrue b ↔ HasSpare block_bytes n (held_logs logs.now)) }
{
    for zone in 0..logs.len() {
        if is_vacant_or_half_clean(alloc, block_bytes, n, logs, zone)? {
            return Ok(true);
        }
    }
    Ok(false)
}

/// The lowest half clean zone, if any.
fn lowest_half_clean(
    alloc: Global,
    block_bytes: usize,
    n: u32,
    logs: &[Vec<Batch>],
) -> Result<Option<usize>, AllocError>
    ensures some { let all = held_logs logs.now in
        IfOk result (λ found. IfSome found (IsLowest block_bytes n all)) }
    ensures none { let all = held_logs logs.now in
        IfOk result (λ found. IfNone found (NoneBelow block_bytes n all (length all))) }
{
    for zone in 0..logs.len() {
        if is_half_clean(alloc, block_bytes, n, logs, zone)? {
            return Ok(Some(zone));
        }
    }
    Ok(None)
}

fn empty_zone(logs: &mut Vec<Vec<Batch>>, zone: usize)
    requires { zone < length logs.old.items }
    ensures { held_logs logs.new.items ≡ without (held_logs logs.old.items) zone }
{
    logs[zone].clear();
}

/// Empties the lowest half clean zone, again and again, until there is none.
pub(crate) fn clear(
    alloc: Global,
    block_bytes: usize,
    n: u32,
    logs: &mut Vec<Vec<Batch>>,
) -> Result<(), AllocError>
    ensures { OnOk result
        (HasClearing block_bytes n (held_logs logs.old.items) (held_logs logs.new.items)) }
{
    loop {
        let Some(zone) = lowest_half_clean(alloc, block_bytes, n, logs)? else {
            return Ok(());
        };
        empty_zone(logs, zone);
    }
}
