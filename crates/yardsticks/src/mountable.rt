//! Whether zones can be mounted, clause by clause.

ghost use Rattle.std.specs.Prelude.{◌≡◌, ◌↔◌, ◌<◌, ◌^◌, ℕ, count_by, true, IfOk, IsTrue};
ghost use Rattle.std.specs.List.{AllByRecursion};
ghost use Rattle.zone_states.specs.Geometry.{IsInRange};
ghost use Rattle.drive_port.specs.Contents.{is_active_usage, is_usable, usage_of};
ghost use Rattle.yardsticks.specs.Batches.{batch_of};
ghost use Rattle.drive_array.specs.Mountable.{AreMountable, AreSound, IsInside, is_partly_written};
ghost use Rattle.yardsticks.specs.Zones.{AreOfDisk, HasWholeBlocks, image_content, image_contents, held_logs};

use crate::batches::Batch;
use crate::logs::{ZoneImage, zone_logs};
use crate::repair::can_repair;
use crate::sequences::{are_below, are_distinct, sequences};
use crate::sizes::encoded_size;
use crate::spare::{clear, has_spare};
use batch_log::Entry;
use nvme_wire::ZoneState;
use std::alloc::{AllocError, Global};
use zone_choice::fits_reserve;
use zone_states::Geometry;

fn is_usable(state: ZoneState) -> bool
    ensures { result ≡ is_usable (usage_of state) }
{
    match state {
        ZoneState::ReadOnly | ZoneState::Offline => false,
        _ => true,
    }
}

fn are_usable(zones: &[ZoneImage]) -> bool
    ensures { IsTrue result
        ↔ AllByRecursion (λ zone. is_usable (usage_of zone.state) ≡ true) zones.now }
{
    zones.iter().all(|zone| is_usable(zone.state))
}

fn is_active(state: ZoneState) -> bool
    ensures { result ≡ is_active_usage (usage_of state) }
{
    match state {
        ZoneState::ImplicitlyOpened | ZoneState::ExplicitlyOpened | ZoneState::Closed => true,
        _ => false,
    }
}

fn is_partly_written(zone: &ZoneImage) -> bool
    ensures { result ≡ is_partly_written (image_content zone.now) }
{
    is_active(zone.state) && !zone.blocks.is_empty()
}

/// How many zones are partly written.
fn partly_written(zones: &[ZoneImage]) -> usize
    ensures { result ≡ count_by is_partly_written (image_contents zones.now) }
{
    let mut count = 0;
    for zone in zones {
        if is_partly_written(zone) {
            count += 1;
        }
    }
    count
}

fn is_inside(entries: &[Entry], size: u32) -> bool
    ensures { IsTrue result ↔ AllByRecursion (λ e. e.block < size) entries.now }
{
    entries.iter().all(|entry| entry.block < size as u64)
}

fn is_log_inside(log: &[Batch], size: u32) -> bool
    ensures { IsTrue result ↔ AllByRecursion (λ batch. IsInside size (batch_of batch)) log.now }
{
    log.iter()
        .all(|batch| is_inside(&batch.header.entries, size))
}

fn are_inside(logs: &[Vec<Batch>], size: u32) -> bool
    ensures { IsTrue result
        ↔ AllByRecursion
        (λ log. AllByRecursion (λ batch. IsInside size (batch_of batch)) log.items) logs.now }
{
    logs.iter().all(|log| is_log_inside(log, size))
}

fn are_sound(alloc: Global, n: u32, logs: &[Vec<Batch>]) -> Result<bool, AllocError>
    ensures { let all = held_logs logs.now in
        IfOk result (λ b. IsTrue b ↔ AreSound (2 ^ 63) n all) }
{
    let numbers = sequences(alloc, logs)?;
    if !are_below(&numbers, 1 << 63) {
        return Ok(false);
    }
    if !are_distinct(&numbers) {
        return Ok(false);
    }
    Ok(are_inside(logs, encoded_size(n, logs, None)))
}

/// Whether the logs are sound, the reserve allows their size, and a zone is vacant or half clean.
fn are_of_disk(
    alloc: Global,
    geometry: &Geometry,
    n: u32,
    logs: &[Vec<Batch>],
) -> Result<bool, AllocError>
    requires { IsInRange geometry.now }
    ensures { let all = held_logs logs.now in
        IfOk result (λ b. IsTrue b ↔ AreOfDisk geometry.now n all) }
{
    if !are_sound(alloc, n, logs)? {
        return Ok(false);
    }
    if !fits_reserve(geometry, encoded_size(n, logs, None) as u64) {
        return Ok(false);
    }
    has_spare(alloc, geometry.block as usize, n, logs)
}

/// Whether the zones can be mounted, as `n` blocks if no header has a size. The geometry is one that
/// `check` admits, and each block has its number of bytes.
pub fn is_mountable(
    alloc: Global,
    geometry: &Geometry,
    zones: &[ZoneImage],
    n: u32,
) -> Result<bool, AllocError>
    requires geometry { IsInRange geometry.now }
    requires whole { AllByRecursion (HasWholeBlocks geometry.now.block) zones.now }
    ensures { IfOk result (λ b. IsTrue b ↔ AreMountable geometry.now (image_contents zones.now) n) }
{
    if !are_usable(zones) {
        return Ok(false);
    }
    if partly_written(zones) > 2 {
        return Ok(false);
    }
    let Some(mut drive) = zone_logs(alloc, geometry, zones)? else {
        return Ok(false);
    };
    if !are_of_disk(alloc, geometry, n, &drive.logs)? {
        return Ok(false);
    }
    let size = encoded_size(n, &drive.logs, None);
    clear(alloc, geometry.block as usize, n, &mut drive.logs)?;
    can_repair(alloc, geometry, size, &drive.logs, &drive.tails)
}
