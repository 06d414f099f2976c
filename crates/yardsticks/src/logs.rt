//! The logs of zones.

ghost use Rattle.std.specs.Prelude.{◌≡◌, ◌<◌, ◌++◌, length, true, IfNone, IfOk, IfSome};
ghost use Rattle.std.specs.List.{AllByRecursion};
ghost use Rattle.zone_states.specs.Geometry.{IsInRange};
ghost use Rattle.drive_port.specs.Contents.{usage_of, is_full};
ghost use Rattle.yardsticks.specs.Batches.{held_blocks};
ghost use Rattle.drive_array.specs.ZoneLogs.{HasLog, padding, readable};
ghost use Rattle.yardsticks.specs.Zones.{AreZoneLogs, HasWholeBlocks, IsZoneLog, image_content};
ghost use Rattle.yardsticks.specs.Zones.{image_contents, held_log, held_logs};

use crate::batches::{Batch, ZoneLog, copied, log};
use nvme_wire::ZoneState;
use std::alloc::{AllocError, Global};
use zone_states::Geometry;

/// A zone of a drive: its state, and its written blocks.
#[derive(Debug, Drop)]
pub struct ZoneImage {
    pub state: ZoneState,
    pub blocks: Vec<Vec<u8>>,
}

/// The logs of the zones of a drive, and after which of them torn tails stand.
#[derive(Drop)]
pub(crate) struct DriveLogs {
    pub logs: Vec<Vec<Batch>>,
    pub tails: Vec<bool>,
}

/// The blocks, and zero blocks after them up to the capacity.
fn padded(
    alloc: Global,
    geometry: &Geometry,
    mut blocks: Vec<Vec<u8>>,
) -> Result<Vec<Vec<u8>>, AllocError>
    ensures { let zeros = padding geometry.now true (length blocks.items) in
        IfOk result (λ padded. held_blocks padded.items ≡ held_blocks blocks.items ++ zeros) }
{
    for _number in blocks.len()..geometry.capacity as usize {
        blocks.push(vec![in alloc; 0; geometry.block as usize]?)?;
    }
    Ok(blocks)
}

fn is_full(state: ZoneState) -> bool
    ensures { result ≡ is_full (usage_of state) }
{
    match state {
        ZoneState::Full => true,
        _ => false,
    }
}

/// The readable blocks of a zone.
fn readable(
    alloc: Global,
    geometry: &Geometry,
    zone: &ZoneImage,
) -> Result<Vec<Vec<u8>>, AllocError>
    ensures { let all = readable geometry.now (image_content zone.now) in
        IfOk result (λ blocks. held_blocks blocks.items ≡ all) }
{
    let blocks = copied(alloc, &zone.blocks)?;
    if !is_full(zone.state) {
        return Ok(blocks);
    }
    padded(alloc, geometry, blocks)
}

/// The log of a zone, if it has one.
fn zone_log(
    alloc: Global,
    geometry: &Geometry,
    zone: &ZoneImage,
) -> Result<Option<ZoneLog>, AllocError>
    requires geometry { IsInRange geometry.now }
    requires whole { HasWholeBlocks geometry.now.block zone.now }
    ensures some { let content = image_content zone.now in
        IfOk result (λ found. IfSome found (λ log.
        IsZoneLog geometry.now content (held_log log.batches.items) log.is_torn)) }
    ensures none { let content = image_content zone.now in
        IfOk result (λ found. IfNone found (HasLog geometry.now content → ⊥)) }
{
    let blocks = readable(alloc, geometry, zone)?;
    log(alloc, &blocks, geometry.block as usize, is_full(zone.state))
}

/// The logs of all zones, if each has one.
pub(crate) fn zone_logs(
    alloc: Global,
    geometry: &Geometry,
    zones: &[ZoneImage],
) -> Result<Option<DriveLogs>, AllocError>
    requires geometry { IsInRange geometry.now }
    requires whole { AllByRecursion (HasWholeBlocks geometry.now.block) zones.now }
    ensures some { let contents = image_contents zones.now in
        IfOk result (λ found. IfSome found (λ drive.
        AreZoneLogs geometry.now contents (held_logs drive.logs.items) drive.tails.items)) }
    ensures none { let contents = image_contents zones.now in
        IfOk result (λ found. IfNone found (AllByRecursion (HasLog geometry.now) contents → ⊥)) }
{
    let mut logs = Vec::new(alloc);
    let mut tails = Vec::new(alloc);
    for zone in zones {
        let Some(log) = zone_log(alloc, geometry, zone)? else {
            return Ok(None);
        };
        logs.push(log.batches)?;
        tails.push(log.is_torn)?;
    }
    Ok(Some(DriveLogs { logs, tails }))
}
