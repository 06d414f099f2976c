ghost use Rattle.std.specs.Prelude.{◌≡◌, ◌<◌, ◌≤◌, length, slice_get, Some, IfErr, IfOk, IfSome, IsTrue, OnOk};
ghost use Rattle.batch_log.specs.Causes.{is_zero};
ghost use Rattle.drive_port.specs.Drive.{IsLawful};
ghost use Rattle.drive_survey.specs.Reported.{IsKnown, KeepsZones};
ghost use Rattle.tail_repair.specs.Repair.{Agrees, Extends, HasCopy, IsCopy, IsTold, LookFails};
ghost use Rattle.zone_states.specs.Geometry.{IsInRange};

use crate::fault::RepairFault;
use crate::tails::known_zones;
use drive_port::{Device, append, finish, read};
use drive_survey::{ReadableZone, ReportedZone, read_block};
use std::alloc::Global;

/// The first blocks of a zone, which are to be in another one.
#[derive(Clone, Copy, Debug, PartialEq, Eq)]
pub(crate) struct Front {
    pub(crate) zone: ReadableZone,
    /// How many blocks they are.
    pub(crate) blocks: u32,
}

/// Two buffers for blocks that are compared.
#[derive(Drop)]
pub(crate) struct Pair {
    pub(crate) one: Vec<u8>,
    pub(crate) other: Vec<u8>,
}

fn is_zero(bytes: &[u8]) -> bool
    ensures { result ≡ is_zero bytes.now }
{
    bytes.iter().all(|byte| *byte == 0)
}

/// Whether a block of a zone is that of a front; past its end, whether it is zeros.
fn agrees<D: Device>(
    device: &mut D,
    front: Front,
    to: ReadableZone,
    offset: u32,
    pair: &mut Pair,
) -> Result<bool, RepairFault>
    requires from { IsKnown (D.drive device.old) front.zone.number front.zone.reported }
    requires to { IsKnown (D.drive device.old) to.number to.reported }
    requires within { front.blocks ≤ front.zone.reported.blocks }
    requires there { offset < to.reported.blocks }
    ensures ok { IsTrue (D.drive device.new).clean → IfOk result (λ agrees. IsTrue agrees
        → Agrees (D.drive device.old) front.zone.number front.blocks to.number offset) }
    ensures err { IfErr result (LookFails (D.drive device.new)) }
    ensures kept { KeepsZones (D.drive device.old) (D.drive device.new) }
{
    read_block(device, to, offset, &mut pair.one)?;
    if offset >= front.blocks {
        return Ok(is_zero(&pair.one));
    }
    read_block(device, front.zone, offset, &mut pair.other)?;
    Ok(pair.one == pair.other)
}

/// Whether a zone holds the first of these blocks, and nothing else.
pub(crate) fn is_copy<D: Device>(
    device: &mut D,
    front: Front,
    to: ReadableZone,
    pair: &mut Pair,
) -> Result<bool, RepairFault>
    requires from { IsKnown (D.drive device.old) front.zone.number front.zone.reported }
    requires to { IsKnown (D.drive device.old) to.number to.reported }
    requires within { front.blocks ≤ front.zone.reported.blocks }
    ensures ok { IsTrue (D.drive device.new).clean → IfOk result (λ is. IsTrue is
        → IsCopy (D.drive device.old) front.zone.number front.blocks to.number) }
    ensures err { IfErr result (LookFails (D.drive device.new)) }
    ensures kept { KeepsZones (D.drive device.old) (D.drive device.new) }
{
    for offset in 0..to.reported.blocks {
        if !agrees(device, front, to, offset, pair)? {
            return Ok(false);
        }
    }
    Ok(true)
}

/// Appends some blocks of a zone to another, from one of them on. It answers which is the next.
fn copy_some<D: Device>(
    alloc: Global,
    device: &mut D,
    front: Front,
    to: u32,
    next: u32,
) -> Result<u32, RepairFault>
    requires range { IsInRange (D.drive device.old).geometry }
    requires lawful { IsLawful (D.drive device.old) }
    requires there { to < length (D.drive device.old).zones }
    requires left { next < front.blocks }
    ensures ok { IfOk result (λ then. (next < then) × (then ≤ front.blocks)) }
    ensures told { IfErr result (IsTold (D.drive device.new)) }
    ensures kept { Extends (D.drive device.old) (D.drive device.new) to }
{
    let geometry = device.geometry();
    let count = (front.blocks - next).min(geometry.transfer);
    let address = geometry.start_of(front.zone.number) + next as u64;
    let mut bytes = Vec::new(alloc);
    read(device, address, count, &mut bytes)?;
    append(alloc, device, geometry.start_of(to), &bytes)?;
    Ok(next + count)
}

/// Appends blocks of a zone to another, from one of them on.
fn copy_blocks<D: Device>(
    alloc: Global,
    device: &mut D,
    front: Front,
    to: u32,
    first: u32,
) -> Result<(), RepairFault>
    requires range { IsInRange (D.drive device.old).geometry }
    requires lawful { IsLawful (D.drive device.old) }
    requires there { to < length (D.drive device.old).zones }
    ensures told { IfErr result (IsTold (D.drive device.new)) }
    ensures kept { Extends (D.drive device.old) (D.drive device.new) to }
{
    let mut next = first;
    while next < front.blocks {
        next = copy_some(alloc, device, front, to, next)?;
    }
    Ok(())
}

/// Makes a zone Full, with the blocks that it has.
pub(crate) fn finish_zone<D: Device>(
    alloc: Global,
    device: &mut D,
    zone: u32,
) -> Result<(), RepairFault>
    requires range { IsInRange (D.drive device.old).geometry }
    requires lawful { IsLawful (D.drive device.old) }
    requires there { zone < length (D.drive device.old).zones }
    ensures told { IfErr result (IsTold (D.drive device.new)) }
    ensures kept { Extends (D.drive device.old) (D.drive device.new) zone }
{
    let start = device.geometry().start_of(zone);
    finish(alloc, device, start)?;
    Ok(())
}

/// Moves a front to a zone that has the first blocks of it already, `first` in number. That zone is made Full.
pub(crate) fn copy_front<D: Device>(
    alloc: Global,
    device: &mut D,
    front: Front,
    to: u32,
    first: u32,
) -> Result<(), RepairFault>
    requires range { IsInRange (D.drive device.old).geometry }
    requires lawful { IsLawful (D.drive device.old) }
    requires there { to < length (D.drive device.old).zones }
    ensures told { IfErr result (IsTold (D.drive device.new)) }
    ensures kept { Extends (D.drive device.old) (D.drive device.new) to }
{
    copy_blocks(alloc, device, front, to, first)?;
    finish_zone(alloc, device, to)
}

/// Compares the front of a zone with the zone that it was copied to, as they are reported now.
pub(crate) fn compare<D: Device>(
    alloc: Global,
    device: &mut D,
    zone: u32,
    blocks: u32,
    to: u32,
) -> Result<(), RepairFault>
    ensures ok { IsTrue (D.drive device.new).clean
        → OnOk result (HasCopy (D.drive device.old) zone blocks to) }
    ensures told { IfErr result (IsTold (D.drive device.new)) }
    ensures kept { KeepsZones (D.drive device.old) (D.drive device.new) }
{
    let zones = known_zones(alloc, device)?;
    let (Some(from), Some(copy)) = (zone_in(&zones, zone), zone_in(&zones, to)) else {
        return Err(RepairFault::Unfinished);
    };
    if from.reported.blocks < blocks || copy.reported.blocks < blocks {
        return Err(RepairFault::Unfinished);
    }
    let front = Front { zone: from, blocks };
    if !is_copy(device, front, copy, &mut Pair::new(alloc))? {
        return Err(RepairFault::Unfinished);
    }
    Ok(())
}

/// A zone with what is reported of it.
pub(crate) fn zone_in(zones: &[ReportedZone], number: u32) -> Option<ReadableZone>
    ensures { IfSome result (λ zone. (zone.number ≡ number)
        × (slice_get zones.now number ≡ Some zone.reported)) }
{
    let reported = zones.get(number as usize)?;
    Some(ReadableZone {
        number,
        reported: *reported,
    })
}

impl Pair {
    pub(crate) fn new(alloc: Global) -> Pair {
        Pair {
            one: Vec::new(alloc),
            other: Vec::new(alloc),
        }
    }
}
