ghost use Rattle.std.specs.List.{All};
ghost use Rattle.std.specs.Prelude.{◌≡◌, ◌≢◌, ◌<◌, ◌≤◌, ◌^◌, [], false, length, IfErr, IfNone, IfOk, IfSome, IsTrue};
ghost use Rattle.std.specs.Prelude.{OnOk};
ghost use Rattle.std.specs.Prelude.{unwrap_or};
ghost use Rattle.drive_port.specs.Contents.{SameContents, usage_of};
ghost use Rattle.drive_port.specs.Drive.{IsLawful};
ghost use Rattle.drive_survey.specs.Reported.{IsKnown, KeepsZones};
ghost use Rattle.drive_survey.specs.Scan.{AreKnown};
ghost use Rattle.tail_repair.specs.Repair.{AreIn, AreRepaired, AreWhereTold, Ascends, BatchesEnd, HaveLogs};
ghost use Rattle.tail_repair.specs.Repair.{IsElsewhere};
ghost use Rattle.tail_repair.specs.Repair.{IsMoved, IsNoneAbove, IsTold, KeepsBeside, KeepsDrive, LookFails};
ghost use Rattle.tail_repair.specs.Repair.{NoOtherEmpty};
ghost use Rattle.tail_repair.specs.Repair.{RepairFails, is_empty, may_change, moved_tails};
ghost use Rattle.tail_repair.specs.Repair.{place, tail_at, tail_of};
ghost use Rattle.zone_states.specs.Geometry.{IsInRange};

use crate::copy::{Front, Pair, compare, copy_front, finish_zone, is_copy, zone_in};
use crate::fault::{RepairFault, unfinished};
use crate::tails::{ForeignTail, batches_end, find_tails, known_zones};
use drive_port::{Device, Halt, reset};
use drive_survey::{ReadableZone, ReportedZone};
use nvme_wire::ZoneState;
use std::alloc::Global;

/// A zone that was repaired.
#[derive(Clone, Copy, Debug, PartialEq, Eq)]
pub struct MovedZone {
    /// The number of the zone.
    pub zone: u32,
    /// How many blocks its batches take.
    pub blocks: u32,
    /// The zone that they are in now. `None` if nothing was moved: the zone had no batch, and was reset; or it was
    /// finished, and its foreign blocks were zeros.
    pub into: Option<u32>,
}

fn is_empty(state: ZoneState) -> bool
    ensures { result ≡ is_empty (usage_of state) }
{
    match state {
        ZoneState::Empty => true,
        _ => false,
    }
}

/// Whether the length of a zone is that of a part of a copy.
fn may_be_copy(front: Front, to: ReadableZone) -> bool
    ensures { IsTrue result → to.number ≢ front.zone.number }
{
    to.number != front.zone.number
        && to.reported.blocks > 0
        && (to.reported.state == ZoneState::Full || to.reported.blocks <= front.blocks)
}

/// Whether a zone holds the first blocks of a front, and nothing else.
fn is_part<D: Device>(
    device: &mut D,
    front: Front,
    to: ReadableZone,
    pair: &mut Pair,
) -> Result<bool, RepairFault>
    requires from { IsKnown (D.drive device.old) front.zone.number front.zone.reported }
    requires to { IsKnown (D.drive device.old) to.number to.reported }
    requires within { front.blocks ≤ front.zone.reported.blocks }
    ensures err { IfErr result (LookFails (D.drive device.new)) }
    ensures ok { IfOk result (λ is. IsTrue is → to.number ≢ front.zone.number) }
    ensures kept { KeepsZones (D.drive device.old) (D.drive device.new) }
{
    if !may_be_copy(front, to) {
        return Ok(false);
    }
    is_copy(device, front, to, pair)
}

/// A zone that holds the first blocks of a front, and nothing else.
fn copy_of<D: Device>(
    device: &mut D,
    front: Front,
    zones: &[ReportedZone],
    pair: &mut Pair,
) -> Result<Option<u32>, RepairFault>
    requires known { AreKnown (D.drive device.old) zones.now }
    requires few { length zones.now ≤ 65536 }
    requires from { IsKnown (D.drive device.old) front.zone.number front.zone.reported }
    requires within { front.blocks ≤ front.zone.reported.blocks }
    ensures ok { IfOk result (λ found. IfSome found (λ to.
        (to < length zones.now) × (to ≢ front.zone.number))) }
    ensures err { IfErr result (LookFails (D.drive device.new)) }
    ensures kept { KeepsZones (D.drive device.old) (D.drive device.new) }
{
    for (number, reported) in zones.iter().enumerate() {
        let to = ReadableZone {
            number: number as u32,
            reported: *reported,
        };
        if is_part(device, front, to, pair)? {
            return Ok(Some(to.number));
        }
    }
    Ok(None)
}

/// The lowest Empty zone beside one.
fn lowest_empty(zones: &[ReportedZone], beside: u32) -> Option<u32>
    requires { length zones.now < 2 ^ 32 }
    ensures some { IfSome result (λ to. (to < length zones.now) × (to ≢ beside)) }
    ensures none { IfNone result (NoOtherEmpty zones.now beside) }
{
    for (number, zone) in zones.iter().enumerate() {
        if is_empty(zone.state) && number as u32 != beside {
            return Some(number as u32);
        }
    }
    None
}

/// The zone that the batches of a foreign zone go to.
fn destination<D: Device>(
    alloc: Global,
    device: &mut D,
    front: Front,
    zones: &[ReportedZone],
) -> Result<u32, RepairFault>
    requires known { AreKnown (D.drive device.old) zones.now }
    requires few { length zones.now ≤ 65536 }
    requires from { IsKnown (D.drive device.old) front.zone.number front.zone.reported }
    requires within { front.blocks ≤ front.zone.reported.blocks }
    requires some { 0 < front.blocks }
    ensures ok { IfOk result (λ to. (to < length zones.now) × (to ≢ front.zone.number)) }
    ensures err { IfErr result (RepairFails (D.drive device.old) (D.drive device.new)) }
    ensures kept { KeepsZones (D.drive device.old) (D.drive device.new) }
{
    if let Some(to) = copy_of(device, front, zones, &mut Pair::new(alloc))? {
        return Ok(to);
    }
    match lowest_empty(zones, front.zone.number) {
        Some(to) => Ok(to),
        None => Err(RepairFault::NoEmptyZone),
    }
}

/// Resets a zone of which no batch is needed: another zone begins with them, or it has none.
fn reset_moved<D: Device>(
    alloc: Global,
    device: &mut D,
    zone: u32,
    blocks: u32,
    to: Option<u32>,
) -> Result<(), RepairFault>
    requires range { IsInRange (D.drive device.old).geometry }
    requires there { zone < length (D.drive device.old).zones }
    requires ends { IsTrue (D.drive device.old).clean → BatchesEnd (D.drive device.old) zone blocks }
    requires moved { IsTrue (D.drive device.old).clean → IsMoved (D.drive device.old) zone blocks to }
    ensures there { IsTrue (D.drive device.new).clean
        → AreIn (D.drive device.old) zone (D.drive device.new) (unwrap_or to zone) }
    ensures beside { IsTrue (D.drive device.new).clean
        → KeepsBeside (D.drive device.old) (D.drive device.new) zone }
    ensures told { IfErr result (IsTold (D.drive device.new)) }
    ensures kept { KeepsDrive (D.drive device.old) (D.drive device.new) }
{
    let start = device.geometry().start_of(zone);
    reset(alloc, device, start)?;
    Ok(())
}

/// Moves the batches of a zone to another one, and resets it.
fn move_zone<D: Device>(
    alloc: Global,
    device: &mut D,
    front: Front,
    to: u32,
    first: u32,
) -> Result<(), RepairFault>
    requires range { IsInRange (D.drive device.old).geometry }
    requires lawful { IsLawful (D.drive device.old) }
    requires zone { front.zone.number < length (D.drive device.old).zones }
    requires there { to < length (D.drive device.old).zones }
    requires apart { to ≢ front.zone.number }
    requires ends { IsTrue (D.drive device.old).clean
        → BatchesEnd (D.drive device.old) front.zone.number front.blocks }
    ensures there { IsTrue (D.drive device.new).clean
        → OnOk result (AreIn (D.drive device.old) front.zone.number (D.drive device.new) to) }
    ensures beside { IsTrue (D.drive device.new).clean
        → KeepsBeside (D.drive device.old) (D.drive device.new) front.zone.number }
    ensures told { IfErr result (IsTold (D.drive device.new)) }
    ensures kept { KeepsDrive (D.drive device.old) (D.drive device.new) }
{
    copy_front(alloc, device, front, to, first)?;
    compare(alloc, device, front.zone.number, front.blocks, to)?;
    reset_moved(alloc, device, front.zone.number, front.blocks, Some(to))
}

/// Whether a zone is one of these above another.
fn is_later(tails: &[ForeignTail], zone: u32, to: u32) -> bool
    ensures { result ≡ false → IsNoneAbove tails.now zone to }
{
    for tail in tails {
        if tail.zone > zone && tail.zone == to {
            return true;
        }
    }
    false
}

/// Mends a zone that is Full now: its batches, which take so many blocks, go elsewhere, unless only zeros follow them.
fn mend_zone<D: Device>(
    alloc: Global,
    device: &mut D,
    front: Front,
    zones: &[ReportedZone],
    tails: &[ForeignTail],
) -> Result<MovedZone, RepairFault>
    requires known { AreKnown (D.drive device.old) zones.now }
    requires few { length zones.now ≤ 65536 }
    requires zone { IsKnown (D.drive device.old) front.zone.number front.zone.reported }
    ensures tail { IfOk result (λ moved. tail_of moved ≡ tail_at front.zone.number front.blocks) }
    ensures elsewhere { IfOk result IsElsewhere }
    ensures apart { IfOk result (λ moved. IsNoneAbove tails.now front.zone.number (place moved)) }
    ensures there { IsTrue (D.drive device.new).clean
        → IfOk result (AreWhereTold (D.drive device.old) (D.drive device.new)) }
    ensures beside { IsTrue (D.drive device.new).clean
        → KeepsBeside (D.drive device.old) (D.drive device.new) front.zone.number }
    ensures told { IsTrue (D.drive device.new).clean → IfErr result (IsTold (D.drive device.new)) }
    ensures kept { KeepsDrive (D.drive device.old) (D.drive device.new) }
{
    let zone = front.zone.number;
    let blocks = front.blocks;
    let moved = MovedZone {
        zone,
        blocks,
        into: None,
    };
    let end = batches_end(alloc, device, front.zone, &mut Vec::new(alloc))?;
    if end.blocks != blocks {
        return Err(RepairFault::Unfinished);
    }
    if blocks == 0 {
        reset_moved(alloc, device, zone, blocks, None)?;
        return Ok(moved);
    }
    if !end.is_foreign {
        return Ok(moved);
    }
    if blocks > front.zone.reported.blocks {
        return Err(RepairFault::Unfinished);
    }
    let to = destination(alloc, device, front, zones)?;
    if is_later(tails, zone, to) {
        return Err(RepairFault::Unfinished);
    }
    let first = zones[to as usize].blocks.min(blocks);
    move_zone(alloc, device, front, to, first)?;
    Ok(MovedZone {
        into: Some(to),
        ..moved
    })
}

/// Repairs a zone whose batches are followed by something foreign, one of these. Its batches go to none of those that
/// are left.
fn repair_tail<D: Device>(
    alloc: Global,
    device: &mut D,
    tail: ForeignTail,
    tails: &[ForeignTail],
) -> Result<MovedZone, RepairFault>
    requires range { IsInRange (D.drive device.old).geometry }
    requires lawful { IsLawful (D.drive device.old) }
    requires there { tail.zone < length (D.drive device.old).zones }
    ensures tail { IfOk result (λ moved. tail_of moved ≡ tail) }
    ensures elsewhere { IfOk result IsElsewhere }
    ensures apart { IfOk result (λ moved. IsNoneAbove tails.now tail.zone (place moved)) }
    ensures there { IsTrue (D.drive device.new).clean
        → IfOk result (AreWhereTold (D.drive device.old) (D.drive device.new)) }
    ensures beside { IsTrue (D.drive device.new).clean
        → KeepsBeside (D.drive device.old) (D.drive device.new) tail.zone }
    ensures told { IsTrue (D.drive device.new).clean → IfErr result (IsTold (D.drive device.new)) }
    ensures kept { KeepsDrive (D.drive device.old) (D.drive device.new) }
{
    finish_zone(alloc, device, tail.zone)?;
    let zones = known_zones(alloc, device)?;
    let Some(zone) = zone_in(&zones, tail.zone) else {
        return Err(RepairFault::Unfinished);
    };
    let front = Front {
        zone,
        blocks: tail.blocks,
    };
    mend_zone(alloc, device, front, &zones, tails)
}

/// Refuses a drive that has no room for the batches of a foreign zone. One zone is enough for all: each one that is
/// mended is Empty.
fn check_room<D: Device>(
    alloc: Global,
    device: &mut D,
    tail: ForeignTail,
) -> Result<(), RepairFault>
    ensures err { IfErr result (RepairFails (D.drive device.old) (D.drive device.new)) }
    ensures kept { KeepsZones (D.drive device.old) (D.drive device.new) }
{
    let zones = known_zones(alloc, device)?;
    if tail.blocks == 0 {
        return Ok(());
    }
    let Some(zone) = zone_in(&zones, tail.zone) else {
        return Err(RepairFault::Unfinished);
    };
    if tail.blocks > zone.reported.blocks {
        return Err(RepairFault::Unfinished);
    }
    let front = Front {
        zone,
        blocks: tail.blocks,
    };
    destination(alloc, device, front, &zones)?;
    Ok(())
}

/// Repairs these zones, one after the other.
fn repair_each<D: Device>(
    alloc: Global,
    device: &mut D,
    tails: &[ForeignTail],
) -> Result<Vec<MovedZone>, RepairFault>
    requires range { IsInRange (D.drive device.old).geometry }
    requires lawful { IsLawful (D.drive device.old) }
    requires ascends { IsTrue (D.drive device.old).clean → Ascends tails.now }
    ensures tails { IfOk result (λ moved. moved_tails moved.items ≡ tails.now) }
    ensures elsewhere { IfOk result (λ moved. All IsElsewhere moved.items) }
    ensures there { IsTrue (D.drive device.new).clean
        → IfOk result (λ moved. All (AreWhereTold (D.drive device.old) (D.drive device.new)) moved.items) }
    ensures told { IsTrue (D.drive device.new).clean → IfErr result (IsTold (D.drive device.new)) }
    ensures kept { KeepsDrive (D.drive device.old) (D.drive device.new) }
{
    let mut moved = Vec::new(alloc);
    for tail in tails {
        if tail.zone >= device.geometry().zones {
            return Err(RepairFault::Unfinished);
        }
        let one = repair_tail(alloc, device, *tail, tails)?;
        if moved.push(one).is_err() {
            return Err(RepairFault::Halted(Halt::Memory));
        }
    }
    Ok(moved)
}

/// Repairs these zones, and looks whether each zone holds a log now.
fn repair_all<D: Device>(
    alloc: Global,
    device: &mut D,
    tails: &[ForeignTail],
) -> Result<Vec<MovedZone>, RepairFault>
    requires range { IsInRange (D.drive device.old).geometry }
    requires lawful { IsLawful (D.drive device.old) }
    requires ascends { IsTrue (D.drive device.old).clean → Ascends tails.now }
    ensures ok { IsTrue (D.drive device.new).clean → OnOk result (HaveLogs (D.drive device.new)) }
    ensures tails { IfOk result (λ moved. moved_tails moved.items ≡ tails.now) }
    ensures elsewhere { IfOk result (λ moved. All IsElsewhere moved.items) }
    ensures there { IsTrue (D.drive device.new).clean
        → IfOk result (λ moved. All (AreWhereTold (D.drive device.old) (D.drive device.new)) moved.items) }
    ensures told { IsTrue (D.drive device.new).clean → IfErr result (IsTold (D.drive device.new)) }
    ensures kept { KeepsDrive (D.drive device.old) (D.drive device.new) }
{
    let moved = repair_each(alloc, device, tails)?;
    if !find_tails(alloc, device)?.is_empty() {
        return Err(RepairFault::Unfinished);
    }
    Ok(moved)
}

/// Repairs each zone whose batches are followed by something foreign. The answer has these zones in ascending order;
/// it is empty where there was none, and then nothing was sent but what [`find_tails`] sends.
pub fn repair_tails<D: Device>(alloc: Global, device: &mut D) -> Result<Vec<MovedZone>, RepairFault>
    // Done, each zone holds a log.
    ensures ok { IsTrue (D.drive device.new).clean → OnOk result (HaveLogs (D.drive device.new)) }
    // The answer names just the zones that held no log, in their order, and how many blocks their batches take.
    ensures found { IsTrue (D.drive device.new).clean
        → IfOk result (λ moved. AreRepaired (D.drive device.old) moved.items) }
    // Where it names none, no zone is changed.
    ensures idle { IfOk result (λ moved. moved.items ≡ []
        → SameContents (D.drive device.old) (D.drive device.new)) }
    // What was moved is in another zone, and that one begins with it now.
    ensures elsewhere { IfOk result (λ moved. All IsElsewhere moved.items) }
    ensures there { IsTrue (D.drive device.new).clean
        → IfOk result (λ moved. All (AreWhereTold (D.drive device.old) (D.drive device.new)) moved.items) }
    // A fault has its cause.
    ensures err { IsTrue (D.drive device.new).clean
        → IfErr result (RepairFails (D.drive device.old) (D.drive device.new)) }
    // A refusal changes no zone.
    ensures refused { IfErr result (λ fault. may_change fault ≡ false
        → SameContents (D.drive device.old) (D.drive device.new)) }
    // Whatever it answers, the batches with which a zone began, some zone begins with.
    ensures kept { KeepsDrive (D.drive device.old) (D.drive device.new) }
{
    let tails = find_tails(alloc, device)?;
    if tails.is_empty() {
        return Ok(Vec::new(alloc));
    }
    check_room(alloc, device, tails[0])?;
    match repair_all(alloc, device, &tails) {
        Ok(moved) => Ok(moved),
        Err(fault) => Err(unfinished(fault)),
    }
}
