ghost use Rattle.std.specs.Prelude.{◌≡◌, ◌<◌, ◌≤◌, ◌^◌, length, IfErr, IfNone, IfOk, IfSome, IsTrue, OnOk, Some};
ghost use Rattle.drive_port.specs.Contents.{is_usable, usage_of};
ghost use Rattle.drive_survey.specs.Reported.{IsKnown, KeepsZones};
ghost use Rattle.drive_survey.specs.Scan.{AreKnown};
ghost use Rattle.drive_survey.specs.Survey.{AreReportedUsable, IsLowestReported};
ghost use Rattle.tail_repair.specs.Repair.{AreTails, EndsAt, FindFails, HeadersEnd, LogEnds, NotesTail, TailIs};
ghost use Rattle.tail_repair.specs.Repair.{foreign_end};
ghost use Rattle.zone_states.specs.Geometry.{IsInRange};

use crate::fault::RepairFault;
use batch_log::read_header;
use drive_port::{Device, Halt};
use drive_survey::{MountFault, ReadableZone, ReportedZone, read_block, report_zones, scan_zone};
use nvme_wire::ZoneState;
use std::alloc::Global;
use std::collections::BTreeSet;

/// A zone whose batches are followed by something foreign.
#[derive(Clone, Copy, Debug, PartialEq, Eq)]
pub struct ForeignTail {
    /// The number of the zone.
    pub zone: u32,
    /// How many blocks its batches take.
    pub blocks: u32,
}

fn is_usable(zone: ReportedZone) -> bool
    ensures { result ≡ is_usable (usage_of zone.state) }
{
    match zone.state {
        ZoneState::ReadOnly | ZoneState::Offline => false,
        _ => true,
    }
}

/// The lowest zone that is Read Only or Offline.
fn lowest_unusable(zones: &[ReportedZone]) -> Option<u32>
    requires { length zones.now < 2 ^ 32 }
    ensures some { IfSome result (IsLowestReported zones.now) }
    ensures none { IfNone result (AreReportedUsable zones.now) }
{
    for (number, zone) in zones.iter().enumerate() {
        if !is_usable(*zone) {
            return Some(number as u32);
        }
    }
    None
}

/// A report of all zones, none of which is Read Only or Offline.
pub(crate) fn known_zones<D: Device>(
    alloc: Global,
    device: &mut D,
) -> Result<Vec<ReportedZone>, RepairFault>
    ensures ok { IfOk result (λ zones. AreKnown (D.drive device.new) zones.items) }
    ensures few { IfOk result (λ zones. length zones.items ≤ 65536) }
    ensures err { IfErr result (FindFails (D.drive device.old) (D.drive device.new)) }
    ensures kept { KeepsZones (D.drive device.old) (D.drive device.new) }
{
    let Ok(()) = device.geometry().check() else {
        return Err(RepairFault::Limits);
    };
    let zones = report_zones(alloc, device)?;
    if let Some(zone) = lowest_unusable(&zones) {
        return Err(RepairFault::Unusable(zone));
    }
    Ok(zones)
}

/// Where the batches of a zone end.
#[derive(Clone, Copy)]
pub(crate) struct BatchEnd {
    /// How many blocks they take.
    pub(crate) blocks: u32,
    /// Whether something foreign follows. Else the zone holds a log.
    pub(crate) is_foreign: bool,
}

/// Where the batches of a zone end whose scan failed.
fn foreign_end(zone: u32, fault: MountFault) -> Result<BatchEnd, RepairFault>
    ensures { result ≡ foreign_end zone fault }
{
    match fault {
        MountFault::Log(_, blocks, _) => Ok(BatchEnd {
            blocks,
            is_foreign: true,
        }),
        MountFault::SequenceRepeated | MountFault::Spent => Err(RepairFault::Unsound(zone)),
        MountFault::OutOfMemory => Err(RepairFault::Halted(Halt::Memory)),
        MountFault::Halted => Err(RepairFault::Halted(Halt::Stopped)),
        MountFault::Failed => Err(RepairFault::Halted(Halt::Failed)),
        _ => Err(RepairFault::Unfinished),
    }
}

/// Where the batches of a zone end, and whether something foreign follows.
pub(crate) fn batches_end<D: Device>(
    alloc: Global,
    device: &mut D,
    zone: ReadableZone,
    block: &mut Vec<u8>,
) -> Result<BatchEnd, RepairFault>
    requires zone { IsKnown (D.drive device.old) zone.number zone.reported }
    ensures ok { IsTrue (D.drive device.new).clean
        → IfOk result (λ end. EndsAt (D.drive device.old) zone.number end.blocks end.is_foreign) }
    ensures err { IsTrue (D.drive device.new).clean
        → IfErr result (FindFails (D.drive device.old) (D.drive device.new)) }
    ensures kept { KeepsZones (D.drive device.old) (D.drive device.new) }
{
    let mut seen = BTreeSet::new(alloc);
    match scan_zone(alloc, device, zone, &mut seen, block) {
        Ok(scanned) => Ok(BatchEnd {
            blocks: scanned.heads.blocks(),
            is_foreign: false,
        }),
        Err(fault) => foreign_end(zone.number, fault),
    }
}

/// Refuses a zone in which a header is behind the first foreign block.
fn refuse_headers<D: Device>(
    device: &mut D,
    zone: ReadableZone,
    blocks: u32,
    block: &mut Vec<u8>,
) -> Result<(), RepairFault>
    requires zone { IsKnown (D.drive device.old) zone.number zone.reported }
    requires ends { IsTrue (D.drive device.old).clean
        → LogEnds (D.drive device.old) zone.number (Some blocks) }
    ensures ok { IsTrue (D.drive device.new).clean
        → OnOk result (HeadersEnd (D.drive device.old) zone.number blocks) }
    ensures err { IsTrue (D.drive device.new).clean
        → IfErr result (FindFails (D.drive device.old) (D.drive device.new)) }
    ensures kept { KeepsZones (D.drive device.old) (D.drive device.new) }
{
    for offset in blocks.saturating_add(1)..zone.reported.blocks {
        read_block(device, zone, offset, block)?;
        if read_header(block).is_ok() {
            return Err(RepairFault::Behind(zone.number, offset));
        }
    }
    Ok(())
}

/// How many blocks the batches of a zone take, if something foreign follows, and no header behind it.
fn find_tail<D: Device>(
    alloc: Global,
    device: &mut D,
    zone: ReadableZone,
    block: &mut Vec<u8>,
) -> Result<Option<u32>, RepairFault>
    requires zone { IsKnown (D.drive device.old) zone.number zone.reported }
    ensures ok { IsTrue (D.drive device.new).clean → IfOk result (TailIs (D.drive device.old) zone.number) }
    ensures err { IsTrue (D.drive device.new).clean
        → IfErr result (FindFails (D.drive device.old) (D.drive device.new)) }
    ensures kept { KeepsZones (D.drive device.old) (D.drive device.new) }
{
    let end = batches_end(alloc, device, zone, block)?;
    if !end.is_foreign {
        return Ok(None);
    }
    refuse_headers(device, zone, end.blocks, block)?;
    Ok(Some(end.blocks))
}

/// Looks at one zone, and notes it if its batches are followed by something foreign.
fn note_tail<D: Device>(
    alloc: Global,
    device: &mut D,
    zone: ReadableZone,
    block: &mut Vec<u8>,
    tails: &mut Vec<ForeignTail>,
) -> Result<(), RepairFault>
    requires zone { IsKnown (D.drive device.old) zone.number zone.reported }
    ensures ok { IsTrue (D.drive device.new).clean → OnOk result (NotesTail (D.drive device.old) zone.number
        tails.old.items tails.new.items) }
    ensures err { IsTrue (D.drive device.new).clean
        → IfErr result (FindFails (D.drive device.old) (D.drive device.new)) }
    ensures kept { KeepsZones (D.drive device.old) (D.drive device.new) }
{
    if let Some(blocks) = find_tail(alloc, device, zone, block)? {
        let tail = ForeignTail {
            zone: zone.number,
            blocks,
        };
        if tails.push(tail).is_err() {
            return Err(RepairFault::Halted(Halt::Memory));
        }
    }
    Ok(())
}

/// The zones among all that are reported whose batches are followed by something foreign.
fn note_tails<D: Device>(
    alloc: Global,
    device: &mut D,
    zones: &[ReportedZone],
) -> Result<Vec<ForeignTail>, RepairFault>
    requires known { AreKnown (D.drive device.old) zones.now }
    requires few { length zones.now ≤ 65536 }
    ensures ok { IsTrue (D.drive device.new).clean
        → IfOk result (λ tails. AreTails (D.drive device.old) tails.items) }
    ensures err { IsTrue (D.drive device.new).clean
        → IfErr result (FindFails (D.drive device.old) (D.drive device.new)) }
    ensures kept { KeepsZones (D.drive device.old) (D.drive device.new) }
{
    let mut block = Vec::new(alloc);
    let mut tails = Vec::new(alloc);
    for (number, reported) in zones.iter().enumerate() {
        let zone = ReadableZone {
            number: number as u32,
            reported: *reported,
        };
        note_tail(alloc, device, zone, &mut block, &mut tails)?;
    }
    Ok(tails)
}

/// The zones whose batches are followed by something foreign, in ascending order. The drive is only read: one report,
/// the header of each batch, and the foreign blocks. After a halt that is no stop, the search can be made again.
pub fn find_tails<D: Device>(alloc: Global, device: &mut D) -> Result<Vec<ForeignTail>, RepairFault>
    ensures range { OnOk result (IsInRange (D.drive device.new).geometry) }
    // Done, these are just the zones that hold no log, in their order.
    ensures ok { IsTrue (D.drive device.new).clean
        → IfOk result (λ tails. AreTails (D.drive device.old) tails.items) }
    // A fault has its cause.
    ensures err { IsTrue (D.drive device.new).clean
        → IfErr result (FindFails (D.drive device.old) (D.drive device.new)) }
    ensures kept { KeepsZones (D.drive device.old) (D.drive device.new) }
{
    let zones = known_zones(alloc, device)?;
    note_tails(alloc, device, &zones)
}
