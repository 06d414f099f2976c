ghost use Rattle.std.specs.Prelude.{◌≡◌, ◌+◌, ◌*◌, ◌<◌, ◌≤◌, ℕ, List, Option, length, replicate, IfErr, IfNone};
ghost use Rattle.std.specs.Prelude.{IfOk, IfSome, IsSome, IsTrue, OnOk};
ghost use Rattle.std.specs.Option.{option_map};
ghost use Rattle.batch_log.specs.Log.{Batch};
ghost use Rattle.drive_array.specs.Records.{Record, shown};
ghost use Rattle.drive_survey.specs.Clearing.{AreRivals, IfStands, LooksFor, ShowsSame, TellsRivals};
ghost use Rattle.drive_survey.specs.KeptRecords.{kept_record};
ghost use Rattle.drive_survey.specs.Reported.{KeepsZones};
ghost use Rattle.drive_survey.specs.BlockRecords.{HoldsRecords, held_of, own_of};
ghost use Rattle.drive_survey.specs.Scan.{AreKnown, IsInterruption, block_of, readable_at};

use crate::clearing::block_records::BlockRecords;
use crate::fault::MountFault;
use crate::records::KeptRecord;
use crate::reported::ReportedZone;
use crate::scan::{ReadableZone, read_block};
use drive_port::Device;
use std::alloc::{AllocError, Global};

/// Two blocks that are compared.
#[derive(Drop)]
pub(crate) struct Buffers {
    first: Vec<u8>,
    second: Vec<u8>,
}

impl Buffers {
    /// No block is read yet.
    pub(crate) fn new(alloc: Global) -> Buffers {
        Buffers {
            first: Vec::new(alloc),
            second: Vec::new(alloc),
        }
    }
}

/// Records of a block, of which the newest one is in a zone.
#[derive(Clone, Copy, Debug, PartialEq, Eq)]
pub(crate) struct Rivals {
    newest: KeptRecord,
    /// The newest one outside the zone.
    other: Option<KeptRecord>,
}

/// Makes a buffer a block of zeros.
fn write_zeros(bytes: u32, into: &mut Vec<u8>) -> Result<(), AllocError>
    ensures { OnOk result (into.new.items ≡ replicate bytes 0) }
{
    into.clear();
    into.resize(bytes as usize, 0)
}

/// Reads the data of a record, if its place is among the readable blocks of the zones.
fn read_data<D: Device>(
    device: &mut D,
    zones: &[ReportedZone],
    found: KeptRecord,
    into: &mut Vec<u8>,
) -> Result<(), MountFault>
    requires zones { AreKnown (D.drive device.old) zones.now }
    ensures ok { IsTrue (D.drive device.new).clean → OnOk result (found.zone < length (D.drive device.old).zones
        → found.offset < length (readable_at (D.drive device.old) found.zone)
        → into.new.items ≡ block_of (D.drive device.old) found.zone found.offset) }
    // It fails only if the drive stops or memory runs out. One command at most is sent. Zones hold what they held.
    ensures err { IfErr result (IsInterruption (D.drive device.new)) }
    ensures kept { KeepsZones (D.drive device.old) (D.drive device.new) }
    ensures completed { (D.drive device.new).completed ≤ (D.drive device.old).completed + 1 }
{
    let Some(reported) = zones.get(found.zone as usize) else {
        return Ok(());
    };
    if found.offset >= reported.blocks as u64 {
        return Ok(());
    }
    let zone = ReadableZone {
        number: found.zone,
        reported: *reported,
    };
    read_block(device, zone, found.offset as u32, into)
}

/// Reads what a record shows of its block: its data, or zeros of a trim and where there is no record.
fn read_shown<D: Device>(
    device: &mut D,
    zones: &[ReportedZone],
    kept: Option<KeptRecord>,
    into: &mut Vec<u8>,
) -> Result<(), MountFault>
    requires zones { AreKnown (D.drive device.old) zones.now }
    ensures ok { IsTrue (D.drive device.new).clean
        → OnOk result ((found : Option Record) → kept ≡ option_map kept_record found
        → IfStands (D.drive device.old) found → into.new.items ≡ shown (D.drive device.old).geometry.block found) }
    // It fails only if the drive stops or memory runs out. One command at most is sent. Zones hold what they held.
    ensures err { IfErr result (IsInterruption (D.drive device.new)) }
    ensures kept { KeepsZones (D.drive device.old) (D.drive device.new) }
    ensures completed { (D.drive device.new).completed ≤ (D.drive device.old).completed + 1 }
{
    if let Some(found) = kept {
        if !found.trim {
            return read_data(device, zones, found, into);
        }
    }
    write_zeros(device.geometry().block, into)?;
    Ok(())
}

/// Whether two records of a block show the same.
fn show_same<D: Device>(
    device: &mut D,
    zones: &[ReportedZone],
    rivals: Rivals,
    buffers: &mut Buffers,
) -> Result<bool, MountFault>
    requires zones { AreKnown (D.drive device.old) zones.now }
    ensures ok { IsTrue (D.drive device.new).clean → IfOk result (TellsRivals (D.drive device.old) rivals) }
    // It fails only if the drive stops or memory runs out. Two commands at most are sent. Zones hold what they held.
    ensures err { IfErr result (IsInterruption (D.drive device.new)) }
    ensures kept { KeepsZones (D.drive device.old) (D.drive device.new) }
    ensures completed { (D.drive device.new).completed ≤ (D.drive device.old).completed + 2 }
{
    read_shown(device, zones, Some(rivals.newest), &mut buffers.first)?;
    read_shown(device, zones, rivals.other, &mut buffers.second)?;
    if buffers.first == buffers.second {
        return Ok(true);
    }
    Ok(false)
}

/// The newest record of a block and the newest one outside a zone, if the newest is in the zone.
fn rivals_of(table: &BlockRecords, zone: u32, block: u32) -> Option<Rivals>
    ensures some { IfSome result (λ rivals. (logs : List (List Batch)) → HoldsRecords logs table.now
        → IsSome (held_of table.now block) → AreRivals logs zone block rivals) }
    ensures none { IfNone result ((block_bytes : ℕ) (logs : List (List Batch)) → HoldsRecords logs table.now
        → IsSome (held_of table.now block) → ShowsSame block_bytes logs zone block) }
{
    let Some(newest) = table.newest(block) else {
        return None;
    };
    if newest.zone != zone {
        return None;
    }
    let other = table.newest_outside(block, zone);
    Some(Rivals { newest, other })
}

/// The first block that a zone names and that shows something else without it, by the newest records of the zone that
/// the table keeps. Only blocks whose newest record is in the zone are read, by two Reads at most.
pub(crate) fn first_needed<D: Device>(
    device: &mut D,
    zones: &[ReportedZone],
    table: &BlockRecords,
    zone: u32,
    buffers: &mut Buffers,
) -> Result<Option<u32>, MountFault>
    requires zones { AreKnown (D.drive device.old) zones.now }
    // Done, the block is right, if the table holds all records of the blocks of this zone.
    ensures ok { IsTrue (D.drive device.new).clean → IfOk result (LooksFor (D.drive device.old) table.now zone) }
    // It fails only if the drive stops or memory runs out. Whatever it answers, zones hold what they held.
    ensures err { IfErr result (IsInterruption (D.drive device.new)) }
    ensures kept { KeepsZones (D.drive device.old) (D.drive device.new) }
    // It takes two commands at most for each record that is kept of the zone.
    ensures completed { (D.drive device.new).completed
        ≤ (D.drive device.old).completed + 2 * length (own_of table.now zone) }
{
    let Some(own) = table.own.get(&zone) else {
        return Ok(None);
    };
    for found in own.iter() {
        let Some(rivals) = rivals_of(table, zone, found.block) else {
            continue;
        };
        if !show_same(device, zones, rivals, buffers)? {
            return Ok(Some(found.block));
        }
    }
    Ok(None)
}
