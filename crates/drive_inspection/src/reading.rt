ghost use Rattle.std.specs.Prelude.{◌≡◌, true, IfErr, IfOk, IsTrue, length};
ghost use Rattle.drive_port.specs.Contents.{is_usable, usage_of};
ghost use Rattle.drive_survey.specs.Reported.{IsKnown, KeepsZones};
ghost use Rattle.drive_survey.specs.Scan.{IsInterruption};
ghost use Rattle.drive_inspection.specs.Found.{IsEnd};
ghost use Rattle.drive_inspection.specs.Reads.{AreReads, AreTelling, AreTold, IsTelling, IsTold, ReadsAlone};

use crate::lists::is_unusable;
use drive_port::Device;
use drive_survey::{MountFault, ReadableZone, ReportedZone, ScannedZone, scan_zone};
use std::alloc::Global;
use std::collections::BTreeSet;

/// What was read of a zone by itself.
#[derive(Drop)]
pub enum ZoneReading {
    /// The headers of its batches, which have no fault.
    Log(ScannedZone),
    /// The first fault of its batches.
    Fault(MountFault),
    /// Nothing: it is Read Only or Offline.
    Unusable,
    /// Not all: the drive failed at a command.
    Unread,
}

/// Reads the batches of a zone by themselves. It is not Read Only or Offline.
fn read_usable<D: Device>(
    alloc: Global,
    device: &mut D,
    zone: ReadableZone,
    block: &mut Vec<u8>,
) -> Result<ZoneReading, MountFault>
    requires zone { IsKnown (D.drive device.old) zone.number zone.reported }
    // While the drive is clean: done, these are the headers of the zone, or the first fault of its batches, or the
    // drive failed. It is given up only if the drive stops or memory runs out.
    ensures ok { IsTrue (D.drive device.new).clean
        → IfOk result (ReadsAlone (D.drive device.old) (D.drive device.new) zone.number) }
    ensures err { IsTrue (D.drive device.new).clean → IfErr result (IsInterruption (D.drive device.new)) }
    // Whatever the Reads returned, the fault of a zone tells something of what the drive holds. It is not given up for
    // a command that failed. Zones hold what they held.
    ensures tells { IfOk result IsTelling }
    ensures kinds { IfErr result IsEnd }
    ensures kept { KeepsZones (D.drive device.old) (D.drive device.new) }
{
    let mut seen = BTreeSet::new(alloc);
    match scan_zone(alloc, device, zone, &mut seen, block) {
        Ok(scanned) => Ok(ZoneReading::Log(scanned)),
        Err(MountFault::Failed) => Ok(ZoneReading::Unread),
        Err(MountFault::OutOfMemory) => Err(MountFault::OutOfMemory),
        Err(MountFault::Halted) => Err(MountFault::Halted),
        Err(MountFault::Damaged) => Err(MountFault::Damaged),
        Err(fault) => Ok(ZoneReading::Fault(fault)),
    }
}

/// Reads the batches of a zone by themselves, if it is not Read Only or Offline.
fn read_zone<D: Device>(
    alloc: Global,
    device: &mut D,
    zone: ReadableZone,
    block: &mut Vec<u8>,
) -> Result<ZoneReading, MountFault>
    requires zone { IsTold (D.drive device.old) zone.number zone.reported }
    ensures ok { IsTrue (D.drive device.new).clean
        → IfOk result (ReadsAlone (D.drive device.old) (D.drive device.new) zone.number) }
    ensures err { IsTrue (D.drive device.new).clean → IfErr result (IsInterruption (D.drive device.new)) }
    ensures tells { IfOk result IsTelling }
    ensures kinds { IfErr result IsEnd }
    ensures kept { KeepsZones (D.drive device.old) (D.drive device.new) }
{
    if is_unusable(zone.reported) {
        return Ok(ZoneReading::Unusable);
    }
    read_usable(alloc, device, zone, block)
}

/// Reads the batches of each zone by themselves that is not Read Only or Offline.
pub fn read_zones<D: Device>(
    alloc: Global,
    device: &mut D,
    zones: &[ReportedZone],
) -> Result<Vec<ZoneReading>, MountFault>
    requires zones { AreTold (D.drive device.old) zones.now }
    // While the drive is clean: done, each zone was read that can be. It is given up only if the drive stops or memory
    // runs out.
    ensures ok { IsTrue (D.drive device.new).clean
        → IfOk result (λ reads. AreReads (D.drive device.old) (D.drive device.new) reads.items) }
    ensures err { IsTrue (D.drive device.new).clean → IfErr result (IsInterruption (D.drive device.new)) }
    // Whatever the Reads returned, each zone was looked at. The fault of a zone tells something of what the drive
    // holds. It is not given up for a command that failed. Zones hold what they held.
    ensures count { IfOk result (λ reads. length reads.items ≡ length zones.now) }
    ensures tell { IfOk result (λ reads. AreTelling reads.items) }
    ensures kinds { IfErr result IsEnd }
    ensures kept { KeepsZones (D.drive device.old) (D.drive device.new) }
{
    let mut block = Vec::new(alloc);
    let mut reads = Vec::new(alloc);
    for (number, reported) in zones.iter().enumerate() {
        let zone = ReadableZone {
            number: number as u32,
            reported: *reported,
        };
        let read = read_zone(alloc, device, zone, &mut block)?;
        if reads.push(read).is_err() {
            return Err(MountFault::OutOfMemory);
        }
    }
    Ok(reads)
}
