ghost use Rattle.std.specs.Prelude.{◌≡◌, ◌<◌, ◌^◌, Some, count_by, length};
ghost use Rattle.std.specs.Prelude.{IfErr, IfOk, IsFalse, IsTrue, OnOk};
ghost use Rattle.std.specs.List.{AllByRecursion};
ghost use Rattle.zone_states.specs.Geometry.{IsInRange};
ghost use Rattle.drive_port.specs.Contents.{contents};
ghost use Rattle.drive_port.specs.Drive.{IsLawful};
ghost use Rattle.drive_array.specs.Mountable.{is_partly_written};
ghost use Rattle.drive_survey.specs.Reported.{KeepsZones};
ghost use Rattle.drive_survey.specs.Scan.{IsInterruption};
ghost use Rattle.drive_survey.specs.Survey.{is_partly_reported};
ghost use Rattle.drive_inspection.specs.Findings.{AreByReport, AreFindings, ListsByReport, ListsFaults, ListsNothing};
ghost use Rattle.drive_inspection.specs.Findings.{ListsReads, ListsRefused, ListsZones};
ghost use Rattle.drive_inspection.specs.Found.{IsEnd, IsNoFinding, IsRefusal, IsTellable};
ghost use Rattle.drive_inspection.specs.Reads.{AreTold};
ghost use Rattle.drive_inspection.specs.declared.finding.ZoneFault.{ZoneFault};

use crate::finding::Findings;
use crate::foreseen::foresee_mount;
use crate::lists::{
    batch_faults, count_readable, repeated_sequences, size_read, torn_zones, unread_zones,
    unusable_zones, zones_past_end,
};
use crate::reading::{ZoneReading, read_zones};
use drive_port::Device;
use drive_survey::{MountFault, ReportedZone, count_partly_written, report_zones};
use std::alloc::{AllocError, Global};

/// No findings but the refusal.
pub(crate) fn no_findings(alloc: Global, refusal: Option<MountFault>) -> Findings
    ensures refusal { result.refusal ≡ refusal }
    ensures clean { ListsNothing result }
{
    Findings {
        refusal,
        unusable: Vec::new(alloc),
        partly_written: 0,
        batches: Vec::new(alloc),
        repeated: Vec::new(alloc),
        past_end: Vec::new(alloc),
        torn: Vec::new(alloc),
        unread: Vec::new(alloc),
        readable: 0,
    }
}

/// The lists that are made from what was read of the zones.
fn list_reads(
    alloc: Global,
    reads: &[ZoneReading],
    given: u64,
    findings: &mut Findings,
) -> Result<(), AllocError>
    requires { length reads.now < 2 ^ 32 }
    // Done, each list has exactly what is of its kind.
    ensures lists { OnOk result (ListsReads given reads.now findings.new) }
    // Whatever it answers, the other findings stay.
    ensures refusal { findings.new.refusal ≡ findings.old.refusal }
    ensures unusable { findings.new.unusable ≡ findings.old.unusable }
    ensures partly { findings.new.partly_written ≡ findings.old.partly_written }
{
    findings.batches = batch_faults(alloc, reads)?;
    findings.repeated = repeated_sequences(alloc, reads)?;
    findings.past_end = zones_past_end(alloc, reads, size_read(reads, given))?;
    findings.torn = torn_zones(alloc, reads)?;
    findings.unread = unread_zones(alloc, reads)?;
    findings.readable = count_readable(reads);
    Ok(())
}

/// What is found of the zones of a drive, of those that are not Read Only or Offline. The other findings stay.
fn list_zones<D: Device>(
    alloc: Global,
    device: &mut D,
    zones: &[ReportedZone],
    given: u64,
    findings: &mut Findings,
) -> Result<(), MountFault>
    // The report is true of all zones, and of how many are partly written.
    requires told { AreTold (D.drive device.old) zones.now }
    requires few { length zones.now < 2 ^ 32 }
    requires partly { count_by is_partly_reported zones.now
        ≡ count_by is_partly_written (contents (D.drive device.old).zones) }
    // While the drive is clean: done, the lists have exactly the faults of the zones. It is given up only if the drive
    // stops or memory runs out.
    ensures ok { IsTrue (D.drive device.new).clean
        → OnOk result (ListsZones (D.drive device.old) (D.drive device.new) given findings.new) }
    ensures err { IsTrue (D.drive device.new).clean → IfErr result (IsInterruption (D.drive device.new)) }
    // Whatever the Reads returned: done, it is counted how many zones are partly written, and the faults of batches
    // tell something of what the drive holds.
    ensures counted { OnOk result (findings.new.partly_written
        ≡ count_by is_partly_written (contents (D.drive device.old).zones)) }
    ensures tells { OnOk result (AllByRecursion (λ (found : ZoneFault). IsRefusal found.fault)
        findings.new.batches.items) }
    // Whatever it answers, a failure tells nothing of what the drive holds, the other findings stay, and the zones hold
    // what they held.
    ensures kinds { IfErr result IsEnd }
    ensures refusal { findings.new.refusal ≡ findings.old.refusal }
    ensures unusable { findings.new.unusable ≡ findings.old.unusable }
    ensures kept { KeepsZones (D.drive device.old) (D.drive device.new) }
{
    let reads = read_zones(alloc, device, zones)?;
    findings.partly_written = count_partly_written(zones);
    list_reads(alloc, &reads, given, findings)?;
    Ok(())
}

/// All faults of a drive that a mount refuses, whose geometry is in range.
fn list_faults<D: Device>(
    alloc: Global,
    device: &mut D,
    given: u64,
    refusal: MountFault,
) -> Result<Findings, MountFault>
    requires in_range { IsInRange (D.drive device.old).geometry }
    requires lawful { IsLawful (D.drive device.old) }
    // While the drive is clean: done, all faults are listed. It fails only if the drive halts or memory runs out.
    ensures ok { IsTrue (D.drive device.new).clean
        → IfOk result (ListsFaults (D.drive device.old) (D.drive device.new) given) }
    ensures err { IsTrue (D.drive device.new).clean → IfErr result (IsInterruption (D.drive device.new)) }
    // Whatever the Reads returned: done, what reports tell is listed, and the refusal is told.
    ensures reported { IfOk result (ListsByReport (D.drive device.old)) }
    ensures refusal { IfOk result (λ findings. findings.refusal ≡ Some refusal) }
    // Whatever it answers, a failure tells nothing of what the drive holds, and zones hold what they held.
    ensures kinds { IfErr result IsNoFinding }
    ensures kept { KeepsZones (D.drive device.old) (D.drive device.new) }
{
    let zones = report_zones(alloc, device)?;
    let mut findings = no_findings(alloc, Some(refusal));
    findings.unusable = unusable_zones(alloc, &zones)?;
    list_zones(alloc, device, &zones, given, &mut findings)?;
    Ok(findings)
}

/// Whether a fault of a mount ends a check. After a command that failed the other zones can be read.
pub(crate) fn is_end(fault: MountFault) -> bool
    ensures yes { IsTrue result → IsEnd fault }
    ensures no { IsFalse result → IsTellable fault }
{
    match fault {
        MountFault::OutOfMemory | MountFault::Halted | MountFault::Damaged => true,
        _ => false,
    }
}

/// All faults of a drive whose mount is refused. If its geometry is out of range, no zone is looked at.
pub(crate) fn refused_faults<D: Device>(
    alloc: Global,
    device: &mut D,
    given: u64,
    refusal: MountFault,
) -> Result<Findings, MountFault>
    requires tells { IsTellable refusal }
    // While the drive is clean: done, all faults are listed. It fails only if the drive halts or memory runs out.
    ensures ok { IsTrue (D.drive device.new).clean
        → IfOk result (ListsRefused (D.drive device.old) (D.drive device.new) given) }
    ensures err { IsTrue (D.drive device.new).clean → IfErr result (IsInterruption (D.drive device.new)) }
    // Whatever the Reads returned, what reports tell is found, and the refusal is told.
    ensures reported { IfOk result (AreByReport (D.drive device.old)) }
    ensures refusal { IfOk result (λ findings. findings.refusal ≡ Some refusal) }
    ensures kinds { IfErr result IsNoFinding }
    ensures kept { KeepsZones (D.drive device.old) (D.drive device.new) }
{
    let Ok(()) = device.geometry().check() else {
        return Ok(no_findings(alloc, Some(refusal)));
    };
    list_faults(alloc, device, given, refusal)
}

/// Finds all faults of a drive, taken as `given` logical blocks if no header says how many. Reports and Reads are sent.
/// A zone in which the drive fails at a command is listed as such, and the others are read. The fault is `Halted` (the
/// drive has stopped), `Failed` (it failed at a report) or `OutOfMemory`; or `Damaged`, which never comes while the
/// drive is clean. After `Failed` the check can be made again.
pub fn check_drive<D: Device>(
    alloc: Global,
    device: &mut D,
    given: u64,
) -> Result<Findings, MountFault>
    // While the drive is clean: done, these are all of its faults. It fails only if the drive halts or memory runs out.
    ensures ok { IsTrue (D.drive device.new).clean
        → IfOk result (AreFindings (D.drive device.old) (D.drive device.new) given) }
    ensures err { IsTrue (D.drive device.new).clean → IfErr result (IsInterruption (D.drive device.new)) }
    // Whatever the Reads returned, what reports tell is found.
    ensures reported { IfOk result (AreByReport (D.drive device.old)) }
    // Whatever it answers, a failure tells nothing of what the drive holds, and zones hold what they held.
    ensures kinds { IfErr result IsNoFinding }
    ensures kept { KeepsZones (D.drive device.old) (D.drive device.new) }
{
    let Err(refusal) = foresee_mount(alloc, device, given) else {
        return Ok(no_findings(alloc, None));
    };
    if is_end(refusal) {
        return Err(refusal);
    }
    refused_faults(alloc, device, given, refusal)
}
