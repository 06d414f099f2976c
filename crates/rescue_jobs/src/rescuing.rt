// The disk of a broken drive, written to a writer or to a new drive.

ghost use Rattle.std.specs.Prelude.{◌≡◌, ◌<◌, ℕ, IfErr, IfOk};
ghost use Rattle.drive_rescue.specs.Findings.{IsFound};
ghost use Rattle.drive_rescue.specs.Rescue.{KeepsSource, Rescues};
ghost use Rattle.drive_survey.specs.Reported.{KeepsZones};
ghost use Rattle.rescue_jobs.specs.Jobs.{FindsNoDisk, IsFlushed, RescuesInto, RescuesNot};

use crate::fault::RescueJobFault;
use disk_copies::DiskWriter;
use drive_port::{Device, Halt, Honest};
use drive_rescue::{Findings, RescueFault, Rescued, Source, find, give};
use job_drives::mount_served;
use std::alloc::Global;
use std::cell::Cell;
use std::io::{BufWriter, Write};
use zone_translator::Disk;

/// How many bytes are gathered for one write of the new disk: whole blocks of each size.
const GATHERED_BYTES: usize = 1 << 20;

/// Why blocks are not given, by what the new disk said.
fn told<D: Device + Honest + Drop>(
    fault: RescueFault,
    writer: &BufWriter<DiskWriter<D>>,
) -> RescueJobFault {
    match writer.get_ref().fault() {
        Some(refusal) => RescueJobFault::Disk(refusal),
        None => RescueJobFault::Rescue(fault),
    }
}

/// Flushes a disk, and gives its drive.
fn flushed<D: Device + Honest + Drop>(mut disk: Disk<D>) -> Result<D, RescueJobFault>
    ensures { IfOk result (λ drive. IsFlushed disk (D.drive drive)) }
{
    match disk.flush() {
        Ok(()) => Ok(disk.into_device()),
        Err(fault) => Err(RescueJobFault::Disk(fault)),
    }
}

/// Writes what was found to a new disk, flushes it, and gives its drive.
fn give_to<S: Source, D: Device + Honest + Drop>(
    alloc: Global,
    source: &mut S,
    findings: &Findings,
    disk: Disk<D>,
) -> Result<(D, Rescued), RescueJobFault>
    requires found { (given : ℕ) × IsFound (S.view source.old) given findings.now }
    ensures ok { IfOk result (λ done. (given : ℕ) → IsFound (S.view source.old) given findings.now
        → RescuesInto (S.view source.new) given done.1 (D.drive done.0)) }
    ensures kept { KeepsSource (S.view source.old) (S.view source.new) }
{
    let writer = DiskWriter::new(disk);
    let Ok(mut writer) = BufWriter::with_capacity(alloc, GATHERED_BYTES, writer) else {
        return Err(RescueJobFault::Rescue(RescueFault::Halted(Halt::Memory)));
    };
    let rescued = match give(alloc, source, findings, &mut writer) {
        Ok(rescued) => rescued,
        Err(fault) => return Err(told(fault, &writer)),
    };
    match writer.into_inner() {
        Ok(writer) => Ok((flushed(writer.into_disk())?, rescued)),
        Err(error) => Err(told(RescueFault::Output, &error.into_inner())),
    }
}

/// Searches a broken drive. If no header says how many blocks its disk has, and no number was given, there is no disk.
fn find_disk<S: Source>(
    alloc: Global,
    given: u32,
    source: &mut S,
) -> Result<Findings, RescueJobFault>
    ensures ok { IfOk result (IsFound (S.view source.new) given) }
    ensures some { IfOk result (λ findings. 0 < findings.blocks) }
    ensures err { IfErr result (FindsNoDisk (S.view source.new) given) }
    ensures kept { KeepsZones (S.view source.old).drive (S.view source.new).drive }
{
    let findings = match find(alloc, source, given) {
        Ok(findings) => findings,
        Err(fault) => return Err(RescueJobFault::Rescue(fault)),
    };
    if findings.blocks() == 0 {
        return Err(RescueJobFault::NoSize);
    }
    Ok(findings)
}

/// Writes the disk of a broken drive to a writer, as flat bytes. `given` is how many blocks it has if no header says
/// how many. How many bytes that makes is put into `total` before. The drive is only read.
pub fn rescue_out<S: Source, W: Write>(
    alloc: Global,
    given: u32,
    total: &Cell<Option<u64>>,
    source: &mut S,
    writer: &mut W,
) -> Result<Rescued, RescueJobFault>
    ensures ok { IfOk result (Rescues (S.view source.new) given (W.contents writer.old) (W.contents writer.new)) }
    ensures err { IfErr result (RescuesNot (S.view source.new) given (W.contents writer.old) (W.contents writer.new)) }
    ensures kept { KeepsZones (S.view source.old).drive (S.view source.new).drive }
{
    let findings = find_disk(alloc, given, source)?;
    let block = u64::from(source.geometry().block);
    total.set(Some(u64::from(findings.blocks()).saturating_mul(block)));
    match give(alloc, source, &findings, writer) {
        Ok(rescued) => Ok(rescued),
        Err(fault) => Err(RescueJobFault::Rescue(fault)),
    }
}

/// Writes the disk of a broken drive to a new one, in which nothing is written. The new drive is given once all blocks
/// are written to it, and flushed. The broken one is only read.
pub fn rescue_into<S: Source, D: Device + Honest + Drop>(
    alloc: Global,
    given: u32,
    source: &mut S,
    new: D,
) -> Result<(D, Rescued), RescueJobFault>
    ensures ok { IfOk result (λ done. RescuesInto (S.view source.new) given done.1 (D.drive done.0)) }
    ensures kept { KeepsZones (S.view source.old).drive (S.view source.new).drive }
{
    let findings = find_disk(alloc, given, source)?;
    let disk = match mount_served(alloc, new, Some(u64::from(findings.blocks()))) {
        Ok(disk) => disk,
        Err((fault, _new)) => return Err(RescueJobFault::Mount(fault)),
    };
    give_to(alloc, source, &findings, disk)
}
