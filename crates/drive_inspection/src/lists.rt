//! The lists of findings, made from what was read of each zone.

ghost use Rattle.std.specs.Prelude.{◌≡◌, ◌++◌, ◌<◌, ◌^◌, [], IfOk, OnOk, count_by, length};
ghost use Rattle.std.specs.Ordering.{nat_cmp};
ghost use Rattle.std.specs.BTreeSet.{insert_key};
ghost use Rattle.drive_inspection.specs.Lists.{fault_at, found_in, greatest_read, heads_read, is_log, is_unusable};
ghost use Rattle.drive_inspection.specs.Lists.{met_with, past_end_at, repeat_at, repeats_from};
ghost use Rattle.drive_inspection.specs.Lists.{repeats_of, size_of_read, size_read, torn_read_at, unread_at};
ghost use Rattle.drive_inspection.specs.Lists.{unusable_reported};

use crate::finding::{PastEnd, Repeat, ZoneFault};
use crate::reading::ZoneReading;
use drive_survey::{Head, ReportedZone, larger};
use nvme_wire::ZoneState;
use std::alloc::{AllocError, Global};
use std::collections::BTreeSet;

/// Whether a zone is Read Only or Offline.
pub(crate) fn is_unusable(zone: ReportedZone) -> bool
    ensures { result ≡ is_unusable zone }
{
    match zone.state {
        ZoneState::ReadOnly | ZoneState::Offline => true,
        _ => false,
    }
}

/// Adds a zone that is Read Only or Offline.
fn add_unusable(found: &mut Vec<u32>, number: u32, zone: ReportedZone) -> Result<(), AllocError>
    ensures { OnOk result (found.new.items ≡ found.old.items ++ unusable_reported number zone) }
{
    if is_unusable(zone) {
        found.push(number)?;
    }
    Ok(())
}

/// The zones that are Read Only or Offline.
pub fn unusable_zones(alloc: Global, zones: &[ReportedZone]) -> Result<Vec<u32>, AllocError>
    requires { length zones.now < 2 ^ 32 }
    ensures { IfOk result (λ found. found.items ≡ found_in unusable_reported zones.now) }
{
    let mut found = Vec::new(alloc);
    for (number, zone) in zones.iter().enumerate() {
        add_unusable(&mut found, number as u32, *zone)?;
    }
    Ok(found)
}

/// Adds the fault of a zone's batches, if they have one.
fn add_fault(found: &mut Vec<ZoneFault>, zone: u32, read: &ZoneReading) -> Result<(), AllocError>
    ensures { OnOk result (found.new.items ≡ found.old.items ++ fault_at zone read.now) }
{
    let ZoneReading::Fault(fault) = read else {
        return Ok(());
    };
    found.push(ZoneFault {
        zone,
        fault: *fault,
    })?;
    Ok(())
}

/// The zones whose batches have a fault.
pub fn batch_faults(alloc: Global, reads: &[ZoneReading]) -> Result<Vec<ZoneFault>, AllocError>
    requires { length reads.now < 2 ^ 32 }
    ensures { IfOk result (λ found. found.items ≡ found_in fault_at reads.now) }
{
    let mut found = Vec::new(alloc);
    for (number, read) in reads.iter().enumerate() {
        add_fault(&mut found, number as u32, read)?;
    }
    Ok(found)
}

/// Adds the sequence of a header, if it was met before.
fn add_repeat(
    found: &mut Vec<Repeat>,
    seen: &mut BTreeSet<u64>,
    zone: u32,
    sequence: u64,
) -> Result<(), AllocError>
    ensures found { OnOk result (found.new.items ≡ found.old.items ++ repeat_at zone seen.old.keys sequence) }
    ensures seen { OnOk result (seen.new.keys ≡ insert_key nat_cmp seen.old.keys sequence) }
{
    if seen.insert(sequence)? {
        return Ok(());
    }
    found.push(Repeat { zone, sequence })?;
    Ok(())
}

/// Adds the sequences of a zone that were met before.
fn add_repeats(
    found: &mut Vec<Repeat>,
    seen: &mut BTreeSet<u64>,
    zone: u32,
    heads: &[Head],
) -> Result<(), AllocError>
    ensures found { OnOk result (found.new.items ≡ found.old.items ++ repeats_of zone seen.old.keys heads.now) }
    ensures seen { OnOk result (seen.new.keys ≡ met_with seen.old.keys heads.now) }
{
    for head in heads {
        add_repeat(found, seen, zone, head.sequence)?;
    }
    Ok(())
}

/// The headers of a zone, none where its batches have a fault or are not known.
fn heads_read(read: &ZoneReading) -> &[Head]
    ensures { result.now ≡ heads_read read.now }
{
    match read {
        ZoneReading::Log(scanned) => scanned.heads.heads(),
        _ => &[],
    }
}

/// The sequences that are met again.
pub fn repeated_sequences(alloc: Global, reads: &[ZoneReading]) -> Result<Vec<Repeat>, AllocError>
    requires { length reads.now < 2 ^ 32 }
    ensures { IfOk result (λ found. found.items ≡ repeats_from 0 [] reads.now) }
{
    let mut found = Vec::new(alloc);
    let mut seen = BTreeSet::new(alloc);
    for (number, read) in reads.iter().enumerate() {
        add_repeats(&mut found, &mut seen, number as u32, heads_read(read))?;
    }
    Ok(found)
}

/// The size that a zone's headers say.
fn size_of_read(read: &ZoneReading) -> Option<u32>
    ensures { result ≡ size_of_read read.now }
{
    match read {
        ZoneReading::Log(scanned) => scanned.heads.size(),
        _ => None,
    }
}

/// The greatest size that the headers say.
fn greatest_read(reads: &[ZoneReading]) -> Option<u32>
    ensures { result ≡ greatest_read reads.now }
{
    let mut size = None;
    for read in reads {
        size = larger(size, size_of_read(read));
    }
    size
}

/// The size of the drive, as far as it was read: the given number if no header says one.
pub fn size_read(reads: &[ZoneReading], given: u64) -> u64
    ensures { result ≡ size_read given reads.now }
{
    match greatest_read(reads) {
        Some(size) => u64::from(size),
        None => given,
    }
}

/// Adds a zone that names a block past the end.
fn add_past_end(
    found: &mut Vec<PastEnd>,
    zone: u32,
    read: &ZoneReading,
    size: u64,
) -> Result<(), AllocError>
    ensures { OnOk result (found.new.items ≡ found.old.items ++ past_end_at size zone read.now) }
{
    let ZoneReading::Log(scanned) = read else {
        return Ok(());
    };
    let block = scanned.heads.highest();
    if scanned.heads.entries().is_empty() || block < size {
        return Ok(());
    }
    found.push(PastEnd { zone, block })?;
    Ok(())
}

/// The zones that name a block past the end.
pub fn zones_past_end(
    alloc: Global,
    reads: &[ZoneReading],
    size: u64,
) -> Result<Vec<PastEnd>, AllocError>
    requires { length reads.now < 2 ^ 32 }
    ensures { IfOk result (λ found. found.items ≡ found_in (past_end_at size) reads.now) }
{
    let mut found = Vec::new(alloc);
    for (number, read) in reads.iter().enumerate() {
        add_past_end(&mut found, number as u32, read, size)?;
    }
    Ok(found)
}

/// Adds a zone with a torn tail after a batch.
fn add_torn(found: &mut Vec<u32>, zone: u32, read: &ZoneReading) -> Result<(), AllocError>
    ensures { OnOk result (found.new.items ≡ found.old.items ++ torn_read_at zone read.now) }
{
    let ZoneReading::Log(scanned) = read else {
        return Ok(());
    };
    if scanned.is_torn && scanned.heads.blocks() != 0 {
        found.push(zone)?;
    }
    Ok(())
}

/// The zones with a torn tail after a batch.
pub fn torn_zones(alloc: Global, reads: &[ZoneReading]) -> Result<Vec<u32>, AllocError>
    requires { length reads.now < 2 ^ 32 }
    ensures { IfOk result (λ found. found.items ≡ found_in torn_read_at reads.now) }
{
    let mut found = Vec::new(alloc);
    for (number, read) in reads.iter().enumerate() {
        add_torn(&mut found, number as u32, read)?;
    }
    Ok(found)
}

/// Adds a zone in which the drive failed at a command.
fn add_unread(found: &mut Vec<u32>, zone: u32, read: &ZoneReading) -> Result<(), AllocError>
    ensures { OnOk result (found.new.items ≡ found.old.items ++ unread_at zone read.now) }
{
    if let ZoneReading::Unread = read {
        found.push(zone)?;
    }
    Ok(())
}

/// The zones in which the drive failed at a command.
pub fn unread_zones(alloc: Global, reads: &[ZoneReading]) -> Result<Vec<u32>, AllocError>
    requires { length reads.now < 2 ^ 32 }
    ensures { IfOk result (λ found. found.items ≡ found_in unread_at reads.now) }
{
    let mut found = Vec::new(alloc);
    for (number, read) in reads.iter().enumerate() {
        add_unread(&mut found, number as u32, read)?;
    }
    Ok(found)
}

/// Whether a zone was read, and its batches have no fault.
fn is_log(read: &ZoneReading) -> bool
    ensures { result ≡ is_log read.now }
{
    match read {
        ZoneReading::Log(_) => true,
        _ => false,
    }
}

/// How many zones were read, and have no fault of batches.
pub fn count_readable(reads: &[ZoneReading]) -> usize
    ensures { result ≡ count_by is_log reads.now }
{
    let mut count = 0;
    for read in reads {
        if is_log(read) {
            count += 1;
        }
    }
    count
}
