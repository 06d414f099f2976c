use drive_inspection::Findings;
use drive_survey::MountFault;
use std::alloc::{AllocError, Global};

/// The number and the name of the refusal of a mount, as `docs/formats.md` has them.
#[derive(Clone, Copy, PartialEq, Eq)]
pub struct FaultKind {
    pub number: u32,
    pub name: &'static str,
}

impl FaultKind {
    /// The kind of a refusal.
    pub fn of(fault: MountFault) -> FaultKind {
        let (number, name) = match fault {
            MountFault::Reserve => (1, "Reserve"),
            MountFault::Limits => (2, "Limits"),
            MountFault::ZoneUnusable(_) => (3, "ZoneUnusable"),
            MountFault::Log(..) => (4, "Log"),
            MountFault::SequenceRepeated => (5, "SequenceRepeated"),
            MountFault::BlockOutOfRange => (6, "BlockOutOfRange"),
            MountFault::TooManyPartial => (7, "TooManyPartial"),
            MountFault::NoSpare => (8, "NoSpare"),
            MountFault::Spent => (9, "Spent"),
            MountFault::Halted => (10, "Halted"),
            MountFault::OutOfMemory => (11, "OutOfMemory"),
            MountFault::TornZone(_) => (13, "TornZone"),
            MountFault::Damaged => (14, "Damaged"),
            MountFault::Failed => (15, "Failed"),
        };
        FaultKind { number, name }
    }
}

/// One fault of a drive.
#[derive(Drop)]
pub struct FoundFault {
    pub kind: FaultKind,
    /// The zone that has it, if one has.
    pub zone: Option<u32>,
    /// The block of the zone at which it is met, of a fault of its batches.
    pub offset: Option<u32>,
    /// Whether a mount is refused by it: by the first one that it meets.
    pub refuses: bool,
    /// What it is, for people.
    pub text: String,
}

/// A fault of a zone, without a block.
fn in_zone(fault: MountFault, zone: u32, text: String) -> FoundFault {
    FoundFault {
        kind: FaultKind::of(fault),
        zone: Some(zone),
        offset: None,
        refuses: false,
        text,
    }
}

/// Adds each zone that cannot be used, and that too many are partly written.
fn add_states(
    alloc: Global,
    findings: &Findings,
    faults: &mut Vec<FoundFault>,
) -> Result<(), AllocError> {
    for zone in &findings.unusable {
        let text = format!(in alloc; "zone {zone} is Read Only or Offline")?;
        faults.push(in_zone(MountFault::ZoneUnusable(*zone), *zone, text))?;
    }
    if findings.partly_written > 2 {
        let count = findings.partly_written;
        faults.push(FoundFault {
            kind: FaultKind::of(MountFault::TooManyPartial),
            zone: None,
            offset: None,
            refuses: false,
            text: format!(in alloc; "{count} zones are partly written, more than two")?,
        })?;
    }
    Ok(())
}

/// Adds each zone in which the drive failed at a command.
fn add_unread(
    alloc: Global,
    findings: &Findings,
    faults: &mut Vec<FoundFault>,
) -> Result<(), AllocError> {
    for zone in &findings.unread {
        let text = format!(in alloc; "zone {zone} cannot be read: the drive failed at a command")?;
        faults.push(in_zone(MountFault::Failed, *zone, text))?;
    }
    Ok(())
}

/// Adds each zone whose batches have a fault. Of a block that begins no batch the fault itself names the zone.
fn add_batches(
    alloc: Global,
    findings: &Findings,
    faults: &mut Vec<FoundFault>,
) -> Result<(), AllocError> {
    for found in &findings.batches {
        let zone = found.zone;
        let fault = found.fault;
        let (offset, text) = match fault {
            MountFault::Log(_, offset, _) => (Some(offset), format!(in alloc; "{fault}")?),
            _ => (None, format!(in alloc; "batches of zone {zone}: {fault}")?),
        };
        faults.push(FoundFault {
            offset,
            ..in_zone(fault, zone, text)
        })?;
    }
    Ok(())
}

/// Adds each sequence that is met again.
fn add_repeated(
    alloc: Global,
    findings: &Findings,
    faults: &mut Vec<FoundFault>,
) -> Result<(), AllocError> {
    for found in &findings.repeated {
        let zone = found.zone;
        let sequence = found.sequence;
        let text = format!(in alloc; "zone {zone} repeats the sequence {sequence}")?;
        faults.push(in_zone(MountFault::SequenceRepeated, zone, text))?;
    }
    Ok(())
}

/// Adds each zone that names a block past the end.
fn add_past_end(
    alloc: Global,
    findings: &Findings,
    faults: &mut Vec<FoundFault>,
) -> Result<(), AllocError> {
    for found in &findings.past_end {
        let zone = found.zone;
        let block = found.block;
        let text = format!(in alloc; "zone {zone} names block {block}, past the end")?;
        faults.push(in_zone(MountFault::BlockOutOfRange, zone, text))?;
    }
    Ok(())
}

/// Adds each torn zone, if a mount does not repair it.
fn add_torn(
    alloc: Global,
    findings: &Findings,
    faults: &mut Vec<FoundFault>,
) -> Result<(), AllocError> {
    for zone in &findings.torn {
        let text = format!(in alloc; "zone {zone} is torn")?;
        faults.push(in_zone(MountFault::TornZone(*zone), *zone, text))?;
    }
    Ok(())
}

/// The faults that zones show: those of their states, then of reads, then of batches, and then torn zones.
fn zone_faults(alloc: Global, findings: &Findings) -> Result<Vec<FoundFault>, AllocError> {
    let mut faults = Vec::new(alloc);
    add_states(alloc, findings, &mut faults)?;
    add_unread(alloc, findings, &mut faults)?;
    add_batches(alloc, findings, &mut faults)?;
    add_repeated(alloc, findings, &mut faults)?;
    add_past_end(alloc, findings, &mut faults)?;
    add_torn(alloc, findings, &mut faults)?;
    Ok(faults)
}

/// The fault by which a mount is refused, if a zone shows it: the first of its kind, in the lowest zone that has one.
fn refusing<'f>(refusal: MountFault, faults: &'f mut [FoundFault]) -> Option<&'f mut FoundFault> {
    let kind = FaultKind::of(refusal);
    faults
        .iter_mut()
        .filter(|fault| fault.kind == kind)
        .min_by_key(|fault| fault.zone)
}

/// All faults of a drive that is refused, each once. The refusal is the last one if no zone shows it.
pub fn found_faults(alloc: Global, findings: &Findings) -> Result<Vec<FoundFault>, AllocError> {
    let Some(refusal) = findings.refusal else {
        return Ok(Vec::new(alloc));
    };
    let mut faults = zone_faults(alloc, findings)?;
    match refusing(refusal, &mut faults) {
        Some(fault) => fault.refuses = true,
        None => faults.push(FoundFault {
            kind: FaultKind::of(refusal),
            zone: None,
            offset: None,
            refuses: true,
            text: format!(in alloc; "{refusal}")?,
        })?,
    }
    Ok(faults)
}
