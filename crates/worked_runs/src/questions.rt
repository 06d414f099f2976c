//! What a script asks of its drive between two runs.

use crate::fault::ScriptFault;
use crate::requests::{Request, parse_request};
use crate::show::{show_bytes, show_fault, show_lines};
use crate::words::{number, part};
use crate::world::World;
use disk_runs::RunFault;
use drive_port::Device;
use std::alloc::{AllocError, Global};
use yardsticks::quota;
use zone_choice::{batch_most, fill, fits_reserve};
use zone_drive::{Drive, DriveFault};
use zone_report::report_text;
use zone_states::Geometry;

pub fn show_drive_fault(
    alloc: Global,
    fault: DriveFault,
    out: &mut String,
) -> Result<(), ScriptFault> {
    match fault {
        DriveFault::Geometry(fault) => show_fault(alloc, RunFault::Geometry(fault), out),
        DriveFault::Zones => {
            writeln!(out, "    no such drive: its zones are not lawful")?;
            Ok(())
        }
        DriveFault::OutOfMemory => Err(ScriptFault::Memory),
    }
}

/// The command that asks for a report of all zones.
fn report_request(alloc: Global, geometry: Geometry) -> Result<Request, ScriptFault> {
    let dwords = 16 * (geometry.zones as u64 + 1);
    let words = format!(in alloc; "Report from 0 in {dwords} dwords")?;
    parse_request(alloc, &words, 0, geometry.block)
}

fn report_of(alloc: Global, drive: &mut Drive) -> Result<Vec<u8>, ScriptFault> {
    let request = report_request(alloc, drive.geometry())?;
    let mut report = Vec::new(alloc);
    match drive.submit(&request.entry, &[], &mut report) {
        Ok(_) => Ok(report),
        Err(_) => Err(ScriptFault::Memory),
    }
}

/// Shows the report of all zones, as text. The drive completes one more command.
pub fn show_zones(alloc: Global, drive: &mut Drive, out: &mut String) -> Result<(), ScriptFault> {
    let report = report_of(alloc, drive)?;
    let text = report_text(alloc, &report).or(Err(ScriptFault::Memory))?;
    show_lines(text.as_bytes(), out)
}

/// Shows each written block of a drive, with its address.
pub fn show_contents(world: &World, out: &mut String) -> Result<(), ScriptFault> {
    let size = world.geometry.size as usize;
    for (number, zone) in world.zones.iter().enumerate() {
        for (place, block) in zone.blocks.iter().enumerate() {
            let address = number.saturating_mul(size).saturating_add(place);
            write!(out, "    {address}")?;
            show_bytes(block, out)?;
            writeln!(out)?;
        }
    }
    Ok(())
}

fn show_blocks(blocks: &[Vec<u8>], out: &mut String) -> Result<(), AllocError> {
    for (number, block) in blocks.iter().enumerate() {
        write!(out, "    {number}")?;
        show_bytes(block, out)?;
        writeln!(out)?;
    }
    Ok(())
}

/// Shows the array that the newest records spell, block by block.
pub fn show_array(
    alloc: Global,
    world: &World,
    n: u32,
    out: &mut String,
) -> Result<(), ScriptFault> {
    match world.array(alloc, n)? {
        Some(blocks) => show_blocks(&blocks, out)?,
        None => writeln!(out, "    no array: some zone has no log")?,
    }
    if world.can_mount(alloc, n)? {
        writeln!(out, "    can be mounted")?;
    } else {
        writeln!(out, "    cannot be mounted")?;
    }
    Ok(())
}

/// Shows how many entries a batch has at most, and the quota of records of a zone.
pub fn show_reserve(geometry: &Geometry, out: &mut String) -> Result<(), ScriptFault> {
    let Ok(()) = geometry.check() else {
        return Err(ScriptFault::Words);
    };
    let entries = batch_most(geometry);
    let quota = quota(geometry);
    writeln!(out, "    entries of a batch, at most: {entries}")?;
    writeln!(
        out,
        "    live records of a zone to be cleaned, at most: {quota}"
    )?;
    Ok(())
}

/// Shows which of these numbers of logical blocks the drive has room for.
pub fn show_room(
    geometry: &Geometry,
    numbers: &[&str],
    out: &mut String,
) -> Result<(), ScriptFault> {
    let Ok(()) = geometry.check() else {
        return Err(ScriptFault::Words);
    };
    for word in numbers {
        let fits = if fits_reserve(geometry, number(word)?) {
            "room"
        } else {
            "no room"
        };
        writeln!(out, "    blocks {word}: {fits}")?;
    }
    Ok(())
}

/// Shows how many blocks moving these numbers of records takes.
pub fn show_moves(
    geometry: &Geometry,
    numbers: &[&str],
    out: &mut String,
) -> Result<(), ScriptFault> {
    let Ok(()) = geometry.check() else {
        return Err(ScriptFault::Words);
    };
    for word in numbers {
        let blocks = fill(geometry, part(word)?);
        writeln!(out, "    records {word}: blocks {blocks}")?;
    }
    Ok(())
}
