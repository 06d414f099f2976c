//! Checks of drives, and their zones in other forms.

use crate::drives::{Written, drive_with};
use drive_inspection::check_drive;
use drive_port::Device;
use nvme_wire::ZoneState;
use std::rt::Runtime;
use std::test::Fail;
use tool_forms::{brief_text, findings_json, findings_text, zones_json, zones_svg};
use zone_states::Geometry;

/// A drive of eight zones.
pub const GEOMETRY: Geometry = Geometry {
    block: 512,
    zones: 8,
    size: 8,
    capacity: 6,
    transfer: 4,
    active: 8,
    open: 8,
};

/// The number that a mount is given.
const GIVEN: u64 = 9;

/// No batch: it can be mounted.
pub const FRESH: [Written; 0] = [];
/// Two batches that are whole: it can be mounted.
const WHOLE: [Written; 2] = [
    Written {
        zone: 0,
        sequence: 1,
        blocks: &[0, 1],
        cut: 0,
    },
    Written {
        zone: 1,
        sequence: 2,
        blocks: &[2],
        cut: 0,
    },
];
/// Two zones are torn.
pub const TORN: [Written; 4] = [
    Written {
        zone: 0,
        sequence: 1,
        blocks: &[0, 1],
        cut: 0,
    },
    Written {
        zone: 0,
        sequence: 2,
        blocks: &[3],
        cut: 1,
    },
    Written {
        zone: 1,
        sequence: 3,
        blocks: &[2],
        cut: 0,
    },
    Written {
        zone: 1,
        sequence: 4,
        blocks: &[4],
        cut: 1,
    },
];
/// Three zones are partly written, one sequence is met twice, a block is past the end, and a header says nothing.
const MANY: [Written; 4] = [
    Written {
        zone: 0,
        sequence: 7,
        blocks: &[0, 1],
        cut: 0,
    },
    Written {
        zone: 2,
        sequence: 7,
        blocks: &[2],
        cut: 0,
    },
    Written {
        zone: 3,
        sequence: 1 << 63,
        blocks: &[1],
        cut: 0,
    },
    Written {
        zone: 4,
        sequence: 9,
        blocks: &[1, 6],
        cut: 0,
    },
];

/// Shows what is found of a drive, and its zones.
fn show_drive<R: Runtime + AllocGlobal>(rt: &R, name: &str, all: &[Written]) -> Result<(), Fail> {
    let alloc = rt.alloc();
    let mut drive = drive_with(alloc, GEOMETRY, all)?;
    let findings = check_drive(alloc, &mut drive, GIVEN)?;
    println!(rt; "{name}")?;
    rt.print(findings_text(alloc, &findings)?.as_str())?;
    println!(rt; "{}", findings_json(alloc, &findings)?)?;
    Ok(())
}

/// Shows the zones of a drive in each form.
fn show_zones<R: Runtime + AllocGlobal>(rt: &R) -> Result<(), Fail> {
    let alloc = rt.alloc();
    let drive = drive_with(alloc, GEOMETRY, &MANY)?;
    let geometry = drive.geometry();
    geometry.check()?;
    rt.print(brief_text(alloc, &drive, geometry.zones)?.as_str())?;
    println!(rt;
        "{}",
        zones_json(alloc, &drive, geometry, Some(ZoneState::ImplicitlyOpened))?
    )?;
    rt.print(zones_svg(alloc, &drive, &geometry, &[2, 0, 1])?.as_str())?;
    Ok(())
}

/// Shows what is found of each drive.
pub fn show_checks<R: Runtime + AllocGlobal>(rt: &R) -> Result<(), Fail> {
    show_drive(rt, "fresh", &FRESH)?;
    show_drive(rt, "whole", &WHOLE)?;
    show_drive(rt, "torn", &TORN)?;
    show_drive(rt, "many", &MANY)?;
    show_zones(rt)
}
