//! What drives hold, and what a mount of them takes.

use crate::checks::{FRESH, GEOMETRY, TORN};
use crate::drives::{Written, drive_with, move_out};
use drive_inspection::{InspectedDrive, inspect_and_rehearse};
use std::alloc::Global;
use std::rt::Runtime;
use std::test::Fail;
use tool_forms::{info_json, info_text};

/// As many logical blocks as the drive can serve.
const MOST: u64 = 21;

/// A batch in zone 0, before a clean of it.
const UNCLEANED: [Written; 1] = [Written {
    zone: 0,
    sequence: 1,
    blocks: &[0, 1],
    cut: 0,
}];
/// The clean has moved block 0 to zone 1, and did not end. So zone 1 is half clean, and is reset.
const MOVED: Written = Written {
    zone: 1,
    sequence: 2,
    blocks: &[0],
    cut: 0,
};
/// Zone 0 is torn. The host has written block 1 of its three blocks anew, and then trimmed it.
const ONE_TORN: [Written; 4] = [
    Written {
        zone: 0,
        sequence: 1,
        blocks: &[0, 1, 2],
        cut: 0,
    },
    Written {
        zone: 2,
        sequence: 2,
        blocks: &[1],
        cut: 0,
    },
    Written {
        zone: 2,
        sequence: 3,
        blocks: &[1 | 1 << 63],
        cut: 1,
    },
    Written {
        zone: 0,
        sequence: 4,
        blocks: &[3],
        cut: 1,
    },
];

/// What is found of a drive with these batches, and then a Move.
fn found_of(
    alloc: Global,
    all: &[Written],
    moved: Option<&Written>,
) -> Result<InspectedDrive, Fail> {
    let mut drive = drive_with(alloc, GEOMETRY, all)?;
    if let Some(moved) = moved {
        move_out(alloc, &mut drive, GEOMETRY, moved)?;
    }
    let (_drive, inspected) = inspect_and_rehearse(alloc, drive, MOST);
    Ok(inspected?)
}

/// Shows as lines what is found of a drive.
fn show_lines<R: Runtime + AllocGlobal>(
    rt: &R,
    name: &str,
    all: &[Written],
    moved: Option<&Written>,
) -> Result<(), Fail> {
    let found = found_of(rt.alloc(), all, moved)?;
    println!(rt; "{name}")?;
    rt.print(info_text(rt.alloc(), &found)?.as_str())?;
    Ok(())
}

/// Shows as JSON what is found of a drive.
fn show_json<R: Runtime + AllocGlobal>(rt: &R, all: &[Written]) -> Result<(), Fail> {
    let found = found_of(rt.alloc(), all, None)?;
    println!(rt; "{}", info_json(rt.alloc(), &found)?)?;
    Ok(())
}

/// Shows what is found of each drive.
pub fn show_infos<R: Runtime + AllocGlobal>(rt: &R) -> Result<(), Fail> {
    show_lines(rt, "fresh", &FRESH, None)?;
    show_lines(rt, "half clean", &UNCLEANED, Some(&MOVED))?;
    show_lines(rt, "one torn", &ONE_TORN, None)?;
    show_json(rt, &ONE_TORN)?;
    show_lines(rt, "two torn", &TORN, None)?;
    show_json(rt, &TORN)
}
