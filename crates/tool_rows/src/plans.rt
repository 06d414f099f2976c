use crate::drives::SMALL;
use std::rt::Runtime;
use std::test::Fail;
use write_plan::{Aim, PlanFault, drive_for, format_words, plan, plan_json, plan_svg, plan_text};
use zone_states::Geometry;

/// A drive of 64 zones.
const LARGE: Geometry = Geometry {
    block: 4096,
    zones: 64,
    size: 8192,
    capacity: 8192,
    transfer: 128,
    active: 8,
    open: 8,
};

/// What is asked of these drives, and once of a geometry that is out of range.
const ASKED: [(Geometry, Aim); 9] = [
    (SMALL, Aim::Shares),
    (LARGE, Aim::Shares),
    (LARGE, Aim::Share(65)),
    (LARGE, Aim::Share(101)),
    (SMALL, Aim::Blocks(9)),
    (SMALL, Aim::Blocks(10)),
    (LARGE, Aim::Amplification(300)),
    (LARGE, Aim::Amplification(100)),
    (Geometry { zones: 2, ..SMALL }, Aim::Shares),
];

/// The bytes for which a drive is asked.
const BYTES: [u64; 5] = [0, 256 << 20, 1 << 40, 1 << 42, (1 << 42) + 1];

/// Shows a plan, or why there is none.
fn show_plan<R: Runtime + AllocGlobal>(rt: &R, geometry: &Geometry, aim: Aim) -> Result<(), Fail> {
    println!(rt; "{aim:?}")?;
    match plan(rt.alloc(), geometry, aim) {
        Ok(rows) => rt.print(plan_text(rt.alloc(), geometry, &rows)?.as_str())?,
        Err(PlanFault::OutOfMemory) => return Err(Fail::from("out of memory")),
        Err(fault) => println!(rt; "{fault}")?,
    }
    Ok(())
}

/// Shows the drive for a number of bytes.
fn show_drive<R: Runtime + AllocGlobal>(rt: &R, bytes: u64) -> Result<(), Fail> {
    match drive_for(bytes) {
        Some(geometry) => println!(rt; "{bytes} {}", format_words(rt.alloc(), &geometry)?)?,
        None => println!(rt; "{bytes} -")?,
    }
    Ok(())
}

/// Shows a plan as JSON, and a plot.
fn show_files<R: Runtime + AllocGlobal>(rt: &R) -> Result<(), Fail> {
    let rows = plan(rt.alloc(), &LARGE, Aim::Share(80))?;
    println!(rt; "{}", plan_json(rt.alloc(), &LARGE, &rows)?)?;
    rt.print(plan_svg(rt.alloc(), &LARGE)?.as_str())?;
    Ok(())
}

/// Shows all plans.
pub fn show_plans<R: Runtime + AllocGlobal>(rt: &R) -> Result<(), Fail> {
    for (geometry, aim) in &ASKED {
        show_plan(rt, geometry, *aim)?;
    }
    for bytes in BYTES {
        show_drive(rt, bytes)?;
    }
    show_files(rt)
}
