use crate::held_bars::write_bars;
use crate::held_sums::{
    block_shares, count_batches, count_moves, count_resets, count_state, memory, torn_zones,
};
use crate::zone_states_named::STATES;
use drive_counter::Counts;
use drive_inspection::{DriveInfo, Findings, Info, InspectedDrive, MountWork, Rehearsal};
use drive_survey::MountFault;
use std::alloc::{AllocError, Global};
use zone_report::state_text;

/// Adds the lines of the zones in each state.
fn write_states(text: &mut String, info: &DriveInfo) -> Result<(), AllocError> {
    for state in STATES {
        let zones = count_state(&info.zones, state);
        if zones != 0 {
            let name = state_text(state);
            writeln!(text, "state {name} zones {zones}")?;
        }
    }
    Ok(())
}

/// Adds a line with the numbers of zones.
fn write_zones(text: &mut String, name: &str, zones: &[u32]) -> Result<(), AllocError> {
    write!(text, "{name}")?;
    for zone in zones {
        write!(text, " {zone}")?;
    }
    if zones.is_empty() {
        text.push_str(" -")?;
    }
    text.push('\n')
}

/// Adds a line with a number, or without one.
fn write_number(text: &mut String, name: &str, number: Option<u64>) -> Result<(), AllocError> {
    match number {
        Some(number) => writeln!(text, "{name} {number}"),
        None => writeln!(text, "{name} -"),
    }
}

/// Adds the lines of the logical blocks.
fn write_logical(text: &mut String, info: &Info) -> Result<(), AllocError> {
    let holdings = &info.holdings;
    writeln!(text, "most logical blocks {}", holdings.most)?;
    write_number(text, "logical blocks", holdings.said.map(u64::from))?;
    writeln!(text, "written logical blocks {}", holdings.live.written)?;
    writeln!(text, "trimmed logical blocks {}", holdings.live.trimmed)
}

/// Adds the lines of the blocks and of the batches.
fn write_blocks(text: &mut String, drive: &DriveInfo, info: &Info) -> Result<(), AllocError> {
    let shares = block_shares(drive, &info.holdings);
    writeln!(text, "live blocks {}", shares.live)?;
    writeln!(text, "dead blocks {}", shares.dead)?;
    writeln!(text, "free blocks {}", shares.free)?;
    writeln!(text, "batches {}", count_batches(&info.holdings))?;
    writeln!(text, "greatest sequence {}", info.holdings.greatest)
}

/// Adds the lines of what a mount does.
fn write_work(text: &mut String, work: &MountWork) -> Result<(), AllocError> {
    writeln!(text, "mount resets {}", count_resets(work))?;
    writeln!(text, "mount moves {}", count_moves(work))
}

/// Adds the lines of the commands that a mount took.
fn write_counts(text: &mut String, counts: &Counts) -> Result<(), AllocError> {
    writeln!(text, "mount finishes {}", counts.finishes)?;
    writeln!(text, "mount reads {}", counts.reads)
}

/// Adds the lines of how a mount ended.
fn write_mounted(
    text: &mut String,
    mounted: &Result<Rehearsal, MountFault>,
) -> Result<(), AllocError> {
    match mounted {
        Ok(mounted) => {
            writeln!(text, "mount commands {}", mounted.commands)?;
            writeln!(text, "next sequence {}", mounted.next)?;
            writeln!(text, "batches left {}", mounted.left)
        }
        Err(fault) => writeln!(text, "refused: {fault}"),
    }
}

/// Adds the lines of a drive that can be mounted, and of its mount if that was rehearsed.
fn write_info(
    alloc: Global,
    text: &mut String,
    drive: &DriveInfo,
    info: &Info,
    rehearsed: Option<&InspectedDrive>,
) -> Result<(), AllocError> {
    write_logical(text, info)?;
    write_blocks(text, drive, info)?;
    write_zones(text, "torn zones", &torn_zones(alloc, &info.holdings)?)?;
    write_zones(text, "half clean zones", &info.work.half_clean)?;
    write_work(text, &info.work)?;
    if let Some(rehearsed) = rehearsed {
        write_counts(text, &rehearsed.counts)?;
        write_mounted(text, &rehearsed.mounted)?;
    }
    let bytes = memory(alloc, &drive.geometry, info.holdings.size)?;
    write_number(text, "memory", bytes)?;
    write_bars(text, &drive.geometry, &info.holdings)
}

/// Adds the lines of a drive that cannot be mounted: its zones that cannot be read, if there are any, and why it is
/// refused.
fn write_refused(
    text: &mut String,
    faults: &Findings,
    refusal: MountFault,
) -> Result<(), AllocError> {
    if !faults.unusable.is_empty() || !faults.unread.is_empty() {
        write_zones(text, "unusable zones", &faults.unusable)?;
        write_zones(text, "unread zones", &faults.unread)?;
        writeln!(text, "readable zones {}", faults.readable)?;
    }
    writeln!(text, "refused: {refusal}")
}

/// The lines of a drive, with those of its mount if that was rehearsed.
fn drive_text(
    alloc: Global,
    drive: &DriveInfo,
    rehearsed: Option<&InspectedDrive>,
) -> Result<String, AllocError> {
    let geometry = &drive.geometry;
    let mut text = String::new(alloc);
    writeln!(text, "block {}", geometry.block)?;
    writeln!(text, "zones {}", geometry.zones)?;
    writeln!(text, "capacity {}", geometry.capacity)?;
    write_states(&mut text, drive)?;
    match &drive.found {
        Ok(info) => write_info(alloc, &mut text, drive, info, rehearsed)?,
        Err(fault) => write_refused(&mut text, &drive.faults, *fault)?,
    }
    Ok(text)
}

/// What is found of a drive, as lines: the shape of the drive, its zones by state, and then what it holds and what a
/// mount does. Of a drive that cannot be mounted the last line says why.
pub fn info_text(alloc: Global, found: &InspectedDrive) -> Result<String, AllocError> {
    drive_text(alloc, &found.info, Some(found))
}

/// The same of a drive whose mount was not rehearsed.
pub fn unmounted_text(alloc: Global, found: &DriveInfo) -> Result<String, AllocError> {
    drive_text(alloc, found, None)
}
