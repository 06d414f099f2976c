//! Rows of rescues: small drives, some of them broken, and what a rescue gives of each.
//!
//! `stdout` has what is expected, by hand from the rules: the byte of each block, then the ranges that are lost, and
//! those that may be older.
//!
//! # What is promised
//!
//! Nothing beyond safety.
#![tactic(auto)]

mod cases;
mod cells;
mod flaky;

use cases::{CASES, Case};
use cells::zone_of;
use disk_files::FailAfter;
use drive_port::{Geometry, StopAfter};
use drive_rescue::{BlockRange, DeviceSource, RescueFault, Rescued, Source, WithDamage, rescue};
use flaky::Flaky;
use std::alloc::{AllocError, Global};
use std::io;
use zone_drive::{Drive, DriveFault};
use zone_states::Zone;

/// Three zones of 8 blocks of 512 bytes.
const GEOMETRY: Geometry = Geometry {
    block: 512,
    zones: 3,
    size: 8,
    capacity: 8,
    transfer: 8,
    active: 3,
    open: 3,
};

fn zones_of(alloc: Global, case: &Case) -> Result<Vec<Zone>, AllocError> {
    let mut zones = Vec::new(alloc);
    for (state, cells) in case.zones {
        zones.push(zone_of(alloc, *state, cells)?)?;
    }
    Ok(zones)
}

fn drive_of(alloc: Global, case: &Case) -> Result<Drive, DriveFault> {
    Drive::from_zones(alloc, GEOMETRY, zones_of(alloc, case)?)
}

/// A row of ranges, as `lost 1+2 5+1`.
fn ranges_row(alloc: Global, name: &str, ranges: &[BlockRange]) -> Result<String, AllocError> {
    let mut row = String::from_str(alloc, name)?;
    for range in ranges {
        let part = format!(in alloc; " {}+{}", range.first, range.count)?;
        row.push_str(&part)?;
    }
    Ok(row)
}

fn fault_row(alloc: Global, fault: RescueFault) -> Result<String, AllocError> {
    format!(in alloc; "{fault}")
}

/// The rows of a rescue: its blocks by their first bytes, and its ranges.
fn write_rescued(
    rt: &HostRuntime,
    rescued: Result<Rescued, RescueFault>,
    bytes: &[u8],
) -> io::Result<()> {
    let rescued = match rescued {
        Ok(rescued) => rescued,
        Err(fault) => return println!(rt; "{}", fault_row(rt.alloc(), fault)?),
    };
    let mut row = format!(in rt.alloc(); "{} blocks", rescued.blocks)?;
    for block in bytes.chunks(512) {
        let part = format!(in rt.alloc(); " {:02x}", block[0])?;
        row.push_str(&part)?;
    }
    println!(rt; "{row}")?;
    println!(rt; "{}", ranges_row(rt.alloc(), "lost", &rescued.lost)?)?;
    println!(rt; "{}", ranges_row(rt.alloc(), "older", &rescued.older)?)
}

fn rescue_shown<S: Source>(rt: &HostRuntime, source: &mut S, given: u32) -> io::Result<()> {
    let mut bytes = Vec::new(rt.alloc());
    let rescued = rescue(rt.alloc(), source, given, &mut bytes);
    write_rescued(rt, rescued, &bytes)
}

fn show(rt: &HostRuntime, case: &Case) -> io::Result<()> {
    println!(rt; "{}", case.name)?;
    let Ok(drive) = drive_of(rt.alloc(), case) else {
        return println!(rt; "no drive");
    };
    let mut source = WithDamage::new(DeviceSource::new(drive), case.damaged);
    rescue_shown(rt, &mut source, case.given)
}

/// Each block is read when it is asked for again.
fn show_flaky(rt: &HostRuntime, case: &Case) -> io::Result<()> {
    println!(rt; "each Read fails once")?;
    let Ok(drive) = drive_of(rt.alloc(), case) else {
        return println!(rt; "no drive");
    };
    rescue_shown(rt, &mut Flaky::new(DeviceSource::new(drive)), case.given)
}

/// The drive stops after so many commands.
fn show_stopped(rt: &HostRuntime, case: &Case, commands: u64) -> io::Result<()> {
    println!(rt; "a drive that stops after {} commands", commands)?;
    let Ok(drive) = drive_of(rt.alloc(), case) else {
        return println!(rt; "no drive");
    };
    let mut source = DeviceSource::new(StopAfter::new(drive, commands));
    rescue_shown(rt, &mut source, case.given)
}

/// The writer takes so many bytes.
fn show_full(rt: &HostRuntime, case: &Case, room: usize) -> io::Result<()> {
    println!(rt; "a writer that takes {} bytes", room)?;
    let Ok(drive) = drive_of(rt.alloc(), case) else {
        return println!(rt; "no drive");
    };
    let mut source = DeviceSource::new(drive);
    let mut writer = FailAfter::new(Vec::new(rt.alloc()), room);
    let rescued = rescue(rt.alloc(), &mut source, case.given, &mut writer);
    println!(rt; "{} bytes", writer.inner.len())?;
    write_rescued(rt, rescued, &[])
}

fn main(rt: HostRuntime) -> io::Result<()> {
    for case in CASES {
        show(&rt, case)?;
    }
    show_flaky(&rt, &CASES[0])?;
    show_stopped(&rt, &CASES[0], 0)?;
    show_stopped(&rt, &CASES[0], 9)?;
    show_full(&rt, &CASES[0], 1_100)
}
