//! Calls of the libraries: a disk's calls, and the typed calls to a drive.

use crate::bench::{Bench, Setting, Stage, bench_of, world_after};
use crate::fault::ScriptFault;
use crate::requests::{Request, parse_request};
use crate::runs::{show_report, show_unreached};
use crate::show::{show_answer_bytes, show_line, show_sent};
use crate::words::{meant, number, part};
use crate::world::World;
use disk_files::{ParseFault, TraceLine};
use drive_port::{
    Device, Honest, PortFault, append, close, count_zones, finish, read, report, reset,
};
use nvme_wire::{Action, Command};
use std::alloc::{AllocError, Global};
use zone_translator::{Disk, DiskFault, MountFault, Place};

/// Shows the commands that are recorded after the first `sent`, and says how many there are.
fn show_new(
    alloc: Global,
    entries: &[[u8; 64]],
    sent: usize,
    out: &mut String,
) -> Result<usize, ScriptFault> {
    show_sent(alloc, entries.get(sent..).unwrap_or(&[]), false, out)?;
    Ok(entries.len())
}

fn show_data(data: &[u8], out: &mut String) -> Result<(), AllocError> {
    if data.is_empty() {
        return Ok(());
    }
    show_answer_bytes("", data, out)
}

/// The call of a line, and its data in `bytes`.
fn call_of(line: &[u8], bytes: &mut Vec<u8>) -> Result<TraceLine, ScriptFault> {
    match TraceLine::parse(line, bytes) {
        Ok(call) => Ok(call),
        Err(ParseFault::Grammar) => Err(ScriptFault::Words),
        Err(ParseFault::Memory) => Err(ScriptFault::Memory),
    }
}

fn write_call<D: Device + Honest + Drop>(
    disk: &mut Disk<D>,
    first: u64,
    bytes: &[u8],
) -> Result<Result<(), DiskFault>, ScriptFault> {
    if bytes.len() % disk.block_bytes() != 0 {
        return Err(ScriptFault::Words);
    }
    Ok(disk.write(first, bytes))
}

fn idle_calls<D: Device + Honest + Drop>(disk: &mut Disk<D>, turns: u32) -> Result<(), DiskFault> {
    for _ in 0..turns {
        disk.idle()?;
    }
    Ok(())
}

/// Makes the calls of a line, and puts what they show into `shown`.
fn disk_call<D: Device + Honest + Drop>(
    disk: &mut Disk<D>,
    line: &[u8],
    bytes: &mut Vec<u8>,
    shown: &mut Vec<u8>,
) -> Result<Result<(), DiskFault>, ScriptFault> {
    shown.clear();
    match call_of(line, bytes)? {
        TraceLine::Read { first, blocks } => Ok(disk.read(first, blocks, shown)),
        TraceLine::Fill {
            first,
            blocks,
            byte,
        } => Ok(disk.fill(first, blocks, byte)),
        TraceLine::Write { first } => write_call(disk, first, bytes),
        TraceLine::Trim { first, blocks } => Ok(disk.trim(first, blocks)),
        TraceLine::Idle { turns } => Ok(idle_calls(disk, turns)),
        TraceLine::Grow { blocks } => Ok(disk.grow(blocks)),
        // Its answer is a mount's, which is shown apart.
        TraceLine::Remount => Err(ScriptFault::Words),
    }
}

fn show_done(answer: Result<(), DiskFault>, out: &mut String) -> Result<(), AllocError> {
    match answer {
        Ok(()) => writeln!(out, "    done"),
        Err(fault) => writeln!(out, "    refused {fault:?}"),
    }
}

/// What the calls of the lines before have left: how many commands were sent, and two buffers.
#[derive(Drop)]
struct Calls {
    sent: usize,
    bytes: Vec<u8>,
    shown: Vec<u8>,
}

/// Makes the calls of a line, and shows the commands that were sent and the answer.
fn show_disk_call(
    alloc: Global,
    disk: &mut Disk<Bench>,
    line: &str,
    calls: &mut Calls,
    out: &mut String,
) -> Result<(), ScriptFault> {
    let answer = disk_call(
        disk,
        &meant(alloc, line)?,
        &mut calls.bytes,
        &mut calls.shown,
    )?;
    calls.sent = show_new(alloc, disk.device().entries(), calls.sent, out)?;
    show_data(&calls.shown, out)?;
    Ok(show_done(answer, out)?)
}

fn report_of<D: Device + Honest + Drop>(disk: &mut Disk<D>) -> Result<Vec<u8>, DiskFault> {
    disk.report()
}

fn show_reported(
    alloc: Global,
    answer: Result<Vec<u8>, DiskFault>,
    out: &mut String,
) -> Result<(), ScriptFault> {
    match answer {
        Ok(report) => {
            show_report(alloc, &report, out)?;
            Ok(show_done(Ok(()), out)?)
        }
        Err(fault) => Ok(show_done(Err(fault), out)?),
    }
}

/// Asks the disk for a report of all zones, and shows the commands that were sent and the report.
fn show_disk_report(
    alloc: Global,
    disk: &mut Disk<Bench>,
    calls: &mut Calls,
    out: &mut String,
) -> Result<(), ScriptFault> {
    let answer = report_of(disk);
    calls.sent = show_new(alloc, disk.device().entries(), calls.sent, out)?;
    show_reported(alloc, answer, out)
}

fn show_remounted(answer: Result<(), MountFault>, out: &mut String) -> Result<(), AllocError> {
    match answer {
        Ok(()) => show_done(Ok(()), out),
        Err(fault) => writeln!(out, "    refused {fault:?}"),
    }
}

/// Mounts the drive of the disk again, and shows the commands that were sent and the answer.
fn show_disk_remount(
    alloc: Global,
    disk: &mut Disk<Bench>,
    calls: &mut Calls,
    out: &mut String,
) -> Result<(), ScriptFault> {
    let answer = disk.remount();
    calls.sent = show_new(alloc, disk.device().entries(), calls.sent, out)?;
    Ok(show_remounted(answer, out)?)
}

fn show_live(live: u32, out: &mut String) -> Result<(), AllocError> {
    writeln!(out, "    {live}")
}

/// Shows where the disk has the newest record of a block.
fn show_place(place: Place, out: &mut String) -> Result<(), AllocError> {
    match place {
        Place::None => writeln!(out, "    no record"),
        Place::Trimmed(address) => writeln!(out, "    a trim at {address}"),
        Place::At(address) => writeln!(out, "    data at {address}"),
    }
}

/// Answers a line of a disk: what it knows of a block or of a zone, a report, or a call.
fn show_disk_line(
    alloc: Global,
    disk: &mut Disk<Bench>,
    line: &str,
    calls: &mut Calls,
    out: &mut String,
) -> Result<(), ScriptFault> {
    match line.split_once(' ') {
        None if line == "report" => show_disk_report(alloc, disk, calls, out),
        None if line == "remount" => show_disk_remount(alloc, disk, calls, out),
        Some(("place", block)) => Ok(show_place(disk.place_of(number(block)?), out)?),
        Some(("live", zone)) => Ok(show_live(disk.live(part(zone)?), out)?),
        _ => show_disk_call(alloc, disk, line, calls, out),
    }
}

fn show_disk_lines(
    alloc: Global,
    disk: &mut Disk<Bench>,
    lines: &[&str],
    calls: &mut Calls,
    out: &mut String,
) -> Result<(), ScriptFault> {
    for line in lines {
        show_line(line, out)?;
        show_disk_line(alloc, disk, line, calls, out)?;
    }
    Ok(())
}

fn show_disk_calls(
    alloc: Global,
    disk: &mut Disk<Bench>,
    lines: &[&str],
    out: &mut String,
) -> Result<(), ScriptFault> {
    let sent = show_new(alloc, disk.device().entries(), 0, out)?;
    let blocks = disk.blocks();
    writeln!(out, "    mounted, {blocks} blocks")?;
    let mut calls = Calls {
        sent,
        bytes: Vec::new(alloc),
        shown: Vec::new(alloc),
    };
    show_disk_lines(alloc, disk, lines, &mut calls, out)
}

fn show_refused_mount(
    alloc: Global,
    fault: MountFault,
    bench: &Bench,
    lines: &[&str],
    out: &mut String,
) -> Result<(), ScriptFault> {
    show_new(alloc, bench.entries(), 0, out)?;
    writeln!(out, "    refused {fault:?}")?;
    show_unreached(lines, out)
}

/// Makes the calls of each line, and gives the drive back.
fn show_mounted(
    alloc: Global,
    mut disk: Disk<Bench>,
    lines: &[&str],
    out: &mut String,
) -> (Bench, Result<(), ScriptFault>) {
    let result = show_disk_calls(alloc, &mut disk, lines, out);
    (disk.into_device(), result)
}

/// Mounts a drive as a disk and makes the calls of each line, or shows why it is refused. Gives the drive back.
fn show_disk_over(
    alloc: Global,
    bench: Bench,
    blocks: u64,
    lines: &[&str],
    out: &mut String,
) -> (Bench, Result<(), ScriptFault>) {
    match Disk::mount(alloc, bench, blocks) {
        Ok(disk) => show_mounted(alloc, disk, lines, out),
        Err((fault, bench)) => {
            let result = show_refused_mount(alloc, fault, &bench, lines, out);
            (bench, result)
        }
    }
}

/// Mounts the drive as a disk, and makes the calls of each line, also after a refusal. The line `report`
/// asks it for a report of all zones, `place L` where block `L` is, `live I` how many blocks are in zone `I`.
pub fn show_disk(
    stage: Stage,
    blocks: u64,
    lines: &[&str],
    out: &mut String,
) -> Result<World, ScriptFault> {
    let bench = bench_of(stage.alloc, stage.world, stage.setting)?;
    let (bench, shown) = show_disk_over(stage.alloc, bench, blocks, lines, out);
    world_after(stage.alloc, stage.world.geometry, bench, shown)
}

/// What a typed call answers.
#[derive(Clone, Copy)]
enum Answer {
    Done,
    Number(u64),
    Fault(PortFault),
    // It is none that a caller may make.
    None,
}

fn done(answer: Result<(), PortFault>) -> Answer {
    match answer {
        Ok(()) => Answer::Done,
        Err(fault) => Answer::Fault(fault),
    }
}

fn numbered(answer: Result<u64, PortFault>) -> Answer {
    match answer {
        Ok(number) => Answer::Number(number),
        Err(fault) => Answer::Fault(fault),
    }
}

fn append_call<D: Device>(alloc: Global, device: &mut D, start: u64, bytes: &[u8]) -> Answer {
    let block = device.geometry().block as usize;
    if block == 0 || bytes.is_empty() || bytes.len() % block != 0 || bytes.len() / block > 65536 {
        return Answer::None;
    }
    numbered(append(alloc, device, start, bytes))
}

fn read_call<D: Device>(device: &mut D, slba: u64, blocks: u32, data: &mut Vec<u8>) -> Answer {
    if blocks < 1 || blocks > 65536 {
        return Answer::None;
    }
    done(read(device, slba, blocks, data))
}

fn send_call<D: Device>(alloc: Global, device: &mut D, start: u64, action: Action) -> Answer {
    match action {
        Action::Close => done(close(alloc, device, start)),
        Action::Finish => done(finish(alloc, device, start)),
        Action::Reset => done(reset(alloc, device, start)),
        Action::Open | Action::Offline => Answer::None,
    }
}

fn typed_call<D: Device>(
    alloc: Global,
    device: &mut D,
    request: &Request,
    is_count: bool,
    data: &mut Vec<u8>,
) -> Answer {
    data.clear();
    match Command::decode(&request.entry) {
        Ok(Command::Append { zslba, .. }) => append_call(alloc, device, zslba, &request.bytes),
        Ok(Command::Read { slba, blocks }) => read_call(device, slba, blocks, data),
        Ok(Command::Send { slba, action, .. }) => send_call(alloc, device, slba, action),
        Ok(Command::Receive { options, .. }) if is_count => {
            numbered(count_zones(device, options, data))
        }
        Ok(
            Command::Receive {
                slba,
                dwords,
                options,
                partial,
            },
        ) => {
            if dwords < 16 || dwords > 1 << 32 {
                return Answer::None;
            }
            done(report(device, slba, options, partial, dwords, data))
        }
        _ => Answer::None,
    }
}

fn show_answer(answer: Answer, out: &mut String) -> Result<(), ScriptFault> {
    let shown = match answer {
        Answer::Done => writeln!(out, "    done"),
        Answer::Number(number) => writeln!(out, "    answered {number}"),
        Answer::Fault(PortFault::Refused(status)) => writeln!(out, "    refused {status:?}"),
        Answer::Fault(PortFault::Memory) => writeln!(out, "    out of memory"),
        Answer::Fault(PortFault::Failed) => writeln!(out, "    failed"),
        Answer::Fault(PortFault::Stopped) => writeln!(out, "    stopped"),
        Answer::None => return Err(ScriptFault::Words),
    };
    Ok(shown?)
}

/// The entry that a line asks for, and whether it asks only for the number of zones.
fn typed_request(alloc: Global, line: &str, block: u32) -> Result<(Request, bool), ScriptFault> {
    match line.strip_prefix("Count") {
        Some(rest) => {
            let words = format!(in alloc; "Report{rest}")?;
            Ok((parse_request(alloc, &words, 0, block)?, true))
        }
        None => Ok((parse_request(alloc, line, 0, block)?, false)),
    }
}

fn show_answered(answer: Answer, data: &[u8], out: &mut String) -> Result<(), ScriptFault> {
    show_data(data, out)?;
    show_answer(answer, out)
}

/// Makes the typed call of a line, and shows what it answers.
fn show_call(
    alloc: Global,
    bench: &mut Bench,
    line: &str,
    data: &mut Vec<u8>,
    out: &mut String,
) -> Result<(), ScriptFault> {
    let (request, is_count) = typed_request(alloc, line, bench.geometry().block)?;
    let answer = typed_call(alloc, bench, &request, is_count, data);
    show_answered(answer, data, out)
}

fn show_call_lines(
    alloc: Global,
    bench: &mut Bench,
    lines: &[&str],
    data: &mut Vec<u8>,
    out: &mut String,
) -> Result<(), ScriptFault> {
    for line in lines {
        show_line(line, out)?;
        show_call(alloc, bench, line, data, out)?;
    }
    Ok(())
}

fn show_typed_calls(
    alloc: Global,
    bench: &mut Bench,
    lines: &[&str],
    out: &mut String,
) -> Result<(), ScriptFault> {
    show_call_lines(alloc, bench, lines, &mut Vec::new(alloc), out)?;
    let completed = bench.completed();
    Ok(writeln!(out, "    commands completed: {completed}")?)
}

/// Makes a typed call to the drive for each line. `Count` in place of `Report` asks only for the number.
pub fn show_calls(
    alloc: Global,
    world: &World,
    setting: Setting,
    lines: &[&str],
    out: &mut String,
) -> Result<World, ScriptFault> {
    let mut bench = bench_of(alloc, world, setting)?;
    let shown = show_typed_calls(alloc, &mut bench, lines, out);
    world_after(alloc, world.geometry, bench, shown)
}
