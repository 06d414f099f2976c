//! Traces, raw lines and commands, over the drive of a script.

use crate::bench::{AfterRun, Setting, Stage, bench_of, left_by};
use crate::fault::ScriptFault;
use crate::requests::parse_request;
use crate::show::{show_answer_bytes, show_fault, show_line, show_lines, show_sent};
use crate::words::{bytes, meant};
use crate::world::World;
use disk_files::LineReader;
use disk_runs::{RunFault, run_raw, run_trace};
use drive_port::{Device, Honest};
use nvme_wire::Completion;
use std::alloc::Global;
use zone_report::report_text;

/// What the lines of a run are.
#[derive(Clone, Copy)]
pub enum Lines {
    /// Lines of a trace, over a disk of that many blocks.
    Trace(u64),
    /// Raw lines.
    Raw,
    /// Commands in words, each sent as a raw line.
    Commands,
}

/// What a run answered, how it ended, and what it left.
#[derive(Drop)]
pub struct Ran {
    pub replies: Vec<u8>,
    pub result: Result<(), RunFault>,
    pub left: AfterRun,
}

/// Runs a text of lines over a device, and gives it back.
fn run_over<D: Device + Honest + Drop>(
    alloc: Global,
    device: D,
    lines: Lines,
    text: &[u8],
    replies: &mut Vec<u8>,
) -> (D, Result<(), RunFault>) {
    let mut reader = LineReader::new(alloc, text);
    match lines {
        Lines::Trace(blocks) => run_trace(alloc, &mut reader, replies, device, blocks),
        Lines::Raw | Lines::Commands => run_raw(alloc, &mut reader, replies, device),
    }
}

/// Runs a text of lines over a drive that holds what `world` says.
pub fn run(
    alloc: Global,
    world: &World,
    setting: Setting,
    lines: Lines,
    text: &[u8],
) -> Result<Ran, ScriptFault> {
    let bench = bench_of(alloc, world, setting)?;
    let mut replies = Vec::new(alloc);
    let (bench, result) = run_over(alloc, bench, lines, text, &mut replies);
    Ok(Ran {
        replies,
        result,
        left: left_by(alloc, world.geometry, bench)?,
    })
}

/// The data in the reply to a raw line, and the digits before it.
fn parts_of(alloc: Global, reply: &str) -> Result<(&str, Vec<u8>), ScriptFault> {
    let mut data = Vec::new(alloc);
    match reply.split_once(' ') {
        Some((completion, digits)) => {
            bytes(digits.as_bytes(), &mut data)?;
            Ok((completion, data))
        }
        None => Ok((reply, data)),
    }
}

/// Shows the reply to a raw line: the digits of the completion, and the data.
fn show_raw_reply(alloc: Global, reply: &str, out: &mut String) -> Result<(), ScriptFault> {
    let (completion, data) = parts_of(alloc, reply)?;
    write!(out, " ")?;
    show_answer_bytes(completion, &data, out)?;
    Ok(())
}

/// The bytes of a completion, given in digits.
fn completion_bytes(alloc: Global, digits: &str) -> Result<[u8; 16], ScriptFault> {
    let mut completion = Vec::new(alloc);
    bytes(digits.as_bytes(), &mut completion)?;
    <[u8; 16]>::try_from(completion.as_slice()).or(Err(ScriptFault::Words))
}

/// Shows the status and the result of a completion, given in digits.
fn show_completion(alloc: Global, digits: &str, out: &mut String) -> Result<(), ScriptFault> {
    let completion = completion_bytes(alloc, digits)?;
    match Completion::decode(&completion) {
        Ok(Completion { status, result, .. }) => {
            Ok(writeln!(out, "    {status:?}, result {result}")?)
        }
        Err(_) => Err(ScriptFault::Words),
    }
}

/// Shows a report as text, after its length.
pub fn show_report(alloc: Global, report: &[u8], out: &mut String) -> Result<(), ScriptFault> {
    let length = report.len();
    writeln!(out, "    {length} bytes")?;
    let text = report_text(alloc, report).or(Err(ScriptFault::Words))?;
    show_lines(text.as_bytes(), out)
}

/// Shows the reply to a command in words.
fn show_answer(
    alloc: Global,
    reply: &str,
    is_report: bool,
    out: &mut String,
) -> Result<(), ScriptFault> {
    let (digits, data) = parts_of(alloc, reply)?;
    show_completion(alloc, digits, out)?;
    if data.is_empty() {
        return Ok(());
    }
    if is_report {
        return show_report(alloc, &data, out);
    }
    show_answer_bytes("", &data, out)?;
    Ok(())
}

/// Shows the replies to lines of this kind, of which the last is `line`.
fn show_replies(
    alloc: Global,
    lines: Lines,
    line: &str,
    replies: &[u8],
    out: &mut String,
) -> Result<(), ScriptFault> {
    let replies = std::str::from_utf8(replies).or(Err(ScriptFault::Words))?;
    for reply in replies.lines() {
        match lines {
            Lines::Trace(_) => writeln!(out, "    {reply}")?,
            Lines::Raw => show_raw_reply(alloc, reply, out)?,
            Lines::Commands => show_answer(alloc, reply, line.starts_with("Report"), out)?,
        }
    }
    Ok(())
}

/// How much of a run was shown.
#[derive(Clone, Copy)]
struct Shown {
    commands: usize,
    replies: usize,
}

/// Shows a line that the run before it did not reach.
pub fn show_unreached(lines: &[&str], out: &mut String) -> Result<(), ScriptFault> {
    for line in lines {
        show_line(line, out)?;
        writeln!(out, "    not reached")?;
    }
    Ok(())
}

/// The line that is run for a line of the script, the one with this number.
fn run_line(
    alloc: Global,
    world: &World,
    lines: Lines,
    line: &str,
    number: usize,
) -> Result<Vec<u8>, ScriptFault> {
    match lines {
        Lines::Trace(_) | Lines::Raw => meant(alloc, line),
        Lines::Commands => {
            let id = u16::try_from(number)
                .or(Err(ScriptFault::Words))?
                .wrapping_add(1);
            let request = parse_request(alloc, line, id, world.geometry.block)?;
            Ok(request.raw_line(alloc)?.into_bytes())
        }
    }
}

/// The text of the first lines of a step, with line feeds between them.
fn text_of(
    alloc: Global,
    world: &World,
    lines: Lines,
    block: &[&str],
) -> Result<Vec<u8>, ScriptFault> {
    let mut text = Vec::new(alloc);
    for (number, line) in block.iter().enumerate() {
        if number > 0 {
            text.push(b'\n')?;
        }
        text.extend_from_slice(&run_line(alloc, world, lines, line, number)?)?;
    }
    Ok(text)
}

/// Runs the first lines of a step, and shows what the last of them did.
fn show_front(
    stage: Stage,
    lines: Lines,
    block: &[&str],
    shown: &mut Shown,
    out: &mut String,
) -> Result<Ran, ScriptFault> {
    let text = text_of(stage.alloc, stage.world, lines, block)?;
    let ran = run(stage.alloc, stage.world, stage.setting, lines, &text)?;
    let entries = ran.left.entries.as_slice();
    if let Lines::Trace(_) = lines {
        let sent = entries.get(shown.commands..).unwrap_or(&[]);
        show_sent(stage.alloc, sent, stage.setting.shows_entries, out)?;
    }
    let last = block.last().copied().unwrap_or("");
    let replies = ran.replies.get(shown.replies..).unwrap_or(&[]);
    show_replies(stage.alloc, lines, last, replies, out)?;
    if let Err(fault) = ran.result {
        show_fault(stage.alloc, fault, out)?;
    }
    *shown = Shown {
        commands: entries.len(),
        replies: ran.replies.len(),
    };
    Ok(ran)
}

/// Runs the lines of a step, and shows below each of them what it did. To tell the lines apart, each
/// front of the lines is run over the same drive.
pub fn show_run(
    stage: Stage,
    lines: Lines,
    block: &[&str],
    out: &mut String,
) -> Result<World, ScriptFault> {
    let mut shown = Shown {
        commands: 0,
        replies: 0,
    };
    let mut ran = show_front(stage, lines, &[], &mut shown, out)?;
    for (number, line) in block.iter().enumerate() {
        if ran.result.is_err() {
            show_unreached(&block[number..], out)?;
            break;
        }
        show_line(line, out)?;
        let (front, _) = block.split_at(number + 1);
        ran = show_front(stage, lines, front, &mut shown, out)?;
    }
    let left = ran.left;
    Ok(left.world)
}
