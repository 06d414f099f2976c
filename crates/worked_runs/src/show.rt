//! What a script shows: bytes, commands, replies and faults.

use crate::fault::ScriptFault;
use disk_runs::{RunFault, write_fault};
use nvme_wire::Command;
use std::alloc::{AllocError, Global};
use std::io::Write;

/// A byte, and how often it is in a row.
type Repeated = Option<(u8, usize)>;

fn show_repeated(repeated: Repeated, out: &mut String) -> Result<(), AllocError> {
    match repeated {
        Some((byte, count)) => write!(out, " {byte:02x}*{count}"),
        None => Ok(()),
    }
}

/// Shows bytes as hexadecimal digits in lower case.
pub fn show_digits(bytes: &[u8], out: &mut String) -> Result<(), AllocError> {
    for byte in bytes {
        write!(out, "{byte:02x}")?;
    }
    Ok(())
}

fn show_group(group: &[u8], out: &mut String) -> Result<(), AllocError> {
    out.push(' ')?;
    show_digits(group, out)
}

/// The byte of which a group consists, and how long it is, if it consists of one byte.
fn repeated_in(group: &[u8]) -> Repeated {
    let first = *group.first()?;
    for byte in group {
        if *byte != first {
            return None;
        }
    }
    Some((first, group.len()))
}

/// Both as one, if they are of one byte.
fn joined(before: Repeated, now: Repeated) -> Repeated {
    let (last, count) = before?;
    let (byte, more) = now?;
    if last != byte {
        return None;
    }
    Some((byte, count.saturating_add(more)))
}

/// Shows bytes in groups of eight, each after a space. Groups in a row that consist of one byte are
/// shown as `00*24`.
pub fn show_bytes(bytes: &[u8], out: &mut String) -> Result<(), AllocError> {
    let mut before: Repeated = None;
    for group in bytes.chunks(8) {
        let now = repeated_in(group);
        let both = joined(before, now);
        if both.is_some() {
            before = both;
            continue;
        }
        show_repeated(before, out)?;
        before = now;
        if now.is_none() {
            show_group(group, out)?;
        }
    }
    show_repeated(before, out)
}

/// Shows bytes as an answer: a line that begins with these words.
pub fn show_answer_bytes(words: &str, bytes: &[u8], out: &mut String) -> Result<(), AllocError> {
    write!(out, "   {words}")?;
    show_bytes(bytes, out)?;
    writeln!(out)
}

/// Repeats a line that belongs to a step.
pub fn show_line(line: &str, out: &mut String) -> Result<(), AllocError> {
    if line.is_empty() {
        return writeln!(out, ">");
    }
    writeln!(out, "> {line}")
}

/// Shows each line of a text as an answer.
pub fn show_lines(text: &[u8], out: &mut String) -> Result<(), ScriptFault> {
    let text = std::str::from_utf8(text).or(Err(ScriptFault::Words))?;
    for line in text.lines() {
        writeln!(out, "    {line}")?;
    }
    Ok(())
}

pub fn show_fault(alloc: Global, fault: RunFault, out: &mut String) -> Result<(), ScriptFault> {
    let mut line = Vec::new(alloc);
    match write_fault(alloc, fault, &mut line) {
        Ok(()) => show_lines(&line, out),
        Err(_) => Err(ScriptFault::Memory),
    }
}

fn transfer_text(
    alloc: Global,
    name: &str,
    blocks: u32,
    address: u64,
) -> Result<String, AllocError> {
    if blocks == 1 {
        format!(in alloc; "{name} of 1 block at {address}")
    } else {
        format!(in alloc; "{name} of {blocks} blocks at {address}")
    }
}

/// What a command does, in the words in which a script asks for it.
pub fn command_text(alloc: Global, command: &Command) -> Result<String, AllocError> {
    match *command {
        Command::Flush => format!(in alloc; "Flush"),
        Command::Read { slba, blocks } => transfer_text(alloc, "Read", blocks, slba),
        Command::Write { slba, blocks } => transfer_text(alloc, "Write", blocks, slba),
        Command::Append { zslba, blocks } => transfer_text(alloc, "Append", blocks, zslba),
        Command::Send {
            action,
            all: true,
            ..
        } => { format!(in alloc; "{action:?} of all zones") }
        Command::Send { slba, action, .. } => {
            format!(in alloc; "{action:?} of the zone at {slba}")
        }
        Command::Receive { slba, .. } => format!(in alloc; "Report from {slba}"),
    }
}

fn show_entry(alloc: Global, entry: &[u8; 64], out: &mut String) -> Result<(), AllocError> {
    match Command::decode(entry) {
        Ok(command) => {
            let text = command_text(alloc, &command)?;
            writeln!(out, "    sent {text}")
        }
        Err(fault) => writeln!(out, "    sent an entry that is no command: {fault:?}"),
    }
}

/// Shows the commands of these entries, as sent, and the bytes of each entry below it if asked to.
pub fn show_sent(
    alloc: Global,
    entries: &[[u8; 64]],
    with_bytes: bool,
    out: &mut String,
) -> Result<(), ScriptFault> {
    for entry in entries {
        show_entry(alloc, entry, out)?;
        if with_bytes {
            show_answer_bytes(" ", entry, out)?;
        }
    }
    Ok(())
}
