//! Which lines are in the grammars, whatever a drive would answer.

use crate::fault::ScriptFault;
use crate::show::{show_bytes, show_line};
use crate::words::meant;
use disk_files::{ParseFault, TraceLine, is_skipped, parse_raw_line};
use std::alloc::{AllocError, Global};

fn show_write(first: u64, bytes: &[u8], out: &mut String) -> Result<(), AllocError> {
    write!(out, "    write {first} data")?;
    show_bytes(bytes, out)?;
    writeln!(out)
}

fn show_call(call: TraceLine, bytes: &[u8], out: &mut String) -> Result<(), AllocError> {
    match call {
        TraceLine::Read { first, blocks } => writeln!(out, "    read {first} {blocks}"),
        TraceLine::Fill {
            first,
            blocks,
            byte,
        } => writeln!(out, "    fill {first} {blocks} {byte:02x}"),
        TraceLine::Write { first } => show_write(first, bytes, out),
        TraceLine::Trim { first, blocks } => writeln!(out, "    trim {first} {blocks}"),
        TraceLine::Idle { turns } => writeln!(out, "    idle {turns}"),
        TraceLine::Grow { blocks } => writeln!(out, "    grow {blocks}"),
        TraceLine::Remount => writeln!(out, "    remount"),
    }
}

fn show_trace_line(line: &[u8], bytes: &mut Vec<u8>, out: &mut String) -> Result<(), ScriptFault> {
    if is_skipped(line) {
        writeln!(out, "    skipped")?;
        return Ok(());
    }
    match TraceLine::parse(line, bytes) {
        Ok(call) => show_call(call, bytes, out)?,
        Err(ParseFault::Grammar) => writeln!(out, "    not in the grammar")?,
        Err(ParseFault::Memory) => return Err(ScriptFault::Memory),
    }
    Ok(())
}

/// Says what each line is in a trace.
pub fn show_trace_lines(
    alloc: Global,
    lines: &[&str],
    out: &mut String,
) -> Result<(), ScriptFault> {
    let mut bytes = Vec::new(alloc);
    for line in lines {
        show_line(line, out)?;
        show_trace_line(&meant(alloc, line)?, &mut bytes, out)?;
    }
    Ok(())
}

fn show_entry(entry: &[u8], data: &[u8], out: &mut String) -> Result<(), AllocError> {
    write!(out, "    entry")?;
    show_bytes(entry, out)?;
    if !data.is_empty() {
        write!(out, " data")?;
        show_bytes(data, out)?;
    }
    writeln!(out)
}

fn show_raw_line(line: &[u8], data: &mut Vec<u8>, out: &mut String) -> Result<(), ScriptFault> {
    match parse_raw_line(line, data) {
        Ok(entry) => show_entry(&entry, data, out)?,
        Err(ParseFault::Grammar) => writeln!(out, "    not in the grammar")?,
        Err(ParseFault::Memory) => return Err(ScriptFault::Memory),
    }
    Ok(())
}

/// Says what each line is among raw lines: the bytes of the entry, and its data.
pub fn show_raw_lines(alloc: Global, lines: &[&str], out: &mut String) -> Result<(), ScriptFault> {
    let mut data = Vec::new(alloc);
    for line in lines {
        show_line(line, out)?;
        show_raw_line(&meant(alloc, line)?, &mut data, out)?;
    }
    Ok(())
}
