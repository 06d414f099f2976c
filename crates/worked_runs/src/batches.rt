//! Batches in words, as the blocks that they take in a zone.

use crate::fault::ScriptFault;
use crate::words::{byte, number, part};
use batch_log::{Entry, Header, Kind, header_bytes};
use std::alloc::{AllocError, Global};
use yardsticks::is_heading;

/// A batch, whose data blocks all consist of one byte.
#[derive(Drop)]
pub struct Batch {
    kind: Kind,
    sequence: u64,
    source: u32,
    size: Option<u32>,
    entries: Vec<Entry>,
    data: u8,
}

fn entries(alloc: Global, numbers: &[&str], trim: bool) -> Result<Vec<Entry>, ScriptFault> {
    let mut entries = Vec::new(alloc);
    for block in numbers {
        entries.push(Entry {
            block: number(block)?,
            trim,
        })?;
    }
    Ok(entries)
}

/// The entries of a batch with data, and the byte of its data blocks.
fn data_contents(alloc: Global, words: &[&str]) -> Result<(Vec<Entry>, u8), ScriptFault> {
    let [numbers @ .., "data", data] = words else {
        return Err(ScriptFault::Words);
    };
    let data = byte(data.as_bytes())?;
    Ok((entries(alloc, numbers, false)?, data))
}

/// The entries of a batch, and the byte of its data blocks.
fn contents(alloc: Global, words: &[&str]) -> Result<(Vec<Entry>, u8), ScriptFault> {
    match words {
        [] => Ok((Vec::new(alloc), 0)),
        ["trims", numbers @ ..] => Ok((entries(alloc, numbers, true)?, 0)),
        ["blocks", words @ ..] => data_contents(alloc, words),
        _ => Err(ScriptFault::Words),
    }
}

/// The size that the words begin with, if they say one, and the words after it.
fn sized<'a, 'b>(words: &'b [&'a str]) -> Result<(Option<u32>, &'b [&'a str]), ScriptFault> {
    match words {
        ["size", size, rest @ ..] => Ok((Some(part(size)?), rest)),
        _ => Ok((None, words)),
    }
}

/// The kind and the source that the words begin with, and the words after them.
fn placed<'a, 'b>(words: &'b [&'a str]) -> Result<(Kind, u32, &'b [&'a str]), ScriptFault> {
    match words {
        ["host", rest @ ..] => Ok((Kind::Host, 0, rest)),
        ["move", "from", zone, rest @ ..] => Ok((Kind::Move, part(zone)?, rest)),
        _ => Err(ScriptFault::Words),
    }
}

/// The batch of these words: `1 host blocks 0 1 data aa`, `4 host trims 3`, `5 move from 0`, or with the
/// disk's size `1 size 9 host blocks 0 1 data aa`.
pub fn parse_batch(alloc: Global, words: &[&str]) -> Result<Batch, ScriptFault> {
    let [sequence, words @ ..] = words else {
        return Err(ScriptFault::Words);
    };
    let (size, words) = sized(words)?;
    let (kind, source, words) = placed(words)?;
    let sequence = number(sequence)?;
    let (entries, data) = contents(alloc, words)?;
    Ok(Batch {
        kind,
        sequence,
        source,
        size,
        entries,
        data,
    })
}

fn push_numbers(numbers: &[u64], bytes: &mut Vec<u8>) -> Result<(), AllocError> {
    for number in numbers {
        bytes.extend_from_slice(&number.to_le_bytes())?;
    }
    Ok(())
}

fn push_entries(entries: &[Entry], bytes: &mut Vec<u8>) -> Result<(), AllocError> {
    for entry in entries {
        let trim_bit: u64 = if entry.trim { 1 << 63 } else { 0 };
        bytes.extend_from_slice(&(entry.block | trim_bit).to_le_bytes())?;
    }
    Ok(())
}

impl Batch {
    /// What is before the entries, put together by hand: the magic; version, kind and count; the
    /// sequence; source and size.
    fn head(&self, count: u32) -> [u64; 4] {
        let version = if self.size.is_some() { 2 } else { 1 };
        let kind = match self.kind {
            Kind::Host => 1,
            Kind::Move => 2,
        };
        let size = self.size.unwrap_or(0);
        [
            u64::from_le_bytes(*b"ZLOGBAT1"),
            version | kind << 16 | u64::from(count) << 32,
            self.sequence,
            u64::from(self.source) | u64::from(size) << 32,
        ]
    }

    /// The bytes of the header, without the zeros that follow the entries.
    pub fn front(&self, alloc: Global) -> Result<Vec<u8>, ScriptFault> {
        let count = u32::try_from(self.entries.len()).or(Err(ScriptFault::Words))?;
        let mut bytes = Vec::new(alloc);
        push_numbers(&self.head(count), &mut bytes)?;
        push_entries(&self.entries, &mut bytes)?;
        Ok(bytes)
    }

    /// The byte of each data block that follows the header.
    pub fn data(&self, alloc: Global) -> Result<Vec<u8>, ScriptFault> {
        let mut data = Vec::new(alloc);
        for entry in &self.entries {
            if !entry.trim {
                data.push(self.data)?;
            }
        }
        Ok(data)
    }

    /// The header block that `batch_log` writes, of 512 bytes, if such a block can hold the header.
    pub fn header_block(self, alloc: Global) -> Result<Vec<u8>, ScriptFault> {
        let header = Header {
            kind: self.kind,
            sequence: self.sequence,
            source: self.source,
            size: self.size,
            entries: self.entries,
        };
        if !is_heading(&header, 512) {
            return Err(ScriptFault::Words);
        }
        let mut block = vec![in alloc; 0xff; 512]?;
        header_bytes(&header, &mut block);
        Ok(block)
    }
}
