//! The flat array that a disk is compared with: a plain list of blocks.

use crate::fault::ScriptFault;
use crate::show::show_digits;
use disk_files::{ParseFault, TraceLine};
use std::alloc::{AllocError, Global};
use yardsticks::quota;
use zone_states::Geometry;

#[derive(Drop)]
pub struct Flat {
    alloc: Global,
    block_bytes: usize,
    // How many blocks there may be at most.
    most: u64,
    blocks: Vec<Vec<u8>>,
    // The data of the last line.
    bytes: Vec<u8>,
}

fn same_byte(block: &[u8]) -> Option<u8> {
    let first = *block.first()?;
    for byte in block {
        if *byte != first {
            return None;
        }
    }
    Some(first)
}

fn show_block(place: u64, block: &[u8], reply: &mut String) -> Result<(), AllocError> {
    write!(reply, "{place} ")?;
    match same_byte(block) {
        Some(byte) => write!(reply, "{byte:02x}*{}", block.len())?,
        None => show_digits(block, reply)?,
    }
    writeln!(reply)
}

impl Flat {
    /// An array of zeros, on a drive of this shape.
    pub fn new(alloc: Global, geometry: &Geometry, blocks: u64) -> Result<Flat, ScriptFault> {
        let Ok(()) = geometry.check() else {
            return Err(ScriptFault::Words);
        };
        let records = u64::from(quota(geometry));
        let mut flat = Flat {
            alloc,
            block_bytes: geometry.block as usize,
            most: records * u64::from(geometry.zones.saturating_sub(1)),
            blocks: Vec::new(alloc),
            bytes: Vec::new(alloc),
        };
        flat.extend(blocks)?;
        Ok(flat)
    }

    /// Puts blocks of zeros after the others, up to a size.
    fn extend(&mut self, size: u64) -> Result<(), AllocError> {
        for _ in self.blocks.len() as u64..size {
            self.blocks.push(vec![in self.alloc; 0; self.block_bytes]?)?;
        }
        Ok(())
    }

    fn call(&mut self, line: &[u8]) -> Result<TraceLine, ScriptFault> {
        match TraceLine::parse(line, &mut self.bytes) {
            Ok(call) => Ok(call),
            Err(ParseFault::Grammar) => Err(ScriptFault::Words),
            Err(ParseFault::Memory) => Err(ScriptFault::Memory),
        }
    }

    /// Whether a call of these blocks goes past the end of the array. One of no block does not.
    fn is_past_end(&self, first: u64, blocks: u64) -> bool {
        blocks > 0 && first.saturating_add(blocks) > self.blocks.len() as u64
    }

    /// The first block that a call writes, and how many it writes.
    fn range(&self, call: TraceLine) -> Result<(u64, u64), ScriptFault> {
        match call {
            TraceLine::Fill { first, blocks, .. } | TraceLine::Trim { first, blocks } => {
                Ok((first, blocks))
            }
            TraceLine::Write { first } => {
                let size = self.block_bytes.max(1);
                if self.bytes.len() % size != 0 {
                    return Err(ScriptFault::Words);
                }
                Ok((first, (self.bytes.len() / size) as u64))
            }
            _ => Ok((0, 0)),
        }
    }

    /// The block that a call writes as the one with this number.
    fn block(&self, call: TraceLine, number: u64) -> Result<Vec<u8>, ScriptFault> {
        let byte = match call {
            TraceLine::Fill { byte, .. } => byte,
            TraceLine::Write { .. } => {
                let mut blocks = self.bytes.chunks(self.block_bytes.max(1));
                let block = blocks.nth(number as usize).ok_or(ScriptFault::Words)?;
                return Ok(Vec::from_slice(self.alloc, block)?);
            }
            _ => 0,
        };
        Ok(vec![in self.alloc; byte; self.block_bytes]?)
    }

    fn write_block(&mut self, call: TraceLine, number: u64) -> Result<(), ScriptFault> {
        let block = self.block(call, number)?;
        let (first, _) = self.range(call)?;
        let place = first.saturating_add(number) as usize;
        *self.blocks.get_mut(place).ok_or(ScriptFault::Words)? = block;
        Ok(())
    }

    fn answer_read(&self, first: u64, blocks: u64, reply: &mut String) -> Result<(), ScriptFault> {
        if self.is_past_end(first, blocks) {
            writeln!(reply, "refused 1 OutOfRange")?;
            return Ok(());
        }
        for place in first..first.saturating_add(blocks) {
            let block = self.blocks.get(place as usize).ok_or(ScriptFault::Words)?;
            show_block(place, block, reply)?;
        }
        writeln!(reply, "ok")?;
        Ok(())
    }

    fn answer_write(&mut self, call: TraceLine, reply: &mut String) -> Result<(), ScriptFault> {
        let (first, blocks) = self.range(call)?;
        if self.is_past_end(first, blocks) {
            writeln!(reply, "refused 1 OutOfRange")?;
            return Ok(());
        }
        for number in 0..blocks {
            self.write_block(call, number)?;
        }
        writeln!(reply, "ok")?;
        Ok(())
    }

    fn answer_growth(&mut self, blocks: u64, reply: &mut String) -> Result<(), ScriptFault> {
        if blocks < self.blocks.len() as u64 {
            writeln!(reply, "refused 7 Smaller")?;
        } else if blocks > self.most {
            writeln!(reply, "refused 8 Reserve")?;
        } else {
            self.extend(blocks)?;
            writeln!(reply, "ok")?;
        }
        Ok(())
    }

    /// Answers a line of a trace, and puts its reply after `reply`.
    pub fn answer(&mut self, line: &[u8], reply: &mut String) -> Result<(), ScriptFault> {
        let call = self.call(line)?;
        match call {
            TraceLine::Read { first, blocks } => self.answer_read(first, blocks, reply),
            TraceLine::Grow { blocks } => self.answer_growth(blocks, reply),
            TraceLine::Idle { .. } | TraceLine::Remount => {
                writeln!(reply, "ok")?;
                Ok(())
            }
            _ => self.answer_write(call, reply),
        }
    }

    /// Answers lines up to the place where these are the replies to them, and says how many that are.
    pub fn answer_up_to(
        &mut self,
        lines: &[Vec<u8>],
        replies: &[u8],
    ) -> Result<usize, ScriptFault> {
        let mut text = String::new(self.alloc);
        for (number, line) in lines.iter().enumerate() {
            if text.as_bytes() == replies {
                return Ok(number);
            }
            self.answer(line, &mut text)?;
        }
        if text.as_bytes() == replies {
            return Ok(lines.len());
        }
        Err(ScriptFault::Replies)
    }

    /// The replies to lines.
    pub fn answers(&mut self, lines: &[Vec<u8>]) -> Result<String, ScriptFault> {
        let mut replies = String::new(self.alloc);
        for line in lines {
            self.answer(line, &mut replies)?;
        }
        Ok(replies)
    }

    /// In how many steps a stop can find a line: the blocks of a write, one for a growth, and none for a
    /// line that changes nothing.
    pub fn steps(&mut self, line: &[u8]) -> Result<u64, ScriptFault> {
        match self.call(line)? {
            TraceLine::Grow { .. } => Ok(1),
            call => {
                let (_, blocks) = self.range(call)?;
                Ok(blocks)
            }
        }
    }

    /// Does the step with this number of a line.
    pub fn step(&mut self, line: &[u8], number: u64) -> Result<(), ScriptFault> {
        match self.call(line)? {
            TraceLine::Grow { blocks } => Ok(self.extend(blocks)?),
            call => self.write_block(call, number),
        }
    }

    /// Whether these are the blocks of the array.
    pub fn is_encoded(&self, blocks: &[Vec<u8>]) -> bool {
        if blocks.len() != self.blocks.len() {
            return false;
        }
        for (block, other) in blocks.iter().zip(&self.blocks) {
            if block != other {
                return false;
            }
        }
        true
    }
}
