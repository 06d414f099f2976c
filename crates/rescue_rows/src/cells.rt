use std::alloc::{AllocError, Global};
use zone_states::{Zone, ZoneState};

/// A block of a zone.
#[derive(Clone, Copy)]
pub enum Cell {
    /// The header of a batch with this sequence, which writes these blocks.
    Writes(u64, &'static [u64]),
    /// The header of a batch with this sequence, which trims these blocks.
    Trims(u64, &'static [u64]),
    /// A block of this byte.
    Data(u8),
}

/// The size that each header says.
const SIZE: u32 = 6;

/// The bit of an entry that is set for a trim.
const TRIM: u64 = 1 << 63;

/// A header of version 2 and kind 1, up to its entries.
fn head(alloc: Global, sequence: u64, count: u32) -> Result<Vec<u8>, AllocError> {
    let mut block = Vec::new(alloc);
    block.extend_from_slice(b"ZLOGBAT1")?;
    block.extend_from_slice(&[2, 0, 1, 0])?;
    block.extend_from_slice(&count.to_le_bytes())?;
    block.extend_from_slice(&sequence.to_le_bytes())?;
    block.extend_from_slice(&[0, 0, 0, 0])?;
    block.extend_from_slice(&SIZE.to_le_bytes())?;
    Ok(block)
}

fn header(alloc: Global, sequence: u64, blocks: &[u64], bit: u64) -> Result<Vec<u8>, AllocError> {
    let mut block = head(alloc, sequence, blocks.len().min(60) as u32)?;
    for entry in blocks {
        block.extend_from_slice(&(*entry | bit).to_le_bytes())?;
    }
    block.resize(512, 0)?;
    Ok(block)
}

fn block_of(alloc: Global, cell: Cell) -> Result<Vec<u8>, AllocError> {
    match cell {
        Cell::Writes(sequence, blocks) => header(alloc, sequence, blocks, 0),
        Cell::Trims(sequence, blocks) => header(alloc, sequence, blocks, TRIM),
        Cell::Data(byte) => Vec::from_elem(alloc, byte, 512),
    }
}

/// A zone of these blocks.
pub fn zone_of(alloc: Global, state: ZoneState, cells: &[Cell]) -> Result<Zone, AllocError> {
    let mut bytes = Vec::new(alloc);
    for cell in cells {
        let block = block_of(alloc, *cell)?;
        bytes.extend_from_slice(&block)?;
    }
    Ok(Zone::from_parts(state, bytes))
}
