//! Drives that are checked: some batches in their zones, encoded by hand.

use drive_port::Device;
use nvme_wire::{Action, Command};
use std::alloc::{AllocError, Global};
use std::test::Fail;
use zone_drive::Drive;
use zone_states::Geometry;

/// The drive of the README: zones of 6 blocks in 8, two of which may be active and open.
pub const SMALL: Geometry = Geometry {
    block: 512,
    zones: 4,
    size: 8,
    capacity: 6,
    transfer: 4,
    active: 2,
    open: 2,
};

/// A batch of the host that writes some blocks, as `docs/formats.md` encodes it.
pub struct Written {
    pub zone: u32,
    pub sequence: u64,
    /// The entries of its header. That of a trim has bit 63, too.
    pub blocks: &'static [u64],
    /// How many of the blocks that its Append writes are left out at the end. A trim has none.
    pub cut: usize,
}

/// How many logical blocks the headers say.
const SIZE: u32 = 6;

/// The kind of a batch of the host and that of a Move, in a header.
const HOST: u16 = 1;

const MOVE: u16 = 2;

/// The blocks of a batch of this kind, each of 512 bytes. A Move is out of zone 0.
fn batch_bytes(alloc: Global, written: &Written, kind: u16) -> Result<Vec<u8>, Fail> {
    let mut bytes = Vec::new(alloc);
    bytes.extend_from_slice(b"ZLOGBAT1")?;
    bytes.extend_from_slice(&2u16.to_le_bytes())?;
    bytes.extend_from_slice(&kind.to_le_bytes())?;
    bytes.extend_from_slice(&u32::try_from(written.blocks.len())?.to_le_bytes())?;
    bytes.extend_from_slice(&written.sequence.to_le_bytes())?;
    bytes.extend_from_slice(&0u32.to_le_bytes())?;
    bytes.extend_from_slice(&SIZE.to_le_bytes())?;
    for block in written.blocks {
        bytes.extend_from_slice(&block.to_le_bytes())?;
    }
    let blocks = written
        .blocks
        .len()
        .saturating_add(1)
        .saturating_sub(written.cut);
    bytes.resize(blocks.saturating_mul(512), 0)?;
    Ok(bytes)
}

/// Appends a batch to its zone.
fn put(
    alloc: Global,
    drive: &mut Drive,
    geometry: Geometry,
    written: &Written,
    kind: u16,
) -> Result<(), Fail> {
    let bytes = batch_bytes(alloc, written, kind)?;
    let command = Command::Append {
        zslba: geometry.start_of(written.zone),
        blocks: u32::try_from(bytes.len() / 512)?.max(1).min(65536),
    };
    let mut returned = Vec::new(alloc);
    let _ = drive.submit(&command.encode(0), &bytes, &mut returned);
    Ok(())
}

/// Appends one block to the zone that starts there. It begins with these bytes, and the rest of it is zeros.
pub fn put_block(
    alloc: Global,
    drive: &mut Drive,
    zslba: u64,
    front: &[u8],
) -> Result<(), AllocError> {
    let mut bytes = Vec::from_slice(alloc, front)?;
    bytes.resize(512, 0)?;
    let command = Command::Append { zslba, blocks: 1 };
    let mut returned = Vec::new(alloc);
    let _ = drive.submit(&command.encode(0), &bytes, &mut returned);
    Ok(())
}

/// Makes a zone Full.
pub fn finish(alloc: Global, drive: &mut Drive, slba: u64) {
    let command = Command::Send {
        slba,
        action: Action::Finish,
        all: false,
    };
    let mut returned = Vec::new(alloc);
    let _ = drive.submit(&command.encode(0), &[], &mut returned);
}

/// A drive with these batches.
pub fn drive_with(alloc: Global, geometry: Geometry, all: &[Written]) -> Result<Drive, Fail> {
    let mut drive = Drive::new(alloc, geometry)?;
    for written in all {
        put(alloc, &mut drive, geometry, written, HOST)?;
    }
    Ok(drive)
}

/// Appends a Move out of zone 0 to its zone.
pub fn move_out(
    alloc: Global,
    drive: &mut Drive,
    geometry: Geometry,
    written: &Written,
) -> Result<(), Fail> {
    put(alloc, drive, geometry, written, MOVE)
}
