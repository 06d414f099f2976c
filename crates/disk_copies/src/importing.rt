// Flat bytes as blocks of a disk.

ghost use Rattle.std.specs.Prelude.{◌≡◌, ◌+◌, ◌*◌, ◌<◌, ◌≤◌, IfOk, IsTrue, length};
ghost use Rattle.zone_translator.specs.Keeping.{KeepsServed};
ghost use Rattle.zone_translator.specs.View.{StaysAlike, disk_size};
ghost use Rattle.disk_copies.specs.Copies.{AllComes, PieceComes, Imports, ImportsPiece, piece_blocks};

use crate::piece::{block_of, piece_blocks};
use crate::putting::put;
use crate::stream_fault::ImportFault;
use disk_files::fill;
use drive_port::Device;
use std::alloc::{AllocError, Global};
use std::io::Read;
use zone_translator::AnyDisk;

/// A buffer for a piece of blocks of so many bytes.
fn piece_buffer(alloc: Global, block: u32) -> Result<Vec<u8>, AllocError>
    requires { 0 < block }
    ensures { IfOk result (λ piece. length piece.items ≡ piece_blocks block * block) }
{
    let bytes = u64::from(piece_blocks(block)) * u64::from(block);
    let mut piece = Vec::new(alloc);
    piece.resize(bytes as usize, 0)?;
    Ok(piece)
}

/// Reads a piece, and writes its blocks from the block `first` on. It tells how many: none only at the end. `written`
/// is how many were written, also before a fault.
fn import_piece<D: Device + Drop, R: Read>(
    disk: &mut AnyDisk<D>,
    reader: &mut R,
    piece: &mut [u8],
    first: u64,
    sparse: bool,
    written: &mut u64,
) -> Result<u64, ImportFault>
    requires { length piece.old
        ≡ piece_blocks disk.old.drive.geometry.block * disk.old.drive.geometry.block }
    ensures imports { IsTrue disk.new.drive.clean
        → ImportsPiece disk.old first (R.remaining reader.old) (R.remaining reader.new) result written.new disk.new }
    ensures keeps { IsTrue disk.new.drive.clean → KeepsServed disk.old disk.new }
    // Whatever the Reads returned, shape and size stay, and the blocks that it tells are the disk's.
    ensures alike { StaysAlike disk.old disk.new }
    ensures within { IfOk result (λ count. 0 < count → first + count ≤ disk_size disk.old) }
    ensures bound { 0 < written.new → first + written.new ≤ disk_size disk.old }
    ensures gives { IfOk result (PieceComes disk.old.drive.geometry.block (R.remaining reader.old)
        (R.remaining reader.new)) }
    ensures length { length piece.new ≡ length piece.old }
{
    *written = 0;
    let block = disk.block_bytes();
    let count = fill(reader, piece)?;
    let whole = (count / block) as u64;
    let room = disk.blocks().saturating_sub(first);
    let blocks = whole.min(room);
    put(disk, first, &piece[..blocks as usize * block], sparse)?;
    *written = blocks;
    if whole > room {
        return Err(ImportFault::PastEnd);
    }
    if count % block != 0 {
        return Err(ImportFault::Rest);
    }
    Ok(blocks)
}

/// Reads whole blocks until the reader ends, writes them from the block `first` on, and tells how many. If it is
/// sparse, blocks of zeros are trimmed.
///
/// After a fault the blocks before are written. If the reader failed, those are missing that were read with the last
/// bytes, less than 1 MiB of them; if the disk refused, a front of the last ones is written. `written` is how many
/// blocks were written, without such a front.
pub fn import_blocks<D: Device + Drop, R: Read>(
    alloc: Global,
    disk: &mut AnyDisk<D>,
    reader: &mut R,
    first: u64,
    sparse: bool,
    written: &mut u64,
) -> Result<u64, ImportFault>
    // While the drive is clean, its array has the blocks that were read, and so many of them were written.
    ensures imports { IsTrue disk.new.drive.clean
        → Imports disk.old first (R.remaining reader.old) (R.remaining reader.new) result written.new disk.new }
    ensures keeps { IsTrue disk.new.drive.clean → KeepsServed disk.old disk.new }
    // Whatever the Reads returned, shape and size stay. Done, the reader is at its end, and gave so many whole blocks.
    ensures alike { StaysAlike disk.old disk.new }
    ensures gives { IfOk result (AllComes disk.old.drive.geometry.block (R.remaining reader.old)
        (R.remaining reader.new)) }
{
    *written = 0;
    let mut piece = piece_buffer(alloc, block_of(disk))?;
    // A disk has few blocks, so that their numbers can be added.
    let _size = disk.blocks();
    let mut taken = 0;
    loop {
        let imported = import_piece(disk, reader, &mut piece, first + taken, sparse, written);
        *written += taken;
        match imported? {
            0 => return Ok(taken),
            count => taken += count,
        }
    }
}
