// Blocks of a disk as flat bytes.

ghost use Rattle.std.specs.Prelude.{◌≡◌, ◌+◌, ◌^◌, ◌≤◌, ◌<◌, ◌&&◌, nat_lt, max, length, IsTrue, OnOk};
ghost use Rattle.zone_translator.specs.Keeping.{KeepsServed};
ghost use Rattle.zone_translator.specs.View.{StaysAlike, disk_array, disk_size};
ghost use Rattle.zone_translator.specs.declared.status.DiskStatus.TheVariants.{Serving};
ghost use Rattle.disk_copies.specs.Copies.{Exports, GoesWhole, RefusesPast};

use crate::piece::{block_of, piece_blocks};
use crate::stream_fault::ExportFault;
use disk_files::write_out;
use drive_port::Device;
use std::alloc::Global;
use std::io::Write;
use zone_translator::{AnyDisk, DiskFault};

/// Whether a range goes past the end of a disk. One of no block does not.
fn is_past_end(size: u64, first: u64, blocks: u64) -> bool
    ensures { result ≡ (nat_lt 0 blocks && nat_lt size (first + blocks)) }
{
    blocks > 0 && (blocks > size || first > size - blocks)
}

/// Writes one block of an export.
fn export_block<D: Device + Drop, W: Write>(
    disk: &mut AnyDisk<D>,
    writer: &mut W,
    block: u64,
    bytes: &mut Vec<u8>,
) -> Result<(), ExportFault>
    ensures exports { IsTrue disk.new.drive.clean
        → Exports disk.old block 1 (W.contents writer.old) (W.contents writer.new) result disk.new }
    ensures keeps { IsTrue disk.new.drive.clean → KeepsServed disk.old disk.new }
    // Whatever the Read returned, shape and size stay. Done, a whole block is written.
    ensures alike { StaysAlike disk.old disk.new }
    ensures whole { OnOk result
        (GoesWhole disk.old.drive.geometry.block (W.contents writer.old) (W.contents writer.new) 1) }
{
    if let Err(fault) = disk.read(block, 1, bytes) {
        match fault {
            DiskFault::Failed => return Err(ExportFault::Unread(block)),
            _ => return Err(ExportFault::Disk(fault)),
        }
    }
    write_out(writer, bytes)?;
    Ok(())
}

/// Writes a piece of an export block by block.
fn export_singly<D: Device + Drop, W: Write>(
    disk: &mut AnyDisk<D>,
    writer: &mut W,
    first: u64,
    blocks: u64,
    bytes: &mut Vec<u8>,
) -> Result<(), ExportFault>
    requires in_range { first + blocks ≤ disk_size disk.old }
    requires fits { first + blocks < 2 ^ 64 }
    ensures exports { IsTrue disk.new.drive.clean
        → Exports disk.old first blocks (W.contents writer.old) (W.contents writer.new) result disk.new }
    ensures keeps { IsTrue disk.new.drive.clean → KeepsServed disk.old disk.new }
    // Whatever the Reads returned, shape and size stay. Done, that many whole blocks are written.
    ensures alike { StaysAlike disk.old disk.new }
    ensures whole { OnOk result
        (GoesWhole disk.old.drive.geometry.block (W.contents writer.old) (W.contents writer.new) blocks) }
{
    for i in 0..blocks {
        export_block(disk, writer, first + i, bytes)?;
    }
    Ok(())
}

/// Writes one piece of an export. Where the drive fails at one of its blocks, those before it are written.
fn export_piece<D: Device + Drop, W: Write>(
    disk: &mut AnyDisk<D>,
    writer: &mut W,
    first: u64,
    blocks: u64,
    piece: &mut Vec<u8>,
) -> Result<(), ExportFault>
    requires some { 0 < blocks }
    requires in_range { first + blocks ≤ disk_size disk.old }
    requires fits { first + blocks < 2 ^ 64 }
    ensures exports { IsTrue disk.new.drive.clean
        → Exports disk.old first blocks (W.contents writer.old) (W.contents writer.new) result disk.new }
    ensures keeps { IsTrue disk.new.drive.clean → KeepsServed disk.old disk.new }
    // Whatever the Reads returned, shape and size stay. Done, that many whole blocks are written.
    ensures alike { StaysAlike disk.old disk.new }
    ensures whole { OnOk result
        (GoesWhole disk.old.drive.geometry.block (W.contents writer.old) (W.contents writer.new) blocks) }
{
    if let Err(fault) = disk.read_joined(first, blocks, piece) {
        match fault {
            DiskFault::Failed => return export_singly(disk, writer, first, blocks, piece),
            _ => return Err(ExportFault::Disk(fault)),
        }
    }
    write_out(writer, piece)?;
    Ok(())
}

/// Writes the bytes of `blocks` blocks from the block `first` on, and nothing else.
///
/// A range past the end is refused before anything is written. After another fault the first blocks are written, and
/// where the writer failed a beginning of the next ones. A block that the drive does not read ends the export: all
/// blocks before it are written, and the fault names it. Blocks are read in pieces of up to 1 MiB, and one by one where
/// the drive fails in a piece.
pub fn export_blocks<D: Device + Drop, W: Write>(
    alloc: Global,
    disk: &mut AnyDisk<D>,
    writer: &mut W,
    first: u64,
    blocks: u64,
) -> Result<(), ExportFault>
    // While the drive is clean, these are the bytes of its blocks, and the array stays.
    ensures exports { IsTrue disk.new.drive.clean
        → Exports disk.old first blocks (W.contents writer.old) (W.contents writer.new) result disk.new }
    ensures array { IsTrue disk.new.drive.clean → disk_array disk.new ≡ disk_array disk.old }
    ensures keeps { IsTrue disk.new.drive.clean → KeepsServed disk.old disk.new }
    // Whatever the Reads returned, shape and size stay. Done, that many whole blocks are written.
    ensures alike { StaysAlike disk.old disk.new }
    ensures whole { OnOk result
        (GoesWhole disk.old.drive.geometry.block (W.contents writer.old) (W.contents writer.new) blocks) }
    // Whatever they returned, a range past the end is refused before anything is written.
    ensures past { 0 < blocks → disk_size disk.old < first + blocks
        → RefusesPast disk.old (W.contents writer.old) (W.contents writer.new) result disk.new }
{
    let size = disk.blocks();
    if is_past_end(size, first, blocks) {
        return Err(ExportFault::PastEnd(size));
    }
    let most = u64::from(piece_blocks(block_of(disk)));
    let mut piece = Vec::new(alloc);
    let mut done = 0;
    while done < blocks {
        let count = (blocks - done).min(most);
        export_piece(disk, writer, first + done, count, &mut piece)?;
        done += count;
    }
    Ok(())
}
