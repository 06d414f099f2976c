// The drive in a file, whose blocks are written out.

ghost use Rattle.std.specs.Prelude.{◌≡◌};
ghost use Rattle.disk_copies.specs.DriveCopies.{ExportsFile, blocks_asked};

use crate::copy_fault::CopyFault;
use crate::exporting::export_blocks;
use crate::job::ExportJob;
use drive_port::Honest;
use job_drives::{KeepFault, mount_served, restarted_drive};
use std::alloc::Global;
use std::cell::Cell;
use std::io::{Read, Write};
use zone_drive::Habit;

/// How many blocks are asked for, of a disk of this size: all from the first one on if no number was given, but one at
/// least, so that a first one past the end is refused.
pub fn blocks_asked(count: Option<u64>, first: u64, size: u64) -> u64
    ensures { result ≡ blocks_asked count first size }
{
    match count {
        Some(count) => count,
        None => size.saturating_sub(first).max(1),
    }
}

/// Writes blocks of the drive in a file: it is restarted and mounted in memory, and the file is only read. How many
/// bytes these blocks have is put into `total` before.
pub fn export_drive<I: Read, W: Write>(
    alloc: Global,
    job: &ExportJob,
    total: &Cell<Option<u64>>,
    bytes: &mut I,
    writer: &mut W,
) -> Result<(), CopyFault>
    ensures { ExportsFile job.now (I.remaining bytes.old) (W.contents writer.old) (W.contents writer.new) result }
{
    let begun = match restarted_drive(alloc, bytes, Habit::Lazy) {
        Ok(begun) => begun,
        Err(fault) => return Err(CopyFault::File(KeepFault::Image(fault))),
    };
    let mut disk = match mount_served(alloc, begun.drive, None) {
        Ok(disk) => disk.into_any(),
        Err((fault, _drive)) => return Err(CopyFault::Mount(fault)),
    };
    let blocks = blocks_asked(job.count, job.first, disk.blocks());
    total.set(Some(blocks.saturating_mul(disk.block_bytes() as u64)));
    let exported = export_blocks(alloc, &mut disk, writer, job.first, blocks);
    disk.device().vouch();
    match exported {
        Ok(()) => Ok(()),
        Err(fault) => Err(CopyFault::Export(fault)),
    }
}
