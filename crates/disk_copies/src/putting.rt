// Whole blocks that are written to a disk, those of zeros by trims if that is asked for.

ghost use Rattle.std.specs.Prelude.{◌≡◌, ◌+◌, ◌*◌, ◌^◌, ◌≤◌, ◌<◌, ℕ, IfErr, IsTrue, length, replicate, take, true};
ghost use Rattle.zone_translator.specs.Answers.{AreBlocksOf, count_of_blocks, write_bytes};
ghost use Rattle.zone_translator.specs.Flat.{FlatCall, with_nothing};
ghost use Rattle.zone_translator.specs.Keeping.{KeepsServed};
ghost use Rattle.zone_translator.specs.View.{DiskCause, StaysAlike, disk_size, flat_of};

use drive_port::Device;
use zone_translator::{AnyDisk, DiskFault};

/// Whether all bytes of a block are zeros.
fn is_zero(block: &[u8]) -> bool
    ensures { result ≡ true → block.now ≡ replicate (length block.now) 0 }
{
    // The bytes after the first one are those before the last one.
    match block.split_first() {
        Some((0, rest)) => rest == &block[..rest.len()],
        _ => false,
    }
}

/// Whole blocks that are next to each other, and alike: all of them are zeros, or none is.
#[derive(Clone, Copy)]
struct Run {
    bytes: usize,
    zeros: bool,
}

/// The longest run at the front of whole blocks.
fn first_run(bytes: &[u8], block: usize) -> Run
    requires some { 0 < block }
    requires long { block ≤ length bytes.now }
    ensures whole { (n : ℕ) × (0 < n) × (result.bytes ≡ n * block) }
    ensures within { result.bytes ≤ length bytes.now }
    ensures zeros { result.zeros ≡ true → take result.bytes bytes.now ≡ replicate result.bytes 0 }
{
    let zeros = is_zero(&bytes[..block]);
    let mut run = block;
    while bytes.len() - run >= block && is_zero(&bytes[run..run + block]) == zeros {
        run += block;
    }
    Run { bytes: run, zeros }
}

/// Writes a run of blocks, or trims it.
fn put_run<D: Device + Drop>(
    disk: &mut AnyDisk<D>,
    first: u64,
    bytes: &[u8],
    zeros: bool,
) -> Result<(), DiskFault>
    requires whole { AreBlocksOf disk.old bytes.now }
    requires zeros { zeros ≡ true → bytes.now ≡ replicate (length bytes.now) 0 }
    ensures flat { IsTrue disk.new.drive.clean
        → FlatCall (flat_of disk.old) (write_bytes disk.old first bytes.now) (with_nothing result) (flat_of disk.new) }
    ensures cause { IsTrue disk.new.drive.clean → IfErr result (DiskCause disk.new) }
    ensures keeps { IsTrue disk.new.drive.clean → KeepsServed disk.old disk.new }
    // Whatever the Reads returned, shape and size stay.
    ensures alike { StaysAlike disk.old disk.new }
{
    if !zeros {
        return disk.write(first, bytes);
    }
    let blocks = bytes.len() / disk.block_bytes();
    disk.trim(first, blocks as u64)
}

/// Writes whole blocks from the block `first` on. If it is sparse, those of zeros are trimmed. After a refusal a front
/// of the blocks is written.
pub(crate) fn put<D: Device + Drop>(
    disk: &mut AnyDisk<D>,
    first: u64,
    bytes: &[u8],
    sparse: bool,
) -> Result<(), DiskFault>
    requires whole { AreBlocksOf disk.old bytes.now }
    requires room { 0 < count_of_blocks disk.old bytes.now
        → first + count_of_blocks disk.old bytes.now ≤ disk_size disk.old }
    requires few { disk_size disk.old ≤ 2 ^ 31 }
    ensures flat { IsTrue disk.new.drive.clean
        → FlatCall (flat_of disk.old) (write_bytes disk.old first bytes.now) (with_nothing result) (flat_of disk.new) }
    ensures cause { IsTrue disk.new.drive.clean → IfErr result (DiskCause disk.new) }
    ensures keeps { IsTrue disk.new.drive.clean → KeepsServed disk.old disk.new }
    // Whatever the Reads returned, shape and size stay.
    ensures alike { StaysAlike disk.old disk.new }
{
    if !sparse {
        return disk.write(first, bytes);
    }
    let block = disk.block_bytes();
    let mut done = 0;
    while done < bytes.len() {
        let run = first_run(&bytes[done..], block);
        let at = first + (done / block) as u64;
        put_run(disk, at, &bytes[done..done + run.bytes], run.zeros)?;
        done += run.bytes;
    }
    Ok(())
}
