ghost use Rattle.std.specs.Prelude.{◌≡◌, ◌+◌, ◌^◌, ◌<◌, ◌≤◌, ◌++◌, ◌&&◌, [], IfErr, IsTrue, OnOk};
ghost use Rattle.std.specs.Prelude.{Some, length, nat_lt, vec_capacity, vec_len};
ghost use Rattle.disk_files.specs.Reply.{block_lines};
ghost use Rattle.disk_files.specs.declared.trace_line.TraceLine.TheVariants.{Read};
ghost use Rattle.zone_translator.specs.Flat.{blocks_from, read};
ghost use Rattle.zone_translator.specs.Keeping.{KeepsServed};
ghost use Rattle.zone_translator.specs.View.{StaysAlike, disk_array, disk_size, flat_of};
ghost use Rattle.zone_translator.specs.declared.status.DiskStatus.TheVariants.{Serving};
ghost use Rattle.disk_runs.specs.declared.fault.RunFault.TheVariants.{Memory};
ghost use Rattle.disk_runs.specs.AnyDevice.{HasForm, PutsLines};
ghost use Rattle.disk_runs.specs.FlatLines.{IsFull, IsOfDisk, RepliesTo, RequestStops, single};
ghost use Rattle.disk_runs.specs.Trace.{EndCause, HasCause, ReadsFew};

use crate::fault::RunFault;
use crate::requests::SHORT_REPLY;
use disk_files::{block_line, ok_reply, out_of_range_reply};
use drive_port::Device;
use zone_translator::AnyDisk;

/// Whether a call of these blocks goes past the end of a disk. One of no block does not.
fn is_past_end(size: u64, first: u64, blocks: u64) -> bool
    ensures { result ≡ (nat_lt 0 blocks && nat_lt size (first + blocks)) }
{
    blocks > 0 && (blocks > size || first > size - blocks)
}

/// Puts the lines of blocks after what `reply` holds. Each block is read when its line is made, so that no
/// more than one is held.
fn show_blocks<D: Device + Drop>(
    disk: &mut AnyDisk<D>,
    first: u64,
    blocks: u64,
    block: &mut Vec<u8>,
    reply: &mut Vec<u8>,
) -> Result<(), RunFault>
    // The blocks are in range, and their numbers fit in 64 bits. While the disk serves, the array has its size.
    requires in_range { 0 < blocks → first + blocks ≤ disk_size disk.old }
    requires array { IsTrue disk.old.drive.clean → disk.old.status ≡ Serving
        → length (disk_array disk.old) ≡ disk_size disk.old }
    requires small { first + blocks ≤ 2 ^ 64 }
    // While the drive is clean: done, the reply has the lines of these blocks too, and the flat disk is the same.
    ensures ok { IsTrue disk.new.drive.clean → OnOk result
        ((flat_of disk.new ≡ flat_of disk.old) × (0 < blocks → disk.old.status ≡ Serving)
        × (reply.new.items
        ≡ reply.old.items ++ block_lines first (blocks_from (disk_array disk.old) first blocks))) }
    // A refusal is a flat disk's too, and has its cause. For `Memory`, the reply has no room for a block's line.
    ensures err { IsTrue disk.new.drive.clean → IfErr result
        (λ fault. RequestStops (flat_of disk.old) (Some (single (read first blocks)))
        fault (flat_of disk.new)) }
    ensures cause { IsTrue disk.new.drive.clean → IfErr result (HasCause (EndCause disk.new)) }
    ensures full { IfErr result (λ fault. fault ≡ Memory →
        IsFull (vec_capacity reply.new) (vec_len reply.new) (vec_len block.new)) }
    ensures kind { IfErr result IsOfDisk }
    // While it is clean, done or refused, a drive that could be mounted still can be, and what is durable is the same.
    ensures keeps { IsTrue disk.new.drive.clean → KeepsServed disk.old disk.new }
    ensures durable { IsTrue disk.new.drive.clean → disk.new.drive.durable ≡ disk.old.drive.durable }
    // Whatever the Reads returned, shape and size stay, and a block takes one command at most. Done, the reply has a
    // line for each block, and each of them is whole.
    ensures alike { StaysAlike disk.old disk.new }
    ensures costs { ReadsFew blocks disk.old disk.new }
    ensures form { OnOk result (PutsLines disk.old.drive.geometry.block first blocks reply.old.items reply.new.items) }
{
    for i in 0..blocks {
        if let Err(fault) = disk.read(first + i, 1, block) {
            return Err(RunFault::Disk(fault));
        }
        block_line(first + i, block, reply)?;
    }
    Ok(())
}

/// The bytes of the reply `ok`, with its line feed.
const OK_REPLY: usize = 3;

/// Reads blocks, and puts the reply into `reply`, which is empty and has room for a short one.
pub(crate) fn read_blocks<D: Device + Drop>(
    disk: &mut AnyDisk<D>,
    first: u64,
    blocks: u64,
    block: &mut Vec<u8>,
    reply: &mut Vec<u8>,
) -> Result<(), RunFault>
    requires empty { reply.old.items ≡ [] }
    requires room { SHORT_REPLY ≤ vec_capacity reply.old }
    // While the drive is clean: done, the reply is a flat disk's.
    ensures ok { IsTrue disk.new.drive.clean → OnOk result (RepliesTo (flat_of disk.old) (single (read first blocks))
        reply.new.items (flat_of disk.new)) }
    // A refusal is a flat disk's too, and has its cause. For `Memory`, the reply has no room for a block's line.
    ensures err { IsTrue disk.new.drive.clean → IfErr result
        (λ fault. RequestStops (flat_of disk.old) (Some (single (read first blocks)))
        fault (flat_of disk.new)) }
    ensures cause { IsTrue disk.new.drive.clean → IfErr result (HasCause (EndCause disk.new)) }
    ensures full { IfErr result (λ fault. fault ≡ Memory →
        IsFull (vec_capacity reply.new) (vec_len reply.new) (vec_len block.new)) }
    ensures kind { IfErr result IsOfDisk }
    // While it is clean, done or refused, a drive that could be mounted still can be, and what is durable is the same.
    ensures keeps { IsTrue disk.new.drive.clean → KeepsServed disk.old disk.new }
    ensures durable { IsTrue disk.new.drive.clean → disk.new.drive.durable ≡ disk.old.drive.durable }
    // Whatever the Reads returned, shape and size stay, and a block takes one command at most. Done, the reply has its
    // form.
    ensures alike { StaysAlike disk.old disk.new }
    ensures costs { ReadsFew blocks disk.old disk.new }
    ensures form { OnOk result (HasForm disk.old.drive.geometry.block (Read first blocks) reply.new.items) }
    ensures few { ReadsFew (disk_size disk.old) disk.old disk.new }
{
    if is_past_end(disk.blocks(), first, blocks) {
        out_of_range_reply(reply).unwrap();
        return Ok(());
    }
    show_blocks(disk, first, blocks, block, reply)?;
    reply.reserve(OK_REPLY)?;
    ok_reply(reply).unwrap();
    Ok(())
}
