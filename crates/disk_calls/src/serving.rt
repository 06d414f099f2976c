ghost use Rattle.std.specs.Prelude.{◌≡◌, ◌*◌, IsTrue, None, Some};
ghost use Rattle.zone_choice.specs.Sane.{KeepsShape};
ghost use Rattle.zone_translator.specs.Answers.{AnswersRead};
ghost use Rattle.disk_calls.specs.Serves.{Does, Ends, Obeys, Serves, WritesGiven, refusal, told_by, too_long};
ghost use Rattle.disk_calls.specs.Talk.{IsFresh, OnlyPasses, nothing};

use crate::call::{Asked, CallFault, MOST_BYTES};
use crate::extents::tell_extents;
use crate::host::Host;
use drive_port::Device;
use std::alloc::Global;
use zone_translator::{AnyDisk, DiskFault};

/// Whether these blocks have more bytes than one call reads or writes.
fn too_long<D: Device + Drop>(disk: &AnyDisk<D>, blocks: u64) -> Option<CallFault>
    ensures { result ≡ too_long disk.now blocks }
{
    if blocks > MOST_BYTES / disk.block_bytes() as u64 {
        return Some(CallFault::TooLong);
    }
    None
}

/// Why a call is refused before the disk is asked, if it is.
fn refusal<D: Device + Drop>(disk: &AnyDisk<D>, read_only: bool, asked: Asked) -> Option<CallFault>
    ensures { result ≡ refusal read_only disk.now asked }
{
    match asked {
        Asked::Read { blocks, .. } => too_long(disk, blocks),
        Asked::Write { blocks, .. } if !read_only => too_long(disk, blocks),
        Asked::Write { .. } | Asked::Trim { .. } | Asked::Zero { .. } | Asked::Grow { .. }
            if read_only => { Some(CallFault::ReadOnly) }
        _ => None,
    }
}

/// Shows a host the bytes of blocks.
fn read<D: Device + Drop, H: Host<D>>(
    disk: &mut AnyDisk<D>,
    host: &mut H,
    held: &mut Vec<u8>,
    first: u64,
    blocks: u64,
) -> Result<(), DiskFault>
    requires fresh { IsFresh (H.talk host.old) }
    ensures answers { IsTrue disk.new.drive.clean → IsTrue (H.talk host.new).known
        → AnswersRead disk.old first blocks result (H.talk host.new).passed.shown disk.new }
    ensures only { IsTrue (H.talk host.new).known
        → (H.talk host.new).passed ≡ record nothing { shown = (H.talk host.new).passed.shown } }
    ensures talk { OnlyPasses (H.talk host.old) (H.talk host.new) }
    ensures shape { KeepsShape disk.old.drive disk.new.drive }
{
    disk.read_joined(first, blocks, held)?;
    host.show(held);
    Ok(())
}

/// Writes the bytes of blocks that a host gives.
fn write<D: Device + Drop, H: Host<D>>(
    disk: &mut AnyDisk<D>,
    host: &mut H,
    held: &mut Vec<u8>,
    first: u64,
    blocks: u64,
) -> Result<(), DiskFault>
    requires few { too_long disk.old blocks ≡ None }
    requires fresh { IsFresh (H.talk host.old) }
    ensures writes { IsTrue disk.new.drive.clean → IsTrue (H.talk host.new).known
        → WritesGiven disk.old first blocks (H.talk host.new).passed result disk.new }
    ensures talk { OnlyPasses (H.talk host.old) (H.talk host.new) }
    ensures shape { KeepsShape disk.old.drive disk.new.drive }
{
    let count = blocks as usize * disk.block_bytes();
    held.resize(count, 0)?;
    host.give(held);
    disk.write(first, held)
}

/// Does a call that is not refused beforehand.
fn perform<D: Device + Drop, H: Host<D>>(
    disk: &mut AnyDisk<D>,
    host: &mut H,
    held: &mut Vec<u8>,
    read_only: bool,
    asked: Asked,
) -> Result<(), DiskFault>
    requires allowed { refusal read_only disk.old asked ≡ None }
    requires fresh { IsFresh (H.talk host.old) }
    ensures does { IsTrue disk.new.drive.clean → IsTrue (H.talk host.new).known
        → Does read_only disk.old asked (H.talk host.new).passed result disk.new }
    ensures talk { OnlyPasses (H.talk host.old) (H.talk host.new) }
    ensures shape { KeepsShape disk.old.drive disk.new.drive }
{
    match asked {
        Asked::Read { first, blocks } => read(disk, host, held, first, blocks),
        Asked::Write { first, blocks } => write(disk, host, held, first, blocks),
        Asked::Trim { first, blocks } => disk.trim(first, blocks),
        Asked::Zero { first, blocks } => disk.fill(first, blocks, 0),
        Asked::Extents { first, blocks } => tell_extents(disk, host, first, blocks),
        Asked::Flush if !read_only => disk.flush(),
        Asked::Idle if !read_only => disk.idle(),
        Asked::Grow { blocks } => disk.grow(blocks),
        Asked::Look => {
            host.look(disk);
            Ok(())
        }
        Asked::Flush | Asked::Idle => Ok(()),
    }
}

/// What a host is told of an answer of the disk.
fn told_by(done: Result<(), DiskFault>) -> Result<(), CallFault>
    ensures { result ≡ told_by done }
{
    match done {
        Ok(()) => Ok(()),
        Err(fault) => Err(CallFault::Disk(fault)),
    }
}

/// Answers one call of a host.
fn obey<D: Device + Drop, H: Host<D>>(
    disk: &mut AnyDisk<D>,
    host: &mut H,
    held: &mut Vec<u8>,
    read_only: bool,
    asked: Asked,
) -> Result<(), CallFault>
    requires fresh { IsFresh (H.talk host.old) }
    ensures obeys { IsTrue disk.new.drive.clean → IsTrue (H.talk host.new).known → Obeys read_only disk.old
        (record { asked = asked; passed = (H.talk host.new).passed; told = result }) disk.new }
    ensures talk { OnlyPasses (H.talk host.old) (H.talk host.new) }
    ensures shape { KeepsShape disk.old.drive disk.new.drive }
{
    if let Some(fault) = refusal(disk, read_only, asked) {
        return Err(fault);
    }
    told_by(perform(disk, host, held, read_only, asked))
}

/// Flushes a disk that may change.
fn end<D: Device + Drop>(disk: &mut AnyDisk<D>, read_only: bool) -> Result<(), DiskFault>
    ensures ends { IsTrue disk.new.drive.clean → Ends read_only disk.old result disk.new }
    ensures shape { KeepsShape disk.old.drive disk.new.drive }
{
    if read_only {
        return Ok(());
    }
    disk.flush()
}

/// Answers the calls of a host, one after the other, until it asks for none any more. Then the disk is flushed, unless
/// it may only be read, and given back with the answer to that flush.
///
/// What a call does is promised while the drive is clean: as long as each of its Reads returned what the drive holds.
pub fn serve_calls<D: Device + Drop, H: Host<D>>(
    alloc: Global,
    mut disk: AnyDisk<D>,
    read_only: bool,
    host: &mut H,
) -> (AnyDisk<D>, Result<(), DiskFault>)
    ensures serves { IsTrue result.0.drive.clean → IsTrue (H.talk host.new).known
        → Serves read_only disk (H.talk host.old) (H.talk host.new) result.1 result.0 }
    // Whatever the Reads returned, the drive has the same shape.
    ensures shape { KeepsShape disk.drive result.0.drive }
{
    let mut held = Vec::new(alloc);
    let mut told = Ok(());
    for _call in 0..u64::MAX {
        let Some(asked) = host.next(told) else {
            let ended = end(&mut disk, read_only);
            return (disk, ended);
        };
        told = obey(&mut disk, host, &mut held, read_only, asked);
    }
    let _more = host.next(told);
    let ended = end(&mut disk, read_only);
    (disk, ended)
}
