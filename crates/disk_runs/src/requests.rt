ghost use Rattle.std.specs.Prelude.{◌≡◌, ◌≢◌, ◌<◌, ◌≤◌, ◌*◌, [], IfErr, IsTrue, Ok, OnOk, Some, false, is_some, true};
ghost use Rattle.std.specs.Prelude.{vec_capacity, vec_len};
ghost use Rattle.disk_files.specs.Reply.{ok_text};
ghost use Rattle.zone_choice.specs.Sane.{KeepsShape};
ghost use Rattle.zone_translator.specs.Keeping.{KeepsServed};
ghost use Rattle.zone_translator.specs.View.{CompletesAtMost, DiskCause, StaysAlike, flat_of};
ghost use Rattle.disk_runs.specs.AnyDevice.{HasForm, StaysBy, StaysRead};
ghost use Rattle.disk_runs.specs.Costs.{with_flush};
ghost use Rattle.disk_runs.specs.FlatLines.{AnswersRequest, IsFull, IsOfDisk, IsUntold, RepliesTo, RequestStops};
ghost use Rattle.disk_runs.specs.FlatLines.{Turns, asked, remount, reply_of};
ghost use Rattle.disk_runs.specs.Taken.{FlushesIf};
ghost use Rattle.disk_runs.specs.declared.fault.RunFault.TheVariants.{Memory};
ghost use Rattle.disk_runs.specs.Trace.{Does, EndCause, HasCause, KeepsFault};
ghost use Rattle.disk_runs.specs.Trace.{MountsAgain, StopsBy, TurnsBy};

use crate::fault::RunFault;
use crate::reads::read_blocks;
use disk_files::{TraceLine, ok_reply, out_of_range_reply, reserve_reply, smaller_reply};
use drive_port::Device;
use zone_translator::{AnyDisk, DiskFault};

/// The bytes of the longest reply but those of reads: `refused 1 OutOfRange`, and a line feed.
pub(crate) const SHORT_REPLY: usize = 21;

/// Whether a line asks for something of a disk whose blocks have this many bytes: the data of a `write` has
/// to be whole blocks.
pub(crate) fn is_request(line: TraceLine, bytes: &[u8], block_bytes: usize) -> bool
    requires { 0 < block_bytes }
    ensures { result ≡ is_some (asked block_bytes line bytes.now) }
{
    match line {
        TraceLine::Write { .. } => bytes.len() % block_bytes == 0,
        _ => true,
    }
}

/// Puts the reply to a request that shows nothing into `reply`, which is empty and has room for it. A
/// refusal without a reply is the fault.
fn tell(done: Result<(), DiskFault>, reply: &mut Vec<u8>) -> Result<(), RunFault>
    requires empty { reply.old.items ≡ [] }
    requires room { SHORT_REPLY ≤ vec_capacity reply.old }
    ensures ok { OnOk result (reply_of 0 [] done ≡ Some reply.new.items) }
    ensures err { IfErr result (IsUntold done) }
{
    match done {
        Ok(()) => ok_reply(reply).unwrap(),
        Err(DiskFault::OutOfRange) => out_of_range_reply(reply).unwrap(),
        Err(DiskFault::Smaller) => smaller_reply(reply).unwrap(),
        Err(DiskFault::Reserve) => reserve_reply(reply).unwrap(),
        Err(fault) => return Err(RunFault::Disk(fault)),
    }
    Ok(())
}

/// Gives the cleaner turns, up to one that is refused. Where no clean runs before a turn and none after it, none is
/// due, and the turns that are left would do nothing.
fn clean<D: Device + Drop>(disk: &mut AnyDisk<D>, turns: u32) -> Result<(), DiskFault>
    // While the drive is clean: done, all turns count as taken. Refused, fewer were taken, and the fault has its cause.
    ensures flat { IsTrue disk.new.drive.clean → Turns turns (flat_of disk.old) result (flat_of disk.new) }
    ensures turns { IsTrue disk.new.drive.clean → TurnsBy result turns disk.old disk.new }
    ensures cause { IsTrue disk.new.drive.clean → IfErr result (DiskCause disk.new) }
    // While it is clean, done or refused, a drive that could be mounted still can be, and what is durable is the same.
    ensures keeps { IsTrue disk.new.drive.clean → KeepsServed disk.old disk.new }
    ensures durable { IsTrue disk.new.drive.clean → disk.new.drive.durable ≡ disk.old.drive.durable }
    // Whatever the Reads returned, shape and size stay, and a turn takes two commands at most.
    ensures alike { StaysAlike disk.old disk.new }
    ensures completed { CompletesAtMost disk.old (2 * turns) disk.new }
{
    for _turn in 0..turns {
        let ran = disk.is_cleaning();
        disk.idle()?;
        if !ran && !disk.is_cleaning() {
            return Ok(());
        }
    }
    Ok(())
}

/// Mounts the drive again, and puts the reply into `reply`, which is empty and has room for it.
fn mount_again<D: Device + Drop>(disk: &mut AnyDisk<D>, reply: &mut Vec<u8>) -> Result<(), RunFault>
    requires empty { reply.old.items ≡ [] }
    requires room { SHORT_REPLY ≤ vec_capacity reply.old }
    // While the drive is clean: done, the reply is a flat disk's.
    ensures ok { IsTrue disk.new.drive.clean → OnOk result
        (RepliesTo (flat_of disk.old) remount reply.new.items (flat_of disk.new)) }
    // A refusal is a flat disk's too, and has its cause. The reply never lacks memory.
    ensures err { IsTrue disk.new.drive.clean → IfErr result
        (λ fault. RequestStops (flat_of disk.old) (Some remount) fault (flat_of disk.new)) }
    ensures cause { IsTrue disk.new.drive.clean → IfErr result (HasCause (EndCause disk.new)) }
    ensures no_memory { IfErr result (λ fault. fault ≢ Memory) }
    ensures kind { IfErr result IsOfDisk }
    // While it is clean: done, the drive was mounted again. Refused, a drive that could be mounted still can be. In
    // both cases what is durable is the same.
    ensures keeps { IsTrue disk.new.drive.clean → OnOk result (MountsAgain disk.old disk.new) }
    ensures leaves { IsTrue disk.new.drive.clean → IfErr result (λ fault. KeepsFault fault disk.old disk.new) }
    ensures durable { IsTrue disk.new.drive.clean → disk.new.drive.durable ≡ disk.old.drive.durable }
    // Whatever the Reads returned, the drive has the same shape. Done, the reply is `ok`.
    ensures shape { KeepsShape disk.old.drive disk.new.drive }
    ensures form { OnOk result (reply.new.items ≡ ok_text) }
{
    if let Err(fault) = disk.remount() {
        return Err(RunFault::Mount(fault));
    }
    ok_reply(reply).unwrap();
    Ok(())
}

/// Does what a line asks for, and puts the reply into `reply`, which is empty and has room for a short one.
/// A read leaves in `block` the block that it showed last.
pub(crate) fn answer_request<D: Device + Drop>(
    disk: &mut AnyDisk<D>,
    line: TraceLine,
    bytes: &[u8],
    block: &mut Vec<u8>,
    reply: &mut Vec<u8>,
) -> Result<(), RunFault>
    // The line asks for something: the data of a `write` is whole blocks.
    requires asks { is_some (asked disk.old.drive.geometry.block line bytes.now) ≡ true }
    requires empty { reply.old.items ≡ [] }
    requires room { SHORT_REPLY ≤ vec_capacity reply.old }
    // While the drive is clean: done, the reply is a flat disk's.
    ensures ok { IsTrue disk.new.drive.clean → OnOk result
        (AnswersRequest (flat_of disk.old) (asked disk.old.drive.geometry.block line bytes.now)
        reply.new.items (flat_of disk.new)) }
    // A refusal is a flat disk's too, and has its cause. For `Memory`, the reply has no room for a block's line.
    ensures err { IsTrue disk.new.drive.clean → IfErr result (λ fault.
        RequestStops (flat_of disk.old) (asked disk.old.drive.geometry.block line bytes.now)
        fault (flat_of disk.new)) }
    ensures cause { IsTrue disk.new.drive.clean → IfErr result (HasCause (EndCause disk.new)) }
    ensures full { IfErr result (λ fault. fault ≡ Memory →
        IsFull (vec_capacity reply.new) (vec_len reply.new) (vec_len block.new)) }
    ensures kind { IfErr result IsOfDisk }
    // While it is clean: done, the line did what it says. Refused, a drive that could be mounted still can be.
    ensures does { IsTrue disk.new.drive.clean → OnOk result (Does line bytes.now (Ok tt) disk.old disk.new) }
    ensures leaves { IsTrue disk.new.drive.clean → IfErr result (λ fault. KeepsFault fault disk.old disk.new) }
    // A line that was refused takes no more commands then than one that is done, and the clean that ran is not thrown
    // back.
    ensures stops { IsTrue disk.new.drive.clean
        → IfErr result (λ fault. StopsBy fault line bytes.now disk.old disk.new) }
    // While it is clean, done or refused, what is durable of the drive is the same.
    ensures durable { IsTrue disk.new.drive.clean → disk.new.drive.durable ≡ disk.old.drive.durable }
    // Whatever the Reads returned, the drive keeps its shape, and the line takes no more commands than it may. Done,
    // the reply has its form. For `Memory`, blocks were read at most.
    ensures stays { StaysBy false (Some (line, bytes.now)) disk.old disk.new }
    ensures form { OnOk result (HasForm disk.old.drive.geometry.block line reply.new.items) }
    ensures memory { IfErr result (λ fault. fault ≡ Memory → StaysRead disk.old disk.new) }
{
    match line {
        TraceLine::Read { first, blocks } => read_blocks(disk, first, blocks, block, reply),
        TraceLine::Fill {
            first,
            blocks,
            byte,
        } => tell(disk.fill(first, blocks, byte), reply),
        TraceLine::Write { first } => tell(disk.write(first, bytes), reply),
        TraceLine::Trim { first, blocks } => tell(disk.trim(first, blocks), reply),
        TraceLine::Idle { turns } => tell(clean(disk, turns), reply),
        TraceLine::Grow { blocks } => tell(disk.grow(blocks), reply),
        TraceLine::Remount => mount_again(disk, reply),
    }
}

/// Flushes a disk, if that is asked for.
pub(crate) fn flush_if<D: Device + Drop>(
    disk: &mut AnyDisk<D>,
    flushes: bool,
) -> Result<(), DiskFault>
    ensures flushes { IsTrue disk.new.drive.clean → FlushesIf flushes disk.old result disk.new }
    // Whatever the Reads returned, shape and size stay, and a flush takes one command at most.
    ensures alike { StaysAlike disk.old disk.new }
    ensures completed { CompletesAtMost disk.old (with_flush flushes 0) disk.new }
{
    if !flushes {
        return Ok(());
    }
    disk.flush()
}
