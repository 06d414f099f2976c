ghost use Rattle.zone_choice.specs.Sane.{KeepsShape};
ghost use Rattle.zone_translator.specs.View.{DiskView};
ghost use Rattle.disk_runs.specs.AnyDevice.{any_lines};
ghost use Rattle.disk_runs.specs.FlatLines.{flat};
ghost use Rattle.disk_runs.specs.KeepingLaws.{any_same};
ghost use Rattle.disk_runs.specs.Run.{Runs, exchange};
ghost use Rattle.disk_runs.specs.Taken.{disk_lines};
ghost use Rattle.disk_runs.specs.Trace.{RunGives, RunLeaves, trace};
ghost use Rattle.disk_runs.specs.declared.taking.Taking.{Taking};

use crate::fault::RunFault;
use crate::lines::{Answerer, answer_lines};
use crate::requests::{SHORT_REPLY, answer_request, flush_if};
use crate::taking::Taking;
use disk_files::{LineReader, ParseFault, TraceLine, WriteFault, is_skipped, write_out};
use drive_port::{Device, Honest};
use std::alloc::Global;
use std::io::{Read, Write};
use zone_translator::{AnyDisk, Disk};

/// Answers the lines of a trace by the calls of a disk.
#[derive(Drop)]
struct TraceAnswerer<D: Device + Drop> {
    disk: AnyDisk<D>,
    /// Which lines it takes, and how.
    taking: Taking,
    /// The data of the last line, if it was a `write`.
    bytes: Vec<u8>,
    /// The block that a read showed last.
    block: Vec<u8>,
    reply: Vec<u8>,
}

impl<D: Device + Drop> Answerer for TraceAnswerer<D> {
    ghost State = { DiskView };

    ghost state = { λ t. t.disk };

    ghost Mode = { Taking };

    ghost mode = { λ t. t.taking };

    ghost language = { any_lines };

    ghost reply = { λ t. t.reply.items };

    ghost same = { λ by disk. any_same by disk };

    fn answer(&mut self, line: &[u8], number: u64) -> Result<(), RunFault> {
        self.reply.clear();
        if is_skipped(line) {
            return Ok(());
        }
        let request = match TraceLine::parse(line, &mut self.bytes) {
            Ok(request) => request,
            Err(ParseFault::Grammar) => return Err(RunFault::Line(number)),
            Err(ParseFault::Memory) => return Err(RunFault::Memory),
        };
        let block_bytes = self.disk.block_bytes();
        if !self.taking.takes(request, &self.bytes, block_bytes) {
            return Err(RunFault::Line(number));
        }
        // With this room the reply to a call that is done can always be held.
        self.reply.reserve(SHORT_REPLY)?;
        answer_request(
            &mut self.disk,
            request,
            &self.bytes,
            &mut self.block,
            &mut self.reply,
        )?;
        if let Err(fault) = flush_if(&mut self.disk, self.taking.flushes(request)) {
            return Err(RunFault::Disk(fault));
        }
        Ok(())
    }

    fn write_reply<W: Write>(&self, writer: &mut W) -> Result<(), WriteFault> {
        write_out(writer, &self.reply)
    }
}

/// Answers each line of the reader by the calls of a disk over any device, as [`answer_trace`] does. The disk is given
/// back.
///
/// Whatever the device's Reads return, each line is answered or ends the run, each reply has its form, the drive keeps
/// its shape, and each line takes no more commands than it may. As long as they returned what it holds, the answers are
/// those of `answer_trace`: so are all replies before the first Read that lied.
pub fn answer_any_trace<R: Read + Drop, W: Write, D: Device + Drop>(
    alloc: Global,
    taking: Taking,
    reader: &mut LineReader<R>,
    writer: &mut W,
    disk: AnyDisk<D>,
) -> (AnyDisk<D>, Result<(), RunFault>)
    ensures runs { Runs (any_lines taking) (exchange reader.old.left (W.contents writer.old) (W.contents writer.new))
        disk result.1 result.0 }
    // Whatever the Reads returned.
    ensures shape { KeepsShape disk.drive result.0.drive }
{
    let mut answerer = TraceAnswerer {
        disk,
        taking,
        bytes: Vec::new(alloc),
        block: Vec::new(alloc),
        reply: Vec::new(alloc),
    };
    let result = answer_lines(reader, writer, &mut answerer);
    (answerer.disk, result)
}

/// Answers each line of the reader by the calls of a disk, and writes its reply, until the lines end. `taking` says
/// which lines are taken, and whether the disk is flushed before a reply. The disk is given back.
///
/// After a fault the replies of all lines before stand and, where the writer failed, a beginning of the
/// next one. A line whose flush was refused is done, and has no reply.
pub fn answer_trace<R: Read + Drop, W: Write, D: Device + Honest + Drop>(
    alloc: Global,
    taking: Taking,
    reader: &mut LineReader<R>,
    writer: &mut W,
    disk: Disk<D>,
) -> (Disk<D>, Result<(), RunFault>)
    ensures { Runs (disk_lines taking) (exchange reader.old.left (W.contents writer.old) (W.contents writer.new))
        disk result.1 result.0 }
{
    let (disk, result) = answer_any_trace(alloc, taking, reader, writer, disk.into_any());
    disk.device().vouch();
    (Disk::of(disk), result)
}

/// Mounts the drive as a disk of `blocks` logical blocks, and answers each line of the reader by its calls, as
/// [`answer_trace`] does. The drive is given back.
pub fn run_trace<R: Read + Drop, W: Write, D: Device + Honest + Drop>(
    alloc: Global,
    reader: &mut LineReader<R>,
    writer: &mut W,
    device: D,
    blocks: u64,
) -> (D, Result<(), RunFault>)
    // The lines are answered as a flat disk answers them, which is the one that the drive keeps.
    ensures gives { RunGives flat blocks
        (exchange reader.old.left (W.contents writer.old) (W.contents writer.new))
        (D.drive device) result.1 (D.drive result.0) }
    // The drive can be mounted again; what the lines did to it from its mount on, and why it refused the last one.
    ensures leaves { RunLeaves trace blocks
        (exchange reader.old.left (W.contents writer.old) (W.contents writer.new))
        (D.drive device) result.1 (D.drive result.0) }
{
    let disk = match Disk::mount(alloc, device, blocks) {
        Ok(disk) => disk,
        Err((fault, device)) => return (device, Err(RunFault::Mount(fault))),
    };
    let (disk, result) = answer_trace(alloc, Taking::All, reader, writer, disk);
    (disk.into_device(), result)
}
