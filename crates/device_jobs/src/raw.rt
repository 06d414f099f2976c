// Raw lines over the drive behind a device.

use crate::devices::{RawDrive, RawFault};
use disk_files::{LineFault, LineReader, ParseFault, is_skipped, parse_raw_line, write_raw_reply};
use disk_runs::RunFault;
use nvme_wire::{Command, Completion, Status};
use std::alloc::Global;
use std::io::{Read, Write};
use thiserror::Error;
use zone_translator::DiskFault;

/// Why raw lines are answered no further.
#[derive(Clone, Copy, Debug, PartialEq, Eq, Error)]
pub enum SendFault {
    /// A line or a stream has a fault.
    #[error("{0}")]
    Run(RunFault),
    /// A command has no completion.
    #[error("{0}")]
    Raw(RawFault),
}

impl SendFault {
    /// The fault of a run that the program shows by a line.
    pub fn shown(self) -> RunFault {
        match self {
            SendFault::Run(fault) => fault,
            SendFault::Raw(RawFault::Memory) => RunFault::Disk(DiskFault::OutOfMemory),
            SendFault::Raw(RawFault::Unanswered | RawFault::Unflushed) => {
                RunFault::Disk(DiskFault::Stopped)
            }
        }
    }
}

/// What the fault of a line that was not read is to a run, by the line's number.
fn line_fault(fault: LineFault, number: u64) -> SendFault {
    SendFault::Run(match fault {
        LineFault::Long => RunFault::Long(number),
        LineFault::Input => RunFault::Input,
        LineFault::Memory => RunFault::Memory,
    })
}

/// Whether an entry may change a drive: by its opcode, it does not only take data from it (Base Specification 2.0,
/// section 3.3.3.1).
fn may_change(entry: &[u8; 64]) -> bool {
    entry[0] % 4 != 2
}

/// Whether a completion is that of a command that was done.
fn is_done(completion: &[u8; 16]) -> bool {
    match Completion::decode(completion) {
        Ok(completion) => completion.status == Status::Success,
        Err(_) => false,
    }
}

/// Sends a Flush to a drive.
fn flush_raw<V: RawDrive>(alloc: Global, drive: &mut V) -> Result<(), RawFault> {
    let completion = drive.send(&Command::Flush.encode(0), &[], &mut Vec::new(alloc))?;
    if is_done(&completion) {
        Ok(())
    } else {
        Err(RawFault::Unflushed)
    }
}

/// What lines are sent with.
#[derive(Drop)]
struct Sender {
    alloc: Global,
    /// Whether a Flush follows each entry that may change the drive.
    flushes: bool,
    /// The data with an entry.
    bytes: Vec<u8>,
    /// The data that came back.
    returned: Vec<u8>,
}

impl Sender {
    /// Sends an entry, and a Flush after it if that is to be.
    fn send<V: RawDrive>(&mut self, drive: &mut V, entry: &[u8; 64]) -> Result<[u8; 16], RawFault> {
        let completion = drive.send(entry, &self.bytes, &mut self.returned)?;
        if self.flushes && may_change(entry) {
            flush_raw(self.alloc, drive)?;
        }
        Ok(completion)
    }

    /// Sends the entry of the line of this number, and writes its reply. A line that is skipped has none.
    fn send_line<V: RawDrive, W: Write>(
        &mut self,
        drive: &mut V,
        line: &[u8],
        number: u64,
        output: &mut W,
    ) -> Result<(), SendFault> {
        if is_skipped(line) {
            return Ok(());
        }
        let entry = match parse_raw_line(line, &mut self.bytes) {
            Ok(entry) => entry,
            Err(ParseFault::Grammar) => return Err(SendFault::Run(RunFault::Line(number))),
            Err(ParseFault::Memory) => return Err(SendFault::Run(RunFault::Memory)),
        };
        let completion = match self.send(drive, &entry) {
            Ok(completion) => completion,
            Err(fault) => return Err(SendFault::Raw(fault)),
        };
        match write_raw_reply(output, &completion, &self.returned) {
            Ok(()) => Ok(()),
            Err(_) => Err(SendFault::Run(RunFault::Output)),
        }
    }
}

/// Sends the entry of each raw line to a drive as it is, in order, and writes its completion and the data that came
/// back, until the lines end. The first command without a completion ends that, too. If it `flushes`, a Flush follows
/// each entry that may change the drive, and its completion is written once that is done.
pub fn send_lines<V: RawDrive, R: Read + Drop, W: Write>(
    alloc: Global,
    flushes: bool,
    drive: &mut V,
    input: &mut LineReader<R>,
    output: &mut W,
) -> Result<(), SendFault> {
    let mut sender = Sender {
        alloc,
        flushes,
        bytes: Vec::new(alloc),
        returned: Vec::new(alloc),
    };
    for number in 1..u64::MAX {
        match input.next_line() {
            Ok(true) => {}
            Ok(false) => return Ok(()),
            Err(fault) => return Err(line_fault(fault, number)),
        }
        sender.send_line(drive, input.line(), number, output)?;
        // Whoever waits for the replies before the next line gets them.
        if !input.has_line() {
            let _ = output.flush();
        }
    }
    Err(SendFault::Run(RunFault::Input))
}
