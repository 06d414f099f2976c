ghost use Rattle.std.proofs.Common.{refl};
ghost use Rattle.drive_port.specs.Drive.{DriveState};
ghost use Rattle.disk_runs.specs.RawLines.{held_reply, raw};
ghost use Rattle.disk_runs.specs.Run.{Runs, exchange};

use crate::fault::RunFault;
use crate::lines::{Answerer, answer_lines};
use disk_files::{LineReader, ParseFault, WriteFault, is_skipped, parse_raw_line, write_raw_reply};
use drive_port::{Device, Halt, Honest};
use std::alloc::Global;
use std::io::{Read, Write};
use zone_translator::DiskFault;

/// Submits the entries of raw lines to a device.
#[derive(Drop)]
struct RawAnswerer<D: Device + Drop> {
    device: D,
    /// The data with an entry.
    data: Vec<u8>,
    /// The completion of the last line, if it had an entry.
    completion: Option<[u8; 16]>,
    /// The data that came back with it.
    returned: Vec<u8>,
}

impl<D: Device + Honest + Drop> Answerer for RawAnswerer<D> {
    ghost State = { DriveState };

    ghost state = { λ r. D.drive r.device };

    ghost Mode = { Unit {0} };

    ghost mode = { λ _. tt };

    ghost language = { λ _. raw };

    ghost reply = { λ r. held_reply r.completion r.returned.items };

    ghost same = { λ _ _. refl };

    fn answer(&mut self, line: &[u8], number: u64) -> Result<(), RunFault> {
        self.completion = None;
        if is_skipped(line) {
            return Ok(());
        }
        let entry = match parse_raw_line(line, &mut self.data) {
            Ok(entry) => entry,
            Err(ParseFault::Grammar) => return Err(RunFault::Line(number)),
            Err(ParseFault::Memory) => return Err(RunFault::Memory),
        };
        match self.device.submit(&entry, &self.data, &mut self.returned) {
            Ok(completion) => {
                self.completion = Some(completion);
                Ok(())
            }
            Err(Halt::Memory) => Err(RunFault::Disk(DiskFault::OutOfMemory)),
            Err(Halt::Failed) => Err(RunFault::Disk(DiskFault::Failed)),
            Err(Halt::Stopped) => Err(RunFault::Disk(DiskFault::Stopped)),
        }
    }

    fn write_reply<W: Write>(&self, writer: &mut W) -> Result<(), WriteFault> {
        match &self.completion {
            Some(completion) => write_raw_reply(writer, completion, &self.returned),
            None => Ok(()),
        }
    }
}

/// Submits the entry of each raw line of the reader to the device, in order, and writes its completion and
/// the data that came back, until the lines end. The device is given back.
///
/// After a fault the replies of all lines before stand and, where the writer failed, a beginning of the
/// next one. A device that halts is the fault `Disk`, with `OutOfMemory`, `Failed` or `Stopped`.
pub fn run_raw<R: Read + Drop, W: Write, D: Device + Honest + Drop>(
    alloc: Global,
    reader: &mut LineReader<R>,
    writer: &mut W,
    device: D,
) -> (D, Result<(), RunFault>)
    ensures { Runs raw (exchange reader.old.left (W.contents writer.old) (W.contents writer.new))
        (D.drive device) result.1 (D.drive result.0) }
{
    let mut answerer = RawAnswerer {
        device,
        data: Vec::new(alloc),
        completion: None,
        returned: Vec::new(alloc),
    };
    let result = answer_lines(reader, writer, &mut answerer);
    (answerer.device, result)
}
