ghost use Rattle.std.specs.Prelude.{◌≡◌, ℕ, List, IfErr, OnErr, OnOk};
ghost use Rattle.std.specs.Io.KnownBytes.{Appends};
ghost use Rattle.disk_files.specs.Output.{AppendsFront};
ghost use Rattle.disk_runs.specs.Run.{IsAnswered, Language, LineStops, Runs, exchange};

use crate::fault::RunFault;
use disk_files::{LineReader, WriteFault};
use std::io::{Read, Write};

/// Answers lines, one after the other, and holds the reply to the last one.
pub(crate) trait Answerer {
    /// What an answer depends on, and changes.
    ghost State: { Type 0 };

    ghost state: { Self → State };

    /// What it goes by, which no answer changes.
    ghost Mode: { Type 0 };

    ghost mode: { Self → Mode };

    /// What lines mean to it.
    ghost language: { Mode → Language State };

    /// The reply that is held.
    ghost reply: { Self → List ℕ };

    /// Answers the line of this number.
    fn answer(&mut self, line: &[u8], number: u64) -> Result<(), RunFault>
        ensures ok { OnOk result (IsAnswered (language (mode self.old))
            (state self.old) line.now (reply self.new) (state self.new)) }
        ensures err { IfErr result (λ fault. LineStops (language (mode self.old)) number
            (state self.old) line.now fault (state self.new)) }
        ensures goes_by { mode self.new ≡ mode self.old };

    /// Writes the reply that is held. After a fault a beginning of it is written.
    fn write_reply<W: Write>(&self, writer: &mut W) -> Result<(), WriteFault>
        ensures ok { OnOk result
            (Appends (W.contents writer.old) (W.contents writer.new) (reply self.now)) }
        ensures err { OnErr result
            (AppendsFront (W.contents writer.old) (W.contents writer.new) (reply self.now)) };

    ghost same: { (by : Mode) (x : State) → (language by).Same x x };
}

/// Writes the reply that is held. If no whole line waits to be answered, the replies are sent on their way, so that
/// whoever waits for them before the next line gets them. If that fails, the run continues, since the reply is written:
/// the fault comes from the write that finds no room in the buffer, or from the flush at the end.
fn send_reply<R: Read + Drop, W: Write, A: Answerer>(
    reader: &LineReader<R>,
    writer: &mut W,
    answerer: &A,
) -> Result<(), WriteFault>
    ensures ok { OnOk result
        (Appends (W.contents writer.old) (W.contents writer.new) (A.reply answerer.now)) }
    ensures err { OnErr result
        (AppendsFront (W.contents writer.old) (W.contents writer.new) (A.reply answerer.now)) }
{
    answerer.write_reply(writer)?;
    if !reader.has_line() {
        let _ = writer.flush();
    }
    Ok(())
}

/// Answers each line of the reader, in order, and writes its reply, until the lines end or one has no
/// reply.
pub(crate) fn answer_lines<R: Read + Drop, W: Write, A: Answerer>(
    reader: &mut LineReader<R>,
    writer: &mut W,
    answerer: &mut A,
) -> Result<(), RunFault>
    ensures { Runs (A.language (A.mode answerer.old))
        (exchange reader.old.left (W.contents writer.old) (W.contents writer.new))
        (A.state answerer.old) result (A.state answerer.new) }
{
    for number in 1..u64::MAX {
        match reader.next_line() {
            Ok(true) => {}
            Ok(false) => return Ok(()),
            Err(fault) => return Err(RunFault::of_line(fault, number)),
        }
        answerer.answer(reader.line(), number)?;
        send_reply(reader, writer, answerer)?;
    }
    Err(RunFault::Input)
}
