ghost use Rattle.std.specs.Prelude.{◌≡◌, ◌≢◌, ◌<◌, ◌≤◌, ◌↔◌, true, [], IfErr, IfSome, IsErrOf, Ok, OnOk, length};
ghost use Rattle.std.specs.Io.KnownBytes.{IsAtEnd, Keeps, prepend_known};
ghost use Rattle.disk_files.specs.Ahead.{ReadsPart};
ghost use Rattle.disk_files.specs.Line.{NoFeed, ReadsLine};
ghost use Rattle.disk_files.specs.declared.line_reader.LineFault.TheVariants.{Memory};

use crate::ahead::{Ahead, Part};
use std::alloc::{AllocError, Global};
use std::io::Read;
use std::marker::Model;
use thiserror::Error;

/// The greatest number of bytes in a line, without its line feed.
pub const LONGEST_LINE: usize = 4_194_304;

/// How often a reader is asked for bytes at most.
const MOST_READS: u64 = 1 << 62;

/// Why no line was read.
#[derive(Clone, Copy, Debug, PartialEq, Eq, Error)]
pub enum LineFault {
    /// The line has more than `LONGEST_LINE` bytes.
    #[error("a line is too long")]
    Long,
    /// The reader failed, or hadn't ended after 2^62 reads.
    #[error("the input failed")]
    Input,
    /// There is no memory for the line.
    #[error("out of memory")]
    Memory,
}

impl From<AllocError> for LineFault {
    ghost from_gives = { λ _ fault. fault ≡ Memory };

    fn from(_error: AllocError) -> LineFault {
        LineFault::Memory
    }
}

/// Reads the lines of a reader, up to 64 KiB at a time, and keeps the last one. It is seen as the bytes that are left
/// to read, where those are known, and that line.
#[derive(Drop)]
pub struct LineReader<R: Read + Drop> {
    reader: R,
    ahead: Ahead,
    reads: u64,
}

impl<R: Read + Drop> Model for LineReader<R> {
    ghost use Rattle.std.specs.Prelude.{◌≤◌};
    ghost use Rattle.std.specs.Io.KnownBytes.{prepend_known};
    ghost use Rattle.disk_files.specs.Line.{LinesView};
    ghost use Rattle.disk_files.specs.declared.line_reader.TheConstants.{MOST_READS};

    ghost Value = { LinesView };

    ghost view = { λ r. record { left = prepend_known r.ahead.bytes (R.remaining r.reader); line = r.ahead.line } };

    ghost invariant = { λ r. r.reads ≤ MOST_READS };
}

/// Reads ahead, if nothing is.
fn fill<R: Read>(reader: &mut R, ahead: &mut Ahead, reads: &mut u64) -> Result<(), LineFault>
    requires reads { reads.old ≤ MOST_READS }
    requires goes_on { ahead.old.is_open ≡ true }
    ensures reads { reads.new ≤ MOST_READS }
    ensures kept { Keeps (prepend_known ahead.old.bytes (R.remaining reader.old))
        (prepend_known ahead.new.bytes (R.remaining reader.new)) }
    ensures end { OnOk result (ahead.new.bytes ≡ [] → IsAtEnd (R.remaining reader.new)) }
    ensures line { ahead.new.line ≡ ahead.old.line }
    ensures goes_on { ahead.new.is_open ≡ true }
    ensures err { IfErr result (λ fault. fault ≢ LineFault.Long) }
{
    if !ahead.is_empty() {
        return Ok(());
    }
    if *reads >= MOST_READS {
        return Err(LineFault::Input);
    }
    *reads += 1;
    ahead.refill(reader)
}

/// Takes bytes of the line, and reads ahead before that, if nothing is.
fn take_part<R: Read>(
    reader: &mut R,
    ahead: &mut Ahead,
    reads: &mut u64,
    room: usize,
) -> Result<Part, LineFault>
    requires reads { reads.old ≤ MOST_READS }
    requires goes_on { ahead.old.is_open ≡ true }
    requires some { 1 ≤ room }
    ensures reads { reads.new ≤ MOST_READS }
    ensures takes { ReadsPart (prepend_known ahead.old.bytes (R.remaining reader.old))
        (prepend_known ahead.new.bytes (R.remaining reader.new)) room ahead.old.line ahead.new.line
        result }
    ensures goes_on { result ≢ Ok Part.Line → ahead.new.is_open ≡ true }
{
    fill(reader, ahead, reads)?;
    Ok(ahead.take(room))
}

/// Reads the next line. False if no byte is left.
fn read_line<R: Read>(reader: &mut R, ahead: &mut Ahead, reads: &mut u64) -> Result<bool, LineFault>
    requires { reads.old ≤ MOST_READS }
    ensures reads { reads.new ≤ MOST_READS }
    ensures line { ReadsLine (prepend_known ahead.old.bytes (R.remaining reader.old))
        (prepend_known ahead.new.bytes (R.remaining reader.new)) ahead.new.line result }
    ensures long { IsErrOf result LineFault.Long ↔ (LONGEST_LINE < length ahead.new.line) }
{
    ahead.begin();
    while ahead.line().len() <= LONGEST_LINE {
        let room = LONGEST_LINE + 1 - ahead.line().len();
        match take_part(reader, ahead, reads, room)? {
            Part::Front => {}
            Part::Line => return Ok(true),
            Part::End => {
                if ahead.line().is_empty() {
                    return Ok(false);
                }
                return Ok(true);
            }
        }
    }
    Err(LineFault::Long)
}

impl<R: Read + Drop> LineReader<R> {
    /// Reads the lines of this reader. It allocates nothing yet.
    pub fn new(alloc: Global, reader: R) -> Self
        ensures { result ≡ record { left = R.remaining reader; line = [] } }
    {
        LineReader {
            reader,
            ahead: Ahead::new(alloc),
            reads: 0,
        }
    }

    /// The line that was read last, without its line feed. After a fault these are the bytes of the line that were
    /// read.
    pub fn line(&self) -> &[u8]
        ensures { result.now ≡ self.now.line }
    {
        self.ahead.line()
    }

    /// Whether a whole line was read ahead, so that the next one is read without asking the reader for bytes.
    pub fn has_line(&self) -> bool
        ensures { result ≡ true → IfSome self.now.left (λ bytes. NoFeed bytes → ⊥) }
    {
        self.ahead.has_line()
    }

    /// Reads the next line; the last line may lack a line feed. False if no byte is left.
    pub fn next_line(&mut self) -> Result<bool, LineFault>
        ensures reads { ReadsLine self.old.left self.new.left self.new.line result }
        ensures long { IsErrOf result LineFault.Long ↔ (LONGEST_LINE < length self.new.line) }
    {
        read_line(&mut self.reader, &mut self.ahead, &mut self.reads)
    }
}
