// An output that sends replies only once the file of a drive has the changes that they depend on.

ghost use Rattle.std.specs.Prelude.{◌≡◌, IfOk};

use crate::changes_file::ChangesFile;
use crate::gathered_file::Reached;
use std::fs::File;
use std::io;
use std::io::Write;
use std::marker::Model;
use std::rt::Files;

/// When the bytes of an output are sent.
#[derive(Clone, Copy, Debug, PartialEq, Eq)]
pub enum SentAfter {
    /// Once the file has all changes.
    Write,
    /// Once the disk has them, too.
    Sync,
}

/// Sends bytes to an output, once the file of a drive has all changes that were appended before.
/// Whoever writes here has a buffer, so replies that are sent together cost one write of the file.
///
/// If a change cannot be written, or a sync fails, nothing more is sent. The system tells of lost
/// bytes only once.
#[derive(Drop)]
pub struct ChangesOutput<'s, 'a, F: Files<File = File>, W: Write> {
    file: &'s ChangesFile<'a, F>,
    after: SentAfter,
    output: &'s mut W,
}

impl<'s, 'a, F: Files<File = File>, W: Write> Model for ChangesOutput<'s, 'a, F, W> {
    ghost use Rattle.job_drives.specs.declared.changes_output.SentAfter.{SentAfter};

    ghost Value = { SentAfter };

    ghost view = { λ o. o.after };
}

impl<'s, 'a, F: Files<File = File>, W: Write> ChangesOutput<'s, 'a, F, W> {
    /// An output whose bytes wait for the changes of this file.
    pub fn new(file: &'s ChangesFile<'a, F>, after: SentAfter, output: &'s mut W) -> Self
        ensures { result ≡ after }
    {
        ChangesOutput {
            file,
            after,
            output,
        }
    }

    /// Writes or syncs the changes that the next bytes depend on.
    fn wait(&self) -> io::Result<Reached>
        ensures { IfOk result (λ reached. reached ≡ self.now) }
    {
        match self.file.reach(self.after) {
            Ok(reached) => Ok(reached),
            Err(_) => Err(io::Error::from(io::ErrorKind::Other)),
        }
    }
}

impl<F: Files<File = File>, W: Write> Write for ChangesOutput<'_, '_, F, W> {
    fn write(&mut self, bytes: &[u8]) -> io::Result<usize> {
        self.wait()?;
        self.output.write(bytes)
    }

    fn write_all(&mut self, bytes: &[u8]) -> io::Result<()> {
        self.wait()?;
        self.output.write_all(bytes)
    }

    fn flush(&mut self) -> io::Result<()> {
        self.output.flush()
    }
}
