ghost use Rattle.std.specs.Prelude.{◌≡◌, ◌≤◌, ◌<◌, IfOk, OnErr, length, take};
ghost use Rattle.std.specs.Io.KnownBytes.{Consumes, IsAtEnd};
ghost use Rattle.disk_files.specs.Input.{DropsFewer};

use crate::again::read_again;
use std::io::Read;
use thiserror::Error;

/// A reader failed before a buffer was full.
#[derive(Clone, Copy, Debug, PartialEq, Eq, Error)]
#[error("the input failed")]
pub struct FillFault;

/// Reads bytes into the front of a buffer, until it is full or the reader ends. It tells how many.
pub fn fill<R: Read>(reader: &mut R, buffer: &mut [u8]) -> Result<usize, FillFault>
    ensures ok { IfOk result (λ n. (n ≤ length buffer.new)
        × Consumes (R.remaining reader.old) (R.remaining reader.new) (take n buffer.new)
        × (n < length buffer.new → IsAtEnd (R.remaining reader.new))) }
    ensures err { OnErr result
        (DropsFewer (R.remaining reader.old) (R.remaining reader.new) (length buffer.new)) }
    ensures length { length buffer.new ≡ length buffer.old }
{
    let mut at = 0;
    while at < buffer.len() {
        match read_again(reader, &mut buffer[at..]) {
            Ok(0) => return Ok(at),
            Ok(n) => at += n,
            Err(_) => return Err(FillFault),
        }
    }
    Ok(at)
}
