ghost use Rattle.std.specs.Prelude.{◌≡◌, ◌≤◌, Ok, IfErr, OnOk, length, take, true, false};
ghost use Rattle.std.specs.Io.KnownBytes.{Consumes};
ghost use Rattle.disk_files.specs.Input.{Drops, DropsFewer};
ghost use Rattle.nbd_session.specs.Streams.{FillsBuffer};

use crate::fault::SessionFault;
use std::alloc::AllocError;
use std::io::Read;

/// How many bytes are dropped at a time.
const PIECE: usize = 4096;

/// Fills the buffer. False where nothing is left to read.
pub fn fill<R: Read>(reader: &mut R, buffer: &mut [u8]) -> Result<bool, SessionFault>
    ensures fills { FillsBuffer (R.remaining reader.old) (R.remaining reader.new) buffer.new result }
    ensures length { length buffer.new ≡ length buffer.old }
{
    match disk_files::fill(reader, buffer)? {
        count if count == buffer.len() => Ok(true),
        0 => Ok(false),
        _ => Err(SessionFault::Input),
    }
}

/// Fills the buffer, or fails.
fn fill_all<R: Read>(reader: &mut R, buffer: &mut [u8]) -> Result<(), SessionFault>
    ensures ok { OnOk result (Consumes (R.remaining reader.old) (R.remaining reader.new) buffer.new) }
    ensures err { IfErr result (λ fault. (fault ≡ SessionFault.Input)
        × DropsFewer (R.remaining reader.old) (R.remaining reader.new) (length buffer.new)) }
    ensures length { length buffer.new ≡ length buffer.old }
{
    if fill(reader, buffer)? || buffer.is_empty() {
        return Ok(());
    }
    Err(SessionFault::Input)
}

/// Reads `count` bytes, and drops them.
pub fn skip<R: Read>(reader: &mut R, count: usize) -> Result<(), SessionFault>
    ensures ok { OnOk result (Drops (R.remaining reader.old) (R.remaining reader.new) count) }
    ensures err { IfErr result (λ fault. (fault ≡ SessionFault.Input)
        × DropsFewer (R.remaining reader.old) (R.remaining reader.new) count) }
{
    let mut piece = [0; PIECE];
    let mut left = count;
    while left > 0 {
        let size = left.min(PIECE);
        fill_all(reader, &mut piece[..size])?;
        left -= size;
    }
    Ok(())
}

/// Makes a buffer at least this long.
fn lengthen(held: &mut Vec<u8>, count: usize) -> Result<(), AllocError>
    ensures { OnOk result (count ≤ length held.new.items) }
{
    if held.len() < count {
        held.resize(count, 0)?;
    }
    Ok(())
}

/// Fills the front of a buffer, or fails.
fn fill_front<R: Read>(reader: &mut R, buffer: &mut [u8], count: usize) -> Result<(), SessionFault>
    requires { count ≤ length buffer.old }
    ensures ok { OnOk result (Consumes (R.remaining reader.old) (R.remaining reader.new) (take count buffer.new)) }
    ensures err { IfErr result (λ fault. (fault ≡ SessionFault.Input)
        × DropsFewer (R.remaining reader.old) (R.remaining reader.new) count) }
    ensures length { length buffer.new ≡ length buffer.old }
{
    fill_all(reader, &mut buffer[..count])
}

/// Reads `count` bytes into the front of a buffer, which grows where it is shorter. False where there is no memory
/// for that: the bytes are dropped.
pub fn take_data<R: Read>(
    reader: &mut R,
    held: &mut Vec<u8>,
    count: usize,
) -> Result<bool, SessionFault>
    ensures taken { result ≡ Ok true → (count ≤ length held.new.items)
        × Consumes (R.remaining reader.old) (R.remaining reader.new) (take count held.new.items) }
    ensures dropped { result ≡ Ok false → Drops (R.remaining reader.old) (R.remaining reader.new) count }
    ensures err { IfErr result (λ fault. (fault ≡ SessionFault.Input)
        × DropsFewer (R.remaining reader.old) (R.remaining reader.new) count) }
{
    if lengthen(held, count).is_err() {
        skip(reader, count)?;
        return Ok(false);
    }
    fill_front(reader, held, count)?;
    Ok(true)
}
