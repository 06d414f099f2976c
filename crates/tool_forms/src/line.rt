ghost use Rattle.std.specs.Prelude.{◌≡◌, ◌++◌, IfOk, OnOk, length};
ghost use Rattle.hex.specs.Hex.{encode_lower};
ghost use Rattle.nvme_wire.specs.Entry.{IsAdmitted};
ghost use Rattle.disk_files.specs.RawLine.{beside_text};
ghost use Rattle.tool_forms.specs.Entries.{IsLineOf, IsRawLine};

use crate::entry::Entry;
use std::alloc::{AllocError, Global};

/// Adds the digits of bytes, in lower case.
fn push_digits(alloc: Global, line: &mut Vec<u8>, bytes: &[u8]) -> Result<(), AllocError>
    ensures { OnOk result (line.new.items ≡ line.old.items ++ encode_lower bytes.now) }
{
    let digits = hex::encode(alloc, bytes)?;
    line.extend_from_slice(digits.as_bytes())
}

/// Adds a space and the digits of data, if there is any.
fn push_beside(alloc: Global, line: &mut Vec<u8>, bytes: &[u8]) -> Result<(), AllocError>
    ensures { OnOk result (line.new.items ≡ line.old.items ++ beside_text bytes.now) }
{
    if bytes.is_empty() {
        return Ok(());
    }
    line.push(b' ')?;
    push_digits(alloc, line, bytes)
}

/// The raw line of 64 bytes and the data beside them, with a line feed.
fn raw_line(alloc: Global, bytes: &[u8], beside: &[u8]) -> Result<Vec<u8>, AllocError>
    requires { length bytes.now ≡ 64 }
    ensures { IfOk result (λ line. IsRawLine bytes.now beside.now line.items) }
{
    let mut line = Vec::new(alloc);
    push_digits(alloc, &mut line, bytes)?;
    push_beside(alloc, &mut line, beside)?;
    line.push(b'\n')?;
    Ok(line)
}

/// The raw line of an entry and the data beside it, with a line feed: 128 digits and, if there is data, a space and its
/// digits.
pub fn entry_line(alloc: Global, entry: &Entry, beside: &[u8]) -> Result<Vec<u8>, AllocError>
    requires { IsAdmitted entry.now.command }
    ensures { IfOk result (λ line. IsLineOf entry.now beside.now line.items) }
{
    let bytes = entry.command.encode(entry.id);
    raw_line(alloc, &bytes, beside)
}
