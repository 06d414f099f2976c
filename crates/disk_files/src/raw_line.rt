ghost use Rattle.std.specs.Prelude.{◌≡◌, ◌+◌, ◌*◌, ◌<◌, [], IfOk, IsErrOf, OnErr, length, vec_capacity};
ghost use Rattle.disk_files.specs.RawLine.{exact_bytes_of, raw_line};

use crate::data::{ParseFault, decode_data};
use crate::words::{only_word, split_word};
use hex::FromHex;

/// Decodes an entry, of 128 digits.
fn decode_entry(digits: &[u8]) -> Option<[u8; 64]>
    ensures { result ≡ exact_bytes_of 64 digits.now }
{
    <[u8; 64]>::from_hex(digits).ok()
}

/// Reads a raw line, without its line feed. Its entry is the value, and `bytes` then holds the data beside
/// it, nothing if none; after a fault `bytes` is empty. Memory is wanted only where `bytes` has
/// too little room for the data.
pub fn parse_raw_line(line: &[u8], bytes: &mut Vec<u8>) -> Result<[u8; 64], ParseFault>
    ensures ok { IfOk result (λ entry. raw_line line.now ≡ Some (entry, bytes.new.items)) }
    ensures err { OnErr result (bytes.new.items ≡ []) }
    ensures grammar { IsErrOf result ParseFault.Grammar → raw_line line.now ≡ None }
    // The digits of the entry, a space, and two digits for each byte of data.
    ensures memory { IsErrOf result ParseFault.Memory →
        128 + 1 + 2 * vec_capacity bytes.old < length line.now }
{
    bytes.clear();
    let (digits, rest) = split_word(line);
    let entry = decode_entry(digits).ok_or(ParseFault::Grammar)?;
    let Some(rest) = rest else {
        return Ok(entry);
    };
    let Some(digits) = only_word(rest) else {
        return Err(ParseFault::Grammar);
    };
    decode_data(digits, bytes)?;
    Ok(entry)
}
