ghost use Rattle.std.specs.Prelude.{◌≡◌, ◌+◌, ◌*◌, ◌<◌, ◌≤◌, ◌++◌, OnErr, OnOk, decimal, length, vec_capacity, vec_len};
ghost use Rattle.hex.specs.Hex.{encode_lower};
ghost use Rattle.disk_files.specs.Reply.{block_line, ok_text, out_of_range_text, reserve_text, same_byte, smaller_text};

use std::alloc::AllocError;

/// Puts the reply `ok` after what `out` holds. Refused for memory, which is wanted only where `out` has
/// too little room, `out` stays unchanged.
pub fn ok_reply(out: &mut Vec<u8>) -> Result<(), AllocError>
    ensures ok { OnOk result (out.new.items ≡ out.old.items ++ ok_text) }
    ensures err { OnErr result (out.new.items ≡ out.old.items) }
    ensures full { OnErr result (vec_capacity out.old < vec_len out.old + 3) }
{
    out.extend_from_slice(b"ok\n")
}

/// Puts the reply to a call past the end after what `out` holds. Refused for memory, which is wanted only
/// where `out` has too little room, `out` stays unchanged.
pub fn out_of_range_reply(out: &mut Vec<u8>) -> Result<(), AllocError>
    ensures ok { OnOk result (out.new.items ≡ out.old.items ++ out_of_range_text) }
    ensures err { OnErr result (out.new.items ≡ out.old.items) }
    ensures full { OnErr result (vec_capacity out.old < vec_len out.old + 21) }
{
    out.extend_from_slice(b"refused 1 OutOfRange\n")
}

/// Puts the reply to a growth below the disk's size after what `out` holds. Refused for memory, which is wanted
/// only where `out` has too little room, `out` stays unchanged.
pub fn smaller_reply(out: &mut Vec<u8>) -> Result<(), AllocError>
    ensures ok { OnOk result (out.new.items ≡ out.old.items ++ smaller_text) }
    ensures err { OnErr result (out.new.items ≡ out.old.items) }
    ensures full { OnErr result (vec_capacity out.old < vec_len out.old + 18) }
{
    out.extend_from_slice(b"refused 7 Smaller\n")
}

/// Puts the reply to a growth above the reserve after what `out` holds. Refused for memory, which is wanted
/// only where `out` has too little room, `out` stays unchanged.
pub fn reserve_reply(out: &mut Vec<u8>) -> Result<(), AllocError>
    ensures ok { OnOk result (out.new.items ≡ out.old.items ++ reserve_text) }
    ensures err { OnErr result (out.new.items ≡ out.old.items) }
    ensures full { OnErr result (vec_capacity out.old < vec_len out.old + 18) }
{
    out.extend_from_slice(b"refused 8 Reserve\n")
}

/// The byte that all bytes of a block are.
fn same_byte(block: &[u8]) -> Option<u8>
    ensures { result ≡ same_byte block.now }
{
    let (first, rest) = block.split_first()?;
    // All bytes are the same where each is the one before it: one comparison of two slices.
    if rest == &block[..rest.len()] {
        Some(*first)
    } else {
        None
    }
}

/// Puts a number's decimal digits after what `out` holds, which has the room for 20 of them.
fn put_number(number: u64, out: &mut Vec<u8>)
    requires { vec_len out.old + 20 ≤ vec_capacity out.old }
    ensures items { out.new.items ≡ out.old.items ++ decimal number }
    ensures len { vec_len out.new ≤ vec_len out.old + 20 }
    ensures capacity { vec_capacity out.old ≤ vec_capacity out.new }
{
    let mut digits = itoa::Buffer::new();
    out.extend_from_slice(digits.format(number).as_bytes())
        .unwrap();
}

/// Puts the digits of bytes, in lower case, after what `out` holds, which has the room for them.
fn put_digits(bytes: &[u8], out: &mut Vec<u8>)
    requires { vec_len out.old + 2 * length bytes.now ≤ vec_capacity out.old }
    ensures items { out.new.items ≡ out.old.items ++ encode_lower bytes.now }
    ensures len { vec_len out.new ≡ vec_len out.old + 2 * length bytes.now }
    ensures capacity { vec_capacity out.old ≤ vec_capacity out.new }
{
    let start = out.len();
    out.resize(start + 2 * bytes.len(), 0).unwrap();
    hex::encode_to_slice(bytes, &mut out[start..]).unwrap();
}

/// Puts the line of a block after what `out` holds: its number, and its data. Refused for memory, which is wanted only
/// where `out` has too little room, `out` stays unchanged.
pub fn block_line(number: u64, block: &[u8], out: &mut Vec<u8>) -> Result<(), AllocError>
    ensures ok { OnOk result (out.new.items ≡ out.old.items ++ block_line number block.now) }
    ensures err { OnErr result (out.new.items ≡ out.old.items) }
    ensures full { OnErr result
        (vec_capacity out.new < vec_len out.new + 2 * length block.now + 45) }
{
    // A number, a space, the digits of the data, or of a byte, a star and a number, and a line feed.
    let room = block.len().saturating_mul(2).saturating_add(45);
    out.reserve(room)?;
    put_number(number, out);
    out.push(b' ').unwrap();
    match same_byte(block) {
        Some(byte) => {
            put_digits(&[byte], out);
            out.push(b'*').unwrap();
            put_number(block.len() as u64, out);
        }
        None => put_digits(block, out),
    }
    out.push(b'\n').unwrap();
    Ok(())
}
