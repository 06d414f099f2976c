ghost use Rattle.std.specs.Prelude.{◌≡◌, ◌+◌, ◌++◌, ◌≤◌, OnOk, OnErr, length, vec_capacity, vec_len};

use std::alloc::AllocError;

/// How many bytes are copied at a time, at most. A C library copies more by another instruction on many processors,
/// and that one is slower into memory that is still in a cache, as that of a zone is that was reset not long ago.
const PIECE: usize = 4096;

/// Puts bytes after those that are there, a piece at a time. There is room for them.
fn copy_pieces(written: &mut Vec<u8>, bytes: &[u8])
    requires { vec_len written.old + length bytes.now ≤ vec_capacity written.old }
    ensures { written.new.items ≡ written.old.items ++ bytes.now }
{
    let mut rest = bytes;
    while !rest.is_empty() {
        let (piece, after) = rest.split_at(rest.len().min(PIECE));
        // There is room for it.
        let _ = written.extend_from_slice(piece);
        rest = after;
    }
}

/// Puts bytes after those that are there. The room for them grows once.
pub fn extend_in_pieces(written: &mut Vec<u8>, bytes: &[u8]) -> Result<(), AllocError>
    ensures ok { OnOk result (written.new.items ≡ written.old.items ++ bytes.now) }
    ensures err { OnErr result (written.new.items ≡ written.old.items) }
{
    written.reserve(bytes.len())?;
    copy_pieces(written, bytes);
    Ok(())
}
