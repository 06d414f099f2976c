//! What a server sent, as digits.

use std::alloc::AllocError;

/// The magic numbers that replies begin with.
const OPTION_REPLY: [u8; 8] = [0x00, 0x03, 0xe8, 0x89, 0x04, 0x55, 0x65, 0xa9];

const SIMPLE_REPLY: [u8; 4] = [0x67, 0x44, 0x66, 0x98];

/// From how many equal bytes on they are shown as `BB*N`.
const LONG: usize = 16;

/// Shows a byte that is repeated, and answers whether as `BB*N`. A space comes before and after such a word.
fn show_run(
    byte: u8,
    count: usize,
    after_word: bool,
    out: &mut String,
) -> Result<bool, AllocError> {
    if count >= LONG {
        write!(out, " {byte:02x}*{count}")?;
        return Ok(true);
    }
    if after_word && count > 0 {
        out.push(' ')?;
    }
    for _ in 0..count {
        write!(out, "{byte:02x}")?;
    }
    Ok(false)
}

/// Whether a reply begins with these bytes.
fn is_reply(bytes: &[u8]) -> bool {
    bytes.starts_with(&OPTION_REPLY) || bytes.starts_with(&SIMPLE_REPLY)
}

/// Shows bytes, each reply on a line of its own. Equal bytes are shown together.
pub fn show_replies(bytes: &[u8], out: &mut String) -> Result<(), AllocError> {
    let mut last = 0;
    let mut count = 0;
    let mut is_word = false;
    for (at, byte) in bytes.iter().enumerate() {
        let begins = at > 0 && bytes.get(at..).is_some_and(is_reply);
        if begins || *byte != last {
            is_word = show_run(last, count, is_word, out)?;
            count = 0;
        }
        if begins {
            out.push('\n')?;
            is_word = false;
        }
        last = *byte;
        count = count.saturating_add(1);
    }
    show_run(last, count, is_word, out)?;
    out.push('\n')
}
