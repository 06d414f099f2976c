ghost use Rattle.std.specs.Prelude.{◌≡◌, ◌*◌, ◌<◌, [], IfOk, IsErrOf, OnErr, length, option_copied, vec_capacity};
ghost use Rattle.disk_files.specs.TraceLine.{fill_of, is_skipped, line_of, name_of, only_number};
ghost use Rattle.disk_files.specs.TraceLine.{plain_of, range_of, trace_line, write_of};
ghost use Rattle.disk_files.specs.Words.{words_after, words_of};

use crate::data::{ParseFault, decode_data};
use crate::words::{byte, number, only_word, split_word};

/// A line of a trace, which is a call of a disk.
#[derive(Clone, Copy, Debug, PartialEq, Eq)]
pub enum TraceLine {
    /// `read L N`: shows `blocks` blocks from `first` on.
    Read { first: u64, blocks: u64 },
    /// `fill L N BB`: writes `blocks` blocks of one byte from `first` on.
    Fill { first: u64, blocks: u64, byte: u8 },
    /// `write L HEX`: writes the bytes that come with this line, at least one, from the block `first` on.
    Write { first: u64 },
    /// `trim L N`: trims `blocks` blocks from `first` on.
    Trim { first: u64, blocks: u64 },
    /// `idle K`: gives the cleaner this many turns.
    Idle { turns: u32 },
    /// `grow N2`: makes the disk this many blocks long.
    Grow { blocks: u64 },
    /// `remount`: mounts the drive again.
    Remount,
}

/// Whether a line is skipped, without a reply: an empty one, and one that begins with `#`.
pub fn is_skipped(line: &[u8]) -> bool
    ensures { result ≡ is_skipped line.now }
{
    match line.first() {
        None => true,
        Some(byte) => *byte == b'#',
    }
}

/// The first word of a line that has no data.
#[derive(Clone, Copy)]
enum Name {
    Read,
    Fill,
    Trim,
    Idle,
    Grow,
    Remount,
}

impl Name {
    fn of(word: &[u8]) -> Option<Name>
        ensures { result ≡ name_of word.now }
    {
        if word == b"remount".as_slice() {
            return Some(Name::Remount);
        }
        match word {
            b"read" => Some(Name::Read),
            b"fill" => Some(Name::Fill),
            b"trim" => Some(Name::Trim),
            b"idle" => Some(Name::Idle),
            b"grow" => Some(Name::Grow),
            _ => None,
        }
    }
}

/// The two numbers of `L N`.
fn range(words: &[u8]) -> Option<(u64, u64)>
    ensures { result ≡ range_of (words_of words.now) }
{
    let (first, rest) = split_word(words);
    let blocks = only_word(rest?)?;
    Some((number(first)?, number(blocks)?))
}

/// The only word of a line, a number.
fn only_number(words: &[u8]) -> Option<u64>
    ensures { result ≡ only_number (words_of words.now) }
{
    number(only_word(words)?)
}

fn fill_line(words: &[u8]) -> Option<TraceLine>
    ensures { result ≡ fill_of (words_of words.now) }
{
    let (first, rest) = split_word(words);
    let (blocks, rest) = split_word(rest?);
    let data = only_word(rest?)?;
    Some(TraceLine::Fill {
        first: number(first)?,
        blocks: number(blocks)?,
        byte: byte(data)?,
    })
}

/// What a line without data says, by its name and the words after it, of which there is one at least.
fn named_line(name: Name, words: &[u8]) -> Option<TraceLine>
    ensures { result ≡ line_of name (words_of words.now) }
{
    match name {
        Name::Read => {
            let (first, blocks) = range(words)?;
            Some(TraceLine::Read { first, blocks })
        }
        Name::Fill => fill_line(words),
        Name::Trim => {
            let (first, blocks) = range(words)?;
            Some(TraceLine::Trim { first, blocks })
        }
        Name::Idle => {
            let turns = u32::try_from(only_number(words)?).ok()?;
            Some(TraceLine::Idle { turns })
        }
        Name::Grow => {
            let blocks = only_number(words)?;
            Some(TraceLine::Grow { blocks })
        }
        Name::Remount => None,
    }
}

/// What a line without data says, by its name and what follows it.
fn plain_line(name: &[u8], rest: Option<&[u8]>) -> Option<TraceLine>
    ensures { result ≡ plain_of name.now (words_after (option_copied rest.entry)) }
{
    let name = Name::of(name)?;
    match rest {
        Some(words) => named_line(name, words),
        None => match name {
            Name::Remount => Some(TraceLine::Remount),
            Name::Read | Name::Fill | Name::Trim | Name::Idle | Name::Grow => None,
        },
    }
}

/// What a `write` says, by the words after its name. Its data is decoded over what `bytes` holds. After a
/// fault nothing is said of what it holds.
fn write_line(words: &[u8], bytes: &mut Vec<u8>) -> Result<TraceLine, ParseFault>
    ensures ok { IfOk result
        (λ call. write_of (words_of words.now) ≡ Some (call, bytes.new.items)) }
    ensures grammar { IsErrOf result ParseFault.Grammar → write_of (words_of words.now) ≡ None }
    ensures memory { IsErrOf result ParseFault.Memory →
        2 * vec_capacity bytes.old < length words.now }
{
    let (first, rest) = split_word(words);
    let Some(digits) = rest else {
        return Err(ParseFault::Grammar);
    };
    let Some(first) = number(first) else {
        return Err(ParseFault::Grammar);
    };
    // Data is the last word: a space is no digit.
    decode_data(digits, bytes)?;
    Ok(TraceLine::Write { first })
}

/// What a line says, as `parse` does. After a fault nothing is said of what `bytes` holds.
fn parse_over(line: &[u8], bytes: &mut Vec<u8>) -> Result<TraceLine, ParseFault>
    ensures ok { IfOk result (λ call. trace_line line.now ≡ Some (call, bytes.new.items)) }
    ensures grammar { IsErrOf result ParseFault.Grammar → trace_line line.now ≡ None }
    ensures memory { IsErrOf result ParseFault.Memory →
        2 * vec_capacity bytes.old < length line.now }
{
    let (name, rest) = split_word(line);
    if name == b"write".as_slice() {
        let Some(words) = rest else {
            return Err(ParseFault::Grammar);
        };
        return write_line(words, bytes);
    }
    bytes.clear();
    plain_line(name, rest).ok_or(ParseFault::Grammar)
}

impl TraceLine {
    /// What a line says, without its line feed. After a `write`, `bytes` holds its data: at least one byte,
    /// not always whole blocks. After any other line, and after a fault, `bytes` is empty. With room for half as
    /// many bytes as the line has, no memory is wanted.
    pub fn parse(line: &[u8], bytes: &mut Vec<u8>) -> Result<TraceLine, ParseFault>
        ensures ok { IfOk result (λ call. trace_line line.now ≡ Some (call, bytes.new.items)) }
        ensures err { OnErr result (bytes.new.items ≡ []) }
        ensures grammar { IsErrOf result ParseFault.Grammar → trace_line line.now ≡ None }
        // Two digits for each byte of data, and the words before them.
        ensures memory { IsErrOf result ParseFault.Memory →
            2 * vec_capacity bytes.old < length line.now }
    {
        let call = parse_over(line, bytes);
        if call.is_err() {
            bytes.clear();
        }
        call
    }
}
