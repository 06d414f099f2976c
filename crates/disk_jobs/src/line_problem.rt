// What is wrong with a line that is not in its grammar, told to people.

use std::fmt;

/// What a word of a line has to be.
#[derive(Clone, Copy, Debug, PartialEq, Eq)]
pub(crate) enum Wanted {
    /// The name of a call.
    Name,
    /// Decimal digits, a number below 2^64.
    Number,
    /// Decimal digits, a number below 2^32.
    Turns,
    /// Two hexadecimal digits.
    Byte,
    /// Two hexadecimal digits for each byte of whole blocks.
    Data,
    /// The 128 hexadecimal digits of an entry.
    Entry,
}

impl Wanted {
    fn text(self) -> &'static str {
        match self {
            Wanted::Name => "read, fill, write, trim, idle, grow or remount",
            Wanted::Number => "a number below 2^64 in 1 to 20 decimal digits",
            Wanted::Turns => "a number below 2^32 in decimal digits",
            Wanted::Byte => "two hexadecimal digits",
            Wanted::Data =>
                "data: two hexadecimal digits for each byte, and whole blocks in a write",
            Wanted::Entry => "the 128 hexadecimal digits of an entry",
        }
    }
}

/// The first thing that is wrong with a line. Words are counted from 1.
#[derive(Clone, Copy, Debug, PartialEq, Eq)]
pub(crate) enum LineProblem {
    ByteOrderMark,
    CarriageReturn,
    Tab,
    FirstSpace,
    SecondSpace,
    LastSpace,
    /// This word is missing.
    Missing(usize, Wanted),
    /// This word is another.
    Word(usize, Wanted),
    /// This word is one too many.
    TooMany(usize),
    /// So many bytes of data are not whole blocks, of which each has this many.
    NotWhole { bytes: usize, block: u32 },
}

impl fmt::Display for LineProblem {
    fn fmt<W: fmt::Write>(&self, f: &mut fmt::Formatter<W>) -> fmt::Result {
        match self {
            LineProblem::ByteOrderMark => write!(f, "it begins with a byte order mark"),
            LineProblem::CarriageReturn => write!(
                f,
                "a carriage return stands before the line feed"
            ),
            LineProblem::Tab => write!(f, "it has a tab; words have one space between them"),
            LineProblem::FirstSpace => write!(f, "it begins with a space"),
            LineProblem::SecondSpace => write!(f, "it has a second space between two words"),
            LineProblem::LastSpace => write!(f, "it ends with a space"),
            LineProblem::Missing(place, wanted) => {
                let wanted = wanted.text();
                write!(f, "word {place} is missing: {wanted}")
            }
            LineProblem::Word(place, wanted) => {
                let wanted = wanted.text();
                write!(f, "word {place} has to be {wanted}")
            }
            LineProblem::TooMany(place) => write!(f, "word {place} is one too many"),
            LineProblem::NotWhole { bytes, block } => {
                write!(
                    f,
                    "it has {bytes} bytes of data, and a write takes whole blocks of {block}"
                )
            }
        }
    }
}

/// What is wrong between the words, if anything is.
fn spacing_problem(line: &[u8]) -> Option<LineProblem> {
    if line.starts_with(b"\xef\xbb\xbf") {
        return Some(LineProblem::ByteOrderMark);
    }
    if line.ends_with(b"\r") {
        return Some(LineProblem::CarriageReturn);
    }
    if line.contains(&b'\t') {
        return Some(LineProblem::Tab);
    }
    if line.starts_with(b" ") {
        return Some(LineProblem::FirstSpace);
    }
    if line.ends_with(b" ") {
        return Some(LineProblem::LastSpace);
    }
    if line.split(|byte| *byte == b' ').any(|word| word.is_empty()) {
        return Some(LineProblem::SecondSpace);
    }
    None
}

/// The number below 2^64 that decimal digits stand for.
fn number(word: &[u8]) -> Option<u64> {
    if word.is_empty() || word.len() > 20 {
        return None;
    }
    let mut value: u64 = 0;
    for byte in word {
        if !byte.is_ascii_digit() {
            return None;
        }
        value = value.checked_mul(10)?.checked_add(u64::from(*byte - b'0'))?;
    }
    Some(value)
}

fn are_hex(word: &[u8]) -> bool {
    word.iter().all(|byte| byte.is_ascii_hexdigit())
}

/// What the words of a call have to be, by its name. No call has another name.
fn wanted_of(name: &[u8]) -> Option<&'static [Wanted]> {
    match name {
        b"read" | b"trim" => Some(&[Wanted::Name, Wanted::Number, Wanted::Number]),
        b"fill" => Some(&[Wanted::Name, Wanted::Number, Wanted::Number, Wanted::Byte]),
        b"write" => Some(&[Wanted::Name, Wanted::Number, Wanted::Data]),
        b"idle" => Some(&[Wanted::Name, Wanted::Turns]),
        b"grow" => Some(&[Wanted::Name, Wanted::Number]),
        b"remount" => Some(&[Wanted::Name]),
        _ => None,
    }
}

impl Wanted {
    /// Whether a word is what is wanted, as far as the word alone tells.
    fn is(self, word: &[u8]) -> bool {
        match self {
            Wanted::Name => wanted_of(word).is_some(),
            Wanted::Number => number(word).is_some(),
            Wanted::Turns => number(word).is_some_and(|turns| turns <= u64::from(u32::MAX)),
            Wanted::Byte => word.len() == 2 && are_hex(word),
            Wanted::Data => !word.is_empty() && word.len() % 2 == 0 && are_hex(word),
            Wanted::Entry => word.len() == 128 && are_hex(word),
        }
    }
}

/// The first word that is not what is wanted, if any.
fn word_problem(line: &[u8], wanted: &[Wanted]) -> Option<LineProblem> {
    let mut place: usize = 1;
    let mut words = line.split(|byte| *byte == b' ');
    for want in wanted {
        match words.next() {
            Some(word) if want.is(word) => {}
            Some(_) => return Some(LineProblem::Word(place, *want)),
            None => return Some(LineProblem::Missing(place, *want)),
        }
        place = place.saturating_add(1);
    }
    match words.next() {
        Some(_) => Some(LineProblem::TooMany(place)),
        None => None,
    }
}

/// How many bytes the digits of the last word are.
fn data_bytes(line: &[u8]) -> usize {
    match line.split(|byte| *byte == b' ').last() {
        Some(digits) => digits.len() / 2,
        None => 0,
    }
}

/// What is wrong with the data of a `write`, if it is not whole blocks of this many bytes.
fn data_problem(line: &[u8], block: u32) -> Option<LineProblem> {
    let bytes = data_bytes(line);
    if block > 0 && bytes % block as usize == 0 {
        return None;
    }
    Some(LineProblem::NotWhole { bytes, block })
}

/// What is wrong with a line of a trace over blocks of this many bytes, if anything is.
pub(crate) fn trace_problem(line: &[u8], block: u32) -> Option<LineProblem> {
    if let Some(problem) = spacing_problem(line) {
        return Some(problem);
    }
    let name = line.split(|byte| *byte == b' ').next().unwrap_or(&[]);
    match (
        word_problem(line, wanted_of(name).unwrap_or(&[Wanted::Name])),
        name,
    ) {
        (Some(problem), _) => Some(problem),
        (None, b"write") => data_problem(line, block),
        (None, _) => None,
    }
}

/// What is wrong with a line that is no raw line.
pub(crate) fn raw_problem(line: &[u8]) -> LineProblem {
    if let Some(problem) = spacing_problem(line) {
        return problem;
    }
    let wanted: &[Wanted] = if line.contains(&b' ') {
        &[Wanted::Entry, Wanted::Data]
    } else {
        &[Wanted::Entry]
    };
    match word_problem(line, wanted) {
        Some(problem) => problem,
        // Never: a raw line whose words are all as wanted is in the grammar.
        None => LineProblem::Word(2, Wanted::Data),
    }
}
