ghost use Rattle.std.specs.Prelude.{◌≡◌, ◌∷◌, [], MatchOption, option_copied};
ghost use Rattle.disk_files.specs.Words.{HasMore, byte_of, number_of, words_after, words_of};

use crate::bytes::first_place;
use hex::FromHex;

/// The first word of a line, and what follows the space after it.
pub fn split_word(line: &[u8]) -> (&[u8], Option<&[u8]>)
    ensures { words_of line.now ≡ result.0.now ∷ words_after (option_copied result.1) }
{
    match first_place(line, b' ') {
        Some(place) => (&line[..place], Some(&line[place + 1..])),
        None => (line, None),
    }
}

/// The only word of a line. None if it has more.
pub fn only_word(line: &[u8]) -> Option<&[u8]>
    ensures { MatchOption result (HasMore (words_of line.now))
        (λ word. words_of line.now ≡ word.now ∷ []) }
{
    let (word, rest) = split_word(line);
    match rest {
        Some(_) => None,
        None => Some(word),
    }
}

/// The number that a word of 1 to 20 decimal digits stands for, below 2^64.
pub fn number(word: &[u8]) -> Option<u64>
    ensures { result ≡ number_of word.now }
{
    if word.is_empty() || word.len() > 20 {
        return None;
    }
    let mut value: u128 = 0;
    for byte in word {
        if !byte.is_ascii_digit() {
            return None;
        }
        value = 10 * value + u128::from(*byte - b'0');
    }
    u64::try_from(value).ok()
}

/// The byte that a word of two hexadecimal digits, of either case, stands for.
pub fn byte(word: &[u8]) -> Option<u8>
    ensures { result ≡ byte_of word.now }
{
    let [byte] = <[u8; 1]>::from_hex(word).ok()?;
    Some(byte)
}
