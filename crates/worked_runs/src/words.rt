//! Numbers, bytes and names of a script.

ghost use Rattle.std.specs.Prelude.{◌<◌, IfOk};

use crate::fault::ScriptFault;
use nvme_wire::ZoneState;
use std::alloc::Global;
use zone_drive::Habit;
use zone_states::Geometry;

pub fn number(word: &str) -> Result<u64, ScriptFault> {
    word.parse::<u64>().or(Err(ScriptFault::Words))
}

pub fn part(word: &str) -> Result<u32, ScriptFault> {
    word.parse::<u32>().or(Err(ScriptFault::Words))
}

fn digit(digit: u8) -> Result<u8, ScriptFault>
    ensures { IfOk result (λ value. value < 16) }
{
    match digit {
        b'0'..=b'9' => Ok(digit - b'0'),
        b'a'..=b'f' => Ok(digit - b'a' + 10),
        _ => Err(ScriptFault::Words),
    }
}

/// The byte of two hexadecimal digits in lower case.
pub fn byte(digits: &[u8]) -> Result<u8, ScriptFault> {
    match digits {
        [high, low] => Ok(digit(*high)? * 16 + digit(*low)?),
        _ => Err(ScriptFault::Words),
    }
}

/// Puts the bytes of hexadecimal digits after `out`.
pub fn bytes(digits: &[u8], out: &mut Vec<u8>) -> Result<(), ScriptFault> {
    for pair in digits.chunks(2) {
        out.push(byte(pair)?)?;
    }
    Ok(())
}

pub fn state(name: &str) -> Result<ZoneState, ScriptFault> {
    match name {
        "Empty" => Ok(ZoneState::Empty),
        "ImplicitlyOpened" => Ok(ZoneState::ImplicitlyOpened),
        "ExplicitlyOpened" => Ok(ZoneState::ExplicitlyOpened),
        "Closed" => Ok(ZoneState::Closed),
        "ReadOnly" => Ok(ZoneState::ReadOnly),
        "Full" => Ok(ZoneState::Full),
        "Offline" => Ok(ZoneState::Offline),
        _ => Err(ScriptFault::Words),
    }
}

/// The habit of a drive with this name.
pub fn habit(name: &str) -> Result<Habit, ScriptFault> {
    match name {
        "lazy" => Ok(Habit::Lazy),
        "closing" => Ok(Habit::Closing),
        "strict" => Ok(Habit::Strict),
        _ => Err(ScriptFault::Words),
    }
}

/// The number after this name, which is at this place.
fn named(words: &[&str], place: usize, name: &str) -> Result<u32, ScriptFault> {
    match words.get(place..) {
        Some([word, value, ..]) if *word == name => part(value),
        _ => Err(ScriptFault::Words),
    }
}

/// The shape that these words give: each part by its name, in the order of `Geometry`.
pub fn shape(words: &[&str]) -> Result<Geometry, ScriptFault> {
    if words.len() != 14 {
        return Err(ScriptFault::Words);
    }
    Ok(Geometry {
        block: named(words, 0, "block")?,
        zones: named(words, 2, "zones")?,
        size: named(words, 4, "size")?,
        capacity: named(words, 6, "capacity")?,
        transfer: named(words, 8, "transfer")?,
        active: named(words, 10, "active")?,
        open: named(words, 12, "open")?,
    })
}

/// Puts text after `line`, in which a backslash and `t`, `r`, `n` or `0` stand for a tab, a carriage
/// return, a line feed or a byte of zero.
fn push_text(text: &str, line: &mut Vec<u8>) -> Result<(), ScriptFault> {
    let mut is_escaped = false;
    for byte in text.bytes() {
        let meant = match byte {
            b't' if is_escaped => b'\t',
            b'r' if is_escaped => b'\r',
            b'n' if is_escaped => b'\n',
            b'0' if is_escaped => 0,
            _ => byte,
        };
        is_escaped = byte == b'\\' && !is_escaped;
        if !is_escaped {
            line.push(meant)?;
        }
    }
    Ok(())
}

/// Puts a repeated text after `line`, as `00*56`.
fn push_repeated(words: &str, line: &mut Vec<u8>) -> Result<(), ScriptFault> {
    let (text, count) = words.split_once('*').ok_or(ScriptFault::Words)?;
    for _ in 0..number(count)? {
        push_text(text, line)?;
    }
    Ok(())
}

/// The line that is meant by a line of a script: `{00*56}` stands for 56 times `00`, and a backslash and
/// `t`, `r`, `n` or `0` for a tab, a carriage return, a line feed or a byte of zero.
pub fn meant(alloc: Global, text: &str) -> Result<Vec<u8>, ScriptFault> {
    let mut line = Vec::new(alloc);
    for (place, part) in text.split('{').enumerate() {
        let plain = if place == 0 {
            part
        } else {
            let (repeated, after) = part.split_once('}').ok_or(ScriptFault::Words)?;
            push_repeated(repeated, &mut line)?;
            after
        };
        push_text(plain, &mut line)?;
    }
    Ok(line)
}
