//! The words of a line.

use crate::fault::RowsFault;
use crate::run::Setting;
use nbd_jobs::{Fail, Forget};
use std::alloc::Global;

/// Which number of a setting a word is.
#[derive(Clone, Copy)]
enum Number {
    Stop,
    Seed,
    Odds,
}

/// Puts a number into a setting.
fn put_number(setting: &mut Setting, number: Number, word: &str) -> Result<(), RowsFault> {
    match number {
        Number::Stop => setting.stop_after = word.parse::<u64>().or(Err(RowsFault::Words))?,
        Number::Seed => setting.seed = word.parse::<u64>().or(Err(RowsFault::Words))?,
        Number::Odds => setting.odds = word.parse::<u32>().or(Err(RowsFault::Words))?,
    }
    Ok(())
}

/// The setting that the words after `session` give, of which the first is a name.
pub fn setting_of(words: &str) -> Result<Setting, RowsFault> {
    let mut setting = Setting::plain();
    let mut number = None;
    for word in words.split(' ').skip(1) {
        if let Some(which) = number {
            put_number(&mut setting, which, word)?;
            number = None;
            continue;
        }
        match word {
            "wide" => setting.block = 4096,
            "worn" => setting.is_worn = true,
            "stop" => number = Some(Number::Stop),
            "seed" => number = Some(Number::Seed),
            "odds" => number = Some(Number::Odds),
            _ => return Err(RowsFault::Words),
        }
    }
    Ok(setting)
}

/// The number after the first word of a line.
pub fn number_of(line: &str) -> Result<u64, RowsFault> {
    let Some((_, number)) = line.split_once(' ') else {
        return Err(RowsFault::Words);
    };
    number.parse::<u64>().or(Err(RowsFault::Words))
}

/// The numbers after the first word of a line.
fn numbers_of(alloc: Global, line: &str) -> Result<Vec<u64>, RowsFault> {
    let mut numbers = Vec::new(alloc);
    for word in line.split(' ').skip(1) {
        let number = word.parse::<u64>().or(Err(RowsFault::Words))?;
        numbers.push(number).or(Err(RowsFault::Memory))?;
    }
    Ok(numbers)
}

/// How many blocks a disk has, and how it forgets: the numbers after the first word of a line. The last one may be
/// left out.
pub fn forget_of(alloc: Global, line: &str) -> Result<(u64, Forget), RowsFault> {
    let numbers = numbers_of(alloc, line)?;
    let (blocks, seed, odds) = match numbers.as_slice() {
        [blocks, seed, odds] | [blocks, seed, odds, _] => (*blocks, *seed, *odds),
        _ => return Err(RowsFault::Words),
    };
    let forget = Forget {
        seed,
        odds: u32::try_from(odds).or(Err(RowsFault::Words))?,
        cut_after: numbers.get(3).copied(),
    };
    Ok((blocks, forget))
}

/// By which chance a medium fails, and how the disk forgets, if there are two numbers more: the numbers after the first
/// word of a line.
pub fn fail_of(alloc: Global, line: &str) -> Result<(Fail, Option<Forget>), RowsFault> {
    let numbers = numbers_of(alloc, line)?;
    let (seed, odds, forget) = match numbers.as_slice() {
        [seed, odds] => (*seed, *odds, None),
        [seed, odds, chosen, lost] => (*seed, *odds, Some((*chosen, *lost))),
        _ => return Err(RowsFault::Words),
    };
    let fail = Fail {
        seed,
        odds: u32::try_from(odds).or(Err(RowsFault::Words))?,
    };
    let Some((seed, odds)) = forget else {
        return Ok((fail, None));
    };
    let forget = Forget {
        seed,
        odds: u32::try_from(odds).or(Err(RowsFault::Words))?,
        cut_after: None,
    };
    Ok((fail, Some(forget)))
}

/// Puts a byte that is repeated after `out`.
fn put_run(alloc: Global, digits: &str, count: &str, out: &mut Vec<u8>) -> Result<(), RowsFault> {
    let count = count.parse::<usize>().or(Err(RowsFault::Words))?;
    let byte = hex::decode(alloc, digits)?;
    for _ in 0..count {
        out.extend_from_slice(&byte)?;
    }
    Ok(())
}

/// Puts the bytes of a line after `out`.
pub fn put_bytes(alloc: Global, line: &str, out: &mut Vec<u8>) -> Result<(), RowsFault> {
    for word in line.split(' ') {
        match word.split_once('*') {
            Some((digits, count)) => put_run(alloc, digits, count, out)?,
            None => out.extend_from_slice(&hex::decode(alloc, word)?)?,
        }
    }
    Ok(())
}
