// The words of an entry.

ghost use Rattle.clap.specs.Words.{found_of, rows_of};
ghost use Rattle.asked_tasks.specs.EntryWords.{AsksForEntry, HasDigits, HasEntryName};
ghost use Rattle.asked_tasks.specs.Values.{Finds};

use crate::tool_words::{is_set, state_if_given};
use crate::words::{WordFault, given, number_if_given};
use clap::ArgMatches;
use hex::FromHexError;
use std::alloc::Global;
use tool_forms::{EntryName, EntryWords, command_named};

/// The command that was named.
fn entry_name(matches: &ArgMatches<'_>) -> Result<EntryName, WordFault>
    ensures { Finds (HasEntryName (rows_of (found_of matches.now))) result }
{
    let Some(name) = given(matches, "command") else {
        return Err(WordFault::Missing);
    };
    match command_named(name) {
        Some(name) => Ok(name),
        None => Err(WordFault::Command),
    }
}

/// The data that was given, nothing if none.
fn bytes_of(alloc: Global, matches: &ArgMatches<'_>) -> Result<Vec<u8>, WordFault>
    ensures { Finds (λ bytes. HasDigits (rows_of (found_of matches.now)) bytes.items) result }
{
    let Some(digits) = given(matches, "data") else {
        return Ok(Vec::new(alloc));
    };
    match hex::decode(alloc, digits) {
        Ok(bytes) => Ok(bytes),
        Err(FromHexError::OutOfMemory) => Err(WordFault::Memory),
        Err(_) => Err(WordFault::Bytes),
    }
}

/// What `entry` asks for.
pub fn entry_words(alloc: Global, matches: &ArgMatches<'_>) -> Result<EntryWords, WordFault>
    ensures { Finds (AsksForEntry (rows_of (found_of matches.now))) result }
{
    let name = entry_name(matches)?;
    let start = number_if_given(matches, "start")?;
    let blocks = number_if_given(matches, "blocks")?;
    let dwords = number_if_given(matches, "dwords")?;
    let id = number_if_given(matches, "id")?;
    let state = state_if_given(matches)?;
    let beside = bytes_of(alloc, matches)?;
    Ok(EntryWords {
        name,
        start,
        blocks,
        dwords,
        id,
        all: is_set(matches, "all"),
        partial: is_set(matches, "partial"),
        state,
        beside,
    })
}
