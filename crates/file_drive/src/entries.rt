ghost use Rattle.std.specs.Prelude.{◌≡◌, ◌≤◌, ◌↔◌, IfErr, IfOk, IsTrue, OnOk, length, map};
ghost use Rattle.std.specs.List.{AllByRecursion};
ghost use Rattle.file_drive.specs.Faults.{IsEntryFault, IsTableFault, IsWordFault};
ghost use Rattle.file_drive.specs.Found.{IsLimitsFault};
ghost use Rattle.file_drive.specs.Opening.{AreFew, Holds, IsTable, IsWord, are_few, is_word};
ghost use Rattle.file_drive.specs.Tables.{entry_of};

use crate::entry::Entry;
use crate::fault::OpenFault;
use std::alloc::{AllocError, Global};
use zone_drive::{Resources, may_hold};
use zone_states::Geometry;

/// Whether a table may have this word for a zone.
pub fn is_word(geometry: &Geometry, word: u64) -> bool
    ensures word { IsTrue result ↔ IsWord geometry.now word }
    ensures test { result ≡ is_word geometry.now word }
{
    let entry = Entry::of_word(word);
    entry.word() == word && entry.written <= geometry.capacity
}

/// Refuses a table that has a word which no zone has. The first one is named.
fn check_words(geometry: &Geometry, words: &[u64]) -> Result<(), OpenFault>
    requires { length words.now ≤ 65536 }
    ensures ok { OnOk result (AllByRecursion (IsWord geometry.now) words.now) }
    ensures err { IfErr result (IsWordFault geometry.now words.now) }
{
    for index in 0..words.len() {
        if !is_word(geometry, words[index]) {
            return Err(OpenFault::Table(index as u32));
        }
    }
    Ok(())
}

/// Refuses zones of which one has more blocks than its state allows. The first one is named.
fn check_entries(geometry: &Geometry, entries: &[Entry]) -> Result<(), OpenFault>
    requires { length entries.now ≤ 65536 }
    ensures ok { OnOk result (AllByRecursion (Holds geometry.now) entries.now) }
    ensures err { IfErr result (IsEntryFault geometry.now entries.now) }
{
    for index in 0..entries.len() {
        let entry = entries[index];
        if !may_hold(entry.state, geometry.capacity, entry.written as usize) {
            return Err(OpenFault::Table(index as u32));
        }
    }
    Ok(())
}

/// The entries that the words of a table stand for.
pub fn entries_of(alloc: Global, words: &[u64]) -> Result<Vec<Entry>, AllocError>
    ensures { IfOk result (λ entries. entries.items ≡ map entry_of words.now) }
{
    let mut entries = Vec::new(alloc);
    for index in 0..words.len() {
        entries.push(Entry::of_word(words[index]))?;
    }
    Ok(entries)
}

/// Whether no more of these zones are active and open than may be.
pub fn are_few(geometry: &Geometry, entries: &[Entry]) -> bool
    requires { length entries.now ≤ 65536 }
    ensures { result ≡ are_few geometry.now entries.now }
{
    let resources = Resources::of(entries);
    resources.active_zones <= geometry.active && resources.open_zones <= geometry.open
}

/// Refuses zones if too many of them are active or open.
fn check_limits(geometry: &Geometry, entries: &[Entry]) -> Result<(), OpenFault>
    requires { length entries.now ≤ 65536 }
    ensures ok { OnOk result (AreFew geometry.now entries.now) }
    ensures err { IfErr result (IsLimitsFault geometry.now entries.now) }
{
    if are_few(geometry, entries) {
        return Ok(());
    }
    Err(OpenFault::Limits)
}

/// The entries of a table, if a drive of this shape can have it.
pub fn table_entries(
    alloc: Global,
    geometry: &Geometry,
    words: &[u64],
) -> Result<Vec<Entry>, OpenFault>
    requires { length words.now ≤ 65536 }
    ensures ok { IfOk result (λ entries. entries.items ≡ map entry_of words.now) }
    ensures table { OnOk result (IsTable geometry.now words.now) }
    ensures err { IfErr result (IsTableFault geometry.now words.now) }
{
    check_words(geometry, words)?;
    let entries = entries_of(alloc, words)?;
    check_entries(geometry, &entries)?;
    check_limits(geometry, &entries)?;
    Ok(entries)
}
