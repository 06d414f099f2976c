ghost use Rattle.std.specs.Prelude.{◌≡◌, ◌+◌, ◌*◌, ◌%◌, ◌^◌, ◌<◌, ◌≤◌, length, map, slice_set, OnErr, OnOk};
ghost use Rattle.sqlite_disk.specs.Disk.{Follows};
ghost use Rattle.file_bytes.specs.Changes.{SameBeside};
ghost use Rattle.file_drive.specs.Layout.{word_in};
ghost use Rattle.file_drive.specs.Tables.{next_entries, word_of, words_in};

use crate::entry::Entry;
use file_bytes::FileBytes;
use std::io;
use zone_states::Action;

/// Writes a word to the file. `known` is the word that is there. If both are the same, nothing is
/// written.
pub fn put_word<F: FileBytes>(file: &mut F, at: u64, known: u64, word: u64) -> io::Result<()>
    requires aligned { at % 8 ≡ 0 }
    requires within { at + 8 ≤ length (F.FileBytes.seen file.old) }
    requires known { word_in (F.FileBytes.seen file.old) at ≡ known }
    ensures ok { OnOk result (word_in (F.FileBytes.seen file.new) at ≡ word) }
    ensures err { OnErr result (F.FileBytes.seen file.new ≡ F.FileBytes.seen file.old) }
    ensures beside { SameBeside at 8 (F.FileBytes.seen file.old) (F.FileBytes.seen file.new) }
    ensures leaves { Follows (SameBeside at 8) (F.FileBytes.may_leave file.old) (F.FileBytes.may_leave file.new) }
    ensures usable { F.FileBytes.is_usable file.new ≡ F.FileBytes.is_usable file.old }
{
    if word == known {
        return Ok(());
    }
    file.write_word(at, word)?;
    Ok(())
}

/// Writes the word of a zone to a table in the file. `words` are the words that the table has,
/// before and after.
fn put_in_table<F: FileBytes>(
    file: &mut F,
    at: u64,
    words: &mut Vec<u64>,
    index: usize,
    word: u64,
) -> io::Result<()>
    requires aligned { at % 8 ≡ 0 }
    requires within { at + 8 * length words.old.items ≤ length (F.FileBytes.seen file.old) }
    requires small { at + 8 * length words.old.items < 2 ^ 63 }
    requires in_range { index < length words.old.items }
    requires known { words_in (F.FileBytes.seen file.old) at (length words.old.items) ≡ words.old.items }
    ensures ok { OnOk result (words.new.items ≡ slice_set words.old.items index word) }
    ensures err { OnErr result (words.new.items ≡ words.old.items) }
    ensures known { words_in (F.FileBytes.seen file.new) at (length words.old.items) ≡ words.new.items }
    ensures beside { SameBeside at (8 * length words.old.items) (F.FileBytes.seen file.old)
        (F.FileBytes.seen file.new) }
    ensures leaves { Follows (SameBeside at (8 * length words.old.items)) (F.FileBytes.may_leave file.old)
        (F.FileBytes.may_leave file.new) }
    ensures usable { F.FileBytes.is_usable file.new ≡ F.FileBytes.is_usable file.old }
{
    put_word(file, at + 8 * index as u64, words[index], word)?;
    words[index] = word;
    Ok(())
}

/// Makes a table in the file say what these zones are after an action on all of them or, without
/// one, what they are. `words` are the words that the table has, before and after: only those that
/// change are written. `flushed` has the words of the zones at the last flush.
pub fn write_words<F: FileBytes>(
    file: &mut F,
    at: u64,
    words: &mut Vec<u64>,
    entries: &[Entry],
    flushed: &[u64],
    action: Option<Action>,
) -> io::Result<()>
    requires aligned { at % 8 ≡ 0 }
    requires within { at + 8 * length entries.now ≤ length (F.FileBytes.seen file.old) }
    requires small { at + 8 * length entries.now < 2 ^ 63 }
    requires count { length words.old.items ≡ length entries.now }
    requires flushed { length flushed.now ≡ length entries.now }
    requires known { words_in (F.FileBytes.seen file.old) at (length entries.now) ≡ words.old.items }
    ensures ok { OnOk result (words.new.items ≡ map word_of (next_entries action flushed.now entries.now)) }
    ensures known { words_in (F.FileBytes.seen file.new) at (length entries.now) ≡ words.new.items }
    ensures beside { SameBeside at (8 * length entries.now) (F.FileBytes.seen file.old) (F.FileBytes.seen file.new) }
    ensures leaves { Follows (SameBeside at (8 * length entries.now)) (F.FileBytes.may_leave file.old)
        (F.FileBytes.may_leave file.new) }
    ensures usable { F.FileBytes.is_usable file.new ≡ F.FileBytes.is_usable file.old }
{
    for index in 0..entries.len() {
        let next = entries[index].next(action, Entry::of_word(flushed[index]));
        put_in_table(file, at, words, index, next.word())?;
    }
    Ok(())
}

/// Puts the words of these zones into `words`. The file is not used.
pub fn note_words(words: &mut Vec<u64>, entries: &[Entry])
    requires { length words.old.items ≡ length entries.now }
    ensures { words.new.items ≡ map word_of entries.now }
{
    for index in 0..entries.len() {
        words[index] = entries[index].word();
    }
}
