// Entries for people who write raw lines.

ghost use Rattle.std.specs.Prelude.{IfErr, OnOk};
ghost use Rattle.nvme_wire.specs.Entry.{IsAdmitted};
ghost use Rattle.tool_forms.specs.Entries.{IsEntryOf, IsLineOf};
ghost use Rattle.tool_jobs.specs.Entries.{HasNoEntry, lines_with};
ghost use Rattle.tool_jobs.specs.Telling.{IsUnwrittenText, TellsFound, TellsNothing, TellsText};

use crate::fault::ToolFault;
use disk_files::write_out;
use std::alloc::Global;
use std::io::Write;
use tool_forms::{Entry, EntryWords, entry_line, entry_of};

/// Writes the raw line of an entry and the data beside it.
fn tell_entry<W: Write>(
    alloc: Global,
    entry: &Entry,
    beside: &[u8],
    output: &mut W,
) -> Result<(), ToolFault>
    requires { IsAdmitted entry.now.command }
    ensures ok { OnOk result (TellsText (IsLineOf entry.now beside.now)
        (W.contents output.old) (W.contents output.new)) }
    ensures err { IfErr result (λ fault. IsUnwrittenText (IsLineOf entry.now beside.now) fault
        (W.contents output.old) (W.contents output.new)) }
{
    let line = entry_line(alloc, entry, beside)?;
    write_out(output, &line)?;
    Ok(())
}

/// Tells the raw line of the entry that words ask for, and of its data.
pub fn answer_entry<W: Write>(
    alloc: Global,
    words: &EntryWords,
    output: &mut W,
) -> Result<(), ToolFault>
    ensures ok { OnOk result (TellsFound (IsEntryOf words.now) (lines_with words.now.beside.items)
        (W.contents output.old) (W.contents output.new)) }
    ensures err { IfErr result (λ fault. TellsNothing (HasNoEntry words.now) (IsEntryOf words.now)
        (lines_with words.now.beside.items) fault (W.contents output.old) (W.contents output.new)) }
{
    let entry = entry_of(words)?;
    tell_entry(alloc, &entry, &words.beside, output)
}
