ghost use Rattle.std.specs.Prelude.{◌≡◌, ◌≤◌, ◌^◌, IfErr, IfOk, unwrap_or};
ghost use Rattle.nvme_wire.specs.Entry.{IsAdmitted};
ghost use Rattle.tool_forms.specs.Entries.{IsEntryOf, IsNoEntry, IsOutside, command_with, options_for};

use crate::entry_fault::EntryFault;
use crate::entry_words::{EntryName, EntryWords};
use nvme_wire::{Action, Command, ReportingOptions, ZoneState};

/// A command with its identifier.
#[derive(Clone, Copy, Debug, PartialEq, Eq)]
pub struct Entry {
    pub command: Command,
    pub id: u16,
}

/// The buffer of a report that says no other size: it has room for 63 zones.
const DWORDS: u64 = 1024;

/// The number of blocks, by the number that was given.
fn blocks_of(given: Option<u64>) -> Result<u32, EntryFault>
    ensures ok { IfOk result (λ blocks. (blocks ≡ unwrap_or given 1) × (1 ≤ blocks) × (blocks ≤ 65536)) }
    ensures err { IfErr result (λ fault. (fault ≡ EntryFault.Blocks) × IsOutside 1 65536 (unwrap_or given 1)) }
{
    let blocks = given.unwrap_or(1);
    if blocks == 0 || blocks > 65_536 {
        return Err(EntryFault::Blocks);
    }
    Ok(blocks as u32)
}

/// The number of dwords, by the number that was given.
fn dwords_of(given: Option<u64>) -> Result<u64, EntryFault>
    ensures ok { IfOk result (λ dwords. (dwords ≡ unwrap_or given 1024) × (16 ≤ dwords) × (dwords ≤ 2 ^ 32)) }
    ensures err { IfErr result (λ fault. (fault ≡ EntryFault.Dwords) × IsOutside 16 (2 ^ 32) (unwrap_or given 1024)) }
{
    let dwords = given.unwrap_or(DWORDS);
    if dwords < 16 || dwords > 1 << 32 {
        return Err(EntryFault::Dwords);
    }
    Ok(dwords)
}

/// The identifier, by the number that was given.
fn id_of(given: Option<u64>) -> Result<u16, EntryFault>
    ensures ok { IfOk result (λ id. id ≡ unwrap_or given 0) }
    ensures err { IfErr result (λ fault. (fault ≡ EntryFault.Id) × IsOutside 0 65535 (unwrap_or given 0)) }
{
    let id = given.unwrap_or(0);
    if id > 65_535 {
        return Err(EntryFault::Id);
    }
    Ok(id as u16)
}

/// Which zones a report names, by the state that was given.
fn options_for(state: Option<ZoneState>) -> ReportingOptions
    ensures { result ≡ options_for state }
{
    match state {
        None => ReportingOptions::AnyState,
        Some(state) => ReportingOptions::InState(state),
    }
}

/// The command of these words, of that many blocks, or with a buffer of that many dwords.
fn command_with(words: &EntryWords, blocks: u32, dwords: u64) -> Command
    requires blocks { 1 ≤ blocks × blocks ≤ 65536 }
    requires dwords { 16 ≤ dwords × dwords ≤ 2 ^ 32 }
    ensures value { result ≡ command_with words.now (unwrap_or words.now.start 0) blocks dwords }
    ensures admitted { IsAdmitted result }
{
    let slba = words.start.unwrap_or(0);
    let action = match words.name {
        EntryName::Flush => return Command::Flush,
        EntryName::Read => return Command::Read { slba, blocks },
        EntryName::Write => return Command::Write { slba, blocks },
        EntryName::Append => {
            return Command::Append {
                zslba: slba,
                blocks,
            };
        }
        EntryName::Report => {
            return Command::Receive {
                slba,
                dwords,
                options: options_for(words.state),
                partial: words.partial,
            };
        }
        EntryName::Open => {
            return Command::Send {
                slba,
                action: Action::Open,
                all: false,
            };
        }
        EntryName::Close => Action::Close,
        EntryName::Finish => Action::Finish,
        EntryName::Reset => Action::Reset,
        EntryName::Offline => Action::Offline,
    };
    Command::Send {
        slba,
        action,
        all: words.all,
    }
}

/// The entry that words ask for. They are refused where the command does not take an option that was given, or the
/// number of an option does not fit its field.
pub fn entry_of(words: &EntryWords) -> Result<Entry, EntryFault>
    ensures ok { IfOk result (IsEntryOf words.now) }
    ensures err { IfErr result (IsNoEntry words.now) }
{
    if !words.fits() {
        return Err(EntryFault::Options);
    }
    let blocks = blocks_of(words.blocks)?;
    let dwords = dwords_of(words.dwords)?;
    let id = id_of(words.id)?;
    Ok(Entry {
        command: command_with(words, blocks, dwords),
        id,
    })
}
