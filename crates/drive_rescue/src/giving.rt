ghost use Rattle.std.specs.Prelude.{◌≡◌, ◌+◌, ◌<◌, ◌≤◌, ◌^◌, ◌++◌, ℕ, List, OnOk, IfOk, IfErr, replicate};
ghost use Rattle.drive_port.specs.Drive.{IsLawful};
ghost use Rattle.drive_rescue.specs.Rescue.{KeepsSource};
ghost use Rattle.drive_rescue.specs.Giving.{AllFit, FindsHeld, FitsSlot, Gave, GiveFails, GivesAll, GivesBlock};
ghost use Rattle.drive_rescue.specs.Giving.{GivesMore, IsKept, StepFails, only_if, slot_newness};
ghost use Rattle.drive_rescue.specs.Ranges.{blocks_in};
ghost use Rattle.drive_rescue.specs.Searching.{Finding};
ghost use Rattle.zone_states.specs.Geometry.{IsInRange};

use crate::fault::RescueFault;
use crate::ranges::{BlockRange, push_block};
use crate::search::Search;
use crate::source::{Reading, Source, read_again};
use crate::table::{Slot, slot_at};
use disk_files::write_out;
use drive_port::Halt;
use std::alloc::{AllocError, Global};
use std::io::Write;

/// What was given of a disk.
#[derive(Drop)]
pub struct Rescued {
    /// How many blocks it has.
    pub blocks: u32,
    /// Those whose newest data cannot be read, in ascending order. They are given as zeros.
    pub lost: Vec<BlockRange>,
    /// Those that may be older than they should be, in ascending order: something newer may be missing.
    pub older: Vec<BlockRange>,
}

/// Makes a buffer a block of zeros.
fn write_zeros(bytes: u32, into: &mut Vec<u8>) -> Result<(), AllocError>
    ensures { OnOk result (into.new.items ≡ replicate bytes 0) }
{
    into.clear();
    into.resize(bytes as usize, 0)
}

/// Reads what a block shows, and tells whether it is lost. It is zeros then, and if it was trimmed or never written.
fn read_shown<S: Source>(
    source: &mut S,
    slot: Option<Slot>,
    into: &mut Vec<u8>,
) -> Result<bool, Halt>
    requires range { IsInRange (S.view source.old).drive.geometry }
    requires there { FitsSlot (S.view source.old) slot }
    ensures gives { IfOk result (λ is_lost. GivesBlock (S.view source.new) slot is_lost into.new.items) }
    ensures kept { KeepsSource (S.view source.old) (S.view source.new) }
{
    let block = source.geometry().block;
    let Some(slot) = slot else {
        write_zeros(block, into)?;
        return Ok(false);
    };
    if slot.trim {
        write_zeros(block, into)?;
        return Ok(false);
    }
    match read_again(source, slot.zone, slot.offset, into)? {
        Reading::Held => Ok(false),
        Reading::Unreadable => {
            write_zeros(block, into)?;
            Ok(true)
        }
    }
}

/// How new a block is: the sequence of its newest record, 0 if it has none.
fn newness(slot: Option<Slot>) -> u64
    ensures { result ≡ slot_newness slot }
{
    match slot {
        Some(slot) => slot.sequence,
        None => 0,
    }
}

impl Rescued {
    /// Notes that one block more is given.
    fn add(&mut self, is_lost: bool, is_older: bool) -> Result<(), AllocError>
        requires { self.old.blocks < 2 ^ 31 }
        ensures blocks { OnOk result (self.new.blocks ≡ self.old.blocks + 1) }
        ensures lost { OnOk result (blocks_in self.new.lost.items
            ≡ blocks_in self.old.lost.items ++ only_if is_lost self.old.blocks) }
        ensures older { OnOk result (blocks_in self.new.older.items
            ≡ blocks_in self.old.older.items ++ only_if is_older self.old.blocks) }
    {
        if is_lost {
            push_block(&mut self.lost, self.blocks)?;
        }
        if is_older {
            push_block(&mut self.older, self.blocks)?;
        }
        self.blocks += 1;
        Ok(())
    }
}

/// Gives the next block.
fn give_next<S: Source, W: Write>(
    source: &mut S,
    search: &Search,
    writer: &mut W,
    rescued: &mut Rescued,
    block: &mut Vec<u8>,
) -> Result<(), RescueFault>
    requires range { IsInRange (S.view source.old).drive.geometry }
    requires fits { AllFit (S.view source.old) search.now.table.items }
    requires few { rescued.old.blocks < 2 ^ 31 }
    ensures ok { OnOk result ((finding : Finding) (bytes : List ℕ) → IsKept (S.view source.new) search.now finding
        → Gave (S.view source.new) finding rescued.old bytes
        → GivesMore (S.view source.new) finding rescued.new bytes (W.contents writer.old) (W.contents writer.new)) }
    ensures blocks { OnOk result (rescued.new.blocks ≡ rescued.old.blocks + 1) }
    ensures err { IfErr result (StepFails (S.view source.new) search.now rescued.old (W.contents writer.old)
        (W.contents writer.new)) }
    ensures kept { KeepsSource (S.view source.old) (S.view source.new) }
{
    let slot = slot_at(&search.table, rescued.blocks as usize);
    let is_lost = read_shown(source, slot, block)?;
    rescued.add(is_lost, newness(slot) < search.doubt)?;
    if let Err(_) = write_out(writer, block) {
        return Err(RescueFault::Output);
    }
    Ok(())
}

/// Gives so many blocks.
pub(crate) fn give_blocks<S: Source, W: Write>(
    alloc: Global,
    source: &mut S,
    search: &Search,
    size: u32,
    writer: &mut W,
) -> Result<Rescued, RescueFault>
    requires range { IsInRange (S.view source.old).drive.geometry }
    requires lawful { IsLawful (S.view source.old).drive }
    requires finds { FindsHeld (S.view source.old) search.now }
    requires few { size ≤ 2 ^ 31 }
    ensures size { IfOk result (λ rescued. rescued.blocks ≡ size) }
    ensures ok { IfOk result (λ rescued. (finding : Finding) → IsKept (S.view source.old) search.now finding
        → GivesAll (S.view source.new) finding rescued (W.contents writer.old) (W.contents writer.new)) }
    ensures err { IfErr result (GiveFails (S.view source.new) (W.contents writer.old) (W.contents writer.new)) }
    ensures kept { KeepsSource (S.view source.old) (S.view source.new) }
{
    let mut block = Vec::new(alloc);
    let mut rescued = Rescued {
        blocks: 0,
        lost: Vec::new(alloc),
        older: Vec::new(alloc),
    };
    while rescued.blocks < size {
        give_next(source, search, writer, &mut rescued, &mut block)?;
    }
    Ok(rescued)
}
