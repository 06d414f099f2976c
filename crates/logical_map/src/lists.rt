ghost use Rattle.std.specs.Prelude.{◌≡◌, ◌≤◌, OnOk, length, true, if◌then◌else◌};
ghost use Rattle.std.specs.List.Sorted.{IsNonDecreasing};
ghost use Rattle.logical_map.specs.Lists.{NotesMove, IsFirstFrom, KeepsListed, KeepsThere};
ghost use Rattle.logical_map.specs.Lists.{Notes, Shortens, fresh_list, listed, missing};
ghost use Rattle.logical_map.specs.Pages.{page_of};

use crate::pages::{Pages, word_at};
use crate::zone_words::ZoneWords;
use std::alloc::{AllocError, Global};
use std::marker::Model;

/// The blocks of a zone, 4 bytes each: those that were placed there, in any order and perhaps more than once,
/// while there was room for them. Some may be elsewhere now.
#[derive(Drop)]
pub struct ZoneList {
    blocks: Vec<u32>,
    /// Whether the blocks ascend.
    sorted: bool,
    /// Whether each block that is in the zone is among them.
    whole: bool,
    /// The position that is tried first when one is asked for: that after the last answer.
    next: usize,
}

impl Model for ZoneList {
    ghost use Rattle.std.specs.Prelude.{◌≡◌, true};
    ghost use Rattle.std.specs.List.Sorted.{IsNonDecreasing};
    ghost use Rattle.logical_map.specs.Lists.{ListView};

    ghost Value = { ListView };

    ghost view = { λ l. record { blocks = l.blocks.items; whole = l.whole } };

    ghost invariant = { λ l. l.sorted ≡ true → IsNonDecreasing l.blocks.items };
}

impl ZoneList {
    /// A list that says nothing, until it begins anew. It allocates nothing.
    pub fn new(alloc: Global) -> ZoneList
        ensures { result ≡ missing }
    {
        ZoneList {
            blocks: Vec::new(alloc),
            sorted: false,
            whole: false,
            next: 0,
        }
    }

    /// Makes room for `count` blocks more. Where that wants memory, room is made for an eighth of the blocks at
    /// least. The list of a zone in which no block is begins anew.
    pub fn make_room(&mut self, empty: bool, count: u32) -> Result<(), AllocError>
        ensures { self.new ≡ (if empty then fresh_list else self.old) }
    {
        if empty {
            self.blocks.clear();
            self.sorted = false;
            self.whole = true;
        }
        let more = count as usize;
        if more <= self.blocks.capacity() - self.blocks.len() {
            return Ok(());
        }
        self.blocks.reserve_exact(more.max(self.blocks.len() / 8))
    }

    /// Notes a block. Without room for it the list is not whole any more; nothing is allocated.
    pub fn note(&mut self, block: u32)
        ensures { Notes self.old block self.new }
    {
        if self.blocks.len() == self.blocks.capacity() {
            self.whole = false;
            return;
        }
        self.sorted = false;
        self.blocks.push_reserved(block);
    }

    /// Whether each block that is in the zone is among the blocks.
    pub fn is_whole(&self) -> bool
        ensures { result ≡ self.now.whole }
    {
        self.whole
    }

    /// The blocks.
    pub fn blocks(&self) -> &[u32]
        ensures { result.now ≡ self.now.blocks }
    {
        self.blocks.as_slice()
    }

    /// Brings the blocks in ascending order where they are not.
    fn sort(&mut self)
        ensures whole { self.new.whole ≡ self.old.whole }
        ensures kept { KeepsListed self.old.blocks self.new.blocks }
        ensures ascends { IsNonDecreasing self.new.blocks }
    {
        if self.sorted {
            return;
        }
        self.blocks.sort_unstable();
        self.sorted = true;
    }

    /// Sorts the blocks as `sort` does, and answers the position of the first that is no lower than `from`.
    pub fn position_from(&mut self, from: u32) -> usize
        ensures whole { self.new.whole ≡ self.old.whole }
        ensures kept { KeepsListed self.old.blocks self.new.blocks }
        ensures ascends { IsNonDecreasing self.new.blocks }
        ensures first { IsFirstFrom self.new.blocks from result }
    {
        self.sort();
        let position = first_from_near(&self.blocks, from, self.next);
        self.next = position.saturating_add(1);
        position
    }

    /// Drops the blocks that are elsewhere, those that are there twice, and the room that they took. It needs
    /// no memory.
    pub fn tidy(&mut self, pages: &Pages, zone_size: u32, zone: u64)
        ensures whole { self.new.whole ≡ self.old.whole }
        ensures kept { KeepsThere
            (page_of pages.now.items) zone_size zone self.old.blocks self.new.blocks }
    {
        let words = ZoneWords::of(zone_size, zone);
        self.sorted = false;
        self.blocks
            .retain(|block| words.hold(word_at(pages, *block)));
        self.blocks.sort_unstable();
        self.blocks.dedup();
        self.blocks.shrink_to_fit();
    }
}

/// Whether a position is that of the first of ascending blocks that is no lower than `from`.
fn is_first_from(blocks: &[u32], from: u32, position: usize) -> bool
    requires { IsNonDecreasing blocks.now }
    ensures { result ≡ true → IsFirstFrom blocks.now from position }
{
    if position > blocks.len() || (position > 0 && blocks[position - 1] >= from) {
        return false;
    }
    position == blocks.len() || blocks[position] >= from
}

/// The position of the first of ascending blocks that is no lower than `from`: the one that is given, where it is that,
/// or found by bisection.
fn first_from_near(blocks: &[u32], from: u32, position: usize) -> usize
    requires { IsNonDecreasing blocks.now }
    ensures { IsFirstFrom blocks.now from result }
{
    if is_first_from(blocks, from, position) {
        return position;
    }
    first_from(blocks, from)
}

/// The position of the first of ascending blocks that is no lower than `from`, found by bisection.
fn first_from(blocks: &[u32], from: u32) -> usize
    requires { IsNonDecreasing blocks.now }
    ensures { IsFirstFrom blocks.now from result }
{
    blocks.partition_point(|block| *block < from)
}

/// Makes lists until there are `count` of them, each of which says nothing.
pub fn make_lists(alloc: Global, lists: &mut Vec<ZoneList>, count: usize) -> Result<(), AllocError>
    ensures ok { OnOk result (count ≤ length lists.new.items) }
    ensures kept { (zone : _) → listed lists.new.items zone ≡ listed lists.old.items zone }
{
    while lists.len() < count {
        lists.push(ZoneList::new(alloc))?;
    }
    Ok(())
}

/// Notes a block that was moved from one zone to another on the list of the other.
pub fn note(lists: &mut Vec<ZoneList>, was: Option<u64>, zone: Option<u64>, block: u32)
    ensures { NotesMove lists.old.items was zone block lists.new.items }
{
    if zone == was {
        return;
    }
    let Some(zone) = zone else {
        return;
    };
    if zone >= lists.len() as u64 {
        return;
    }
    lists[zone as usize].note(block);
}

/// The zone that a block leaves, if its place moves it out of one.
pub fn left_zone(was: Option<u64>, zone: Option<u64>) -> Option<u64> {
    if was == zone {
        return None;
    }
    was
}

/// Tidies the list of a zone that a block left, where it is longer than the zone and has more than twice the blocks
/// that are there.
pub fn shorten(
    lists: &mut Vec<ZoneList>,
    pages: &Pages,
    counts: &[u32],
    zone_size: u32,
    left: Option<u64>,
)
    ensures { Shortens (page_of pages.now.items) zone_size lists.old.items lists.new.items }
{
    let Some(was) = left else {
        return;
    };
    if was >= lists.len() as u64 || was >= counts.len() as u64 {
        return;
    }
    let most = counts[was as usize].saturating_mul(2).max(zone_size);
    if lists[was as usize].blocks().len() <= most as usize {
        return;
    }
    lists[was as usize].tidy(pages, zone_size, was);
}

/// Whether a zone has a list that is whole.
pub fn is_whole(lists: &[ZoneList], zone: usize) -> bool
    ensures { result ≡ (listed lists.now zone).whole }
{
    if zone >= lists.len() {
        return false;
    }
    lists[zone].is_whole()
}
