ghost use Rattle.std.specs.Prelude.{◌≡◌, ◌+◌, ◌<◌, ◌^◌, ◌++◌, length, map, OnOk};
ghost use Rattle.batch_log.specs.Log.{data_count};
ghost use Rattle.drive_survey.specs.Heads.{highest_of, is_move, kept_bit, kept_block, kept_entry, no_heads};
ghost use Rattle.drive_survey.specs.Heads.{source_with, with_heading};
ghost use Rattle.drive_array.specs.Sizes.{larger};

use batch_log::{Entry, HeaderView, Kind};
use std::alloc::{AllocError, Global};
use std::marker::Model;

/// The header of a batch, as a mount keeps it, in 16 bytes.
#[derive(Clone, Copy, Debug, PartialEq, Eq)]
pub struct Head {
    /// The number of the batch.
    pub sequence: u64,
    /// The block of the zone where the header stands, counted from 0.
    pub offset: u32,
    /// How many entries of the zone end with this batch's.
    pub end: u32,
}

/// The headers of the batches of a zone, each entry in 4 bytes.
#[derive(Drop)]
pub struct ZoneHeads {
    heads: Vec<Head>,
    entries: Vec<u32>,
    /// How many blocks the batches take.
    blocks: u32,
    /// The source zone of the first batch.
    source: u32,
    /// Whether all batches are Moves from that zone.
    are_moves: bool,
    /// The greatest number of logical blocks that the headers say.
    size: Option<u32>,
    /// The greatest number of entries of a batch.
    most: u32,
    /// The greatest block that is named.
    highest: u64,
}

impl Model for ZoneHeads {
    ghost use Rattle.drive_survey.specs.Heads.{HeadsView};

    ghost Value = { HeadsView };

    ghost view = { λ h. record {
      heads = h.heads.items;
      entries = h.entries.items;
      blocks = h.blocks;
      source = h.source;
      are_moves = h.are_moves;
      size = h.size;
      most = h.most;
      highest = h.highest;
    } };
}

fn kept_block(block: u64) -> u32
    ensures kept { result ≡ kept_block block }
    ensures small { result < 2 ^ 31 }
{
    if block < 1 << 31 {
        return block as u32;
    }
    0
}

fn kept_bit(trim: bool) -> u32
    ensures kept { result ≡ kept_bit trim }
    ensures small { result < 2 ^ 31 + 1 }
{
    if trim {
        return 1 << 31;
    }
    0
}

/// An entry in 4 bytes.
fn kept_entry(entry: Entry) -> u32
    ensures { result ≡ kept_entry entry }
{
    kept_block(entry.block) + kept_bit(entry.trim)
}

/// Adds the entries of a header.
fn push_entries(entries: &mut Vec<u32>, header: &HeaderView<'_>) -> Result<(), AllocError>
    ensures { OnOk result (entries.new.items ≡ entries.old.items ++ map kept_entry header.now.entries) }
{
    for i in 0..header.count() {
        entries.push(kept_entry(header.entry(i)))?;
    }
    Ok(())
}

/// The greatest of a number and the blocks that a header names.
fn highest_of(highest: u64, header: &HeaderView<'_>) -> u64
    ensures { result ≡ highest_of highest header.now.entries }
{
    let mut highest = highest;
    for i in 0..header.count() {
        highest = highest.max(header.entry(i).block);
    }
    highest
}

fn is_move(kind: Kind) -> bool
    ensures { result ≡ is_move kind }
{
    match kind {
        Kind::Move => true,
        Kind::Host => false,
    }
}

/// The greater of two sizes, of which each may be unknown.
pub fn larger(size: Option<u32>, other: Option<u32>) -> Option<u32>
    ensures { result ≡ larger size other }
{
    let Some(first) = size else {
        return other;
    };
    let Some(second) = other else {
        return size;
    };
    Some(first.max(second))
}

impl ZoneHeads {
    /// The headers of no batch.
    pub fn new(alloc: Global) -> ZoneHeads
        ensures { result ≡ no_heads }
    {
        ZoneHeads {
            heads: Vec::new(alloc),
            entries: Vec::new(alloc),
            blocks: 0,
            source: 0,
            are_moves: true,
            size: None,
            most: 0,
            highest: 0,
        }
    }

    /// How many blocks the batches take.
    pub fn blocks(&self) -> u32
        ensures { result ≡ self.now.blocks }
    {
        self.blocks
    }

    /// The greatest size that the headers say, if one says a size.
    pub fn size(&self) -> Option<u32>
        ensures { result ≡ self.now.size }
    {
        self.size
    }

    /// The greatest block that is named, 0 if none is.
    pub fn highest(&self) -> u64
        ensures { result ≡ self.now.highest }
    {
        self.highest
    }

    /// The greatest number of entries of a batch, 0 if none.
    pub fn most(&self) -> u32
        ensures { result ≡ self.now.most }
    {
        self.most
    }

    /// The headers, in the order of the batches.
    pub fn heads(&self) -> &[Head]
        ensures { result.now ≡ self.now.heads }
    {
        &self.heads
    }

    /// The entries of all batches, one after the other.
    pub fn entries(&self) -> &[u32]
        ensures { result.now ≡ self.now.entries }
    {
        &self.entries
    }

    /// The source zone of the first batch.
    pub fn source(&self) -> u32
        ensures { result ≡ self.now.source }
    {
        self.source
    }

    /// Whether all batches are Moves from that zone.
    pub fn are_moves(&self) -> bool
        ensures { result ≡ self.now.are_moves }
    {
        self.are_moves
    }

    fn source_with(&self, source: u32) -> u32
        ensures { result ≡ source_with self.now.heads self.now.source source }
    {
        if self.heads.is_empty() {
            return source;
        }
        self.source
    }

    /// Adds the header of the next batch.
    pub fn push(&mut self, header: &HeaderView<'_>) -> Result<(), AllocError>
        requires few { length self.old.entries + length header.now.entries < 2 ^ 32 }
        requires short { self.old.blocks + 1 + data_count header.now.entries < 2 ^ 32 }
        ensures { OnOk result (self.new ≡ with_heading self.old header.now) }
    {
        let source = self.source_with(header.source());
        push_entries(&mut self.entries, header)?;
        self.heads.push(Head {
            sequence: header.sequence(),
            offset: self.blocks,
            end: self.entries.len() as u32,
        })?;
        self.blocks = self.blocks + 1 + header.data_blocks() as u32;
        self.are_moves = self.are_moves && is_move(header.kind()) && header.source() == source;
        self.source = source;
        self.size = larger(self.size, header.size());
        self.most = self.most.max(header.count() as u32);
        self.highest = highest_of(self.highest, header);
        Ok(())
    }
}
