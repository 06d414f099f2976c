//! Requests that have come together, and are done by one call of the store.

ghost use Rattle.std.specs.Prelude.{◌≡◌, ◌<◌, ◌+◌, ◌∷◌, ◌++◌, ◌^◌, [], IfSome, IsTrue, OnOk, false};
ghost use Rattle.std.specs.List.{AllByRecursion};
ghost use Rattle.nbd_session.specs.Groups.{Admits, Gathers, Joins, LiesApart, TakesNext, span_entries, span_of};

use crate::asked::{Asked, data_length};
use crate::client::first_request;
use crate::requests::asked_of_store;
use crate::store::{Store, is_known};
use nbd_wire::Request;
use std::alloc::{AllocError, Global};
use zone_translator::Entry;

/// How many requests a group has at most.
const MOST_REQUESTS: usize = 64;

/// How many bytes of data a group has at most.
const MOST_DATA: usize = 1_048_576;

/// The blocks that a request of a group names, and whether they are trimmed.
#[derive(Clone, Copy)]
pub(crate) struct Span {
    pub(crate) first: u64,
    pub(crate) blocks: u64,
    pub(crate) trim: bool,
}

/// A request of a group, and what it asks.
#[derive(Clone, Copy)]
pub struct Member {
    pub request: Request,
    pub wanted: Asked,
}

/// WRITEs and TRIMs of blocks that no two of them share, in the order in which they came.
#[derive(Drop)]
pub struct Group {
    pub members: Vec<Member>,
    /// Each of their blocks.
    pub entries: Vec<Entry>,
    /// The data of the WRITEs, one after the other.
    pub bytes: Vec<u8>,
}

/// The blocks that a request of a group names. None of one that joins no group.
fn span_of(wanted: Asked, count: u32, block_bytes: u32) -> Option<Span>
    requires { 0 < block_bytes }
    ensures { result ≡ span_of block_bytes wanted count }
{
    match wanted {
        Asked::Write { first } => Some(Span {
            first,
            blocks: u64::from(count / block_bytes),
            trim: false,
        }),
        Asked::Trim { first, blocks } => Some(Span {
            first,
            blocks,
            trim: true,
        }),
        Asked::WriteZeroes {
            first,
            blocks,
            hole: true,
        } => Some(Span {
            first,
            blocks,
            trim: true,
        }),
        Asked::Read { .. } | Asked::WriteZeroes { .. } | Asked::Flush => None,
    }
}

/// What a request asks that may join a group: it changes blocks of the disk, its answer is not known before, and it has
/// not to be durable.
fn joining<S: Store>(store: &S, request: &Request) -> Option<(Asked, Span)>
    ensures joins { IfSome result (λ j. Joins (S.view store.now) request.now j.0 j.1) }
    ensures few { IfSome result (λ j. j.1.first + j.1.blocks < 2 ^ 64) }
{
    // The number of a block has 64 bits.
    let _size = store.blocks();
    let Ok(wanted) = asked_of_store(store, request) else {
        return None;
    };
    if wanted.is_forced(request) {
        return None;
    }
    let span = span_of(wanted, data_length(request), store.block_bytes())?;
    if is_known(store, span.first, span.blocks) {
        return None;
    }
    Some((wanted, span))
}

/// Whether one of these blocks is in a span.
fn share_block(entries: &[Entry], span: Span) -> bool
    ensures { result ≡ false → AllByRecursion (LiesApart span) entries.now }
{
    for entry in entries {
        if entry.block >= span.first && entry.block - span.first < span.blocks {
            return true;
        }
    }
    false
}

/// Names each block of a span after others.
fn name_span(entries: &mut Vec<Entry>, span: Span) -> Result<(), AllocError>
    requires { span.first + span.blocks < 2 ^ 64 }
    ensures { OnOk result (entries.new.items ≡ entries.old.items ++ span_entries span) }
{
    for i in 0..span.blocks {
        entries.push(Entry {
            block: span.first + i,
            trim: span.trim,
        })?;
    }
    Ok(())
}

impl Group {
    /// A group of no request.
    pub fn new(alloc: Global) -> Group {
        Group {
            members: Vec::new(alloc),
            entries: Vec::new(alloc),
            bytes: Vec::new(alloc),
        }
    }

    /// Whether a request can join: no other names one of its blocks, and there is room.
    fn admits(&self, most: u64, span: Span, count: usize) -> bool
        ensures { IsTrue result → Admits self.now most span count }
    {
        if self.members.len() >= MOST_REQUESTS {
            return false;
        }
        if count > MOST_DATA.saturating_sub(self.bytes.len()) {
            return false;
        }
        if span.blocks > most.saturating_sub(self.entries.len() as u64) {
            return false;
        }
        !share_block(&self.entries, span)
    }

    /// Takes a request, with its data.
    fn add(&mut self, member: Member, span: Span, bytes: &[u8]) -> Result<(), AllocError>
        requires { span.first + span.blocks < 2 ^ 64 }
        ensures members { OnOk result (self.new.members.items ≡ self.old.members.items ++ member ∷ []) }
        ensures entries { OnOk result (self.new.entries.items ≡ self.old.entries.items ++ span_entries span) }
        ensures bytes { OnOk result (self.new.bytes.items ≡ self.old.bytes.items ++ bytes.now) }
    {
        name_span(&mut self.entries, span)?;
        self.bytes.extend_from_slice(bytes)?;
        self.members.push(member)?;
        Ok(())
    }

    /// Takes the request that bytes begin with, if it can join. It tells how many bytes that is, 0 if none.
    fn take_next<S: Store>(&mut self, store: &S, bytes: &[u8]) -> Result<usize, AllocError>
        ensures { TakesNext (S.view store.now) bytes.now self.old result self.new }
    {
        let Some(request) = first_request(bytes) else {
            return Ok(0);
        };
        let Some((wanted, span)) = joining(store, &request) else {
            return Ok(0);
        };
        let count = data_length(&request) as usize;
        if !self.admits(store.most_listed(), span, count) {
            return Ok(0);
        }
        let data = &bytes[28..];
        self.add(Member { request, wanted }, span, &data[..count])?;
        Ok(28 + count)
    }

    /// Takes the requests that bytes begin with, as far as they can join. It tells how many bytes they are.
    pub(crate) fn gather<S: Store>(&mut self, store: &S, bytes: &[u8]) -> Result<usize, AllocError>
        ensures { Gathers (S.view store.now) bytes.now result self.new }
    {
        self.members.clear();
        self.entries.clear();
        self.bytes.clear();
        let mut at = 0;
        for _request in 0..MOST_REQUESTS {
            let count = self.take_next(store, &bytes[at..])?;
            if count == 0 {
                return Ok(at);
            }
            at += count;
        }
        Ok(at)
    }
}
