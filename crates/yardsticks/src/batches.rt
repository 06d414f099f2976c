//! The log that the written blocks of a zone spell, computed as it is defined.

ghost use Rattle.std.specs.Prelude.{◌≡◌, ◌==◌, ◌&&◌, ◌⊎◌, not, ◌≤◌, ◌<◌, ◌*◌, ◌^◌, ◌↔◌, [], drop};
ghost use Rattle.std.specs.Prelude.{length, map, nat_eq, vec_len, IsTrue, IfOk, IfSome, IfNone};
ghost use Rattle.batch_log.specs.declared.header.Kind.TheVariants.{Host};
ghost use Rattle.std.specs.List.{AllByRecursion, IsDistinct, list_any};
ghost use Rattle.byteorder.specs.Endian.{little_from};
ghost use Rattle.batch_log.specs.Header.{IsHeading, IsHeaderBlock, IsNoHeader, IsSize, heading_of};
ghost use Rattle.batch_log.specs.Header.{header_block, head_size, entry_room};
ghost use Rattle.batch_log.specs.Reading.{entry_of, entries_in, kind_of, said_size, heading_in};
ghost use Rattle.batch_log.specs.Log.{BeginsWithNoBatch, HaveNoLog, IsTail, IsTorn, data_count, zero_block};
ghost use Rattle.yardsticks.specs.Batches.{held_blocks, batch_of, BeginsWithBatch, IsFound};

use batch_log::{Entry, Header, Kind, header_bytes};
use byteorder::{ByteOrder, LittleEndian};
use std::alloc::{AllocError, Global};

/// Where the entries of a header begin.
const HEAD_SIZE: usize = 32;
/// The bit of an entry that marks a trim.
const TRIM_BIT: u64 = 1 << 63;

/// A batch of a log.
#[derive(Debug, Drop)]
pub struct Batch {
    pub header: Header,
    /// A block for each entry that is not a trim.
    pub body: Vec<Vec<u8>>,
}

/// The log of a zone.
#[derive(Debug, Drop)]
pub struct ZoneLog {
    pub batches: Vec<Batch>,
    /// Whether a torn tail is after the batches: a header block and fewer data blocks than it needs.
    pub is_torn: bool,
}

fn entry_at(bytes: &[u8]) -> Entry
    requires { 8 ≤ length bytes.now }
    ensures { result ≡ entry_of (little_from 0 8 bytes.now) }
{
    let word = LittleEndian::read_u64(bytes);
    if word < TRIM_BIT {
        Entry {
            block: word,
            trim: false,
        }
    } else {
        Entry {
            block: word - TRIM_BIT,
            trim: true,
        }
    }
}

fn entries_at(alloc: Global, count: usize, bytes: &[u8]) -> Result<Vec<Entry>, AllocError>
    requires { 8 * count ≤ length bytes.now }
    ensures { IfOk result (λ entries. entries.items ≡ entries_in count bytes.now) }
{
    let mut entries = Vec::new(alloc);
    for i in 0..count {
        entries.push(entry_at(&bytes[8 * i..]))?;
    }
    Ok(entries)
}

fn kind_at(bytes: &[u8]) -> Kind
    requires { 2 ≤ length bytes.now }
    ensures { result ≡ kind_of (little_from 0 2 bytes.now) }
{
    if LittleEndian::read_u16(bytes) == 2 {
        Kind::Move
    } else {
        Kind::Host
    }
}

/// The size after a header's source, which version 2 says.
fn size_at(version: &[u8], word: &[u8]) -> Option<u32>
    requires version { 2 ≤ length version.now }
    requires word { 4 ≤ length word.now }
    ensures { result ≡ said_size (little_from 0 2 version.now) (little_from 0 4 word.now) }
{
    if LittleEndian::read_u16(version) == 2 {
        Some(LittleEndian::read_u32(word))
    } else {
        None
    }
}

/// The only header that the block can encode, unless its entries do not fit the block.
fn claimed_header(alloc: Global, block: &[u8]) -> Result<Option<Header>, AllocError>
    requires { head_size ≤ length block.now }
    ensures some { IfOk result
        (λ found. IfSome found (λ header. heading_of header ≡ heading_in block.now)) }
    ensures none { let room = entry_room (length block.now) in
        IfOk result (λ found. IfNone found (room < length (heading_in block.now).entries)) }
{
    let count = LittleEndian::read_u32(&block[12..]) as usize;
    if count > (block.len() - HEAD_SIZE) / 8 {
        return Ok(None);
    }
    Ok(Some(Header {
        kind: kind_at(&block[10..]),
        sequence: LittleEndian::read_u64(&block[16..]),
        source: LittleEndian::read_u32(&block[24..]),
        size: size_at(&block[8..], &block[28..]),
        entries: entries_at(alloc, count, &block[HEAD_SIZE..])?,
    }))
}

fn is_named(block: u64, entries: &[Entry]) -> bool
    ensures { result ≡ list_any (λ e. nat_eq block e.block) entries.now }
{
    entries.iter().any(|entry| block == entry.block)
}

fn are_distinct(entries: &[Entry]) -> bool
    ensures { IsTrue result ↔ IsDistinct nat_eq (map (λ e. e.block) entries.now) }
{
    for (i, entry) in entries.iter().enumerate() {
        if is_named(entry.block, &entries[i + 1..]) {
            return false;
        }
    }
    true
}

fn are_small(entries: &[Entry]) -> bool
    ensures { IsTrue result ↔ AllByRecursion (λ e. e.block < 2 ^ 63) entries.now }
{
    entries.iter().all(|entry| entry.block < TRIM_BIT)
}

fn is_source(kind: Kind, source: u32) -> bool
    ensures { IsTrue result ↔ (kind ≡ Host → source ≡ 0) }
{
    match kind {
        Kind::Host => source == 0,
        Kind::Move => true,
    }
}

fn is_size(size: Option<u32>) -> bool
    ensures { IsTrue result ↔ IfSome size IsSize }
{
    match size {
        None => true,
        Some(size) => 1 <= size && size <= 1 << 31,
    }
}

/// Whether a block of that many bytes, 32 at least, can encode the header.
pub fn is_heading(header: &Header, block_bytes: usize) -> bool
    requires size { head_size ≤ block_bytes }
    requires sequence { header.now.sequence < 2 ^ 64 }
    ensures { IsTrue result ↔ IsHeading block_bytes (heading_of header.now) }
{
    if header.entries.len() > (block_bytes - HEAD_SIZE) / 8 {
        return false;
    }
    if !is_source(header.kind, header.source) {
        return false;
    }
    if !is_size(header.size) {
        return false;
    }
    if !are_small(&header.entries) {
        return false;
    }
    are_distinct(&header.entries)
}

fn spelling(alloc: Global, header: &Header, block_bytes: usize) -> Result<Vec<u8>, AllocError>
    requires heading { IsHeading block_bytes (heading_of header.now) }
    requires size { (block_bytes ≡ 512) ⊎ (block_bytes ≡ 4096) }
    ensures { IfOk result
        (λ block. block.items ≡ header_block block_bytes (heading_of header.now)) }
{
    let mut block = vec![in alloc; 0; block_bytes]?;
    header_bytes(header, &mut block);
    Ok(block)
}

fn is_spelling(alloc: Global, header: &Header, block: &[u8]) -> Result<bool, AllocError>
    requires heading { IsHeading (length block.now) (heading_of header.now) }
    requires size { (length block.now ≡ 512) ⊎ (length block.now ≡ 4096) }
    ensures { let encoded = header_block (length block.now) (heading_of header.now) in
        IfOk result (λ same. IsTrue same ↔ (block.now ≡ encoded)) }
{
    let encoded = spelling(alloc, header, block.len())?;
    Ok(encoded.as_slice() == block)
}

/// The header that the block encodes, if any.
fn read_header(alloc: Global, block: &[u8]) -> Result<Option<Header>, AllocError>
    requires { (length block.now ≡ 512) ⊎ (length block.now ≡ 4096) }
    ensures some { let size = length block.now in
        IfOk result (λ found.
        IfSome found (λ header. IsHeaderBlock size block.now (heading_of header))) }
    ensures none { IfOk result (λ found. IfNone found (IsNoHeader block.now)) }
{
    let Some(header) = claimed_header(alloc, block)? else {
        return Ok(None);
    };
    if !is_heading(&header, block.len()) {
        return Ok(None);
    }
    let is_same = is_spelling(alloc, &header, block)?;
    if !is_same {
        return Ok(None);
    }
    Ok(Some(header))
}

fn data_blocks(entries: &[Entry]) -> usize
    ensures { result ≡ data_count entries.now }
{
    let mut count = 0;
    for entry in entries {
        if !entry.trim {
            count += 1;
        }
    }
    count
}

pub(crate) fn copied(alloc: Global, blocks: &[Vec<u8>]) -> Result<Vec<Vec<u8>>, AllocError>
    ensures { IfOk result (λ copy. held_blocks copy.items ≡ held_blocks blocks.now) }
{
    let mut copy = Vec::new(alloc);
    for block in blocks {
        copy.push(Vec::from_slice(alloc, block)?)?;
    }
    Ok(copy)
}

/// The batch that the blocks begin with, if they begin with one.
fn first_batch(
    alloc: Global,
    blocks: &[Vec<u8>],
    block_bytes: usize,
) -> Result<Option<Batch>, AllocError>
    requires size { (block_bytes ≡ 512) ⊎ (block_bytes ≡ 4096) }
    requires sizes { AllByRecursion (λ block. vec_len block ≡ block_bytes) blocks.now }
    ensures some { let all = held_blocks blocks.now in
        IfOk result (λ found.
        IfSome found (λ batch. BeginsWithBatch block_bytes all (batch_of batch))) }
    ensures none { IfOk result
        (λ found. IfNone found (BeginsWithNoBatch block_bytes (held_blocks blocks.now))) }
{
    let Some((block, after)) = blocks.split_first() else {
        return Ok(None);
    };
    let Some(header) = read_header(alloc, block)? else {
        return Ok(None);
    };
    let count = data_blocks(&header.entries);
    if after.len() < count {
        return Ok(None);
    }
    let body = copied(alloc, &after[..count])?;
    Ok(Some(Batch { header, body }))
}

fn is_zero(block: &[u8]) -> bool
    ensures { IsTrue result ↔ (block.now ≡ zero_block (length block.now)) }
{
    block.iter().all(|byte| *byte == 0)
}

fn are_zero(blocks: &[Vec<u8>]) -> bool
    ensures { IsTrue result
        ↔ AllByRecursion (λ block. block.items ≡ zero_block (vec_len block)) blocks.now }
{
    blocks.iter().all(|block| is_zero(block))
}

/// Whether blocks that begin with no batch are a torn tail: the first of them is a header block.
fn are_torn(alloc: Global, blocks: &[Vec<u8>], block_bytes: usize) -> Result<bool, AllocError>
    requires size { (block_bytes ≡ 512) ⊎ (block_bytes ≡ 4096) }
    requires sizes { AllByRecursion (λ block. vec_len block ≡ block_bytes) blocks.now }
    requires none { BeginsWithNoBatch block_bytes (held_blocks blocks.now) }
    ensures { let all = held_blocks blocks.now in
        IfOk result (λ b. IsTrue b ↔ IsTorn block_bytes all) }
{
    let Some((block, _)) = blocks.split_first() else {
        return Ok(false);
    };
    let Some(_header) = read_header(alloc, block)? else {
        return Ok(false);
    };
    Ok(true)
}

/// Whether blocks that begin with no batch may be after the last batch of a zone.
fn are_tail(
    alloc: Global,
    blocks: &[Vec<u8>],
    block_bytes: usize,
    is_full: bool,
) -> Result<bool, AllocError>
    requires size { (block_bytes ≡ 512) ⊎ (block_bytes ≡ 4096) }
    requires sizes { AllByRecursion (λ block. vec_len block ≡ block_bytes) blocks.now }
    requires none { BeginsWithNoBatch block_bytes (held_blocks blocks.now) }
    ensures { let all = held_blocks blocks.now in
        IfOk result (λ b. IsTrue b ↔ IsTail block_bytes is_full all) }
{
    if is_full {
        return Ok(are_zero(blocks));
    }
    if blocks.is_empty() {
        return Ok(true);
    }
    are_torn(alloc, blocks, block_bytes)
}

/// Whether a torn tail is left, where the blocks that are left are a tail.
fn is_torn_left(rest: &[Vec<u8>], is_full: bool) -> bool
    ensures { result ≡ (not is_full && not (length rest.now == 0)) }
{
    !is_full && !rest.is_empty()
}

/// The log of a zone with these written blocks, if it has one. A block has 512 or 4096 bytes. After the
/// last batch of a full zone there may be blocks of zeros, and of another zone a torn tail.
pub fn log(
    alloc: Global,
    blocks: &[Vec<u8>],
    block_bytes: usize,
    is_full: bool,
) -> Result<Option<ZoneLog>, AllocError>
    requires size { (block_bytes ≡ 512) ⊎ (block_bytes ≡ 4096) }
    requires sizes { AllByRecursion (λ block. vec_len block ≡ block_bytes) blocks.now }
    ensures some { let all = held_blocks blocks.now in
        IfOk result (λ found. IfSome found (λ log. IsFound block_bytes is_full all log)) }
    ensures none { IfOk result
        (λ found. IfNone found (HaveNoLog block_bytes is_full (held_blocks blocks.now))) }
{
    let mut batches = Vec::new(alloc);
    let mut rest = blocks;
    loop {
        let Some(batch) = first_batch(alloc, rest, block_bytes)? else {
            if !are_tail(alloc, rest, block_bytes, is_full)? {
                return Ok(None);
            }
            let is_torn = is_torn_left(rest, is_full);
            return Ok(Some(ZoneLog { batches, is_torn }));
        };
        let (_, after) = rest.split_at(1 + batch.body.len());
        rest = after;
        batches.push(batch)?;
    }
}
