ghost use Rattle.std.specs.Prelude.{◌≡◌, ◌≤◌, ◌<◌, ◌+◌, ◌*◌, ◌-◌, ◌^◌, nat_eq, length, take, drop};
ghost use Rattle.std.specs.Prelude.{slice_get, None, Some, IfOk, IfErr, IsTrue, false};
ghost use Rattle.std.specs.List.{list_any};
ghost use Rattle.byteorder.specs.Endian.{little_from};
ghost use Rattle.batch_log.specs.Header.{IsHeaderBlock, IsNoHeader, head_size, entry_room};
ghost use Rattle.batch_log.specs.Reading.{number_at, entry_of, entries_in, kind_of, said_size, count_in, heading_in};
ghost use Rattle.batch_log.specs.Causes.{entry_blocks, header_fault, has_early_size, has_host_source, has_odd_size};
ghost use Rattle.batch_log.specs.Causes.{is_kind, is_size, is_version, is_zero, repeats};
ghost use Rattle.batch_log.specs.Log.{data_count, one_unless};

use crate::encode::{HEAD_SIZE, MAGIC, TRIM_BIT};
use crate::fault::LogFault;
use crate::header::{Entry, Kind};
use byteorder::{ByteOrder, LittleEndian};
use std::marker::Model;

fn u16_at(block: &[u8], place: usize) -> u16
    requires { place + 2 ≤ length block.now }
    ensures { result ≡ number_at place 2 block.now }
{
    LittleEndian::read_u16(&block[place..])
}

fn u32_at(block: &[u8], place: usize) -> u32
    requires { place + 4 ≤ length block.now }
    ensures { result ≡ number_at place 4 block.now }
{
    LittleEndian::read_u32(&block[place..])
}

fn u64_at(block: &[u8], place: usize) -> u64
    requires { place + 8 ≤ length block.now }
    ensures { result ≡ number_at place 8 block.now }
{
    LittleEndian::read_u64(&block[place..])
}

/// The entry with this number, of bytes that begin with the entries.
fn entry_at(bytes: &[u8], i: usize) -> Entry
    requires { 8 * i + 8 ≤ length bytes.now }
    ensures value { result ≡ entry_of (number_at (8 * i) 8 bytes.now) }
    ensures small { result.block < 2 ^ 63 }
{
    let word = u64_at(bytes, 8 * i);
    if word < TRIM_BIT {
        return Entry {
            block: word,
            trim: false,
        };
    }
    Entry {
        block: word - TRIM_BIT,
        trim: true,
    }
}

fn one_unless(trim: bool) -> usize
    ensures { result ≡ one_unless trim }
{
    if trim { 0 } else { 1 }
}

/// How many of the first `count` entries are not trims.
fn data_count(bytes: &[u8], count: usize) -> usize
    requires { 8 * count ≤ length bytes.now }
    ensures { result ≡ data_count (entries_in count bytes.now) }
{
    let mut blocks = 0;
    for i in 0..count {
        blocks += one_unless(entry_at(bytes, i).trim);
    }
    blocks
}

fn is_version(version: u16) -> bool
    ensures { result ≡ is_version version }
{
    version == 1 || version == 2
}

fn is_kind(kind: u16) -> bool
    ensures { result ≡ is_kind kind }
{
    kind == 1 || kind == 2
}

fn is_size(size: u32) -> bool
    ensures { result ≡ is_size size }
{
    1 <= size && size <= 1 << 31
}

fn has_odd_size(version: u16, word: u32) -> bool
    ensures { result ≡ has_odd_size version word }
{
    version == 2 && !is_size(word)
}

fn has_early_size(version: u16, word: u32) -> bool
    ensures { result ≡ has_early_size version word }
{
    version == 1 && word != 0
}

fn has_host_source(kind: u16, source: u32) -> bool
    ensures { result ≡ has_host_source kind source }
{
    kind == 1 && source != 0
}

pub(crate) fn is_zero(bytes: &[u8]) -> bool
    ensures { result ≡ is_zero bytes.now }
{
    bytes.iter().all(|byte| *byte == 0)
}

/// Whether one of the entries with the numbers from `first` on names the block.
fn is_named(block: u64, bytes: &[u8], first: usize, count: usize) -> bool
    requires { 8 * count ≤ length bytes.now }
    ensures { let later = entries_in (count - first) (drop (8 * first) bytes.now) in
        result ≡ list_any (λ y. nat_eq block y) (entry_blocks later) }
{
    for i in first..count {
        if block == entry_at(bytes, i).block {
            return true;
        }
    }
    false
}

/// Whether each entry names a greater block than the one before. Then no two name the same block.
fn ascend(bytes: &[u8], count: usize) -> bool
    requires { 8 * count ≤ length bytes.now }
    ensures { IsTrue result → repeats (entry_blocks (entries_in count bytes.now)) ≡ false }
{
    let mut least = 0;
    for i in 0..count {
        let block = entry_at(bytes, i).block;
        if block < least {
            return false;
        }
        least = block + 1;
    }
    true
}

/// Whether two entries name the same block. Entries in ascending order are looked at once. Others
/// are all compared with each other, which takes 508 * 507 / 2 comparisons at most.
fn repeats(bytes: &[u8], count: usize) -> bool
    requires { 8 * count ≤ length bytes.now }
    ensures { result ≡ repeats (entry_blocks (entries_in count bytes.now)) }
{
    if ascend(bytes, count) {
        return false;
    }
    for i in 0..count {
        if is_named(entry_at(bytes, i).block, bytes, i + 1, count) {
            return true;
        }
    }
    false
}

/// Whether two of the `count` entries of a header block name the same block.
fn has_repeats(block: &[u8], count: usize) -> bool
    requires { head_size + 8 * count ≤ length block.now }
    ensures { result ≡ repeats (entry_blocks (entries_in count (drop head_size block.now))) }
{
    repeats(&block[HEAD_SIZE..], count)
}

/// Whether a block has only zeros from this byte on.
fn is_zero_from(block: &[u8], place: usize) -> bool
    requires { place ≤ length block.now }
    ensures { result ≡ is_zero (drop place block.now) }
{
    is_zero(&block[place..])
}

/// Why a block is no header block, or `None` if it is one. There is no checksum: each field is
/// checked.
#[tactic(auto, unfolding(crate::specs::Causes::header_fault))]
fn fault_in(block: &[u8]) -> Option<LogFault>
    requires { head_size ≤ length block.now }
    ensures { result ≡ header_fault block.now }
{
    if !block.starts_with(&MAGIC) {
        return Some(LogFault::Magic);
    }
    let version = u16_at(block, 8);
    if !is_version(version) {
        return Some(LogFault::Version);
    }
    let kind = u16_at(block, 10);
    if !is_kind(kind) {
        return Some(LogFault::Kind);
    }
    let count = u32_at(block, 12) as usize;
    if count > (block.len() - HEAD_SIZE) / 8 {
        return Some(LogFault::Count);
    }
    let size = u32_at(block, 28);
    if has_odd_size(version, size) {
        return Some(LogFault::Size);
    }
    if has_early_size(version, size) {
        return Some(LogFault::RestNotZero);
    }
    if has_host_source(kind, u32_at(block, 24)) {
        return Some(LogFault::RestNotZero);
    }
    if !is_zero_from(block, HEAD_SIZE + 8 * count) {
        return Some(LogFault::RestNotZero);
    }
    if has_repeats(block, count) {
        return Some(LogFault::BlockRepeated);
    }
    None
}

/// The header in a block. It borrows the block, and reads each field when it is asked for.
#[derive(Drop)]
pub struct HeaderView<'a> {
    block: &'a [u8],
}

impl<'a> Model for HeaderView<'a> {
    ghost use Rattle.batch_log.specs.Header.{Heading};
    ghost use Rattle.batch_log.specs.Reading.{IsView, heading_in};

    ghost Value = { Heading };

    ghost view = { λ v. heading_in v.block.now };

    ghost invariant = { λ v. IsView v.block.now };
}

/// Reads the header of a batch. If the block is no header, the first cause is returned.
pub fn read_header(block: &[u8]) -> Result<HeaderView<'_>, LogFault>
    requires room { head_size ≤ length block.now }
    requires small { length block.now < 2 ^ 32 }
    ensures ok { IfOk result (λ view. IsHeaderBlock (length block.now) block.now view) }
    ensures err { IfErr result (λ fault. header_fault block.now ≡ Some fault) }
    ensures none { IfErr result (λ _. IsNoHeader block.now) }
    ensures read { IfOk result
        (λ view. (header_fault block.now ≡ None) × (view ≡ heading_in block.now)) }
{
    match fault_in(block) {
        Some(fault) => Err(fault),
        None => Ok(HeaderView { block }),
    }
}

#[tactic(auto, using(crate::proofs::EntryLaws::entries_length), unfolding(crate::specs::Reading::heading_in))]
impl HeaderView<'_> {
    /// Who wrote the batch.
    pub fn kind(&self) -> Kind
        ensures { result ≡ self.now.kind }
    {
        if u16_at(self.block, 10) == 2 {
            return Kind::Move;
        }
        Kind::Host
    }

    /// The sequence of the batch: its number in the order in which all batches of the drive were
    /// written.
    pub fn sequence(&self) -> u64
        ensures { result ≡ self.now.sequence }
    {
        u64_at(self.block, 16)
    }

    /// The zone that a Move empties, 0 for a Host batch.
    pub fn source(&self) -> u32
        ensures { result ≡ self.now.source }
    {
        u32_at(self.block, 24)
    }

    /// The number of logical blocks of the disk. A header of version 1 does not say it.
    pub fn size(&self) -> Option<u32>
        ensures { result ≡ self.now.size }
    {
        if u16_at(self.block, 8) == 2 {
            return Some(u32_at(self.block, 28));
        }
        None
    }

    /// How many entries there are.
    pub fn count(&self) -> usize
        ensures { result ≡ length self.now.entries }
    {
        u32_at(self.block, 12) as usize
    }

    /// The entry with this number, from 0 on.
    pub fn entry(&self, i: usize) -> Entry
        requires { i < length self.now.entries }
        ensures { slice_get self.now.entries i ≡ Some result }
    {
        entry_at(&self.block[HEAD_SIZE..], i)
    }

    /// How many data blocks follow the header: one for each entry that is not a trim.
    pub fn data_blocks(&self) -> usize
        ensures { result ≡ data_count self.now.entries }
    {
        data_count(&self.block[HEAD_SIZE..], self.count())
    }
}
