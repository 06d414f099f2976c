ghost use Rattle.std.specs.Prelude.{◌≡◌, ◌⊎◌, ◌≤◌, ◌<◌, ◌*◌, ◌^◌, length};
ghost use Rattle.std.specs.List.{flat_map, AllByRecursion};
ghost use Rattle.std.specs.Prelude.{IfSome};
ghost use Rattle.batch_log.specs.Header.{IsHeading, heading_of, kind_code, version_of, size_word, entry_room};
ghost use Rattle.batch_log.specs.Header.{entry_word, entry_word_bytes, head_bytes, head_size, header_block};

use crate::header::{Entry, Header, Kind};
use byteorder::{ByteOrder, LittleEndian};

/// Where the entries of a header begin.
pub(crate) const HEAD_SIZE: usize = 32;
/// The bit of an entry that marks a trim.
pub(crate) const TRIM_BIT: u64 = 1 << 63;

/// How a header begins.
pub(crate) const MAGIC: [u8; 8] = *b"ZLOGBAT1";

/// How many entries a header block has room for, by its size in bytes.
pub fn entry_room(block_bytes: u32) -> u32
    ensures { result ≡ entry_room block_bytes }
{
    block_bytes.saturating_sub(HEAD_SIZE as u32) / 8
}

fn code(kind: Kind) -> u16
    ensures { result ≡ kind_code kind }
{
    match kind {
        Kind::Host => 1,
        Kind::Move => 2,
    }
}

fn version(size: Option<u32>) -> u16
    ensures { result ≡ version_of size }
{
    match size {
        None => 1,
        Some(_) => 2,
    }
}

fn size_word(size: Option<u32>) -> u32
    ensures { result ≡ size_word size }
{
    match size {
        None => 0,
        Some(size) => size,
    }
}

fn word(entry: Entry) -> u64
    requires { entry.block < 2 ^ 63 }
    ensures { result ≡ entry_word entry }
{
    if entry.trim {
        entry.block + TRIM_BIT
    } else {
        entry.block
    }
}

fn write_head(header: &Header, out: &mut [u8])
    requires count { length header.now.entries.items < 2 ^ 32 }
    requires size { length out.old ≡ head_size }
    ensures { let count = length header.now.entries.items in
        out.new ≡ head_bytes header.now.kind count header.now.sequence header.now.source
        header.now.size }
{
    out[..8].copy_from_slice(&MAGIC);
    LittleEndian::write_u16(&mut out[8..10], version(header.size));
    LittleEndian::write_u16(&mut out[10..12], code(header.kind));
    LittleEndian::write_u32(&mut out[12..16], header.entries.len() as u32);
    LittleEndian::write_u64(&mut out[16..24], header.sequence);
    LittleEndian::write_u32(&mut out[24..28], header.source);
    LittleEndian::write_u32(&mut out[28..32], size_word(header.size));
}

fn write_entries(entries: &[Entry], out: &mut [u8])
    requires blocks { AllByRecursion (λ e. e.block < 2 ^ 63) entries.now }
    requires room { length out.old ≡ 8 * length entries.now }
    requires short { length out.old ≤ 4096 }
    ensures { out.new ≡ flat_map entry_word_bytes entries.now }
{
    for (i, entry) in entries.iter().enumerate() {
        LittleEndian::write_u64(&mut out[8 * i..], word(*entry));
    }
}

/// Writes the header into `out`, a whole block of 512 or 4096 bytes: the head, the entries, and zeros
/// after them. A header with a size is written in version 2, one without in version 1.
#[tactic(auto, unfolding(crate::specs::Header::header_block))]
pub fn header_bytes(header: &Header, out: &mut [u8])
    requires heading { IsHeading (length out.old) (heading_of header.now) }
    requires block { (length out.old ≡ 512) ⊎ (length out.old ≡ 4096) }
    ensures { out.new ≡ header_block (length out.old) (heading_of header.now) }
{
    let (head, rest) = out.split_at_mut(HEAD_SIZE);
    let (entries, zeros) = rest.split_at_mut(8 * header.entries.len());
    write_head(header, head);
    write_entries(&header.entries, entries);
    zeros.fill(0);
}
