// Lies about a Read.

use crate::kept_reads::KeptRead;
use std::alloc::Global;

/// How many kinds of lies there are about a Read.
pub const LIES: usize = 12;

/// A byte of a header and a bit of it: of its number of entries, its sequence, the same, the disk's size, the first
/// block that it names, and what marks that one as a trim.
const FIELDS: [(usize, usize); 6] = [(12, 0), (16, 0), (23, 6), (28, 1), (32, 0), (39, 7)];

/// Whether a block begins as a header does.
fn is_header(block: &[u8]) -> bool {
    block.get(..8) == Some(&b"ZLOGBAT1"[..])
}

/// The last Read before one, of another block or of the same one, with other bytes than these.
fn earlier<'a>(
    reads: &'a [KeptRead],
    before: usize,
    address: u64,
    same: bool,
    bytes: &[u8],
) -> Option<&'a [u8]> {
    let reads = reads.get(..before)?;
    let found = reads.iter().rev().find(|read| {
        read.bytes.len() == 512
            && (read.address == address) == same
            && read.bytes.as_slice() != bytes
    });
    found.map(|read| read.bytes.as_slice())
}

/// A header of another run, by its number among the first ones.
fn foreign(reads: &[KeptRead], number: usize) -> Option<&[u8]> {
    let mut headers = reads
        .iter()
        .filter(|read| read.bytes.len() == 512 && is_header(&read.bytes));
    headers.nth(number % 8).map(|read| read.bytes.as_slice())
}

/// Turns one bit.
fn turn_bit(block: &mut [u8], place: usize, bit: usize) {
    if let Some(byte) = block.get_mut(place) {
        *byte ^= 1 << (bit % 8);
    }
}

/// Puts these bytes in the place of others.
fn put(block: &mut [u8], bytes: &[u8]) {
    if block.len() == bytes.len() {
        block.copy_from_slice(bytes);
    }
}

/// What a Read returns by a kind of lies: one of its blocks is another. Not every Read has a lie of each kind.
pub fn lie(
    alloc: Global,
    reads: &[KeptRead],
    others: &[KeptRead],
    number: usize,
    kind: usize,
) -> Option<Vec<u8>> {
    let read = reads.get(number)?;
    let place = number % (read.bytes.len() / 512).max(1);
    let address = read.address.wrapping_add(place as u64);
    let held = read.bytes.chunks(512).nth(place)?;
    let mut bytes = Vec::from_slice(alloc, &read.bytes).ok()?;
    let block = bytes.chunks_mut(512).nth(place)?;
    match kind {
        0 => turn_bit(block, number.wrapping_mul(37) % 512, number),
        1 => block.fill(0),
        2 => block.fill(0xff),
        3 => put(block, earlier(reads, number, address, true, held)?),
        4 => put(block, earlier(reads, number, address, false, held)?),
        5 => put(block, foreign(others, number)?),
        _ if !is_header(held) => return None,
        _ => {
            let (place, bit) = FIELDS.get(kind.wrapping_sub(6)).copied()?;
            turn_bit(block, place, bit);
        }
    }
    Some(bytes)
}
