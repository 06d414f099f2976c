ghost use Rattle.std.specs.Prelude.{◌≡◌, ◌⊎◌, ◌++◌, ◌+◌, ◌≤◌, ◌<◌, ◌^◌, [], OnOk, OnErr, drop, length, replicate, take};
ghost use Rattle.batch_log.specs.Header.{IsHeading, header_block, heading_of};
ghost use Rattle.drive_port.specs.Answering.{ReadExtends};
ghost use Rattle.zone_choice.specs.Builder.{data_entries, entries_from, naming, trim_entries};

use batch_log::{Entry, Header, Kind, header_bytes};
use drive_port::{Device, PortFault, read_extending};
use std::alloc::{AllocError, Global};
use std::marker::Model;

/// How many bytes are before a batch's. Long pieces of memory begin at the same offset of a page each, that
/// of a batch as that of a zone. From one to another at the same offset the GNU C library copies backward, which is
/// slower.
const FRONT: usize = 576;

/// The batch that is about to be appended: its header, and the bytes of its blocks. Both keep their room
/// from one batch to the next.
///
/// A batch is built in this order: `start`, a call of `name_data` or `name_trims` for each run of blocks that it
/// names, `encode`, and `fill` or `copy` for the data. Where its data comes first, it is built in this order:
/// `make_room`, `read` for each block of data, `start`, the names, and `encode_before_data`.
#[derive(Drop)]
pub struct BatchBuilder {
    header: Header,
    /// The bytes of its blocks, after others.
    bytes: Vec<u8>,
    /// How many the others are.
    front: usize,
}

impl Model for BatchBuilder {
    ghost use Rattle.std.specs.Prelude.{◌≤◌, drop, length};
    ghost use Rattle.batch_log.specs.Header.{heading_of};
    ghost use Rattle.zone_choice.specs.Builder.{BuilderView};

    ghost Value = { BuilderView };

    ghost view = { λ b. record { heading = heading_of b.header; bytes = drop b.front b.bytes.items } };

    ghost invariant = { λ b. b.front ≤ length b.bytes.items };
}

impl BatchBuilder {
    /// A builder of no batch yet.
    pub fn new(alloc: Global) -> BatchBuilder
        ensures { result.bytes ≡ [] }
    {
        BatchBuilder {
            header: Header {
                kind: Kind::Host,
                sequence: 0,
                source: 0,
                size: None,
                entries: Vec::new(alloc),
            },
            bytes: Vec::new(alloc),
            front: 0,
        }
    }

    /// Starts a batch that names no block. `source` is the zone that a Move empties, 0 for a Host batch.
    /// `size` is the number of logical blocks that the header says: it has version 2, or version 1 if it
    /// says none.
    pub fn start(&mut self, kind: Kind, sequence: u64, source: u32, size: Option<u32>)
        ensures heading { self.new.heading ≡ record {
          kind = kind;
          sequence = sequence;
          source = source;
          size = size;
          entries = [];
        } }
        ensures bytes { self.new.bytes ≡ self.old.bytes }
    {
        self.header.kind = kind;
        self.header.sequence = sequence;
        self.header.source = source;
        self.header.size = size;
        self.header.entries.clear();
    }

    /// Names `count` blocks more, from `first` on, that the batch has data of.
    pub fn name_data(&mut self, first: u32, count: u32) -> Result<(), AllocError>
        requires { first + count < 2 ^ 32 }
        ensures heading { OnOk result
            (self.new.heading ≡ naming self.old.heading (data_entries first count)) }
        ensures bytes { self.new.bytes ≡ self.old.bytes }
    {
        self.name(first, count, false)
    }

    /// Names `count` blocks more, from `first` on, that the batch trims.
    pub fn name_trims(&mut self, first: u32, count: u32) -> Result<(), AllocError>
        requires { first + count < 2 ^ 32 }
        ensures heading { OnOk result
            (self.new.heading ≡ naming self.old.heading (trim_entries first count)) }
        ensures bytes { self.new.bytes ≡ self.old.bytes }
    {
        self.name(first, count, true)
    }

    /// Names these blocks more, each as a trim or with data.
    pub fn name_all(&mut self, entries: &[Entry]) -> Result<(), AllocError>
        ensures heading { OnOk result (self.new.heading ≡ naming self.old.heading entries.now) }
        ensures bytes { self.new.bytes ≡ self.old.bytes }
    {
        self.header.entries.extend_from_slice(entries)
    }

    /// Writes the header block of the batch, `block_bytes` bytes: 512 or 4,096.
    pub fn encode(&mut self, block_bytes: u32) -> Result<(), AllocError>
        // A block of this size can hold the header: its numbers are in range, and no block is named twice.
        requires block { (block_bytes ≡ 512) ⊎ (block_bytes ≡ 4096) }
        requires heading { IsHeading block_bytes self.old.heading }
        // The heading never changes. Done, the bytes are its header block, without data.
        ensures heading { self.new.heading ≡ self.old.heading }
        ensures bytes { OnOk result (self.new.bytes ≡ header_block block_bytes self.old.heading) }
    {
        self.make_room(block_bytes)?;
        self.encode_before_data(block_bytes);
        Ok(())
    }

    /// Makes room for the header block, `block_bytes` bytes, and drops all data. Where an allocation fails, the bytes
    /// stay.
    pub fn make_room(&mut self, block_bytes: u32) -> Result<(), AllocError>
        ensures heading { self.new.heading ≡ self.old.heading }
        ensures ok { OnOk result (length self.new.bytes ≡ block_bytes) }
        ensures err { OnErr result (self.new.bytes ≡ self.old.bytes) }
    {
        self.bytes.resize(FRONT + block_bytes as usize, 0)?;
        self.front = FRONT;
        Ok(())
    }

    /// Writes the header block of the batch into its room, before the data that is there: 512 or 4,096 bytes. It
    /// allocates nothing.
    pub fn encode_before_data(&mut self, block_bytes: u32)
        // There is room for a block of this size, and it can hold the header.
        requires block { (block_bytes ≡ 512) ⊎ (block_bytes ≡ 4096) }
        requires room { block_bytes ≤ length self.old.bytes }
        requires heading { IsHeading block_bytes self.old.heading }
        // The heading never changes. Its header block replaces the first bytes, and the data after it is the same.
        ensures heading { self.new.heading ≡ self.old.heading }
        ensures bytes { self.new.bytes
            ≡ header_block block_bytes self.old.heading ++ drop block_bytes self.old.bytes }
    {
        write_header(
            &self.header,
            &mut self.bytes,
            self.front,
            block_bytes as usize,
        );
    }

    /// Adds data: the block at an address of the drive. After a fault the bytes are unchanged.
    #[inline]
    pub fn read<D: Device>(&mut self, device: &mut D, address: u64) -> Result<(), PortFault>
        ensures heading { self.new.heading ≡ self.old.heading }
        ensures read { ReadExtends (D.drive device.old) address 1 self.old.bytes result self.new.bytes
            (D.drive device.new) }
    {
        read_extending(device, address, 1, &mut self.bytes)
    }

    /// Drops all bytes after the first `count`.
    pub fn truncate(&mut self, count: usize)
        requires { count < 2 ^ 62 }
        ensures heading { self.new.heading ≡ self.old.heading }
        ensures bytes { self.new.bytes ≡ take count self.old.bytes }
    {
        self.bytes.truncate(self.front + count);
    }

    /// Adds data: `count` bytes, all alike.
    pub fn fill(&mut self, count: usize, byte: u8) -> Result<(), AllocError>
        requires { count < 2 ^ 62 }
        ensures heading { self.new.heading ≡ self.old.heading }
        ensures bytes { OnOk result (self.new.bytes ≡ self.old.bytes ++ replicate count byte) }
    {
        let length = self.bytes.len() + count;
        self.bytes.resize(length, byte)?;
        Ok(())
    }

    /// Adds these bytes of data.
    pub fn copy(&mut self, bytes: &[u8]) -> Result<(), AllocError>
        ensures heading { self.new.heading ≡ self.old.heading }
        ensures bytes { OnOk result (self.new.bytes ≡ self.old.bytes ++ bytes.now) }
    {
        self.bytes.extend_from_slice(bytes)
    }

    fn name(&mut self, first: u32, count: u32, trim: bool) -> Result<(), AllocError>
        requires { first + count < 2 ^ 32 }
        ensures heading { OnOk result
            (self.new.heading ≡ naming self.old.heading (entries_from trim first count)) }
        ensures bytes { self.new.bytes ≡ self.old.bytes }
    {
        for i in 0..count {
            let block = first as u64 + i as u64;
            self.header.entries.push(Entry { block, trim })?;
        }
        Ok(())
    }

    pub(crate) fn size(&self) -> Option<u32>
        ensures { result ≡ self.now.heading.size }
    {
        self.header.size
    }

    /// What the batch names, in the order of its header.
    pub fn entries(&self) -> &[Entry]
        ensures { result.now ≡ self.now.heading.entries }
    {
        &self.header.entries
    }

    /// The bytes of its blocks, the header block first.
    pub fn bytes(&self) -> &[u8]
        ensures { result.now ≡ self.now.bytes }
    {
        &self.bytes[self.front..]
    }
}

/// Writes a header block over the bytes after the first `front`.
fn write_header(header: &Header, bytes: &mut [u8], front: usize, block_bytes: usize)
    // There is room for a block of this size, and it can hold the header.
    requires block { (block_bytes ≡ 512) ⊎ (block_bytes ≡ 4096) }
    requires room { front + block_bytes ≤ length bytes.old }
    requires heading { IsHeading block_bytes (heading_of header.now) }
    // After the first `front` bytes comes the header block. What follows it is the same, and so is the length.
    ensures bytes { drop front bytes.new
        ≡ header_block block_bytes (heading_of header.now) ++ drop block_bytes
        (drop front bytes.old) }
    ensures length { length bytes.new ≡ length bytes.old }
{
    let (_, after) = bytes.split_at_mut(front);
    let (room, _) = after.split_at_mut(block_bytes);
    header_bytes(header, room);
}
