ghost use Rattle.std.specs.Prelude.{◌≡◌, ◌≢◌, ◌≤◌, ◌<◌, ◌+◌, ◌*◌, ◌%◌, ◌/◌, ◌^◌, ℕ, List};
ghost use Rattle.std.specs.Prelude.{[], length, take, drop, false, true, Some, None};
ghost use Rattle.batch_log.specs.Header.{head_size};
ghost use Rattle.batch_log.specs.Causes.{header_fault, is_zero};
ghost use Rattle.batch_log.specs.Ending.{AreBlocks};

use crate::fault::{FaultAt, LogFault};
use crate::view::{HeaderView, is_zero, read_header};

/// A batch of a zone. It borrows from the bytes of the zone.
#[derive(Drop)]
pub struct Batch<'a> {
    /// At which block of the zone the header is, from 0 on.
    pub offset: u32,
    /// The header, read from its block.
    pub header: HeaderView<'a>,
    /// The data: one block for each entry that is not a trim.
    pub body: &'a [u8],
}

/// The batches of a zone, read from its bytes one after the other. If something else follows the
/// last one, an error comes then, and nothing after it. A torn tail is no error: `torn` tells of
/// it.
#[derive(Drop)]
pub struct Batches<'a> {
    rest: &'a [u8],
    block_bytes: u32,
    is_full: bool,
    offset: u32,
    end: u32,
    torn: Option<u32>,
    ghost room: { head_size ≤ block_bytes },
    ghost in_range: { offset ≤ end },
    ghost whole: { length rest.now + offset * block_bytes ≡ end * block_bytes },
}

impl<'a> Batches<'a> {
    ghost use Rattle.batch_log.specs.Lent.{AreRead, IsDone, Steps, begins, bytes_of_blocks, left, torn_left};

    /// The batches in the readable blocks of a zone, of `block_bytes` bytes each. In a Full zone
    /// these are all blocks up to the capacity, and in any other the written ones.
    pub fn new(bytes: &'a [u8], block_bytes: u32, is_full: bool) -> Batches<'a>
        requires room { head_size ≤ block_bytes }
        requires whole { length bytes.now % block_bytes ≡ 0 }
        requires few { length bytes.now / block_bytes < 2 ^ 32 }
        ensures { (blocks : List (List ℕ)) → AreBlocks block_bytes blocks → bytes_of_blocks blocks
            ≡ bytes.now → AreRead block_bytes is_full blocks (left result) (torn_left result) }
    {
        Batches {
            rest: bytes,
            block_bytes,
            is_full,
            offset: 0,
            end: (bytes.len() / block_bytes as usize) as u32,
            torn: None,
        }
    }

    /// At which block a torn tail begins, if there is one. This is known once `next` has answered
    /// `None`.
    pub fn torn(&self) -> Option<u32>
        requires { IsDone self.now }
        ensures { result ≡ torn_left self.now }
    {
        self.torn
    }

    /// What comes where a block is no header block: an error, or the end of the log if the zone is
    /// Full and only zeros follow.
    fn foreign(&mut self, cause: LogFault) -> Option<Result<Batch<'a>, FaultAt>>
        requires some { self.old.rest.now ≢ [] }
        requires long { self.old.block_bytes ≤ length self.old.rest.now }
        requires cause { header_fault (take self.old.block_bytes self.old.rest.now) ≡ Some cause }
        ensures { Steps self.old result self.new }
    {
        let offset = self.offset;
        let (block, others) = self.rest.split_at(self.block_bytes as usize);
        self.rest = &[];
        self.offset = self.end;
        if !self.is_full {
            return Some(Err(FaultAt::new(offset, cause)));
        }
        if !is_zero(block) {
            return Some(Err(FaultAt::new(offset, cause)));
        }
        if is_zero(others) {
            return None;
        }
        Some(Err(FaultAt::new(offset, LogFault::ForeignTail)))
    }

    /// What comes where too few blocks follow a header block: an error in a Full zone, else a torn
    /// tail.
    fn short(&mut self) -> Option<Result<Batch<'a>, FaultAt>>
        requires some { self.old.rest.now ≢ [] }
        requires header { header_fault (take self.old.block_bytes self.old.rest.now) ≡ None }
        requires short { begins self.old.block_bytes self.old.rest.now ≡ false }
        ensures { Steps self.old result self.new }
    {
        let offset = self.offset;
        self.rest = &[];
        self.offset = self.end;
        if self.is_full {
            return Some(Err(FaultAt::new(offset, LogFault::Torn)));
        }
        self.torn = Some(offset);
        None
    }
}

impl<'a> Iterator for Batches<'a> {
    type Item = Result<Batch<'a>, FaultAt>;

    ghost use Rattle.std.specs.Iterator.{item_count};
    ghost use Rattle.batch_log.specs.Lent.{Steps, left};

    ghost next_gives = { Steps };

    ghost remaining = { item_count left };

    fn next(&mut self) -> Option<Result<Batch<'a>, FaultAt>> {
        if self.rest.is_empty() {
            return None;
        }
        let size = self.block_bytes as usize;
        let (block, others) = self.rest.split_at(size);
        let header = match read_header(block) {
            Ok(header) => header,
            Err(cause) => return self.foreign(cause),
        };
        let count = header.data_blocks();
        if others.len() < count * size {
            return self.short();
        }
        let (body, after) = others.split_at(count * size);
        let offset = self.offset;
        self.rest = after;
        self.offset = offset + 1 + count as u32;
        Some(Ok(Batch {
            offset,
            header,
            body,
        }))
    }
}
