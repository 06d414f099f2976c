ghost use Rattle.std.specs.Prelude.{◌≡◌, ◌<◌, ◌≤◌, ◌+◌, ◌*◌, ◌∷◌, ◌++◌, [], IsTrue, OnErr, OnOk, drop, false, is_some};
ghost use Rattle.std.specs.Prelude.{length, replicate};
ghost use Rattle.std.specs.Prelude.{slice_get};
ghost use Rattle.batch_log.specs.Log.{zero_block};
ghost use Rattle.drive_port.specs.Calls.{data_blocks};
ghost use Rattle.zone_translator.specs.Answers.{AreBlocksOf, count_of_blocks};
ghost use Rattle.zone_translator.specs.Flat.{known_range};
ghost use Rattle.nbd_session.specs.Pending.{AreApart, pieces};
ghost use Rattle.nbd_session.specs.Store.{StaysByCall, store_array, store_flat};
ghost use Rattle.volatile_cache.specs.Cache.{AddsOnly, Applies, HasOnly, HasOutcomesOf, HasRoom, IsPut, Keeps};
ghost use Rattle.volatile_cache.specs.Cache.{KeepsSome, LeavesOthers, MakesRoom, PutsOrFails};
ghost use Rattle.volatile_cache.specs.Queue.{all_pending, bytes_of, is_trim, oldest_of, pending_of};
ghost use Rattle.volatile_cache.specs.Queue.{without_oldest};

use crate::kept::{Content, Kept};
use crate::queue::WriteQueue;
use nbd_session::{Store, StoreFault, is_known};
use std::alloc::{AllocError, Global};
use std::marker::Model;

/// A store above which writes are kept until a sync, as in a disk's volatile write cache.
#[derive(Drop)]
pub struct VolatileCache<S: Store + Drop> {
    pub(crate) store: S,
    /// What is pending, oldest first.
    pub(crate) queue: WriteQueue,
    /// How many blocks may be pending. It never changes.
    most: u64,
    pub(crate) alloc: Global,
}

impl<S: Store + Drop> Model for VolatileCache<S> {
    ghost use Rattle.std.specs.Prelude.{◌≤◌, length};
    ghost use Rattle.volatile_cache.specs.Cache.{AreOf, Cache};

    ghost Value = { Cache S };

    ghost view = { λ c. record { store = c.store; kept = c.queue; most = c.most } };

    ghost invariant = { λ c. AreOf (S.view c.store) c.queue × (length c.queue ≤ c.most) };
}

/// Writes a pending block to the store below.
fn put<S: Store>(store: &mut S, kept: &Kept) -> Result<(), StoreFault>
    requires { length (bytes_of kept.now.content) ≡ (S.view store.old).disk.drive.geometry.block }
    ensures puts { IsTrue (S.view store.new).disk.drive.clean
        → PutsOrFails (is_trim kept.now.content) (S.view store.old) (pending_of kept.now) result (S.view store.new) }
    ensures stays { StaysByCall (S.view store.old) (S.view store.new) }
{
    // A block has some bytes.
    let _size = store.block_bytes();
    match &kept.content {
        Content::Bytes(bytes) => store.write(kept.place, bytes),
        Content::Zeros(_) => store.write_zeroes(kept.place, 1),
        Content::Trimmed(_) => store.trim(kept.place, 1),
    }
}

impl<S: Store + Drop> VolatileCache<S> {
    /// This store, above which at most so many bytes of blocks are kept. A block that is trimmed counts as any other.
    pub fn new(alloc: Global, store: S, most_bytes: u64) -> VolatileCache<S>
        ensures store { result.store ≡ store }
        ensures kept { result.kept ≡ [] }
        ensures bounded { result.most * (S.view store).disk.drive.geometry.block ≤ most_bytes }
        ensures full { most_bytes < (result.most + 1) * (S.view store).disk.drive.geometry.block }
    {
        let most = most_bytes / u64::from(store.block_bytes());
        VolatileCache {
            store,
            queue: WriteQueue::new(alloc),
            most,
            alloc,
        }
    }

    /// The store below, to be looked at.
    pub fn store(&self) -> &S
        ensures { result.now ≡ self.now.store }
    {
        &self.store
    }

    /// The store below as it is. What was pending is forgotten, as when a program is killed.
    pub fn into_store(self) -> S
        ensures { result ≡ self.store }
    {
        self.store
    }

    /// How many blocks are pending.
    pub fn pending(&self) -> usize
        ensures count { result ≡ length self.now.kept }
        ensures bounded { result ≤ self.now.most }
    {
        self.queue.len()
    }

    /// Whether the answer to a call of these blocks is known before anything is done: it names no block or one past the
    /// end, or the disk does not serve.
    pub(crate) fn is_known(&self, first: u64, blocks: u64) -> bool
        ensures { result ≡ is_some (known_range (store_flat (S.view self.now.store)) first blocks) }
    {
        is_known(&self.store, first, blocks)
    }

    /// Whether so many blocks more may be pending.
    pub(crate) fn has_room(&self, blocks: u64) -> bool
        ensures room { IsTrue result → length self.now.kept + blocks ≤ self.now.most }
        ensures full { result ≡ false → self.now.most < length self.now.kept + blocks }
    {
        blocks <= self.most.saturating_sub(self.queue.len() as u64)
    }

    /// Writes the oldest block of a place to the store below. If that refuses it, it stays pending.
    fn apply(&mut self, place: u64) -> Result<(), StoreFault>
        ensures applies { IsTrue (S.view self.new.store).disk.drive.clean → Applies S.view self.old result self.new }
        ensures ok { OnOk result (self.new.kept ≡ without_oldest place self.old.kept) }
        ensures put { IsTrue (S.view self.new.store).disk.drive.clean
            → OnOk result (IsPut (oldest_of place self.old.kept) (store_array (S.view self.old.store)) (store_array (S.view self.new.store))) }
        ensures most { self.new.most ≡ self.old.most }
        ensures err { OnErr result (self.new.kept ≡ self.old.kept) }
        ensures outcomes { IsTrue (S.view self.new.store).disk.drive.clean → HasOutcomesOf S.view self.old self.new }
        // Whatever the Reads returned, the store below stays what it is.
        ensures stays { StaysByCall (S.view self.old.store) (S.view self.new.store) }
    {
        let Some(kept) = self.queue.oldest_of(place) else {
            return Ok(());
        };
        if let Err(fault) = put(&mut self.store, kept) {
            return Err(fault);
        }
        self.queue.pop_oldest_of(place);
        Ok(())
    }

    /// Writes the oldest block to the store below. If that refuses it, it stays pending.
    pub(crate) fn apply_oldest(&mut self) -> Result<(), StoreFault>
        ensures applies { IsTrue (S.view self.new.store).disk.drive.clean → Applies S.view self.old result self.new }
        ensures ok { OnOk result (self.new.kept ≡ drop 1 self.old.kept) }
        ensures put { IsTrue (S.view self.new.store).disk.drive.clean
            → OnOk result (IsPut (slice_get self.old.kept 0) (store_array (S.view self.old.store)) (store_array (S.view self.new.store))) }
        ensures most { self.new.most ≡ self.old.most }
        ensures err { OnErr result (self.new.kept ≡ self.old.kept) }
        ensures outcomes { IsTrue (S.view self.new.store).disk.drive.clean → HasOutcomesOf S.view self.old self.new }
        // Whatever the Reads returned, the store below stays what it is.
        ensures stays { StaysByCall (S.view self.old.store) (S.view self.new.store) }
    {
        let Some(kept) = self.queue.oldest() else {
            return Ok(());
        };
        let place = kept.place;
        self.apply(place)
    }

    /// Writes the oldest blocks to the store below, until there is room for so many more or none is pending.
    pub(crate) fn make_room(&mut self, blocks: u64) -> Result<(), StoreFault>
        ensures applies { IsTrue (S.view self.new.store).disk.drive.clean → Applies S.view self.old result self.new }
        ensures oldest { MakesRoom self.old blocks self.new }
        ensures most { self.new.most ≡ self.old.most }
        ensures stays { StaysByCall (S.view self.old.store) (S.view self.new.store) }
    {
        while !self.queue.is_empty() && !self.has_room(blocks) {
            if let Err(fault) = self.apply_oldest() {
                return Err(fault);
            }
        }
        Ok(())
    }

    /// Writes all blocks to the store below, the oldest first.
    pub(crate) fn apply_all(&mut self) -> Result<(), StoreFault>
        ensures applies { IsTrue (S.view self.new.store).disk.drive.clean → Applies S.view self.old result self.new }
        ensures none { OnOk result (self.new.kept ≡ []) }
        ensures only { HasOnly self.old self.new }
        ensures most { self.new.most ≡ self.old.most }
        ensures stays { StaysByCall (S.view self.old.store) (S.view self.new.store) }
    {
        while !self.queue.is_empty() {
            if let Err(fault) = self.apply_oldest() {
                return Err(fault);
            }
        }
        Ok(())
    }

    /// Writes the pending blocks of these places to the store below, of each place the oldest first.
    pub(crate) fn apply_within(&mut self, first: u64, blocks: u64) -> Result<(), StoreFault>
        ensures applies { IsTrue (S.view self.new.store).disk.drive.clean → Applies S.view self.old result self.new }
        ensures apart { OnOk result (AreApart first blocks (all_pending self.new.kept)) }
        ensures others { LeavesOthers first blocks self.old self.new }
        ensures most { self.new.most ≡ self.old.most }
        ensures stays { StaysByCall (S.view self.old.store) (S.view self.new.store) }
    {
        while let Some(place) = self.queue.place_from(first) {
            if place - first >= blocks {
                return Ok(());
            }
            if let Err(fault) = self.apply(place) {
                return Err(fault);
            }
        }
        Ok(())
    }

    /// Keeps one block. If there is no memory, nothing is kept.
    fn keep(&mut self, place: u64, content: Content) -> Result<(), AllocError>
        requires whole { length (bytes_of content) ≡ (S.view self.old.store).disk.drive.geometry.block }
        requires room { HasRoom S.view self.old place 1 }
        ensures ok { OnOk result (Keeps self.old (pieces place (bytes_of content ∷ [])) self.new) }
        ensures added { OnOk result (self.new.kept ≡ self.old.kept ++ record { place = place; content = content } ∷ []) }
        ensures err { OnErr result (self.new ≡ self.old) }
    {
        self.queue.push(Kept { place, content })
    }

    /// Keeps the bytes of one block.
    fn keep_block(&mut self, place: u64, block: &[u8]) -> Result<(), AllocError>
        requires whole { length block.now ≡ (S.view self.old.store).disk.drive.geometry.block }
        requires room { HasRoom S.view self.old place 1 }
        ensures ok { OnOk result (Keeps self.old (pieces place (block.now ∷ [])) self.new) }
        ensures err { OnErr result (self.new ≡ self.old) }
    {
        let bytes = Vec::from_slice(self.alloc, block)?;
        self.keep(place, Content::Bytes(bytes))
    }

    /// Keeps the blocks of these bytes from `first` on, or the first of them until there is no memory.
    fn keep_blocks(&mut self, first: u64, bytes: &[u8]) -> Result<(), AllocError>
        requires whole { AreBlocksOf (S.view self.old.store).disk bytes.now }
        requires room { HasRoom S.view self.old first (count_of_blocks (S.view self.old.store).disk bytes.now) }
        ensures ok { OnOk result (Keeps self.old (pieces first (data_blocks (S.view self.old.store).disk.drive.geometry bytes.now)) self.new) }
        ensures err { OnErr result (KeepsSome self.old self.new) }
    {
        let size = self.store.block_bytes() as usize;
        // The number of a block has 64 bits.
        let _end = self.store.blocks();
        for k in 0..bytes.len() / size {
            self.keep_block(first + k as u64, &bytes[k * size..(k + 1) * size])?;
        }
        Ok(())
    }

    /// Keeps `blocks` blocks of zeros from `first` on, trimmed or not, or the first of them until there is no memory.
    fn keep_empty(&mut self, first: u64, blocks: u64, is_trim: bool) -> Result<(), AllocError>
        requires { HasRoom S.view self.old first blocks }
        ensures ok { OnOk result (Keeps self.old (pieces first (replicate blocks (zero_block (S.view self.old.store).disk.drive.geometry.block))) self.new) }
        ensures kind { OnOk result (AddsOnly is_trim self.old self.new) }
        ensures err { OnErr result (KeepsSome self.old self.new) }
    {
        let size = self.store.block_bytes();
        // The number of a block has 64 bits.
        let _end = self.store.blocks();
        for k in 0..blocks {
            let content = if is_trim {
                Content::Trimmed(size)
            } else {
                Content::Zeros(size)
            };
            self.keep(first + k, content)?;
        }
        Ok(())
    }

    /// Keeps these bytes, whole blocks from `first` on. If there is no memory, nothing of them is kept.
    pub(crate) fn keep_bytes(&mut self, first: u64, bytes: &[u8]) -> Result<(), AllocError>
        requires whole { AreBlocksOf (S.view self.old.store).disk bytes.now }
        requires room { HasRoom S.view self.old first (count_of_blocks (S.view self.old.store).disk bytes.now) }
        ensures ok { OnOk result (Keeps self.old (pieces first (data_blocks (S.view self.old.store).disk.drive.geometry bytes.now)) self.new) }
        ensures err { OnErr result (self.new ≡ self.old) }
    {
        let before = self.queue.len();
        let kept = self.keep_blocks(first, bytes);
        if kept.is_err() {
            self.queue.truncate(before);
        }
        kept
    }

    /// Keeps `blocks` blocks of zeros from `first` on, trimmed or not. If there is no memory, nothing of them is kept.
    pub(crate) fn keep_zeros(
        &mut self,
        first: u64,
        blocks: u64,
        is_trim: bool,
    ) -> Result<(), AllocError>
        requires { HasRoom S.view self.old first blocks }
        ensures ok { OnOk result (Keeps self.old (pieces first (replicate blocks (zero_block (S.view self.old.store).disk.drive.geometry.block))) self.new) }
        ensures kind { OnOk result (AddsOnly is_trim self.old self.new) }
        ensures err { OnErr result (self.new ≡ self.old) }
    {
        let before = self.queue.len();
        let kept = self.keep_empty(first, blocks, is_trim);
        if kept.is_err() {
            self.queue.truncate(before);
        }
        kept
    }
}
