ghost use Rattle.std.specs.Prelude.{◌≡◌, Err, IsTrue};
ghost use Rattle.std.specs.Option.{option_map};
ghost use Rattle.zone_translator.specs.Flat.{answer_while, trim, with_nothing};
ghost use Rattle.nbd_session.specs.Store.{ForcesBlocks, OrFails, Spares, StaysByCall, StaysBySync, Writes};
ghost use Rattle.volatile_cache.specs.Cache.{AddsOnly, LeavesOthers, view_of};

use crate::cache::VolatileCache;
use nbd_session::{HonestStore, Store, StoreFault};
use zone_translator::{DiskFault, DiskStatus, Entry};

impl<S: Store + Drop> VolatileCache<S> {
    /// Makes blocks zeros below, trimmed or not.
    fn send_zeros(&mut self, first: u64, blocks: u64, is_trim: bool) -> Result<(), StoreFault>
        ensures writes { IsTrue (S.view self.new.store).disk.drive.clean → OrFails
            (λ answer. Writes is_trim (S.view self.old.store) (trim (S.view self.old.store).disk.drive.geometry.block first blocks) first blocks
            (with_nothing answer) (S.view self.new.store))
            (Spares (S.view self.old.store) first blocks (S.view self.new.store)) result }
        ensures kept { self.new.kept ≡ self.old.kept }
        ensures stays { StaysByCall (S.view self.old.store) (S.view self.new.store) }
    {
        if is_trim {
            self.store.trim(first, blocks)
        } else {
            self.store.write_zeroes(first, blocks)
        }
    }

    /// Makes blocks zeros, trimmed or not: they are kept if there is room, and else they go below after all others.
    fn put_zeros(&mut self, first: u64, blocks: u64, is_trim: bool) -> Result<(), StoreFault>
        ensures writes { IsTrue (S.view self.new.store).disk.drive.clean → OrFails
            (λ answer. Writes is_trim (view_of S.view self.old) (trim (S.view self.old.store).disk.drive.geometry.block first blocks) first blocks
            (with_nothing answer) (view_of S.view self.new))
            (Spares (view_of S.view self.old) first blocks (view_of S.view self.new)) result }
        ensures kind { AddsOnly is_trim self.old self.new }
        ensures stays { StaysByCall (S.view self.old.store) (S.view self.new.store) }
    {
        if self.is_known(first, blocks) {
            return self.send_zeros(first, blocks, is_trim);
        }
        if let Err(fault) = self.make_room(blocks) {
            return Err(fault);
        }
        if self.has_room(blocks) && self.keep_zeros(first, blocks, is_trim).is_ok() {
            return Ok(());
        }
        if let Err(fault) = self.apply_all() {
            return Err(fault);
        }
        self.send_zeros(first, blocks, is_trim)
    }

    /// Why a disk refuses each sync that does not serve.
    fn refusal(&self) -> Option<DiskFault>
        ensures { answer_while (S.view self.now.store).disk.status ≡ option_map Err result }
    {
        match self.store.status() {
            DiskStatus::Serving => None,
            DiskStatus::Stopped => Some(DiskFault::Stopped),
            DiskStatus::Unmounted => Some(DiskFault::Unmounted),
        }
    }

    /// Makes blocks durable. The pending blocks of other places stay so.
    fn force_blocks(&mut self, first: u64, blocks: u64) -> Result<(), StoreFault>
        ensures forces { IsTrue (S.view self.new.store).disk.drive.clean
            → ForcesBlocks first blocks (view_of S.view self.old) result (view_of S.view self.new) }
        ensures others { LeavesOthers first blocks self.old self.new }
        ensures stays { StaysBySync (S.view self.old.store) result (S.view self.new.store) }
    {
        if let Some(fault) = self.refusal() {
            return Err(StoreFault::Disk(fault));
        }
        if let Err(fault) = self.apply_within(first, blocks) {
            return Err(fault);
        }
        self.store.force(first, blocks)
    }
}

impl<S: Store + Drop> Store for VolatileCache<S> {
    // The pending blocks of the cache come after those of the store below.
    ghost view = { λ c. view_of S.view c };

    fn block_bytes(&self) -> u32 {
        self.store.block_bytes()
    }

    fn blocks(&self) -> u64 {
        self.store.blocks()
    }

    fn status(&self) -> DiskStatus {
        self.store.status()
    }

    fn is_read_only(&self) -> bool {
        self.store.is_read_only()
    }

    fn read(&mut self, first: u64, blocks: u64, into: &mut Vec<u8>) -> Result<(), StoreFault> {
        if self.is_known(first, blocks) || self.is_clear(first, blocks) {
            return self.store.read(first, blocks, into);
        }
        // The number of a block has 64 bits.
        let _size = self.store.blocks();
        self.read_pieces(first, first + blocks, into)
    }

    /// The blocks are kept if there is room, and else they go below after all others.
    fn write(&mut self, first: u64, bytes: &[u8]) -> Result<(), StoreFault> {
        let blocks = bytes.len() as u64 / u64::from(self.store.block_bytes());
        if self.is_known(first, blocks) {
            return self.store.write(first, bytes);
        }
        if let Err(fault) = self.make_room(blocks) {
            return Err(fault);
        }
        if self.has_room(blocks) && self.keep_bytes(first, bytes).is_ok() {
            return Ok(());
        }
        if let Err(fault) = self.apply_all() {
            return Err(fault);
        }
        self.store.write(first, bytes)
    }

    /// None: a cache keeps the blocks of each request by themselves.
    fn most_listed(&self) -> u64 {
        0
    }

    /// The list is empty.
    fn write_list(&mut self, entries: &[Entry], bytes: &[u8]) -> Result<(), DiskFault> {
        self.store.write_list(entries, bytes)
    }

    fn trim(&mut self, first: u64, blocks: u64) -> Result<(), StoreFault> {
        self.put_zeros(first, blocks, true)
    }

    fn write_zeroes(&mut self, first: u64, blocks: u64) -> Result<(), StoreFault> {
        self.put_zeros(first, blocks, false)
    }

    fn sync(&mut self) -> Result<(), StoreFault> {
        if let Some(fault) = self.refusal() {
            return Err(StoreFault::Disk(fault));
        }
        if let Err(fault) = self.apply_all() {
            return Err(fault);
        }
        self.store.sync()
    }

    fn force(&mut self, first: u64, blocks: u64) -> Result<(), StoreFault> {
        self.force_blocks(first, blocks)
    }

    fn rest(&mut self) {
        self.store.rest()
    }
}

impl<S: HonestStore + Drop> HonestStore for VolatileCache<S> {
    fn vouch(&self) {
        self.store.vouch();
    }
}
