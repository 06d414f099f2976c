ghost use Rattle.std.specs.Prelude.{◌≡◌, ◌<◌, IsTrue, None};
ghost use Rattle.zone_translator.specs.Flat.{answer_while, known_range};
ghost use Rattle.nbd_session.specs.Failing.{failing_of};
ghost use Rattle.nbd_session.specs.Store.{store_flat};

use crate::fault::StoreFault;
use crate::store::{HonestStore, Store, is_known};
use rand::{RngExt, SeedableRng};
use rand_xoshiro::SplitMix64;
use std::marker::Model;
use zone_translator::{DiskFault, DiskStatus, Entry};

/// A store whose medium fails by chance, for tests. It fails before anything is done.
#[derive(Drop)]
pub struct FailingStore<S: Store + Drop> {
    store: S,
    coins: SplitMix64,
    odds: u32,
    /// Whether it may fail in a sync, too.
    in_syncs: bool,
    /// In how many calls it has failed.
    failures: u64,
}

impl<S: Store + Drop> Model for FailingStore<S> {
    ghost use Rattle.nbd_session.specs.Failing.{Failing};

    ghost Value = { Failing S };

    ghost view = { λ s. record { store = s.store; odds = s.odds } };
}

impl<S: Store + Drop> FailingStore<S> {
    /// This store, whose medium fails in about `odds` of 100 calls, as the seed chooses: with 0 in none, and with 100
    /// or more in all.
    pub fn new(store: S, seed: u64, odds: u32) -> FailingStore<S>
        ensures store { result.store ≡ store }
        ensures odds { result.odds ≡ odds }
    {
        FailingStore {
            store,
            coins: SplitMix64::seed_from_u64(seed),
            odds,
            in_syncs: true,
            failures: 0,
        }
    }

    /// The same store, whose medium fails in no sync. Then what had to be durable fails only before it is done.
    pub fn sparing_syncs(self) -> FailingStore<S>
        ensures { result ≡ self }
    {
        FailingStore {
            in_syncs: false,
            ..self
        }
    }

    /// In how many calls the medium has failed by chance.
    pub fn failures(&self) -> u64 {
        self.failures
    }

    /// The store below, as it is.
    pub fn into_store(self) -> S
        ensures { result ≡ self.store }
    {
        self.store
    }

    /// Whether the medium is to fail this time, by the odds.
    fn is_chosen(&mut self) -> bool
        ensures may { IsTrue result → 0 < self.old.odds }
        ensures same { self.new ≡ self.old }
    {
        self.odds > 0 && self.coins.random_ratio(self.odds.min(100), 100)
    }

    /// Whether the medium fails this time. It is counted.
    fn fails(&mut self) -> bool
        ensures may { IsTrue result → 0 < self.old.odds }
        ensures same { self.new ≡ self.old }
    {
        let fails = self.is_chosen();
        if fails {
            self.failures = self.failures.saturating_add(1);
        }
        fails
    }

    /// Whether the medium fails in a call of these blocks. Where the answer is known before, it does not.
    fn fails_at(&mut self, first: u64, blocks: u64) -> bool
        ensures may { IsTrue result → 0 < self.old.odds }
        ensures begun { IsTrue result → known_range (store_flat (S.view self.old.store)) first blocks ≡ None }
        ensures same { self.new ≡ self.old }
    {
        !is_known(&self.store, first, blocks) && self.fails()
    }

    /// Whether the medium fails in a sync. Where the disk does not serve, or syncs are spared, it does not.
    fn fails_to_sync(&mut self) -> bool
        ensures may { IsTrue result → 0 < self.old.odds }
        ensures serves { IsTrue result → answer_while (S.view self.old.store).disk.status ≡ None }
        ensures same { self.new ≡ self.old }
    {
        if !self.in_syncs {
            return false;
        }
        matches!(self.store.status(), DiskStatus::Serving) && self.fails()
    }
}

impl<S: Store + Drop> Store for FailingStore<S> {
    // That of the store below, whose medium may fail.
    ghost view = { λ s. failing_of S.view s };

    fn block_bytes(&self) -> u32 {
        self.store.block_bytes()
    }

    fn blocks(&self) -> u64 {
        self.store.blocks()
    }

    fn status(&self) -> DiskStatus {
        self.store.status()
    }

    fn is_read_only(&self) -> bool {
        self.store.is_read_only()
    }

    fn read(&mut self, first: u64, blocks: u64, into: &mut Vec<u8>) -> Result<(), StoreFault> {
        if self.fails_at(first, blocks) {
            into.clear();
            return Err(StoreFault::Medium);
        }
        self.store.read(first, blocks, into)
    }

    fn write(&mut self, first: u64, bytes: &[u8]) -> Result<(), StoreFault> {
        let blocks = bytes.len() as u64 / u64::from(self.store.block_bytes());
        if self.fails_at(first, blocks) {
            return Err(StoreFault::Medium);
        }
        self.store.write(first, bytes)
    }

    /// None where the medium may fail in a call: then each is made by itself.
    fn most_listed(&self) -> u64 {
        if self.odds > 0 {
            return 0;
        }
        self.store.most_listed()
    }

    fn write_list(&mut self, entries: &[Entry], bytes: &[u8]) -> Result<(), DiskFault> {
        self.store.write_list(entries, bytes)
    }

    fn trim(&mut self, first: u64, blocks: u64) -> Result<(), StoreFault> {
        if self.fails_at(first, blocks) {
            return Err(StoreFault::Medium);
        }
        self.store.trim(first, blocks)
    }

    fn write_zeroes(&mut self, first: u64, blocks: u64) -> Result<(), StoreFault> {
        if self.fails_at(first, blocks) {
            return Err(StoreFault::Medium);
        }
        self.store.write_zeroes(first, blocks)
    }

    fn sync(&mut self) -> Result<(), StoreFault> {
        if self.fails_to_sync() {
            return Err(StoreFault::Medium);
        }
        self.store.sync()
    }

    fn force(&mut self, first: u64, blocks: u64) -> Result<(), StoreFault> {
        if self.fails_to_sync() {
            return Err(StoreFault::Medium);
        }
        self.store.force(first, blocks)
    }

    fn rest(&mut self) {
        self.store.rest()
    }
}

impl<S: HonestStore + Drop> HonestStore for FailingStore<S> {
    fn vouch(&self) {
        self.store.vouch();
    }
}
