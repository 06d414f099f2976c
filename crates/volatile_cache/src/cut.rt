ghost use Rattle.std.specs.Prelude.{IsTrue};
ghost use Rattle.volatile_cache.specs.Cache.{Cuts, CutsAnyway};

use crate::cache::VolatileCache;
use nbd_session::{HonestStore, Store, StoreFault};
use rand::{RngExt, SeedableRng};
use rand_xoshiro::SplitMix64;

/// What a cut took.
#[derive(Clone, Copy, Debug, PartialEq, Eq)]
pub struct Lost {
    /// How many blocks are lost.
    pub lost: u64,
    /// How many were pending.
    pub pending: u64,
}

impl<S: Store + Drop> VolatileCache<S> {
    /// The power fails, as [`cut`](VolatileCache::cut) says, over any device.
    pub fn cut_any(&mut self, seed: u64, odds: u32) -> Result<Lost, StoreFault>
        ensures cuts { IsTrue (S.view self.new.store).disk.drive.clean
            → Cuts S.view seed odds self.old result self.new }
        ensures anyway { CutsAnyway S.view seed odds self.old result self.new }
    {
        let mut coins = SplitMix64::seed_from_u64(seed);
        let pending = self.queue.len() as u64;
        let mut lost: u64 = 0;
        while !self.queue.is_empty() {
            if coins.random_ratio(odds.min(100), 100) {
                self.queue.pop_oldest();
                lost = lost.saturating_add(1);
            } else if let Err(fault) = self.apply_oldest() {
                self.queue.truncate(0);
                return Err(fault);
            }
        }
        if let Err(fault) = self.store.sync() {
            return Err(fault);
        }
        Ok(Lost { lost, pending })
    }
}

impl<S: HonestStore + Drop> VolatileCache<S> {
    /// The power fails. Each pending block is lost or is written to the store below, in order, as the seed chooses:
    /// so a write may be torn. In 100 blocks about `odds` are lost; 0 loses none, and 100 all. Then the store below is
    /// synced. Afterwards nothing is pending, also where the store below refuses a block or the sync.
    pub fn cut(&mut self, seed: u64, odds: u32) -> Result<Lost, StoreFault>
        ensures { Cuts S.view seed odds self.old result self.new }
    {
        let result = self.cut_any(seed, odds);
        self.store.vouch();
        result
    }
}
