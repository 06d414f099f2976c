ghost use Rattle.std.specs.Prelude.{◌≡◌, ◌<◌, ◌≤◌, ◌+◌, ◌-◌, ◌*◌, [], IfOk, IsTrue, None, OnErr, OnOk, false, length};
ghost use Rattle.zone_translator.specs.Flat.{known_range};
ghost use Rattle.nbd_session.specs.Pending.{AreApart};
ghost use Rattle.nbd_session.specs.Store.{OrFails, Shows, Spares, StaysByCall, store_flat};
ghost use Rattle.volatile_cache.specs.Cache.{ReadsPiece, view_of};
ghost use Rattle.volatile_cache.specs.Queue.{all_pending};

use crate::cache::VolatileCache;
use nbd_session::{Store, StoreFault};
use std::alloc::AllocError;
use zone_translator::DiskFault;

impl<S: Store + Drop> VolatileCache<S> {
    /// Whether none of these blocks is pending.
    pub(crate) fn is_clear(&self, first: u64, blocks: u64) -> bool
        ensures apart { IsTrue result → AreApart first blocks (all_pending self.now.kept) }
        ensures some { result ≡ false → 0 < length self.now.kept }
    {
        match self.queue.place_from(first) {
            Some(place) => place - first >= blocks,
            None => true,
        }
    }

    /// Appends the block `at` if it is pending, and else the blocks up to the next one that is, below `end`. Gives the
    /// block after them.
    fn read_piece(&mut self, at: u64, end: u64, into: &mut Vec<u8>) -> Result<u64, StoreFault>
        requires known { IsTrue (S.view self.old.store).disk.drive.clean
            → known_range (store_flat (S.view self.old.store)) at (end - at) ≡ None }
        requires some { at < end }
        ensures reads { IsTrue (S.view self.new.store).disk.drive.clean
            → ReadsPiece (view_of S.view self.old) at end result into.old.items into.new.items (view_of S.view self.new) }
        ensures some { IfOk result (λ next. (at < next) × (next ≤ end)) }
        ensures whole { IfOk result (λ next. length into.new.items
            ≡ length into.old.items + (next - at) * (S.view self.old.store).disk.drive.geometry.block) }
        ensures kept { self.new.kept ≡ self.old.kept }
        ensures stays { StaysByCall (S.view self.old.store) (S.view self.new.store) }
    {
        // The array has so many blocks.
        let _size = self.store.blocks();
        if let Some(kept) = self.queue.newest_of(at) {
            return match kept.content.show(into) {
                Ok(()) => Ok(at + 1),
                Err(AllocError) => Err(StoreFault::Disk(DiskFault::OutOfMemory)),
            };
        }
        let next = self.queue.place_from(at).unwrap_or(end).min(end);
        let mut piece = Vec::new(self.alloc);
        self.store.read(at, next - at, &mut piece)?;
        match into.extend_from_slice(&piece) {
            Ok(()) => Ok(next),
            Err(AllocError) => Err(StoreFault::Disk(DiskFault::OutOfMemory)),
        }
    }

    /// Shows the blocks from `first` on below `end`: those that are pending from the cache, and the others in as few
    /// reads of the store below as may be.
    pub(crate) fn read_pieces(
        &mut self,
        first: u64,
        end: u64,
        into: &mut Vec<u8>,
    ) -> Result<(), StoreFault>
        requires known { known_range (store_flat (S.view self.old.store)) first (end - first) ≡ None }
        requires some { first < end }
        requires pending { 0 < length self.old.kept }
        ensures shows { IsTrue (S.view self.new.store).disk.drive.clean → OrFails
            (λ answer. Shows (view_of S.view self.old) first (end - first) answer into.new.items (view_of S.view self.new))
            ((into.new.items ≡ []) × Spares (view_of S.view self.old) first (end - first) (view_of S.view self.new)) result }
        ensures whole { OnOk result (length into.new.items ≡ (end - first) * (S.view self.old.store).disk.drive.geometry.block) }
        ensures none { OnErr result (into.new.items ≡ []) }
        ensures stays { StaysByCall (S.view self.old.store) (S.view self.new.store) }
    {
        into.clear();
        let mut at = first;
        while at < end {
            at = match self.read_piece(at, end, into) {
                Ok(next) => next,
                Err(fault) => {
                    into.clear();
                    return Err(fault);
                }
            };
        }
        Ok(())
    }
}
