ghost use Rattle.std.specs.Prelude.{◌≡◌, ◌*◌, ◌<◌, ◌≤◌, ◌^◌, [], IsTrue, OnErr, OnOk, is_some, length};
ghost use Rattle.std.specs.Prelude.{nat_eq};
ghost use Rattle.std.specs.List.{IsDistinct};
ghost use Rattle.batch_log.specs.Log.{data_count};
ghost use Rattle.zone_translator.specs.Answers.{AreBlocksOf, count_of_blocks};
ghost use Rattle.zone_translator.specs.Flat.{known_range, with_nothing};
ghost use Rattle.zone_translator.specs.Listed.{blocks_named};
ghost use Rattle.zone_translator.specs.View.{disk_size};
ghost use Rattle.nbd_session.specs.Store.{ForcesBlocks, OrFails, RestsAnyway, Shows, Spares, StaysByCall, StaysBySync};
ghost use Rattle.nbd_session.specs.Store.{StoreView, Syncs, Trims, WritesBytes, WritesList, WritesZeros, most_listed};
ghost use Rattle.nbd_session.specs.Store.{store_array, store_flat};

use crate::fault::StoreFault;
use zone_translator::{DiskFault, DiskStatus, Entry};

/// A disk that can be synced, over any device. Blocks that were written may be pending above it until they are. If the
/// medium failed in a read, a write or a trim, nothing was done.
///
/// What a call does is promised while the drive is clean: as long as each of its Reads returned what the drive holds.
/// Whatever they returned, the store stays what it is, and counts its syncs.
pub trait Store {
    /// The disk, the blocks that are pending above it, the arrays that a loss of power may leave, and how many syncs
    /// were completed.
    ghost view: { Self → StoreView };

    /// How many bytes a block has.
    fn block_bytes(&self) -> u32
        ensures size { result ≡ (view self.now).disk.drive.geometry.block }
        ensures some { 0 < result };

    /// How many blocks there are. Their bytes can be counted in 64 bits. So many has the array of a disk that serves.
    fn blocks(&self) -> u64
        ensures size { result ≡ disk_size (view self.now).disk }
        ensures few { result * (view self.now).disk.drive.geometry.block < 2 ^ 64 }
        ensures array { IsTrue (view self.now).disk.drive.clean → (view self.now).disk.status ≡ DiskStatus.Serving
            → length (store_array (view self.now)) ≡ result };

    /// Whether the disk serves calls, has answered `Stopped`, or has refused a remount.
    fn status(&self) -> DiskStatus
        ensures { result ≡ (view self.now).disk.status };

    /// Whether what would change the disk is refused.
    fn is_read_only(&self) -> bool
        ensures { result ≡ (view self.now).read_only };

    /// Shows `blocks` blocks from `first` on. `into` has the bytes of as many blocks then, whatever the Reads returned.
    /// It is empty after a fault.
    fn read(&mut self, first: u64, blocks: u64, into: &mut Vec<u8>) -> Result<(), StoreFault>
        ensures shows { IsTrue (view self.new).disk.drive.clean → OrFails
            (λ answer. Shows (view self.old) first blocks answer into.new.items (view self.new))
            ((into.new.items ≡ []) × Spares (view self.old) first blocks (view self.new)) result }
        ensures whole { OnOk result (length into.new.items ≡ blocks * (view self.old).disk.drive.geometry.block) }
        ensures none { OnErr result (into.new.items ≡ []) }
        ensures stays { StaysByCall (view self.old) (view self.new) };

    /// Writes whole blocks from `first` on. After a refusal of the disk a front of them may be written.
    fn write(&mut self, first: u64, bytes: &[u8]) -> Result<(), StoreFault>
        requires { AreBlocksOf (view self.old).disk bytes.now }
        ensures writes { IsTrue (view self.new).disk.drive.clean → OrFails
            (λ answer. WritesBytes (view self.old) first bytes.now (with_nothing answer) (view self.new))
            (Spares (view self.old) first (count_of_blocks (view self.old).disk bytes.now) (view self.new)) result }
        ensures stays { StaysByCall (view self.old) (view self.new) };

    /// How many blocks a list may name: as many as one batch. A store that defers, or whose medium may fail in any
    /// call, takes no list.
    fn most_listed(&self) -> u64
        ensures { result ≡ most_listed (view self.now) };

    /// Writes and trims the blocks of a list, in its order. No block is named twice. `bytes` are the blocks of those
    /// entries that are not trims. After a refusal a front of the list may be written.
    fn write_list(&mut self, entries: &[Entry], bytes: &[u8]) -> Result<(), DiskFault>
        requires distinct { IsDistinct nat_eq (blocks_named entries.now) }
        requires whole { length bytes.now ≡ data_count entries.now * (view self.old).disk.drive.geometry.block }
        requires few { length entries.now ≤ most_listed (view self.old) }
        ensures writes { IsTrue (view self.new).disk.drive.clean
            → WritesList (view self.old) entries.now bytes.now (with_nothing result) (view self.new) }
        ensures stays { StaysByCall (view self.old) (view self.new) };

    /// Makes `blocks` blocks from `first` on zeros. That is recorded, and their data take no room.
    fn trim(&mut self, first: u64, blocks: u64) -> Result<(), StoreFault>
        ensures trims { IsTrue (view self.new).disk.drive.clean → OrFails
            (λ answer. Trims (view self.old) first blocks (with_nothing answer) (view self.new))
            (Spares (view self.old) first blocks (view self.new)) result }
        ensures stays { StaysByCall (view self.old) (view self.new) };

    /// Writes `blocks` blocks of zeros from `first` on. They take room, as other data do.
    fn write_zeroes(&mut self, first: u64, blocks: u64) -> Result<(), StoreFault>
        ensures writes { IsTrue (view self.new).disk.drive.clean → OrFails
            (λ answer. WritesZeros (view self.old) first blocks (with_nothing answer) (view self.new))
            (Spares (view self.old) first blocks (view self.new)) result }
        ensures stays { StaysByCall (view self.old) (view self.new) };

    /// Makes the array durable: after a loss of power it is found again. Then nothing is pending.
    fn sync(&mut self) -> Result<(), StoreFault>
        ensures syncs { IsTrue (view self.new).disk.drive.clean → Syncs (view self.old) result (view self.new) }
        ensures stays { StaysBySync (view self.old) result (view self.new) };

    /// Makes `blocks` blocks from `first` on durable: after a loss of power they are found again. So a write with FUA
    /// does. Other blocks may stay pending.
    fn force(&mut self, first: u64, blocks: u64) -> Result<(), StoreFault>
        ensures forces { IsTrue (view self.new).disk.drive.clean
            → ForcesBlocks first blocks (view self.old) result (view self.new) }
        ensures stays { StaysBySync (view self.old) result (view self.new) };

    /// What a store does once a request is answered, while its client does not wait: a turn of cleaning, if it cleans
    /// and is not read only. The array stays.
    fn rest(&mut self)
        ensures { RestsAnyway (view self.old) (view self.new) };
}

/// A store over a device that is always clean. What is promised while a drive is clean is promised of it.
pub trait HonestStore: Store {
    /// Does nothing: for the fact.
    fn vouch(&self)
        ensures { IsTrue (Self.Store.view self.now).disk.drive.clean };
}

/// Whether the answer to a call of these blocks is known before anything is done: it names no block or one past the
/// end, or the disk does not serve.
pub fn is_known<S: Store>(store: &S, first: u64, blocks: u64) -> bool
    ensures { result ≡ is_some (known_range (store_flat (S.view store.now)) first blocks) }
{
    let size = store.blocks();
    if blocks == 0 || blocks > size || first > size - blocks {
        return true;
    }
    !matches!(store.status(), DiskStatus::Serving)
}
