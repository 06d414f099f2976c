ghost use Rattle.std.specs.Prelude.{◌≡◌, ◌+◌, ◌%◌, ◌≤◌, ◌↔◌, ℕ, [], List, false, is_ok, length, refl};
ghost use Rattle.std.specs.Prelude.{replicate, true, IfOk, IsOk, OnErr, OnOk, IsTrue};
ghost use Rattle.std.proofs.Common.{inl};
ghost use Rattle.std.specs.List.{AllByRecursion, splice};
ghost use Rattle.std.specs.Int.{to_le_bytes, w64};
ghost use Rattle.sqlite_disk.specs.Disk.{Follows, Holds, Only};
ghost use Rattle.file_bytes.specs.Changes.{SameBeside};
ghost use Rattle.file_bytes.specs.Pending.{AreLeft, HasTold, IsOutside, IsUntold, MayLeave, MayShow};

use crate::file::FileBytes;
use std::alloc::{AllocError, Global};
use std::io;
use std::marker::Model;

/// A range of bytes.
#[derive(Clone, Copy)]
pub struct Range {
    pub start: u64,
    pub length: u64,
    /// It is a word that was written after a sync had failed.
    pub told: bool,
}

/// A file in memory, which may leave after a loss of power all that the contract of a file allows, and shows all that
/// it allows to whoever opens it after a sync that failed. Its changes fail only where memory is missing, its syncs
/// also where that was asked. Then only `lose_power` and `open_again` make it usable again.
#[derive(Drop)]
pub struct MemoryFile {
    bytes: Vec<u8>,
    /// The bytes of the last sync.
    synced: Vec<u8>,
    /// What was written since.
    changed: Vec<Range>,
    usable: bool,
    stuck: bool,
    /// How many syncs are done before one fails.
    syncs: u64,
}

impl Model for MemoryFile {
    ghost use Rattle.std.specs.Prelude.{List, ℕ, Bool};
    ghost use Rattle.file_bytes.specs.Pending.{AreLeft, FileState};

    ghost Value = { FileState };

    ghost view = { λ f. record {
      bytes = f.bytes.items;
      synced = f.synced.items;
      changed = f.changed.items;
      usable = f.usable;
      stuck = f.stuck;
    } };

    ghost invariant = { λ f. AreLeft f.changed.items f.synced.items f.bytes.items };
}

/// The error where memory is missing.
pub(crate) fn no_memory() -> io::Error {
    io::ErrorKind::OutOfMemory.into()
}

/// Whether an offset is outside of each range.
fn is_outside(ranges: &[Range], at: u64) -> bool
    ensures { IsTrue result ↔ AllByRecursion (IsOutside at) ranges.now }
{
    ranges.iter().all(|range| at < range.start || at - range.start >= range.length)
}

/// Whether an offset is in no word that was written after a sync had failed.
fn is_untold(ranges: &[Range], at: u64) -> bool
    ensures { IsTrue result ↔ AllByRecursion (IsUntold at) ranges.now }
{
    ranges.iter().all(|range| !range.told || at < range.start || at - range.start >= range.length)
}

impl MemoryFile {
    /// A file of that many zeros, which is synced; an error where memory is missing.
    pub fn new(alloc: Global, len: usize) -> Result<MemoryFile, AllocError>
        ensures { IfOk result (λ file. file ≡ record {
          bytes = replicate len 0;
          synced = replicate len 0;
          changed = [];
          usable = true;
          stuck = false;
        }) }
    {
        let mut bytes = Vec::new(alloc);
        bytes.resize(len, 0)?;
        let mut synced = Vec::new(alloc);
        synced.resize(len, 0)?;
        Ok(MemoryFile {
            bytes,
            synced,
            changed: Vec::new(alloc),
            usable: true,
            stuck: false,
            syncs: u64::MAX,
        })
    }

    /// From now on that many syncs are done, and then one fails.
    pub fn fail_sync(&mut self, after: u64)
        ensures { self.new ≡ self.old }
    {
        self.syncs = after;
    }

    /// The bytes that a read returns.
    pub fn bytes(&self) -> &[u8]
        ensures { result.now ≡ self.now.bytes }
    {
        &self.bytes
    }

    /// Whether a loss of power at this moment may leave these bytes.
    pub fn may_leave(&self, left: &[u8]) -> bool
        ensures { IsTrue result ↔ MayLeave self.now left.now }
    {
        if left.len() != self.synced.len() {
            return false;
        }
        (0..left.len()).all(|at| {
            left[at] == self.synced[at] || !is_outside(&self.changed, at as u64)
        })
    }

    /// Loses power. The file then has these bytes, synced, if they may be left. If not, or where memory is missing,
    /// nothing changes.
    pub fn lose_power(&mut self, left: &[u8]) -> Result<bool, AllocError>
        ensures left { IfOk result (λ done. IsTrue done ↔ MayLeave self.old left.now) }
        ensures lost { IfOk result (λ done. IsTrue done → self.new ≡ record {
          bytes = left.now;
          synced = left.now;
          changed = [];
          usable = true;
          stuck = false;
        }) }
        ensures kept { IfOk result (λ done. (done ≡ false) → self.new ≡ self.old) }
        ensures err { OnErr result (self.new ≡ self.old) }
    {
        if !self.may_leave(left) {
            return Ok(false);
        }
        let alloc = *self.bytes.allocator();
        let bytes = copy_of(alloc, left)?;
        self.synced = copy_of(alloc, left)?;
        self.bytes = bytes;
        self.changed.clear();
        self.usable = true;
        self.stuck = false;
        Ok(true)
    }

    /// Whether these bytes have each word that was written after a sync had failed.
    fn has_told(&self, shown: &[u8]) -> bool
        requires { length shown.now ≡ length self.now.bytes }
        ensures { IsTrue result ↔ HasTold self.now.changed self.now.bytes shown.now }
    {
        (0..self.bytes.len()).all(|at| {
            shown[at] == self.bytes[at] || is_untold(&self.changed, at as u64)
        })
    }

    /// Whether whoever opens the file later, without a loss of power, may read these bytes.
    pub fn may_show(&self, shown: &[u8]) -> bool
        ensures { IsTrue result ↔ MayShow self.now shown.now }
    {
        if self.usable {
            return shown == self.bytes.as_slice();
        }
        self.may_leave(shown) && self.has_told(shown)
    }

    /// Another program opens the file, and reads these bytes, if it may. A loss of power may leave the same as before.
    /// If not, or where memory is missing, nothing changes.
    pub fn open_again(&mut self, shown: &[u8]) -> Result<bool, AllocError>
        ensures shown { IfOk result (λ done. IsTrue done ↔ MayShow self.old shown.now) }
        ensures opened { IfOk result (λ done. IsTrue done
            → self.new ≡ record self.old { bytes = shown.now; usable = true; stuck = false }) }
        ensures kept { IfOk result (λ done. (done ≡ false) → self.new ≡ self.old) }
        ensures err { OnErr result (self.new ≡ self.old) }
    {
        if !self.may_show(shown) {
            return Ok(false);
        }
        self.bytes = copy_of(*self.bytes.allocator(), shown)?;
        self.usable = true;
        self.stuck = false;
        Ok(true)
    }
}

fn copy_of(alloc: Global, bytes: &[u8]) -> Result<Vec<u8>, AllocError>
    ensures { IfOk result (λ copy. copy.items ≡ bytes.now) }
{
    let mut copy = Vec::new(alloc);
    copy.extend_from_slice(bytes)?;
    Ok(copy)
}

/// Puts a part in the place of the bytes from an offset on.
fn overwrite(bytes: &mut Vec<u8>, at: usize, part: &[u8])
    requires { at + length part.now ≤ length bytes.old.items }
    ensures { bytes.new.items ≡ splice bytes.old.items at (at + length part.now) part.now }
{
    bytes[at..at + part.len()].copy_from_slice(part);
}

/// Puts zeros in the place of that many bytes from an offset on.
fn clear(bytes: &mut Vec<u8>, at: usize, count: usize)
    requires { at + count ≤ length bytes.old.items }
    ensures { bytes.new.items ≡ splice bytes.old.items at (at + count) (replicate count 0) }
{
    bytes[at..at + count].fill(0);
}

impl MemoryFile {
    /// Writes these bytes from an offset on. `told`: they are a word, and a sync has failed. Without memory for that
    /// nothing changes.
    fn change(&mut self, at: u64, part: &[u8], told: bool) -> Result<(), AllocError>
        requires within { at + length part.now ≤ length self.old.bytes }
        requires told { self.old.usable ≡ true → told ≡ false }
        ensures written { OnOk result (Holds self.new.bytes at part.now) }
        ensures others { SameBeside at (length part.now) self.old.bytes self.new.bytes }
        ensures leaves { Follows (SameBeside at (length part.now)) (MayLeave self.old) (MayLeave self.new) }
        ensures allows { OnOk result ((before after : List ℕ) → MayLeave self.old before
            → SameBeside at (length part.now) before after → MayLeave self.new after) }
        ensures shows { Follows (SameBeside at (length part.now)) (MayShow self.old) (MayShow self.new) }
        ensures shown { OnOk result ((self.old.usable ≡ false → told ≡ true) → (c : List ℕ) → MayShow self.new c
            → Holds c at part.now) }
        ensures usable { self.new.usable ≡ self.old.usable }
        ensures stuck { self.new.stuck ≡ self.old.stuck }
        ensures err { OnErr result (self.new ≡ self.old) }
    {
        let range = Range {
            start: at,
            length: part.len() as u64,
            told,
        };
        self.changed.push(range)?;
        overwrite(&mut self.bytes, at as usize, part);
        Ok(())
    }
}

impl FileBytes for MemoryFile {
    ghost seen = { λ f. f.bytes };

    ghost may_leave = { λ f. MayLeave f };

    ghost may_show = { λ f. MayShow f };

    ghost is_usable = { λ f. f.usable };

    ghost is_stuck = { λ f. f.stuck };

    ghost seen_may_stay = { λ f. inl refl };

    ghost seen_is_shown = { λ f usable shown may. may.seen usable };

    fn len(&self) -> u64 {
        self.bytes.len() as u64
    }

    fn read(&mut self, at: u64, room: &mut [u8]) -> io::Result<()>
        requires within { at + length room.old ≤ length self.old.bytes }
        ensures done { IsOk result }
        ensures read { Holds self.old.bytes at room.new }
        ensures same { self.new ≡ self.old }
    {
        let at = at as usize;
        room.copy_from_slice(&self.bytes[at..at + room.len()]);
        Ok(())
    }

    fn write(&mut self, at: u64, bytes: &[u8]) -> io::Result<()>
        requires within { at + length bytes.now ≤ length self.old.bytes }
        ensures written { OnOk result (Holds self.new.bytes at bytes.now) }
        ensures others { SameBeside at (length bytes.now) self.old.bytes self.new.bytes }
        ensures leaves { Follows (SameBeside at (length bytes.now)) (MayLeave self.old) (MayLeave self.new) }
        ensures allows { OnOk result ((before after : List ℕ) → MayLeave self.old before
            → SameBeside at (length bytes.now) before after → MayLeave self.new after) }
        ensures usable { self.new.usable ≡ self.old.usable }
        ensures stuck { self.new.stuck ≡ self.old.stuck }
        ensures err { OnErr result (self.new ≡ self.old) }
    {
        self.change(at, bytes, false).map_err(|_| no_memory())
    }

    fn write_word(&mut self, at: u64, word: u64) -> io::Result<()>
        requires within { at + 8 ≤ length self.old.bytes }
        requires aligned { at % 8 ≡ 0 }
        ensures written { OnOk result (Holds self.new.bytes at (to_le_bytes w64 word)) }
        ensures kept { OnErr result (self.new.bytes ≡ self.old.bytes) }
        ensures others { SameBeside at 8 self.old.bytes self.new.bytes }
        ensures leaves { Follows (SameBeside at 8) (MayLeave self.old) (MayLeave self.new) }
        ensures allows { OnOk result ((before after : List ℕ) → MayLeave self.old before
            → SameBeside at 8 before after → MayLeave self.new after) }
        ensures shows { Follows (SameBeside at 8) (MayShow self.old) (MayShow self.new) }
        ensures shown { OnOk result ((c : List ℕ) → MayShow self.new c → Holds c at (to_le_bytes w64 word)) }
        ensures usable { self.new.usable ≡ self.old.usable }
        ensures stuck { OnOk result (self.new.stuck ≡ self.old.stuck) }
        ensures sticks { OnErr result (IsTrue self.new.stuck) }
        ensures err { OnErr result (self.new ≡ record self.old { stuck = true }) }
    {
        let told = !self.usable;
        if self.change(at, &word.to_le_bytes(), told).is_err() {
            self.stuck = true;
            return Err(no_memory());
        }
        Ok(())
    }

    fn sync(&mut self) -> io::Result<()>
        requires { IsTrue self.old.usable }
        ensures durable { OnOk result (Only self.old.bytes (MayLeave self.new)) }
        ensures seen { self.new.bytes ≡ self.old.bytes }
        ensures usable { self.new.usable ≡ is_ok result }
        ensures leaves { (c : List ℕ) → MayLeave self.new c → MayLeave self.old c }
        ensures shows { OnErr result ((c : List ℕ) → MayShow self.new c → MayLeave self.old c) }
        ensures stuck { self.new.stuck ≡ self.old.stuck }
        ensures err { OnErr result ((c : List ℕ) → MayLeave self.old c → MayLeave self.new c) }
    {
        self.usable = false;
        if self.syncs == 0 {
            self.syncs = u64::MAX;
            return Err(io::Error::other("the sync fails"));
        }
        self.syncs -= 1;
        let alloc = *self.bytes.allocator();
        self.synced = copy_of(alloc, &self.bytes).map_err(|_| no_memory())?;
        self.changed.clear();
        self.usable = true;
        Ok(())
    }

    /// The range reads as zeros then. Without memory to note that, nothing changes.
    fn release(&mut self, at: u64, count: u64) {
        let range = Range {
            start: at,
            length: count,
            told: false,
        };
        let Ok(()) = self.changed.push(range) else {
            return;
        };
        clear(&mut self.bytes, at as usize, count as usize);
    }
}
