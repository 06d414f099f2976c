ghost use Rattle.std.specs.Prelude.{◌≡◌, ◌+◌, ◌≤◌, ◌↔◌, ◌⊎◌, List, ℕ, false, length, IsTrue};
ghost use Rattle.sqlite_disk.specs.Disk.{Holds};
ghost use Rattle.file_bytes.specs.Changes.{SameBeside};
ghost use Rattle.file_bytes.specs.Kept.{AreKept, IsWithin, SameBytes};

use crate::run::Run;
use std::alloc::Global;

/// Bytes of a file that were read, and are kept.
#[derive(Drop)]
pub struct Kept {
    /// Where in the file they begin.
    pub start: u64,
    pub bytes: Vec<u8>,
    /// The reads of late, if nothing was forgotten since.
    pub run: Run,
}

impl Kept {
    /// Nothing is kept yet.
    pub fn new(alloc: Global) -> Kept
        ensures { (file : List ℕ) → AreKept file result }
    {
        Kept {
            start: 0,
            bytes: Vec::new(alloc),
            run: Run::new(),
        }
    }

    /// Keeps nothing any more.
    pub fn forget(&mut self)
        ensures { (file : List ℕ) → AreKept file self.new }
    {
        self.start = 0;
        self.bytes.clear();
        self.run = Run::new();
    }

    /// Whether all bytes of a read are kept.
    pub fn has(&self, at: u64, count: usize) -> bool
        ensures { IsTrue result ↔ IsWithin self.now at count }
    {
        if at < self.start || self.bytes.len() < count {
            return false;
        }
        at - self.start <= (self.bytes.len() - count) as u64
    }

    /// Copies kept bytes from an offset on, as many as there is room for.
    pub fn copy(&self, at: u64, room: &mut [u8])
        requires { IsWithin self.now at (length room.old) }
        ensures { (file : List ℕ) → AreKept file self.now → Holds file at room.new }
    {
        let from = (at - self.start) as usize;
        room.copy_from_slice(&self.bytes[from..from + room.len()]);
    }

    /// Whether a change of a range touches what is kept.
    fn is_touched(&self, at: u64, count: usize) -> bool
        ensures { result ≡ false → (self.now.start + length self.now.bytes.items ≤ at) ⊎ (at + count ≤ self.now.start) }
    {
        if at < self.start {
            return self.start - at < count as u64;
        }
        at - self.start < self.bytes.len() as u64
    }

    /// Keeps nothing any more if a change of a range touches it.
    pub fn forget_changed(&mut self, at: u64, count: usize)
        ensures { (old new : List ℕ) → AreKept old self.old → SameBeside at count old new → AreKept new self.new }
    {
        if self.is_touched(at, count) {
            self.forget();
        }
    }

    /// How many bytes are read ahead if that many are asked, from an offset on; 0: none. They end at `end` at most.
    pub fn ahead(&self, at: u64, count: usize, end: u64) -> usize
        ensures more { 1 ≤ result → count ≤ result }
        ensures reaches { 1 ≤ result → at + result ≤ end }
    {
        let width = self.run.width(at, count);
        let ahead = end.saturating_sub(at).min(width as u64) as usize;
        if ahead <= count {
            return 0;
        }
        ahead
    }

    /// Remembers a read that called the file, so that a run goes on.
    pub fn called(&mut self, at: u64, count: usize)
        ensures { SameBytes self.old self.new }
    {
        self.run = self.run.called(at, count);
    }

    /// Remembers one that did not.
    pub fn spared(&mut self, at: u64, count: usize)
        ensures { SameBytes self.old self.new }
    {
        self.run = self.run.spared(at, count);
    }
}
