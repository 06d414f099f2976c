ghost use Rattle.std.specs.Prelude.{◌≡◌, ◌&&◌, ◌||◌, ◌+◌, ◌-◌, ◌%◌, ◌≤◌, ◌↔◌, List, ℕ, false, is_ok, length, min};
ghost use Rattle.std.specs.Prelude.{not, true, IsErr, IsTrue, OnErr, OnOk};
ghost use Rattle.std.proofs.lemmas.Bool.{and_parts};
ghost use Rattle.std.specs.Int.{to_le_bytes, w64};
ghost use Rattle.sqlite_disk.specs.Disk.{Follows, Holds, Only};
ghost use Rattle.file_bytes.specs.Changes.{SameBeside};
ghost use Rattle.file_bytes.specs.Stopping.{StaysStuck, StaysUsable};

use crate::file::FileBytes;
use std::io;

/// Does a number of changes of a file, and then fails. Changes are: a write of a range, one of a word, a sync. If the
/// first change that fails is a write of a range, its first `torn` bytes are written. Reads go on. The release of a
/// range is done while changes are left, and is none of them.
#[derive(Drop)]
pub struct StoppingFile<F: FileBytes + Drop> {
    inner: F,
    /// How many changes it may still do.
    changes: u64,
    /// How many bytes of the next write are written, if it is that of a range.
    torn: usize,
    /// A sync was refused.
    refused: bool,
    /// A word was refused.
    stuck: bool,
}

impl<F: FileBytes + Drop> StoppingFile<F> {
    /// A file that does `changes` more changes of the one within. If a write of a range comes next, its first `torn`
    /// bytes are written. That change and each later one fail, as an error of the kind `Other`.
    pub fn new(inner: F, changes: u64, torn: usize) -> StoppingFile<F>
        ensures { result ≡ record { inner = inner; changes = changes; torn = torn; refused = false; stuck = false } }
    {
        StoppingFile {
            inner,
            changes,
            torn,
            refused: false,
            stuck: false,
        }
    }

    /// The file within.
    pub fn into_inner(self) -> F
        ensures { result ≡ self.inner }
    {
        self.inner
    }
}

/// The error of a file that has stopped.
fn stopped() -> io::Error {
    io::Error::other("the file has stopped")
}

/// Takes one change of those that are left, or none if none is left.
fn take_change(changes: &mut u64) -> bool
    ensures some { IsTrue result ↔ (1 ≤ changes.old) }
    ensures left { changes.new ≡ changes.old - 1 }
{
    if *changes == 0 {
        return false;
    }
    *changes -= 1;
    true
}

impl<F: FileBytes + Drop> FileBytes for StoppingFile<F> {
    ghost seen = { λ f. F.FileBytes.seen f.inner };

    ghost may_leave = { λ f. F.FileBytes.may_leave f.inner };

    ghost may_show = { λ f. F.FileBytes.may_show f.inner };

    ghost is_usable = { λ f. F.FileBytes.is_usable f.inner && not f.refused };

    ghost is_stuck = { λ f. F.FileBytes.is_stuck f.inner || f.stuck };

    ghost seen_may_stay = { λ f. F.FileBytes.seen_may_stay f.inner };

    ghost seen_is_shown = { λ f usable. F.FileBytes.seen_is_shown f.inner (and_parts _ _ usable).0 };

    fn len(&self) -> u64 {
        self.inner.len()
    }

    fn read(&mut self, at: u64, room: &mut [u8]) -> io::Result<()> {
        self.inner.read(at, room)
    }

    fn write(&mut self, at: u64, bytes: &[u8]) -> io::Result<()>
        requires within { at + length bytes.now ≤ length (F.FileBytes.seen self.old.inner) }
        ensures written { OnOk result (Holds (F.FileBytes.seen self.new.inner) at bytes.now) }
        ensures others { SameBeside at (length bytes.now) (F.FileBytes.seen self.old.inner)
            (F.FileBytes.seen self.new.inner) }
        ensures leaves { Follows (SameBeside at (length bytes.now)) (F.FileBytes.may_leave self.old.inner)
            (F.FileBytes.may_leave self.new.inner) }
        ensures usable { StaysUsable F.FileBytes.is_usable self.old self.new }
        ensures stuck { StaysStuck F.FileBytes.is_stuck self.old self.new }
        ensures stops { self.old.changes ≡ 0 → IsErr result }
        ensures front { self.old.changes ≡ 0 → SameBeside at (min self.old.torn (length bytes.now))
            (F.FileBytes.seen self.old.inner) (F.FileBytes.seen self.new.inner) }
        ensures front_leaves { self.old.changes ≡ 0 → Follows (SameBeside at (min self.old.torn (length bytes.now)))
            (F.FileBytes.may_leave self.old.inner) (F.FileBytes.may_leave self.new.inner) }
        ensures torn { self.old.changes ≡ 0 → self.new.torn ≡ 0 }
        ensures not_torn { 1 ≤ self.old.changes → self.new.torn ≡ self.old.torn }
        ensures left { self.new.changes ≡ self.old.changes - 1 }
    {
        if take_change(&mut self.changes) {
            return self.inner.write(at, bytes);
        }
        let front = self.torn.min(bytes.len());
        self.torn = 0;
        self.inner.write(at, &bytes[..front])?;
        Err(stopped())
    }

    fn write_word(&mut self, at: u64, word: u64) -> io::Result<()>
        requires within { at + 8 ≤ length (F.FileBytes.seen self.old.inner) }
        requires aligned { at % 8 ≡ 0 }
        ensures written { OnOk result (Holds (F.FileBytes.seen self.new.inner) at (to_le_bytes w64 word)) }
        ensures kept { OnErr result (F.FileBytes.seen self.new.inner ≡ F.FileBytes.seen self.old.inner) }
        ensures others { SameBeside at 8 (F.FileBytes.seen self.old.inner) (F.FileBytes.seen self.new.inner) }
        ensures leaves { Follows (SameBeside at 8) (F.FileBytes.may_leave self.old.inner)
            (F.FileBytes.may_leave self.new.inner) }
        ensures shows { Follows (SameBeside at 8) (F.FileBytes.may_show self.old.inner)
            (F.FileBytes.may_show self.new.inner) }
        ensures shown { OnOk result ((c : List ℕ) → F.FileBytes.may_show self.new.inner c
            → Holds c at (to_le_bytes w64 word)) }
        ensures usable { StaysUsable F.FileBytes.is_usable self.old self.new }
        ensures stuck { OnOk result (StaysStuck F.FileBytes.is_stuck self.old self.new) }
        ensures sticks { OnErr result (IsTrue (F.FileBytes.is_stuck self.new.inner || self.new.stuck)) }
        ensures stops { self.old.changes ≡ 0 → IsErr result }
        ensures refuses { self.old.changes ≡ 0 → self.new.stuck ≡ true }
        ensures idle { self.old.changes ≡ 0 → self.new.inner ≡ self.old.inner }
        ensures torn { self.old.changes ≡ 0 → self.new.torn ≡ 0 }
        ensures not_torn { 1 ≤ self.old.changes → self.new.torn ≡ self.old.torn }
        ensures left { self.new.changes ≡ self.old.changes - 1 }
    {
        if take_change(&mut self.changes) {
            return self.inner.write_word(at, word);
        }
        self.torn = 0;
        self.stuck = true;
        Err(stopped())
    }

    fn sync(&mut self) -> io::Result<()>
        requires { IsTrue (F.FileBytes.is_usable self.old.inner && not self.old.refused) }
        ensures durable { OnOk result (Only (F.FileBytes.seen self.old.inner)
            (F.FileBytes.may_leave self.new.inner)) }
        ensures seen { F.FileBytes.seen self.new.inner ≡ F.FileBytes.seen self.old.inner }
        ensures usable { (F.FileBytes.is_usable self.new.inner && not self.new.refused) ≡ is_ok result }
        ensures leaves { (c : List ℕ) → F.FileBytes.may_leave self.new.inner c
            → F.FileBytes.may_leave self.old.inner c }
        ensures shows { OnErr result ((c : List ℕ) → F.FileBytes.may_show self.new.inner c
            → F.FileBytes.may_leave self.old.inner c) }
        ensures stuck { StaysStuck F.FileBytes.is_stuck self.old self.new }
        ensures stops { self.old.changes ≡ 0 → IsErr result }
        ensures idle { self.old.changes ≡ 0 → self.new.inner ≡ self.old.inner }
        ensures torn { self.old.changes ≡ 0 → self.new.torn ≡ 0 }
        ensures not_torn { 1 ≤ self.old.changes → self.new.torn ≡ self.old.torn }
        ensures not_refused { 1 ≤ self.old.changes → self.new.refused ≡ self.old.refused }
        ensures left { self.new.changes ≡ self.old.changes - 1 }
    {
        if take_change(&mut self.changes) {
            return self.inner.sync();
        }
        self.refused = true;
        self.torn = 0;
        Err(stopped())
    }

    /// Nothing is given back any more once the file has stopped.
    fn release(&mut self, at: u64, count: u64)
        requires { at + count ≤ length (F.FileBytes.seen self.old.inner) }
        ensures others { SameBeside at count (F.FileBytes.seen self.old.inner) (F.FileBytes.seen self.new.inner) }
        ensures leaves { Follows (SameBeside at count) (F.FileBytes.may_leave self.old.inner)
            (F.FileBytes.may_leave self.new.inner) }
        ensures usable { StaysUsable F.FileBytes.is_usable self.old self.new }
        ensures stuck { StaysStuck F.FileBytes.is_stuck self.old self.new }
        ensures idle { self.old.changes ≡ 0 → self.new.inner ≡ self.old.inner }
        ensures torn { self.new.torn ≡ self.old.torn }
        ensures left { self.new.changes ≡ self.old.changes }
    {
        if self.changes == 0 {
            return;
        }
        self.inner.release(at, count);
    }
}
