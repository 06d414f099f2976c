ghost use Rattle.std.specs.Prelude.{◌≡◌, ◌+◌, ◌≤◌, ◌↔◌, ℕ, List, length, IsTrue, OnOk};
ghost use Rattle.sqlite_disk.specs.Disk.{Holds};
ghost use Rattle.file_bytes.specs.Kept.{AreKept};

use crate::file::FileBytes;
use crate::kept::Kept;
use std::alloc::Global;
use std::io;
use std::marker::Model;

/// Reads ahead into what is kept. Where memory is missing or the read fails, nothing is kept any more.
fn fill<F: FileBytes>(file: &mut F, kept: &mut Kept, at: u64, count: usize) -> bool
    requires within { at + count ≤ length (F.FileBytes.seen file.old) }
    ensures filled { IsTrue result → (kept.new.start ≡ at) × (length kept.new.bytes.items ≡ count) }
    ensures kept { AreKept (F.FileBytes.seen file.new) kept.new }
    ensures seen { F.FileBytes.seen file.new ≡ F.FileBytes.seen file.old }
    ensures leaves { (c : List ℕ) → F.FileBytes.may_leave file.new c ↔ F.FileBytes.may_leave file.old c }
    ensures shows { (c : List ℕ) → F.FileBytes.may_show file.new c ↔ F.FileBytes.may_show file.old c }
    ensures usable { F.FileBytes.is_usable file.new ≡ F.FileBytes.is_usable file.old }
    ensures stuck { F.FileBytes.is_stuck file.new ≡ F.FileBytes.is_stuck file.old }
{
    if kept.bytes.resize(count, 0).is_err() {
        kept.forget();
        return false;
    }
    kept.start = at;
    if file.read(at, &mut kept.bytes).is_err() {
        kept.forget();
        return false;
    }
    true
}

/// Reads ahead where that is of use, and takes the bytes that were asked from it. Else it says no.
fn read_wide<F: FileBytes>(file: &mut F, kept: &mut Kept, at: u64, room: &mut [u8]) -> bool
    requires within { at + length room.old ≤ length (F.FileBytes.seen file.old) }
    requires kept { AreKept (F.FileBytes.seen file.old) kept.old }
    ensures read { IsTrue result → Holds (F.FileBytes.seen file.old) at room.new }
    ensures kept { AreKept (F.FileBytes.seen file.new) kept.new }
    ensures seen { F.FileBytes.seen file.new ≡ F.FileBytes.seen file.old }
    ensures leaves { (c : List ℕ) → F.FileBytes.may_leave file.new c ↔ F.FileBytes.may_leave file.old c }
    ensures shows { (c : List ℕ) → F.FileBytes.may_show file.new c ↔ F.FileBytes.may_show file.old c }
    ensures usable { F.FileBytes.is_usable file.new ≡ F.FileBytes.is_usable file.old }
    ensures stuck { F.FileBytes.is_stuck file.new ≡ F.FileBytes.is_stuck file.old }
{
    let ahead = kept.ahead(at, room.len(), file.len());
    if ahead == 0 || !fill(file, kept, at, ahead) {
        return false;
    }
    kept.copy(at, room);
    kept.called(at, room.len());
    true
}

/// Fills `room` from what is kept, or by reading ahead, or by a read of the file as it is.
fn read<F: FileBytes>(file: &mut F, kept: &mut Kept, at: u64, room: &mut [u8]) -> io::Result<()>
    requires within { at + length room.old ≤ length (F.FileBytes.seen file.old) }
    requires kept { AreKept (F.FileBytes.seen file.old) kept.old }
    ensures read { OnOk result (Holds (F.FileBytes.seen file.old) at room.new) }
    ensures kept { AreKept (F.FileBytes.seen file.new) kept.new }
    ensures seen { F.FileBytes.seen file.new ≡ F.FileBytes.seen file.old }
    ensures leaves { (c : List ℕ) → F.FileBytes.may_leave file.new c ↔ F.FileBytes.may_leave file.old c }
    ensures shows { (c : List ℕ) → F.FileBytes.may_show file.new c ↔ F.FileBytes.may_show file.old c }
    ensures usable { F.FileBytes.is_usable file.new ≡ F.FileBytes.is_usable file.old }
    ensures stuck { F.FileBytes.is_stuck file.new ≡ F.FileBytes.is_stuck file.old }
{
    if kept.has(at, room.len()) {
        kept.copy(at, room);
        kept.spared(at, room.len());
        return Ok(());
    }
    if read_wide(file, kept, at, room) {
        return Ok(());
    }
    file.read(at, room)?;
    kept.called(at, room.len());
    Ok(())
}

/// Reads ahead in a file: small reads that follow each other closely are answered by few calls of the one within.
///
/// The first reads what it is asked. One that begins where the last ended, or at most 64 KiB later, reads on to 16 KiB,
/// and each later call of the file reads twice as much, up to 256 KiB. What was read is kept, until a change touches
/// it. A read of more than 32 KiB is passed down as it is. So is every read where memory is missing.
#[derive(Drop)]
pub struct ReadAheadFile<F: FileBytes + Drop> {
    inner: F,
    kept: Kept,
}

impl<F: FileBytes + Drop> Model for ReadAheadFile<F> {
    ghost use Rattle.file_bytes.specs.Kept.{AreKept};

    ghost Value = { F };

    ghost view = { λ f. f.inner };

    ghost invariant = { λ f. AreKept (F.seen f.inner) f.kept };
}

impl<F: FileBytes + Drop> ReadAheadFile<F> {
    /// Reads ahead in this file. Nothing is kept yet.
    pub fn new(alloc: Global, inner: F) -> ReadAheadFile<F>
        ensures { result ≡ inner }
    {
        ReadAheadFile {
            inner,
            kept: Kept::new(alloc),
        }
    }

    /// The file within.
    pub fn into_inner(self) -> F
        ensures { result ≡ self }
    {
        self.inner
    }
}

impl<F: FileBytes + Drop> FileBytes for ReadAheadFile<F> {
    ghost seen = { λ f. F.FileBytes.seen f };

    ghost may_leave = { λ f. F.FileBytes.may_leave f };

    ghost may_show = { λ f. F.FileBytes.may_show f };

    ghost is_usable = { λ f. F.FileBytes.is_usable f };

    ghost is_stuck = { λ f. F.FileBytes.is_stuck f };

    ghost seen_may_stay = { λ f. F.FileBytes.seen_may_stay f };

    ghost seen_is_shown = { λ f usable. F.FileBytes.seen_is_shown f usable };

    fn len(&self) -> u64 {
        self.inner.len()
    }

    fn read(&mut self, at: u64, room: &mut [u8]) -> io::Result<()> {
        read(&mut self.inner, &mut self.kept, at, room)
    }

    fn write(&mut self, at: u64, bytes: &[u8]) -> io::Result<()> {
        self.kept.forget_changed(at, bytes.len());
        self.inner.write(at, bytes)
    }

    fn write_word(&mut self, at: u64, word: u64) -> io::Result<()> {
        self.kept.forget_changed(at, 8);
        self.inner.write_word(at, word)
    }

    fn sync(&mut self) -> io::Result<()> {
        self.inner.sync()
    }

    fn release(&mut self, at: u64, count: u64) {
        self.kept.forget_changed(at, count as usize);
        self.inner.release(at, count);
    }
}
