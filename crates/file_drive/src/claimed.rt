ghost use Rattle.std.specs.Prelude.{◌≡◌, ◌⊎◌, ◌+◌, ◌≤◌, ◌||◌, false, IfOk, IsTrue, length};
ghost use Rattle.sqlite_disk.specs.Disk.{Only};
ghost use Rattle.file_bytes.specs.Changes.{SameBeside};
ghost use Rattle.file_drive.specs.Mark.{IsMarked, at_mark, mark_in};

use crate::mark::{AT_MARK, unmark};
use file_bytes::FileBytes;
use std::io;
use std::marker::Model;

/// The file of a drive that this program has. It is marked by its number until this value is dropped. So it is after a
/// kill, whenever that comes, and after a loss of power.
///
/// No write of it touches the mark. After a sync that failed only words are written, and the mark stays.
pub struct ClaimedFile<F: FileBytes + Drop> {
    inner: F,
    /// The number of the file.
    number: u32,
    /// No sync has failed.
    usable: bool,
    /// A word that would have been written over the mark was refused.
    refused: bool,
}

impl<F: FileBytes + Drop> Model for ClaimedFile<F> {
    ghost use Rattle.std.specs.Prelude.{◌≡◌};
    ghost use Rattle.file_drive.specs.Mark.{Claim, IsMarked};

    ghost Value = { Claim F };

    ghost view = { λ f. record { file = f.inner; number = f.number; refused = f.refused } };

    ghost invariant = { λ f. IsMarked F.seen F.may_leave F.may_show f.number f.inner
        × (f.usable ≡ F.is_usable f.inner) };
}

impl<F: FileBytes + Drop> Drop for ClaimedFile<F> {
    /// Takes the mark away. What fails here is told by the file, and leaves the mark.
    fn drop(self) {
        let ClaimedFile {
            inner,
            number: _,
            usable,
            refused: _,
        } = self;
        let mut file = inner;
        if usable {
            let _ = unmark(&mut file);
        }
    }
}

/// Whether a range does not touch the mark.
fn is_apart(at: u64, count: u64) -> bool
    ensures { IsTrue result → (at_mark + 8 ≤ at) ⊎ (at + count ≤ at_mark) }
{
    AT_MARK + 8 <= at || (at <= AT_MARK && count <= AT_MARK - at)
}

/// The error of a write that is not done.
fn refused() -> io::Error {
    io::Error::other("the mark of a file that is in use is not written over")
}

impl<F: FileBytes + Drop> ClaimedFile<F> {
    /// A file that was marked by its number (`mark_file`).
    pub fn new(inner: F, number: u32) -> ClaimedFile<F>
        requires marked { IsMarked F.seen F.may_leave F.may_show number inner }
        requires usable { IsTrue (F.is_usable inner) }
        ensures { result ≡ record { file = inner; number = number; refused = false } }
    {
        ClaimedFile {
            inner,
            number,
            usable: true,
            refused: false,
        }
    }

    /// The file as a kill at this moment leaves it: it is marked by its number.
    pub fn into_inner(self) -> F
        ensures file { result ≡ self.file }
        ensures marked { IsMarked F.seen F.may_leave F.may_show self.number result }
    {
        let ClaimedFile {
            inner,
            number: _,
            usable: _,
            refused: _,
        } = self;
        inner
    }

    /// Takes the mark away, as each end of a program does, and gives the file, which is synced.
    pub fn end(self) -> io::Result<F>
        requires { IsTrue (F.is_usable self.file) }
        ensures free { IfOk result (λ file. mark_in (F.seen file) ≡ 0) }
        ensures synced { IfOk result (λ file. Only (F.seen file) (F.may_leave file)) }
        ensures same { IfOk result (λ file. SameBeside at_mark 8 (F.seen self.file) (F.seen file)) }
    {
        let mut file = self.into_inner();
        unmark(&mut file)?;
        Ok(file)
    }
}

impl<F: FileBytes + Drop> FileBytes for ClaimedFile<F> {
    ghost seen = { λ f. F.FileBytes.seen f.file };

    ghost may_leave = { λ f. F.FileBytes.may_leave f.file };

    ghost may_show = { λ f. F.FileBytes.may_show f.file };

    ghost is_usable = { λ f. F.FileBytes.is_usable f.file };

    ghost is_stuck = { λ f. F.FileBytes.is_stuck f.file || f.refused };

    ghost seen_may_stay = { λ f. F.FileBytes.seen_may_stay f.file };

    ghost seen_is_shown = { λ f usable. F.FileBytes.seen_is_shown f.file usable };

    fn len(&self) -> u64 {
        self.inner.len()
    }

    fn read(&mut self, at: u64, room: &mut [u8]) -> io::Result<()> {
        self.inner.read(at, room)
    }

    fn write(&mut self, at: u64, bytes: &[u8]) -> io::Result<()> {
        if !self.usable || !is_apart(at, bytes.len() as u64) {
            return Err(refused());
        }
        self.inner.write(at, bytes)
    }

    fn write_word(&mut self, at: u64, word: u64) -> io::Result<()> {
        if !is_apart(at, 8) {
            self.refused = true;
            return Err(refused());
        }
        self.inner.write_word(at, word)
    }

    fn sync(&mut self) -> io::Result<()> {
        let done = self.inner.sync();
        self.usable = done.is_ok();
        done
    }

    /// After a sync that failed nothing is given back.
    fn release(&mut self, at: u64, count: u64) {
        if self.usable && is_apart(at, count) {
            self.inner.release(at, count);
        }
    }
}
