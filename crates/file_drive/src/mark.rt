ghost use Rattle.std.specs.Prelude.{◌≡◌, ◌≢◌, ◌+◌, ◌^◌, ◌<◌, ◌≤◌, ◌↔◌, List, ℕ, false, length, IfErr, IfOk, IsErrAnd, IsTrue, OnErr, OnOk};
ghost use Rattle.sqlite_disk.specs.Disk.{Follows, Only};
ghost use Rattle.zone_states.specs.declared.geometry.Geometry.{Geometry};
ghost use Rattle.file_bytes.specs.Changes.{SameBeside};
ghost use Rattle.file_drive.specs.Faults.{IsUnsynced};
ghost use Rattle.file_drive.specs.Found.{IsHead};
ghost use Rattle.file_drive.specs.Head.{at_second};
ghost use Rattle.file_drive.specs.Layout.{word_in};
ghost use Rattle.file_drive.specs.Mark.{IsCopied, IsMark, IsMarkFault, IsMarked, at_mark, mark_in, mark_of};
ghost use Rattle.file_drive.specs.Opening.{opened_zones};
ghost use Rattle.file_drive.specs.declared.boot.Boot.{Boot};

use crate::fault::OpenFault;
use crate::head::{Head, read_head};
use crate::syncing::sync_or_forget;
use crate::tables::read_word;
use file_bytes::FileBytes;
use std::alloc::Global;
use std::io;

/// Where the head has the mark of the file while a program has the drive in it, and else 0.
pub const AT_MARK: u64 = 80;

/// The mark of a number: its bits, and above them the opposite ones.
fn mark_of(number: u32) -> u64
    ensures { result ≡ mark_of number }
{
    u64::from(u32::MAX - number) * (1 << 32) + u64::from(number)
}

/// Whether a word is the mark of some number.
fn is_mark(word: u64) -> bool
    ensures { IsTrue result ↔ IsMark word }
{
    word / (1 << 32) + word % (1 << 32) == u64::from(u32::MAX)
}

/// Reads the head of the file with this number, by which the system tells it from its copies. Where it has the mark of
/// another number, it is refused as a copy (`Copied`).
pub fn check_mark<F: FileBytes>(alloc: Global, file: &mut F, number: u32) -> Result<Head, OpenFault>
    ensures head { IfOk result (IsHead (F.seen file.old)) }
    ensures own { OnOk result (¬ IsCopied number (F.seen file.old)) }
    ensures err { IfErr result (IsMarkFault number (F.seen file.old)) }
    ensures seen { F.seen file.new ≡ F.seen file.old }
    ensures leaves { (c : List ℕ) → F.may_leave file.new c → F.may_leave file.old c }
    ensures usable { F.is_usable file.new ≡ F.is_usable file.old }
{
    let head = read_head(alloc, file)?;
    let mark = read_word(alloc, file, AT_MARK)?;
    if is_mark(mark) && mark != mark_of(number) {
        return Err(OpenFault::Copied);
    }
    Ok(head)
}

/// Marks the file with this number as one that this program has, and syncs it. A copy is refused (`Copied`).
///
/// If the sync fails, the error is `Unsynced`, and the file names no boot any more, as after [`crate::open`]. After
/// each other error the file is as it was.
pub fn mark_file<F: FileBytes>(alloc: Global, file: &mut F, number: u32) -> Result<(), OpenFault>
    requires { IsTrue (F.is_usable file.old) }
    ensures own { OnOk result (¬ IsCopied number (F.seen file.old)) }
    ensures marked { OnOk result (IsMarked F.seen F.may_leave F.may_show number file.new) }
    ensures others { OnOk result ((other : ℕ) → other < 2 ^ 32 → other ≢ number → IsCopied other (F.seen file.new)) }
    ensures zones { OnOk result ((geometry : Geometry) (boot : Boot)
        → opened_zones geometry boot (F.seen file.new) ≡ opened_zones geometry boot (F.seen file.old)) }
    ensures synced { OnOk result (Only (F.seen file.new) (F.may_leave file.new)) }
    ensures usable { OnOk result (IsTrue (F.is_usable file.new)) }
    ensures err { IsTrue (F.is_usable file.new) → IfErr result (IsMarkFault number (F.seen file.old)) }
    ensures same { IsTrue (F.is_usable file.new) → OnErr result (F.seen file.new ≡ F.seen file.old) }
    ensures unsynced { F.is_usable file.new ≡ false → IsErrAnd result IsUnsynced }
    ensures beside { SameBeside at_second 16 (F.seen file.old) (F.seen file.new) }
    ensures leaves { Follows (SameBeside at_second 16) (F.may_leave file.old) (F.may_leave file.new) }
    ensures out { F.is_usable file.new ≡ false → F.is_stuck file.new ≡ false
        → (bytes : List ℕ) → F.may_show file.new bytes → word_in bytes at_second ≡ 0 }
{
    check_mark(alloc, file, number)?;
    file.write_word(AT_MARK, mark_of(number))?;
    match sync_or_forget(file) {
        Ok(()) => Ok(()),
        Err(error) => Err(OpenFault::Unsynced(error)),
    }
}

/// Takes the mark of a file away, and syncs the file. If the sync fails, the file names no boot any more.
pub fn unmark<F: FileBytes>(file: &mut F) -> io::Result<()>
    requires long { at_mark + 8 ≤ length (F.seen file.old) }
    requires usable { IsTrue (F.is_usable file.old) }
    ensures ok { OnOk result (mark_in (F.seen file.new) ≡ 0) }
    ensures synced { OnOk result (Only (F.seen file.new) (F.may_leave file.new)) }
    ensures same { OnOk result (SameBeside at_mark 8 (F.seen file.old) (F.seen file.new)) }
    ensures out { F.is_usable file.new ≡ false → F.is_stuck file.new ≡ false
        → (bytes : List ℕ) → F.may_show file.new bytes → word_in bytes at_second ≡ 0 }
{
    file.write_word(AT_MARK, 0)?;
    sync_or_forget(file)
}
