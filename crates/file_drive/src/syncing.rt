ghost use Rattle.std.specs.Prelude.{◌≡◌, ◌≤◌, List, ℕ, false, is_ok, length, IsTrue, OnErr, OnOk};
ghost use Rattle.sqlite_disk.specs.Disk.{Follows, Only};
ghost use Rattle.file_bytes.specs.Changes.{SameBeside};
ghost use Rattle.file_drive.specs.Head.{TakesOut, at_second, boot_in};

use crate::boot::Boot;
use crate::head::AT_SECOND;
use file_bytes::FileBytes;
use std::io;

/// Syncs the file of a drive. `named` is the boot that its head names, before and after. If the sync fails, the head
/// names no boot any more: the system may show older blocks from now on. So the next open, in the same boot too, takes
/// the table of the last flush.
pub fn sync_file<F: FileBytes>(file: &mut F, named: &mut Boot) -> io::Result<()>
    requires long { 80 ≤ length (F.FileBytes.seen file.old) }
    requires usable { IsTrue (F.FileBytes.is_usable file.old) }
    requires named { boot_in (F.FileBytes.seen file.old) ≡ named.old }
    ensures durable { OnOk result (Only (F.FileBytes.seen file.old) (F.FileBytes.may_leave file.new)) }
    ensures seen { OnOk result (F.FileBytes.seen file.new ≡ F.FileBytes.seen file.old) }
    ensures left { OnOk result ((c : List ℕ) → F.FileBytes.may_leave file.new c → F.FileBytes.may_leave file.old c) }
    ensures same { OnOk result (named.new ≡ named.old) }
    ensures usable { F.FileBytes.is_usable file.new ≡ is_ok result }
    ensures beside { SameBeside at_second 8 (F.FileBytes.seen file.old) (F.FileBytes.seen file.new) }
    ensures leaves { Follows (SameBeside at_second 8) (F.FileBytes.may_leave file.old)
        (F.FileBytes.may_leave file.new) }
    ensures named { boot_in (F.FileBytes.seen file.new) ≡ named.new }
    ensures out { OnErr result (F.FileBytes.is_stuck file.new ≡ false
        → TakesOut (F.FileBytes.may_leave file.old) (F.FileBytes.may_show file.new)) }
{
    let Err(error) = file.sync() else {
        return Ok(());
    };
    if file.write_word(AT_SECOND, 0).is_ok() {
        named.second = 0;
    }
    Err(error)
}

/// Syncs the file of a drive. If that fails, its head names no boot any more, as after [`sync_file`].
pub fn sync_or_forget<F: FileBytes>(file: &mut F) -> io::Result<()>
    requires long { 80 ≤ length (F.FileBytes.seen file.old) }
    requires usable { IsTrue (F.FileBytes.is_usable file.old) }
    ensures durable { OnOk result (Only (F.FileBytes.seen file.old) (F.FileBytes.may_leave file.new)) }
    ensures seen { OnOk result (F.FileBytes.seen file.new ≡ F.FileBytes.seen file.old) }
    ensures usable { F.FileBytes.is_usable file.new ≡ is_ok result }
    ensures beside { SameBeside at_second 8 (F.FileBytes.seen file.old) (F.FileBytes.seen file.new) }
    ensures leaves { Follows (SameBeside at_second 8) (F.FileBytes.may_leave file.old)
        (F.FileBytes.may_leave file.new) }
    ensures out { OnErr result (F.FileBytes.is_stuck file.new ≡ false
        → TakesOut (F.FileBytes.may_leave file.old) (F.FileBytes.may_show file.new)) }
{
    let Err(error) = file.sync() else {
        return Ok(());
    };
    let _ = file.write_word(AT_SECOND, 0);
    Err(error)
}
