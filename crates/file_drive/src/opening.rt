ghost use Rattle.std.specs.Prelude.{◌≡◌, ◌⊎◌, ◌==◌, ◌&&◌, not, false, length, map, true, IfErr, IfOk, IsErrAnd, IsTrue, OnErr, OnOk};
ghost use Rattle.sqlite_disk.specs.Disk.{Follows, Only};
ghost use Rattle.file_drive.specs.Found.{IsFound, IsRead, is_set_back, with_boot};
ghost use Rattle.file_drive.specs.Head.{TakesOut, is_known, is_of_boot, shape_words};
ghost use Rattle.file_drive.specs.Faults.{IsOpenFault, IsUnsynced};
ghost use Rattle.file_drive.specs.Opened.{IsOpened};
ghost use Rattle.file_drive.specs.Opening.{GivesUp, KeepsFlushed, Unnoticed, opened_zones};
ghost use Rattle.file_drive.specs.Tables.{word_of, words_in, zones_in};
ghost use Rattle.zone_states.specs.declared.geometry.Geometry.{Geometry};
ghost use Rattle.file_drive.specs.declared.boot.Boot.{Boot as Boots};

use crate::boot::{Boot, System};
use crate::fault::OpenFault;
use crate::found::{Found, is_same_boot, read_all};
use crate::head::{AT_FIRST, AT_SECOND, read_head};
use crate::layout::at_table;
use crate::syncing::sync_file;
use crate::words::{put_word, write_words};
use file_bytes::FileBytes;
use std::alloc::Global;
use std::io;

/// Writes the first word of the boot.
fn put_first<F: FileBytes>(file: &mut F, found: &mut Found, word: u64) -> io::Result<()>
    requires { IsRead (F.FileBytes.seen file.old) found.old }
    ensures read { IsRead (F.FileBytes.seen file.new) found.new }
    ensures ok { OnOk result (found.new ≡ with_boot found.old (record found.old.head.boot { first = word })) }
    ensures err { OnErr result (found.new ≡ found.old) }
    ensures shown { OnErr result (F.FileBytes.seen file.new ≡ F.FileBytes.seen file.old) }
    ensures keeps { KeepsFlushed found.old.head.geometry (F.FileBytes.seen file.old) (F.FileBytes.seen file.new) }
    ensures leaves { Follows (KeepsFlushed found.old.head.geometry) (F.FileBytes.may_leave file.old)
        (F.FileBytes.may_leave file.new) }
    ensures usable { F.FileBytes.is_usable file.new ≡ F.FileBytes.is_usable file.old }
{
    put_word(file, AT_FIRST, found.head.boot.first, word)?;
    found.head.boot.first = word;
    Ok(())
}

/// Writes the second word of the boot.
fn put_second<F: FileBytes>(file: &mut F, found: &mut Found, word: u64) -> io::Result<()>
    requires { IsRead (F.FileBytes.seen file.old) found.old }
    ensures read { IsRead (F.FileBytes.seen file.new) found.new }
    ensures ok { OnOk result (found.new ≡ with_boot found.old (record found.old.head.boot { second = word })) }
    ensures err { OnErr result (found.new ≡ found.old) }
    ensures shown { OnErr result (F.FileBytes.seen file.new ≡ F.FileBytes.seen file.old) }
    ensures keeps { KeepsFlushed found.old.head.geometry (F.FileBytes.seen file.old) (F.FileBytes.seen file.new) }
    ensures leaves { Follows (KeepsFlushed found.old.head.geometry) (F.FileBytes.may_leave file.old)
        (F.FileBytes.may_leave file.new) }
    ensures usable { F.FileBytes.is_usable file.new ≡ F.FileBytes.is_usable file.old }
{
    put_word(file, AT_SECOND, found.head.boot.second, word)?;
    found.head.boot.second = word;
    Ok(())
}

/// Writes the words of the zones in the live table.
fn put_live<F: FileBytes>(file: &mut F, found: &mut Found) -> io::Result<()>
    requires read { IsRead (F.FileBytes.seen file.old) found.old }
    requires count { length found.old.entries.items ≡ found.old.head.geometry.zones }
    ensures read { IsRead (F.FileBytes.seen file.new) found.new }
    ensures ok { OnOk result (found.new.tables.current.items ≡ map word_of found.new.entries.items) }
    ensures same { found.new ≡ record found.old {
      tables = record found.old.tables {
        current = found.new.tables.current;
      };
    } }
    ensures keeps { KeepsFlushed found.old.head.geometry (F.FileBytes.seen file.old) (F.FileBytes.seen file.new) }
    ensures leaves { Follows (KeepsFlushed found.old.head.geometry) (F.FileBytes.may_leave file.old)
        (F.FileBytes.may_leave file.new) }
    ensures usable { F.FileBytes.is_usable file.new ≡ F.FileBytes.is_usable file.old }
{
    let at = at_table(&found.head.geometry, found.tables.live);
    write_words(
        file,
        at,
        &mut found.tables.current,
        &found.entries,
        &found.tables.safe,
        None,
    )
}

/// Makes a file ready for this boot, by writing what was found to its live table. The second word
/// of the boot is 0 in the meantime. So the file belongs to no boot until the last word is written.
fn take_over<F: FileBytes>(file: &mut F, found: &mut Found, boot: Boot) -> io::Result<()>
    requires read { IsRead (F.FileBytes.seen file.old) found.old }
    requires count { length found.old.entries.items ≡ found.old.head.geometry.zones }
    ensures read { IsRead (F.FileBytes.seen file.new) found.new }
    ensures ok { OnOk result (found.new.head.boot ≡ boot) }
    ensures live { OnOk result (found.new.tables.current.items ≡ map word_of found.new.entries.items) }
    ensures counts { (other : Boots) → is_of_boot other (F.FileBytes.seen file.new) ≡ true
        → (found.new.tables.current.items ≡ map word_of found.new.entries.items)
        ⊎ (F.FileBytes.seen file.new ≡ F.FileBytes.seen file.old) }
    ensures same { found.new ≡ record (with_boot found.old found.new.head.boot) {
      tables = record found.old.tables { current = found.new.tables.current };
    } }
    ensures keeps { KeepsFlushed found.old.head.geometry (F.FileBytes.seen file.old) (F.FileBytes.seen file.new) }
    ensures leaves { Follows (KeepsFlushed found.old.head.geometry) (F.FileBytes.may_leave file.old)
        (F.FileBytes.may_leave file.new) }
    ensures usable { F.FileBytes.is_usable file.new ≡ F.FileBytes.is_usable file.old }
{
    put_second(file, found, 0)?;
    put_live(file, found)?;
    put_first(file, found, boot.first)?;
    put_second(file, found, boot.second)?;
    Ok(())
}

/// Whether a file that was read is ready for this boot: the boot served it last, and the live table counts.
fn is_ready(found: &Found, boot: Boot) -> bool
    ensures { result ≡ (is_known boot && (found.now.head.boot.first == boot.first
        && found.now.head.boot.second == boot.second) && not found.now.set_back) }
{
    is_same_boot(found.head.boot, boot) && !found.set_back
}

/// Makes a file that was read and synced ready for this boot.
fn make_ready<F: FileBytes>(file: &mut F, found: &mut Found, boot: Boot) -> io::Result<()>
    requires found { IsFound boot (F.FileBytes.seen file.old) found.old }
    requires synced { Only (F.FileBytes.seen file.old) (F.FileBytes.may_leave file.old) }
    requires usable { IsTrue (F.FileBytes.is_usable file.old) }
    ensures ok { OnOk result (IsOpened F.FileBytes.seen F.FileBytes.may_leave F.FileBytes.is_usable boot file.new
        found.new) }
    ensures geometry { found.new.head.geometry ≡ found.old.head.geometry }
    ensures set_back { found.new.set_back ≡ found.old.set_back }
    ensures zones { zones_in found.old.head.geometry (F.FileBytes.seen file.new) 0 found.new.entries.items
        ≡ opened_zones found.old.head.geometry boot (F.FileBytes.seen file.old) }
    ensures unnoticed { Unnoticed F.FileBytes.seen F.FileBytes.may_leave boot found.old.head.geometry file.old
        file.new }
    ensures usable { F.FileBytes.is_usable file.new ≡ F.FileBytes.is_usable file.old }
{
    if is_ready(found, boot) {
        return Ok(());
    }
    take_over(file, found, boot)?;
    Ok(())
}

/// Opens a file as a drive: syncs it, reads it, and makes it ready for this boot of the system.
///
/// If the same boot served the file last, and the file shows what was written since the last flush, the zones are those
/// after the last command: the program may have been killed, but the system kept all that was written. The sums of the
/// zones tell that. So what was written since the last flush is read. If the file does not show it, the zones are those
/// of the last flush, and `set_back` says so. In another boot the zones are those of the last flush, too.
///
/// After an error the next open in this boot finds the same zones as before. An open in another
/// boot finds the same, or those of the last flush. A loss of power leaves what it might have left
/// before, or that flush.
///
/// If the sync fails, the error is `Unsynced`, and the file names no boot any more. So each later
/// open takes the table of the last flush, in this boot too. A file that is no drive stays as it is.
pub fn open<F: FileBytes, S: System>(
    alloc: Global,
    file: &mut F,
    system: &S,
) -> Result<Found, OpenFault>
    requires { IsTrue (F.is_usable file.old) }
    ensures ok { IfOk result (IsOpened F.seen F.may_leave F.is_usable S.boot file.new) }
    ensures zones { IfOk result (λ found. zones_in found.head.geometry (F.seen file.new) 0 found.entries.items
        ≡ opened_zones found.head.geometry S.boot (F.seen file.old)) }
    ensures set_back { IfOk result (λ found.
        found.set_back ≡ is_set_back found.head.geometry S.boot (F.seen file.old)) }
    ensures err { IsTrue (F.is_usable file.new) → IfErr result (IsOpenFault (F.seen file.old)) }
    ensures unsynced { F.is_usable file.new ≡ false → IsErrAnd result IsUnsynced }
    ensures unnoticed { IsTrue (F.is_usable file.new) → (geometry : Geometry)
        → words_in (F.seen file.old) 0 8 ≡ shape_words geometry
        → Unnoticed F.seen F.may_leave S.boot geometry file.old file.new }
    ensures gives_up { F.is_usable file.new ≡ false → GivesUp F.seen F.may_leave file.old file.new }
    ensures out { F.is_usable file.new ≡ false → F.is_stuck file.new ≡ false
        → TakesOut (F.may_leave file.old) (F.may_show file.new) }
{
    let boot = system.boot();
    let mut head = read_head(alloc, file)?;
    if let Err(error) = sync_file(file, &mut head.boot) {
        return Err(OpenFault::Unsynced(error));
    }
    let mut found = read_all(alloc, file, boot)?;
    make_ready(file, &mut found, boot)?;
    Ok(found)
}
