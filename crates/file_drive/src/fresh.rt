ghost use Rattle.std.specs.Prelude.{◌≡◌, ◌+◌, ◌*◌, ◌%◌, ◌^◌, ◌<◌, ◌≤◌, List, length, replicate, IsTrue, OnOk, ℕ};
ghost use Rattle.sqlite_disk.specs.Disk.{Follows, Only};
ghost use Rattle.zone_states.specs.Geometry.{IsInRange};
ghost use Rattle.file_bytes.specs.Changes.{SameBeside};
ghost use Rattle.file_drive.specs.Finds.{Finds, empty_zones};
ghost use Rattle.file_drive.specs.Head.{magic, shape_words};
ghost use Rattle.file_drive.specs.Layout.{file_length, word_in};
ghost use Rattle.file_drive.specs.Storing.{AreUnnamed, AreWhole, HasHead};
ghost use Rattle.file_drive.specs.Tables.{words_in};
ghost use Rattle.file_drive.specs.declared.boot.Boot.{Boot};

use crate::head::MAGIC;
use crate::layout::at_table;
use file_bytes::FileBytes;
use std::io;
use zone_states::Geometry;

/// The words of the head that say the shape of a drive.
fn shape_words(geometry: &Geometry) -> [u64; 8]
    ensures { result ≡ shape_words geometry.now }
{
    [
        MAGIC,
        u64::from(geometry.block),
        u64::from(geometry.zones),
        u64::from(geometry.size),
        u64::from(geometry.capacity),
        u64::from(geometry.transfer),
        u64::from(geometry.active),
        u64::from(geometry.open),
    ]
}

/// Writes words, one after the other.
fn put_words<F: FileBytes>(file: &mut F, at: u64, words: &[u64]) -> io::Result<()>
    requires aligned { at % 8 ≡ 0 }
    requires within { at + 8 * length words.now ≤ length (F.FileBytes.seen file.old) }
    requires small { at + 8 * length words.now < 2 ^ 63 }
    ensures ok { OnOk result (words_in (F.FileBytes.seen file.new) at (length words.now) ≡ words.now) }
    ensures beside { SameBeside at (8 * length words.now) (F.FileBytes.seen file.old) (F.FileBytes.seen file.new) }
    ensures leaves { Follows (SameBeside at (8 * length words.now)) (F.FileBytes.may_leave file.old)
        (F.FileBytes.may_leave file.new) }
    ensures usable { F.FileBytes.is_usable file.new ≡ F.FileBytes.is_usable file.old }
{
    for index in 0..words.len() {
        file.write_word(at + 8 * index as u64, words[index])?;
    }
    Ok(())
}

/// Writes zeros where a file of zeros has the tables, and the words that pick them. So the file system has room for
/// them.
pub fn put_zeros<F: FileBytes>(file: &mut F, geometry: &Geometry) -> io::Result<()>
    requires in_range { IsInRange geometry.now }
    requires zeros { F.FileBytes.seen file.old ≡ replicate (file_length geometry.now) 0 }
    ensures zeros { OnOk result (F.FileBytes.seen file.new ≡ replicate (file_length geometry.now) 0) }
    ensures unnamed { AreUnnamed (F.FileBytes.may_leave file.old) → AreUnnamed (F.FileBytes.may_leave file.new) }
    ensures usable { F.FileBytes.is_usable file.new ≡ F.FileBytes.is_usable file.old }
{
    let end = at_table(geometry, 4) / 4096;
    for number in 1..end {
        file.write(4096 * number, &[0; 4096])?;
    }
    Ok(())
}

/// Writes the first word of the head, and syncs the file.
fn put_magic<F: FileBytes>(file: &mut F) -> io::Result<()>
    requires within { 8 ≤ length (F.FileBytes.seen file.old) }
    requires usable { IsTrue (F.FileBytes.is_usable file.old) }
    ensures ok { OnOk result (word_in (F.FileBytes.seen file.new) 0 ≡ magic) }
    ensures beside { SameBeside 0 8 (F.FileBytes.seen file.old) (F.FileBytes.seen file.new) }
    ensures leaves { Follows (SameBeside 0 8) (F.FileBytes.may_leave file.old) (F.FileBytes.may_leave file.new) }
    ensures synced { OnOk result (Only (F.FileBytes.seen file.new) (F.FileBytes.may_leave file.new)) }
    ensures usable { OnOk result (IsTrue (F.FileBytes.is_usable file.new)) }
{
    file.write_word(0, MAGIC)?;
    file.sync()?;
    Ok(())
}

/// Writes the head of a drive of this shape: its first word once all else is synced. The file is synced.
pub fn put_head<F: FileBytes>(file: &mut F, geometry: &Geometry) -> io::Result<()>
    requires long { 64 ≤ length (F.FileBytes.seen file.old) }
    requires usable { IsTrue (F.FileBytes.is_usable file.old) }
    ensures head { OnOk result (HasHead geometry.now (F.FileBytes.seen file.old) (F.FileBytes.seen file.new)) }
    ensures synced { OnOk result (Only (F.FileBytes.seen file.new) (F.FileBytes.may_leave file.new)) }
    ensures usable { OnOk result (IsTrue (F.FileBytes.is_usable file.new)) }
    ensures left { AreUnnamed (F.FileBytes.may_leave file.old) → (bytes : List ℕ)
        → F.FileBytes.may_leave file.new bytes → word_in bytes 0 ≡ magic
        → HasHead geometry.now (F.FileBytes.seen file.old) bytes }
{
    put_words(file, 8, &shape_words(geometry)[1..])?;
    file.sync()?;
    put_magic(file)?;
    Ok(())
}

/// Makes a file of zeros, which is as long as a drive of this shape wants, a drive of empty zones. Its tables are
/// written, and the file is synced.
///
/// After an error it is no drive or this one, whatever a kill or a loss of power leaves, if it was none before.
pub fn format<F: FileBytes>(file: &mut F, geometry: &Geometry) -> io::Result<()>
    requires in_range { IsInRange geometry.now }
    requires zeros { F.FileBytes.seen file.old ≡ replicate (file_length geometry.now) 0 }
    requires usable { IsTrue (F.FileBytes.is_usable file.old) }
    ensures synced { OnOk result (Only (F.FileBytes.seen file.new) (F.FileBytes.may_leave file.new)) }
    ensures usable { OnOk result (IsTrue (F.FileBytes.is_usable file.new)) }
    ensures fresh { OnOk result ((boot : Boot)
        → Finds geometry.now boot (F.FileBytes.seen file.new) (empty_zones geometry.now)) }
    ensures whole { AreUnnamed (F.FileBytes.may_leave file.old)
        → AreWhole geometry.now (empty_zones geometry.now) (F.FileBytes.may_leave file.new) }
{
    put_zeros(file, geometry)?;
    put_head(file, geometry)
}
