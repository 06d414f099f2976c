ghost use Rattle.std.specs.Prelude.{◌≡◌, ◌-◌, ◌*◌, ◌/◌, ◌^◌, ◌<◌, length, map, replicate, IsTrue, List, OnOk, ℕ};
ghost use Rattle.sqlite_disk.specs.Disk.{Only};
ghost use Rattle.zone_states.specs.Geometry.{IsInRange};
ghost use Rattle.zone_drive.specs.Held.{restarted_stored};
ghost use Rattle.zone_drive.specs.Stored.{AreZones};
ghost use Rattle.file_bytes.specs.Changes.{SameBeside};
ghost use Rattle.file_drive.specs.Finds.{Finds};
ghost use Rattle.file_drive.specs.Head.{magic};
ghost use Rattle.file_drive.specs.Layout.{at_table, at_zones, file_length, word_in};
ghost use Rattle.file_drive.specs.Storing.{AreUnnamed, AreWhole, HoldsDrive, stored_entries, stored_entry};
ghost use Rattle.file_drive.specs.Tables.{word_of, words_in, zones_in};
ghost use Rattle.file_drive.specs.declared.boot.Boot.{Boot};

use crate::entry::Entry;
use crate::fresh::{put_head, put_zeros};
use crate::layout::{at_place, at_table};
use crate::words::put_word;
use drive_port::Device;
use file_bytes::FileBytes;
use std::io;
use zone_drive::Drive;
use zone_states::{Geometry, Zone};

/// The entry of a zone in memory, once its blocks are in the first of its two places.
fn stored_entry(geometry: &Geometry, zone: &Zone) -> Entry
    requires { length zone.now.bytes / geometry.now.block < 2 ^ 32 }
    ensures { result ≡ stored_entry geometry.now zone.now }
{
    Entry {
        state: zone.state(),
        written: zone.blocks(geometry) as u32,
        second: false,
        sum: 0,
    }
}

/// Writes the blocks of each zone to its first place, by one write for each zone.
fn put_blocks<F: FileBytes>(file: &mut F, geometry: &Geometry, zones: &[Zone]) -> io::Result<()>
    requires in_range { IsInRange geometry.now }
    requires zones { AreZones geometry.now zones.now }
    requires long { length (F.FileBytes.seen file.old) ≡ file_length geometry.now }
    ensures ok { OnOk result (zones_in geometry.now (F.FileBytes.seen file.new) 0
        (stored_entries geometry.now zones.now) ≡ zones.now) }
    ensures beside { SameBeside (at_zones geometry.now) (file_length geometry.now - at_zones geometry.now)
        (F.FileBytes.seen file.old) (F.FileBytes.seen file.new) }
    ensures unnamed { AreUnnamed (F.FileBytes.may_leave file.old) → AreUnnamed (F.FileBytes.may_leave file.new) }
    ensures usable { F.FileBytes.is_usable file.new ≡ F.FileBytes.is_usable file.old }
{
    for index in 0..zones.len() {
        let zone = &zones[index];
        let entry = stored_entry(geometry, zone);
        let at = at_place(geometry, entry.place(index as u32));
        file.write(at, zone.written())?;
    }
    Ok(())
}

/// Writes the words of the zones to a table that has only zeros.
fn put_table<F: FileBytes>(
    file: &mut F,
    geometry: &Geometry,
    table: u64,
    zones: &[Zone],
) -> io::Result<()>
    requires in_range { IsInRange geometry.now }
    requires zones { AreZones geometry.now zones.now }
    requires long { length (F.FileBytes.seen file.old) ≡ file_length geometry.now }
    requires few { table < 4 }
    requires zeros { words_in (F.FileBytes.seen file.old) (at_table geometry.now table) geometry.now.zones
        ≡ replicate geometry.now.zones 0 }
    ensures ok { OnOk result (words_in (F.FileBytes.seen file.new) (at_table geometry.now table) geometry.now.zones
        ≡ map word_of (stored_entries geometry.now zones.now)) }
    ensures beside { SameBeside (at_table geometry.now table) (8 * geometry.now.zones)
        (F.FileBytes.seen file.old) (F.FileBytes.seen file.new) }
    ensures unnamed { AreUnnamed (F.FileBytes.may_leave file.old) → AreUnnamed (F.FileBytes.may_leave file.new) }
    ensures usable { F.FileBytes.is_usable file.new ≡ F.FileBytes.is_usable file.old }
{
    let start = at_table(geometry, table);
    for index in 0..zones.len() {
        let word = stored_entry(geometry, &zones[index]).word();
        put_word(file, start + 8 * index as u64, 0, word)?;
    }
    Ok(())
}

/// Stores these zones in a file, as they are after a restart. The file has only zeros before, and
/// the length that a drive of this shape needs. Its tables are written, so that there is room for
/// them. Each block is written once, straight from memory. Then the file is synced.
///
/// After an error, a kill or a loss of power the file is no drive, or holds this one. That holds
/// if no loss of power could have left a drive there before.
pub fn store_zones<F: FileBytes>(
    file: &mut F,
    geometry: &Geometry,
    zones: &[Zone],
) -> io::Result<()>
    requires in_range { IsInRange geometry.now }
    requires zones { AreZones geometry.now zones.now }
    requires zeros { F.FileBytes.seen file.old ≡ replicate (file_length geometry.now) 0 }
    requires usable { IsTrue (F.FileBytes.is_usable file.old) }
    ensures synced { OnOk result (Only (F.FileBytes.seen file.new) (F.FileBytes.may_leave file.new)) }
    ensures usable { OnOk result (IsTrue (F.FileBytes.is_usable file.new)) }
    ensures stored { OnOk result ((boot : Boot)
        → Finds geometry.now boot (F.FileBytes.seen file.new) (map restarted_stored zones.now)) }
    ensures whole { AreUnnamed (F.FileBytes.may_leave file.old)
        → AreWhole geometry.now (map restarted_stored zones.now) (F.FileBytes.may_leave file.new) }
{
    put_zeros(file, geometry)?;
    put_blocks(file, geometry, zones)?;
    put_table(file, geometry, 0, zones)?;
    put_table(file, geometry, 2, zones)?;
    put_head(file, geometry)
}

/// Stores this drive in a file, as it is after a restart. The file has only zeros before, and the
/// length that the drive needs. Then the file is synced.
///
/// After an error, a kill or a loss of power the file is no drive, or holds this one. That holds
/// if no loss of power could have left a drive there before.
pub fn store<F: FileBytes>(file: &mut F, drive: &Drive) -> io::Result<()>
    requires zeros { F.FileBytes.seen file.old ≡ replicate (file_length drive.now.state.geometry) 0 }
    requires usable { IsTrue (F.FileBytes.is_usable file.old) }
    ensures synced { OnOk result (Only (F.FileBytes.seen file.new) (F.FileBytes.may_leave file.new)) }
    ensures usable { OnOk result (IsTrue (F.FileBytes.is_usable file.new)) }
    ensures stored { OnOk result (HoldsDrive drive.now.state (F.FileBytes.seen file.new)) }
    ensures whole { AreUnnamed (F.FileBytes.may_leave file.old) → (bytes : List ℕ)
        → F.FileBytes.may_leave file.new bytes → word_in bytes 0 ≡ magic → HoldsDrive drive.now.state bytes }
{
    let geometry = drive.geometry();
    store_zones(file, &geometry, drive.zones())
}
