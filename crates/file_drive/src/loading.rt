ghost use Rattle.std.specs.Prelude.{◌≡◌, IfOk};
ghost use Rattle.zone_drive.specs.Habits.{made};
ghost use Rattle.zone_drive.specs.Stored.{unused, zones_of};
ghost use Rattle.file_drive.specs.Opened.{IsOpened};
ghost use Rattle.file_drive.specs.Tables.{zones_in};

use crate::boot::System;
use crate::copying::copy_zones;
use crate::found::Found;
use crate::zones::FileZones;
use drive_port::Halt;
use file_bytes::FileBytes;
use std::alloc::Global;
use zone_drive::Drive;

/// The drive in memory with the zones of a file that was opened. The file is not written. It has `Failed` if the file
/// cannot be read, and `Memory` where memory is missing.
pub fn load<F: FileBytes + Drop, S: System + Drop>(
    alloc: Global,
    file: F,
    system: S,
    found: Found,
) -> Result<Drive, Halt>
    requires { IsOpened F.FileBytes.seen F.FileBytes.may_leave F.FileBytes.is_usable S.System.boot file found }
    ensures { IfOk result (λ drive. drive ≡ made (unused found.head.geometry (zones_of found.head.geometry.block
        (zones_in found.head.geometry (F.FileBytes.seen file) 0 found.entries.items)))) }
{
    let geometry = found.head.geometry;
    let mut zones = FileZones::new(file, system, found);
    copy_zones(alloc, geometry, &mut zones)
}
