ghost use Rattle.std.specs.Prelude.{◌≡◌, IfErr, IfOk, IsTrue, replicate};
ghost use Rattle.drive_port.specs.Run.{restarted};
ghost use Rattle.zone_drive.specs.Habits.{made};
ghost use Rattle.zone_drive.specs.Stored.{unused};
ghost use Rattle.file_drive.specs.Faults.{IsCallFault, IsReadFault};
ghost use Rattle.file_drive.specs.Layout.{file_length};

use crate::boot::System;
use crate::fault::OpenFault;
use crate::loading::load;
use crate::opening::open;
use crate::storing::store;
use drive_port::Halt;
use file_bytes::FileBytes;
use std::alloc::Global;
use std::io;
use zone_drive::Drive;

/// What a halt of a load is to an open.
fn fault_of(halt: Halt) -> OpenFault
    ensures { IsReadFault result }
{
    match halt {
        Halt::Memory => OpenFault::OutOfMemory,
        Halt::Failed | Halt::Stopped => OpenFault::Input(io::Error::other(
            "the file cannot be read",
        )),
    }
}

/// Stores a drive in a file of zeros, as long as it wants, opens the file, and loads the drive from it: it is the same
/// drive, as a restart leaves it. Only a call on the file, or missing memory, is in its way.
pub fn store_and_load<F: FileBytes + Drop, S: System + Drop>(
    alloc: Global,
    file: F,
    system: S,
    drive: &Drive,
) -> Result<Drive, OpenFault>
    requires zeros { F.FileBytes.seen file ≡ replicate (file_length drive.now.state.geometry) 0 }
    requires usable { IsTrue (F.FileBytes.is_usable file) }
    ensures ok { IfOk result (λ again.
        again ≡ made (unused drive.now.state.geometry (restarted drive.now.state).zones)) }
    ensures err { IfErr result IsCallFault }
{
    let mut file = file;
    store(&mut file, drive)?;
    let found = open(alloc, &mut file, &system)?;
    match load(alloc, file, system, found) {
        Ok(again) => Ok(again),
        Err(halt) => Err(fault_of(halt)),
    }
}
