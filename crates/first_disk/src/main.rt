//! A first disk: a small drive in memory, mounted as nine logical blocks, of which three are written and read back. It
//! shows all that a program needs to stand on zonedisk's libraries.
//!
//! # What is promised
//!
//! What `write_and_read` shows is what it wrote. What `fill_once` leaves is found again after a restart.
#![tactic(auto)]

ghost use Rattle.std.specs.Prelude.{◌≡◌, ◌*◌, IfOk, OnOk, length};
ghost use Rattle.drive_port.specs.Calls.{block_count};
ghost use Rattle.first_disk.specs.Found.{IsFoundAgain};

use drive_port::{Device, Geometry, Honest};
use std::alloc::Global;
use std::io;
use zone_drive::{Drive, DriveFault};
use zone_translator::laws::{answered_is_found, written_reads_back};
use zone_translator::{Disk, DiskFault, MountFault};

/// Four zones of 6 blocks of 512 bytes, in steps of 8 addresses.
const GEOMETRY: Geometry = Geometry {
    block: 512,
    zones: 4,
    size: 8,
    capacity: 6,
    transfer: 4,
    active: 2,
    open: 2,
};

/// How many logical blocks the disk has.
const BLOCKS: u64 = 9;

/// Writes these bytes, which are `blocks` whole blocks, from the block `first` on, and reads them back:
/// where both calls are done, `shown` holds these bytes.
fn write_and_read<D: Device + Honest + Drop>(
    disk: &mut Disk<D>,
    first: u64,
    blocks: u64,
    bytes: &[u8],
    shown: &mut Vec<u8>,
) -> Result<(), DiskFault>
    requires whole { length bytes.now
        ≡ block_count disk.old.drive.geometry bytes.now * disk.old.drive.geometry.block }
    requires blocks { blocks ≡ block_count disk.old.drive.geometry bytes.now }
    ensures { OnOk result (shown.new.items ≡ bytes.now) }
{
    written_reads_back(disk);
    disk.write(first, bytes)?;
    disk.read(first, blocks, shown)
}

/// Mounts a drive, fills blocks, and gives the drive back, whatever the fill answers: the drive may have stopped.
/// Once it is restarted it can be mounted, and each disk that is mounted on it has the array that the fill left.
fn fill_once<D: Device + Honest + Drop>(
    alloc: Global,
    device: D,
    first: u64,
    blocks: u64,
) -> Result<D, MountFault>
    ensures { IfOk result (λ left. IsFoundAgain (D.drive left)) }
{
    answered_is_found();
    let mut disk = match Disk::mount(alloc, device, BLOCKS) {
        Ok(disk) => disk,
        Err((fault, _device)) => return Err(fault),
    };
    let _ = disk.fill(first, blocks, 0xaa);
    Ok(disk.into_device())
}

/// Why the blocks were not written and read back.
#[derive(Clone, Copy, Debug)]
enum Fault {
    Drive(DriveFault),
    Mount(MountFault),
    Disk(DiskFault),
}

/// Makes a drive, mounts it as a disk, writes three blocks, and reads them back into `shown`. Gives how many commands
/// the drive has completed by then. After that it is mounted again, and one more block is filled.
fn use_disk(alloc: Global, shown: &mut Vec<u8>) -> Result<u64, Fault> {
    let drive = match Drive::new(alloc, GEOMETRY) {
        Ok(drive) => drive,
        Err(fault) => return Err(Fault::Drive(fault)),
    };
    let mut disk = match Disk::mount(alloc, drive, BLOCKS) {
        Ok(disk) => disk,
        Err((fault, _drive)) => return Err(Fault::Mount(fault)),
    };
    if let Err(fault) = write_and_read(&mut disk, 2, 3, &[0xaa; 3 * 512], shown) {
        return Err(Fault::Disk(fault));
    }
    let drive = disk.into_device();
    let commands = drive.completed();
    match fill_once(alloc, drive, 5, 1) {
        Ok(_drive) => Ok(commands),
        Err(fault) => Err(Fault::Mount(fault)),
    }
}

fn main(rt: HostRuntime) -> io::Result<()> {
    let mut shown = Vec::new(rt.alloc());
    match use_disk(rt.alloc(), &mut shown) {
        Ok(commands) => {
            println!(rt; "{} bytes were written and read back", shown.len())?;
            println!(rt; "{commands} commands were completed")
        }
        Err(fault) => println!(rt; "refused: {fault:?}"),
    }
}
