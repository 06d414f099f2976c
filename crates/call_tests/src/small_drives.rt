// A small drive with three zones, and what is sent to it.

ghost use Rattle.std.specs.Prelude.{◌≡◌, false};
ghost use Rattle.nvme_wire.specs.Entry.{IsAdmitted};

use crate::first_looks::first_seen;
use drive_port::{Device, Halt, append, read};
use nvme_wire::{Action, Command, ReportingOptions};
use passthrough::{PassthroughDrive, ReadAhead, Through};
use std::alloc::Global;
use yardsticks::restarted;
use zone_drive::Drive;
use zone_states::Geometry;

/// Zones of 6 blocks in 8.
pub const GEOMETRY: Geometry = Geometry {
    block: 512,
    zones: 3,
    size: 8,
    capacity: 6,
    transfer: 4,
    active: 3,
    open: 3,
};

/// The byte of the blocks of the first zone.
const FIRST: u8 = 0x11;

/// The byte of the blocks of the second zone.
const SECOND: u8 = 0x22;

/// A drive with three blocks in its first zone, a Full second one, and an Empty third.
pub fn drive(alloc: Global) -> Option<Drive> {
    let mut drive = Drive::new(alloc, GEOMETRY).ok()?;
    if drive.geometry().block != 512 {
        return None;
    }
    append(alloc, &mut drive, 0, &[FIRST; 3 * 512]).ok()?;
    append(alloc, &mut drive, 8, &[SECOND; 4 * 512]).ok()?;
    append(alloc, &mut drive, 8, &[SECOND; 2 * 512]).ok()?;
    Some(drive)
}

/// Whether a Read gives this byte in all blocks.
pub fn reads<D: Device>(
    alloc: Global,
    device: &mut D,
    address: u64,
    blocks: u32,
    byte: u8,
) -> bool {
    if blocks == 0 || blocks > 4 {
        return false;
    }
    let mut room = Vec::new(alloc);
    let done = read(device, address, blocks, &mut room).is_ok();
    done && room.len() == blocks as usize * 512 && room.iter().all(|&found| found == byte)
}

/// Whether a drive still holds the blocks of its first zone and, if wanted, of its second.
pub fn holds(alloc: Global, drive: &Drive, second: bool) -> bool {
    let Some(mut again) = restarted(alloc, drive) else {
        return false;
    };
    let Some(seen) = first_seen(alloc, &mut again) else {
        return false;
    };
    let way = ReadAhead::new(alloc, Through::new(alloc, again));
    let Ok(mut device) = PassthroughDrive::new(alloc, way, seen) else {
        return false;
    };
    let first = reads(alloc, &mut device, 0, 3, FIRST);
    first && (!second || reads(alloc, &mut device, 8, 4, SECOND))
}

/// The commands that are sent, by number.
pub const COMMANDS: u32 = 7;

/// The number of the Flush.
pub const FLUSH: u32 = 0;

/// The number of the Read.
pub const READ: u32 = 1;

/// The number of the Append.
pub const APPEND: u32 = 2;

/// The number of the Close of the first zone.
pub const CLOSE: u32 = 3;

/// The number of the Finish of the first zone.
pub const FINISH: u32 = 4;

/// The number of the Reset of the second zone.
pub const RESET: u32 = 5;

/// The number of the report.
pub const REPORT: u32 = 6;

/// An action on the zone that starts there.
pub fn action(slba: u64, action: Action) -> Command
    ensures exact { result ≡ Command.Send slba action false }
    ensures admitted { IsAdmitted result }
{
    Command::Send {
        slba,
        action,
        all: false,
    }
}

/// The command with a number.
pub fn command(number: u32) -> Command
    ensures { IsAdmitted result }
{
    match number {
        READ => Command::Read { slba: 0, blocks: 3 },
        APPEND => Command::Append {
            zslba: 16,
            blocks: 1,
        },
        CLOSE => action(0, Action::Close),
        FINISH => action(0, Action::Finish),
        RESET => action(8, Action::Reset),
        REPORT => Command::Receive {
            slba: 0,
            dwords: 64,
            options: ReportingOptions::AnyState,
            partial: true,
        },
        _ => Command::Flush,
    }
}

/// Submits the command with a number: why it was not completed, if it was not.
pub fn halt_at<D: Device>(alloc: Global, device: &mut D, number: u32) -> Option<Halt> {
    let block = [0x33; 512];
    let bytes = if number == APPEND { &block[..] } else { &[] };
    let mut into = Vec::new(alloc);
    let entry = command(number).encode(0);
    device.submit(&entry, bytes, &mut into).err()
}

/// Whether a device does the command with a number.
pub fn does<D: Device>(alloc: Global, device: &mut D, number: u32) -> bool {
    halt_at(alloc, device, number).is_none()
}
