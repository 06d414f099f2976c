ghost use Rattle.std.specs.Prelude.{◌≡◌, ◌≤◌, ◌++◌, List, OnOk};
ghost use Rattle.zone_states.specs.Zone.{Zone};
ghost use Rattle.drive_port.specs.Drive.{DriveState, IsClosing, IsLawful, active_count, open_count};
ghost use Rattle.drive_port.specs.Contents.{bytes_at, contents};
ghost use Rattle.drive_port.specs.Run.{restarted};

use crate::calls::{PortFault, read_extending};
use crate::device::{Device, Honest};

/// A closing of zones keeps their contents.
pub fn closing_keeps_contents()
    ensures { (old new : List Zone) → IsClosing old new → contents new ≡ contents old }
{}

/// Closing no zone is a closing, and two closings one after the other are one.
pub fn closings_join()
    ensures none { (zones : List Zone) → IsClosing zones zones }
    ensures both { (old middle new : List Zone) → IsClosing old middle → IsClosing middle new
        → IsClosing old new }
{}

/// A closing keeps the number of active zones, and opens no zone.
pub fn closing_takes_no_resource()
    ensures active { (old new : List Zone) → IsClosing old new
        → active_count new ≡ active_count old }
    ensures open_zones { (old new : List Zone) → IsClosing old new
        → open_count new ≤ open_count old }
{}

/// A restart keeps the contents of a drive, and a lawful drive lawful.
pub fn restart_keeps_contents()
    ensures contents { (drive : DriveState)
        → contents (restarted drive).zones ≡ contents drive.zones }
    ensures lawful { (drive : DriveState) → IsLawful drive → IsLawful (restarted drive) }
{}

/// What a Read of an honest device returns is what the device holds, with no condition.
pub fn read_strictly<D: Device + Honest>(
    device: &mut D,
    slba: u64,
    into: &mut Vec<u8>,
) -> Result<(), PortFault>
    ensures { OnOk result (into.new.items ≡ into.old.items ++ bytes_at (D.drive device.old).geometry
        (contents (D.drive device.old).zones) slba 1) }
{
    let result = read_extending(device, slba, 1, into);
    device.vouch();
    result
}
