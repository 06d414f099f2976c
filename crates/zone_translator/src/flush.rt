ghost use Rattle.std.specs.Prelude.{◌≡◌, ◌+◌, ◌≤◌, IfErr, IsTrue, OnErr, OnOk};
ghost use Rattle.drive_port.specs.Durable.{IsDurable, MayBeDurable};
ghost use Rattle.zone_choice.specs.Agreement.{Agrees};
ghost use Rattle.zone_choice.specs.Changes.{KeepsArray};
ghost use Rattle.zone_choice.specs.Sane.{KeepsShape};
ghost use Rattle.zone_translator.specs.Read.{IsReadFault, hardened};

use crate::fault::DiskFault;
use crate::room::fault_of;
use drive_port::{Device, flush};
use zone_choice::Mounted;

/// A Flush of the drive.
pub(crate) fn flush_drive<D: Device>(disk: &mut Mounted<D>) -> Result<(), DiskFault>
    // While the drive is clean, tables and drive agree. Then they do after it, and the array is the same.
    requires agrees { IsTrue disk.old.drive.clean → Agrees disk.old }
    ensures kept { IsTrue disk.new.drive.clean → KeepsArray (hardened disk.old disk.new) disk.new }
    ensures tables { disk.new.tables ≡ disk.old.tables }
    ensures shape { KeepsShape disk.old.drive disk.new.drive }
    // Done, a loss of power leaves the drive as it is. Refused, it is out of memory, or the drive has stopped.
    ensures durable { OnOk result (IsDurable disk.new.drive) }
    ensures may { OnErr result (MayBeDurable disk.old.drive disk.new.drive) }
    ensures err { IfErr result (IsReadFault disk.new.drive) }
    // It completes one command at most.
    ensures completed { disk.new.drive.completed ≤ disk.old.drive.completed + 1 }
{
    if let Err(fault) = flush(disk.alloc, &mut disk.device) {
        return Err(fault_of(fault));
    }
    Ok(())
}
