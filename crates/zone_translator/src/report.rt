ghost use Rattle.std.specs.Prelude.{◌≡◌, ◌+◌, ◌≤◌, IfErr, IfOk, IsTrue};
ghost use Rattle.zone_choice.specs.Agreement.{Agrees};
ghost use Rattle.zone_choice.specs.Changes.{KeepsArray};
ghost use Rattle.zone_choice.specs.Sane.{IsSane, KeepsShape};
ghost use Rattle.zone_translator.specs.Calls.{ReportsAll};
ghost use Rattle.zone_translator.specs.Read.{IsReadFault};

use crate::fault::DiskFault;
use crate::room::fault_of;
use drive_port::{Device, report};
use nvme_wire::ReportingOptions;
use zone_choice::Mounted;

/// The dwords of a report's head, and of each descriptor.
const DESCRIPTOR_DWORDS: u64 = 16;

/// A report of all zones of the drive, with room for a descriptor of each.
pub(crate) fn report_all<D: Device>(disk: &mut Mounted<D>) -> Result<Vec<u8>, DiskFault>
    requires sane { IsSane disk.old }
    // While the drive is clean, tables and drive agree. Then they do after it, and the array is the same.
    requires agrees { IsTrue disk.old.drive.clean → Agrees disk.old }
    ensures kept { IsTrue disk.new.drive.clean → KeepsArray disk.old disk.new }
    ensures tables { disk.new.tables ≡ disk.old.tables }
    ensures shape { KeepsShape disk.old.drive disk.new.drive }
    // Done, the bytes are a report of all zones. Refused, it is out of memory, or the drive has stopped.
    ensures zones { IfOk result (λ bytes. ReportsAll disk.old.drive bytes.items disk.new.drive) }
    ensures err { IfErr result (IsReadFault disk.new.drive) }
    // It completes one command at most.
    ensures completed { disk.new.drive.completed ≤ disk.old.drive.completed + 1 }
{
    let zones = disk.geometry().zones as u64;
    let dwords = DESCRIPTOR_DWORDS * (1 + zones);
    let mut bytes = Vec::new(disk.alloc);
    if let Err(fault) = report(
        &mut disk.device,
        0,
        ReportingOptions::AnyState,
        false,
        dwords,
        &mut bytes,
    ) {
        return Err(fault_of(fault));
    }
    Ok(bytes)
}
