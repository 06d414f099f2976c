// The line by which a program tells why a drive is not repaired.

ghost use Rattle.std.specs.Prelude.{◌≡◌, ◌++◌, IfOk, OnOk};
ghost use Rattle.repair_jobs.specs.FaultText.{fault_name, fault_number, fault_zone, repair_fault_text};

use drive_port::Halt;
use std::alloc::{AllocError, Global};
use std::io::Write;
use tail_repair::RepairFault;

/// The number of a fault in the list of them, and its name.
fn refusal(fault: RepairFault) -> (u8, &'static str)
    ensures number { result.0 ≡ fault_number fault }
    ensures name { result.1.now ≡ fault_name fault }
{
    match fault {
        RepairFault::Limits => (1, "Limits"),
        RepairFault::Unusable(_) => (2, "Unusable"),
        RepairFault::Unsound(_) => (3, "Unsound"),
        RepairFault::Behind(_, _) => (4, "Behind"),
        RepairFault::NoEmptyZone => (5, "NoEmptyZone"),
        RepairFault::Halted(Halt::Stopped) => (6, "Halted"),
        RepairFault::Halted(Halt::Memory) => (7, "OutOfMemory"),
        RepairFault::Unfinished => (8, "Unfinished"),
        RepairFault::Halted(Halt::Failed) => (9, "Failed"),
    }
}

/// Adds the zone that a fault names, and the block of it, if it names any; and ends the line.
fn end_line(fault: RepairFault, line: &mut Vec<u8>) -> Result<(), AllocError>
    ensures { OnOk result (line.new.items ≡ line.old.items ++ fault_zone fault) }
{
    match fault {
        RepairFault::Unusable(zone) | RepairFault::Unsound(zone) => {
            writeln!(line, " {zone}").map_err(|_| AllocError)
        }
        RepairFault::Behind(zone, block) => {
            writeln!(line, " {zone} {block}").map_err(|_| AllocError)
        }
        _ => line.extend_from_slice(b"\n"),
    }
}

/// The line by which a program tells the fault.
pub fn repair_fault_line(alloc: Global, fault: RepairFault) -> Result<Vec<u8>, AllocError>
    ensures { IfOk result (λ line. line.items ≡ repair_fault_text fault) }
{
    let (number, name) = refusal(fault);
    let mut line = Vec::new(alloc);
    write!(line, "fault repair {number} {name}").map_err(|_| AllocError)?;
    end_line(fault, &mut line)?;
    Ok(line)
}
