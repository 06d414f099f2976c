// A drive that is repaired, or only looked at.

ghost use Rattle.std.specs.Prelude.{IfErr, IfOk, IsTrue};
ghost use Rattle.drive_inspection.specs.Findings.{AreByReport, AreFindings};
ghost use Rattle.drive_survey.specs.Reported.{KeepsZones};
ghost use Rattle.tail_repair.specs.Repair.{KeepsBatches, LookFails};
ghost use Rattle.tool_jobs.specs.Asked.{any_text};
ghost use Rattle.tool_jobs.specs.Telling.{TellsFound};
ghost use Rattle.repair_jobs.specs.Jobs.{AreTailsOf, IsUntold, ListFails, MendsDrive, SaysWhether, TellsMended};

use crate::fault::{RepairJobFault, untold};
use crate::lists::TailLines;
use drive_inspection::{Findings, check_drive};
use drive_port::Device;
use std::alloc::Global;
use std::io::Write;
use tail_repair::{MovedZone, RepairFault, find_tails, repair_tails};
use tool_jobs::{CheckForm, tell};

/// What became of a drive that was repaired.
#[derive(Drop)]
pub struct Mended {
    /// The zones that were repaired, in ascending order.
    pub moved: Vec<MovedZone>,
    /// All faults that the drive has then, as a check finds them. Or what ended the search for them.
    pub found: Result<Findings, RepairFault>,
}

/// Tells which zones of a drive end in something foreign, and whether there is none. The drive is only read.
pub fn list_tails<D: Device, W: Write>(
    alloc: Global,
    device: &mut D,
    output: &mut W,
) -> Result<bool, RepairJobFault>
    // While the drive is clean, just these zones are told. A fault has its cause.
    ensures ok { IsTrue (D.drive device.new).clean → IfOk result (λ none. TellsFound
        (AreTailsOf (D.drive device.old) none) any_text (W.contents output.old) (W.contents output.new)) }
    ensures cause { IsTrue (D.drive device.new).clean
        → IfErr result (ListFails (D.drive device.old) (D.drive device.new)) }
    // Whatever the Reads returned, it is said whether any was told, and zones hold what they held.
    ensures told { IfOk result (λ none. TellsFound (SaysWhether none) any_text
        (W.contents output.old) (W.contents output.new)) }
    ensures err { IfErr result (λ fault. IsUntold fault (W.contents output.old) (W.contents output.new)) }
    ensures kept { KeepsZones (D.drive device.old) (D.drive device.new) }
{
    let tails = match find_tails(alloc, device) {
        Ok(tails) => tails,
        Err(fault) => return Err(RepairJobFault::Repair(fault)),
    };
    match tell(alloc, &TailLines, &tails, output) {
        Ok(()) => Ok(tails.is_empty()),
        Err(fault) => Err(untold(fault)),
    }
}

/// All faults of a drive, as a check finds them. What does not fit together ends that by `Unfinished`.
fn find_faults<D: Device>(alloc: Global, device: &mut D) -> Result<Findings, RepairFault>
    ensures ok { IsTrue (D.drive device.new).clean
        → IfOk result (AreFindings (D.drive device.old) (D.drive device.new) 1) }
    ensures err { IsTrue (D.drive device.new).clean → IfErr result (LookFails (D.drive device.new)) }
    // Whatever the Reads returned, what reports tell is found, and zones hold what they held.
    ensures reported { IfOk result (AreByReport (D.drive device.old)) }
    ensures kept { KeepsZones (D.drive device.old) (D.drive device.new) }
{
    match check_drive(alloc, device, 1) {
        Ok(findings) => Ok(findings),
        Err(fault) => Err(RepairFault::from(fault)),
    }
}

/// Repairs each zone of a drive that ends in something foreign, and looks for all faults that the drive has then. A
/// repair that was stopped, or that the drive failed at, can be done again.
pub fn mend<D: Device>(alloc: Global, device: &mut D) -> Result<Mended, RepairJobFault>
    // What speaks of bytes that were read is promised while the drive is clean (`Mends`).
    ensures mends { MendsDrive (D.drive device.old) result (D.drive device.new) }
    ensures batches { IsTrue (D.drive device.new).clean
        → KeepsBatches (D.drive device.old) (D.drive device.new) }
{
    let moved = match repair_tails(alloc, device) {
        Ok(moved) => moved,
        Err(fault) => return Err(RepairJobFault::Repair(fault)),
    };
    let found = find_faults(alloc, device);
    Ok(Mended { moved, found })
}

/// Tells all faults that a drive has after a repair, and whether it can be mounted.
pub fn tell_found<W: Write>(
    alloc: Global,
    found: &Result<Findings, RepairFault>,
    output: &mut W,
) -> Result<bool, RepairJobFault>
    ensures ok { IfOk result (λ mountable. TellsMended found.now mountable
        (W.contents output.old) (W.contents output.new)) }
    ensures err { IfErr result (λ fault. IsUntold fault (W.contents output.old) (W.contents output.new)) }
{
    let findings = match found {
        Ok(findings) => findings,
        Err(fault) => return Err(RepairJobFault::Repair(*fault)),
    };
    match tell(alloc, &CheckForm::Lines, findings, output) {
        Ok(()) => Ok(findings.refusal.is_none()),
        Err(fault) => Err(untold(fault)),
    }
}
