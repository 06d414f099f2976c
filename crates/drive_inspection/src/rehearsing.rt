//! A mount of a drive that is thrown away.

ghost use Rattle.std.specs.Prelude.{◌≡◌, IfErr, IfOk, IsTrue};
ghost use Rattle.zone_states.specs.declared.geometry.Geometry.{Geometry};
ghost use Rattle.drive_survey.specs.Scan.{FailsBy};
ghost use Rattle.drive_survey.specs.Survey.{MayAsk};
ghost use Rattle.zone_choice.specs.Sane.{KeepsShape};
ghost use Rattle.remount.specs.Kept.{Stays};
ghost use Rattle.remount.specs.Mount.{MountFails};
ghost use Rattle.drive_inspection.specs.Found.{IsNoFinding};
ghost use Rattle.drive_inspection.specs.Info.{CountsInspected, CountsMount, IsGivenUp, IsInspected, Rehearses};
ghost use Rattle.drive_inspection.specs.Info.{batches_left};

use crate::info::{InspectedDrive, Rehearsal};
use crate::inspecting::inspect_drive;
use drive_counter::Tally;
use drive_port::Device;
use drive_survey::MountFault;
use remount::mount;
use std::alloc::Global;
use zone_states::Geometry;

/// How many batches the host can write from this sequence on.
fn batches_left(geometry: &Geometry, next: u64) -> u64
    ensures { result ≡ batches_left geometry.now next }
{
    let limit = (1u64 << 63).saturating_sub(u64::from(geometry.capacity));
    limit.saturating_sub(next)
}

/// Mounts a drive as `given` logical blocks if no header says how many, and forgets the tables. So it tells what a
/// mount takes. The drive is for this use only.
pub fn rehearse_mount<D: Device>(
    alloc: Global,
    device: &mut D,
    given: u64,
) -> Result<Rehearsal, MountFault>
    // While the drive is clean: done, it was mounted, and this is what that took. A fault is the one by which a mount
    // is refused, unless the drive halts or memory runs out.
    ensures ok { IsTrue (D.drive device.new).clean
        → IfOk result (Rehearses (D.drive device.old) (D.drive device.new) given) }
    ensures err { IsTrue (D.drive device.new).clean
        → IfErr result (FailsBy (MountFails (D.drive device.old) given) (D.drive device.new)) }
    // Whatever the Reads returned: done, the commands are counted, and the geometry and the number are in range.
    ensures counts { IfOk result (CountsMount (D.drive device.old) (D.drive device.new)) }
    ensures asked { IfOk result (λ _. MayAsk (D.drive device.old) given) }
    ensures stays { Stays (D.drive device.old) (D.drive device.new) }
{
    let geometry = device.geometry();
    let before = device.completed();
    let tables = mount(alloc, device, given)?;
    let next = tables.next();
    Ok(Rehearsal {
        commands: device.completed().saturating_sub(before),
        next,
        left: batches_left(&geometry, next),
    })
}

/// Looks at a drive, and then rehearses a mount of it, whose commands are counted. What is left of the drive is given
/// back. The fault is `Halted` (the drive has stopped), `Failed` (it failed at a command) or `OutOfMemory`; or
/// `Damaged`, which never comes while the drive is clean. A halt in the rehearsal is told as how that mount ended.
pub fn inspect_and_rehearse<D: Device + Drop>(
    alloc: Global,
    device: D,
    given: u64,
) -> (D, Result<InspectedDrive, MountFault>)
    // While the drive is clean: done, it was looked at and then mounted. It fails only if the drive halts or memory
    // runs out.
    ensures ok { IsTrue (D.drive result.0).clean → IfOk result.1 (IsInspected (D.drive device) given) }
    ensures err { IsTrue (D.drive result.0).clean → IfErr result.1 (IsGivenUp (D.drive device)) }
    // Whatever the Reads returned, the report is true, and the commands of a mount are counted.
    ensures counts { IfOk result.1 (CountsInspected (D.drive device)) }
    // Whatever it answers, a failure tells nothing of what the drive holds, and the geometry is the same.
    ensures kinds { IfErr result.1 IsNoFinding }
    ensures shape { KeepsShape (D.drive device) (D.drive result.0) }
{
    let mut device = device;
    let info = match inspect_drive(alloc, &mut device, given) {
        Ok(info) => info,
        Err(fault) => return (device, Err(fault)),
    };
    let mut tally = Tally::new(device);
    let mounted = rehearse_mount(alloc, &mut tally, given);
    let counts = tally.counts();
    let device = tally.into_inner();
    match mounted {
        Err(MountFault::OutOfMemory) => (device, Err(MountFault::OutOfMemory)),
        Err(MountFault::Damaged) => (device, Err(MountFault::Damaged)),
        mounted => {
            let inspected = InspectedDrive {
                info,
                mounted,
                counts,
            };
            (device, Ok(inspected))
        }
    }
}
