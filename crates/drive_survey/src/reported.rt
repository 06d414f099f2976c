ghost use Rattle.std.specs.Prelude.{◌≡◌, ◌+◌, ◌<◌, ◌≤◌, ◌^◌, List, length, IfErr, IfOk};
ghost use Rattle.drive_port.specs.Drive.{IsLawful};
ghost use Rattle.drive_survey.specs.Reported.{AreReported, DescribesZone, IsReported, KeepsZones, ReportsZones};
ghost use Rattle.drive_survey.specs.Reported.{TellsZones};
ghost use Rattle.drive_survey.specs.Scan.{IsInterruption, mount_fault};
ghost use Rattle.zone_choice.specs.Changes.{IsHalt};
ghost use Rattle.zone_states.specs.Geometry.{IsInRange};
ghost use Rattle.zone_states.specs.Zone.{Zone};
ghost use Rattle.zone_states.specs.declared.geometry.Geometry.{Geometry};

use crate::fault::MountFault;
use drive_port::{Device, PortFault, report};
use nvme_wire::{Descriptor, ReportingOptions, ZoneState};
use std::alloc::{AllocError, Global};

/// What a report tells of a zone.
#[derive(Clone, Copy, Debug, PartialEq, Eq)]
pub struct ReportedZone {
    /// The state of the zone.
    pub state: ZoneState,
    /// How many blocks of the zone a host reads: the written ones and, in a Full zone, all up to the capacity.
    pub blocks: u32,
}

/// The dwords of a report's head, and of each descriptor.
const DESCRIPTOR_DWORDS: u64 = 16;

/// What a fault of a command is to a mount. The drive refuses no command of a mount.
pub fn fault_of(fault: PortFault) -> MountFault
    requires { IsHalt fault }
    ensures { result ≡ mount_fault fault }
{
    match fault {
        PortFault::Memory => MountFault::OutOfMemory,
        PortFault::Failed => MountFault::Failed,
        PortFault::Stopped => MountFault::Halted,
        PortFault::Refused(_) => unreachable!(),
    }
}

/// How many blocks of a zone a host reads, as its descriptor tells.
fn readable_blocks(descriptor: &Descriptor, capacity: u32) -> u32
    ensures { (geometry : Geometry) (zone : Zone) → DescribesZone geometry capacity zone descriptor.now
        → IsReported geometry zone (record { state = descriptor.now.state; blocks = result }) }
{
    if descriptor.state == ZoneState::Full {
        return capacity;
    }
    match descriptor.pointer {
        Some(pointer) => pointer
            .saturating_sub(descriptor.start)
            .min(capacity as u64) as u32,
        None => 0,
    }
}

/// The zones that the descriptors of a report tell of.
fn read_descriptors(
    alloc: Global,
    bytes: &[u8],
    capacity: u32,
) -> Result<Vec<ReportedZone>, AllocError>
    ensures { IfOk result (λ reported. (geometry : Geometry) (zones : List Zone)
        → TellsZones geometry capacity zones bytes.now → AreReported geometry zones reported.items) }
{
    let mut rest = bytes;
    let mut reported = Vec::new(alloc);
    while let Some((front, after)) = rest.split_first_chunk::<64>() {
        let Ok(descriptor) = Descriptor::decode(front) else {
            return Ok(reported);
        };
        reported.push(ReportedZone {
            state: descriptor.state,
            blocks: readable_blocks(&descriptor, capacity),
        })?;
        rest = after;
    }
    Ok(reported)
}

/// One report of all zones.
pub fn report_zones<D: Device>(
    alloc: Global,
    device: &mut D,
) -> Result<Vec<ReportedZone>, MountFault>
    requires geometry { IsInRange (D.drive device.old).geometry }
    requires lawful { IsLawful (D.drive device.old) }
    // Done, all zones were reported in their states at one moment of the call.
    ensures ok { IfOk result (λ reported. ReportsZones (D.drive device.old) reported.items (D.drive device.new)) }
    // It fails only if the drive stops or memory runs out.
    ensures err { IfErr result (IsInterruption (D.drive device.new)) }
    // Whatever it answers, it took one command at most, and the zones hold what they held.
    ensures kept { KeepsZones (D.drive device.old) (D.drive device.new) }
    ensures completed { (D.drive device.new).completed ≤ (D.drive device.old).completed + 1 }
{
    let geometry = device.geometry();
    let dwords = DESCRIPTOR_DWORDS * (1 + geometry.zones as u64);
    let mut bytes = Vec::new(alloc);
    if let Err(fault) = report(
        device,
        0,
        ReportingOptions::AnyState,
        false,
        dwords,
        &mut bytes,
    ) {
        return Err(fault_of(fault));
    }
    let reported = read_descriptors(alloc, &bytes[64..], geometry.capacity)?;
    Ok(reported)
}
