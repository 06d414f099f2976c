ghost use Rattle.std.specs.Prelude.{◌≡◌, IfOk};
ghost use Rattle.drive_port.specs.Drive.{IsLawful};
ghost use Rattle.drive_rescue.specs.Sources.{damaged_once_failed};
ghost use Rattle.drive_rescue.specs.Zones.{TellsAll, read_zones};
ghost use Rattle.drive_survey.specs.Reported.{KeepsZones};
ghost use Rattle.zone_choice.specs.Changes.{IsHalt};
ghost use Rattle.zone_states.specs.Geometry.{IsInRange};

use crate::source::{Reading, Source};
use drive_port::{Device, Halt, Honest, PortFault, read};
use drive_survey::{MountFault, ReportedZone, report_zones};
use std::alloc::Global;
use zone_states::Geometry;

/// A device as a source. A block is unreadable if the device fails at a Read of it.
#[derive(Drop)]
pub struct DeviceSource<D: Device + Drop> {
    device: D,
}

impl<D: Device + Honest + Drop> DeviceSource<D> {
    /// The device is only read.
    pub fn new(device: D) -> Self
        ensures { ⟦<DeviceSource<D> as Source>⟧.view result ≡ damaged_once_failed (D.drive device) }
    {
        DeviceSource { device }
    }

    /// The device within.
    pub fn into_inner(self) -> D
        ensures { D.drive result ≡ D.drive self.device }
    {
        self.device
    }
}

/// What a Read told that was not done. No drive refuses one.
fn reading_of(fault: PortFault) -> Result<Reading, Halt>
    requires { IsHalt fault }
    ensures { IfOk result (λ reading. (reading ≡ Reading.Unreadable) × (fault ≡ PortFault.Failed)) }
{
    match fault {
        PortFault::Failed => Ok(Reading::Unreadable),
        PortFault::Memory => Err(Halt::Memory),
        PortFault::Stopped => Err(Halt::Stopped),
        PortFault::Refused(_) => unreachable!(),
    }
}

/// The zones as a device reports them.
pub(crate) fn report_of<D: Device>(alloc: Global, device: &mut D) -> Result<Vec<ReportedZone>, Halt>
    requires range { IsInRange (D.drive device.old).geometry }
    requires lawful { IsLawful (D.drive device.old) }
    ensures ok { IfOk result (λ reported. TellsAll (D.drive device.old).geometry.capacity
        (read_zones (D.drive device.old)) reported.items) }
    ensures kept { KeepsZones (D.drive device.old) (D.drive device.new) }
{
    match report_zones(alloc, device) {
        Ok(zones) => Ok(zones),
        Err(MountFault::OutOfMemory) => Err(Halt::Memory),
        Err(MountFault::Failed) => Err(Halt::Failed),
        Err(_) => Err(Halt::Stopped),
    }
}

impl<D: Device + Honest + Drop> Source for DeviceSource<D> {
    ghost view = { λ s. damaged_once_failed (D.drive s.device) };

    fn geometry(&self) -> Geometry {
        self.device.geometry()
    }

    fn report(&mut self, alloc: Global) -> Result<Vec<ReportedZone>, Halt> {
        report_of(alloc, &mut self.device)
    }

    fn read(&mut self, number: u32, offset: u32, into: &mut Vec<u8>) -> Result<Reading, Halt> {
        let address = self.device.geometry().start_of(number) + offset as u64;
        match read(&mut self.device, address, 1, into) {
            Ok(()) => {
                self.device.vouch();
                Ok(Reading::Held)
            }
            Err(fault) => reading_of(fault),
        }
    }
}
