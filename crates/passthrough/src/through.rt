ghost use Rattle.std.specs.Prelude.{◌≡◌};

use crate::passthrough::Passthrough;
use drive_port::{Device, Honest};
use nvme_wire::{Command, Completion, Status};
use std::alloc::Global;
use std::marker::Model;
use zone_states::Geometry;

/// What is answered for a command that the device refused, or did not complete. No status has this number.
const SILENT: u16 = 0xffff;

/// A way to a device: commands can be passed through to a drive in memory, too.
///
/// It tells only of commands that succeeded. For each other answer of the device, and where it halted, the answer is
/// one number that is no status.
#[derive(Drop)]
pub struct Through<D: Device + Honest + Drop> {
    device: D,
    // What the last command returned.
    returned: Vec<u8>,
}

impl<D: Device + Honest + Drop> Model for Through<D> {
    ghost use Rattle.drive_port.specs.Drive.{DriveState};

    ghost Value = { DriveState };

    ghost view = { λ t. D.drive t.device };
}

impl<D: Device + Honest + Drop> Through<D> {
    /// A way to this device.
    pub fn new(alloc: Global, device: D) -> Self
        ensures { result ≡ D.drive device }
    {
        Through {
            device,
            returned: Vec::new(alloc),
        }
    }

    /// The device.
    pub fn device(&self) -> &D
        ensures { D.drive result.now ≡ self.now }
    {
        &self.device
    }

    /// The device, taken out.
    pub fn into_inner(self) -> D
        ensures { D.drive result ≡ self }
    {
        self.device
    }
}

impl<D: Device + Honest + Drop> Passthrough for Through<D> {
    ghost use Rattle.std.specs.Prelude.{None, true};

    ghost shape = { λ drive. drive.geometry };

    ghost zones = { λ drive. drive.zones };

    // What becomes of the device in a loss of power is not asked.
    ghost flushed = { λ drive. true };

    // Each report shows what is there.
    ghost before = { λ drive. None };

    fn geometry(&self) -> Geometry {
        self.device.geometry()
    }

    fn submit(
        &mut self,
        command: &Command,
        bytes: &[u8],
        _end: u64,
        room: &mut [u8],
        value: &mut u64,
    ) -> u16 {
        if self.device.stopped() {
            return SILENT;
        }
        let entry = command.encode(0);
        let Ok(completion) = self.device.submit(&entry, bytes, &mut self.returned) else {
            return SILENT;
        };
        self.device.vouch();
        let Ok(completion) = Completion::decode(&completion) else {
            return SILENT;
        };
        let Status::Success = completion.status else {
            return SILENT;
        };
        if self.returned.len() != room.len() {
            return SILENT;
        }
        room.copy_from_slice(&self.returned);
        *value = completion.result;
        0
    }
}
