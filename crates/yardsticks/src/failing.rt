//! A device that fails at some commands.

ghost use Rattle.std.specs.Prelude.{◌≡◌, false, true};
ghost use Rattle.drive_port.specs.Drive.{IsLawful};
ghost use Rattle.yardsticks.specs.Failing.{failed_by};

use drive_port::{Device, Geometry, Halt, Honest};
use nvme_wire::Command;

/// Fails at one command, or at each Read of one block. All else is as the device within has it.
#[derive(Drop)]
pub struct FailingDevice<D: Device + Honest + Drop> {
    device: D,
    /// How many commands are passed on before the one at which it fails.
    before: u64,
    /// The address of a block that it cannot read.
    unreadable: Option<u64>,
    /// Whether it has failed.
    failed: bool,
}

/// Whether an entry is that of a Read of this block.
fn reads_block(entry: &[u8; 64], address: u64) -> bool {
    match Command::decode(entry) {
        Ok(Command::Read { slba, blocks }) => { slba <= address && address - slba < blocks as u64 }
        _ => false,
    }
}

impl<D: Device + Honest + Drop> FailingDevice<D> {
    /// A device that fails at the command which comes after this many, alone.
    pub fn at(device: D, before: u64) -> Self
        ensures within { result.device ≡ device }
        ensures unfailing { result.failed ≡ false }
    {
        FailingDevice {
            device,
            before,
            unreadable: None,
            failed: false,
        }
    }

    /// A device that fails at each Read of the block at this address.
    pub fn unreadable(device: D, address: u64) -> Self
        ensures within { result.device ≡ device }
        ensures unfailing { result.failed ≡ false }
    {
        FailingDevice {
            device,
            before: u64::MAX,
            unreadable: Some(address),
            failed: false,
        }
    }

    /// Whether it has failed.
    pub fn has_failed(&self) -> bool
        ensures { result ≡ self.now.failed }
    {
        self.failed
    }

    /// The device within.
    pub fn into_inner(self) -> D
        ensures { result ≡ self.device }
    {
        self.device
    }

    /// Whether it fails at the command of this entry, which comes next. A device that has stopped fails at none.
    fn fails_at(&mut self, entry: &[u8; 64]) -> bool
        ensures device { self.new.device ≡ self.old.device }
        ensures failed { self.new.failed ≡ self.old.failed }
        ensures running { result ≡ true → (D.drive self.old.device).stopped ≡ false }
        ensures lawful { IsLawful (D.drive self.old.device) }
    {
        if self.device.stopped() {
            return false;
        }
        if let Some(address) = self.unreadable {
            return reads_block(entry, address);
        }
        if self.before == 0 {
            self.before = u64::MAX;
            return true;
        }
        self.before -= 1;
        false
    }
}

impl<D: Device + Honest + Drop> Device for FailingDevice<D> {
    ghost drive = { λ f. failed_by (D.drive f.device) f.failed };

    fn geometry(&self) -> Geometry {
        self.device.geometry()
    }

    fn completed(&self) -> u64 {
        self.device.completed()
    }

    fn stopped(&self) -> bool {
        self.device.stopped()
    }

    fn submit(
        &mut self,
        entry: &[u8; 64],
        bytes: &[u8],
        into: &mut Vec<u8>,
    ) -> Result<[u8; 16], Halt> {
        if self.fails_at(entry) {
            self.failed = true;
            into.clear();
            return Err(Halt::Failed);
        }
        self.device.submit(entry, bytes, into)
    }

    fn submit_extending(&mut self, entry: &[u8; 64], into: &mut Vec<u8>) -> Result<[u8; 16], Halt> {
        if self.fails_at(entry) {
            self.failed = true;
            return Err(Halt::Failed);
        }
        self.device.submit_extending(entry, into)
    }
}

impl<D: Device + Honest + Drop> Honest for FailingDevice<D> {
    fn vouch(&self) {
        self.device.vouch();
    }
}
