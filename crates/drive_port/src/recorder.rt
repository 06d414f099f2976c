ghost use Rattle.std.specs.Prelude.{◌≡◌, ◌++◌, [], ◌∷◌, OnOk, OnErr};
ghost use Rattle.drive_port.specs.Drive.{IsLawful};
ghost use Rattle.drive_port.specs.Halting.{SubmitAdds, SubmitGives};

use crate::device::{Device, Halt, Honest};
use std::alloc::Global;
use std::marker::Model;
use zone_states::Geometry;

/// Keeps the entries of the commands that a device completes. What it has counted, and whether it has
/// stopped, are the inner device's. It answers `Memory` also where there is no memory for one
/// more entry.
#[derive(Drop)]
pub struct Recorder<D: Device + Drop> {
    device: D,
    entries: Vec<[u8; 64]>,
}

impl<D: Device + Drop> Model for Recorder<D> {
    ghost use Rattle.drive_port.specs.Record.{Recording};

    ghost Value = { Recording };

    ghost view = { λ r. record { inner = D.drive r.device; entries = r.entries.items } };
}

impl<D: Device + Drop> Recorder<D> {
    /// A recorder that has no entry yet.
    pub fn new(alloc: Global, device: D) -> Self
        ensures { result ≡ record { inner = D.drive device; entries = [] } }
    {
        Recorder {
            device,
            entries: Vec::new(alloc),
        }
    }

    /// The entries of the completed commands, in order.
    pub fn entries(&self) -> &[[u8; 64]]
        ensures { result.now ≡ self.now.entries }
    {
        &self.entries
    }

    /// The device within.
    pub fn into_inner(self) -> D
        ensures { D.drive result ≡ self.inner }
    {
        self.device
    }
}

impl<D: Device + Drop> Device for Recorder<D> {
    ghost drive = { λ r. r.inner };

    fn geometry(&self) -> Geometry {
        self.device.geometry()
    }

    fn completed(&self) -> u64 {
        self.device.completed()
    }

    fn stopped(&self) -> bool {
        self.device.stopped()
    }

    fn submit(
        &mut self,
        entry: &[u8; 64],
        bytes: &[u8],
        into: &mut Vec<u8>,
    ) -> Result<[u8; 16], Halt>
        ensures gives { SubmitGives self.old.inner entry.now bytes.now result into.new.items
            self.new.inner }
        ensures was_lawful { IsLawful self.old.inner }
        ensures lawful { IsLawful self.new.inner }
        ensures kept { OnOk result (self.new.entries ≡ self.old.entries ++ entry.now ∷ []) }
        ensures halted { OnErr result (self.new.entries ≡ self.old.entries) }
    {
        into.clear();
        if self.device.stopped() {
            return Err(Halt::Stopped);
        }
        if self.entries.reserve(1).is_err() {
            return Err(Halt::Memory);
        }
        let completion = self.device.submit(entry, bytes, into)?;
        self.entries.push_reserved(*entry);
        Ok(completion)
    }

    fn submit_extending(&mut self, entry: &[u8; 64], into: &mut Vec<u8>) -> Result<[u8; 16], Halt>
        ensures gives { SubmitAdds self.old.inner entry.now [] into.old.items result into.new.items
            self.new.inner }
        ensures was_lawful { IsLawful self.old.inner }
        ensures lawful { IsLawful self.new.inner }
        ensures kept { OnOk result (self.new.entries ≡ self.old.entries ++ entry.now ∷ []) }
        ensures halted { OnErr result (self.new.entries ≡ self.old.entries) }
    {
        if self.device.stopped() {
            return Err(Halt::Stopped);
        }
        if self.entries.reserve(1).is_err() {
            return Err(Halt::Memory);
        }
        let completion = self.device.submit_extending(entry, into)?;
        self.entries.push_reserved(*entry);
        Ok(completion)
    }
}

impl<D: Device + Honest + Drop> Honest for Recorder<D> {
    fn vouch(&self) {
        self.device.vouch();
    }
}
