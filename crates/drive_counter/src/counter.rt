ghost use Rattle.std.specs.Prelude.{◌≡◌, ◌==◌, [], IfOk, OnErr};
ghost use Rattle.nvme_wire.specs.Completion.{code_in};
ghost use Rattle.drive_port.specs.Drive.{IsLawful};
ghost use Rattle.drive_port.specs.Halting.{SubmitAdds, SubmitGives};
ghost use Rattle.drive_counter.specs.Counting.{counts_after, no_counts};

use crate::counts::Counts;
use byteorder::{ByteOrder, LittleEndian};
use drive_port::{Device, Geometry, Halt, Honest};
use nvme_wire::Command;
use std::marker::Model;

/// Counts the commands that a device completes. What it has completed, and whether it has stopped, are those of
/// the device within.
#[derive(Drop)]
pub struct Counter<D: Device + Drop> {
    device: D,
    counts: Counts,
}

impl<D: Device + Drop> Model for Counter<D> {
    ghost use Rattle.drive_counter.specs.Counting.{Counting};

    ghost Value = { Counting };

    ghost view = { λ c. record { inner = D.drive c.device; counts = c.counts } };
}

impl<D: Device + Drop> Counter<D> {
    /// A counter that has counted nothing yet.
    pub fn new(device: D) -> Self
        ensures { result ≡ record { inner = D.drive device; counts = no_counts } }
    {
        Counter {
            device,
            counts: Counts::none(),
        }
    }

    /// What was counted.
    pub fn counts(&self) -> Counts
        ensures { result ≡ self.now.counts }
    {
        self.counts
    }

    /// The device within.
    pub fn into_inner(self) -> D
        ensures { D.drive result ≡ self.inner }
    {
        self.device
    }

    /// Counts the command of an entry that was completed.
    fn count(&mut self, entry: &[u8; 64], bytes: &[u8], completion: &[u8; 16])
        ensures inner { self.new.inner ≡ self.old.inner }
        ensures counted { self.new.counts
            ≡ counts_after self.old.counts entry.now bytes.now completion.now }
    {
        let command = Command::decode(entry);
        self.counts.add_command(command);
        if is_done(completion) {
            self.counts.add_data(command, bytes);
        }
    }
}

/// Whether the command of this completion was not refused.
fn is_done(completion: &[u8; 16]) -> bool
    ensures { result ≡ (code_in completion.now == 0) }
{
    LittleEndian::read_u16(&completion[14..16]) == 0
}

impl<D: Device + Drop> Device for Counter<D> {
    ghost drive = { λ c. c.inner };

    fn geometry(&self) -> Geometry {
        self.device.geometry()
    }

    fn completed(&self) -> u64 {
        self.device.completed()
    }

    fn stopped(&self) -> bool {
        self.device.stopped()
    }

    fn submit(
        &mut self,
        entry: &[u8; 64],
        bytes: &[u8],
        into: &mut Vec<u8>,
    ) -> Result<[u8; 16], Halt>
        ensures gives { SubmitGives self.old.inner entry.now bytes.now result into.new.items
            self.new.inner }
        ensures was_lawful { IsLawful self.old.inner }
        ensures lawful { IsLawful self.new.inner }
        ensures counted { IfOk result (λ completion. self.new.counts
            ≡ counts_after self.old.counts entry.now bytes.now completion) }
        ensures halted { OnErr result (self.new.counts ≡ self.old.counts) }
    {
        let completion = self.device.submit(entry, bytes, into)?;
        self.count(entry, bytes, &completion);
        Ok(completion)
    }

    fn submit_extending(&mut self, entry: &[u8; 64], into: &mut Vec<u8>) -> Result<[u8; 16], Halt>
        ensures gives { SubmitAdds self.old.inner entry.now [] into.old.items result into.new.items
            self.new.inner }
        ensures was_lawful { IsLawful self.old.inner }
        ensures lawful { IsLawful self.new.inner }
        ensures counted { IfOk result
            (λ completion. self.new.counts ≡ counts_after self.old.counts entry.now [] completion) }
        ensures halted { OnErr result (self.new.counts ≡ self.old.counts) }
    {
        let completion = self.device.submit_extending(entry, into)?;
        self.count(entry, &[], &completion);
        Ok(completion)
    }
}

impl<D: Device + Honest + Drop> Honest for Counter<D> {
    fn vouch(&self) {
        self.device.vouch();
    }
}
