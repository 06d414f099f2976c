ghost use Rattle.std.specs.Prelude.{◌≡◌, [], IfOk, OnErr};
ghost use Rattle.drive_port.specs.Drive.{IsLawful};
ghost use Rattle.drive_port.specs.Halting.{SubmitAdds, SubmitGives};
ghost use Rattle.drive_counter.specs.Counting.{counts_after, no_counts, tallied};

use crate::counter::Counter;
use crate::counts::Counts;
use drive_port::{Device, Geometry, Halt, Honest};
use std::marker::Model;

/// Counts the commands that a device completes, and has completed as many itself: those that the device within
/// completed before are left out.
#[derive(Drop)]
pub struct Tally<D: Device + Drop> {
    counter: Counter<D>,
    // What the device within had completed before.
    before: u64,
}

impl<D: Device + Drop> Model for Tally<D> {
    ghost use Rattle.std.specs.Prelude.{◌≡◌, ◌+◌};
    ghost use Rattle.drive_counter.specs.Counting.{Counting, commands_of};

    ghost Value = { Counting };

    ghost view = { λ t. t.counter };

    ghost invariant = { λ t. t.before + commands_of t.counter.counts ≡ t.counter.inner.completed };
}

impl<D: Device + Drop> Tally<D> {
    /// A tally that has counted nothing yet.
    pub fn new(device: D) -> Self
        ensures { result ≡ record { inner = D.drive device; counts = no_counts } }
    {
        let before = device.completed();
        Tally {
            counter: Counter::new(device),
            before,
        }
    }

    /// What was counted.
    pub fn counts(&self) -> Counts
        ensures { result ≡ self.now.counts }
    {
        self.counter.counts()
    }

    /// The device within.
    pub fn into_inner(self) -> D
        ensures { D.drive result ≡ self.inner }
    {
        self.counter.into_inner()
    }
}

impl<D: Device + Drop> Device for Tally<D> {
    ghost drive = { λ t. tallied t };

    fn geometry(&self) -> Geometry {
        self.counter.geometry()
    }

    /// How many commands were counted.
    fn completed(&self) -> u64 {
        self.counter.completed() - self.before
    }

    fn stopped(&self) -> bool {
        self.counter.stopped()
    }

    fn submit(
        &mut self,
        entry: &[u8; 64],
        bytes: &[u8],
        into: &mut Vec<u8>,
    ) -> Result<[u8; 16], Halt>
        ensures gives { SubmitGives (tallied self.old) entry.now bytes.now result into.new.items
            (tallied self.new) }
        ensures was_lawful { IsLawful (tallied self.old) }
        ensures lawful { IsLawful (tallied self.new) }
        ensures counted { IfOk result (λ completion. self.new.counts
            ≡ counts_after self.old.counts entry.now bytes.now completion) }
        ensures halted { OnErr result (self.new.counts ≡ self.old.counts) }
    {
        self.counter.submit(entry, bytes, into)
    }

    fn submit_extending(&mut self, entry: &[u8; 64], into: &mut Vec<u8>) -> Result<[u8; 16], Halt>
        ensures gives { SubmitAdds (tallied self.old) entry.now [] into.old.items result
            into.new.items (tallied self.new) }
        ensures was_lawful { IsLawful (tallied self.old) }
        ensures lawful { IsLawful (tallied self.new) }
        ensures counted { IfOk result
            (λ completion. self.new.counts ≡ counts_after self.old.counts entry.now [] completion) }
        ensures halted { OnErr result (self.new.counts ≡ self.old.counts) }
    {
        self.counter.submit_extending(entry, into)
    }
}

impl<D: Device + Honest + Drop> Honest for Tally<D> {
    fn vouch(&self) {
        self.counter.vouch();
    }
}
