ghost use Rattle.std.specs.Prelude.{◌≡◌, ◌≤◌, ◌<◌, true, false, [], Err, length};
ghost use Rattle.nvme_wire.specs.Entry.{decode_of};
ghost use Rattle.drive_port.specs.Drive.{IsLawful};
ghost use Rattle.drive_port.specs.Halting.{Halts, SubmitAdds, SubmitGives};
ghost use Rattle.drive_port.specs.Stop.{HaltsBy, TearsAt, drive_of, torn_at};

use crate::calls::{PortFault, call};
use crate::device::{Device, Halt, Honest};
use crate::progress::Progress;
use nvme_wire::{Command, DecodeFault};
use std::marker::Model;
use zone_states::Geometry;

/// Lets a number of commands of a device complete, and has then stopped. It has stopped also where the
/// device within has.
///
/// One that tears stops inside the command that follows: of an Append of enough blocks it writes the
/// first ones, and before every other command it stops.
#[derive(Drop)]
pub struct StopAfter<D: Device + Drop> {
    device: D,
    limit: u64,
    // How many blocks of the Append after the limit are written; 0: it stops without one more command.
    tear: u32,
    // What the device within has completed and is not counted here: the commands before it was put here,
    // and a torn Append.
    uncounted: u64,
    progress: Progress,
}

impl<D: Device + Drop> Model for StopAfter<D> {
    ghost use Rattle.std.specs.Prelude.{◌≤◌, ◌-◌};
    ghost use Rattle.drive_port.specs.Stop.{Stopping};

    ghost Value = { Stopping };

    ghost view = { λ s. record {
      inner = D.drive s.device;
      limit = s.limit;
      tear = s.tear;
      completed = (D.drive s.device).completed - s.uncounted;
      progress = s.progress;
    } };

    ghost invariant = { λ s. s.uncounted ≤ (D.drive s.device).completed };
}

/// Where the torn Append goes.
fn torn_start(
    command: Result<Command, DecodeFault>,
    block: u32,
    tear: u32,
    len: usize,
) -> Option<u64>
    ensures { result ≡ torn_at block tear command len }
{
    match command {
        Ok(Command::Append { zslba, blocks }) => {
            if 0 < tear && tear <= blocks && tear as usize * block as usize <= len {
                Some(zslba)
            } else {
                None
            }
        }
        _ => None,
    }
}

impl<D: Device + Drop> StopAfter<D> {
    ghost use Rattle.drive_port.specs.declared.progress.Progress.TheVariants.{Going};

    /// A device that lets `limit` more commands of the device within complete, and counts them from 0.
    pub fn new(device: D, limit: u64) -> Self
        ensures { result ≡ record {
          inner = D.drive device;
          limit = limit;
          tear = 0;
          completed = 0;
          progress = Going;
        } }
    {
        Self::tearing(device, limit, 0)
    }

    /// The same, but it stops inside the command after them: if this is an Append of at least `tear`
    /// blocks, and `tear` is not 0, it writes the first `tear` of them. With 0 it stops as one of `new` does.
    pub fn tearing(device: D, limit: u64, tear: u32) -> Self
        ensures { result ≡ record {
          inner = D.drive device;
          limit = limit;
          tear = tear;
          completed = 0;
          progress = Going;
        } }
    {
        let uncounted = device.completed();
        StopAfter {
            device,
            limit,
            tear,
            uncounted,
            progress: Progress::Going,
        }
    }

    /// The device within.
    pub fn into_inner(self) -> D
        ensures { D.drive result ≡ self.inner }
    {
        self.device
    }

    /// The command that stops.
    fn stop_at(&mut self, entry: &[u8; 64], bytes: &[u8], into: &mut Vec<u8>) -> Halt
        requires going { (drive_of self.old).stopped ≡ false }
        ensures within { TearsAt (torn_at self.old.inner.geometry.block self.old.tear
            (decode_of entry.now) (length bytes.now)) self.old.inner self.old.tear bytes.now result
            self.new.inner }
        ensures settings { (self.new.limit ≡ self.old.limit) × (self.new.tear ≡ self.old.tear)
            × (self.new.completed ≡ self.old.completed) }
        ensures halts { Halts (drive_of self.old) (decode_of entry.now) bytes.now result
            (drive_of self.new) }
        ensures was_lawful { IsLawful (drive_of self.old) }
        ensures lawful { IsLawful (drive_of self.new) }
        ensures returned { into.new.items ≡ [] }
    {
        into.clear();
        let block = self.device.geometry().block;
        let Some(start) = torn_start(Command::decode(entry), block, self.tear, bytes.len()) else {
            self.progress = Progress::Over;
            return Halt::Stopped;
        };
        let command = Command::Append {
            zslba: start,
            blocks: self.tear,
        };
        let front = &bytes[..self.tear as usize * block as usize];
        match call(&mut self.device, &command, front, into) {
            Ok(_) => {
                into.clear();
                self.uncounted += 1;
                self.progress = Progress::OverAppended;
                Halt::Stopped
            }
            Err(PortFault::Refused(_)) => {
                into.clear();
                self.uncounted += 1;
                self.progress = Progress::OverRefused;
                Halt::Stopped
            }
            Err(PortFault::Memory) => Halt::Memory,
            Err(PortFault::Failed) => Halt::Failed,
            Err(PortFault::Stopped) => {
                self.progress = Progress::Over;
                Halt::Stopped
            }
        }
    }
}

impl<D: Device + Drop> Device for StopAfter<D> {
    ghost drive = { λ s. drive_of s };

    fn geometry(&self) -> Geometry {
        self.device.geometry()
    }

    /// How many commands were completed since the device was put here, without one that was torn.
    fn completed(&self) -> u64 {
        self.device.completed() - self.uncounted
    }

    /// One that tears has stopped only where the command that stops was submitted.
    fn stopped(&self) -> bool {
        let over = match self.progress {
            Progress::Going => false,
            _ => true,
        };
        self.device.stopped() || over || self.tear == 0 && self.limit <= self.completed()
    }

    #[inline(always)]
    fn submit(
        &mut self,
        entry: &[u8; 64],
        bytes: &[u8],
        into: &mut Vec<u8>,
    ) -> Result<[u8; 16], Halt>
        ensures gives { SubmitGives (drive_of self.old) entry.now bytes.now result into.new.items
            (drive_of self.new) }
        ensures was_lawful { IsLawful (drive_of self.old) }
        ensures lawful { IsLawful (drive_of self.new) }
        ensures settings { (self.new.limit ≡ self.old.limit) × (self.new.tear ≡ self.old.tear) }
        ensures over { (drive_of self.old).stopped ≡ true
            → (result ≡ Err Halt.Stopped) × (self.new ≡ self.old) }
        ensures before { (drive_of self.old).stopped ≡ false → self.old.completed < self.old.limit
            → SubmitGives self.old.inner entry.now bytes.now result into.new.items self.new.inner }
        ensures torn { (drive_of self.old).stopped ≡ false → self.old.limit ≤ self.old.completed
            → HaltsBy result
            (λ halt. TearsAt
            (torn_at self.old.inner.geometry.block self.old.tear (decode_of entry.now)
            (length bytes.now)) self.old.inner self.old.tear bytes.now halt self.new.inner) }
    {
        if self.stopped() {
            into.clear();
            return Err(Halt::Stopped);
        }
        if self.limit <= self.completed() {
            return Err(self.stop_at(entry, bytes, into));
        }
        self.device.submit(entry, bytes, into)
    }

    /// Without data no Append is torn: after the last command it just stops.
    #[inline(always)]
    fn submit_extending(&mut self, entry: &[u8; 64], into: &mut Vec<u8>) -> Result<[u8; 16], Halt>
        ensures gives { SubmitAdds (drive_of self.old) entry.now [] into.old.items result
            into.new.items (drive_of self.new) }
        ensures was_lawful { IsLawful (drive_of self.old) }
        ensures lawful { IsLawful (drive_of self.new) }
        ensures settings { (self.new.limit ≡ self.old.limit) × (self.new.tear ≡ self.old.tear) }
        ensures over { (drive_of self.old).stopped ≡ true
            → (result ≡ Err Halt.Stopped) × (self.new ≡ self.old) }
        ensures before { (drive_of self.old).stopped ≡ false → self.old.completed < self.old.limit
            → SubmitAdds self.old.inner entry.now [] into.old.items result into.new.items
            self.new.inner }
        ensures after { (drive_of self.old).stopped ≡ false → self.old.limit ≤ self.old.completed
            → (result ≡ Err Halt.Stopped) × (self.new.inner ≡ self.old.inner) }
    {
        if self.stopped() {
            return Err(Halt::Stopped);
        }
        if self.limit <= self.completed() {
            self.progress = Progress::Over;
            return Err(Halt::Stopped);
        }
        self.device.submit_extending(entry, into)
    }
}

impl<D: Device + Honest + Drop> Honest for StopAfter<D> {
    fn vouch(&self) {
        self.device.vouch();
    }
}
