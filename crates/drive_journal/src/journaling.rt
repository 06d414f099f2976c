ghost use Rattle.std.specs.Prelude.{◌≡◌, [], IfSome, false};
ghost use Rattle.drive_port.specs.Drive.{IsLawful};
ghost use Rattle.drive_port.specs.Halting.{SubmitAdds, SubmitGives};
ghost use Rattle.drive_journal.specs.File.{IsStoredWhole};
ghost use Rattle.drive_journal.specs.Journaling.{AnswersInStep, IsInStep, WritesChange};

use crate::change::{Sum, keep, make_ready, sum_before, will_change, write_change, written_of};
use crate::foreseeing::Foreseeing;
use crate::loss::Loss;
use crate::store::ChangeStore;
use drive_port::{Device, Geometry, Halt, Honest};
use std::alloc::Global;
use std::marker::Model;

/// A device that writes each change to a store before the device within makes it. The store holds
/// the image of a drive, and after it all changes since. This device always shows the drive that
/// the store holds.
///
/// If the store fails, this device has stopped, and shows the drive before the command. If the store
/// has the change, but there is no memory to do the command, it has stopped too, and shows the drive
/// after the command.
#[derive(Drop)]
pub struct Journaling<D: Foreseeing + Drop, S: ChangeStore<D> + Drop> {
    device: D,
    store: S,
    loss: Loss,
    // The sum before the next change.
    sum: Sum,
    // If the completion of the last change was lost: its entry and data. Else this is room for the
    // next ones.
    change: Vec<u8>,
}

impl<D: Foreseeing + Drop, S: ChangeStore<D> + Drop> Model for Journaling<D, S> {
    ghost use Rattle.std.specs.Prelude.{◌≡◌, true};
    ghost use Rattle.drive_journal.specs.Journaling.{IsInStep, Journaled, changed_data_in, changed_entry_in};
    ghost use Rattle.drive_journal.specs.Journaling.{is_lost, shown_drive};

    ghost Value = { Journaled };

    ghost view = { λ j. record {
      drive = shown_drive j.loss (D.drive j.device)
          (D.foreseen j.device (changed_entry_in j.change.items) (changed_data_in j.change.items)).zones;
      lost = is_lost j.loss;
      contents = S.held j.store;
      sum = j.sum;
    } };

    // If something was lost, the store has been told.
    ghost invariant = { λ j. IsInStep (record {
      drive = shown_drive j.loss (D.drive j.device)
          (D.foreseen j.device (changed_entry_in j.change.items) (changed_data_in j.change.items)).zones;
      lost = is_lost j.loss;
      contents = S.held j.store;
      sum = j.sum;
    }) × (is_lost j.loss ≡ true → S.failed j.store ≡ true) };
}

impl<D: Foreseeing + Drop, S: ChangeStore<D> + Drop> Journaling<D, S> {
    /// A device whose changes go to this store. The store has to hold the drive of the device
    /// already. `sum` is the sum after the changes in the store: `START` if it has none.
    pub fn new(alloc: Global, device: D, store: S, sum: Sum) -> Self
        requires { IfSome (S.held store) (λ bytes. IsStoredWhole bytes (D.drive device) sum) }
        ensures { result ≡ record { drive = D.drive device; lost = false; contents = S.held store; sum = sum } }
    {
        Journaling {
            device,
            store,
            loss: Loss::Nothing,
            sum,
            change: Vec::new(alloc),
        }
    }

    /// The device within and the store, as they are. The store holds the drive that was shown. The
    /// device within holds it too, unless the store has failed: it refused a change, or has one
    /// that the device could not make.
    pub fn into_parts(self) -> (D, S)
        ensures device { S.failed result.1 ≡ false → D.drive result.0 ≡ self.drive }
        ensures store { S.held result.1 ≡ self.contents }
        ensures kept { IsInStep self }
    {
        (self.device, self.store)
    }

    /// Whether a change or a completion was lost.
    fn is_lost(&self) -> bool
        ensures { result ≡ self.now.lost }
    {
        match self.loss {
            Loss::Nothing => false,
            _ => true,
        }
    }

    /// Answers an entry. Bytes that come back are added to `into`.
    fn answer(
        &mut self,
        entry: &[u8; 64],
        bytes: &[u8],
        into: &mut Vec<u8>,
    ) -> Result<[u8; 16], Halt>
        ensures { AnswersInStep self.old entry.now bytes.now into.old.items result into.new.items self.new }
    {
        if self.stopped() {
            return Err(Halt::Stopped);
        }
        if !will_change(&self.device, entry, bytes) {
            return self.device.answer(entry, bytes, into);
        }
        self.sum = sum_before(self.store.renew(&self.device), self.sum);
        let Ok(()) = make_ready(&mut self.device, &mut self.change, entry, bytes) else {
            return Err(Halt::Memory);
        };
        let written = written_of(entry, bytes);
        let Ok(next) = write_change(&mut self.store, self.sum, entry, written) else {
            self.loss = Loss::Change;
            return Err(Halt::Stopped);
        };
        self.sum = next;
        match self.device.answer(entry, bytes, into) {
            Ok(completion) => Ok(completion),
            Err(_) => {
                self.store.fail();
                keep(&mut self.change, entry, written);
                self.loss = Loss::Completion;
                Err(Halt::Stopped)
            }
        }
    }
}

impl<D: Foreseeing + Drop, S: ChangeStore<D> + Drop> Device for Journaling<D, S> {
    ghost drive = { λ j. j.drive };

    fn geometry(&self) -> Geometry {
        self.device.geometry()
    }

    fn completed(&self) -> u64 {
        self.device.completed()
    }

    fn stopped(&self) -> bool {
        let over = self.device.stopped();
        self.is_lost() || over
    }

    fn submit(
        &mut self,
        entry: &[u8; 64],
        bytes: &[u8],
        into: &mut Vec<u8>,
    ) -> Result<[u8; 16], Halt>
        ensures gives { SubmitGives self.old.drive entry.now bytes.now result into.new.items self.new.drive }
        ensures was_lawful { IsLawful self.old.drive }
        ensures lawful { IsLawful self.new.drive }

        // The change is written before the drive makes it, and the drive that is shown is the one that the store holds.
        ensures writes { WritesChange self.old entry.now bytes.now result self.new }
        ensures was_kept { IsInStep self.old }
        ensures kept { IsInStep self.new }
    {
        into.clear();
        self.answer(entry, bytes, into)
    }

    fn submit_extending(&mut self, entry: &[u8; 64], into: &mut Vec<u8>) -> Result<[u8; 16], Halt>
        ensures gives { SubmitAdds self.old.drive entry.now [] into.old.items result into.new.items self.new.drive }
        ensures was_lawful { IsLawful self.old.drive }
        ensures lawful { IsLawful self.new.drive }

        // It writes what `submit` writes, and keeps what that keeps.
        ensures writes { WritesChange self.old entry.now [] result self.new }
        ensures was_kept { IsInStep self.old }
        ensures kept { IsInStep self.new }
    {
        self.answer(entry, &[], into)
    }
}

impl<D: Foreseeing + Honest + Drop, S: ChangeStore<D> + Drop> Honest for Journaling<D, S> {
    fn vouch(&self) {
        self.device.vouch();
    }
}
