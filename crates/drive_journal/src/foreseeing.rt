ghost use Rattle.std.specs.Prelude.{◌≡◌, ◌==◌, List, ℕ, IfOk, OnErr};
ghost use Rattle.nvme_wire.specs.Completion.{code_in};
ghost use Rattle.nvme_wire.specs.Entry.{decode_of};
ghost use Rattle.drive_port.specs.Drive.{IsLawful};
ghost use Rattle.drive_port.specs.Halting.{SubmitAdds};
ghost use Rattle.drive_port.specs.Step.{Outcome, is_success};
ghost use Rattle.zone_drive.specs.Foreseen.{CanGive, foreseen as foreseen_by_drive};
ghost use Rattle.drive_journal.specs.Change.{beside_bytes};
ghost use Rattle.drive_journal.specs.SameData.{foreseen-data};

use drive_port::{Device, Halt};
use nvme_wire::Status;
use std::alloc::AllocError;
use zone_drive::Drive;

/// A device that knows how a command will end before it is done, and that never stops inside one.
pub trait Foreseeing: Device {
    /// The outcome of the command of an entry with these bytes as its data, if there is memory for
    /// it.
    ghost foreseen: { Self → List ℕ → List ℕ → Outcome };

    /// The status with which the command of this entry will end, if there is memory for it and the device has not
    /// stopped.
    fn foresee(&self, entry: &[u8; 64], bytes: &[u8]) -> Status
        ensures status { result ≡ (foreseen self.now entry.now bytes.now).status }
        ensures can { CanGive (Self.drive self.now) (decode_of entry.now) bytes.now
            (foreseen self.now entry.now bytes.now) };

    /// Reserves the memory that the command of this entry needs for its blocks. Nothing else
    /// changes.
    fn reserve(&mut self, entry: &[u8; 64], bytes: &[u8]) -> Result<(), AllocError>
        ensures { self.new ≡ self.old };

    /// Answers an entry as `submit` does. Bytes that come back are added to `into`, as
    /// `submit_extending` does it.
    fn answer(
        &mut self,
        entry: &[u8; 64],
        bytes: &[u8],
        into: &mut Vec<u8>,
    ) -> Result<[u8; 16], Halt>
        ensures gives { SubmitAdds (Self.drive self.old) entry.now bytes.now into.old.items result into.new.items
            (Self.drive self.new) }
        ensures lawful { IsLawful (Self.drive self.new) }
        ensures as_foreseen { IfOk result (λ completion. (code_in completion == 0)
            ≡ is_success (foreseen self.old entry.now bytes.now).status) }
        ensures kept { OnErr result (self.new ≡ self.old) };

    /// Bytes that the command does not write make no difference to the outcome.
    ghost same_data: { (device : Self) (entry bytes : List ℕ) →
        foreseen device entry (beside_bytes (decode_of entry) bytes) ≡ foreseen device entry bytes };
}

impl Foreseeing for Drive {
    ghost foreseen = { foreseen_by_drive };

    ghost same_data = { foreseen-data };

    fn foresee(&self, entry: &[u8; 64], bytes: &[u8]) -> Status {
        self.foresee(entry, bytes)
    }

    fn reserve(&mut self, entry: &[u8; 64], bytes: &[u8]) -> Result<(), AllocError> {
        self.reserve(entry, bytes)
    }

    fn answer(
        &mut self,
        entry: &[u8; 64],
        bytes: &[u8],
        into: &mut Vec<u8>,
    ) -> Result<[u8; 16], Halt> {
        self.answer(entry, bytes, into)
    }
}
