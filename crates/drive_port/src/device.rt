ghost use Rattle.std.specs.Prelude.{◌≡◌, [], IsTrue};
ghost use Rattle.drive_port.specs.Drive.{DriveState, IsLawful};
ghost use Rattle.drive_port.specs.Halting.{SubmitAdds, SubmitGives};
ghost use Rattle.drive_port.specs.declared.device.Halt.TheVariants.{Memory};

use std::alloc::AllocError;
use thiserror::Error;
use zone_states::Geometry;

/// Why a device completed no command.
#[derive(Clone, Copy, Debug, PartialEq, Eq, Error)]
pub enum Halt {
    /// An allocation failed. Nothing changed.
    #[error("out of memory")]
    Memory,
    /// The command failed. It had no effect, and the next one may succeed.
    #[error("the drive failed at the command")]
    Failed,
    /// The device has stopped, before this command or inside it, and completes no command any more. Of the
    /// command it may have done nothing or all, and of an Append a front.
    #[error("the device has stopped")]
    Stopped,
}

impl From<AllocError> for Halt {
    ghost from_gives = { λ _ halt. halt ≡ Memory };

    fn from(_error: AllocError) -> Halt {
        Halt::Memory
    }
}

/// A zoned namespace, known only by its command interface: one command at a time, each completed before the
/// next is submitted.
pub trait Device {
    /// What the drive holds and has counted.
    ghost drive: { Self → DriveState };

    /// The shape of the drive, which never changes.
    fn geometry(&self) -> Geometry
        ensures value { result ≡ (drive self.now).geometry }
        ensures lawful { IsLawful (drive self.now) };

    /// How many commands were completed since the device was made or restarted.
    fn completed(&self) -> u64
        ensures value { result ≡ (drive self.now).completed }
        ensures lawful { IsLawful (drive self.now) };

    /// Whether the device has stopped: it then answers each submit by `Stopped`.
    fn stopped(&self) -> bool
        ensures value { result ≡ (drive self.now).stopped }
        ensures lawful { IsLawful (drive self.now) };

    /// Submits one entry of 64 bytes, with the data of a Write or an Append, and answers its
    /// completion of 16 bytes (Base Specification 2.0, sections 3.3.3.1 and 3.3.3.2). Afterwards `into`
    /// holds what a Read or a Receive that succeeded returned, and is empty in every other case.
    fn submit(
        &mut self,
        entry: &[u8; 64],
        bytes: &[u8],
        into: &mut Vec<u8>,
    ) -> Result<[u8; 16], Halt>
        ensures gives { SubmitGives (drive self.old) entry.now bytes.now result into.new.items
            (drive self.new) }
        ensures was_lawful { IsLawful (drive self.old) }
        ensures lawful { IsLawful (drive self.new) };

    /// Submits one entry as `submit` does, without data, and extends what `into` holds by what a Read or
    /// a Receive that succeeded returned. In every other case `into` stays unchanged.
    fn submit_extending(&mut self, entry: &[u8; 64], into: &mut Vec<u8>) -> Result<[u8; 16], Halt>
        ensures gives { SubmitAdds
            (drive self.old) entry.now [] into.old.items result into.new.items (drive self.new) }
        ensures was_lawful { IsLawful (drive self.old) }
        ensures lawful { IsLawful (drive self.new) };
}

/// A device that is always clean, as a drive in memory is. What is promised while a drive is clean is promised of it.
pub trait Honest: Device {
    /// Does nothing: for the fact.
    fn vouch(&self)
        ensures { IsTrue (Self.Device.drive self.now).clean };
}
