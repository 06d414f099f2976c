// The way of a program to the drives behind devices, or to those that stay in their files.

ghost use Rattle.std.specs.Prelude.{◌≡◌, Bool, false};
ghost use Rattle.device_jobs.specs.Ways.{HasNoWay};

use crate::fault::DeviceFault;
use drive_port::Device;
use drive_rescue::Source;
use nbd_session::Medium;
use std::alloc::Global;
use thiserror::Error;
use zone_drive::{Drive, Habit};
use zone_states::Geometry;

/// What a drive says that it is.
#[derive(Debug, PartialEq, Eq, Drop)]
pub struct DriveName {
    /// The model number, without the spaces around it.
    pub model: String,
    /// The serial number, without the spaces around it.
    pub serial: String,
    /// How many bytes the namespace has, by its addresses.
    pub bytes: u64,
}

/// A device that was opened. No other program that asks for it has it.
#[derive(Drop)]
pub struct OpenDevice<D: Device + Drop, M: Medium + Drop> {
    /// Its drive.
    pub drive: D,
    /// What makes durable what the drive has completed: a sync sends a Flush.
    pub medium: M,
    /// What the drive says that it is.
    pub name: DriveName,
}

/// Why an entry that was sent as it is has no completion.
#[derive(Clone, Copy, Debug, PartialEq, Eq, Error)]
pub enum RawFault {
    /// An allocation failed. Nothing was sent.
    #[error("out of memory")]
    Memory,
    /// The drive did not answer the command. What it did of it is not known.
    #[error("the drive did not answer: what it did of the command is not known")]
    Unanswered,
    /// The drive completed the command, but not the Flush after it.
    #[error("the command was done, but not the Flush after it: a loss of power may lose it")]
    Unflushed,
}

/// A drive to which entries are sent as they are. Nothing is promised of what it answers, and nothing is believed of
/// it.
pub trait RawDrive {
    /// Sends one entry of 64 bytes with the data of a command that takes some, and gives its completion of 16 bytes. A
    /// refusal of the drive is a completion, too. Afterwards `into` holds the data that came back, if any did.
    fn send(
        &mut self,
        entry: &[u8; 64],
        bytes: &[u8],
        into: &mut Vec<u8>,
    ) -> Result<[u8; 16], RawFault>;
}

/// How a program comes to the drives behind devices, or to those that stay in their files. No contract says which drive
/// is opened, nor that one is: a way to real drives has its premise elsewhere.
pub trait Devices {
    /// The drive of an open device.
    type Drive: Device + Drop;

    /// What makes durable what that drive has completed.
    type Medium: Medium + Drop;

    /// The drive of a device that is only read.
    type Reader: Device + Drop;

    /// A device of which a rescue reads what can be read.
    type Source: Source + Drop;

    /// The drive of a device to which entries are sent as they are.
    type Raw: RawDrive + Drop;

    /// Whether the program has a way to any device.
    ghost has_way: { Self → Bool };

    /// Opens the device of this path, and makes its drive ready to be changed. A drive that says that it is write
    /// protected is refused. The habit says which zones the drive closes by itself. A real drive has its own, so a way
    /// to such drives ignores it.
    fn open(
        &self,
        alloc: Global,
        path: &str,
        habit: Habit,
    ) -> Result<OpenDevice<Self::Drive, Self::Medium>, DeviceFault>
        ensures { has_way self.now ≡ false → HasNoWay result };

    /// Opens the device of this path to read it. A drive that stays in its file is left as it is there: what a mount
    /// repairs is kept in memory, and is forgotten afterwards. A real drive is opened as [`Devices::open`] does it,
    /// unless it is write protected: such a drive stays as it is, and a mount that has to change it fails.
    fn open_reader(
        &self,
        alloc: Global,
        path: &str,
        habit: Habit,
    ) -> Result<Self::Reader, DeviceFault>
        ensures { has_way self.now ≡ false → HasNoWay result };

    /// Opens the device of this path to look at it. If another program has it, a way may still show the drive as it is
    /// at one moment, and says so. Then a Read stops the drive once that program has changed it. As written here, it
    /// opens the device as [`Devices::open_reader`] does.
    fn open_beside(&self, alloc: Global, path: &str) -> Result<Self::Reader, DeviceFault>
        ensures { has_way self.now ≡ false → HasNoWay result }
    {
        self.open_reader(alloc, path, Habit::Lazy)
    }

    /// Opens the device of this path as a source of a rescue. It is only read, and a block that cannot be read is told
    /// as such where the way can tell it.
    fn open_source(&self, alloc: Global, path: &str) -> Result<Self::Source, DeviceFault>
        ensures { has_way self.now ≡ false → HasNoWay result };

    /// Opens the device of this path to send entries to it as they are. The habit is that of [`Devices::open`].
    fn open_raw(&self, alloc: Global, path: &str, habit: Habit) -> Result<Self::Raw, DeviceFault>
        ensures { has_way self.now ≡ false → HasNoWay result };

    /// Makes a new drive of this shape, in which nothing is written. It stays in the file of this path, and is refused
    /// where something is there. A way to real drives makes none.
    fn create(&self, path: &str, geometry: &Geometry) -> Result<(), DeviceFault>
        ensures { has_way self.now ≡ false → HasNoWay result };

    /// Makes a new drive with the zones of this one, which stays in the file of this path. It is refused where
    /// something is there.
    fn store(&self, path: &str, drive: &Drive) -> Result<(), DeviceFault>
        ensures { has_way self.now ≡ false → HasNoWay result };

    /// The drive in memory with the zones of the one that stays in the file of this path. The file is not changed.
    fn load(&self, alloc: Global, path: &str) -> Result<Drive, DeviceFault>
        ensures { has_way self.now ≡ false → HasNoWay result };
}
