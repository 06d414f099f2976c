ghost use Rattle.std.specs.Prelude.{codes, OnErr, OnOk};
ghost use Rattle.std.specs.Io.KnownBytes.{Appends};
ghost use Rattle.disk_files.specs.Output.{AppendsFront};

use disk_files::{WriteFault, write_out};
use job_drives::SystemError;
use passthrough::IdentifyFault;
use std::io::Write;
use thiserror::Error;
use zone_states::GeometryFault;

/// Why the device of a path is not used, or the drive that stays in the file of a path. Its text follows the path.
#[derive(Clone, Copy, Debug, PartialEq, Eq, Error)]
pub enum DeviceFault {
    /// This program has no way to a device, or to a drive that stays in its file.
    #[error("cannot be opened by this program: ports/linux/out/zonedisk can, and ports/linux/build builds it")]
    NoWay,
    /// The system does not open it.
    #[error("cannot be opened: {0}")]
    Unopened(SystemError),
    /// The system does not let this program open it.
    #[error("cannot be opened: this needs root, or permission to read and write it")]
    NotPermitted,
    /// The system does not let this program open the block device of the namespace.
    #[error("cannot be opened: its block device needs root, or permission to read it")]
    BlockNotPermitted,
    /// The system does not open the block device of the namespace.
    #[error("cannot be opened: its block device does not open: {0}")]
    BlockUnopened(SystemError),
    /// The system does not let this program send a command of the start.
    #[error("is refused: the system lets only root send {0}")]
    NotSent(StartCommand),
    /// Another program has it.
    #[error("is in use by another program")]
    Busy,
    /// Another program has it, and changes it all the time.
    #[error("is in use by another program, which changes it too quickly to look at it: try again")]
    Changing,
    /// The block device of the namespace is mounted, or the system uses it in another way.
    #[error("is in use: its block device is mounted, or the system has it")]
    Mounted,
    /// It is no character device of a namespace.
    #[error("is not the character device of an NVMe namespace: take /dev/ngXnY")]
    NoNamespace,
    /// A disk does not work on the namespace, by what the drive says of itself.
    #[error("is refused: {0}")]
    Unfit(IdentifyFault),
    /// The first report does not show the zone with this number.
    #[error("is refused: its report does not show zone {0}")]
    Unshown(u32),
    /// The system takes no command with two blocks of data.
    #[error("is refused: the system takes no transfer of two blocks")]
    Untransferred,
    /// The volatile write cache of the drive stays on.
    #[error("is refused: the volatile write cache of the drive stays on")]
    CacheOn,
    /// The drive did not do a command of the start.
    #[error("is refused: the drive did not do {0}")]
    NotDone(StartCommand),
    /// It does not begin as a drive that stays in its file does.
    #[error("is no drive that stays in its file")]
    NoDrive,
    /// It is such a drive, of a version that is not known.
    #[error("is a drive that stays in its file, of a version that is not known")]
    Version,
    /// The shape of such a drive is out of range.
    #[error("is refused: {0}")]
    Shape(GeometryFault),
    /// Its file is shorter than its head says.
    #[error("is refused: the file is shorter than its head says")]
    Short,
    /// Its file is longer than its head says.
    #[error("is refused: the file is longer than its head says")]
    Long,
    /// Its table says of the zone with this number what no drive leaves.
    #[error("is refused: it has a table that no drive leaves, at zone {0}")]
    Table(u32),
    /// More of its zones are active or open than may be.
    #[error("is refused: more zones are active or open than may be")]
    Limits,
    /// It is a copy of a drive in its file, made while a program had that, or after a kill or a loss of power.
    #[error("is a copy of a drive that was in use, and may have parts of different moments: copy the drive at rest, or \
        export it. After a kill or a loss of power use the drive once before. If it is gone, rescue reads this copy")]
    Copied,
    /// It is a folder, a device or a pipe.
    #[error("is not a regular file")]
    NotRegular,
    /// A new drive was asked for, and something is there.
    #[error("exists already. If a format --in-place or a convert was killed while it made this file, it holds nothing: \
        remove it")]
    Exists,
    /// An allocation failed.
    #[error("is not used: out of memory")]
    Memory,
}

/// A command by which a drive is made ready.
#[derive(Clone, Copy, Debug, PartialEq, Eq, Error)]
pub enum StartCommand {
    /// What the controller is.
    #[error("Identify Controller")]
    IdentifyController,
    /// What the namespace is.
    #[error("Identify Namespace")]
    IdentifyNamespace,
    /// What the namespace is in the Zoned Namespace Command Set.
    #[error("Identify Namespace of the Zoned Namespace Command Set")]
    IdentifyZonedNamespace,
    /// What the controller is in the Zoned Namespace Command Set.
    #[error("Identify Controller of the Zoned Namespace Command Set")]
    IdentifyZonedController,
    /// That the volatile write cache is switched off.
    #[error("Set Features of the volatile write cache")]
    SetWriteCache,
    /// Whether the volatile write cache is off.
    #[error("Get Features of the volatile write cache")]
    GetWriteCache,
    /// Which zones there are.
    #[error("Zone Management Receive")]
    Report,
    /// That all zones are closed.
    #[error("Zone Management Send that closes all zones")]
    CloseAll,
}

/// Writes the line that the program shows where a device is not used. After a fault a beginning of it is written.
pub fn write_device_fault<W: Write>(output: &mut W) -> Result<(), WriteFault>
    ensures ok { OnOk result (Appends (W.contents output.old) (W.contents output.new) (codes "fault device\n")) }
    ensures err { OnErr result (AppendsFront (W.contents output.old) (W.contents output.new) (codes "fault device\n")) }
{
    write_out(output, b"fault device\n")
}
