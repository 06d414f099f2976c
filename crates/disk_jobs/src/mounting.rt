ghost use Rattle.std.specs.Prelude.{◌≡◌, None, Some};
ghost use Rattle.job_drives.specs.DiskSize.{size_of};

use drive_port::Device;
use job_drives::DiskSize;
use zone_translator::AnyDisk;

/// What is known of the mount of a job.
#[derive(Clone, Copy, Debug, PartialEq, Eq)]
pub struct Mounting {
    /// How many commands it took.
    pub commands: u64,
    /// The disk, if one was mounted.
    pub disk: Option<DiskSize>,
}

impl Mounting {
    /// Of a job that mounts nothing.
    pub const NONE: Mounting = Mounting {
        commands: 0,
        disk: None,
    };

    /// Of the disk that was just mounted.
    pub(crate) fn done<D: Device + Drop>(disk: &AnyDisk<D>) -> Mounting
        ensures commands { result.commands ≡ disk.now.drive.completed }
        ensures disk { result.disk ≡ Some (size_of disk.now) }
    {
        Mounting {
            commands: disk.device().completed(),
            disk: Some(DiskSize::of(disk)),
        }
    }

    /// Of a mount that was refused, after this many commands.
    pub(crate) fn refused(commands: u64) -> Mounting
        ensures { result ≡ record { commands = commands; disk = None } }
    {
        Mounting {
            commands,
            disk: None,
        }
    }
}
