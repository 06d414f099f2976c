ghost use Rattle.std.specs.Prelude.{◌≡◌};
ghost use Rattle.job_drives.specs.DiskSize.{size_of};

use drive_port::{Device, Geometry};
use zone_translator::AnyDisk;

/// The disk that a job mounted.
#[derive(Clone, Copy, Debug, PartialEq, Eq)]
pub struct DiskSize {
    /// The shape of its drive.
    pub geometry: Geometry,
    /// How many logical blocks it had after the mount.
    pub blocks: u64,
}

impl DiskSize {
    /// That of a disk over any device.
    pub fn of<D: Device + Drop>(disk: &AnyDisk<D>) -> DiskSize
        ensures { result ≡ size_of disk.now }
    {
        DiskSize {
            geometry: disk.device().geometry(),
            blocks: disk.blocks(),
        }
    }
}
