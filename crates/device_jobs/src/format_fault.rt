use crate::devices::DriveName;
use drive_inspection::Written;
use drive_port::PortFault;
use std::fmt;
use thiserror::Error;

/// The drive behind a device, as people are told of it.
#[derive(Clone, Copy, Debug)]
pub struct NamedDrive<'n> {
    /// The path of the device.
    pub path: &'n str,
    /// What the drive says that it is.
    pub name: &'n DriveName,
}

impl fmt::Display for NamedDrive<'_> {
    fn fmt<W: fmt::Write>(&self, f: &mut fmt::Formatter<W>) -> fmt::Result {
        let DriveName {
            model,
            serial,
            bytes,
        } = self.name;
        let path = self.path;
        write!(
            f,
            "{path}: {model}, serial number {serial}, of {bytes} bytes"
        )
    }
}

/// Why a drive is not formatted.
#[derive(Clone, Copy, Debug, PartialEq, Eq, Error)]
pub enum FormatFault {
    /// It holds something, and may not be changed.
    #[error("{0}. format --force destroys that")]
    Written(Written),
    /// The zone of this number is Read Only or Offline. No zone was reset.
    #[error("zone {0} is Read Only or Offline: no disk can use the drive, and nothing was reset")]
    Unusable(u32),
    /// People cannot be told what would be lost. No zone was reset.
    #[error("standard error failed: what would be destroyed cannot be told, and nothing was reset")]
    Untold,
    /// Its geometry is out of range.
    #[error("the geometry of the drive is out of range")]
    Limits,
    /// It completes no more commands.
    #[error("the drive has stopped")]
    Stopped,
    /// It failed at a command while it was looked at. Nothing was reset.
    #[error("the drive failed at a command, and nothing was reset")]
    Failed,
    /// What it returned while it was looked at does not fit together. Nothing was reset.
    #[error("what the drive returned does not fit together, and nothing was reset")]
    Damaged,
    /// A Reset of the zone of this number was not answered by success. The zones before it are Empty.
    #[error("the reset of zone {0} failed: {1}. The zones before it are Empty: repeat format --force")]
    Reset(u32, PortFault),
    /// What was done cannot be told.
    #[error("all zones are Empty, but standard output failed")]
    Output,
    /// An allocation failed.
    #[error("out of memory")]
    Memory,
}
