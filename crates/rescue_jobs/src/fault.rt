use drive_rescue::RescueFault;
use job_drives::{NoDiskFault, SystemError};
use thiserror::Error;
use tool_jobs::ToolFault;
use zone_translator::DiskFault;

/// Why a disk is not rescued, or only its first blocks.
#[derive(Clone, Copy, Debug, PartialEq, Eq, Error)]
pub enum RescueJobFault {
    /// The file holds no drive, or is not used.
    #[error("{0}")]
    File(ToolFault),
    /// The blocks are not given, or only the first ones.
    #[error("{0}")]
    Rescue(RescueFault),
    /// No header that was found says how many blocks the disk has, and no number was given. Nothing is written.
    #[error("no header that was found says how many blocks the disk has: --blocks says it")]
    NoSize,
    /// The new drive is not mounted. Nothing is written to it.
    #[error("{0}")]
    Mount(NoDiskFault),
    /// The new drive took only the first blocks.
    #[error("the new drive took only the first blocks: {0}")]
    Disk(DiskFault),
    /// The image of the new drive is not made.
    #[error("{0}")]
    NewImage(ToolFault),
    /// The file for the lists is not made, or not written.
    #[error("{0}")]
    Lists(SystemError),
}
