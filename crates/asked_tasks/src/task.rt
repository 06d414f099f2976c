use device_jobs::{ConvertJob, DeviceJob};
use disk_copies::CopyJob;
use disk_jobs::Job;
use nbd_jobs::NbdJob;
use repair_jobs::RepairJob;
use rescue_jobs::RescueJob;
use tool_jobs::ToolJob;

/// What the words of a command line ask for.
#[derive(Debug, PartialEq, Eq, Drop)]
pub enum Task {
    /// A job whose lines are read from standard input, if it has some.
    Lines(Job),
    /// A drive that is served by the Network Block Device protocol.
    Nbd(NbdJob),
    /// Blocks that are copied out of a drive, or into one.
    Copy(CopyJob),
    /// A tool that looks at a drive, or plans one.
    Tool(ToolJob),
    /// A drive that is put into a file of the other kind.
    Convert(ConvertJob),
    /// The disk of a drive, however broken the drive is.
    Rescue(RescueJob),
    /// A drive whose zones are repaired that end in something foreign.
    Repair(RepairJob),
    /// A job on the drive of a device, and not on one in a file. Or a new drive is made that stays in its file.
    Device(DeviceJob),
}
