use disk_copies::CopyJob;
use disk_runs::Taking;
use job_drives::Stop;
use nbd_jobs::NbdJob;
use nvme_wire::ZoneState;
use repair_jobs::RepairJob;
use rescue_jobs::RescueJob;
use tool_jobs::{CheckJob, InfoJob, PlanForm, ZonesJob};
use write_plan::Aim;
use zone_drive::Habit;
use zone_states::Geometry;

/// A trace that is answered over the drive behind a device. `device` is the path of the device, here and below.
#[derive(Debug, PartialEq, Eq, Drop)]
pub struct DeviceRun {
    pub device: String,
    /// How many logical blocks the disk has if its drive does not say how many.
    pub blocks: u64,
    /// Whether the zones of the drive are shown after the replies.
    pub zones: bool,
    /// Whether it is shown after the replies what was written and moved.
    pub statistics: bool,
    /// When no more commands are sent to the drive.
    pub stop: Stop,
    /// Which zones the drive closes by itself. A real drive has its own habit.
    pub habit: Habit,
    /// Which lines are taken, and whether the drive is flushed after each that changes it. Of a real drive all are
    /// taken, and it is flushed at the end.
    pub takes: Taking,
    /// Whether people are told how many lines were read.
    pub progress: bool,
}

/// A drive that is put into a file of the other kind. Where the file of `image` holds an image, the drive stays in the
/// new file `to`. Where it holds a drive that stays in it, `to` is an image.
#[derive(Debug, PartialEq, Eq, Drop)]
pub struct ConvertJob {
    pub image: String,
    pub to: String,
}

/// What is asked of the drive behind a device, or of one that stays in its file. A job that is also one of an image has
/// the path of the device as its `image`.
#[derive(Debug, PartialEq, Eq, Drop)]
pub enum DeviceJob {
    /// Makes a drive in which nothing is written. Only with `force` what the drive holds is destroyed.
    Format {
        device: String,
        force: bool,
    },
    /// Makes a new drive of this shape that stays in the file of this path. It is refused where something is there.
    Create {
        image: String,
        geometry: Geometry,
    },
    /// Mounts the drive, and answers the lines of a trace.
    Run(DeviceRun),
    /// Shows the zones of the drive: all, or those in a state.
    Report {
        device: String,
        state: Option<ZoneState>,
    },
    /// Shows the zones of the drive in another form. A Full zone is shown as written in full.
    Zones(ZonesJob),
    /// Sends the entry of each raw line to the drive as it is. With `explain` people are told the status of each
    /// completion. With `sync` a Flush follows each entry that may change the drive, before its completion is shown.
    Nvme {
        device: String,
        explain: bool,
        habit: Habit,
        sync: bool,
    },
    /// Serves the drive by the Network Block Device protocol. `read_only` cannot be chosen for a real drive.
    Nbd(NbdJob),
    /// Shows all faults of the drive.
    Check(CheckJob),
    /// Shows what the drive holds.
    Info(InfoJob),
    /// Shows what numbers of logical blocks cost on the drive.
    Plan {
        device: String,
        aim: Aim,
        form: PlanForm,
    },
    /// Copies blocks out of the drive, or into it.
    Copy(CopyJob),
    /// Gives the disk of a drive, however broken it is. The drive is only read.
    Rescue(RescueJob),
    /// Repairs the zones of a drive that end in something foreign, or tells which these are.
    Repair(RepairJob),
}

impl DeviceJob {
    /// The path of the device.
    pub fn path(&self) -> &str {
        match self {
            DeviceJob::Format { device, .. }
            | DeviceJob::Report { device, .. }
            | DeviceJob::Plan { device, .. }
            | DeviceJob::Nvme { device, .. } => device.as_str(),
            DeviceJob::Create { image, .. } => image.as_str(),
            DeviceJob::Run(job) => job.device.as_str(),
            DeviceJob::Nbd(job) => job.image.as_str(),
            DeviceJob::Check(job) => job.image.as_str(),
            DeviceJob::Info(job) => job.image.as_str(),
            DeviceJob::Zones(job) => job.image.as_str(),
            DeviceJob::Copy(job) => job.image(),
            DeviceJob::Rescue(job) => job.image.as_str(),
            DeviceJob::Repair(job) => job.image.as_str(),
        }
    }
}
