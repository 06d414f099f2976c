ghost use Rattle.std.specs.Prelude.{◌≡◌, IfNone, IfSome, None, Some};
ghost use Rattle.tool_jobs.specs.Asked.{image_asked};

use crate::checking::CheckForm;
use crate::informing::InfoForm;
use crate::planning::PlanForm;
use crate::showing::ZonesForm;
use nvme_wire::ZoneState;
use tool_forms::EntryWords;
use write_plan::Aim;
use zone_states::Geometry;

/// A drive that is checked. `image` is the path of its file, here and below.
#[derive(Debug, PartialEq, Eq, Drop)]
pub struct CheckJob {
    pub image: String,
    /// How many logical blocks the disk has if its drive does not say how many.
    pub blocks: u64,
    pub form: CheckForm,
}

/// A drive of which is told what it holds.
#[derive(Debug, PartialEq, Eq, Drop)]
pub struct InfoJob {
    pub image: String,
    pub form: InfoForm,
}

/// The drive that a plan is for.
#[derive(Debug, PartialEq, Eq, Drop)]
pub enum PlannedDrive {
    /// One of this shape.
    Shape(Geometry),
    /// The one in the file of this path.
    Image(String),
}

/// A plan that is asked for.
#[derive(Debug, PartialEq, Eq, Drop)]
pub struct PlanJob {
    pub drive: PlannedDrive,
    pub aim: Aim,
    pub form: PlanForm,
}

/// Zones that are shown.
#[derive(Debug, PartialEq, Eq, Drop)]
pub struct ZonesJob {
    pub image: String,
    pub form: ZonesForm,
}

/// What a tool is asked for. None of them changes a file.
#[derive(Debug, PartialEq, Eq, Drop)]
pub enum ToolJob {
    /// All faults of a drive.
    Check(CheckJob),
    /// What a drive holds.
    Info(InfoJob),
    /// What numbers of logical blocks cost on a drive.
    Plan(PlanJob),
    /// The words that make a drive for a number of bytes.
    Format { bytes: u64 },
    /// The zones of a drive, as they were saved.
    Zones(ZonesJob),
    /// The raw line of an entry.
    Entry(EntryWords),
}

impl ToolJob {
    /// The path of the file, if the job reads one.
    pub fn image(&self) -> Option<&str>
        ensures path { IfSome result (λ path. image_asked self.now ≡ Some path.now) }
        ensures none { IfNone result (image_asked self.now ≡ None) }
    {
        match self {
            ToolJob::Check(job) => Some(job.image.as_str()),
            ToolJob::Info(job) => Some(job.image.as_str()),
            ToolJob::Zones(job) => Some(job.image.as_str()),
            ToolJob::Plan(job) => match &job.drive {
                PlannedDrive::Image(path) => Some(path.as_str()),
                PlannedDrive::Shape(_) => None,
            },
            ToolJob::Format { .. } | ToolJob::Entry(_) => None,
        }
    }
}
