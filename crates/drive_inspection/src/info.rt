use crate::finding::Findings;
use drive_counter::Counts;
use drive_survey::{MountFault, ReportedZone};
use zone_states::Geometry;

/// How many logical blocks have a live record, by what it says.
#[derive(Clone, Copy, Debug, PartialEq, Eq)]
pub struct LiveCount {
    /// Blocks whose live record has data.
    pub written: u32,
    /// Blocks whose live record is a trim.
    pub trimmed: u32,
}

/// What the batches of a zone hold.
#[derive(Clone, Copy, Debug, PartialEq, Eq)]
pub struct ZoneInfo {
    /// How many batches there are.
    pub batches: usize,
    /// The live records among theirs.
    pub live: LiveCount,
    /// Whether a torn tail follows the batches.
    pub is_torn: bool,
}

/// What the batches of a drive hold.
#[derive(Drop)]
pub struct Holdings {
    /// The greatest number of logical blocks that the drive can serve.
    pub most: u64,
    /// The number of logical blocks that the headers say, if one does.
    pub said: Option<u32>,
    /// How many logical blocks the drive has.
    pub size: u32,
    /// The greatest sequence of a batch, 0 without a batch.
    pub greatest: u64,
    /// The live records of all zones.
    pub live: LiveCount,
    /// What each zone holds, in ascending order.
    pub zones: Vec<ZoneInfo>,
}

/// How a mount repairs the torn zone.
#[derive(Clone, Copy, Debug, PartialEq, Eq)]
pub struct TornRepair {
    /// The torn zone.
    pub zone: u32,
    /// How many live records are moved out of it.
    pub records: u64,
    /// How many Moves that takes.
    pub moves: u64,
}

/// What a mount does to a drive before a disk can serve it.
#[derive(Drop)]
pub struct MountWork {
    /// The zones that are reset for having no batch, in ascending order.
    pub vacant: Vec<u32>,
    /// The half clean zones that are reset, each the lowest of its moment.
    pub half_clean: Vec<u32>,
    /// The torn zone that is repaired then, if one is left. It is reset, too.
    pub torn: Option<TornRepair>,
}

/// What a drive holds that can be mounted, and what a mount does to it.
#[derive(Drop)]
pub struct Info {
    pub holdings: Holdings,
    pub work: MountWork,
}

/// What is found of a drive.
#[derive(Drop)]
pub struct DriveInfo {
    pub geometry: Geometry,
    /// What a report tells of each zone. Empty if the geometry is out of range.
    pub zones: Vec<ReportedZone>,
    /// What the drive holds, or why a mount is refused: `Failed` if the drive failed at a command before that was
    /// known.
    pub found: Result<Info, MountFault>,
    /// All faults of a drive whose mount is refused.
    pub faults: Findings,
}

/// What a mount takes.
#[derive(Clone, Copy, Debug, PartialEq, Eq)]
pub struct Rehearsal {
    /// How many commands it completes.
    pub commands: u64,
    /// The sequence of the next batch.
    pub next: u64,
    /// How many batches the host can write from there on, until it is told `Spent`.
    pub left: u64,
}

/// What is found of a drive, and what mounting it took.
#[derive(Drop)]
pub struct InspectedDrive {
    pub info: DriveInfo,
    /// What a mount takes, or why it is refused. Or what ended it: `Halted` or `Failed`.
    pub mounted: Result<Rehearsal, MountFault>,
    /// The commands of that mount, by their kinds.
    pub counts: Counts,
}
