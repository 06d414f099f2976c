ghost use Rattle.std.specs.Prelude.{◌≡◌, IfNone, IfSome, None, Some};
ghost use Rattle.disk_jobs.specs.Asked.{blocks_asked, explains, image_asked, shows_progress, stop_asked, syncs};
ghost use Rattle.disk_jobs.specs.Saved.{reads_only};

use job_drives::Stop;
use zone_drive::Habit;
use zone_states::Geometry;

/// What the words of a command line ask for. `image` is the path of a file.
#[derive(Debug, PartialEq, Eq, Drop)]
pub enum Job {
    /// Makes a fresh drive, and saves its image in the file. With `force` the file may hold something else.
    Format {
        image: String,
        geometry: Geometry,
        force: bool,
    },
    /// Reads a drive from the file, restarts it, mounts it as `blocks` logical blocks, answers the
    /// lines of a trace, and saves it.
    ///
    /// After the replies, `statistics` shows what was written and moved, and `zones` the zones of
    /// the drive. `habit` says which zones the drive closes by itself. With `sync` a reply is sent
    /// only once the changes before it are on the disk. With `read_only` the mount repairs the
    /// drive only in memory, only lines that read are answered, and nothing is saved. `progress`
    /// shows on standard error how many lines were read. `habit` and `sync` mean the same below.
    Run {
        image: String,
        blocks: u64,
        zones: bool,
        statistics: bool,
        stop: Stop,
        habit: Habit,
        sync: bool,
        read_only: bool,
        progress: bool,
    },
    /// Shows the zones of the drive in the file, as they were saved.
    Report {
        image: String,
    },
    /// Reads a drive from the file, restarts it, submits the entry of each raw line to it, and
    /// saves it. With `explain` standard error says the status of each completion.
    Nvme {
        image: String,
        explain: bool,
        habit: Habit,
        sync: bool,
    },
    /// Makes a fresh drive in memory, mounts it as `blocks` logical blocks, and answers the lines
    /// of a trace. After the replies, `statistics` shows what was written and moved, and `report`
    /// the zones of the drive.
    Fresh {
        geometry: Geometry,
        blocks: u64,
        report: bool,
        statistics: bool,
        stop: Stop,
        habit: Habit,
    },
    /// Makes a fresh drive in memory, and submits the entry of each raw line to it.
    FreshRaw {
        geometry: Geometry,
        habit: Habit,
    },
}

impl Job {
    /// Whether the job is a run that only reads its file.
    pub fn reads_only(&self) -> bool
        ensures { result ≡ reads_only self.now }
    {
        match self {
            Job::Run { read_only, .. } => *read_only,
            _ => false,
        }
    }

    /// Whether replies wait until the changes before them are on the disk. A job that only reads
    /// makes no changes.
    pub fn sync(&self) -> bool
        ensures { result ≡ syncs self.now }
    {
        match self {
            Job::Run {
                sync,
                read_only,
                ..
            } => *sync && !*read_only,
            Job::Nvme { sync, .. } => *sync,
            _ => false,
        }
    }

    /// Whether standard error shows how many lines were read.
    pub fn shows_progress(&self) -> bool
        ensures { result ≡ shows_progress self.now }
    {
        match self {
            Job::Run { progress, .. } => *progress,
            _ => false,
        }
    }

    /// Whether standard error says the status of each completion.
    pub fn explains(&self) -> bool
        ensures { result ≡ explains self.now }
    {
        match self {
            Job::Nvme { explain, .. } => *explain,
            _ => false,
        }
    }

    /// How many logical blocks the job says that its disk has.
    pub fn blocks(&self) -> Option<u64>
        ensures { result ≡ blocks_asked self.now }
    {
        match self {
            Job::Run { blocks, .. } => Some(*blocks),
            _ => None,
        }
    }

    /// After how many commands the drive of the job stops, if the job asks for that.
    pub fn stop(&self) -> Option<u64>
        ensures { result ≡ stop_asked self.now }
    {
        match self {
            Job::Run { stop, .. } | Job::Fresh { stop, .. } if *stop != Stop::NEVER => {
                Some(stop.commands)
            }
            _ => None,
        }
    }

    /// The shape of the drive that the job makes, if it makes one.
    pub fn geometry(&self) -> Option<Geometry> {
        match self {
            Job::Format { geometry, .. }
            | Job::Fresh { geometry, .. }
            | Job::FreshRaw { geometry, .. } => Some(*geometry),
            _ => None,
        }
    }

    /// The path of the image file, if the job has one.
    pub fn image(&self) -> Option<&str>
        ensures path { IfSome result (λ path. image_asked self.now ≡ Some path.now) }
        ensures none { IfNone result (image_asked self.now ≡ None) }
    {
        match self {
            Job::Format { image, .. }
            | Job::Run { image, .. }
            | Job::Report { image }
            | Job::Nvme { image, .. } => Some(image.as_str()),
            Job::Fresh { .. } | Job::FreshRaw { .. } => None,
        }
    }
}
