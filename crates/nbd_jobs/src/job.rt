use job_drives::Stop;
use zone_drive::Habit;

/// That a disk forgets: what is written to it stays in a cache until it is synced, and may be lost before.
#[derive(Clone, Copy, Debug, PartialEq, Eq)]
pub struct Forget {
    /// What chooses the blocks that are lost.
    pub seed: u64,
    /// About how many of 100 pending blocks are lost: 0 loses none, and 100 all.
    pub odds: u32,
    /// After how many requests the power is cut, if the session goes on so long.
    pub cut_after: Option<u64>,
}

/// That the medium of a disk fails by chance, for tests of clients. Then a request is answered by an error, and nothing
/// is done.
#[derive(Clone, Copy, Debug, PartialEq, Eq)]
pub struct Fail {
    /// What chooses the requests that fail.
    pub seed: u64,
    /// About how many of 100 reads, writes, trims and writes of zeros fail: 0 none, and 100 all.
    pub odds: u32,
}

/// A drive in a file that is served to one client by the Network Block Device protocol.
#[derive(Debug, PartialEq, Eq, Drop)]
pub struct NbdJob {
    /// The path of the file.
    pub image: String,
    /// How many logical blocks the disk has if its drive does not say how many. A drive that was written says it.
    pub blocks: Option<u64>,
    /// When the drive stops.
    pub stop: Stop,
    /// Whether the disk forgets. Then its drive has what was applied, and stops by itself.
    pub forget: Option<Forget>,
    /// Whether the medium fails by chance in requests. It fails in no sync.
    pub fail: Option<Fail>,
    /// Which zones the drive closes by itself.
    pub habit: Habit,
    /// Whether what was written and moved is shown at the end.
    pub statistics: bool,
    /// Whether a turn of cleaning is taken after each request, if one is due. None is taken if the drive is only read.
    pub idle: bool,
    /// Whether the drive is only read: what would change it is refused, and the file stays as it is.
    pub read_only: bool,
}
