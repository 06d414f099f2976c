/// Who wrote a batch: the host's commands, or the cleaner, which moves live records out of a zone.
#[derive(Clone, Copy, Debug, PartialEq, Eq)]
pub enum Kind {
    /// The host's commands: kind 1.
    Host,
    /// The cleaner, or the repair of a torn zone: kind 2.
    Move,
}

/// What a batch says of one logical block: that its data follows the header, or, for a trim, that
/// the block is zeros and no data follows.
#[derive(Clone, Copy, Debug, PartialEq, Eq)]
pub struct Entry {
    /// The logical block, below 2^63.
    pub block: u64,
    /// Whether the block is zeros, without data.
    pub trim: bool,
}

/// The header of a batch.
#[derive(Debug, Drop)]
pub struct Header {
    /// Who wrote the batch.
    pub kind: Kind,
    /// Batches of a drive are numbered in the order in which they were written.
    pub sequence: u64,
    /// The zone that a Move empties, 0 for a Host batch.
    pub source: u32,
    /// The number of logical blocks of the disk, 1 to 2^31: in a header of version 2. A header of
    /// version 1 does not say it.
    pub size: Option<u32>,
    /// At most `entry_room` entries, of distinct blocks.
    pub entries: Vec<Entry>,
}
