use drive_survey::MountFault;

/// The first fault of the batches of a zone by themselves, whatever other zones hold.
#[derive(Clone, Copy, Debug, PartialEq, Eq)]
pub struct ZoneFault {
    pub zone: u32,
    /// `Log`, `Spent` or `SequenceRepeated`.
    pub fault: MountFault,
}

/// A sequence of a batch that an earlier batch has, too, in the order of the zones.
#[derive(Clone, Copy, Debug, PartialEq, Eq)]
pub struct Repeat {
    /// The zone of the later batch.
    pub zone: u32,
    pub sequence: u64,
}

/// A zone that names a block past the end of the disk.
#[derive(Clone, Copy, Debug, PartialEq, Eq)]
pub struct PastEnd {
    pub zone: u32,
    /// The greatest block that it names.
    pub block: u64,
}

/// What is found of a drive.
#[derive(Drop)]
pub struct Findings {
    /// By what a mount is refused, if it is. `Failed` if the drive failed at a command before that was known.
    pub refusal: Option<MountFault>,
    /// The zones that are Read Only or Offline, in ascending order.
    pub unusable: Vec<u32>,
    /// How many zones are partly written. More than two are a fault.
    pub partly_written: usize,
    /// The zones whose batches have a fault by themselves, in ascending order.
    pub batches: Vec<ZoneFault>,
    /// The sequences that are met again in zones without such a fault, in the order of the batches.
    pub repeated: Vec<Repeat>,
    /// The zones without such a fault that name a block past the size which these zones say.
    pub past_end: Vec<PastEnd>,
    /// The zones without such a fault that have a torn tail after a batch. A mount repairs one of them.
    pub torn: Vec<u32>,
    /// The zones in which the drive failed at a command, in ascending order. What their batches say is not known.
    pub unread: Vec<u32>,
    /// How many zones were read by themselves, and have no fault of batches.
    pub readable: usize,
}
