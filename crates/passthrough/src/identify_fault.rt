use thiserror::Error;

/// Why a disk does not work on a namespace: the first test that fails, in this order. The last one is made only for a
/// disk that is to be changed.
#[derive(Clone, Copy, Debug, PartialEq, Eq, Error)]
pub enum IdentifyFault {
    /// The drive refuses Identify for the Zoned Namespace Command Set.
    #[error("the namespace is not zoned: the drive does not identify it by the Zoned Namespace Command Set")]
    NotZoned,
    /// The bytes of metadata of a block.
    #[error("a block has metadata ({0} bytes), and may have none")]
    Metadata(u16),
    /// The type of the protection information.
    #[error("a block has protection information (type {0}), and may have none")]
    Protection(u8),
    /// The size of a block, as a power of two.
    #[error("a block has 2^{0} bytes, and has to have 512 (2^9) or 4096 (2^12)")]
    BlockSize(u8),
    /// What DLFEAT says of unwritten blocks.
    #[error("a block that is not written does not read as zeros (DLFEAT is {0}, and has to be 1)")]
    Unwritten(u8),
    /// The size of a zone, in blocks.
    #[error("the zone size is {0} blocks, and has to be 1 to 1048576")]
    ZoneSize(u64),
    /// The blocks of the namespace are no whole number of zones.
    #[error("the namespace has {blocks} blocks, and has to have whole zones of {size}")]
    Remainder { blocks: u64, size: u32 },
    /// How many zones there are.
    #[error("the number of zones is {0}, and has to be 3 to 65536")]
    Zones(u64),
    /// The capacity of a zone may vary.
    #[error("the zone capacity may vary (bit 0 of ZOC is 1)")]
    VariableCapacity,
    /// The drive may make active zones Full by itself.
    #[error("the drive may finish active zones by itself (bit 1 of ZOC is 1)")]
    ActiveExcursions,
    /// The bytes of a zone descriptor's extension.
    #[error("a zone descriptor has an extension ({0} bytes), and may have none")]
    Extension(u16),
    /// The blocks of a zone that can be written.
    #[error("the zone capacity is {capacity} blocks, and has to be 4 to the zone size of {size}")]
    Capacity { capacity: u64, size: u32 },
    /// The blocks that one command may move.
    #[error("the largest transfer in blocks is {0}, and has to be 2 or more")]
    Transfer(u64),
    /// The zones that may be active at a time.
    #[error("the limit on active zones is {0}, and has to be 2 or more")]
    Active(u32),
    /// Its NSATTR says that no host can write to it now.
    #[error("the namespace is write protected (bit 0 of NSATTR is 1): it can be read, and not changed")]
    WriteProtected,
}
