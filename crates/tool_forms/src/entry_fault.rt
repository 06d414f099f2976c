use thiserror::Error;

/// Why words are no entry.
#[derive(Clone, Copy, Debug, PartialEq, Eq, Error)]
pub enum EntryFault {
    /// An option was given that the command does not take.
    #[error("the command does not take all of these options")]
    Options,
    /// The number of blocks does not fit its field.
    #[error("--blocks is 1 to 65536")]
    Blocks,
    /// The buffer has not even room for the head of a report, or is too long for its field.
    #[error("--dwords is 16 to 4294967296")]
    Dwords,
    /// The identifier does not fit its field.
    #[error("--id is 0 to 65535")]
    Id,
}
