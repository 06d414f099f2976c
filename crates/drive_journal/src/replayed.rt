use crate::change::Sum;

/// Where the whole changes of a file end.
#[derive(Clone, Copy, Debug, PartialEq, Eq)]
pub struct Replayed {
    /// How many bytes of the file are the image and whole changes.
    pub whole: u64,
    /// The sum after the last of the changes.
    pub sum: Sum,
    /// Whether the file ends there. Else a change follows that was cut off.
    pub is_all: bool,
}
