use crate::change::Sum;

/// What a reader finds where the next change would begin.
#[derive(Clone, Copy, Debug, PartialEq, Eq)]
pub(crate) enum Found {
    /// Nothing: the file ends here.
    End,
    /// A whole change, and the sum after it.
    Change(Sum),
    /// A change that was cut off.
    CutOff,
    /// Damage: bytes that begin with the mark of a change, but are neither a whole change nor the
    /// beginning of one.
    Damaged,
    /// The mark of an older version.
    Earlier,
    /// Any other bytes.
    Other,
}
