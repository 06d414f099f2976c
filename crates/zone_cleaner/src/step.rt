use logical_map::Place;

/// What a clean does in its next turn.
#[derive(Clone, Copy, Debug, PartialEq, Eq)]
pub enum Step {
    /// The record of this block, which is there, is gathered.
    Gather(u32, Place),
    /// The gathered records are appended to the destination, as one Move.
    Move,
    /// The victim is emptied, and the clean ends.
    Reset,
    /// The destination is emptied, and the clean is given up: data in the victim could not be read.
    Undo,
}
