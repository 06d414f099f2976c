/// What was lost when the device stopped.
#[derive(Clone, Copy, Debug, PartialEq, Eq)]
pub enum Loss {
    /// Nothing: the store has the changes of all commands that were completed, and no other.
    Nothing,
    /// A change: the store failed, and the command was not done.
    Change,
    /// A completion: the store has the change, and there was no memory to do the command.
    Completion,
}
