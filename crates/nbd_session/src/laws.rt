//! What a client may rely on. Each function carries a law as its contract, and changes nothing.

ghost use Rattle.nbd_session.specs.Laws.{AnsweredByDisk, FailedIsUndone, FlushIsSafe, ForcedIsDurable};
ghost use Rattle.nbd_session.specs.Laws.{GroupIsItsWrites, LeftIsFound, ReadOnlyKeepsArray, SessionKeepsMode};
ghost use Rattle.nbd_session.specs.Laws.{ServedWhileClean, SessionKeepsSafe};

/// After a FLUSH that is answered by success the array was synced, and is found again after a loss of power. After a
/// write with FUA that is so of the blocks that it named and, if nothing is pending, of the whole array.
pub fn forced_is_durable()
    ensures { ForcedIsDurable }
{}

/// Requests that have come together, and are done, leave the array that their blocks leave where each is written by a
/// call of its own, in their order.
pub fn group_is_its_writes()
    ensures { GroupIsItsWrites }
{}

/// A request that is answered by EIO, and had not to be durable, shows nothing. It was not done, or its disk refused
/// it, since the drive failed at a command. What is asked of a store that does not fail is answered by its disk.
pub fn failed_is_undone()
    ensures undone { FailedIsUndone }
    ensures answered { AnsweredByDisk }
{}

/// A session of a store that is read only leaves its array as it was.
pub fn read_only_keeps_array()
    ensures { ReadOnlyKeepsArray }
{}

/// A session forgets no sync, and its store stays read only, cleans, flushes, defers and fails as it did before. One
/// that does not defer has nothing pending afterwards.
pub fn session_keeps_mode()
    ensures { SessionKeepsMode }
{}

/// What a loss of power leaves of the drive of a flushed disk is found again. A flush that is done makes it so, a
/// session keeps it so, and a mount finds one of the arrays that the store says may be left.
pub fn loss_is_found()
    ensures flush { FlushIsSafe }
    ensures session { SessionKeepsSafe }
    ensures found { LeftIsFound }
{}

/// A session over any device, after which the drive is clean, is one of a store that does each thing as it is to be.
pub fn clean_is_right()
    ensures { ServedWhileClean }
{}
