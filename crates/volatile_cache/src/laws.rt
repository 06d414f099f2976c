//! What a client may rely on above a cache. Each function carries laws as its contract, and changes nothing.

ghost use Rattle.volatile_cache.specs.Laws.{CutIsForeseen, CutKeepsSettled, ForcedIsSettled, KillIsOutcome};
ghost use Rattle.volatile_cache.specs.Laws.{NothingIsMadeUp, RequestKeepsSettled};

/// What was made durable stays so. A FLUSH, or a write with FUA, that is answered by success settles what it names. A
/// request that does not change a settled block leaves it settled. A settled block is in each outcome of a cut.
pub fn synced_is_kept()
    ensures forced { ForcedIsSettled }
    ensures request { RequestKeepsSettled }
    ensures cut { CutKeepsSettled }
{}

/// Each outcome of a cut is one that the view of the cache says may be left, if the store below says so of its array
/// as it is. That a program is killed is an outcome, too.
pub fn cut_is_foreseen()
    ensures cut { CutIsForeseen }
    ensures kill { KillIsOutcome }
{}

/// Each block that a cut leaves is the one of the store below, or one that was written there and was pending.
pub fn nothing_is_made_up()
    ensures { NothingIsMadeUp }
{}
