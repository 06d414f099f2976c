//! What a client may rely on. Each function carries laws as its contract, and changes nothing.

ghost use Rattle.nbd_jobs.specs.Laws.{JobWhileClean, LossIsFound, MessageKeepsSettled, SettledIsLeft};
ghost use Rattle.nbd_jobs.specs.Laws.{UnaskedIsForgotten, UnaskedIsServed};

/// Whatever a loss of power leaves of a drive that was served, and flushed at each sync, is found again: a mount of the
/// restarted drive finds an array that the session says may be left.
pub fn loss_is_found()
    ensures { LossIsFound }
{}

/// What was synced, and not written since, is in what is left of a disk that forgets. A message that does not change a
/// settled block leaves it settled. A block that is settled when the session ends is left, whatever was lost.
pub fn synced_is_left()
    ensures message { MessageKeepsSettled }
    ensures left { SettledIsLeft }
{}

/// If the medium is not to fail, a session is one of the disk as it is: a request is answered by `EIO` only by a sync,
/// or where the drive fails at a command.
pub fn fails_only_if_asked()
    ensures served { UnaskedIsServed }
    ensures forgotten { UnaskedIsForgotten }
{}

/// Over a device whose Reads may lie, a session after which the drive is clean is one over an honest device.
pub fn clean_is_right()
    ensures { JobWhileClean }
{}
