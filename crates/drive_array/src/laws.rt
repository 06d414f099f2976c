//! What holds of all logs and of all drives' contents. Each function carries its laws as its contract,
//! and does nothing.

ghost use Rattle.drive_array.specs.Laws.{AppendFirst, AppendKeepsSpare, AppendLogs, AppendWrites, ClearingKeeps};
ghost use Rattle.drive_array.specs.Laws.{EmptySpare, FewFit, FinishLogs, FinishMounts, GreatestIs, LowestResets};
ghost use Rattle.drive_array.specs.Laws.{NewestIsLive, NextIsLast, OneClearing, RestartMounts, SpareResets};
ghost use Rattle.drive_array.specs.Laws.{EncodedCount, EncodedWhole, TornLogs, TornMounts, VacantResets};
ghost use Rattle.drive_array.specs.Repairing.{MoveRepairs, NeededStays, RepairBegins, RepairEnds};
ghost use Rattle.drive_array.specs.Repairing.{RepairMounts, TornMoveRepairs};

/// `newest` finds a live record of the block, where there is a record of it.
pub fn newest_is_live()
    ensures { NewestIsLive }
{}

/// `greatest` finds the greatest size in the headers, if any.
pub fn greatest_is()
    ensures { GreatestIs }
{}

/// A batch with the greatest sequence counts as if its records came first.
pub fn append_first()
    ensures { AppendFirst }
{}

/// A batch with the greatest sequence grows the array and the map to the size that the logs have with it,
/// and then changes them only by its records. Such is the next batch of a disk; a spare or half clean zone
/// that it does not go to stays so.
pub fn append_writes()
    ensures writes { AppendWrites }
    ensures next { NextIsLast }
    ensures spare { AppendKeepsSpare }
{}

/// A spare zone can be emptied: the array stays, with its size.
pub fn empty_spare()
    ensures { EmptySpare }
{}

/// There is exactly one clearing, and it keeps the array, with its size.
pub fn one_clearing()
    ensures one { OneClearing }
    ensures keeps { ClearingKeeps }
{}

/// An Append of a batch leaves the zone's log and the batch; one that was stopped midway keeps all logs.
pub fn append_logs()
    ensures whole { AppendLogs }
    ensures torn { TornLogs }
{}

/// A Finish of a zone without a torn tail keeps all logs.
pub fn finish_logs()
    ensures { FinishLogs }
{}

/// Live records of a zone whose batches are like ours fit in one zone, so a drive with one such torn zone
/// can be mounted.
pub fn torn_mounts()
    ensures fit { FewFit }
    ensures mounts { TornMounts }
{}

/// A drive can be mounted after a Finish of a zone without a torn tail, and after a restart.
pub fn finish_mounts()
    ensures finish { FinishMounts }
    ensures restart { RestartMounts }
{}

/// A drive can be mounted after the Reset of its lowest half clean zone, of a vacant one, and of a spare
/// one if no other zone is torn.
pub fn resets_mount()
    ensures lowest { LowestResets }
    ensures vacant { VacantResets }
    ensures spare { SpareResets }
{}

/// The encoded array has the drive's size; on a drive that can be mounted each of its blocks is a whole
/// block.
pub fn encoded_blocks()
    ensures count { EncodedCount }
    ensures whole { EncodedWhole }
{}

/// A torn zone of a cleared drive is repaired by Moves to a vacant zone: after each of them, whole or torn,
/// the drive can be mounted, with the same array. After the last one nothing is lost with the torn zone.
pub fn repair_mounts()
    ensures begins { RepairBegins }
    ensures mounts { RepairMounts }
    ensures whole { MoveRepairs }
    ensures torn { TornMoveRepairs }
    ensures ends { RepairEnds }
    ensures needed { NeededStays }
{}
