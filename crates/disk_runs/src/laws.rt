//! What holds of runs. Each function carries laws as its contract, and changes nothing.

ghost use Rattle.disk_runs.specs.AnyDevice.{any_lines};
ghost use Rattle.disk_runs.specs.Laws.{AnsweredIsDurable, CleansEnd, CommandsAreFew, DriveIsDurable, LastIsFew};
ghost use Rattle.disk_runs.specs.Laws.{LinesKeepSize, ReadsKeepArray, RunIsDurable, RunKeepsShape, TurnsAreFew};
ghost use Rattle.disk_runs.specs.Taken.{disk_lines};

/// A run of which only the lines are taken that read leaves the array as it was.
pub fn reads_keep_array()
    ensures { ReadsKeepArray }
{}

/// Whatever lines a run is given, it takes no more commands than those lines may. A clean that runs ends by its C-th
/// turn, where a zone has C blocks, whatever lines fall between its turns.
pub fn runs_make_progress()
    // Each answered line takes so many commands at most, with its flush if one is due. Those of a line that mounts the
    // drive again are not counted.
    ensures commands { CommandsAreFew disk_lines }
    // So does the line that ends a run.
    ensures last { LastIsFew disk_lines }
    // The clean that runs has never more than C - 1 turns left.
    ensures few { TurnsAreFew }
    // Once lines have asked for as many turns as were left, there was a moment when no clean ran.
    ensures ends { CleansEnd }
{}

/// Over any device, whatever its Reads return, a run keeps the shape of the drive, and takes no more commands than its
/// lines may.
pub fn any_device_is_kept()
    // However the run ends.
    ensures shape { RunKeepsShape }
    // The size stays through lines that neither grow the disk nor mount the drive again.
    ensures size { LinesKeepSize }
    // Each answered line takes so many commands at most, with its flush if one is due. So does the line that ends a
    // run.
    ensures commands { CommandsAreFew any_lines }
    ensures last { LastIsFew any_lines }
{}

/// In a synced run a loss of power leaves the array after the last line that was answered, whenever it comes: it leaves
/// zones that the drive says, and a mount of them finds that array.
pub fn replied_is_durable()
    // Whatever lines were answered so far. If no flush was due, what was left before them may be left, too.
    ensures answered { AnsweredIsDurable }
    // So it is however the run ends. If the line that ended it was done, the array after that line may be left, too.
    ensures runs { RunIsDurable }
    // The same of the drive that was mounted for a run, and is given back.
    ensures drives { DriveIsDurable }
{}
