//! The jobs of the program, and doing them.
//!
//! ```text
//! let gate = Gate::open();
//! let count = LineCount::new();
//! let mut input = JobInput::new(alloc, &gate, &count, rt.reader());
//! let done = do_job(&rt, alloc, &job, &mut input, &mut output);
//! if let Err(fault) = done.job {
//!     let text = explain(alloc, &job, fault, &mut input, done.mounting)?;
//! }
//! match done.saved {
//!     Ok(saved) if saved.is_restored => restored_note(alloc, path)?,
//!     Ok(_) => String::new(alloc),
//!     Err(fault) => explain(alloc, &job, fault, &mut input, done.mounting)?,
//! };
//! ```
//!
//! A [`Job`] is what the words of the command line ask for (`asked_tasks` reads them). [`run_job`] does it, and
//! [`do_job`] does it on the drive of its file: it locks the file, and saves the drive. [`LinesDone`] says how the job
//! ended and how the save did. [`explain`] says what a fault is in a line for people; the input has the one at which a
//! run ended. [`size_notes`] says what is to be known of the size of the disk. [`Explained`] passes the replies of
//! `nvme` on, and tells what their statuses are. [`Watched`] says how much of a stream was read or written.
//!
//! # What is promised
//!
//! Of [`run_job`], over every reader and every store:
//!
//! * What is handed back is what the lines left, also after a fault: of `run`, what `run_trace` of `disk_runs` left of
//!   the drive in the file, restarted, with its stop; of `nvme`, what `run_raw` left of it; of `format`, a fresh drive
//!   (`LeftByLines` in `specs/Saved.antt`). If the store failed, only the store has that drive, and nothing is saved.
//! * The store of `run` and `nvme` holds that drive too: its image, and all changes since. A failed store is told
//!   exactly if the store says so.
//! * A run with `--read-only` answers only lines that read, by the drive in the file, which it mounts and repairs in
//!   memory. Its store holds what it held, and its drive is not saved.
//! * Which disk was mounted is told. None is told only if the mount was refused, or the job mounts nothing
//!   (`TellsJob`).
//! * The fault that is told with a drive comes from the run. `Reserve` tells the greatest number of blocks that the
//!   drive has room for (`TellsRun`).
//! * There is no drive only after a report, or if none was made or read. Then no line was read, and the fault says
//!   why: the geometry or the bytes of the file have it, the writer failed, or memory ran out. Nothing is written
//!   before a fault of the file (`HasNoDrive`). A report shows the zones as they were saved, without a restart
//!   (`ShowsReport`).
//! * The output is the replies, and after a completed run the zones, if they are asked for. With `--statistics` some
//!   text is between, and all else is as without it (`ThenShows`, `RunsCounted`).
//! * What is saved in a file is the drive of the job, also after a fault, unless the job only reads. Nothing is saved
//!   if a change could not be written (`left_to_save`).
//!
//! Of a trace over any device, which stops ([`run_any_stopping`], [`run_any_counted`]; `specs/AnyDevice.antt`):
//!
//! * While the drive is clean, as long as each Read returned what the drive holds, it gives and leaves what `run_trace`
//!   of `disk_runs` does, and the disk is told that was mounted (`RunsAny`, `TellsMount`).
//! * Whatever the Reads returned, it ends, and the drive keeps its shape. Each line takes no more commands than it may,
//!   and each reply has its form. Without a disk nothing is written (`RunsAnyway`, `TellsMountAnyway`).
//!
//! Of [`format_file`], over every file (`specs/Formatting.antt`):
//!
//! * Without force a file is replaced only if it has no byte, or if its drive has no zone that is not Empty once it is
//!   restarted. Any other stays as it is, whatever is answered, and is told by what it holds (`MayReplace`, `IsHeld`).
//! * `ok` is written last: the file then has the fresh drive, and its name (`EndsFormat`).
//!
//! Of each fault: [`write_program_fault`] writes its line, or a beginning of it (`specs/FaultLine.antt`).
//!
//! # What is not proved
//!
//! * [`do_job`]: that the file of the path takes the changes, gets the image of that drive, and keeps what it holds if
//!   the save fails; that a format looks at the bytes of the file that it replaces. std's `Files` says nothing of what
//!   a path holds.
//! * The lock, held from before the image is read until the drive is saved; that a save keeps mode, owner, symbolic
//!   link, and every other file; that a file which failed says so, and keeps the first changes (`tools/two_programs`).
//! * When replies are sent, and that the changes before them are in the file by then (`tools/kill_runs`).
//! * That a run with `--read-only` leaves each byte of the file. By contract it hands no drive to be saved, and writes
//!   no change to its store (`job_tests`).
//! * That the device of a run keeps its `--stop-after`, `--tear` and `--habit` until it is given back. The rows of
//!   `worked_runs` and `job_tests` show that they act.
//! * That [`Explained`], [`Watched`] and `CountedLines` pass on what they are given: a stream may fail at any call. By
//!   contract [`Explained`] passes exactly these bytes; what it says on standard error is tested.
//! * The text of `--statistics`, the explanations of faults, what is said of the size of a disk, and how many commands
//!   a mount took, which standard error says after a stop (`job_tests`).
//!
//! Tests: `jobs.rt` and `file_jobs.rt` of `job_tests`; `tools/kill_runs` and `tools/two_programs`, on files.
#![tactic(auto)]

mod begun;
mod explanation;
mod fault;
mod file;
mod formatting;
mod holding;
mod input;
mod job;
mod line_count;
mod line_problem;
mod lines;
mod mounting;
mod notes;
mod program;
mod saving;
mod sending;
mod statistics;
mod status_words;
mod watched;

pub use explanation::{AskedLines, explain, explain_geometry, explain_lines, place};
pub use fault::{ProgramFault, write_program_fault};
pub use file::{LinesDone, do_job};
pub use formatting::format_file;
pub use holding::FileHolding;
pub use input::JobInput;
pub use job::Job;
pub use job_drives::{DiskSize, DriveFile, FileFault, Gate, Saved, Stop, SystemError};
pub use line_count::{CountedLines, LineCount};
pub use lines::{Answered, TraceRun, run_any_stopping, run_stopping};
pub use mounting::Mounting;
pub use notes::{restored_note, size_notes};
pub use program::{run_job, run_told};
pub use statistics::{run_any_counted, run_counted};
pub use status_words::Explained;
pub use watched::{Counted, Watched, is_terminal};
pub use zone_drive::Habit;
