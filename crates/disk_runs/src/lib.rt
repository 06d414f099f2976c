//! Runs of lines: the lines of a reader are answered, in order, and a writer gets their replies.
//!
//! [`run_trace`] mounts a drive as a disk and answers the lines of a trace by the disk's calls. [`run_raw`] submits
//! the entry of each raw line to a drive. Both give the drive back. [`answer_trace`] answers lines over a disk that is
//! mounted: [`Taking`] says which, and whether the disk is flushed before a reply.
//!
//! ```text
//! let alloc = rt.alloc();
//! let drive = zone_drive::Drive::new(alloc, geometry)?;
//! let mut input = LineReader::new(alloc, rt.reader());
//! let mut output = io::writer(&rt);
//! let (drive, result) = disk_runs::run_trace(alloc, &mut input, &mut output, drive, 9);
//! if let Err(fault) = result {
//!     disk_runs::write_fault(alloc, fault, &mut output)?;
//! }
//! ```
//!
//! With the lines `fill 0 2 aa` and `read 1 1` the output is `ok`, `1 aa*512`, `ok`. The lines `write`, `trim`,
//! `idle`, `grow` and `remount` are answered too.
//!
//! # What is promised
//!
//! Of every honest device, every reader and every writer:
//!
//! * What is written are the replies of a flat disk, an array of blocks, to the lines that were read, in order,
//!   starting from the array that the drive encoded. The drive that is given back keeps the array to which they lead
//!   (`Runs`, `AnswersAll`). The bytes are promised where the reader and the writer say by contract which bytes they
//!   have left and hold, as those in memory do.
//! * A run ends with `Ok` only where the reader ended and every line was answered. It stops at the first line that is
//!   too long or not in the grammar, or whose `write` data is not whole blocks, and tells its number (`StopsAt`). It
//!   stops at the first line whose call is refused otherwise than by `OutOfRange`, `Smaller` or `Reserve`: so never at
//!   a skipped line, a call of no block or one past the end. It also stops at the first refused `remount`, if the
//!   reader or the writer fails, and if memory runs out. All earlier lines are answered.
//! * Of the line at which a run stops a beginning of the reply is written only if the writer failed; its call is then
//!   done. If the disk refused the call, the array has a front of its write, fill or trim; it has not grown, but a
//!   stop may leave it grown. After any other fault nothing came of the line.
//! * A refusal by the disk comes only for its cause. Of a read `fault memory` comes only if its reply is full.
//! * A line `idle K` that is answered took K turns, each by the step of the clean that was next. A line `fill`,
//!   `write` or `trim` was one write of the disk, by batches that are as large as they can be: the first two leave
//!   records with data, and the last one leaves trims. A line `grow` appended a batch, also where the size is the
//!   present one. After each of these the headers say the size. A line that is skipped changed nothing. The lines that
//!   were answered lead, one after the other, from the disk that was mounted to the one whose drive is given back.
//! * A line takes no more commands than the disk's calls may, answered or refused, and throws no clean back that runs.
//!   So a run takes no more than all its lines may, with one for each flush; what its remounts take is not counted. A
//!   clean ends by its `capacity`-th turn, whatever lines fall between (`laws::runs_make_progress`).
//! * Where only reads are taken, any other call is not done, and ends the run as a line that is not in the grammar
//!   does. Such a run leaves the array as it was (`laws::reads_keep_array`).
//! * In a synced run the disk is flushed after each line but those that read or are skipped, before the reply. So a
//!   loss of power leaves the array after the last line that was replied to, or the one after the line that ended the
//!   run, if that line was done (`laws::replied_is_durable`). If the flush is refused, that ends the run, and the line
//!   has no reply.
//! * Each answer but `Mount` comes from a drive that was mounted, that can be mounted again, and that refused no
//!   command. `Mount` is the fault of the first mount, and then nothing is written; or of a line `remount`, which is
//!   refused only where memory ran out, or the drive has stopped or failed at a command. Such a drive can be mounted as
//!   well, with the same array.
//! * Over any device, whatever its Reads return, a run of lines ends, each reply has its form with whole blocks, the
//!   drive keeps its shape, and each line takes no more commands than it may (`answer_any_trace`,
//!   `laws::any_device_is_kept`). All else holds as long as each Read returned what the drive holds (`any_lines`).
//! * A run of raw lines writes the completions, and the returned data, of the steps that the drive takes from the
//!   state handed in: one for each line with an entry, each from a drive that had not stopped. The drive that is given
//!   back is in the state to which they lead. Of the last line a part is written only if the writer failed; its step
//!   was then taken. After any other fault it was not, except for a stop, which may fall inside it. Each fault comes
//!   only in its own case.
//! * [`write_fault`] writes the line of each fault.
//!
//! # What is not proved
//!
//! * That `Input` and `Output` come only if the reader or the writer failed.
//! * When replies are sent.
//! * That a `write` or a `fill` that is refused for memory is `fault disk 2`, and `fault memory` where its data, or
//!   the first 21 bytes of its reply, found no memory.
//!
//! Tests: the rows of `worked_runs`, and `runs.rt` of `job_tests`.
#![tactic(auto)]

mod fault;
mod fault_line;
pub mod laws;
mod lines;
mod raw;
mod reads;
mod requests;
mod taking;
mod trace;

pub use fault::RunFault;
pub use fault_line::write_fault;
pub use raw::run_raw;
pub use taking::Taking;
pub use trace::{answer_any_trace, answer_trace, run_trace};
