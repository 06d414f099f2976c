//! The repair in place of a drive of which zones end in something foreign, and what a check says of it then.
//!
//! ```text
//! let none = list_tails(alloc, &mut device, &mut output)?;  // a line for each such zone; the drive is only read
//! let mended = mend(alloc, &mut device)?;                   // of tail_repair: the batches go to other zones
//! for moved in mended.moved { moved_text(alloc, moved)?; }  // a line for people
//! let mountable = tell_found(alloc, &mended.found, &mut output)?;
//! let repaired = mend_image(&rt, alloc, &job);              // the same of the drive in an image file, which is saved
//! ```
//!
//! A [`RepairJob`] says which drive it is, and whether it is changed. How a zone is repaired is said in `tail_repair`.
//!
//! # What is promised
//!
//! Over every device, reader, writer and store (`specs/Jobs.antt`). What speaks of the bytes of blocks is promised
//! while the drive is clean: as long as each Read returned what the drive holds. A drive in a file always is.
//!
//! * [`list_tails`] finds just the zones that end in something foreign, and says whether there is none. No zone is
//!   changed, but that the controller may close some. [`list_file`] does so on the drive in a file, restarted.
//! * [`mend`] loses no batch with which a zone began, whatever ends it. Done, each zone holds a log, and all faults are
//!   found that the drive has then. It names just the zones that ended in something foreign, how many blocks the
//!   batches of each take, and where these are then. A refusal changes no zone, nor does a repair that names none. A
//!   fault has its cause (`RepairFails`), and one of [`list_tails`], too (`ListFails`). So has what ends the search for
//!   faults.
//! * Whatever the Reads returned, both end. The shape stays, a refusal changes no zone, nor does a repair that names
//!   none, and what reports tell of faults is found. What does not fit together ends a job by `Unfinished` (8).
//! * [`mend_file`] does so on the drive in a file: the store holds the drive that is left, and of it the same is true.
//! * After a refusal nothing is saved ([`left_to_save`]): the file stays as it is.
//! * [`repair_fault_line`] is the line of a fault: its number, its name, and the zone and the block that it names.
//!
//! # What is not proved
//!
//! * That memory ran out where a fault says so, and that `Unfinished` has a cause.
//! * [`list_image`] and [`mend_image`], which open files: no contract says what a file holds.
//! * The texts are tested.
//!
//! Tests: the rows of `tool_rows`, and `repairs.rt` of `job_tests`.
#![tactic(auto)]

mod explanation;
mod fault;
mod fault_line;
mod file;
mod job;
mod lists;
mod mending;

pub use explanation::explain;
pub use fault::{RepairJobFault, is_refusal};
pub use fault_line::repair_fault_line;
pub use file::{Repaired, left_to_save, list_file, list_image, mend_file, mend_image};
pub use job::RepairJob;
pub use lists::{TailLines, moved_text};
pub use mending::{Mended, list_tails, mend, tell_found};
