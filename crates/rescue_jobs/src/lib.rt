//! The disk of a broken drive, rescued: as flat bytes, or on a new drive.
//!
//! ```text
//! let mut source = DeviceSource::new(drive);                      // of drive_rescue: a drive that is only read
//! let rescued = rescue_out(alloc, 0, &total, &mut source, &mut output)?; // its disk as flat bytes, as by an export
//! let (new, rescued) = rescue_into(alloc, 0, &mut source, fresh)?; // or on a new drive
//! let rescued = do_rescue(&rt, alloc, &job, &total, &mut output)?; // of the drive in an image file
//! let text = lists_text(alloc, &rescued)?;                        // what is lost, and what may be older
//! ```
//!
//! A [`RescueJob`] says which drive is read, and where its disk goes. What can be read of a broken drive, and what is
//! promised of it, is said in `drive_rescue`.
//!
//! # What is promised
//!
//! Over every source, writer and device (`specs/Jobs.antt`):
//!
//! * [`rescue_out`] writes exactly what a rescue gives. Before a fault of the search nothing is written; after a halt
//!   or a failed writer a beginning of it (`RescuesNot`).
//! * [`rescue_into`] mounts the new drive as a disk of as many blocks, and writes to it what a rescue gives: afterwards
//!   its first blocks show these bytes. It is flushed, and can be mounted again (`RescuesInto`).
//! * `NoSize` comes where no header that was found says a size, and no number above 0 was given. Then nothing is
//!   written.
//! * The broken drive is only read.
//!
//! # What is not proved
//!
//! * Why [`rescue_into`] fails: it has no clause of its faults.
//! * That the disk on the new drive has no block after those. `tools/rescue_runs` compares its whole export.
//! * [`do_rescue`], [`rescue_to_output`] and [`ListFile`] open files, or write to them: no contract says what a file
//!   holds. The texts of the lists are tested.
//!
//! Tests: the rows of `tool_rows`, and `rescues.rt` of `job_tests`.
#![tactic(auto)]

mod explanation;
mod fault;
mod file;
mod job;
mod lists;
mod rescuing;

pub use explanation::explain;
pub use fault::RescueJobFault;
pub use file::{ListFile, do_rescue, rescue_to_output};
pub use job::{RescueJob, given_blocks};
pub use lists::{is_whole, lists_json, lists_text};
pub use rescuing::{rescue_into, rescue_out};
