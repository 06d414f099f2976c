//! The task that the words of the command line ask for.
//!
//! ```text
//! match task_of(alloc, &words) {
//!     Ok(task) => ..,    // a job in a file or on a device, which `zonedisk_program` does
//!     Err(error) => ..,  // the text that refuses the words, and its kind
//! }
//! ```
//!
//! A [`Task`] holds the job of one of the crates of jobs. Which words the program takes says `command_line`.
//!
//! # What is promised
//!
//! * A task holds what clap's exact matches of the words have: the subcommand and, for each of its options, the value
//!   under its name; a number is spelled only in digits, and fits. Clap refuses none of these words
//!   (`specs/Words.antt` has the task that they ask for).
//! * A job is one on a device exactly if `--device` is given. Then no file is named, and nothing is asked for that
//!   only a drive in a file can have (`specs/DeviceWords.antt`).
//! * A new drive that stays in its file is asked for by `format --in-place`, with a shape. Then no device is named,
//!   and nothing is forced (`AsksForNew`).
//! * A drive is put into another file by `convert`, with both paths (`AsksForConvert`).
//! * A rescue has the paths and the number that its options were given (`AsksForRescue`). A repair changes the drive
//!   only with `--force` (`AsksForRepair`).
//! * Words are refused only where clap refuses them, where they ask for no task in this sense, or where memory runs
//!   out (`IsAnswerTo`).
//!
//! # What is not proved
//!
//! * The texts and the error kinds of refused words are tested in `job_tests`: clap's contracts say nothing of them.
//!
//! Tests: `job_tests`, and the rows of `tool_rows`.
#![tactic(auto)]

mod device_words;
mod failing;
mod forgetting;
mod place;
mod raw_words;
mod refusal;
mod task;
mod tool_words;
mod words;

pub use crate::task::Task;
pub use crate::words::task_of;
