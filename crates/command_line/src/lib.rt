//! The words that the program takes, as commands of `clap`.
//!
//! ```text
//! let mut program = program(alloc, HABITS.as_slice())?;             // zonedisk, with its subcommands
//! let matches = program.try_get_matches_from_mut(&words)?;          // what these words give
//! let mut run = subcommand_named(alloc, HABITS.as_slice(), "run")?; // one whose usage a refusal shows
//! ```
//!
//! What the words ask for is read by `asked_tasks`.
//!
//! # What is promised
//!
//! * [`program`] takes the words that `specs/Program.antt` has: these subcommands, and of each these options. Of an
//!   option that is whether it has a value, which one, and whether it has to be given.
//!
//! # What is not proved
//!
//! * The texts for help, and which subcommand [`subcommand_named`] gives: clap's contracts say nothing of texts. What
//!   is told with refused words is tested in `job_tests`.
//!
//! Tests: `job_tests`, and `tools/check_completions`.
#![tactic(auto)]

mod command;

pub use crate::command::{HABITS, program, subcommand_named};
