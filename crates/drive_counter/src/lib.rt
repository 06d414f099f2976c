//! A device that counts what another does: its commands by kind, and the blocks that its Appends wrote. And the lines
//! that show it.
//!
//! ```text
//! let mut counter = Counter::new(device);
//! // commands to the counter ..
//! let counts = counter.counts();
//! let device = counter.into_inner();
//! let text = statistics_text(alloc, &counts, &Spread::of(&mut live), 0)?;
//!
//! let mut tally = Tally::new(device);       // tally.completed() is 0
//! // commands to the tally ..
//! let counts = tally.counts();              // as many as tally.completed()
//! ```
//!
//! # What is promised
//!
//! * A `Counter` does what every device promises. Its counts rise with each completed command, by what the command is
//!   and by the header of the batch that it appends (`counts_after` in specs/Counting). No command is sent for them. A
//!   count that would pass `u64::MAX` stays there.
//! * A `Tally` counts in the same way, and has completed exactly the commands that it counted (`tallied`). So a call
//!   that knows no more than a device can tell how many were counted: as many as were completed.
//! * A `Spread` has the least, the median and the most of some numbers. The text of the counts is in
//!   specs/StatisticsText.
//!
//! Tests: the command lines with `--statistics` in `job_tests`.
#![tactic(auto)]

mod counter;
mod counts;
mod spread;
mod tally;
mod text;

pub use counter::Counter;
pub use counts::Counts;
pub use spread::Spread;
pub use tally::Tally;
pub use text::statistics_text;
