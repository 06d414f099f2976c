//! The texts of a disk: lines of a trace, raw lines, and the replies to them.
//!
//! ```text
//! let mut reader = LineReader::new(alloc, rt.reader());
//! let mut bytes = Vec::new(alloc);
//! while reader.next_line()? {
//!     if is_skipped(reader.line()) {
//!         continue;
//!     }
//!     match TraceLine::parse(reader.line(), &mut bytes) {
//!         Ok(TraceLine::Read { first, blocks }) => ..,
//!         Ok(TraceLine::Write { first }) => .., // the data is in `bytes`
//!         Ok(..) => ..,
//!         Err(ParseFault::Grammar) => ..,
//!         Err(ParseFault::Memory) => ..,
//!     }
//! }
//! ```
//!
//! # What is promised
//!
//! * [`LineReader::next_line`] takes the first line of what is left, or says why it did not.
//! * [`TraceLine::parse`] and [`parse_raw_line`] accept the lines of their grammars and no others, say what those say,
//!   and decode their data into a buffer that the caller keeps.
//! * Replies are their texts. [`write_out`] writes all its bytes, or after a fault a beginning of them.
//! * [`fill`] reads until a buffer is full or the reader ends, and tells how many bytes it read.
//! * `laws` has what holds of all lines: those that are written are read again.
//! * A `FailAfter` is a reader or a writer that fails after a number of bytes, for tests.
//!
//! # What is not proved
//!
//! * Readers and writers that fail, and long lines, are tested.
//! * No clause states that a reader is called less than 2^62 times.
//!
//! Tests: the rows of `worked_runs`, and `texts.rt` of `job_tests`.
#![tactic(auto)]

mod again;
mod ahead;
mod bytes;
mod data;
mod digits;
mod fail_after;
mod input;
pub mod laws;
mod line_reader;
mod output;
mod raw_line;
mod raw_reply;
mod reply;
mod trace_line;
mod words;

pub use again::{read_again, write_again};
pub use data::ParseFault;
pub use fail_after::FailAfter;
pub use input::{FillFault, fill};
pub use line_reader::{LONGEST_LINE, LineFault, LineReader};
pub use output::{WriteFault, write_out};
pub use raw_line::parse_raw_line;
pub use raw_reply::write_raw_reply;
pub use reply::{block_line, ok_reply, out_of_range_reply, reserve_reply, smaller_reply};
pub use trace_line::{TraceLine, is_skipped};
