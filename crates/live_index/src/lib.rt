//! How many live records each zone has, and which zone has the fewest.
//!
//! ```text
//! let mut index = LiveIndex::new(alloc, 4)?;      // 4 zones with no live record
//! index.add(2);
//! index.least(&[true, true, true, false])         // zone 0
//! ```
//!
//! # What is promised
//!
//! * The counts are a list of numbers. `add` and `remove` change one of them by one.
//! * `least` finds, among the named zones, the lowest of those with the fewest (`FindsLeast` in specs/Least).
//!
//! The zones are kept in order of their counts: `add` and `remove` swap two of them, or none where the order stays as
//! it is; the second is found by bisection. `least` goes through the order once at most (`IsOrdered` in
//! specs/Ordered).
//!
//! Tests: `counts.rt` of `call_tests`.
#![tactic(auto)]

mod index;
mod order;

pub use index::LiveIndex;
