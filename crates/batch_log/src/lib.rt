//! The log that a zone holds: batches, each a header block that names logical blocks, followed by their data.
//!
//! A batch is written by one Append. `header_bytes` writes its header block: in version 2 where the header has the
//! disk's size, in version 1 where it has none. The disk writes version 2. `read_header` reads a block of either
//! version, and `Batches` reads a whole zone. Both lend what they are given, and take no memory.
//!
//! ```text
//! let mut batches = Batches::new(&bytes, 512, is_full);
//! while let Some(item) = batches.next() {
//!     let batch = item?; // or the first fault, and the block where it is met
//!     for i in 0..batch.header.count() {
//!         let entry = batch.header.entry(i); // a trim, or its data is the next block of batch.body
//!     }
//! }
//! let torn = batches.torn(); // the block where a torn tail begins, if any
//! ```
//!
//! A zone that is not full may end in a torn tail: a header block and fewer data blocks than it needs, as an Append
//! leaves that was stopped midway. It is no batch. A mount reads only headers; `Batches` serves whoever has the bytes.
//!
//! # What is promised
//!
//! * Each header has one block that encodes it, and any other block is refused with the first cause that holds of it.
//! * A zone is read in one way: as the batches from its first block on, up to where none begins, and what is there:
//!   nothing, a torn tail or a fault, told with its offset and cause. Where the zone has a log, it is these batches;
//!   where a fault is met it has none.
//! * `laws` says what an Append, a part of one and a Finish do to a log: it stays one. A list of blocks has at most
//!   one log, and at most one torn tail. A batch counts whole or not at all.
//! * [`entry_room`] is how many entries fit in a header. Each fault has its text.
//!
//! `docs/formats.md` states the header's bytes, `docs/placement.md` what batches are for.
//!
//! Tests: the rows of `worked_runs`, which compare it with `yardsticks`.
#![tactic(auto)]

mod batches;
mod encode;
mod fault;
mod header;
pub mod laws;
mod view;

pub use batches::{Batch, Batches};
pub use encode::{entry_room, header_bytes};
pub use fault::{FaultAt, LogFault};
pub use header::{Entry, Header, Kind};
pub use view::{HeaderView, read_header};
