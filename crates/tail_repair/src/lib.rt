//! The repair of a drive in place, of which zones end in something foreign: what is no batch of a log.
//!
//! ```text
//! for tail in find_tails(alloc, &mut device)? {
//!     // zone `tail.zone` holds batches in its first `tail.blocks` blocks, and then something foreign
//! }
//! for moved in repair_tails(alloc, &mut device)? {
//!     // the batches of zone `moved.zone` are in zone `moved.into` now
//! }
//! ```
//!
//! An Append that the drive fails at, or a file that is torn, may leave blocks in a zone that are no batch. A mount
//! refuses such a drive for ever, though all that was answered may be there.
//!
//! # How a zone is repaired
//!
//! The zone is finished, which frees its place among the active zones. If zeros are all that was foreign, that is
//! enough: zeros at the end of a Full zone are padding. Else its batches are copied as they are to the lowest Empty
//! zone. That zone is finished, and compared with the first. Only then the foreign one is reset.
//!
//! A stop may leave a part of a copy, and so may a command that the drive fails at. The next repair finds that part,
//! and goes on after it. Batches of which there are two copies are in the way of a mount, so the drive is not mounted
//! in the meantime.
//!
//! # What is promised
//!
//! * While the drive is clean, at every moment that a halt may leave: the batches with which a zone began, some zone
//!   begins with (`KeepsBatches` in specs/Repair). So no batch is lost before the first foreign block of its zone.
//! * Done, each zone holds a log, as a mount asks it (`HaveLogs`). Whether the drive can be mounted a mount tells.
//! * While the drive is clean, the answer names just the zones that held no log, in their order, and how many blocks
//!   the batches of each take (`AreRepaired`). With a header after the first foreign block of a zone there is no such
//!   answer.
//! * If the answer names no zone, none is changed. What was moved is in another zone (`IsElsewhere`), and while the
//!   drive is clean that one begins with the batches with which the zone began (`AreWhereTold`).
//! * A refusal changes no zone: all faults but `Halted` and `Unfinished` (`may_change`).
//! * While the drive is clean, a fault has its cause (`FindFails`, `RepairFails`). The drive has stopped. It failed at
//!   a command, so it is not unfailing. Its geometry is out of range. No zone below that one is Read Only or Offline,
//!   and that one is. Batches of that zone have a sequence twice, or one that is too great. At that block, behind the
//!   first foreign one of its zone, is a header. No zone is Empty.
//! * [`find_tails`] only reads. It finds just the zones that hold no log (`AreTails`). It fails if a later block of
//!   such a zone is a header (`HeadersEnd`), since a repair would lose the batch there. It never says `Unfinished`.
//!
//! A torn tail is not foreign: a mount repairs it.
//!
//! # What is not proved
//!
//! * That memory ran out where a fault says so, and that `Unfinished` of a repair has a cause: a body that always
//!   answers one of these meets the contract.
//! * That a drive without room is refused before its first change: a repair that does not look first, and ends as
//!   `Unfinished`, meets the contract.
//! * That only the foreign zones and their destinations change, and that Empty zones are used from the lowest on. The
//!   rows of `tool_rows` and tests show it.
//!
//! Tests: `call_tests`, and the rows of `tool_rows`.
#![tactic(auto)]

mod copy;
mod fault;
mod repair;
mod tails;

pub use fault::RepairFault;
pub use repair::{MovedZone, repair_tails};
pub use tails::{ForeignTail, find_tails};
