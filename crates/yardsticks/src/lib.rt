//! Plain programs that compute definitions just as they stand: the log of a zone and its torn tail, the array that a
//! drive encodes, whether a drive can be mounted, the quota of records.
//!
//! ```text
//! let zones = [ZoneImage { state: ZoneState::Closed, blocks }, ..];
//! let array = encoded_array(alloc, &geometry, &zones, 8)?; // 8 blocks, if no header has a size
//! let mountable = is_mountable(alloc, &geometry, &zones, 8)?;
//! ```
//!
//! # What is promised
//!
//! They compute what `batch_log` and `drive_array` define, so that tests and worked runs can compare what a host does
//! with what is defined. They are slow and copy all data. No host calls them.
//!
//! A `LyingDevice` returns other bytes at one Read than are held. It is a device, but not an honest one: its drive is
//! clean until then (`specs/Lying.antt`).
//!
//! A `FailingDevice` fails at one command, or at each Read of one block. It holds what the device within holds
//! (`specs/Failing.antt`).
//!
//! `chance` gives tests numbers that are the same in each run, and `restarted` a copy of a drive.
//!
//! Tests: the rows of `worked_runs`, which compare it with what the disk does.
#![tactic(auto)]

mod array;
mod batches;
mod by_chance;
mod copies;
mod failing;
mod live;
mod logs;
mod lying;
mod mountable;
mod repair;
mod reserve;
mod sequences;
mod sizes;
mod spare;

pub use array::encoded_array;
pub use batches::{Batch, ZoneLog, is_heading, log};
pub use by_chance::chance;
pub use copies::restarted;
pub use failing::FailingDevice;
pub use logs::ZoneImage;
pub use lying::LyingDevice;
pub use mountable::is_mountable;
pub use reserve::quota;
