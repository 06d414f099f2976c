//! A zoned drive over what holds its zones, a device of `drive_port`; and one whose zones are vectors of bytes.
//!
//! # Example
//!
//! ```text
//! let geometry = Geometry { block: 512, zones: 4, size: 8, capacity: 6, transfer: 4, active: 2, open: 2 };
//! let mut drive = Drive::new(alloc, geometry)?;
//! assert_eq!(append(alloc, &mut drive, 8, &[0xaa; 1024])?, 8);
//! drive.restart();
//! assert_eq!(drive.zone(1)?.state(), ZoneState::Closed);
//! ```
//!
//! # What is promised
//!
//! * A `ZoneDrive` is a `Device` over whatever holds its zones (`HeldZones`): each command does what the step of
//!   `drive_port` says, and nothing else. It asks of what holds the zones only what its rules admit. Where that has
//!   stopped, the drive has stopped inside the command, and the zones are as before it.
//! * Where the step leaves a choice, the drive makes it by its habit: lazy, closing or strict (`specs/Choice.antt`). A
//!   drive is made `Lazy`: it closes the lowest implicitly opened zone where a command needs an open resource and none
//!   is left, and no other zone ever. It stops once it has completed 2^63 commands.
//! * What holds the zones says which of them are durable: what an open may find after a loss of power. Only a Flush
//!   changes that. After one that succeeded these are just the zones that are there. One inside which the drive
//!   stopped leaves what was durable before, or these zones (`Gives` and `Keeps` in `specs/Choice.antt`,
//!   `specs/Held.antt`).
//! * Whatever an open may find after a loss of power, a drive can have: whole blocks, as many as the states allow,
//!   within the limits (`left` of `into_zones`).
//! * Only a Read, a Write, an Append and a Receive may be out of memory (`specs/Memory.antt`), and then nothing
//!   changed.
//! * With which status a command will end, and what it gives, is told before it is done (`foresee`, `answer`).
//!   `reserve` takes the memory for it.
//! * `Drive` is the drive over zones in memory, which never stop. It can be made of any zones that a drive of its
//!   geometry can have (`AreZones` in `specs/Stored.antt`), or the fault is named. It shows its zones at any time.
//!   `restart` closes the open zones, and changes nothing else.
//!
//! # What is not proved
//!
//! * Of zones in memory nothing is said of a loss of power; of zones in a file see `file_drive`.
//! * No contract carries the habit of a drive through the calls of a disk: the trait `Device` does not say that a
//!   command keeps it. The rows of `worked_runs` and `job_tests` show that it acts.
//!
//! Each command has a file of its own.
//!
//! Tests: the rows of `worked_runs`.
#![tactic(auto)]

mod device;
mod drive;
mod foresee;
mod habit;
mod held;
mod memory_zones;
mod opening;
mod read;
mod receive;
mod reply;
mod resources;
mod send;
mod shape;
mod write;
mod zone_drive;

pub use drive::{Drive, DriveFault, may_hold};
pub use habit::Habit;
pub use held::HeldZones;
pub use memory_zones::{MemoryZones, apply_to_each, selects};
pub use resources::{HasState, Resources};
pub use zone_drive::ZoneDrive;
