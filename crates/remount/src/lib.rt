//! The mount of a drive: what it holds is read, what a stop left is repaired, and the tables of a disk are made.
//!
//! ```text
//! let tables = mount(alloc, &mut device, 9)?; // one report, one Read for each batch, and the repairs
//! tables.blocks();                            // how many logical blocks the drive has
//! tables.place_of(0);                         // where the newest record of block 0 is
//! tables.host();                              // the zone to which the next batch goes
//! ```
//!
//! # What is promised
//!
//! * A drive is mounted exactly where it can be: its geometry and the number of blocks are in range, no zone is Read
//!   Only or Offline, at most two are partly written, each zone holds a log, the batches are sound, the reserve allows
//!   the size that they say, a zone is vacant or half clean, and at most one zone is torn when the half clean ones are
//!   emptied, which can be repaired. Then the tables agree with the drive that is left, which encodes the same array
//!   (`Mounts` in specs/Mount). Partly written zones are the host zone and the next one. The next sequence is one more
//!   than the greatest that was met.
//! * Half clean zones are emptied, each the lowest of its moment. Only zones that were not reported Empty are reset
//!   for having no batch (`needed` of `AreToEmpty`).
//! * What is live in a torn zone is then in the lowest zone that had no batch, in as many Moves as that takes. They
//!   name each block whose newest record was in the torn zone, once, and no other, and repeat its record
//!   (`RepeatLive`).
//! * These Moves are numbered on from the greatest sequence left. All say the torn zone's size, or none. If the disk
//!   would have another size without the torn zone, perhaps only the last one says it (`said` of `AreRepairMoves`).
//! * A Close is sent only at an open limit of 1 (`spared` of `close_alone`).
//! * No zone is finished without need. If no zone is torn, each zone that still has a batch holds what it held. It is
//!   Full only if it was, or is partly written with fewer than two free blocks or with a batch of more entries than
//!   ours.
//! * Beside a torn zone all zones are finished that are opened or Closed. The zone that takes its Moves stays open if
//!   two of its blocks are free, and no other zone is opened (`FinishesByNeed` in specs/Mount). The tables note a zone
//!   as one that may be open only if it was open before, or took these Moves (`may_open` of `Mounts`).
//! * Each fault but `Halted` and `OutOfMemory` is the first one, in the order in which a mount looks (`MountFails`),
//!   and leaves the drive unchanged, except that its controller may have closed zones (`KeepsZones` in
//!   drive_survey/specs/Reported).
//! * Whatever is answered, a drive that could be mounted still can, with the same array, and no command was refused
//!   (`KeepsMountable` in specs/Kept): also where the drive stopped inside a command, an Append of a repair included.
//! * All this holds while the drive is clean: as long as each Read returned what the drive holds. Whatever the Reads
//!   returned, a mount ends with tables or a fault. The drive stays lawful (`Stays`), and the tables have numbers that
//!   a disk can work with (`AreSane`). But a mount that was lied to may reset a zone that it took for half clean. The
//!   calls of `honest` are for a device that is always clean.
//!
//! # What is not proved
//!
//! * Which commands a mount sends after the first repair. In which order zones without a batch are reset: all orders
//!   leave the same drive, and only a stop between two Resets tells them apart. The stored runs stop there.
//! * That no needless Close is sent is said only by the parts of a mount.
//! * That a mount sends one report, and one Read for each batch and each zero block after the last batch of a full
//!   zone. Each time that a zone of only Moves is looked at, it sends at most two Reads for each block that the zone
//!   shows. Then come the repairs. The rows of `worked_runs` show this.
//! * How many commands the repairs take is not promised.
//!
//! # How it goes
//!
//! `survey_drive` of `drive_survey` reads the headers of all batches, and `clear_zones` finds which zones are half
//! clean. `plan_repair` finds which zone is torn then. Only now the drive is changed: `empty_zones` resets the vacant
//! zones and the half clean ones, `repair_zone` moves what is live in the torn zone to an empty one and resets it, and
//! `finish_zones` finishes zones to which no more batches go. `mounted_tables` makes the tables from the headers.
//!
//! Tests: the rows of `worked_runs`, with a stop at every place.
#![tactic(auto)]

mod empty;
mod finish;
pub mod honest;
mod mounting;
mod plan;
mod refused;
mod repair;
mod tables;

pub use drive_survey::{MountFault, Survey, survey_drive};
pub use mounting::mount;
pub use plan::{Plan, plan_mount};
pub use repair::Repair;
pub use tables::places::place_records;
