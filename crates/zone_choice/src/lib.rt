//! The tables of a mounted disk, and how they follow its drive, batch by batch: where the newest record of each block
//! is, what each zone is for, and which sequence is next. What a drive means, its array and whether it can be mounted,
//! is defined in `drive_array`, whose reserve and laws are offered here too.
//!
//! ```text
//! let tables = Tables::new(alloc, geometry.zones, geometry.size, 9, 9)?;
//! let mut disk = Mounted::new(alloc, drive, tables);
//! let zone = disk.tables.take_empty()?;                  // the host zone
//! let mut batch = BatchBuilder::new(alloc);
//! batch.start(Kind::Host, disk.tables.next(), 0, Some(disk.tables.blocks()));
//! batch.name_data(2, 3)?;                                // blocks 2 to 4
//! batch.encode(geometry.block)?;                         // the header block
//! batch.fill(3 * geometry.block as usize, 0xaa)?;        // their data
//! disk.tables.reserve(zone, 2, 3)?;                      // the last allocation
//! append_batch(&mut disk, zone, &batch)?;
//! ```
//!
//! # What is promised
//!
//! Of any drive that obeys its rules, while it is clean: as long as each Read returned what the drive holds.
//!
//! * A batch that is appended, of either kind, changes the array by what it says and by nothing else, its size
//!   included. The tables name the place of each block's newest record again (`Places` in specs/Changes).
//! * Out of memory, tables and drive agree, and the array is as before. Where the drive stops, it encodes the old
//!   array or that with the batch, and can be mounted if a zone is spare (`BatchLeaves`).
//! * The drive refuses no such Append (`CanPlace` says what it needs). At an open limit of 1, the other zone that is
//!   being filled is closed before it (`ClosesBeside`), and no Close is sent unless that zone may be open.
//! * The tables know the sealed zone with the fewest live records (`least_sealed`), and take note of what a clean
//!   makes of the zones. A zone with live data that could not be read is left out (`is_left_out` in specs/Tables),
//!   until its block has other data, or until the tables are told to forget that. A mount places the records that it
//!   finds (`place`), and says what the zones are for (`begin`).
//! * While tables and drive agree (`Agrees` in specs/Agreement) and a zone is kept empty, the drive can be mounted
//!   (`IsMountable` of `drive_array`).
//! * If one zone is empty, all others are sealed and all data could be read, a zone has so few live records that they
//!   fit in the empty one (`a_zone_can_be_cleaned`): that is what the reserve gives a cleaner.
//!
//! Whatever the Reads returned, an Append ends. The tables count a batch that was appended and no other, and their
//! numbers stay in range (`TablesAfter` and `IsSane` in specs/Sane). Where a drive is not clean it may refuse a
//! command, and the fault says so.
//!
//! Tests: the rows of `worked_runs`.
#![tactic(auto)]

mod append;
mod batch;
mod empties;
mod laws;
mod mounted;
mod roles;
mod tables;
mod unreadable;

pub use append::{append_batch, halt_of};
pub use batch::BatchBuilder;
pub use drive_array::{
    append_first, append_logs, append_writes, batch_most, empty_spare, encoded_blocks, fill,
    finish_logs, finish_mounts, fits_reserve, greatest_is, most_blocks, newest_is_live,
    one_clearing, repair_mounts, resets_mount, torn_mounts,
};
pub use laws::a_zone_can_be_cleaned;
pub use mounted::Mounted;
pub use roles::{Filling, Roles, Second};
pub use tables::Tables;
pub use unreadable::Unreadable;
