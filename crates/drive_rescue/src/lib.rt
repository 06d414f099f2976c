//! The disk that can still be read of a drive, however broken it is. The drive is only read.
//!
//! ```text
//! let mut source = DeviceSource::new(device);
//! let rescued = rescue(alloc, &mut source, 9, &mut writer)?; // the blocks of the disk, as flat bytes
//! let findings = find(alloc, &mut source, 9)?;               // or in two steps
//! let rescued = give(alloc, &mut source, &findings, &mut writer)?;
//! rescued.blocks; // how many they are: 9 if no header says a size
//! rescued.lost;   // ranges of blocks whose newest data cannot be read, given as zeros
//! rescued.older;  // ranges of blocks that may be older than they should be
//! ```
//!
//! A mount refuses a drive of which one header is unreadable or foreign. A rescue searches each zone for what batches
//! it can find, and gives each block as the newest record found says.
//!
//! # How a zone is searched
//!
//! From its first block on (`specs/Searching`). A whole header whose data blocks fit in the zone is a batch, and the
//! search goes on after it. A block that cannot be read, or is no header, is lost, and the search goes on at the next.
//! After a lost block a header counts only if its sequence is above those that were met in the zone. A header whose
//! data do not fit ends a zone that is not Full: a torn tail is never searched, since its data could look like
//! headers. Zero blocks up to the end of a Full zone are padding. A sequence is below 2^63.
//!
//! A report does not tell how far a Read Only zone was written. So it ends after its last block that is not zeros, or
//! that cannot be read (`EndsAt`). A batch whose last data are zeros is there taken for a torn tail: what its blocks
//! held before is given, and listed as what may be older.
//!
//! A batch that is lost in a gap is older than the next batch of its zone. So each block whose newest record has a
//! lesser sequence than that batch may be older than it should be. After a gap that no batch follows, and with an
//! Offline zone, nothing bounds what is missing: then all blocks may be older.
//!
//! # What is promised
//!
//! * Each block that is given is what the newest record of the batches found shows; or it is listed as lost, and the
//!   data block of that record could not be read (`Gives` in specs/Rescue). The size is the greatest that a header
//!   found says, or the given number.
//! * Listed as older is exactly what may be: the blocks whose newest record is older than the greatest sequence that
//!   bounds a gap (`older_blocks`).
//! * Of a drive that can be mounted, each block of which can be read, a rescue gives exactly the disk, and both lists
//!   are empty (`laws::mountable_is_given`).
//! * [`rescue`] searches and gives. [`find`] is its search, and tells how many blocks there are before any is written;
//!   [`give`] gives what was found (`IsFound` in specs/Findings).
//! * After a halt of the source, or of the writer, what was written until then is a front of those blocks. `Limits`
//!   comes only for a geometry or a number that is out of range, and before anything is read.
//! * Nothing is changed: the controller may have closed zones (`KeepsZones` in drive_survey/specs/Reported). Reads
//!   leave a damaged block damaged (`KeepsSource`). What is given is told of the source as it is then: a block is lost
//!   only if it is damaged by then.
//!
//! # What cannot be promised
//!
//! * Headers have no checksum. A block of data that looks like a header, behind a lost header and with a fitting
//!   sequence, is taken for one. So are old copies of headers that a guest stored as data.
//! * What may be older is not told block by block: a lost header does not say which blocks it named.
//!
//! # What is not proved
//!
//! * That a halt, or an unreadable block of a [`WaySource`], has a cause: such a source may call any block unreadable.
//!   So may a [`DeviceSource`], once a command of its device failed.
//! * That an unreadable block is tried once more: the contract of a source lets it answer so at once. The rows of
//!   `rescue_rows` show it.
//! * How much memory is taken: a slot of 24 bytes for each block up to the highest that a batch names.
//! * The number of Reads: one for each header and each lost block, one for each block of the disk that has data, and
//!   one for each zero block at the end of a Read Only zone. An unreadable block takes one more each time.
//!
//! A device is a source by [`DeviceSource`]: a block is unreadable there if the device fails at a Read of it, and the
//! rescue goes past it. As long as no command failed, each block can be read (`damaged_once_failed` in specs/Sources).
//! A report that fails ends the rescue as a halt. [`WaySource`] is a drive to which a way passes single commands: a
//! block that the drive does not give is lost there. [`WithDamage`] makes chosen blocks of a source unreadable, for
//! tests.
//!
//! Tests: `rescue_rows`.
#![tactic(auto)]

mod device_source;
mod fault;
mod giving;
pub mod laws;
mod ranges;
mod rescuing;
mod search;
mod source;
mod table;
mod way_source;
mod with_damage;

pub use device_source::DeviceSource;
pub use fault::RescueFault;
pub use giving::Rescued;
pub use ranges::BlockRange;
pub use rescuing::{Findings, find, give, rescue};
pub use source::{Reading, Source};
pub use way_source::WaySource;
pub use with_damage::{DamagedBlock, WithDamage};
