//! The file of a drive: its image, and after it the changes made since.
//!
//! ```text
//! let opened = open_drive(alloc, &mut reader)?; // the drive that the file holds
//! file.set_len(opened.whole)?; // without a change that was cut off
//! let mut device = Journaling::new(alloc, opened.drive, Unknown::new(file), opened.sum);
//! append(alloc, &mut device, 0, &block)?; // given to the store before it is answered
//! ```
//!
//! A change is a mark of 8 bytes, the entry of 64 bytes of the command that made it, a sum of 8 bytes, the data of the
//! entry, and a sum of 8 bytes again. An image says itself where it ends, and after it come the changes in order. So a
//! file that was just saved is the image and nothing more, and its first change begins with the first mark.
//!
//! The sums are one checksum that runs through the entries and the data of all changes. So each change is read only
//! after those that it was written after, and no change of an earlier run comes back. The sum after the entry says
//! that the entry is right before the data are read, and with it how long the change is. So a change that was cut off
//! is told from one that is damaged.
//!
//! # What is promised
//!
//! * [`Journaling`] is a device again, over every device that foresees how a command will end ([`Foreseeing`], as a
//!   drive in memory does), and over every store. The drive that it shows is always the one that its store holds
//!   (`IsInStep` in `specs/Journaling.antt`), up to which zones are open. So what a run promises of its drive, it
//!   promises of the store.
//! * A change is given to the store before the drive makes it. A command that is refused, or changes nothing, writes
//!   nothing.
//! * Where the store fails, the device has stopped, and shows the drive as it was before the command. If the store has
//!   the change and there is no memory to do the command, it has stopped too, and shows the drive with the command
//!   done. A store says whether it failed.
//! * A store may write its bytes anew, as the image of the drive, before a change is written (`ChangeStore::renew`).
//!   Then the sum starts again.
//! * [`open_drive`] reads the drive that a file holds (`IsDriveFile` in `specs/File.antt`), restarted if changes
//!   follow the image, with how many of its bytes are whole and the sum that they end with; or it tells its first
//!   fault (`IsFileFault`). It tells exactly whether all bytes of the file are the image of the restarted drive.
//! * A change that was cut off is dropped, since its command was never answered (`IsCutOff` in `specs/Tail.antt`).
//!   Other bytes are a fault, told with the place of the first: directly after the image `Long`, or `Earlier` if they
//!   are changes of the version before; else `Damaged`.
//! * Bytes store one drive at most. What stores a drive is never refused. However the bytes of a run are cut after
//!   those that the store held at its start, or when last written anew, they store the drive of a moment of the run.
//! * Changes that are cut off anywhere are the whole ones, and one that was cut off (`laws::cut_anywhere`). Damage
//!   that bytes follow is refused at its byte (`laws::damage_is_refused`).
//! * A change is not read after others than it was written after (`laws::changes_are_chained`). After the changes of
//!   one run those of another are not read, unless their sums are the same (`laws::no_change_comes_back`).
//! * What a store holds is read again, up to a restart (`laws::stored_is_read`).
//!
//! # What is not proved
//!
//! * What a file system keeps after a power failure, without a sync. That a killed run makes the same calls as one
//!   under a stop.
//! * That `Input` comes only if the reader failed.
//! * A `reserve` that reserves nothing would pass: then memory may be missing for a command whose change is written,
//!   and the device stops, as its contract says.
//! * Tested are: changes that are cut off or damaged anywhere, each byte of five changes damaged in turn, a change in
//!   the place of one that was cut off, a store that fails, one that is written anew.
//!
//! Tests: `journal.rt` of `call_tests`.
#![tactic(auto)]

mod change;
mod fault;
mod file;
mod foreseeing;
mod found;
mod journaling;
pub mod laws;
mod loss;
mod read;
mod replayed;
mod replaying;
mod store;

pub use change::{START, Sum};
pub use fault::ReadFault;
pub use file::{OpenedDrive, open_drive};
pub use foreseeing::Foreseeing;
pub use journaling::Journaling;
pub use loss::Loss;
pub use replayed::Replayed;
pub use replaying::replay;
pub use store::{ChangeStore, Held, Unknown};
