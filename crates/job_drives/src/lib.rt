//! What each job stands on: the file of its drive, the drive that is kept in it, and the disk that is mounted on it.
//!
//! ```text
//! let (image, bytes) = image_to_save(files, alloc, path)?; // locked: no other program reads or changes it
//! let file = ChangesFile::new(&saving, image);
//! let stored = keep_restarted(alloc, DriveFile { bytes, store: file.store() }, Habit::Lazy)?;
//! let device = stopping(stored.device, stop);              // completes no command after that many
//! let mut disk = match mount_served(alloc, device, None) { // as many blocks as the headers on the drive say
//!     Ok(disk) => disk,
//!     Err((fault, device)) => return give_back(device, fault),
//! };
//! let output = ChangesOutput::new(&file, SentAfter::Write, &mut output); // changes are written before replies are
//! sent let (left, _) = leave(disk.into_device(), stored.was_image); let Finished { fault, saved } = finish(file,
//! Some(left)); // the image of the drive takes the place of the file
//! ```
//!
//! # What is promised
//!
//! Of the disk:
//!
//! * [`mount_served`] mounts the drive as the number of blocks that was given. If none was, the disk has the size that
//!   a header on the drive says, also if that is one block. A drive whose headers say none is refused, and told by
//!   whether it has any batch. A drive that could be mounted still can be, with the same array (`specs/Mounted.antt`).
//! * [`mount_any`] does so over any device. What is said here holds while the drive is clean: as long as each Read
//!   returned what the drive holds. Whatever the Reads returned, it ends, the drive has the same shape, and the number
//!   of blocks that a fault tells is the one for which the geometry has room (`TellsRoom`).
//! * [`stopping`] makes a device with the stop that it is given.
//! * [`DiskSize::of`] tells the size of a disk and the shape of its drive.
//!
//! Of the file, if it does what [`Backing`] says (`specs/Backing.antt`):
//!
//! * Its bytes and the changes that are gathered for it hold all that was appended; after a fault, all before the
//!   change that was refused. Writing out puts all of it in the file, and a sync on the disk, with the name of the
//!   file.
//! * What is cut off is cut off on the disk before more is appended, so that no loss of power brings it back.
//! * A failed sync is remembered: no later one is done by success, and no change is taken.
//! * The file is written anew, or saved, by the image of the drive, on the disk.
//!
//! Of the drive in it:
//!
//! * [`restarted_drive`] gives the drive that the bytes of a file hold, restarted, and [`saved_drive`] gives it as it
//!   was saved; or they tell the first fault in the bytes.
//! * [`keep`] makes a device of that drive and a store: the device shows the drive, and the store holds it.
//! * [`keep_restarted`] and [`leave`] are the two ends of any job on the drive in a file. Whatever the job does to the
//!   drive, the store holds the drive that is left, in its image and its changes. Whether the store failed is told
//!   exactly, and whether the file was the image of the drive at rest (`LeavesFile` in `specs/Left.antt`).
//! * [`drive_to_save`] says what is saved at the end: the drive that is left, also after a fault. Nothing is, if the
//!   store failed, or if the file stays as it is. By [`stays`] it does only if it was the image of the drive at rest
//!   and took no change, or if it takes no more changes.
//! * [`first_told`] tells a job by the fault of its file, with its reason, if that failed.
//!
//! # What is not proved
//!
//! * Anything of the files of the system: std does not say what a path names, what a file holds or who has locked it.
//!   One of them does what [`Backing`] says, by a call of the system for each call. Its lock, its syncs, the new file
//!   that takes its place, and the input that ends when it fails are tested (`tools/two_programs`).
//! * That the changes of a reply are in the file before it is sent: no contract sees into the cell that the store and
//!   the output share. `tools/kill_runs` kills runs, and looks for answered lines that are lost.
//! * The file of [`finish`]: it saves in a file of the system, of which no contract says anything.
//! * That the drive has the habit that was asked for: `keep` may make each one lazy. The rows of `worked_runs` and
//!   `job_tests` show that habits act.
//! * That the device keeps its stop during the calls of a disk, and what [`statistics_of`] says, is tested.
//! * The texts of [`KeepFault`], which says why a job does not work on the drive in a file or why it is not saved.
//!
//! Tests: the rows of `nbd_rows`, `tool_rows` and `job_tests`; `tools/kill_runs` and `tools/two_programs`, on files.
#![tactic(auto)]

mod backing;
mod changes_file;
mod changes_output;
mod changes_store;
mod disk_size;
mod file_end;
mod file_fault;
mod gathered_bytes;
mod gathered_file;
mod headers;
mod image_file;
mod input_gate;
mod keep_fault;
mod kept_drive;
mod left;
mod locked_file;
mod mount_fault;
mod mounted;
mod new_file;
mod saving;
mod statistics;
mod stop;
mod whole_file;

pub use backing::{Backing, Renewed};
pub use changes_file::ChangesFile;
pub use changes_output::{ChangesOutput, SentAfter};
pub use changes_store::ChangesStore;
pub use disk_size::DiskSize;
pub use file_end::FileEnd;
pub use file_fault::{FileFault, SystemError};
pub use image_file::{ImageFile, image_to_format, image_to_read, image_to_save, new_image};
pub use input_gate::{Gate, GatedInput};
pub use keep_fault::{KeepFault, unread_note};
pub use kept_drive::{Begun, DriveFile, keep, restarted_drive, saved_drive};
pub use left::{Left, Stored, keep_restarted, leave};
pub use locked_file::LockedFile;
pub use mount_fault::NoDiskFault;
pub use mounted::{mount_any, mount_served};
pub use new_file::{Saved, Saving, save};
pub use saving::{Finished, drive_to_save, finish, first_told, stays};
pub use statistics::statistics_of;
pub use stop::{Stop, stopping};
