//! The disk: an array of logical blocks above one zoned drive.
//!
//! A zoned drive takes writes only at the write pointers of its zones. A `Disk` owns such a drive, and shows it as an
//! array of blocks that can be read and written in any order. An [`AnyDisk`] is the same over any `drive_port::Device`,
//! also one whose Reads lie; a [`Disk`] asks for one whose Reads return what it holds (`Honest`).
//!
//! ```text
//! let mut disk = match Disk::mount(alloc, drive, 8) {
//!     Ok(disk) => disk,
//!     Err((fault, drive)) => return give_back(drive, fault),
//! };
//! disk.write(2, &bytes)?;          // from block 2 on
//! disk.fill(5, 3, 0xaa)?;          // blocks 5 to 7
//! disk.trim(6, 1)?;                // block 6 reads as zeros
//! disk.write_list(&entries, &bytes)?; // each block that an entry names is written or trimmed
//! disk.grow(9)?;                   // one block more
//! disk.read(2, 3, &mut shown)?;    // blocks 2 to 4
//! disk.read_joined(2, 3, &mut shown)?; // the same, by fewer commands
//! disk.flush()?;                   // a loss of power leaves these blocks, if the drive says what one leaves
//! disk.remount()?;                 // the same blocks, found again on the drive
//! let drive = disk.into_device();
//! ```
//!
//! # What is promised
//!
//! Whatever the Reads of its device return, each call of an `AnyDisk` ends, done or refused. Its drive keeps its shape,
//! and the disk its size but for a growth or a remount (`StaysAlike`). Its commands have the bounds below. The numbers
//! by which it sends commands stay in range (`Holds`). What does not fit them is refused by `Damaged`, and then the
//! disk serves no more until its drive is mounted again. While the drive is clean, that never comes. All that follows
//! is promised of an `AnyDisk` while its drive is clean, that is as long as each Read returned what the drive holds;
//! and of a `Disk` always.
//!
//! That is for every list of calls on a disk mounted on any drive, with stops and failed allocations at any point. A
//! stop may fall between two commands or inside one: what holds at an exit with `Stopped` holds then.
//!
//! * Each answer is a flat array's answer (`FlatCall` in specs/Flat), by these cases in order: a call of no block is
//!   done; one past the end is `OutOfRange`; a disk that refused a remount answers `Unmounted`; one that has answered
//!   `Stopped` answers it again; any other call is done or refused midway.
//! * Done, a read shows the array's blocks, and a write, a fill, a trim or a list has replaced them. A growth is
//!   refused as `Smaller` below the disk's size, then as `Reserve` above what the drive allows. Done, its new blocks
//!   are zeros.
//! * A read or a report is refused midway only by `OutOfMemory`, `Failed` or `Stopped`, and shows nothing. A refused
//!   write, fill, trim or list has written a front of its blocks, and nothing else. A refused growth leaves the array
//!   the same, or after a stop the array before or after the growth.
//! * While all data can be read, no call is refused for lack of room. Once it was begun, it is refused only by
//!   `OutOfMemory`, `Failed` or `Stopped`; all but reads and reports also by `Spent`. A read of a disk that serves
//!   answers `Stopped` only if one of its blocks has data (`HasData`). `Failed` comes only if the drive has failed at a
//!   command.
//! * `Stopped` comes only if the drive has stopped, `Spent` only if the next sequence is 2^63 - `capacity` or more
//!   (`cause`). A call whose answer is known before it begins leaves disk and drive untouched.
//! * The drive refuses no command. At each exit, whatever the answer, the drive can be mounted and encodes the array
//!   (`KeepsDisk` in specs/View, `IsMountable` of `drive_array`): a zone is vacant or half clean, and one torn zone at
//!   most can be repaired.
//! * A drive that can be mounted is mounted as the array that it encodes; any other is refused by the first fault that
//!   a mount meets, and is unchanged up to closings (`IsMounted`, `GivesBack`). A remount is refused only by `Halted`
//!   or `OutOfMemory`. Done, the disk serves the same array, and no clean runs; refused, it is unmounted (`Remounts`).
//! * A completed trim leaves on the drive a record of each of its blocks, newer than all others, also for blocks that
//!   were never written. A write or a fill leaves one with data (`names` of `Stores`), and a list what its entries say
//!   (`names` of `StoresList`). All other blocks have records as before.
//! * After a write, a fill, a trim or a list of some blocks the greatest size in the drive's headers is the disk's. A
//!   completed growth appended at least one batch that says the new one (`says`).
//! * After these calls the next sequence is at most 2^63 - `capacity`: the sequences kept for repairs are left
//!   (`early`). It rises by one with each Append, and falls only by a remount. While the disk serves, it is above
//!   every sequence on the drive.
//! * Every new host batch is full, unless it is the last of the call or ends its zone, whatever the call answers.
//!   Moves are the only other new batches (`cut`, `LogsAreCut`).
//! * Completed commands are at most, with c for 2 * `capacity` + 1: `n` for a read of `n` blocks; `n` * c for a write,
//!   a fill or a list; ceil(`n` / `batch_most`) * c for a trim; c for a growth; 2 for a turn; 1 for a report or a flush
//!   (`completed`). Once a command failed, c is 2 * `capacity` * `zones` + 1, since zone after zone may be cleaned.
//! * A `read_joined` answers as a `read` does. Done, it has sent one command at most for each piece: a block without
//!   data, or a block and all its neighbours on the drive that one command reaches (`ReadsPieces` in specs/Parts).
//! * An `idle` of a serving disk is exactly one turn of cleaning (`IsTurn`). Each completed turn leaves fewer turns, a
//!   refused one as many, and no other completed call adds any. A clean that a turn starts has at most `capacity` - 1.
//! * If no command fails, a refused write, fill, trim, list or growth does not set back a clean that ran before it: it
//!   still runs, of the same zone, or its zone was emptied (`KeepsClean`). A clean whose data cannot be read is undone.
//! * While the disk serves, `place_of` tells where the newest record of a block is, `live` how many blocks have theirs
//!   in a zone, and `is_cleaning` whether a clean runs. If none runs, a zone is kept empty.
//! * A report shows all zones, whole, at one moment of the call, up to closings (`ReportsAll`).
//! * Blocks that are written read back, and a write changes no other block. A list leaves the array that its writes and
//!   trims leave one by one, in any order (`laws`). `into_device` gives the drive back as it is.
//! * Only a `flush` changes what a loss of power leaves (`HardensBy` in specs/Answers). Done, that is this array.
//! * A batch finds a host zone with two free blocks. A new one is the next zone or, without one, the lowest empty
//!   zone, never the last. Only a host zone with fewer than two free blocks is given up. Only a disk without a host
//!   zone, a next zone and a second empty zone cleans for a batch (`make_room`).
//! * What was answered is found again: a disk that was mounted can be mounted again after any calls, whatever they
//!   answer and whatever ended it. Its drive, restarted, can be mounted, and each disk that is mounted on it has the
//!   array that was left. Only a stop or a failed allocation refuses such a mount (`laws::answered_is_found`).
//! * The same holds of whole lists of calls and remounts (`laws::lists_are_found`). After a loss of power the array of
//!   the last flush that was done is found, or that of one after it that was refused (`laws::flushed_is_found`).
//!
//! # What is not proved
//!
//! * Where batches go is a contract only in part: the choice of a host zone and of a victim. The stored runs show the
//!   rest.
//! * The room for a batch is a contract of its parts, and not of the disk's own calls.
//!
//! Tests: the rows of `worked_runs`, with a stop at every place.
#![tactic(auto)]

mod disk;
mod fault;
mod flush;
mod honest;
pub mod laws;
mod list;
mod read;
mod report;
mod room;
mod status;
mod write;

pub use batch_log::Entry;
pub use disk::AnyDisk;
pub use fault::DiskFault;
pub use honest::Disk;
pub use laws::{write_keeps_others, written_reads_back};
pub use logical_map::Place;
pub use remount::MountFault;
pub use status::DiskStatus;
