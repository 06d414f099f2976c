//! A zoned drive that stays in its file: each byte is written to its place, and memory grows with the zones alone.
//!
//! # Example
//!
//! ```text
//! let mut file = MemoryFile::new(alloc, file_length(&geometry) as usize)?;
//! format(&mut file, &geometry)?;
//! mark_file(alloc, &mut file, number)?;           // the system's number of this file
//! let mut file = ClaimedFile::new(file, number);  // until it is dropped, a copy is refused
//! let found = open(alloc, &mut file, &system)?;
//! let mut drive = serve(alloc, file, system, found);
//! append(alloc, &mut drive, 0, &[1; 1024])?;
//! store(&mut file, &other)?;                      // the zones of a drive in memory
//! let again = load(alloc, file, system, found)?;  // and back: the same drive, as a restart leaves it
//! ```
//!
//! # What is promised
//!
//! * Over every file that keeps the contract of `file_bytes`, the drive is a `Device`: each command is in the file
//!   when it is answered, and what a Read shows is what the file holds. Blocks above a zone's pointer are zeros,
//!   whatever the file holds there.
//! * A kill between two calls of the file leaves a file that can be opened. A system that knows its boot, and is still
//!   in it, finds the zones as the last answered command left them, or the one under way (`FileZones::into_file`,
//!   `kill`). So it does after a kill inside of a call that was not done (`cut`). Only a read or a sync that fails or
//!   missing memory prevents it.
//! * An open in the boot that the file names believes the live table only if the file proves it: each zone has the sum
//!   of what the file shows of it (`proves_live`). Else the flushed table counts, and `Found` says so (`set_back`).
//!   Whatever a loss of power leaves can be opened in any boot, in this way (`here`). So no flushed zone is shown older
//!   where a disk lost its power and the system stayed up, unless a sum agrees by chance: once in some 134 million
//!   cases.
//! * After a sync that failed, the system may show older bytes wherever it was not synced, in the same boot too. Then
//!   the drive stops, and takes its boot out of the file's head. Each later open, in any boot, finds zones that are
//!   durable (`lost`). If that word cannot be written either, nothing is promised in the same boot.
//! * Only a Flush changes what an open may find after a loss of power (`durable` of `FileZones`). Whatever that leaves
//!   can be opened in another boot, and has zones that are durable. After a Flush that was answered these are just the
//!   zones of that flush. A flush that fails leaves the zones of the last one, or its own (`flush`, `power`).
//! * `format` makes a file of zeros a drive of empty zones. `store` makes it the same drive as one in memory, as a
//!   restart leaves it (`HoldsDrive` in `specs/Storing.antt`). The file is synced, and each boot opens it. Cut at any
//!   point, both leave no drive or the whole one (`whole`).
//! * A read that fails is `Halt::Failed`: nothing changes, and the drive goes on. A write or a sync that fails stops
//!   the drive: the zones are as they were, nothing more is asked of the file, and what was promised before stays.
//! * An open finds the zones of the table that counts, or tells by name why a file is no drive. Only the flushed table
//!   can be such a reason. Whatever an open answers, a system in this boot finds the same zones later. A system in
//!   another boot finds the same, or the zones of the last flush (`open`, `unnoticed`). If its own sync fails, it says
//!   so (`Unsynced`), and takes the boot out of the head of a drive (`out`). So each later open takes the table of the
//!   last flush.
//! * A file is marked by its number while a program has it (`mark_file`, `ClaimedFile`). Whatever is written then, and
//!   whatever a kill or a loss of power leaves, the mark stays (`IsMarked` in `specs/Mark.antt`). At the end it is
//!   taken away (`ClaimedFile::end`). A file is refused exactly if it has the mark of another number (`check_mark`):
//!   then it is a copy, and its blocks may be of different moments. `open` itself does not ask for marks.
//! * `copy_zones` gives a drive in memory with just the zones that are held: their states, and the bytes of their
//!   written blocks. A report does not tell how many blocks of a Full zone are written, so no Read could find that.
//!   From zones in memory it neither stops nor fails. `load` does it with the zones of a file that was opened. What
//!   `store` made of zones, `load` gives back as a restart leaves them (`store_and_load`). Only a call on the file, or
//!   missing memory, is in its way.
//!
//! # What is not proved
//!
//! * That a file of the system keeps the contract of `file_bytes`, and that two boots have two identifiers:
//!   `ports/linux` says what that rests on.
//! * That a copy has another number than its file, nor that a mark is taken away where a file is dropped, and not ended
//!   (`ports/linux` tries both). A loss of power between the write of a mark and its sync may leave any word: if not
//!   the old or the new one, it is hardly the mark of any number.
//! * That two lists of blocks have two sums. Nor that zones which are proved are all of one moment: each is as it was
//!   at the last flush or since. A disk writes whole sectors, and one has the words of 64 zones. So this needs more
//!   zones, or a loss while an open wrote the live table anew, before a flush.
//! * That a drive stops or fails, and `format`, `store`, `open` and `load` fail, only where a call on the file failed:
//!   a body that always stops meets any contract. Only a read of the zones never stops, by contract (`goes_on`).
//! * That the room of blocks that a Reset took comes back after a flush: a file may keep it by contract. That a zone is
//!   noted, and stays so, is proved of `Freed` alone. A test counts the room.
//!
//! # How
//!
//! Each zone has two places in the file. Its word in a table has its state, as a restart leaves it, its place, how many
//! blocks are written, and their sum. There are two live tables and two flushed ones. A word in the file picks one of
//! each two (`specs/Layout.antt`).
//!
//! An append writes the blocks, and then the zone's word in the live table. A flush writes the two tables that are not
//! picked, syncs, picks the flushed one, and syncs. So a flush costs two syncs, and no live word is older than it.
//!
//! The sum of a zone goes on from the one of the last flush, by each block that is written since (`specs/Sums.antt`).
//! A Reset leaves that of the flush. It is in the same word as the count of blocks, so one write changes both. An open
//! in the same boot reads the blocks that were written since the last flush, and no others. The checksum is that of
//! SQLite's log: a sum tells of accidents, and not of an adversary.
//!
//! A Reset moves a zone to its other place if the last flush has blocks of it in the present one, and only then. So no
//! append writes over blocks that the last flush promised (`AreApart` in `specs/InFile.antt`). The file is sparse: a
//! place takes room on the disk once it is written. So the file may take up to twice the drive's written blocks.
//!
//! A new file has the blocks of each zone in its first place. All of it is synced before its first word is written, by
//! which an open knows a drive.
//!
//! The room of blocks that a Reset took comes back at the next flush (`release` of `file_bytes`): then neither table
//! counts a block there. Only zones that were reset since the last flush are looked at, each once: all of them after a
//! Reset of all, or where memory was missing (`Freed`). A kill between the two leaves that room to a later Reset of the
//! zone.
//!
//! The head names the boot of the system that served the file last. An open in the same boot takes the live table, if
//! the file proves it. Any other open takes the flushed one. Then it writes the live one anew before it names its own
//! boot. If a sync fails, the second word of that boot becomes 0, so that each later open takes the flushed table
//! (`sync_file`).
//!
//! All tables of a new file are written, also where they have zeros. So the file system has room for them, and a full
//! one is in the way of no open and of no flush.
//!
//! Tests: in `call_tests`.
#![tactic(auto)]

mod all;
mod append;
mod boot;
mod claimed;
mod copying;
mod entries;
mod entry;
mod fault;
mod flush;
mod found;
mod freed;
mod fresh;
mod head;
mod held;
mod held_zones;
mod laws;
mod layout;
mod loading;
mod mark;
mod opening;
mod proving;
mod reading;
mod releasing;
mod serving;
mod storing;
mod sums;
mod syncing;
mod tables;
mod words;
mod zones;

pub use boot::{Boot, System};
pub use claimed::ClaimedFile;
pub use copying::copy_zones;
pub use entry::Entry;
pub use fault::OpenFault;
pub use found::Found;
pub use fresh::format;
pub use head::Head;
pub use laws::store_and_load;
pub use layout::file_length;
pub use loading::load;
pub use mark::{check_mark, mark_file};
pub use opening::open;
pub use serving::serve;
pub use storing::{store, store_zones};
pub use tables::Tables;
pub use zones::FileZones;
