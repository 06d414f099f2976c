//! The array that a drive holds: the records of all batches of all zones, the array that the newest of them encode,
//! which drives can be mounted, and how many blocks are kept in reserve.
//!
//! ```text
//! let geometry = Geometry { block: 512, zones: 4, size: 8, capacity: 6, transfer: 4, active: 2, open: 2 };
//! batch_most(&geometry);      // 3: entries of a batch at most
//! fill(&geometry, 4);         // 6: blocks that the Moves of 4 records take at most
//! most_blocks(&geometry);     // 9: logical blocks at most
//! fits_reserve(&geometry, 9); // true
//! ```
//!
//! Nothing here keeps a state or sends a command. The definitions say what a drive means: its records
//! (`specs/Records`), its size (`specs/Sizes`), its logs and its array (`specs/ZoneLogs`), which zones can be given up
//! (`specs/Spare`), how a torn zone is repaired (`specs/Repair`, `specs/Repairing`), which drives can be mounted
//! (`IsMountable` in `specs/Mountable`), and the reserve (`FitsReserve` in `specs/Reserve`).
//!
//! # What is promised
//!
//! * The reserve is computed exactly, and the greatest number of blocks that fits it.
//! * The newest record of a block has the greatest sequence of that block. The size is the greatest in the headers.
//! * An Append of a batch with the greatest sequence changes array, map and size by its own records only.
//! * After an Append, whole or torn, and after a Finish each zone has a log.
//! * There is exactly one clearing, and it keeps the array.
//! * A drive with one torn zone like ours can be mounted. So can one after each Reset that a mount sends, and after a
//!   Finish and a restart. So can one between the Moves of a repair, the last of which may be torn.
//! * The array of a mountable drive consists of whole blocks.
//!
//! Functions with empty bodies carry all but the first of these as their contracts (`laws.rt`).
//!
//! Tests: the rows of `worked_runs`, for the functions and the laws.
#![tactic(auto)]

mod laws;
mod reserve;

pub use laws::{
    append_first, append_logs, append_writes, empty_spare, encoded_blocks, finish_logs,
    finish_mounts, greatest_is, newest_is_live, one_clearing, repair_mounts, resets_mount,
    torn_mounts,
};
pub use reserve::{batch_most, fill, fits_reserve, most_blocks};
