//! The cleaner: it makes room on a drive whose zones are all in use.
//!
//! A zone can be written again only after a Reset, and some of what an old zone holds is dead: its blocks were written
//! again elsewhere. So the cleaner takes the zone with the fewest live records, the victim, repeats these records in
//! Moves to an empty zone, the destination, and then resets the victim.
//!
//! ```text
//! let mut cleaner = Cleaner::new(alloc);
//! cleaner.turn(&mut disk)?;                           // starts a clean, if one is due
//! cleaner.turn(&mut disk)?;                           // gathers a record, or appends a Move, or resets the victim
//! cleaner.append_batch(&mut disk, host, &batch)?;     // a batch of the host, during the clean
//! cleaner.clean_zone(&mut disk)?;                     // all turns that are left, of a disk that needs room
//! ```
//!
//! # What is promised
//!
//! Whatever the Reads of its drive return, each call ends within its bound on commands, the numbers of the disk stay in
//! range, and its size stays (`StaysSane` in specs/Answering). Where they do not fit, it is refused by `Damaged`. All
//! else is promised while the drive is clean, that is as long as each Read returned what the drive holds:
//!
//! * A turn starts the clean that is due, of the sealed zone with the fewest live records. Or it does exactly the next
//!   step of the running clean: it gathers a record, appends a Move, or resets the victim (`TurnLeaves` in
//!   specs/Start). Each Move repeats what the array has; only the victim loses its records.
//! * If a record cannot be read, that is noted, and its zone is left out (`NotesLost` in specs/Undoing). The next turn
//!   undoes the clean: it resets the destination, and what was moved there has its old place again (`UndoesClean`).
//!   Nothing is lost by that. Zones that are left out are no victims.
//! * Whatever a turn answers, the drive can be mounted, encodes the same array and refuses no command
//!   (`KeepsByCleaning`). The next sequence rises by the Appends.
//! * Each turn that is done leaves fewer turns, so the clean ends; a refused one leaves as many (`TurnsFewer`). A turn
//!   completes two commands at most. A clean that starts has at most `capacity` - 1 turns.
//! * A batch of the host never adds a turn. Once it is appended, the clean forgets the blocks that the batch names.
//!   After a failed allocation the clean is unchanged; after a stop the drive can be mounted (`HostLeaves` in
//!   specs/Host).
//! * A disk without a host zone and a next zone, and with at most one empty zone, cleans by `clean_zone`. Done, the
//!   host can take a zone: the next zone, or an empty one beside another (`HasZone`). That takes at most 2 * `capacity` -
//!   2 commands while none fails. Else other zones are cleaned, with as many commands for each zone (`CostsClean`). While
//!   all data can be read, there is always a zone to clean. Else it may end by `Failed`, if no zone is left to clean.
//! * The last turn empties the victim. The destination keeps two free blocks (`HasRoomFor` in specs/Clean).
//!
//! Nothing promises that anyone takes turns while no room is needed.
//!
//! Tests: the rows of `worked_runs`.
#![tactic(auto)]

mod clean;
mod cleaner;
mod fault;
mod gathered;
mod moved;
mod step;

pub use cleaner::Cleaner;
pub use fault::CleanFault;
