//! What a drive holds, read without changing it: its zones, the headers of all batches, and the faults for which it
//! cannot be mounted.
//!
//! ```text
//! let mut survey = survey_drive(alloc, &mut device, 9)?; // one report, and one Read for each batch
//! survey.size;                                           // how many logical blocks the drive has
//! survey.scanned[2].heads.heads();                       // the headers of the batches of zone 2
//! survey.scanned[2].is_torn;                             // whether a stopped Append left a tail there
//! clear_zones(alloc, &mut device, &mut survey)?;         // the zones that a stopped clean left half clean
//! ```
//!
//! # What is promised
//!
//! * A drive is surveyed exactly where it can be: its geometry and the number of blocks are in range, no zone is Read
//!   Only or Offline, at most two are partly written, each zone holds a log, the batches are sound, and the reserve
//!   allows the size that they say. Then the headers of all batches are known (`Surveys` in specs/Survey).
//! * Each fault but `Halted` and `OutOfMemory` is the first one, in the order in which a survey looks (`SurveyFails`):
//!   the report first, then zone by zone and batch by batch (`FailsFirst` in specs/Scan).
//! * The half clean zones are found, each the lowest of its moment (`IsClearing` in drive_array/specs/Spare).
//!   `NoSpare` comes exactly where there is neither a half clean zone nor a vacant one.
//! * If a zone of Moves is needed for a block, the block that is told is the first such one that the zone names
//!   (`IsFirstNeeded` of `Finds`).
//! * No command is sent for a geometry out of range, or a number that the reserve does not allow.
//! * A survey completes at most one command more than there are readable blocks. If it accepts: one for the report,
//!   one for each batch, one for each block after the last batch of its zone (`ReadsOnce`).
//! * A search for half clean zones passes over the zones once for each that it finds, and once more. It reads at most
//!   two blocks for each entry (`SearchesBy`).
//! * What is said of batches holds while the drive is clean: as long as each Read returned what the drive holds.
//!   Whatever the Reads returned, a survey ends, and one that accepts has looked at all zones, with a true report of
//!   each (`Reports` in specs/Survey). The calls of `honest` are for a device that is always clean.
//! * Whatever is answered, no command was refused and nothing was appended. The zones are as before, but that the
//!   controller may have closed some (`KeepsZones` in specs/Reported).
//!
//! # What is not proved
//!
//! That the commands of a survey are Reads. Nothing is appended by contract, and the rows of `worked_runs` show the
//! rest.
//!
//! # How it goes
//!
//! `report_zones` asks for the states of all zones. `scan_zones` reads the header of each batch, 16 bytes of which are
//! kept, and 4 bytes of each entry (`heads_of` in specs/Heads). `survey_drive` compares what they say with the size of
//! the disk. `clear_zones` looks at the zones of Moves, the lowest first: a zone is half clean if no block shows
//! anything else without it (`examine_zone`). Only blocks whose newest record is in such a zone are read.
//!
//! Tests: the rows of `worked_runs`.
#![tactic(auto)]

mod clearing;
mod fault;
mod heads;
pub mod honest;
mod records;
mod reported;
mod scan;
mod sequences;
mod survey;

pub use clearing::{Finding, clear_zones, examine_zone};
pub use fault::MountFault;
pub use heads::{Head, ZoneHeads, larger};
pub use records::{KeptRecord, entry_record, is_trim};
pub use reported::{ReportedZone, fault_of, report_zones};
pub use scan::{ReadableZone, ScannedZone, read_block, scan_zone, scan_zones};
pub use sequences::greatest_sequence;
pub use survey::{Survey, count_partly_written, greatest_size, is_partly_written, survey_drive};
