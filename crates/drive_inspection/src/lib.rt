//! All faults of a drive, what it holds, and what a mount would do to it. Only a rehearsal changes the drive.
//!
//! ```text
//! let findings = check_drive(alloc, &mut device, 9)?; // reports, and Reads
//! findings.refusal;                                   // by what a mount is refused; None if it is not
//! findings.batches;                                   // each zone whose batches have a fault by themselves
//! findings.repeated;                                  // each sequence that an earlier batch has, too
//! let info = inspect_drive(alloc, &mut device, 9)?;   // reports, and Reads
//! let Ok(found) = info.found else { .. };             // or by what a mount is refused
//! found.holdings.live.written;                        // how many logical blocks have data
//! found.work.half_clean;                              // the zones that a mount resets as half clean
//! rehearse_mount(alloc, &mut device, 9)?.commands;    // how many commands a mount takes
//! ```
//!
//! # What is promised
//!
//! What is said here of batches holds while the drive is clean: as long as each Read returned what the drive holds.
//!
//! Of a check:
//!
//! * The refusal is the fault by which a mount is refused, the first in its order, or none exactly where the drive can
//!   be mounted (`Refuses` in specs/Findings). It is `Failed` if the drive failed at a command before that was known.
//!   Nothing is listed of a drive that can be mounted, nor of one whose geometry is out of range.
//! * Else the lists have exactly the faults of their kinds (`ListsFaults`): each zone that is Read Only or Offline, and
//!   how many zones are partly written. Of the other zones, each read by itself: those in which the drive failed at a
//!   command, and for each the first fault of its batches by themselves. Among zones without a fault: each sequence
//!   that is met again, each zone that names a block past the end, each torn zone, and how many these zones are. What
//!   one zone holds, or hides, hides no fault of another one.
//! * `foresee_mount` tells what a mount does before it changes the drive.
//!
//! A check tells only the first fault of a zone. It lists a torn zone also if a mount would empty it. Of a zone in
//! which the drive failed it tells nothing else. A zone that is Read Only or Offline is not read.
//!
//! Of an inspection:
//!
//! * A drive is inspected exactly where it can be mounted; of any other the refusal of a mount is told
//!   (`InfoOrRefusal` in specs/Info), with all faults that a check finds.
//! * The numbers are those of the drive by definition (`AreHoldings`): the greatest number of logical blocks that it
//!   can serve, the number that its headers say and the number that it has; the greatest sequence; how many blocks
//!   have data, and how many are trimmed; of each zone the batches, the live records of both kinds, and whether it is
//!   torn. A trim is no live data.
//! * The zones that a mount resets, as half clean or for having no batch, are told exactly; so is the torn zone that
//!   it repairs, and how many live records that moves in how many Moves (`Foretells`).
//! * A rehearsal mounts the drive. It tells how many commands that takes, the next sequence, and for how many batches
//!   of the host sequences are left (`Rehearses`).
//! * `inspect_and_rehearse` does both (`IsInspected`), and gives back what is left of the drive. The commands that it
//!   counts are as many as the mount completes, whether it is done or refused.
//!
//! Of what a format would destroy (`specs/Written.antt`):
//!
//! * [`find_written`] tells how many zones are not Empty, and what they hold (`IsWritten`). It tells nothing exactly
//!   where each zone is Empty.
//!
//! Of all these, but of the rehearsals:
//!
//! * No command was refused and nothing was appended. The zones are as before, but that the controller may have closed
//!   some (`KeepsZones` in drive_survey/specs/Reported).
//!
//! Of all of them:
//!
//! * Each ends early only by a stop, a failed allocation, or a report that the drive failed at; a rehearsal by any such
//!   command. A failed command had no effect, and is told by `Failed`: the drive is not unfailing then. The call can be
//!   made again.
//! * Whatever the Reads returned, each call ends, and what a report tells is true: the states of the zones, which of
//!   them cannot be used and how many are partly written (`AreByReport` in specs/Findings, `IsReportInfo` in
//!   specs/Info, `CountsWritten` in specs/Written). The commands of a rehearsal are counted (`CountsMount`). A call
//!   that fails tells nothing of what the drive holds (`IsNoFinding` in specs/Found). Where what the drive returned
//!   does not fit together, the fault is `Damaged`.
//!
//! # What is not proved
//!
//! How many commands of a mount are of which kind: its Reads and Finishes are tested.
//!
//! # How it goes
//!
//! A check goes as far as a mount does before it changes anything (`foresee_mount`). A drive that a mount refuses is
//! read anew, each zone by itself (`read_zones`). The lists are made from the headers.
//!
//! An inspection reads all headers by a survey. `place_records` of `remount` finds the newest records, which are
//! counted. `plan_mount` then says what a mount would do.
//!
//! Tests: the rows of `tool_rows`.
#![tactic(auto)]

mod checking;
mod counting;
mod finding;
mod foreseen;
mod holding;
mod info;
mod inspecting;
mod lists;
mod reading;
mod rehearsing;
mod work;
mod written;

pub use checking::check_drive;
pub use finding::{Findings, PastEnd, Repeat, ZoneFault};
pub use foreseen::foresee_mount;
pub use info::{
    DriveInfo, Holdings, Info, InspectedDrive, LiveCount, MountWork, Rehearsal, TornRepair,
    ZoneInfo,
};
pub use inspecting::inspect_drive;
pub use rehearsing::{inspect_and_rehearse, rehearse_mount};
pub use written::{
    Holding, Written, blocks_taken, count_written, find_written, holding_of, is_written,
};
