//! Tools that look at a drive in a file, or plan one. None of them changes a file.
//!
//! ```text
//! match do_tool_job(&rt, alloc, &job, &mut output) {
//!     Ok(all_is_well) => ..,                      // a check says false of a drive that cannot be mounted
//!     Err(fault) => explain(alloc, &job, fault)?, // a line for people
//! }
//! ```
//!
//! A [`ToolJob`] says what is asked (`asked_tasks` reads it). [`do_tool_job`] opens the file, and locks it as a
//! reader. [`answer_tool`] does the job over its bytes, by one of these. [`tool_note`] says what else is to be known.
//!
//! * [`answer_check`]: all faults of a drive, and whether a mount would be done.
//! * [`answer_info`]: what a drive holds, and what a mount takes.
//! * [`answer_plan`]: what numbers of logical blocks cost on a drive. [`plan_of`] plans one of a given shape.
//! * [`answer_format`]: the words that make a drive for a number of bytes.
//! * [`answer_zones`]: the zones of a drive, as they were saved. [`zones_text`] is their text.
//! * [`answer_picture`]: the same as a picture, with the live blocks of each zone.
//! * [`answer_entry`]: the raw line of an entry.
//!
//! # What is promised
//!
//! * Over every reader, writer and form of text: exactly the text is written that the form gives of what was found, or
//!   a beginning of it where the writer fails (`specs/Telling.antt`). Before another fault nothing is written.
//! * What was found is what `drive_inspection` and `write_plan` define, for the drive that the bytes hold:
//!   [`answer_check`] finds all of its faults, and says that it can be mounted exactly where a mount of the restarted
//!   drive would be done (`FindsMountable`).
//! * Each job is done by its own call, with its numbers, form and words, and names the file that it reads
//!   (`specs/Asked.antt`). Only a check may say that not all is well.
//! * A fault of the file is the first fault in its bytes.
//! * The lines of the zones in a state are exactly those of a report of that state (`ShowsZones`).
//! * A picture shows the zones as they were saved, and is given how many blocks with data are live in each. Of a drive
//!   that cannot be mounted it is given none of these numbers (`specs/Pictures.antt`).
//!
//! [`find_live`] counts live blocks over any device: while the drive is clean, as long as each Read returned what the
//! drive holds. Whatever the Reads returned, zones hold what they held. A look that ends early says why: a stop, a
//! failed command, memory, or `Damaged`, which never comes while the drive is clean (`EndsLook`, `LooksNone`).
//!
//! # What is not proved
//!
//! * [`do_tool_job`], [`drive_in_image`] and [`make_image`], which open files: no contract says what a file holds.
//!   What stands in their bytes is promised by `job_drives`.
//! * What the other forms say, and that a picture draws the live blocks, is tested.
//!
//! Tests: the rows of `tool_rows`.
#![tactic(auto)]

mod answering;
mod checking;
mod entries;
mod explanation;
mod fault;
mod file;
mod form;
mod images;
mod informing;
mod job;
mod notes;
mod picturing;
mod planning;
mod showing;
mod telling;

pub use answering::answer_tool;
pub use checking::{CheckForm, answer_check, interrupted};
pub use entries::answer_entry;
pub use explanation::explain;
pub use fault::ToolFault;
pub use file::do_tool_job;
pub use form::Form;
pub use images::{drive_in_image, make_image};
pub use informing::{InfoForm, answer_info};
pub use job::{CheckJob, InfoJob, PlanJob, PlannedDrive, ToolJob, ZonesJob};
pub use notes::tool_note;
pub use picturing::{Picture, PicturedDrive, answer_picture, find_live};
pub use planning::{FormatLine, PlanForm, PlanRows, answer_format, answer_plan, plan_of};
pub use showing::{ZonesForm, answer_zones, zones_text};
pub use telling::tell;
