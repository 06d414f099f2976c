//! What the tools show, in each of its forms, and raw lines from words.
//!
//! ```text
//! let text = findings_text(alloc, &findings)?;          // of drive_inspection: a line for each fault
//! let text = info_json(alloc, &found)?;                 // what a drive holds, as JSON
//! let text = brief_text(alloc, &drive, geometry)?;      // state Full zones 3 at 0-1 7
//! let text = zones_json(alloc, &drive, geometry, None)?; // as nvme-cli names it
//! let text = zones_svg(alloc, &drive, geometry, &[])?;  // a cell for each zone
//! let entry = entry_of(&words)?;                        // append --start 8 --blocks 4
//! let line = entry_line(alloc, &entry, &words.beside)?; // 128 digits, and those of the data
//! ```
//!
//! [`unmounted_text`] and [`unmounted_json`] show a drive whose mount was not rehearsed: nothing may change it.
//! Nothing here sends a command.
//!
//! # What is promised
//!
//! * [`count_zones`] is how many zones are in a state. [`state_named`] knows exactly the names of a report's lines.
//! * [`entry_of`] gives the command that the words name, with the values of its options. It refuses words only where
//!   the command does not take an option, or a number does not fit its field (`specs/Entries.antt`).
//! * The line of [`entry_line`] is a raw line, and whoever decodes its digits finds the command, its identifier and
//!   the data again (`IsLineOf`).
//!
//! # What is not proved
//!
//! What the texts show is tested, also the dead and the free blocks of a zone.
//!
//! Tests: the rows of `tool_rows`, and `tools.rt` of `job_tests`.
#![tactic(auto)]

mod check_faults;
mod check_json;
mod check_text;
mod entry;
mod entry_fault;
mod entry_words;
mod held_bars;
mod held_json;
mod held_sums;
mod held_text;
mod line;
mod zone_json;
mod zone_lines;
mod zone_picture;
mod zone_states_named;

pub use check_json::findings_json;
pub use check_text::findings_text;
pub use entry::{Entry, entry_of};
pub use entry_fault::EntryFault;
pub use entry_words::{EntryName, EntryWords, command_named};
pub use held_json::{info_json, unmounted_json};
pub use held_text::{info_text, unmounted_text};
pub use line::entry_line;
pub use zone_json::zones_json;
pub use zone_lines::brief_text;
pub use zone_picture::zones_svg;
pub use zone_states_named::{STATES, count_zones, state_named};
