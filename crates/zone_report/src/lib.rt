//! Zone reports: what a Report Zones command returns, in bytes, and such bytes as text (Zoned Namespace Command Set
//! 1.1, section 3.4.2).
//!
//! # Example
//!
//! ```text
//! // 40 dwords have room for the head and one descriptor.
//! let options = ReportingOptions::InState(ZoneState::Empty);
//! let bytes = report_bytes(alloc, &drive, geometry, 0, options, false, 40)?;
//! let text = report_text(alloc, &bytes)?;
//! // zones 3
//! // start 8 state Empty pointer 8 capacity 6
//! ```
//!
//! # What is promised
//!
//! * `report_bytes` gives the one report of the zones that a drive shows: exactly the selected zones, their number,
//!   whole descriptors, and zeros after them (`specs/Report.antt`). Or it says what was wrong with the request.
//! * `report_text` gives the lines of a report's head and descriptors (`specs/ReportText.antt`). It answers `Field`
//!   exactly where the bytes are no report.
//!
//! Tests: the rows of `worked_runs`.
#![tactic(auto)]

mod fault;
mod report;
mod status;
mod text;
mod zones;

pub use fault::ReportFault;
pub use report::report_bytes;
pub use status::ZoneStatus;
pub use text::{report_text, state_text};
pub use zones::ReportedZones;
