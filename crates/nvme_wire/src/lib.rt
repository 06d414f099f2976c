//! The bytes that pass between a host and a zoned NVMe drive: submission queue entries, completion queue entries, and
//! the parts of a zone report.
//!
//! The formats come from the NVM Express Base Specification 2.0, the NVM Command Set Specification 1.0 and the Zoned
//! Namespace Command Set Specification 1.1, cut down to the profile that `docs/zones.md` states. Nothing here
//! allocates.
//!
//! # Example
//!
//! ```text
//! let append = Command::Append { zslba: 0, blocks: 4 };
//! let entry = append.encode(7);
//! assert_eq!(entry_id(&entry), 7);
//! assert_eq!(Command::decode(&entry), Ok(append));
//!
//! let full = Completion { result: 0, id: 7, status: Status::ZoneIsFull };
//! assert_eq!(full.encode()[12..], [0x07, 0x00, 0x72, 0x03]);
//! ```
//!
//! # What is promised
//!
//! * A command that the profile admits has one encoding, which decodes to that command again. An entry decodes to an
//!   admitted command, or has the first fault in the order opcode, namespace, field (`specs/Entry.antt`).
//! * The identifier of any entry is read (`entry_id`).
//! * A completion, a descriptor and a report's head have one encoding each, and decoding accepts these bytes and no
//!   others (`specs/Completion.antt`, `specs/Descriptor.antt`).
//! * A status has the standard's code and name (`specs/Status.antt`).
//!
//! # What is not proved
//!
//! The bytes of whole examples are tested: a definition that names a wrong byte would be met by code that does so,
//! too.
//!
//! Tests: the rows of `worked_runs` for raw lines and commands.
#![tactic(auto)]

mod command;
mod completion;
mod descriptor;
mod entry;
mod number;
mod report_head;
mod status;
mod zone_state;

pub use command::{Action, Command, DecodeFault, ReportingOptions};
pub use completion::Completion;
pub use descriptor::Descriptor;
pub use entry::entry_id;
pub use report_head::ReportHead;
pub use status::Status;
pub use zone_state::ZoneState;
