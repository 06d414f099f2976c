//! The port to a zoned drive: what every device promises, and typed calls that rest on that promise alone. All above
//! it knows a drive by these calls, whatever the drive is.
//!
//! # Example
//!
//! ```text
//! // Writes one block to the first zone of any device, reads it back, and again after what was read,
//! // and makes the zone full.
//! let address = append(alloc, &mut device, 0, &block)?;
//! read(&mut device, address, 1, &mut bytes)?;
//! assert_eq!(bytes, block);
//! read_extending(&mut device, address, 1, &mut bytes)?;
//! assert_eq!(&bytes[block.len()..], block);
//! finish(alloc, &mut device, 0)?;
//! ```
//!
//! # What is promised
//!
//! * A `Device` answers an entry by its completion, and has then done what the command says (`specs/Step.antt`); or it
//!   halts (`specs/Halting.antt`). Out of memory, nothing changed. It may have stopped before, and nothing changed; or
//!   it stops inside the command, which then counts for nothing: it has had no effect or all of it, or of an Append
//!   only the first blocks were written. A device leaves whole blocks only: a block that is written in part is never
//!   met.
//! * The bytes that a Read returns are the device's word. They are what the drive holds while the drive is `clean`:
//!   that flag falls only at a Read that returned other bytes, and never rises (`Performs` in `specs/Step.antt`). No
//!   code can see it. So a clause either speaks of no bytes that were read, or begins with "while the drive is clean".
//!   An `Honest` device is always clean, as a drive in memory is (`read_strictly`).
//! * Before a command and after it a controller may close implicitly opened zones, as the standard allows: such a
//!   *closing* changes no content of a zone (`specs/Drive.antt`, `closing_keeps_contents`).
//! * Each call is one submit of its command, and gives its result, the refusal, memory or the stop. It says what it
//!   leaves of the zones, up to closings (`Leaves`), and of their contents (`AppendKeeps` and its kin), also where the
//!   device stopped; when a drive has to take it (`CanAppend` and its kin); and what every call keeps (`Obeys`). All
//!   of these are in `specs/Calls.antt`; a record of each call has them together (`specs/Answering.antt`).
//! * Only a Flush changes what of the drive is durable. Done, a loss of power leaves the zones as they are. Stopped,
//!   it leaves those, or what it might have left before (`specs/Durable.antt`). No drive refuses a Flush. That is said
//!   of a drive that says what a loss of power leaves; of others nothing is.
//! * `submit_extending` and `read_extending` keep what a buffer holds, and put after it what the command returned
//!   (`Adds` in `specs/Halting.antt`); after a fault the buffer is unchanged.
//! * `StopAfter` stops a device after a number of commands, or inside the Append that follows them, of which it leaves
//!   exactly so many blocks (`specs/Stop.antt`). `Recorder` keeps the entries of those that were completed. Both are
//!   devices again.
//! * A restart closes the open zones, and changes no contents (`restart_keeps_contents`).
//!
//! # What is not proved
//!
//! No contract carries the limit and the tear of a `StopAfter` through the calls of a disk: the trait `Device` does
//! not say that a command keeps them. The rows of `worked_runs` and `call_tests` show that they act.
//!
//! Tests: the rows of `worked_runs`, by calls in words.
#![tactic(auto)]

mod calls;
mod device;
mod laws;
mod progress;
mod recorder;
mod stop;

pub use calls::{
    PortFault, append, close, count_zones, finish, flush, read, read_extending, report, reset,
};
pub use device::{Device, Halt, Honest};
pub use laws::{
    closing_keeps_contents, closing_takes_no_resource, closings_join, read_strictly,
    restart_keeps_contents,
};
pub use recorder::Recorder;
pub use stop::StopAfter;
pub use zone_states::Geometry;
