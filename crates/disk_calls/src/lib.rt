//! A disk for a host that asks for one call after another.
//!
//! ```text
//! let (disk, flushed) = serve_calls(alloc, disk, read_only, &mut host); // until the host asks for no more
//! ```
//!
//! The control is turned round: the host does not call the disk, but is asked for its next call ([`Host::next`]). So
//! the disk stays one value from its mount to its end, and no pointer to it crosses to the code of a host. So it is
//! made for a library that other languages call. No program here uses it yet.
//!
//! # What is promised
//!
//! Over every host and every device, while the drive is clean, as long as each of its Reads returned what the drive
//! holds; and of a host that has not lost count of what was said (`specs/Serves.antt`, `Talk` in `specs/Talk.antt`):
//!
//! * Each call is answered by one call of the disk, in the order in which they were asked, or is refused beforehand and
//!   nothing is done (`Serves`, `Obeys`). A read or a write of more than 32 MiB is refused. So is what would change a
//!   disk that may only be read.
//! * The host is shown the bytes of a read, and only if it is done. What is written are the bytes that the host gave.
//! * Once a write or zeros are done, their blocks have data; once a trim is done, its blocks have none. A growth that is
//!   done is written to the drive. A turn of cleaning is taken.
//! * The host that asks to look is shown the disk as it is, once, and no other call shows it.
//! * Extents tell exactly what the newest record of each block says (`TellsExtents`): with data it has a place on the
//!   drive, and without them it is zeros (`laws::holes_are_zeros`). They are next to each other, and tell all blocks
//!   that were asked for, unless the host wants no more. Then it is told no more.
//! * No call is dropped. The calls end when the host asks for no more, or after 2^64 - 1 of them. Then the disk is
//!   flushed, unless it may only be read.
//!
//! Whatever the Reads returned, the shape of the drive stays.
//!
//! # What is not proved
//!
//! * What a host makes of what it is told.
//! * How many commands a call sends.
//! * Anything of a host that lost count of what was said, but that the shape of the drive stays.
//! * That two extents in a row differ.
#![tactic(auto)]

mod call;
mod extents;
mod host;
pub mod laws;
mod serving;

pub use call::{Asked, CallFault, Extent, MOST_BYTES};
pub use host::Host;
pub use serving::serve_calls;
