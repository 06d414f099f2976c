//! The bytes of one file of a fixed length: what a read returns, and what a loss of power may leave.
//!
//! # Example
//!
//! ```text
//! let mut file = MemoryFile::new(alloc, 4)?;
//! file.write(0, b"ab")?;
//! file.sync()?;
//! file.write(1, b"cd")?;
//! assert_eq!(rt; file.bytes(), b"acd\0".as_slice());
//! assert!(rt; file.lose_power(b"axd\0")?);
//! ```
//!
//! # What is promised
//!
//! * A `FileBytes` is strict: what a read returns is what the file holds. A read changes neither that, nor what a loss
//!   of power may leave.
//! * After a loss of power each range that was written since the last sync may hold any bytes. So a write may be lost,
//!   torn, or kept while an earlier one is lost. The other bytes are those of that sync.
//! * The room of a range can be given back (`release`). Then the range may hold any bytes, as if it were being
//!   written.
//! * A process that is killed leaves what a read would return. So a kill inside a call is a call that failed.
//! * Until a sync fails, whoever opens the file later reads what a read returns (`may_show`). After that it may read
//!   all that a loss of power may leave: the system may have dropped what was written. No sync may be called again. A
//!   word can still be written, and whoever opens the file later reads it.
//! * `MemoryFile` may leave and show all that this allows. It takes each of these outcomes by `lose_power` and
//!   `open_again`.
//! * `ReadAheadFile` reads ahead in another file. To a reader it is that file: it never returns bytes that have
//!   changed since.
//! * `ReadOnlyFile` never changes another file. It keeps in memory what is written to it, and shows the other file
//!   with that.
//! * `StoppingFile` does a number of changes of another file, and fails from then on. Only the write at which it stops
//!   may be torn.
//!
//! # What is not proved
//!
//! * That a `ReadAheadFile` makes few calls of the file within. A test counts them.
//! * That a file of the system keeps this contract: `ports/linux` says what it rests on.
//!
//! Tests: in `call_tests`.
#![tactic(auto)]

mod file;
mod kept;
mod memory;
mod read_ahead;
mod read_only;
mod run;
mod stopping;

pub use file::FileBytes;
pub use memory::MemoryFile;
pub use read_ahead::ReadAheadFile;
pub use read_only::ReadOnlyFile;
pub use stopping::StoppingFile;
