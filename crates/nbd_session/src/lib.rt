//! A disk that is served by the Network Block Device protocol: the fixed newstyle handshake, and simple replies.
//!
//! [`serve`] answers each message of one client, in order, until the client ends. What it serves is any [`Store`]; a
//! [`ServedDisk`] is one, a disk and the medium that keeps its drive. A [`FailingStore`] is another store, whose medium
//! fails by chance.
//!
//! ```text
//! let mut store = ServedDisk::new(disk, medium, ServeOptions::PLAIN);
//! let result = nbd_session::serve(alloc, &mut input, &mut output, &mut store);
//! let (disk, medium) = store.into_parts();
//! ```
//!
//! # What is promised
//!
//! Of every reader, every writer and every store over a device that is always clean ([`HonestStore`]):
//!
//! * What is read is a list of messages, and what is written are the replies to them, in order, starting with the
//!   greeting (`Served`, `AnswersEach`). The bytes are promised where reader and writer say by contract which bytes
//!   they have left and hold.
//! * A request is done by one call of the disk, as a flat array does it, and then answered: by its error if it was
//!   refused, with the blocks of a READ only if it was done. Or it is refused beforehand, and nothing is done: if it
//!   is not aligned or past the end.
//! * Requests that have come together may be done by one call: WRITEs and TRIMs that name no block twice, are
//!   permitted, within the disk, and not to be durable (`ServesGroup`, `IsGroup`). Each is answered by its result, in
//!   their order. Done, they leave what their blocks leave one by one (`laws::group_is_its_writes`).
//! * A refused call has its cause in the drive. After the drive has stopped each request that needs it is answered by
//!   `ESHUTDOWN`. Where the drive failed at one command only what needed it is answered by `EIO`. The session
//!   continues.
//! * A TRIM leaves records without data, and so does a WRITE_ZEROES that may leave a hole. One that may not, and a
//!   WRITE, leave records with data. Each takes the commands of so many batches at most, as a disk does (`costs`): more
//!   once a command of the drive failed.
//! * A FLUSH, and a write with FUA, is answered by success only after a completed sync: of the whole array, or of the
//!   blocks that the write named. After a FLUSH a loss of power leaves the array as it is. After such a write it
//!   leaves the blocks that were named, and of a [`ServedDisk`] the whole array (`laws::forced_is_durable`).
//! * A sync that is done raises the store's count of syncs, and nothing else does. Of a `ServedDisk` this is the count
//!   of its medium: a sync of a served disk syncs its medium.
//! * Each other call adds only arrays that a loss of power could leave before, with a part of the call (`since` of
//!   `Calls`). Of a `ServedDisk` it adds at most the arrays of its moments, and nothing is pending above it. What is
//!   pending above another store was written by a call (`laws::session_keeps_mode`). Each such block pays for the
//!   commands of one batch (`due` of `Writes`).
//! * With the medium [`DriveFlush`] a sync is a Flush of the drive, and a loss of power leaves the array of the last
//!   one: what it leaves can be mounted, and the mount finds it, however the session ends (`laws::loss_is_found`). Any
//!   other medium's word stands for it.
//! * After each request a store that cleans ([`ServeOptions::cleans`]) takes one turn of cleaning, and after a group
//!   one for each of its requests. That changes no block, and adds no array that a loss of power may leave. Any other
//!   store does nothing then.
//! * Where the medium fails the request is answered by `EIO`, too. Nothing is done then, and nothing shown, unless the
//!   request was to be durable: then its sync may have failed (`laws::failed_is_undone`). The medium of a
//!   [`ServedDisk`] fails only in a sync. [`FailingStore`] is a store whose medium fails by chance, for tests.
//! * The client is told whether a store is read only ([`ServeOptions::read_only`]). If so, a WRITE, a TRIM and a
//!   WRITE_ZEROES are refused by `EPERM`, no other request is refused for it, and no turn is taken. The array stays as
//!   it is, whatever the client sends (`laws::read_only_keeps_array`).
//! * [`serve_at_most`] ends after so many requests, and does not read the next one. It answers each by itself, if a
//!   number is given, and tells how a session ended.
//! * `Ok` only if the client has said that it ends, or the input ended between two messages. After a fault all
//!   messages before are answered. Of the next one nothing is done, unless only its reply was cut.
//! * The faults: `Input`, fewer bytes than a message has were read; `Magic`, a head with which no message begins;
//!   `Unsent`, all messages are answered, and the last reply was not passed on; `Output`, the message is done, and a
//!   beginning of its reply is written; `TooMany`, 2^64 - 1 messages were answered.
//! * Whatever comes, the drive has the same geometry, can be mounted again if it could before, and refused no command.
//!
//! # Over any device
//!
//! [`serve_any`] and [`serve_any_at_most`] serve a [`Store`] over any device. What a request, a group or a rest does is
//! promised there while the drive is clean, as long as each of its Reads returned what it holds (`while_clean`): so are
//! all replies before the first Read that lied. If the drive is clean at the end, the session is one of an honest store
//! (`laws::clean_is_right`). Whatever the Reads returned:
//!
//! * What is read is a list of messages, and what is written are the replies to them, in order, or the session ends by
//!   a fault. A reply has the cookie of its request. Bytes follow only where a READ is done: as many as its blocks have
//!   (`RepliesAnyway`).
//! * What is refused beforehand stays so: a request that is not aligned, and a change of a store that is read only.
//!   Requests are done together by the same rules (`IsGroup`), and each is answered by the result of all.
//! * What had to be durable is told as done only after a completed sync. No other call is counted as one, and no count
//!   is forgotten.
//! * The disk has the same shape and size. The store is read only, cleans, flushes, defers and fails as before, and
//!   nothing is pending that is not deferred (`Stays`). A store that takes no turn does nothing between requests.
//!
//! # What is not proved
//!
//! * That `Input` and `Output` come only if the reader or the writer failed, or `ENOMEM` only if an allocation failed.
//! * What a medium keeps. With one that keeps each command, what a loss of power leaves says nothing of the medium.
//! * In how many calls a [`FailingStore`] fails, that it counts them, and that it can spare syncs: `call_tests`.
//! * That requests that have come together are found to be a group: one that takes each by itself would be proved.
//! * That replies are passed on before the next message is read: std's `Write` says nothing of a flush, so a session
//!   that never flushes would be proved.
//! * The rows of `nbd_rows` show the bytes of each command, option and error except `ENOMEM`, and sessions that are
//!   cut.
//!
//! Tests: the rows of `nbd_rows`; `tools/nbd_clients`, with real clients.
#![tactic(auto)]

mod asked;
mod client;
mod ending;
mod failing;
mod fault;
mod group;
pub mod laws;
mod medium;
mod option_answer;
mod options;
mod output;
mod phase;
mod reading;
mod requests;
mod served_disk;
mod serving;
mod store;
mod together;

pub use asked::{Asked, MOST_BYTES};
pub use client::Client;
pub use ending::SessionEnd;
pub use failing::FailingStore;
pub use fault::{MediumFault, SessionFault, StoreFault};
pub use medium::{DriveFlush, Medium, SyncCount, WriteThrough};
pub use option_answer::OptionAnswer;
pub use phase::Phase;
pub use served_disk::{ServeOptions, ServedDisk};
pub use serving::{serve, serve_any, serve_any_at_most, serve_at_most};
pub use store::{HonestStore, Store, is_known};
