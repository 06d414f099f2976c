//! A drive in a file, served by the Network Block Device protocol.
//!
//! ```text
//! let done = do_nbd_job(&rt, alloc, &job, rt.reader(), io::writer(&rt));
//! if let Some(fault) = done.fault() {
//!     let text = explain(alloc, &job, fault)?;
//! }
//! ```
//!
//! An [`NbdJob`] says which file is served, and how. [`serve_drive`] serves it to one client, and [`serve_read_only`]
//! does so without any change of it. [`do_nbd_job`] does one or the other on the file of a path: it locks the file,
//! and saves the drive at the end if it is not only read.
//!
//! # What is promised
//!
//! * [`serve_drive`], over every reader, writer and store: the drive in the file is restarted and mounted, and each
//!   message of the client is answered by its disk, as `nbd_session` says. Whatever ends the session, the store holds
//!   the drive that is left, which can be mounted again and has each write that was answered (`specs/Serving.antt`).
//! * A FLUSH, or a write with FUA, is answered by success only after a sync of the medium that was handed in. Where
//!   that is a Flush of the drive, the drive is flushed before the first message, too, and what a loss of power leaves
//!   is found again (`laws::loss_is_found`).
//! * A turn of cleaning is taken after each request if the job says so.
//! * A disk that forgets ([`Forget`]) is served with a cache above it, and what was forgotten is told. When its client
//!   has said that it ends, all that is pending is applied and synced. Else the power is cut, at the greatest number of
//!   requests too: some of the pending blocks are applied, none, any or all, and the drive is synced. What is left can
//!   be mounted again. A block that was synced, and not written since, is in it (`laws::synced_is_left`).
//! * Where the medium is to fail ([`Fail`]), it may fail in a request: that is answered by `EIO`, and then nothing is
//!   done, pending or shown. Where it is not, each request is answered by the disk (`laws::fails_only_if_asked`).
//! * [`serve_read_only`], over every reader and writer: the same of a disk that is read only. No store is handed in,
//!   so nothing but the replies is written.
//! * If no number of blocks was given, the disk has the size that a header on the drive says, also if that is one
//!   block. A drive that says none is not served, and is told by whether it has any batch (`SaysNoSize`).
//! * Where the drive is not mounted, or the file holds none, no message is read and nothing is written. The fault says
//!   why. A drive that could be mounted still can be, with the same array.
//! * Which disk was served is told; what was counted only if the job asks for it (`TellsSession`). What is saved after
//!   a session is the drive that is left, also after a fault; replies that could not be sent are told as such
//!   ([`sent_end`]).
//!
//! # Over any device
//!
//! [`serve_any_stopping`] serves the drive behind any device. What is said above holds there while the drive is clean:
//! as long as each of its Reads returned what it holds. So do all replies before the first Read that lied. If the drive
//! is clean at the end, the session is one over an honest device (`laws::clean_is_right`). Whatever the Reads returned:
//!
//! * Each message has a reply in its form, or the session ends by a fault (`while_clean` of `nbd_session`). Where no
//!   session begins, the fault is one of the mount, or of the Flush before a session, and no message is read
//!   (`ServesNone`).
//! * The drive has the same shape, and the disk the size with which it began. Nothing is pending at the end. Each sync
//!   that was completed is one of the medium, and none is forgotten (`SessionLeaves`).
//! * Of a disk that forgets it is told how many blocks were pending. Where its end was done, it is also told how many
//!   of them are lost, as seed and odds choose (`LosesBy`).
//! * The shape of the drive is told, and what was counted only if the job asks for it (`TellsAnyway`).
//!
//! # What is not proved
//!
//! * [`do_nbd_job`]: no contract says what a file holds, or who has locked it. A served file is shared by its store
//!   and its medium; that its medium counts a sync only after the file's own is in no contract.
//! * That the changes are in the file before a reply is sent, and on the disk before a FLUSH is answered:
//!   `tools/nbd_clients` and `tools/kill_runs` try it.
//! * That the device keeps the habit and the stop of the job. A served drive that is to tear an Append may leave one
//!   block of it, however many were asked for ([`serve_stopping`]).
//! * The text of `--statistics`. In how many requests the medium fails, and that it fails in no sync.
//!
//! Tests: the rows of `nbd_rows`; `tools/nbd_clients`, with real clients.
#![tactic(auto)]

mod done;
mod explanation;
mod failing;
mod fault;
mod file;
mod forgetting;
mod job;
pub mod laws;
mod mounted;
mod saving;
mod serving;
mod told;

pub use done::{SessionDone, SessionTold};
pub use explanation::{explain, failed_note, forgotten_note};
pub use fault::NbdFault;
pub use file::{REPLIES, REQUESTS, are_sent, do_nbd_job};
pub use forgetting::{CACHE_BYTES, Forgotten};
pub use job::{Fail, Forget, NbdJob};
pub use saving::sent_end;
pub use serving::{
    AfterSession, Ended, Kept, ServedFile, serve_any_stopping, serve_drive, serve_read_only,
    serve_stopping,
};
