//! A volatile write cache above a store, as disks have one: what was written and not synced may be lost.
//!
//! A [`VolatileCache`] is a [`Store`](nbd_session::Store) over any other. It is there to try what stands above a disk:
//! file systems and databases have to come through each loss that it makes.
//!
//! ```text
//! let mut store = VolatileCache::new(alloc, store, 64 << 20);
//! let result = nbd_session::serve(alloc, &mut input, &mut output, &mut store);
//! let lost = store.cut(seed, 50)?;
//! ```
//!
//! # What is promised
//!
//! Of every store below, also one whose medium may fail. What a call does is promised while the drive of that store is
//! clean; whatever its Reads returned, which blocks are kept, how many, in which order, and what a cut counts as lost
//! (`CutsAnyway`). [`VolatileCache::cut`] is for a store over an honest device.
//!
//! * A cache is a store, and answers as a flat array. A block that is pending is shown from the cache. The others are
//!   read below, neighbours in one call.
//! * Writes, trims and zeros are kept in order, block by block, and at most as many bytes of blocks as `new` was given
//!   (`bounded` of `new` and `pending`). The oldest go below when it is full, and only as many as it takes. What has no
//!   room goes below whole, after all others. A trim that was kept goes below as a trim, and zeros as zeros.
//! * A sync writes all that is pending to the store below, in order, and syncs it. A write with FUA does so with its
//!   own blocks alone. If the store below refuses one of them, or fails, that block stays pending.
//! * A cut leaves one of the arrays on which some of the pending blocks are written, in order: none, any or all of
//!   them, and also a part of a write. The seed and the odds choose which blocks are lost. Then that array is durable,
//!   and nothing is pending. It tells how many blocks of how many were lost (`Cuts`). If it fails, the disk below is as
//!   the fault says (`FailsCut`).
//! * What was synced, or written with FUA, and is not written again is in each outcome (`laws::synced_is_kept`).
//! * Each outcome, and that of a kill, is one that the cache says may be left (`laws::cut_is_foreseen`). Each block of
//!   it is one that was there or was written there (`laws::nothing_is_made_up`).
//!
//! # What is not proved
//!
//! * That a cut fails only where the store below did: a body that says so while the disk serves would be proved.
//! * That a write is kept where it has room: a body that sends each block below at once would be proved. The trait's
//!   contract does not say what is kept. So clauses of private functions say which blocks go below, and which stay.
//! * That a call gives up for memory only if an allocation failed.
//!
//! Tests: the rows of `nbd_rows`; `tools/crash_sweep`, with real workloads.
#![tactic(auto)]

mod as_store;
mod cache;
mod cut;
mod kept;
pub mod laws;
mod queue;
mod reading;

pub use cache::VolatileCache;
pub use cut::Lost;
pub use kept::{Content, Kept};
