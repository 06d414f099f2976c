//! The map from logical blocks to places on the drive.
//!
//! ```text
//! let mut map = Map::new(alloc, 9, 4, 8);     // 9 blocks, on 4 zones of 8 addresses
//! map.reserve_for(5)?;                        // room for the place of block 5
//! map.reserve_in(1, 1)?;                      // room to note one block more in zone 1
//! map.set(5, Place::At(12));                  // block 5 is at address 12, in zone 1
//! map.live(1);                                // 1: one block is in zone 1
//! map.first_record(1, 0);                     // block 5 and its place: the first of zone 1
//! map.grow(12);                               // 3 blocks more, none of which has a place
//! ```
//!
//! # What is promised
//!
//! * The map is a list of places. `set` changes that of one block and no other, answers between which zones the block
//!   was moved, and allocates nothing. `grow` adds blocks without a place.
//! * Its memory is made page by page, so a map of few written blocks is small. A block that was placed can be placed
//!   again without an allocation (`MapView` and `Reserves` in specs/Places).
//! * `live` tells how many blocks have their record in a zone. `first_record` gives the first of them from a block on,
//!   so all are found in ascending order, one by one (specs/Live).
//!
//! # What is not proved
//!
//! That these are found without a walk over the map, at a cost that does not grow with it, while room was made to note
//! them. It is tested.
//!
//! Tests: `places.rt` of `call_tests`.
#![tactic(auto)]

mod lists;
mod map;
mod pages;
mod place;
mod zone_words;

pub use map::{Map, Moved};
pub use place::Place;
