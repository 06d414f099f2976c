//! The write amplification of random writes, by bisection.
//!
//! Each zone takes `capacity` blocks. Of these some are moved into it first, and some are data of
//! the host. So the write amplification is 1 / `host`. It is known once `moved` is: in the long
//! run as much is moved into a zone as is live in the victim, and `live_share` says how much that
//! is.
//!
//! Left out are three things. Batches are cut at the end of a zone. A zone with one free block is
//! finished. And of zones with few batches some have fewer live records by chance, which helps the
//! cleaner. So the estimate fits large zones.

ghost use Rattle.std.specs.Prelude.{◌≤◌};
ghost use Rattle.drive_array.specs.Reserve.{FitsReserve};
ghost use Rattle.zone_states.specs.Geometry.{IsInRange};

use drive_array::batch_most;
use std::num::{saturating_f64_to_u32, saturating_f64_to_u64};
use zone_states::Geometry;

/// How many blocks at random places are written together, for which a row has an estimate.
pub const WRITES: [u32; 4] = [1, 4, 16, 64];

/// What random writes of so many blocks are expected to cost, long after the drive was filled.
#[derive(Clone, Copy, Debug, PartialEq, Eq)]
pub struct Estimate {
    /// Blocks that are appended for each block of the host, in hundredths.
    pub amplification: u32,
    /// Reads that a mount sends for the headers on the drive.
    pub reads: u64,
}

/// What a zone holds when it is full, as shares of its blocks.
#[derive(Clone, Copy)]
struct Filling {
    /// Blocks that were moved into it.
    moved: f64,
    /// Data blocks of the host.
    host: f64,
}

/// How often the interval is halved: its length is below 2^-60 then.
const HALVINGS: u32 = 60;

/// Of the blocks that the host's batches take, the share that is data. Each batch has at most
/// `batch_most` data blocks and a header.
fn data_share(batch_most: u32, write: u32) -> f64
    requires { 1 ≤ batch_most }
{
    let data = f64::from(write);
    let headers = f64::from(write.div_ceil(batch_most));
    data / (data + headers)
}

/// What a zone holds, if that share of its blocks is moved into it first. The Moves also have
/// headers, and the host fills the rest.
fn zone_with(moved: f64, batch_most: u32, data_share: f64) -> Filling {
    let headers = moved / f64::from(batch_most);
    Filling {
        moved,
        host: (1.0 - moved - headers) * data_share,
    }
}

/// The share of a zone's blocks that are live when it is cleaned.
///
/// A full zone shows what was moved into it, and what the host wrote. Zones are cleaned nearly in
/// the order in which they were filled, since under random writes the oldest has the fewest live
/// records. Until its turn comes the other zones take `host / rho` writes for each logical block:
/// `rho` is the number of logical blocks for each block of all zones but the spare one. Writes
/// fall on all blocks alike. So the share e^(-host / rho) of the data is not written again.
fn live_share(filling: Filling, rho: f64) -> f64 {
    (filling.moved + filling.host) * (-filling.host / rho).exp()
}

/// What the zones of a drive hold in the long run: as much is moved into each as is live when it
/// is cleaned. At 0 too little is moved, and near `most / (most + 1)` too much, since the reserve
/// keeps `rho` below that.
fn settled(batch_most: u32, data_share: f64, rho: f64) -> Filling {
    let most = f64::from(batch_most);
    let mut low = 0.0;
    let mut high = most / (most + 1.0);
    for _ in 0..HALVINGS {
        let middle = (low + high) / 2.0;
        if live_share(zone_with(middle, batch_most, data_share), rho) > middle {
            low = middle;
        } else {
            high = middle;
        }
    }
    zone_with(low, batch_most, data_share)
}

/// The estimate for random writes to a drive with that many logical blocks. `write` blocks are written together: by one
/// write, or by writes of single blocks that are one batch.
pub fn expected(geometry: &Geometry, blocks: u64, write: u32) -> Estimate
    requires in_range { IsInRange geometry.now }
    requires fits { FitsReserve geometry.now blocks }
{
    let batch_most = batch_most(geometry);
    let room = f64::from(geometry.zones - 1) * f64::from(geometry.capacity);
    let data_share = data_share(batch_most, write);
    let full = settled(batch_most, data_share, f64::from(blocks as u32) / room);
    Estimate {
        amplification: saturating_f64_to_u32(100.0 / full.host + 0.5),
        reads: saturating_f64_to_u64(room * (1.0 - full.moved - full.host) + 0.5),
    }
}
