ghost use Rattle.std.specs.Prelude.{◌≡◌, ◌<◌, ◌+◌, ◌-◌, ◌^◌, IfOk, length, replicate, slice_index, slice_set};
ghost use Rattle.live_index.specs.Least.{FindsLeast};

use crate::order::Order;
use std::alloc::{AllocError, Global};
use std::marker::Model;

/// How many live records each zone has.
#[derive(Drop)]
pub struct LiveIndex {
    counts: Vec<u32>,
    /// The zones in order of their counts.
    order: Order,
}

impl Model for LiveIndex {
    ghost use Rattle.std.specs.Prelude.{List, ℕ};
    ghost use Rattle.live_index.specs.Ordered.{AreInverse, IsOrdered};

    ghost Value = { List ℕ };

    ghost view = { λ i. i.counts.items };

    ghost invariant = { λ i. IsOrdered i.counts.items i.order.zones.items
        × AreInverse i.order.zones.items i.order.positions.items };
}

impl LiveIndex {
    /// `zones` zones, none of which has a live record.
    pub fn new(alloc: Global, zones: u32) -> Result<LiveIndex, AllocError>
        ensures { IfOk result (λ index. index ≡ replicate zones 0) }
    {
        Ok(LiveIndex {
            counts: vec![in alloc; 0; zones as usize]?,
            order: Order::new(alloc, zones)?,
        })
    }

    /// How many live records a zone has.
    pub fn count(&self, zone: u32) -> u32
        requires { zone < length self.now }
        ensures { result ≡ slice_index self.now zone }
    {
        self.counts[zone as usize]
    }

    /// One live record more in a zone, which has fewer than 2^31.
    pub fn add(&mut self, zone: u32)
        requires in_range { zone < length self.old }
        requires below { slice_index self.old zone < 2 ^ 31 }
        ensures { self.new ≡ slice_set self.old zone (slice_index self.old zone + 1) }
    {
        let count = self.counts[zone as usize];
        let after = self.order.position(zone) + 1;
        let last = self.order.first_above_near(&self.counts, count, after) - 1;
        self.order.put(zone, last);
        self.counts[zone as usize] += 1;
    }

    /// One live record less in a zone, which has one.
    pub fn remove(&mut self, zone: u32)
        requires in_range { zone < length self.old }
        requires above { 0 < slice_index self.old zone }
        ensures { self.new ≡ slice_set self.old zone (slice_index self.old zone - 1) }
    {
        let count = self.counts[zone as usize];
        let here = self.order.position(zone);
        let first = self.order.first_above_near(&self.counts, count - 1, here);
        self.order.put(zone, first);
        self.counts[zone as usize] -= 1;
    }

    /// Of the zones that are named, the one with the fewest live records, the lowest of equals. None where
    /// no zone is named.
    pub fn least(&self, among: &[bool]) -> Option<u32>
        requires { length among.now ≡ length self.now }
        ensures { FindsLeast self.now among.now (length among.now) result }
    {
        let Some(first) = self.order.first_named(among) else {
            return None;
        };
        let count = self.counts[self.order.zone(first) as usize];
        let end = self.order.first_above(&self.counts, count);
        Some(self.order.zone(self.order.lowest_named(among, first, end)))
    }
}
