ghost use Rattle.std.specs.Prelude.{◌≡◌, ◌<◌, ◌≤◌, IfOk, length, slice_index, true};
ghost use Rattle.std.specs.List.{All, range_with_len, swap};
ghost use Rattle.live_index.specs.Least.{IsNamed};
ghost use Rattle.live_index.specs.Ordered.{AreInverse, FindsFirstNamed, IsFirstAbove, IsLowestNamed, IsOrdered};

use std::alloc::{AllocError, Global};

/// Zones in some order, each with its position. `LiveIndex` keeps them in order of their counts.
#[derive(Drop)]
pub struct Order {
    zones: Vec<u32>,
    /// The position of each zone.
    positions: Vec<u32>,
}

impl Order {
    /// In order of their numbers.
    pub fn new(alloc: Global, zones: u32) -> Result<Order, AllocError>
        ensures zones { IfOk result (λ order. order.zones.items ≡ range_with_len 0 zones) }
        ensures positions { IfOk result (λ order. order.positions.items ≡ range_with_len 0 zones) }
    {
        Ok(Order {
            zones: numbers(alloc, zones)?,
            positions: numbers(alloc, zones)?,
        })
    }

    /// The zone at a position.
    pub fn zone(&self, position: usize) -> u32
        requires { position < length self.now.zones.items }
        ensures { result ≡ slice_index self.now.zones.items position }
    {
        self.zones[position]
    }

    /// The position of a zone.
    pub fn position(&self, zone: u32) -> usize
        requires { zone < length self.now.positions.items }
        ensures { result ≡ slice_index self.now.positions.items zone }
    {
        self.positions[zone as usize] as usize
    }

    /// Puts a zone at a position, and the zone that stood there in its place. Mostly that is the same zone.
    pub fn put(&mut self, zone: u32, position: usize)
        requires inverse { AreInverse self.old.zones.items self.old.positions.items }
        requires zone { zone < length self.old.positions.items }
        requires position { position < length self.old.zones.items }
        ensures zones { self.new.zones.items
            ≡ swap self.old.zones.items (slice_index self.old.positions.items zone) position }
        ensures positions { self.new.positions.items
            ≡ swap self.old.positions.items zone (slice_index self.old.zones.items position) }
    {
        let other = self.zones[position];
        if other == zone {
            return;
        }
        let from = self.positions[zone as usize];
        self.zones.swap(from as usize, position);
        self.positions.swap(zone as usize, other as usize);
    }

    /// The first position whose zone has more live records than `count`, found by bisection.
    pub fn first_above(&self, counts: &[u32], count: u32) -> usize
        requires { IsOrdered counts.now self.now.zones.items }
        ensures { IsFirstAbove counts.now self.now.zones.items count result }
    {
        let mut low = 0;
        let mut high = self.zones.len();
        while low < high {
            let middle = low + (high - low) / 2;
            if counts[self.zones[middle] as usize] <= count {
                low = middle + 1;
            } else {
                high = middle;
            }
        }
        low
    }

    /// Whether a position is the first whose zone has more live records than `count`.
    fn is_first_above(&self, counts: &[u32], count: u32, position: usize) -> bool
        requires ordered { IsOrdered counts.now self.now.zones.items }
        requires within { position ≤ length self.now.zones.items }
        ensures { result ≡ true → IsFirstAbove counts.now self.now.zones.items count position }
    {
        if position > 0 && counts[self.zones[position - 1] as usize] > count {
            return false;
        }
        position == self.zones.len() || counts[self.zones[position] as usize] > count
    }

    /// The first position whose zone has more live records than `count`: the one that is given, where it is that,
    /// or found by bisection.
    pub fn first_above_near(&self, counts: &[u32], count: u32, position: usize) -> usize
        requires ordered { IsOrdered counts.now self.now.zones.items }
        requires within { position ≤ length self.now.zones.items }
        ensures { IsFirstAbove counts.now self.now.zones.items count result }
    {
        if self.is_first_above(counts, count, position) {
            return position;
        }
        self.first_above(counts, count)
    }

    /// The first position whose zone is named.
    pub fn first_named(&self, among: &[bool]) -> Option<usize>
        requires { All (λ zone. zone < length among.now) self.now.zones.items }
        ensures { FindsFirstNamed self.now.zones.items among.now result }
    {
        for position in 0..self.zones.len() {
            if among[self.zones[position] as usize] {
                return Some(position);
            }
        }
        None
    }

    /// Of the named zones from `first` to before `end`, the position of the one with the lowest number. That
    /// at `first` is named.
    pub fn lowest_named(&self, among: &[bool], first: usize, end: usize) -> usize
        requires zones { All (λ zone. zone < length among.now) self.now.zones.items }
        requires first { first < end }
        requires end { end ≤ length self.now.zones.items }
        requires is_named { IsNamed among.now (slice_index self.now.zones.items first) }
        ensures { IsLowestNamed self.now.zones.items among.now first end result }
    {
        let mut lowest = first;
        for position in first + 1..end {
            if among[self.zones[position] as usize] && self.zones[position] < self.zones[lowest] {
                lowest = position;
            }
        }
        lowest
    }
}

/// The numbers below `count`.
fn numbers(alloc: Global, count: u32) -> Result<Vec<u32>, AllocError>
    ensures { IfOk result (λ numbers. numbers.items ≡ range_with_len 0 count) }
{
    (0..count).collect(alloc)
}
