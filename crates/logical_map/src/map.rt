ghost use Rattle.std.specs.Prelude.{◌≡◌, ◌≢◌, ◌<◌, ◌≤◌, ◌+◌, ◌/◌, ◌^◌, length, map, slice_get, slice_index};
ghost use Rattle.std.specs.Prelude.{slice_index_or, slice_set, replicate, false, IfSome, OnOk, OnErr};
ghost use Rattle.logical_map.specs.Counts.{lowered, raised};
ghost use Rattle.logical_map.specs.Lists.{FindsBlock, FindsThere, NoneLies};
ghost use Rattle.logical_map.specs.Live.{blocks_in_zone, first_record, lies_in, live, zone_below, zone_in, zone_of};
ghost use Rattle.logical_map.specs.Pages.{page_of, place_in, place_of};
ghost use Rattle.logical_map.specs.Places.{ArePlacedReady, MapGrows, IsReady, Reserves, place_address};
ghost use Rattle.logical_map.specs.declared.place.Place.TheVariants as places;

use crate::lists::{ZoneList, is_whole, left_zone, make_lists, note, shorten};
use crate::pages::{PAGE, Pages, change, has_page, make_page, place_at, word_at, zone_of};
use crate::place::Place;
use crate::zone_words::ZoneWords;
use std::alloc::{AllocError, Global};
use std::marker::Model;

/// The zones of the drive that a block was moved between. None where its place was, or is, in no zone.
#[derive(Clone, Copy, Debug, PartialEq, Eq)]
pub struct Moved {
    /// The zone that it lay in.
    pub from: Option<u32>,
    /// The zone that it is in.
    pub to: Option<u32>,
}

/// The zone, if a drive with that many zones has it.
fn zone_below(zones: u32, zone: Option<u64>) -> Option<u32>
    ensures { result ≡ zone_below zones zone }
{
    let zone = zone?;
    if zone < zones as u64 {
        return Some(zone as u32);
    }
    None
}

/// Where each of a number of logical blocks is, on a drive of `zones` zones with `zone_size` addresses
/// each. The places are in pages, 8 bytes each; a page is made when it is wanted, and one that is missing
/// holds no place. How many blocks are in each zone is kept as well, and a list of them, 4 bytes for
/// each block that was moved there; blocks that were moved away are dropped from a long list.
#[derive(Drop)]
pub struct Map {
    /// How many blocks there are.
    count: u32,
    zones: u32,
    zone_size: u32,
    alloc: Global,
    pages: Pages,
    /// How many blocks are in each zone; none before the first page is made.
    counts: Vec<u32>,
    /// The blocks of each zone that room was made in.
    lists: Vec<ZoneList>,
}

impl Model for Map {
    ghost use Rattle.logical_map.specs.Places.{MapView};
    ghost use Rattle.logical_map.specs.Pages.{page_of, ready, paged_places};
    ghost use Rattle.logical_map.specs.Counts.{IsKept};
    ghost use Rattle.logical_map.specs.Lists.{AreListed};

    ghost Value = { MapView };

    ghost view = { λ m. record {
      places = paged_places (page_of m.pages.items) m.count;
      ready = ready (page_of m.pages.items) m.count;
      zones = m.zones;
      zone_size = m.zone_size;
    } };

    ghost invariant = { λ m. IsKept (page_of m.pages.items) m.count m.zones m.zone_size
        m.counts.items × AreListed (page_of m.pages.items) m.zone_size m.lists.items };
}

impl Map {
    /// A map of `count` blocks, none of which has a place yet, on a drive of `zones` zones with
    /// `zone_size` addresses each. It allocates nothing.
    pub fn new(alloc: Global, count: u32, zones: u32, zone_size: u32) -> Map
        ensures places { result.places ≡ replicate count places.None }
        ensures zones { result.zones ≡ zones }
        ensures zone_size { result.zone_size ≡ zone_size }
    {
        Map {
            count,
            zones,
            zone_size,
            alloc,
            pages: Vec::new(alloc),
            counts: Vec::new(alloc),
            lists: Vec::new(alloc),
        }
    }

    /// How many blocks there are.
    pub fn len(&self) -> u32
        ensures { result ≡ length self.now.places }
    {
        self.count
    }

    /// How many zones the drive has.
    pub fn zones(&self) -> u32
        ensures { result ≡ self.now.zones }
    {
        self.zones
    }

    /// Makes it a map of more blocks, none of which has a place. It allocates nothing, and blocks that room
    /// was made for need no more.
    pub fn grow(&mut self, count: u32)
        requires { length self.old.places ≤ count }
        ensures { MapGrows self.old count self.new }
    {
        self.count = count;
    }

    /// Where a block is. A block that has a place is ready to be placed again.
    pub fn get(&self, block: u32) -> Place
        requires { block < length self.now.places }
        ensures place { result ≡ slice_index_or self.now.places block places.None }
        ensures ready { result ≢ Place.None → IsReady self.now block }
    {
        place_at(&self.pages, block)
    }

    /// Makes room for a block's place, so that `set` allocates nothing. Where an allocation fails, the map
    /// is unchanged.
    pub fn reserve_for(&mut self, block: u32) -> Result<(), AllocError>
        requires { block < length self.old.places }
        ensures ok { OnOk result (Reserves self.old block self.new) }
        ensures err { OnErr result (self.new ≡ self.old) }
    {
        let page = block / PAGE;
        if has_page(&self.pages, page) {
            return Ok(());
        }
        self.counts.resize(self.zones as usize, 0)?;
        make_page(self.alloc, &mut self.pages, page)?;
        Ok(())
    }

    /// Makes room to note `count` blocks more in a zone, so that `first_record` finds the blocks that are moved
    /// there without a walk over the map. A zone past the end of the drive needs none. Blocks that have a place
    /// are ready to be placed again.
    pub fn reserve_in(&mut self, zone: u32, count: u32) -> Result<(), AllocError>
        ensures kept { self.new ≡ self.old }
        ensures ready { ArePlacedReady self.old }
    {
        if zone >= self.zones {
            return Ok(());
        }
        let empty = self.live(zone) == 0;
        make_lists(self.alloc, &mut self.lists, zone as usize + 1)?;
        self.lists[zone as usize].make_room(empty, count)
    }

    /// Sets the place of a block that room was made for, and answers the zones that it was moved between. It
    /// allocates nothing.
    pub fn set(&mut self, block: u32, place: Place) -> Moved
        requires in_range { block < length self.old.places }
        requires ready { IsReady self.old block }
        requires fits { place_address place + 1 < 2 ^ 63 }
        ensures set { self.new ≡
            record self.old { places = slice_set self.old.places block place } }
        ensures from { result.from
            ≡ zone_in self.old (slice_index_or self.old.places block places.None) }
        ensures to { result.to ≡ zone_in self.old place }
    {
        let Some(old) = change(&mut self.pages, block, place) else {
            unreachable!();
        };
        let was = zone_of(self.zone_size, old);
        let zone = zone_of(self.zone_size, place);
        lower(&mut self.counts, was);
        raise(&mut self.counts, zone);
        note(&mut self.lists, was, zone, block);
        shorten(
            &mut self.lists,
            &self.pages,
            &self.counts,
            self.zone_size,
            left_zone(was, zone),
        );
        Moved {
            from: zone_below(self.zones, was),
            to: zone_below(self.zones, zone),
        }
    }

    /// How many blocks are in a zone of the drive.
    pub fn live(&self, zone: u32) -> u32
        ensures { zone < self.now.zones → result ≡ live self.now zone }
    {
        let index = zone as usize;
        if index >= self.counts.len() {
            return 0;
        }
        self.counts[index]
    }

    /// Whether a place is in a zone.
    pub fn is_in(&self, place: Place, zone: u32) -> bool
        ensures { result ≡ lies_in self.now.zone_size zone place }
    {
        zone_of(self.zone_size, place) == Some(zone as u64)
    }

    /// The first of the blocks from `from` on that are in a zone, with its place. What it costs depends on
    /// the blocks that were moved into the zone since none lay there, if room was made for all of them; else
    /// it walks over the blocks of the map.
    pub fn first_record(&mut self, zone: u32, from: u32) -> Option<(u32, Place)>
        requires { zone < self.old.zones }
        ensures first { result ≡ first_record self.old zone from }
        ensures kept { self.new ≡ self.old }
    {
        let block = self.first_in(zone, from)?;
        Some((block, place_at(&self.pages, block)))
    }

    /// The first of the blocks from `from` on that are in a zone.
    fn first_in(&mut self, zone: u32, from: u32) -> Option<u32>
        requires { zone < self.old.zones }
        ensures first { result ≡ slice_get (blocks_in_zone self.old zone from) 0 }
        ensures kept { self.new ≡ self.old }
    {
        if self.live(zone) == 0 {
            return None;
        }
        let words = ZoneWords::of(self.zone_size, zone as u64);
        if !is_whole(&self.lists, zone as usize) {
            return first_placed(&self.pages, &words, from, self.count);
        }
        let index = zone as usize;
        let first = self.lists[index].position_from(from);
        let blocks = self.lists[index].blocks();
        let position = first_listed(&self.pages, &words, blocks, first)?;
        Some(blocks[position])
    }
}

/// How many blocks of a list are looked at together.
const RUN: usize = 32;

/// Whether any of the blocks from one position to before another is in the zone of these words. It looks at all their
/// places, whatever it finds, so that the processor fetches them together.
fn any_there(pages: &Pages, words: &ZoneWords, blocks: &[u32], first: usize, end: usize) -> bool
    requires { end ≤ length blocks.now }
    ensures { result ≡ false → NoneLies
        (page_of pages.now.items) words.now.zone_size words.now.zone blocks.now first end }
{
    let mut any = false;
    for position in first..end {
        any |= words.hold(word_at(pages, blocks[position]));
    }
    any
}

/// The position of the first of some blocks, from a position on, that is in the zone of these words. Where a run
/// begins, it is passed over if none of its blocks is there.
fn first_listed(pages: &Pages, words: &ZoneWords, blocks: &[u32], first: usize) -> Option<usize>
    ensures { FindsThere
        (page_of pages.now.items) words.now.zone_size words.now.zone blocks.now first result }
{
    let mut position = first;
    while position < blocks.len() {
        let end = position.saturating_add(RUN).min(blocks.len());
        if position % RUN == 0 && !any_there(pages, words, blocks, position, end) {
            position = end;
        } else if words.hold(word_at(pages, blocks[position])) {
            return Some(position);
        } else {
            position += 1;
        }
    }
    None
}

/// The first block from `from` to before `count` that is in the zone of these words.
fn first_placed(pages: &Pages, words: &ZoneWords, from: u32, count: u32) -> Option<u32>
    ensures { FindsBlock
        (page_of pages.now.items) words.now.zone_size words.now.zone from count result }
{
    for block in from..count {
        if words.hold(word_at(pages, block)) {
            return Some(block);
        }
    }
    None
}

/// One block less in a zone.
fn lower(counts: &mut Vec<u32>, zone: Option<u64>)
    ensures { counts.new.items ≡ lowered zone counts.old.items }
{
    let Some(zone) = zone else {
        return;
    };
    if zone >= counts.len() as u64 {
        return;
    }
    counts[zone as usize] = counts[zone as usize].saturating_sub(1);
}

/// One block more in a zone.
fn raise(counts: &mut Vec<u32>, zone: Option<u64>)
    requires { IfSome zone (λ zone. slice_index counts.old.items zone + 1 < 2 ^ 32) }
    ensures { counts.new.items ≡ raised zone counts.old.items }
{
    let Some(zone) = zone else {
        return;
    };
    if zone >= counts.len() as u64 {
        return;
    }
    counts[zone as usize] += 1;
}
