ghost use Rattle.std.specs.Prelude.{◌≡◌, ◌≤◌, ◌<◌, ◌+◌, ◌/◌, ◌^◌, length, map, slice_index_or};
ghost use Rattle.std.specs.Prelude.{slice_set, is_some, OnOk, OnErr};
ghost use Rattle.logical_map.specs.Live.{zone_of};
ghost use Rattle.logical_map.specs.Pages.{Changes, MakesPage, page_of, place_in, place_of};
ghost use Rattle.logical_map.specs.Places.{place_address};
ghost use Rattle.logical_map.specs.declared.place.Place.TheVariants as places;

use crate::place::Place;
use std::alloc::{AllocError, Global};

/// How many places a page has.
pub const PAGE: u32 = 256;

/// Pages of places by their numbers, 8 bytes a place; one that is missing holds no place.
pub type Pages = Vec<Option<Box<[u64; 256]>>>;

/// The word of a block's place; 0 for a block past the end.
pub fn word_at(pages: &Pages, block: u32) -> u64
    ensures { place_of result ≡ place_in (page_of pages.now.items) block }
{
    let index = (block / PAGE) as usize;
    if index >= pages.len() {
        return 0;
    }
    match &pages[index] {
        None => 0,
        Some(page) => page[(block % PAGE) as usize],
    }
}

/// Where a block is; a block past the end has no place.
pub fn place_at(pages: &Pages, block: u32) -> Place
    ensures { result ≡ place_in (page_of pages.now.items) block }
{
    Place::from_word(word_at(pages, block))
}

/// Whether a page is there.
pub fn has_page(pages: &Pages, number: u32) -> bool
    ensures { result ≡ is_some (page_of pages.now.items number) }
{
    let index = number as usize;
    index < pages.len() && pages[index].is_some()
}

/// Makes the list of pages this long at least. The new ones are missing.
fn widen(pages: &mut Pages, count: usize) -> Result<(), AllocError>
    ensures ok { OnOk result (count ≤ length pages.new.items) }
    ensures kept { (number : _) → page_of pages.new.items number ≡ page_of pages.old.items number }
    ensures err { OnErr result (pages.new.items ≡ pages.old.items) }
{
    if count <= pages.len() {
        return Ok(());
    }
    pages.reserve(count - pages.len())?;
    while pages.len() < count {
        pages.push_reserved(None);
    }
    Ok(())
}

/// Makes a page in which no block has a place. Where an allocation fails, nothing changes.
pub fn make_page(alloc: Global, pages: &mut Pages, number: u32) -> Result<(), AllocError>
    ensures ok { OnOk result
        (MakesPage (page_of pages.old.items) number (page_of pages.new.items)) }
    ensures err { OnErr result (pages.new.items ≡ pages.old.items) }
{
    let page = Box::new(alloc, [0; 256])?;
    widen(pages, number as usize + 1)?;
    pages[number as usize] = Some(page);
    Ok(())
}

/// Changes the place of a block, and answers the old one. None where its page is missing.
pub fn change(pages: &mut Pages, block: u32, place: Place) -> Option<Place>
    requires { place_address place + 1 < 2 ^ 63 }
    ensures { Changes (page_of pages.old.items) block place result (page_of pages.new.items) }
{
    let index = (block / PAGE) as usize;
    if index >= pages.len() {
        return None;
    }
    match &mut pages[index] {
        None => None,
        Some(page) => Some(put(page, (block % PAGE) as usize, place)),
    }
}

/// Writes one place of a page, and answers the old one.
fn put(page: &mut [u64; 256], index: usize, place: Place) -> Place
    requires in_range { index < 256 }
    requires fits { place_address place + 1 < 2 ^ 63 }
    ensures old { result ≡ slice_index_or (map place_of page.old) index places.None }
    ensures set { map place_of page.new ≡ slice_set (map place_of page.old) index place }
    ensures long { length page.old ≡ 256 }
{
    let old = Place::from_word(page[index]);
    page[index] = place.word();
    old
}

/// The zone that a place is in.
pub fn zone_of(zone_size: u32, place: Place) -> Option<u64>
    ensures { result ≡ zone_of zone_size place }
{
    match place {
        Place::None => None,
        Place::Trimmed(address) | Place::At(address) => Some(zone_at(zone_size, address)),
    }
}

/// The zone that an address is in; the first where zones have no addresses.
pub fn zone_at(zone_size: u32, address: u64) -> u64
    ensures { result ≡ address / zone_size }
{
    if zone_size == 0 {
        return 0;
    }
    address / zone_size as u64
}
