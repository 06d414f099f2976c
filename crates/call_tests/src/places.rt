ghost use Rattle.std.specs.Prelude.{◌≡◌, ◌≤◌, ◌<◌, ◌+◌, ◌^◌, OnOk, length};
ghost use Rattle.logical_map.specs.Places.{place_address};

use logical_map::{Map, Moved, Place};
use std::alloc::{AllocError, Global};
use std::process::Abort;
use std::test::Fail;
use yardsticks::chance;

/// The last block is placed, and no other; its zone has that block.
fn places_last(rt: &impl Abort, alloc: Global, count: u32) -> Result<(), Fail>
    requires { 2 ≤ count }
{
    let mut map = Map::new(alloc, count, 3, 4);
    let last = count - 1;
    assert_eq!(rt; map.len(), count);
    let fresh = map.get(last);
    map.reserve_for(last)?;
    map.reserve_in(2, 1)?;
    assert_eq!(rt;
        map.set(last, Place::At(9)),
        Moved {
            from: None,
            to: Some(2)
        }
    );
    assert_eq!(rt;
        (fresh, map.get(last), map.get(last - 1)),
        (Place::None, Place::At(9), Place::None)
    );
    assert_eq!(rt; map.live(2), 1);
    assert_eq!(rt; map.first_record(2, 0), Some((last, Place::At(9))));
    assert_eq!(rt; map.first_record(2, count), None);
    Ok(())
}

/// With 2^31 blocks, 64 times: walks over the map would not end within the time that a test has.
#[test]
fn places_the_last_of_many_blocks(rt: HostRuntime) -> Result<(), Fail> {
    let most = "2147483648".parse()?;
    for _ in 0..64 {
        if most > 2 {
            places_last(&rt, rt.alloc(), most)?;
        }
    }
    Ok(())
}

/// A place in a zone of 4 addresses, or as often none.
fn random_place(state: &mut u64, zone: u32) -> Place
    requires { zone < 65 }
    ensures { place_address result + 1 < 2 ^ 63 }
{
    let address = (4 * zone + chance(state, 4)) as u64;
    match chance(state, 8) {
        0 => Place::Trimmed(address),
        1 | 2 | 3 => Place::At(address),
        _ => Place::None,
    }
}

/// The zone of 64 that a place is in, if it is in one.
fn plain_zone(place: Place) -> Option<u32> {
    match place {
        Place::Trimmed(address) | Place::At(address) if address < 256 => Some((address / 4) as u32),
        _ => None,
    }
}

/// Places a block in both, and says whether it was moved between the same zones. The zone's list may lack room for it.
fn place_in_both(
    map: &mut Map,
    places: &mut [Place; 300],
    block: u32,
    place: Place,
) -> Result<bool, AllocError>
    requires length { length map.old.places ≡ 300 }
    requires block { block < 300 }
    requires fits { place_address place + 1 < 2 ^ 63 }
    ensures length { OnOk result (length map.new.places ≡ 300) }
    ensures zones { OnOk result (map.new.zones ≡ map.old.zones) }
{
    map.reserve_for(block)?;
    let moved = map.set(block, place);
    let plain = Moved {
        from: plain_zone(places[block as usize]),
        to: plain_zone(place),
    };
    places[block as usize] = place;
    Ok(moved == plain)
}

/// How many blocks are in a zone, by a look at each.
fn plain_live(places: &[Place; 300], zone: u32) -> u32 {
    let mut live = 0_u32;
    for place in places {
        live = live.wrapping_add(u32::from(plain_zone(*place) == Some(zone)));
    }
    live
}

/// The first of the blocks from one on that are in a zone, with its place, by a look at each.
fn plain_first(places: &[Place; 300], zone: u32, from: u32) -> Option<(u32, Place)> {
    for block in from..300 {
        let place = places[block as usize];
        if plain_zone(place) == Some(zone) {
            return Some((block, place));
        }
    }
    None
}

/// In 64 zones, and past the last of them. A zone has few blocks, so that often none is left in it.
#[test]
fn places_as_a_plain_list(rt: HostRuntime) -> Result<(), Fail> {
    let mut map = Map::new(rt.alloc(), 300, 64, 4);
    let mut places = [Place::None; 300];
    let mut state = 1;
    for call in 0..10_000 {
        let zone = chance(&mut state, 65);
        let place = random_place(&mut state, zone);
        map.reserve_in(zone, chance(&mut state, 16).min(1))?;
        let block = chance(&mut state, 300);
        let same = place_in_both(&mut map, &mut places, block, place)?;
        let zone = chance(&mut state, 64);
        let from = chance(&mut state, 300);
        assert_eq!(rt;
            (
                same,
                map.get(from),
                map.live(zone),
                map.first_record(zone, from)
            ),
            (
                true,
                places[from as usize],
                plain_live(&places, zone),
                plain_first(&places, zone, from)
            ),
            "after call {call}"
        );
    }
    Ok(())
}
