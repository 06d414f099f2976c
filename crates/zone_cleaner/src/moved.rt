ghost use Rattle.std.specs.Prelude.{◌≡◌, ◌<◌, ◌≤◌, ◌+◌, ◌++◌, ◌^◌, length, map, take, OnOk};
ghost use Rattle.std.specs.List.{AllByRecursion};
ghost use Rattle.logical_map.specs.Places.{place_address};
ghost use Rattle.zone_choice.specs.Tables.{size_of, with_places};
ghost use Rattle.zone_cleaner.specs.Undoing.{entry_moved, put_back, put_one};

use batch_log::Entry;
use logical_map::Place;
use std::alloc::AllocError;
use zone_choice::Tables;

/// A record that was moved: its block, and where that was before.
#[derive(Clone, Copy, Debug)]
pub struct Moved {
    /// The logical block.
    pub block: u32,
    /// Its place in the victim.
    pub place: Place,
}

/// The address of a place, 0 if none.
pub fn address_of(place: Place) -> u64
    ensures { result ≡ place_address place }
{
    match place {
        Place::None => 0,
        Place::Trimmed(address) | Place::At(address) => address,
    }
}

/// Notes where the blocks of a Move are, before it is appended.
pub fn note_places(
    tables: &Tables,
    entries: &[Entry],
    moved: &mut Vec<Moved>,
) -> Result<(), AllocError>
    requires in_range { AllByRecursion (λ e. e.block < size_of tables.now) entries.now }
    requires few { size_of tables.now ≤ 2 ^ 31 }
    ensures ok { OnOk result
        (moved.new.items ≡ moved.old.items ++ map (entry_moved tables.now.map.places) entries.now) }
    // In any case what was noted before comes first.
    ensures kept { take (length moved.old.items) moved.new.items ≡ moved.old.items }
{
    for entry in entries {
        let block = entry.block as u32;
        let place = tables.place_of(block);
        moved.push(Moved { block, place })?;
    }
    Ok(())
}

/// Gives each block that was moved and is in this zone its old place. Nothing is allocated.
pub fn put_back(tables: &mut Tables, zone: u32, moved: &[Moved])
    requires { size_of tables.old ≤ 2 ^ 31 }
    ensures { tables.new ≡ with_places tables.old
        (put_back tables.old.map.zone_size zone moved.now tables.old.map.places) }
{
    for one in moved {
        put_one(tables, zone, *one);
    }
}

/// The same of one block. While the drive is clean, a place that it had fits the map.
fn put_one(tables: &mut Tables, zone: u32, moved: Moved)
    requires { size_of tables.old ≤ 2 ^ 31 }
    ensures { tables.new ≡ with_places tables.old
        (put_one tables.old.map.zone_size zone moved tables.old.map.places) }
{
    if moved.block >= tables.blocks() || !tables.is_in(moved.block, zone) {
        return;
    }
    if address_of(moved.place) < (1 << 63) - 1 {
        tables.place(moved.block, moved.place);
    }
}
