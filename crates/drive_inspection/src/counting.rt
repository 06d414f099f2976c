//! Live records, counted by the places of all blocks.

ghost use Rattle.std.specs.Prelude.{◌≡◌, ◌+◌, ◌≤◌, ◌<◌, ◌^◌, count_by, length};
ghost use Rattle.logical_map.specs.Live.{blocks_in};
ghost use Rattle.zone_choice.specs.Tables.{size_of};
ghost use Rattle.remount.specs.Torn.{data_in, is_data_place};
ghost use Rattle.drive_inspection.specs.Found.{is_trim_place, counting_place, counting_record};

use crate::info::LiveCount;
use logical_map::Place;
use zone_choice::Tables;

/// No live record.
const NONE: LiveCount = LiveCount {
    written: 0,
    trimmed: 0,
};

/// One record more, whose place is this.
fn counting_record(live: LiveCount, place: Place) -> LiveCount
    requires { live.written + live.trimmed + 1 < 2 ^ 32 }
    ensures { result ≡ counting_record live place }
{
    match place {
        Place::At(_) => LiveCount {
            written: live.written + 1,
            ..live
        },
        _ => LiveCount {
            trimmed: live.trimmed + 1,
            ..live
        },
    }
}

/// One record more, if there is one at a place.
fn counting_place(live: LiveCount, place: Place) -> LiveCount
    requires { live.written + live.trimmed + 1 < 2 ^ 32 }
    ensures { result ≡ counting_place live place }
{
    match place {
        Place::None => live,
        _ => counting_record(live, place),
    }
}

/// The live records in a zone.
pub fn live_in_zone(tables: &mut Tables, zone: u32) -> LiveCount
    requires few { size_of tables.old ≤ 2 ^ 31 }
    requires zone { zone < tables.old.map.zones }
    // The records with data are counted, and all of them together. The tables are unchanged.
    ensures written { result.written ≡ data_in tables.old.map.zone_size zone tables.old.map.places }
    ensures all { result.written + result.trimmed
        ≡ length (blocks_in tables.old.map.zone_size zone 0 tables.old.map.places) }
    ensures kept { tables.new ≡ tables.old }
{
    let mut live = NONE;
    let mut from = 0;
    while let Some((block, place)) = tables.first_record(zone, from) {
        live = counting_record(live, place);
        from = block + 1;
    }
    live
}

/// The live records of all zones.
pub fn all_live(tables: &Tables) -> LiveCount
    requires few { size_of tables.now ≤ 2 ^ 31 }
    ensures written { result.written ≡ count_by is_data_place tables.now.map.places }
    ensures trimmed { result.trimmed ≡ count_by is_trim_place tables.now.map.places }
{
    let mut live = NONE;
    for block in 0..tables.blocks() {
        live = counting_place(live, tables.place_of(block));
    }
    live
}
