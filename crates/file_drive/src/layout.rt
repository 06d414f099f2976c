ghost use Rattle.std.specs.Prelude.{◌≡◌, ◌*◌, ◌<◌, ◌≤◌};
ghost use Rattle.zone_states.specs.Geometry.{IsInRange};
ghost use Rattle.file_drive.specs.Layout.{at_table, at_place, at_zones, file_length, rounded, table_room, place_room};

use zone_states::Geometry;

/// The word that picks a live table.
pub const AT_LIVE: u64 = 4096;

/// The word that picks a flushed table.
pub const AT_FLUSHED: u64 = 8192;

/// A number of bytes up to a whole number of such pieces.
fn rounded(piece: u64, bytes: u64) -> u64
    requires some { 1 ≤ piece }
    requires few { bytes < 4611686018427387904 }
    requires small { piece < 4294967296 }
    ensures { result ≡ rounded piece bytes }
{
    (bytes + (piece - 1)) / piece * piece
}

fn table_room(geometry: &Geometry) -> u64
    requires { IsInRange geometry.now }
    ensures { result ≡ table_room geometry.now }
{
    rounded(4096, 8 * u64::from(geometry.zones))
}

/// Where a table begins: 0 and 1 are the live ones, 2 and 3 the flushed ones.
pub fn at_table(geometry: &Geometry, table: u64) -> u64
    requires in_range { IsInRange geometry.now }
    requires few { table ≤ 4 }
    ensures { result ≡ at_table geometry.now table }
{
    12288 + table * table_room(geometry)
}

/// Where the place with a number begins. The zone with the number n has the places 2n and 2n + 1.
pub fn at_place(geometry: &Geometry, place: u32) -> u64
    requires in_range { IsInRange geometry.now }
    requires few { place ≤ 2 * geometry.now.zones }
    ensures { result ≡ at_place geometry.now place }
{
    let room = u64::from(geometry.capacity) * u64::from(geometry.block);
    rounded(1 << 20, at_table(geometry, 4)) + u64::from(place) * room
}

/// The length of the file.
pub fn file_length(geometry: &Geometry) -> u64
    requires { IsInRange geometry.now }
    ensures { result ≡ file_length geometry.now }
{
    at_place(geometry, 2 * geometry.zones)
}
