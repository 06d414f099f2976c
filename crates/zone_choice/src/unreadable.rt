ghost use Rattle.std.specs.Prelude.{◌≡◌, ◌<◌, length};
ghost use Rattle.zone_choice.specs.Tables.{is_lost_in};

use logical_map::{Map, Place};

/// Data that could not be read.
#[derive(Clone, Copy, Debug, PartialEq, Eq)]
pub struct Unreadable {
    /// The logical block that it is the data of.
    pub block: u32,
    /// Its address, in logical blocks from the start of the drive.
    pub address: u64,
}

impl Unreadable {
    /// Whether it is in a zone, and still the data of its block.
    pub(crate) fn is_lost_in(self, map: &Map, zone: u32) -> bool
        requires { self.block < length map.now.places }
        ensures { result ≡ is_lost_in map.now zone self }
    {
        let data = Place::At(self.address);
        map.is_in(data, zone) && map.get(self.block) == data
    }
}
