ghost use Rattle.std.specs.Prelude.{◌≡◌, ◌<◌};
ghost use Rattle.logical_map.specs.Live.{lies_in};
ghost use Rattle.logical_map.specs.Pages.{place_of};
ghost use Rattle.logical_map.specs.Words.{AreWordsOf};

use std::marker::Model;

/// The words of pages that stand for places in a zone: `count` of them, from `first` on. Whether a place is in the
/// zone is seen from its word, without a division.
#[derive(Drop)]
pub struct ZoneWords {
    zone_size: u32,
    zone: u64,
    first: u64,
    count: u64,
}

impl Model for ZoneWords {
    ghost use Rattle.logical_map.specs.Words.{AreWordsOf, ZoneView};

    ghost Value = { ZoneView };

    ghost view = { λ w. record { zone_size = w.zone_size; zone = w.zone } };

    ghost invariant = { λ w. AreWordsOf w.zone_size w.zone w.first w.count };
}

/// The first of the words of a zone, and how many there are. A zone that has no addresses takes all, if it is the
/// first.
fn words_of(zone_size: u32, zone: u64) -> (u64, u64)
    ensures { AreWordsOf zone_size zone result.0 result.1 }
{
    if zone_size == 0 {
        if zone == 0 {
            return (1, u64::MAX);
        }
        return (1, 0);
    }
    let count = 2 * zone_size as u64;
    match zone.checked_mul(count) {
        None => (1, 0),
        Some(before) => (before.saturating_add(1), count),
    }
}

impl ZoneWords {
    /// Those of a zone with `zone_size` addresses.
    pub fn of(zone_size: u32, zone: u64) -> ZoneWords
        ensures { result ≡ record { zone_size = zone_size; zone = zone } }
    {
        let (first, count) = words_of(zone_size, zone);
        ZoneWords {
            zone_size,
            zone,
            first,
            count,
        }
    }

    /// Whether the place of a word is in the zone.
    pub fn hold(&self, word: u64) -> bool
        ensures { result ≡ lies_in self.now.zone_size self.now.zone (place_of word) }
    {
        if word < self.first {
            return false;
        }
        word - self.first < self.count
    }
}
