ghost use Rattle.std.specs.Prelude.{◌≡◌, ◌≤◌, ◌+◌, ◌<◌, ◌^◌, IfSome, IsNone, is_none, OnSome};
ghost use Rattle.drive_images.specs.Reading.{counts_with, is_over_limit};

use zone_states::{Geometry, ZoneState, is_active, is_open};

/// How many zones are active, and how many are open.
#[derive(Clone, Copy)]
pub struct ZoneCounts {
    pub active_zones: u32,
    pub open_zones: u32,
}

impl ZoneCounts {
    /// Those of no zone.
    pub fn none() -> ZoneCounts
        ensures { result ≡ record { active_zones = 0; open_zones = 0 } }
    {
        ZoneCounts {
            active_zones: 0,
            open_zones: 0,
        }
    }

    /// Those with one zone more, in this state, if a drive may have that many.
    pub fn with(self, geometry: &Geometry, state: ZoneState) -> Option<ZoneCounts>
        requires active { self.active_zones + 1 < 2 ^ 32 }
        requires open_zones { self.open_zones + 1 < 2 ^ 32 }
        ensures some { IfSome result (λ counts. counts ≡ counts_with self state) }
        ensures none { is_none result ≡ is_over_limit geometry.now (counts_with self state) }
    {
        let active_zones = self.active_zones + u32::from(is_active(state));
        let open_zones = self.open_zones + u32::from(is_open(state));
        if active_zones > geometry.active || open_zones > geometry.open {
            return None;
        }
        Some(ZoneCounts {
            active_zones,
            open_zones,
        })
    }
}
