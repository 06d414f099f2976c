ghost use Rattle.std.specs.Prelude.{◌≡◌, ◌<◌, List, length, slice_index_or};
ghost use Rattle.zone_states.specs.Zone.{Zone};
ghost use Rattle.zone_report.specs.Report.{zone_status};

use crate::status::ZoneStatus;

/// The zones of a drive, as a report shows them.
pub trait ReportedZones {
    /// The zones, in order of their numbers.
    ghost zones: { Self → List Zone };

    /// What a report says of the zone with this number.
    fn status(&self, number: u32) -> ZoneStatus
        requires { number < length (zones self.now) }
        ensures { (none : Zone)
            → result ≡ zone_status (slice_index_or (zones self.now) number none) };
}
