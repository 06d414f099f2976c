// Devices over a drive in memory, by what a first report shows.

ghost use Rattle.std.specs.Prelude.{◌≡◌, IfSome, true};
ghost use Rattle.zone_states.specs.Geometry.{IsInRange};
ghost use Rattle.passthrough.specs.Seen.{AreSeen};

use drive_port::{Device, Honest, report};
use nvme_wire::ReportingOptions;
use passthrough::{PassthroughDrive, ReadAhead, SeenZone, Through, zones_shown};
use std::alloc::Global;
use zone_states::Geometry;

/// Whether a geometry is in range.
fn is_in_range(geometry: Geometry) -> bool
    ensures { result ≡ true → IsInRange geometry }
{
    geometry.check().is_ok()
}

/// What a report of all zones shows of each.
pub fn first_seen<D: Device>(alloc: Global, drive: &mut D) -> Option<Vec<SeenZone>>
    ensures { IfSome result (λ seen. AreSeen (D.drive drive.new).zones seen.items) }
{
    let geometry = drive.geometry();
    if !is_in_range(geometry) {
        return None;
    }
    let dwords = 16 + 16 * u64::from(geometry.zones);
    let mut shown = Vec::new(alloc);
    match report(
        drive,
        0,
        ReportingOptions::AnyState,
        true,
        dwords,
        &mut shown,
    ) {
        Ok(()) => zones_shown(alloc, geometry, &shown).ok(),
        Err(_) => None,
    }
}

/// A device above a drive, that reads ahead.
pub type Ahead<D> = PassthroughDrive<ReadAhead<Through<D>>>;

/// A device above a drive, that reads ahead.
pub fn ahead<D: Device + Honest + Drop>(alloc: Global, mut drive: D) -> Option<Ahead<D>> {
    let seen = first_seen(alloc, &mut drive)?;
    let way = ReadAhead::new(alloc, Through::new(alloc, drive));
    PassthroughDrive::new(alloc, way, seen).ok()
}

/// A device above a drive, that sends each Read as it is.
pub fn plain<D: Device + Honest + Drop>(
    alloc: Global,
    mut drive: D,
) -> Option<PassthroughDrive<Through<D>>> {
    let seen = first_seen(alloc, &mut drive)?;
    PassthroughDrive::new(alloc, Through::new(alloc, drive), seen).ok()
}
