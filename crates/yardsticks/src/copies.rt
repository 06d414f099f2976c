//! Copies of a drive.

use drive_port::Device;
use std::alloc::Global;
use zone_drive::Drive;
use zone_states::Zone;

/// A copy of a drive, after a restart.
pub fn restarted(alloc: Global, drive: &Drive) -> Option<Drive> {
    let mut zones = Vec::new(alloc);
    for zone in drive.zones() {
        let written = Vec::from_slice(alloc, zone.written()).ok()?;
        zones.push(Zone::from_parts(zone.state(), written)).ok()?;
    }
    let mut copy = Drive::from_zones(alloc, drive.geometry(), zones).ok()?;
    copy.restart();
    Some(copy)
}
