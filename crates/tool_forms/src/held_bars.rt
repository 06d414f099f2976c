//! How full of live data the zones are, as bars.

use drive_inspection::Holdings;
use std::alloc::AllocError;
use zone_states::Geometry;

/// The longest bar.
const LONGEST: u64 = 40;

/// The zones with a batch, counted by the share of their blocks that is live: below one tenth, below two, and so on.
fn tenths(geometry: &Geometry, holdings: &Holdings) -> [u64; 10] {
    let mut zones = [0u64; 10];
    let capacity = u64::from(geometry.capacity).max(1);
    for zone in &holdings.zones {
        if zone.batches != 0 {
            let tenth = u64::from(zone.live.written) * 10 / capacity;
            let row = tenth.min(9) as usize;
            zones[row] = zones[row].saturating_add(1);
        }
    }
    zones
}

/// Adds a bar, after a space.
fn write_bar(text: &mut String, long: u64) -> Result<(), AllocError> {
    if long != 0 {
        text.push(' ')?;
    }
    for _ in 0..long {
        text.push('#')?;
    }
    Ok(())
}

/// Adds a line for each tenth: from how many percent on, how many zones, and a bar for them.
pub fn write_bars(
    text: &mut String,
    geometry: &Geometry,
    holdings: &Holdings,
) -> Result<(), AllocError> {
    let rows = tenths(geometry, holdings);
    let most = rows.iter().copied().max().unwrap_or(0).max(1);
    for (row, zones) in rows.iter().enumerate() {
        let percent = row.saturating_mul(10);
        write!(text, "live from {percent} percent zones {zones}")?;
        write_bar(text, zones.saturating_mul(LONGEST) / most)?;
        text.push('\n')?;
    }
    Ok(())
}
