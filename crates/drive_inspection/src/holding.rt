//! What the batches of a drive hold, by their headers.

ghost use Rattle.std.specs.Prelude.{◌≡◌, ◌≤◌, ◌<◌, ◌^◌, length, IfOk};
ghost use Rattle.zone_states.specs.Geometry.{IsInRange};
ghost use Rattle.drive_port.specs.Drive.{DriveState};
ghost use Rattle.drive_array.specs.ZoneLogs.{drive_logs};
ghost use Rattle.drive_survey.specs.Known.{Knows};
ghost use Rattle.drive_survey.specs.Scan.{heads_in};
ghost use Rattle.drive_survey.specs.Survey.{greatest_in};
ghost use Rattle.zone_choice.specs.Tables.{size_of};
ghost use Rattle.remount.specs.Torn.{is_torn_zone};
ghost use Rattle.drive_inspection.specs.Found.{TellZones, TellsZone};
ghost use Rattle.drive_inspection.specs.Info.{AreHoldings};

use crate::counting::{all_live, live_in_zone};
use crate::info::{Holdings, ZoneInfo};
use drive_array::most_blocks;
use drive_survey::{ScannedZone, Survey, greatest_sequence, larger};
use remount::place_records;
use std::alloc::{AllocError, Global};
use zone_choice::Tables;
use zone_states::Geometry;

/// The greatest size that a header says, if one says a size.
fn size_said(scanned: &[ScannedZone]) -> Option<u32>
    ensures { result ≡ greatest_in (heads_in scanned.now) }
{
    let mut size = None;
    for zone in scanned {
        size = larger(size, zone.heads.size());
    }
    size
}

/// Whether a torn tail follows a batch.
fn is_torn(zone: &ScannedZone) -> bool
    ensures { result ≡ is_torn_zone zone.now }
{
    zone.is_torn && zone.heads.blocks() != 0
}

/// What a zone holds.
fn zone_info(tables: &mut Tables, zone: u32, scanned: &[ScannedZone]) -> ZoneInfo
    // The tables have the zones that were scanned, and this is one of them.
    requires few { size_of tables.old ≤ 2 ^ 31 }
    requires in_range { zone < length scanned.now }
    requires zones { tables.old.map.zones ≡ length scanned.now }
    // The answer is right by the headers and the places. The tables are unchanged.
    ensures tells { TellsZone scanned.now tables.old.map zone result }
    ensures kept { tables.new ≡ tables.old }
{
    let kept = &scanned[zone as usize];
    ZoneInfo {
        batches: kept.heads.heads().len(),
        live: live_in_zone(tables, zone),
        is_torn: is_torn(kept),
    }
}

/// What each zone holds.
fn zone_infos(
    alloc: Global,
    tables: &mut Tables,
    scanned: &[ScannedZone],
) -> Result<Vec<ZoneInfo>, AllocError>
    // The tables have the zones that were scanned.
    requires few { size_of tables.old ≤ 2 ^ 31 }
    requires in_range { length scanned.now < 2 ^ 32 }
    requires zones { tables.old.map.zones ≡ length scanned.now }
    // Done, the answer is right by the headers and the places. The tables are unchanged, whatever it answers.
    ensures tell { IfOk result (λ infos. TellZones scanned.now tables.old.map infos.items) }
    ensures kept { tables.new ≡ tables.old }
{
    let mut infos = Vec::new(alloc);
    for zone in 0..scanned.len() {
        let info = zone_info(tables, zone as u32, scanned);
        infos.push(info)?;
    }
    Ok(infos)
}

/// What the batches of a drive hold whose headers are kept.
pub fn holdings(alloc: Global, survey: &Survey, geometry: &Geometry) -> Result<Holdings, AllocError>
    requires range { IsInRange geometry.now }
    requires long { length survey.now.scanned.items ≡ geometry.now.zones }
    ensures { IfOk result (λ holdings. (drive : DriveState) → drive.geometry ≡ geometry.now
        → Knows drive survey.now.given (drive_logs drive) survey.now → AreHoldings drive survey.now.given holdings) }
{
    let mut tables = place_records(alloc, survey, geometry)?;
    Ok(Holdings {
        most: most_blocks(geometry),
        said: size_said(&survey.scanned),
        size: survey.size,
        greatest: greatest_sequence(&survey.scanned),
        live: all_live(&tables),
        zones: zone_infos(alloc, &mut tables, &survey.scanned)?,
    })
}
