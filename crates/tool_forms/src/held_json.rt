use crate::held_sums::{block_shares, count_batches, count_moves, count_resets, memory};
use drive_inspection::{DriveInfo, Info, InspectedDrive, MountWork, ZoneInfo};
use drive_survey::{MountFault, ReportedZone};
use serde_json::{Value, json};
use std::alloc::{AllocError, Global};
use write_plan::geometry_json;
use zone_report::state_text;

/// A number, or null.
fn number_json(number: Option<u64>) -> Value {
    match number {
        Some(number) => Value::from(number),
        None => Value::Null,
    }
}

/// Numbers of zones.
fn numbers_json(alloc: Global, zones: &[u32]) -> Result<Value, AllocError> {
    let mut list = Vec::new(alloc);
    for zone in zones {
        list.push(Value::from(u64::from(*zone)))?;
    }
    Ok(Value::Array(list))
}

/// A zone of a drive that cannot be mounted.
fn reported_json(alloc: Global, zone: &ReportedZone) -> Result<Value, AllocError> {
    json!(in alloc; {"state": state_text(zone.state), "blocks": u64::from(zone.blocks)})
}

/// A zone of one that can.
fn zone_json(alloc: Global, zone: &ReportedZone, info: &ZoneInfo) -> Result<Value, AllocError> {
    json!(in alloc; {
        "state": state_text(zone.state),
        "blocks": u64::from(zone.blocks),
        "batches": info.batches as u64,
        "live": u64::from(info.live.written),
        "trimmed": u64::from(info.live.trimmed),
        "torn": info.is_torn,
    })
}

/// All zones of a drive that cannot be mounted.
fn all_reported_json(alloc: Global, drive: &DriveInfo) -> Result<Value, AllocError> {
    let mut list = Vec::new(alloc);
    for zone in &drive.zones {
        list.push(reported_json(alloc, zone)?)?;
    }
    Ok(Value::Array(list))
}

/// All zones of one that can.
fn all_zones_json(alloc: Global, drive: &DriveInfo, info: &Info) -> Result<Value, AllocError> {
    let mut list = Vec::new(alloc);
    for (zone, found) in drive.zones.iter().zip(info.holdings.zones.iter()) {
        list.push(zone_json(alloc, zone, found)?)?;
    }
    Ok(Value::Array(list))
}

/// What a mount does, if it was not rehearsed.
fn work_json(alloc: Global, work: &MountWork) -> Result<Value, AllocError> {
    let half_clean = numbers_json(alloc, &work.half_clean)?;
    json!(in alloc; {
        "half_clean": half_clean,
        "resets": count_resets(work) as u64,
        "moves": count_moves(work),
    })
}

/// What a mount does that was rehearsed.
fn mount_json(
    alloc: Global,
    work: &MountWork,
    rehearsed: &InspectedDrive,
) -> Result<Value, AllocError> {
    let half_clean = numbers_json(alloc, &work.half_clean)?;
    let mounted = rehearsed.mounted.as_ref().ok();
    json!(in alloc; {
        "half_clean": half_clean,
        "resets": count_resets(work) as u64,
        "moves": count_moves(work),
        "finishes": rehearsed.counts.finishes,
        "reads": rehearsed.counts.reads,
        "commands": number_json(mounted.map(|mounted| mounted.commands)),
        "next_sequence": number_json(mounted.map(|mounted| mounted.next)),
        "batches_left": number_json(mounted.map(|mounted| mounted.left)),
    })
}

/// A drive that can be mounted, and its mount if that was rehearsed.
fn mountable_json(
    alloc: Global,
    drive: &DriveInfo,
    info: &Info,
    rehearsed: Option<&InspectedDrive>,
) -> Result<Value, AllocError> {
    let holdings = &info.holdings;
    let shares = block_shares(drive, holdings);
    let bytes = memory(alloc, &drive.geometry, holdings.size)?;
    let geometry = geometry_json(alloc, &drive.geometry)?;
    let mount = match rehearsed {
        Some(rehearsed) => mount_json(alloc, &info.work, rehearsed)?,
        None => work_json(alloc, &info.work)?,
    };
    let zones = all_zones_json(alloc, drive, info)?;
    json!(in alloc; {
        "geometry": geometry,
        "refusal": Value::Null,
        "most_logical_blocks": holdings.most,
        "logical_blocks": number_json(holdings.said.map(u64::from)),
        "written_logical_blocks": u64::from(holdings.live.written),
        "trimmed_logical_blocks": u64::from(holdings.live.trimmed),
        "live_blocks": shares.live,
        "dead_blocks": shares.dead,
        "free_blocks": shares.free,
        "batches": count_batches(holdings),
        "greatest_sequence": holdings.greatest,
        "memory": number_json(bytes),
        "mount": mount,
        "zones": zones,
    })
}

/// A drive that cannot be mounted.
fn refused_json(alloc: Global, drive: &DriveInfo, fault: MountFault) -> Result<Value, AllocError> {
    let geometry = geometry_json(alloc, &drive.geometry)?;
    let refusal = format!(in alloc; "{fault}")?;
    let zones = all_reported_json(alloc, drive)?;
    let unusable = numbers_json(alloc, &drive.faults.unusable)?;
    let unread = numbers_json(alloc, &drive.faults.unread)?;
    json!(in alloc; {
        "geometry": geometry,
        "refusal": refusal.as_str(),
        "unusable": unusable,
        "unread": unread,
        "readable": drive.faults.readable as u64,
        "zones": zones,
    })
}

/// The object of a drive, with its mount if that was rehearsed.
fn drive_json(
    alloc: Global,
    drive: &DriveInfo,
    rehearsed: Option<&InspectedDrive>,
) -> Result<String, AllocError> {
    let all = match &drive.found {
        Ok(info) => mountable_json(alloc, drive, info, rehearsed)?,
        Err(fault) => refused_json(alloc, drive, *fault)?,
    };
    all.to_string_pretty(alloc)
}

/// What is found of a drive, as JSON: one object. Of a drive that cannot be mounted it says the `refusal`, and leaves
/// out what the drive holds.
pub fn info_json(alloc: Global, found: &InspectedDrive) -> Result<String, AllocError> {
    drive_json(alloc, &found.info, Some(found))
}

/// The same of a drive whose mount was not rehearsed.
pub fn unmounted_json(alloc: Global, found: &DriveInfo) -> Result<String, AllocError> {
    drive_json(alloc, found, None)
}
