ghost use Rattle.zone_states.specs.Geometry.{IsInRange};

use crate::estimate::{Estimate, WRITES};
use crate::row::Row;
use drive_array::{batch_most, most_blocks};
use serde_json::{Value, json};
use std::alloc::{AllocError, Global};
use zone_states::Geometry;

/// What random writes of so many blocks together are expected to cost.
fn estimate_json(alloc: Global, write: u32, estimate: &Estimate) -> Result<Value, AllocError> {
    let amplification = f64::from(estimate.amplification) / 100.0;
    json!(in alloc; {
        "blocks": u64::from(write),
        "write_amplification": amplification,
        "reads": estimate.reads,
    })
}

/// The estimates of a row.
fn estimates_json(alloc: Global, row: &Row) -> Result<Value, AllocError> {
    let mut estimates = Vec::new(alloc);
    for (write, estimate) in WRITES.iter().zip(&row.estimates) {
        estimates.push(estimate_json(alloc, *write, estimate)?)?;
    }
    Ok(Value::Array(estimates))
}

/// A row.
fn row_json(alloc: Global, row: &Row) -> Result<Value, AllocError> {
    let estimates = estimates_json(alloc, row)?;
    json!(in alloc; {
        "percent": row.share,
        "blocks": row.blocks,
        "bytes": row.bytes,
        "memory": row.memory,
        "least_reads": row.least_reads,
        "random_writes": estimates,
    })
}

/// The geometry of a drive, as JSON.
pub fn geometry_json(alloc: Global, geometry: &Geometry) -> Result<Value, AllocError> {
    json!(in alloc; {
        "block": u64::from(geometry.block),
        "zones": u64::from(geometry.zones),
        "size": u64::from(geometry.size),
        "capacity": u64::from(geometry.capacity),
        "transfer": u64::from(geometry.transfer),
        "active": u64::from(geometry.active),
        "open": u64::from(geometry.open),
    })
}

/// The rows as JSON: an object with the geometry, what it allows, and the rows.
pub fn plan_json(alloc: Global, geometry: &Geometry, rows: &[Row]) -> Result<String, AllocError>
    requires { IsInRange geometry.now }
{
    let mut list = Vec::new(alloc);
    for row in rows {
        list.push(row_json(alloc, row)?)?;
    }
    let drive = geometry_json(alloc, geometry)?;
    let all = json!(in alloc; {
        "geometry": drive,
        "batch_most": u64::from(batch_most(geometry)),
        "most_blocks": most_blocks(geometry),
        "rows": list,
    })?;
    all.to_string_pretty(alloc)
}
