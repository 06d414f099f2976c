ghost use Rattle.zone_states.specs.Geometry.{IsInRange};

use crate::estimate::Estimate;
use crate::row::Row;
use drive_array::{batch_most, most_blocks};
use std::alloc::{AllocError, Global};
use zone_states::Geometry;

/// Adds a write amplification.
fn write_amplification(text: &mut String, estimate: &Estimate) -> Result<(), AllocError> {
    let whole = estimate.amplification / 100;
    let tens = estimate.amplification % 100 / 10;
    let ones = estimate.amplification % 10;
    write!(text, "{whole:>7}.{tens}{ones}")
}

/// Adds the amplifications, and then the Reads.
fn write_estimates(text: &mut String, estimates: &[Estimate; 4]) -> Result<(), AllocError> {
    for estimate in estimates {
        write_amplification(text, estimate)?;
    }
    for estimate in estimates {
        write!(text, "{:>11}", estimate.reads)?;
    }
    writeln!(text)
}

/// Adds the line of a row.
fn write_row(text: &mut String, row: &Row) -> Result<(), AllocError> {
    let Row {
        blocks,
        share,
        bytes,
        memory,
        least_reads,
        estimates,
    } = *row;
    write!(
        text,
        "{share:>7}{blocks:>12}{bytes:>15}{memory:>12}{least_reads:>11}"
    )?;
    write_estimates(text, &estimates)
}

/// The words of `zonedisk format` for a drive of this shape.
pub fn format_words(alloc: Global, geometry: &Geometry) -> Result<String, AllocError> {
    let Geometry {
        block,
        zones,
        size,
        capacity,
        transfer,
        active,
        open,
    } = *geometry;
    format!(in alloc;
        "--block {block} --zones {zones} --size {size} --capacity {capacity} --transfer {transfer} --active {active} \
        --open {open}"
    )
}

/// The rows as a table, below a line of the drive and two that say what the columns are.
pub fn plan_text(alloc: Global, geometry: &Geometry, rows: &[Row]) -> Result<String, AllocError>
    requires { IsInRange geometry.now }
{
    let most = most_blocks(geometry);
    let batch = batch_most(geometry);
    let Geometry {
        block,
        zones,
        capacity,
        ..
    } = *geometry;
    let mut text = String::new(alloc);
    writeln!(
        text,
        "{zones} zones of {capacity} blocks of {block} bytes, {batch} entries a batch, {most} blocks at most"
    )?;
    text.push_str(
        "                                                  reads      write amplification, blocks together",
    )?;
    text.push_str("      reads of a full drive, blocks together\n")?;
    text.push_str("percent      blocks          bytes      memory    at least")?;
    text.push_str(
        "         1         4        16        64          1          4         16         64\n",
    )?;
    for row in rows {
        write_row(&mut text, row)?;
    }
    Ok(text)
}
