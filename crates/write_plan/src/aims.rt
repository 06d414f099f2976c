ghost use Rattle.std.specs.Prelude.{◌≡◌, ◌≤◌, IfOk, IfErr, IfSome, OnOk, map, ◌++◌, ◌∷◌, []};
ghost use Rattle.zone_states.specs.Geometry.{IsInRange};
ghost use Rattle.drive_array.specs.Reserve.{FitsReserve};
ghost use Rattle.write_plan.specs.Rows.{AreAimed, AreRows, IsPlanFault, numbers_of, share_of, shares};

use crate::estimate::{WRITES, expected};
use crate::fault::PlanFault;
use crate::row::{Row, row_of, share_of};
use drive_array::{fits_reserve, most_blocks};
use std::alloc::{AllocError, Global};
use zone_states::Geometry;

/// The percents of a table.
pub const SHARES: [u32; 10] = [50, 60, 70, 75, 80, 85, 90, 95, 99, 100];

/// Which numbers of logical blocks a plan is about.
#[derive(Clone, Copy, Debug, PartialEq, Eq)]
pub enum Aim {
    /// Those of `SHARES`.
    Shares,
    /// That many percent of the greatest number.
    Share(u32),
    /// This number.
    Blocks(u64),
    /// For random writes of 1, 4, 16 and 64 blocks together the greatest number that keeps the write amplification,
    /// which is in hundredths. If no number keeps it, it has no row.
    Amplification(u32),
}

/// The rows of a table.
fn share_rows(alloc: Global, geometry: &Geometry) -> Result<Vec<Row>, AllocError>
    requires { IsInRange geometry.now }
    ensures rows { IfOk result (λ rows. AreRows geometry.now rows.items) }
    ensures numbers { IfOk result (λ rows. numbers_of rows.items ≡ map (share_of geometry.now) shares) }
{
    let mut rows = Vec::new(alloc);
    for share in &SHARES {
        rows.push(row_of(geometry, share_of(geometry, *share)))?;
    }
    Ok(rows)
}

/// Whether random writes of `write` blocks together keep a write amplification.
fn keeps(geometry: &Geometry, blocks: u64, write: u32, hundredths: u32) -> bool
    requires in_range { IsInRange geometry.now }
    requires fits { FitsReserve geometry.now blocks }
{
    expected(geometry, blocks, write).amplification <= hundredths
}

#[tactic(auto, using(crate::proofs::RowLaws::fits_below))]
/// The greatest number of logical blocks that keeps a write amplification, found by bisection.
fn greatest_keeping(geometry: &Geometry, write: u32, hundredths: u32) -> Option<u64>
    requires { IsInRange geometry.now }
    ensures { IfSome result (FitsReserve geometry.now) }
{
    let most = most_blocks(geometry);
    if !keeps(geometry, 1, write, hundredths) {
        return None;
    }
    let mut low = 1;
    let mut high = most + 1;
    while low + 1 < high {
        let middle = (low + high) / 2;
        if keeps(geometry, middle, write, hundredths) {
            low = middle;
        } else {
            high = middle;
        }
    }
    Some(low)
}

/// Adds the row of the greatest number that keeps a write amplification, if any.
fn push_keeping(
    rows: &mut Vec<Row>,
    geometry: &Geometry,
    write: u32,
    hundredths: u32,
) -> Result<(), AllocError>
    requires in_range { IsInRange geometry.now }
    requires rows { AreRows geometry.now rows.old.items }
    ensures { OnOk result (AreRows geometry.now rows.new.items) }
{
    let Some(blocks) = greatest_keeping(geometry, write, hundredths) else {
        return Ok(());
    };
    rows.push(row_of(geometry, blocks))?;
    Ok(())
}

/// The rows of the greatest numbers that keep a write amplification.
fn rows_keeping(alloc: Global, geometry: &Geometry, hundredths: u32) -> Result<Vec<Row>, AllocError>
    requires { IsInRange geometry.now }
    ensures { IfOk result (λ rows. AreRows geometry.now rows.items) }
{
    let mut rows = Vec::new(alloc);
    for write in WRITES {
        push_keeping(&mut rows, geometry, write, hundredths)?;
    }
    Ok(rows)
}

/// One row.
fn one_row(alloc: Global, row: Row) -> Result<Vec<Row>, PlanFault>
    ensures ok { IfOk result (λ rows. rows.items ≡ row ∷ []) }
    ensures err { IfErr result (λ fault. fault ≡ PlanFault.OutOfMemory) }
{
    let mut rows = Vec::new(alloc);
    if rows.push(row).is_err() {
        return Err(PlanFault::OutOfMemory);
    }
    Ok(rows)
}

/// The rows of a plan. `Limits`: the geometry is out of range. `Reserve`: the drive cannot serve that many blocks; the
/// fault has the greatest number. `Share`: that is no percentage. `Amplification`: no number keeps that.
pub fn plan(alloc: Global, geometry: &Geometry, aim: Aim) -> Result<Vec<Row>, PlanFault>
    ensures in_range { OnOk result (IsInRange geometry.now) }
    ensures rows { IfOk result (λ rows. AreRows geometry.now rows.items) }
    ensures aimed { IfOk result (λ rows. AreAimed geometry.now aim rows.items) }
    ensures err { IfErr result (IsPlanFault geometry.now aim) }
{
    if let Err(fault) = geometry.check() {
        return Err(PlanFault::Limits(fault));
    }
    match aim {
        Aim::Shares => Ok(share_rows(alloc, geometry)?),
        Aim::Share(percent) => {
            if percent == 0 || percent > 100 {
                return Err(PlanFault::Share);
            }
            one_row(alloc, row_of(geometry, share_of(geometry, percent)))
        }
        Aim::Blocks(blocks) => {
            if !fits_reserve(geometry, blocks) {
                return Err(PlanFault::Reserve(most_blocks(geometry)));
            }
            one_row(alloc, row_of(geometry, blocks))
        }
        Aim::Amplification(hundredths) => {
            let rows = rows_keeping(alloc, geometry, hundredths)?;
            if rows.is_empty() {
                return Err(PlanFault::Amplification);
            }
            Ok(rows)
        }
    }
}
