ghost use Rattle.std.specs.Prelude.{◌≡◌, ◌⊎◌, ◌*◌, ◌≤◌, ◌^◌, IfErr, IfOk, OnOk, Some, None};
ghost use Rattle.zone_states.specs.Checks.{first_failing};
ghost use Rattle.zone_states.specs.Geometry.{IsInRange};
ghost use Rattle.passthrough.specs.Fields.{block_exponent, namespace_size, zone_size};
ghost use Rattle.passthrough.specs.Shape.{HasPlainBlocks, HasPlainZones, IsShapeOf};
ghost use Rattle.passthrough.specs.Faults.{block_checks, capacity_checks, identify_checks, layout_checks};
ghost use Rattle.passthrough.specs.Faults.{writing_checks};

use crate::identify_fault::IdentifyFault;
use crate::limits::{active_of, transfer_of, zone_limit};
use crate::pages::Pages;
use zone_states::Geometry;

/// The bytes of a block.
fn block_of(pages: &Pages) -> Result<u32, IdentifyFault>
    ensures ok { IfOk result (λ block.
        ((block ≡ 512) ⊎ (block ≡ 4096)) × (block ≡ 2 ^ block_exponent pages.now)) }
    ensures plain { OnOk result (HasPlainBlocks pages.now) }
    ensures passed { OnOk result (first_failing (block_checks pages.now) ≡ None) }
    ensures err { IfErr result (λ fault. first_failing (block_checks pages.now) ≡ Some fault) }
{
    if !pages.is_zoned {
        return Err(IdentifyFault::NotZoned);
    }
    let metadata = pages.metadata_size();
    if metadata != 0 {
        return Err(IdentifyFault::Metadata(metadata));
    }
    let protection = pages.protection_type();
    if protection != 0 {
        return Err(IdentifyFault::Protection(protection));
    }
    let exponent = pages.block_exponent();
    if exponent != 9 && exponent != 12 {
        return Err(IdentifyFault::BlockSize(exponent));
    }
    let unwritten = pages.unwritten_reads();
    if unwritten != 1 {
        return Err(IdentifyFault::Unwritten(unwritten));
    }
    Ok(if exponent == 9 { 512 } else { 4096 })
}

/// How many zones there are, and the size of one.
fn zones_of(pages: &Pages) -> Result<(u32, u32), IdentifyFault>
    ensures ok { IfOk result (λ layout.
        (layout.1 ≡ zone_size pages.now) × (layout.0 * layout.1 ≡ namespace_size pages.now)
        × (3 ≤ layout.0) × (layout.0 ≤ 65536) × (1 ≤ layout.1) × (layout.1 ≤ 2 ^ 20)) }
    ensures passed { OnOk result (first_failing (layout_checks pages.now) ≡ None) }
    ensures err { IfErr result (λ fault. first_failing (layout_checks pages.now) ≡ Some fault) }
{
    let size = pages.zone_size();
    if size == 0 || size > 1 << 20 {
        return Err(IdentifyFault::ZoneSize(size));
    }
    let blocks = pages.namespace_size();
    if blocks % size != 0 {
        let size = size as u32;
        return Err(IdentifyFault::Remainder { blocks, size });
    }
    let zones = blocks / size;
    if zones < 3 || zones > 65536 {
        return Err(IdentifyFault::Zones(zones));
    }
    Ok((zones as u32, size as u32))
}

/// The capacity of a zone, if all have the same.
fn capacity_of(pages: &Pages, capacity: u64, size: u32) -> Result<u32, IdentifyFault>
    requires { size ≡ zone_size pages.now }
    ensures ok { IfOk result (λ written.
        (written ≡ capacity) × (4 ≤ written) × (written ≤ size)) }
    ensures plain { OnOk result (HasPlainZones pages.now) }
    ensures passed { OnOk result (first_failing (capacity_checks pages.now capacity) ≡ None) }
    ensures err { IfErr result (λ fault.
        first_failing (capacity_checks pages.now capacity) ≡ Some fault) }
{
    if pages.has_variable_capacity() {
        return Err(IdentifyFault::VariableCapacity);
    }
    if pages.has_active_excursions() {
        return Err(IdentifyFault::ActiveExcursions);
    }
    let units = pages.extension_units();
    if units != 0 {
        return Err(IdentifyFault::Extension(64 * u16::from(units)));
    }
    if capacity < 4 || capacity > u64::from(size) {
        return Err(IdentifyFault::Capacity { capacity, size });
    }
    Ok(capacity as u32)
}

/// The geometry of a zoned namespace, or why a disk does not work on it.
///
/// `capacity` is found in the first zone descriptor of a report. `limit` is how many bytes one command can move on the
/// caller's way to the drive.
pub fn geometry_of(pages: &Pages, capacity: u64, limit: u64) -> Result<Geometry, IdentifyFault>
    ensures shape { IfOk result (IsShapeOf pages.now capacity limit) }
    ensures in_range { IfOk result IsInRange }
    ensures passed { OnOk result (first_failing (identify_checks pages.now capacity limit) ≡ None) }
    ensures err { IfErr result (λ fault.
        first_failing (identify_checks pages.now capacity limit) ≡ Some fault) }
{
    let block = block_of(pages)?;
    let (zones, size) = zones_of(pages)?;
    let capacity = capacity_of(pages, capacity, size)?;
    let transfer = transfer_of(pages, limit, block)?;
    let active = active_of(pages)?;
    Ok(Geometry {
        block,
        zones,
        size,
        capacity,
        transfer,
        active,
        open: zone_limit(pages.open_field()).min(active),
    })
}

/// Refuses a namespace that is write protected, which no host can write to now. A disk that is only read works on it,
/// as long as its mount has nothing to change.
pub fn check_writable(pages: &Pages) -> Result<(), IdentifyFault>
    ensures passed { OnOk result (first_failing (writing_checks pages.now) ≡ None) }
    ensures err { IfErr result (λ fault. first_failing (writing_checks pages.now) ≡ Some fault) }
{
    if pages.is_write_protected() {
        return Err(IdentifyFault::WriteProtected);
    }
    Ok(())
}
