//! What is shown of a drive.

ghost use Rattle.zone_states.specs.Geometry.{IsInRange};

use passthrough::{Identity, Pages, geometry_of};
use std::alloc::{AllocError, Global};
use zone_states::Geometry;

/// The geometry of a drive, and by what people know it.
fn show_drive(
    alloc: Global,
    pages: &Pages,
    geometry: &Geometry,
    out: &mut String,
) -> Result<(), AllocError>
    requires { IsInRange geometry.now }
{
    let Geometry {
        block,
        zones,
        size,
        capacity,
        transfer,
        active,
        open,
    } = *geometry;
    write!(out, "  block {block}, zones {zones}, size {size}, ")?;
    write!(out, "capacity {capacity}, transfer {transfer}, ")?;
    writeln!(out, "active {active}, open {open}")?;
    let identity = Identity::of(alloc, pages, geometry)?;
    write!(out, "  model [{}], ", identity.model)?;
    write!(out, "serial [{}], ", identity.serial)?;
    let cache = if pages.has_write_cache() {
        "with"
    } else {
        "without"
    };
    writeln!(out, "bytes {}, {cache} a write cache", identity.bytes)
}

/// Shows the geometry of a drive, or why there is none.
pub fn show_shape(
    alloc: Global,
    pages: &Pages,
    capacity: u64,
    limit: u64,
    out: &mut String,
) -> Result<(), AllocError> {
    match geometry_of(pages, capacity, limit) {
        Ok(geometry) => show_drive(alloc, pages, &geometry, out),
        Err(fault) => writeln!(out, "  {fault}"),
    }
}
