//! The zones of a drive as a picture, drawn as SVG.

ghost use Rattle.std.specs.Prelude.{◌≡◌, ◌≤◌, length};
ghost use Rattle.zone_states.specs.Geometry.{IsInRange};

use crate::zone_states_named::{STATES, count_zones, is_in};
use nvme_wire::ZoneState;
use std::alloc::{AllocError, Global};
use zone_report::{ReportedZones, state_text};
use zone_states::Geometry;

/// How large the cells are, and how many are in a row of 1,024 units.
#[derive(Clone, Copy)]
struct Grid {
    cell: u64,
    columns: u32,
    ghost small: { cell ≤ 64 },
    ghost some: { 1 ≤ columns },
}

/// Where the cells begin, and how far the lines above them are apart.
const TOP: u64 = 210;

const LINE: u64 = 22;

/// The largest cells with which the zones fit in a square.
fn grid_of(zones: u32) -> Grid {
    if zones <= 16 * 16 {
        return Grid {
            cell: 64,
            columns: 16,
        };
    }
    if zones <= 64 * 64 {
        return Grid {
            cell: 16,
            columns: 64,
        };
    }
    Grid {
        cell: 4,
        columns: 256,
    }
}

/// How a state is drawn: without colours the states are told apart by how dark they are, and by lines.
fn shade(state: ZoneState) -> &'static str {
    match state {
        ZoneState::Empty => "#ffffff",
        ZoneState::ImplicitlyOpened => "#f7a35c",
        ZoneState::ExplicitlyOpened => "#d3540f",
        ZoneState::Closed => "#d6ecfa",
        ZoneState::ReadOnly => "url(#lines)",
        ZoneState::Full => "#0b2a52",
        ZoneState::Offline => "url(#net)",
    }
}

/// Adds the lines by which two of the states are drawn.
fn write_patterns(text: &mut String) -> Result<(), AllocError> {
    text.push_str(
        "<defs><pattern id=\"lines\" width=\"4\" height=\"4\" patternUnits=\"userSpaceOnUse\">",
    )?;
    text.push_str(
        "<path d=\"M0 0h4v4h-4z\" fill=\"#fff\"/><path d=\"M0 1h4\" stroke=\"#333\"/></pattern>\n",
    )?;
    text.push_str("<pattern id=\"net\" width=\"4\" height=\"4\" patternUnits=\"userSpaceOnUse\">")?;
    text.push_str(
        "<path d=\"M0 0h4v4h-4z\" fill=\"#fff\"/><path d=\"M0 1h4M1 0v4\" stroke=\"#000\"/>",
    )?;
    text.push_str("</pattern></defs>\n")
}

/// A number of a zone's blocks, and its capacity.
#[derive(Clone, Copy)]
struct Share {
    blocks: u32,
    capacity: u32,
    ghost some: { 1 ≤ capacity },
}

/// The part of a zone's cell that is as high as a share of its blocks, from the bottom on. It is as wide as the cell,
/// or a bar within it.
#[derive(Clone, Copy)]
struct Part {
    share: Share,
    is_bar: bool,
}

/// Adds the outline of a part of a zone's cell.
fn write_part(text: &mut String, grid: Grid, number: u32, part: Part) -> Result<(), AllocError> {
    let Part { share, is_bar } = part;
    let Share {
        blocks,
        capacity,
        ..
    } = share;
    let (inset, wide) = if is_bar {
        (grid.cell * 3 / 8, grid.cell / 4)
    } else {
        (0, grid.cell)
    };
    let x = u64::from(number % grid.columns) * grid.cell + inset;
    let bottom = 10 * (TOP + (u64::from(number / grid.columns) + 1) * grid.cell);
    let high = 10 * grid.cell * u64::from(blocks.min(capacity)) / u64::from(capacity);
    let top = bottom - high;
    write!(
        text,
        "M{x} {}.{}h{wide}v{}.{}h-{wide}z",
        top / 10,
        top % 10,
        high / 10,
        high % 10
    )
}

/// Adds the cells of the zones in a state, whole and pale.
fn write_cells<Z: ReportedZones>(
    text: &mut String,
    zones: &Z,
    geometry: &Geometry,
    state: ZoneState,
) -> Result<(), AllocError>
    requires { length (Z.zones zones.now) ≡ geometry.now.zones }
{
    let grid = grid_of(geometry.zones);
    let whole = Part {
        share: Share {
            blocks: 1,
            capacity: 1,
        },
        is_bar: false,
    };
    for number in 0..geometry.zones {
        if is_in(state, zones.status(number).state) {
            write_part(text, grid, number, whole)?;
        }
    }
    Ok(())
}

/// Adds the written part of each zone in a state.
fn write_written<Z: ReportedZones>(
    text: &mut String,
    zones: &Z,
    geometry: &Geometry,
    state: ZoneState,
) -> Result<(), AllocError>
    requires count { length (Z.zones zones.now) ≡ geometry.now.zones }
    requires in_range { IsInRange geometry.now }
{
    let grid = grid_of(geometry.zones);
    for number in 0..geometry.zones {
        let zone = zones.status(number);
        if is_in(state, zone.state) {
            let share = Share {
                blocks: zone.written,
                capacity: geometry.capacity,
            };
            let part = Part {
                share,
                is_bar: false,
            };
            write_part(text, grid, number, part)?;
        }
    }
    Ok(())
}

/// Adds the line of the key that says what the bars are.
fn write_bar_key(text: &mut String) -> Result<(), AllocError> {
    text.push_str(
        "<rect x=\"17\" y=\"190\" width=\"8\" height=\"14\" stroke=\"#000\" fill=\"#fff\"/>\n",
    )?;
    text.push_str("<text x=\"42\" y=\"190\" dy=\"12\">live blocks with data</text>\n")
}

/// Adds a bar for the live blocks of each zone of which they are told.
fn write_live(text: &mut String, geometry: &Geometry, live: &[u32]) -> Result<(), AllocError>
    requires { IsInRange geometry.now }
{
    let grid = grid_of(geometry.zones);
    write_bar_key(text)?;
    text.push_str("<path fill=\"#fff\" stroke=\"#000\" stroke-width=\".5\" d=\"")?;
    for (number, blocks) in live.iter().take(65536).enumerate() {
        let share = Share {
            blocks: *blocks,
            capacity: geometry.capacity,
        };
        if *blocks != 0 {
            let part = Part {
                share,
                is_bar: true,
            };
            write_part(text, grid, number as u32, part)?;
        }
    }
    text.push_str("\"/>\n")
}

/// Adds the zones in a state: their cells, pale, and how far they are written.
fn write_state<Z: ReportedZones>(
    text: &mut String,
    zones: &Z,
    geometry: &Geometry,
    state: ZoneState,
) -> Result<(), AllocError>
    requires count { length (Z.zones zones.now) ≡ geometry.now.zones }
    requires in_range { IsInRange geometry.now }
{
    let shade = shade(state);
    write!(
        text,
        "<path fill=\"{shade}\" fill-opacity=\".25\" stroke=\"#777\" stroke-width=\".5\" d=\""
    )?;
    write_cells(text, zones, geometry, state)?;
    write!(text, "\"/>\n<path fill=\"{shade}\" d=\"")?;
    write_written(text, zones, geometry, state)?;
    text.push_str("\"/>\n")
}

/// Adds a line of the key: a state, and how many zones are in it.
fn write_key(text: &mut String, state: ZoneState, found: u32, y: u64) -> Result<(), AllocError> {
    let shade = shade(state);
    let name = state_text(state);
    writeln!(
        text,
        "<rect x=\"8\" y=\"{y}\" width=\"26\" height=\"14\" stroke=\"#777\" fill=\"{shade}\"/>"
    )?;
    writeln!(
        text,
        "<text x=\"42\" y=\"{y}\" dy=\"12\">{name}: {found}</text>"
    )
}

/// Adds the lines above the cells.
fn write_head<Z: ReportedZones>(
    text: &mut String,
    zones: &Z,
    geometry: &Geometry,
) -> Result<(), AllocError>
    requires { length (Z.zones zones.now) ≡ geometry.now.zones }
{
    let Geometry {
        zones: count,
        capacity,
        block,
        ..
    } = *geometry;
    write!(
        text,
        "<text x=\"8\" y=\"20\">{count} zones of {capacity} blocks of {block} bytes;"
    )?;
    text.push_str(" each cell is filled as far as its zone is written</text>\n")?;
    for (line, state) in STATES.iter().enumerate() {
        let found = count_zones(zones, count, *state);
        write_key(text, *state, found, 36 + LINE * line as u64)?;
    }
    Ok(())
}

/// The zones of a drive as an SVG picture: a cell for each, row by row. It has the shade of the zone's state, pale, and
/// in full as far as the zone is written. A white bar within it shows how many blocks are live, where `live` has a
/// number for the zone.
pub fn zones_svg<Z: ReportedZones>(
    alloc: Global,
    zones: &Z,
    geometry: &Geometry,
    live: &[u32],
) -> Result<String, AllocError>
    requires count { length (Z.zones zones.now) ≡ geometry.now.zones }
    requires in_range { IsInRange geometry.now }
{
    let grid = grid_of(geometry.zones);
    let rows = u64::from(geometry.zones.div_ceil(grid.columns));
    let high = TOP + rows * grid.cell + 4;
    let mut text = String::new(alloc);
    write!(
        text,
        "<svg xmlns=\"http://www.w3.org/2000/svg\" viewBox=\"-2 0 1028 {high}\""
    )?;
    text.push_str(" font-family=\"sans-serif\" font-size=\"14\">\n")?;
    writeln!(
        text,
        "<rect x=\"-2\" width=\"1028\" height=\"{high}\" fill=\"#fff\"/>"
    )?;
    write_patterns(&mut text)?;
    write_head(&mut text, zones, geometry)?;
    for state in STATES {
        write_state(&mut text, zones, geometry, state)?;
    }
    if !live.is_empty() {
        write_live(&mut text, geometry, live)?;
    }
    text.push_str("</svg>\n")?;
    Ok(text)
}
