ghost use Rattle.std.specs.Prelude.{◌≡◌, length};

use crate::zone_states_named::{STATES, count_zones, is_in};
use nvme_wire::ZoneState;
use std::alloc::{AllocError, Global};
use zone_report::{ReportedZones, state_text};

/// Adds a run of zones.
fn write_run(text: &mut String, first: u32, end: u32) -> Result<(), AllocError> {
    let last = end.saturating_sub(1);
    if first == last {
        return write!(text, " {first}");
    }
    write!(text, " {first}-{last}")
}

/// Adds the runs of zones that are in a state.
fn write_runs<Z: ReportedZones>(
    text: &mut String,
    zones: &Z,
    count: u32,
    state: ZoneState,
) -> Result<(), AllocError>
    requires { length (Z.zones zones.now) ≡ count }
{
    let mut began = None;
    for number in 0..count {
        let is_there = is_in(state, zones.status(number).state);
        match began {
            None if is_there => began = Some(number),
            Some(first) if !is_there => {
                write_run(text, first, number)?;
                began = None;
            }
            _ => {}
        }
    }
    if let Some(first) = began {
        write_run(text, first, count)?;
    }
    Ok(())
}

/// A line for each state in which a zone is: how many zones are, and which, as numbers and ranges of numbers. First a
/// line with the number of all zones.
pub fn brief_text<Z: ReportedZones>(
    alloc: Global,
    zones: &Z,
    count: u32,
) -> Result<String, AllocError>
    requires { length (Z.zones zones.now) ≡ count }
{
    let mut text = format!(in alloc; "zones {count}\n")?;
    for state in STATES {
        let found = count_zones(zones, count, state);
        if found == 0 {
            continue;
        }
        let name = state_text(state);
        write!(text, "state {name} zones {found} at")?;
        write_runs(&mut text, zones, count, state)?;
        text.push('\n')?;
    }
    Ok(text)
}
