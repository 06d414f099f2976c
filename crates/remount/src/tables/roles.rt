ghost use Rattle.std.specs.Prelude.{◌≡◌, IfOk, slice_get};
ghost use Rattle.remount.specs.Mounting.{FindsNext, FindsPartly, MountsRoles, empties, is_empty_reported};

use drive_survey::{ReportedZone, is_partly_written};
use nvme_wire::ZoneState;
use std::alloc::{AllocError, Global};
use zone_choice::{Filling, Roles};
use zone_states::is_open;

/// Whether a zone was reported Empty.
fn is_empty_at(reported: &[ReportedZone], zone: u32) -> bool
    ensures { result ≡ is_empty_reported (slice_get reported.now zone) }
{
    match reported.get(zone as usize) {
        Some(found) => found.state == ZoneState::Empty,
        None => false,
    }
}

/// The zones that were reported Empty, of the first `zones` ones.
fn empty_marks(
    alloc: Global,
    reported: &[ReportedZone],
    zones: u32,
) -> Result<Vec<bool>, AllocError>
    ensures { IfOk result (λ marks. marks.items ≡ empties reported.now zones) }
{
    let mut marks = Vec::new(alloc);
    for zone in 0..zones {
        marks.push(is_empty_at(reported, zone))?;
    }
    Ok(marks)
}

/// The lowest zone from `from` on, and before `end`, that was reported partly written.
fn partly_from(reported: &[ReportedZone], from: u32, end: u32) -> Option<Filling>
    ensures { FindsPartly reported.now from end result }
{
    for zone in from..end {
        let Some(found) = reported.get(zone as usize) else {
            return None;
        };
        if is_partly_written(*found) {
            return Some(Filling {
                zone,
                written: found.blocks,
                may_open: is_open(found.state),
            });
        }
    }
    None
}

/// The next partly written zone after `first`, if there is a `first`.
fn partly_after(reported: &[ReportedZone], first: Option<Filling>, end: u32) -> Option<Filling>
    requires { FindsPartly reported.now 0 end first }
    ensures { FindsNext reported.now end first result }
{
    let first = first?;
    partly_from(reported, first.zone + 1, end)
}

/// The roles of the zones, by their report. Of two zones that are partly written the lower one is
/// the host zone, and the other the next zone.
pub(crate) fn mounted_roles(
    alloc: Global,
    reported: &[ReportedZone],
    zones: u32,
) -> Result<Roles, AllocError>
    ensures { IfOk result (MountsRoles reported.now zones) }
{
    let empty = empty_marks(alloc, reported, zones)?;
    let host = partly_from(reported, 0, zones);
    let next = partly_after(reported, host, zones);
    let roles = Roles::mounted(alloc, empty, host, next)?;
    Ok(roles)
}
