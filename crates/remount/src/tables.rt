ghost use Rattle.std.specs.Prelude.{◌≡◌, ◌<◌, ◌≤◌, ◌^◌, true, IfOk};
ghost use Rattle.std.specs.List.{AllByRecursion};
ghost use Rattle.drive_port.specs.Contents.{contents};
ghost use Rattle.drive_port.specs.Drive.{DriveState};
ghost use Rattle.drive_survey.specs.Known.{Knows};
ghost use Rattle.zone_choice.specs.Agreement.{Agrees, mounted};
ghost use Rattle.drive_array.specs.ZoneLogs.{drive_logs, sequences};
ghost use Rattle.zone_choice.specs.Roles.{fillings};
ghost use Rattle.remount.specs.Kept.{AreSane, AreShort, IsNotedOpen};
ghost use Rattle.remount.specs.Mount.{AreMountedRoles, IsRepaired};

pub(crate) mod batches;
pub(crate) mod places;
mod roles;

use drive_survey::{ReportedZone, Survey};
use places::place_records;
use roles::mounted_roles;
use std::alloc::{AllocError, Global};
use zone_choice::Tables;
use zone_states::Geometry;

/// The tables of a disk over a drive that was repaired: of the zones that are partly written the lower is the
/// host zone, and the other the next one; the next batch has the sequence `next`.
pub fn mounted_tables(
    alloc: Global,
    survey: &Survey,
    geometry: &Geometry,
    next: u64,
) -> Result<Tables, AllocError>
    // Done, the tables agree with a repaired drive, if all its sequences are below the next one.
    ensures agrees { IfOk result (λ tables. (drive : DriveState) → drive.geometry ≡ geometry.now
        → IsRepaired drive survey.now.given survey.now
        → AllByRecursion (λ sequence. sequence < next) (sequences (drive_logs drive)) → next ≤ 2 ^ 63
        → Agrees (mounted drive tables)) }
    // The zones to fill are partly written, with two free blocks. One that may be open was noted as open.
    ensures roles { IfOk result (λ tables. (drive : DriveState) → drive.geometry ≡ geometry.now
        → IsRepaired drive survey.now.given survey.now
        → AreMountedRoles geometry.now.capacity (contents drive.zones) tables.roles) }
    ensures noted { IfOk result (λ tables. AllByRecursion (λ filling. filling.may_open ≡ true
        → IsNotedOpen survey.now.zones.items filling.zone) (fillings tables.roles)) }
    // The next sequence is the given one, and the number given to the mount is kept.
    ensures next { IfOk result (λ tables. tables.next ≡ next) }
    ensures given { IfOk result (λ tables. tables.given ≡ survey.now.given) }
    // Whatever the Reads returned, its numbers are those of a disk.
    ensures sane { IfOk result (λ tables. AreShort geometry.now.capacity survey.now.zones.items → next ≤ 2 ^ 63
        → AreSane geometry.now tables) }
{
    let mut tables = place_records(alloc, survey, geometry)?;
    let roles = mounted_roles(alloc, &survey.zones, geometry.zones)?;
    tables.begin(roles, next);
    Ok(tables)
}

/// Whether no zone was noted with more blocks than it can have. So it is while each Read returned what the drive holds.
pub fn are_short(reported: &[ReportedZone], capacity: u32) -> bool
    ensures short { result ≡ true → AreShort capacity reported.now }
    ensures told { AreShort capacity reported.now → result ≡ true }
{
    for zone in 0..reported.len() {
        if capacity < reported[zone].blocks {
            return false;
        }
    }
    true
}
