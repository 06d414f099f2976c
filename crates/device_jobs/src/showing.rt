// The zones of a drive, in other forms than the lines of its report.

ghost use Rattle.std.specs.Prelude.{◌≡◌, IfErr, IfOk, IsTrue, OnErr, OnOk, length};
ghost use Rattle.drive_survey.specs.Reported.{KeepsZones, ReportsZones};
ghost use Rattle.tool_jobs.specs.Checks.{EndsLook};
ghost use Rattle.tool_jobs.specs.Pictures.{LooksNone};
ghost use Rattle.tool_jobs.specs.Telling.{TellsFound, TellsNothing};
ghost use Rattle.tool_jobs.specs.declared.showing.ZonesForm.TheVariants.{Svg};
ghost use Rattle.device_jobs.specs.Shown.{IsLiveAnyway, IsLiveFor, IsShownAnyway, IsShownDrive, IsUnshown};
ghost use Rattle.device_jobs.specs.Shown.{IsUnshownAnyway, ShowsDrive};

use drive_port::{Device, Geometry};
use drive_survey::{ReportedZone, report_zones};
use std::alloc::{AllocError, Global};
use std::io::Write;
use tool_jobs::{Form, ToolFault, ZonesForm, find_live, interrupted, tell, zones_text};
use zone_report::{ReportedZones, ZoneStatus};

/// Zones as a report showed them.
#[derive(Drop)]
struct Seen<'a> {
    zones: &'a [ReportedZone],
}

impl<'a> ReportedZones for Seen<'a> {
    ghost use Rattle.std.specs.Prelude.{map};
    ghost use Rattle.device_jobs.specs.Shown.{zone_like};

    ghost zones = { λ s. map zone_like s.zones.now };

    fn status(&self, number: u32) -> ZoneStatus {
        let zone = self.zones[number as usize];
        ZoneStatus {
            state: zone.state,
            written: zone.blocks,
        }
    }
}

/// A drive whose zones are shown.
#[derive(Drop)]
pub struct ShownDrive {
    pub geometry: Geometry,
    /// As a report showed them. A Full zone counts as written in full, since a report does not say more of it.
    pub zones: Vec<ReportedZone>,
    /// How many blocks of each zone are live, and have data. Empty if they were not asked for, or if the drive cannot
    /// be mounted.
    pub live: Vec<u32>,
}

/// How many live blocks with data each zone has, if a form shows them.
fn live_for<D: Device>(
    alloc: Global,
    form: ZonesForm,
    device: &mut D,
) -> Result<Vec<u32>, ToolFault>
    ensures ok { IsTrue (D.drive device.new).clean
        → IfOk result (λ live. IsLiveFor form (D.drive device.old) (D.drive device.new) live.items) }
    ensures err { IsTrue (D.drive device.new).clean → IfErr result (LooksNone (D.drive device.new)) }
    // Whatever the Reads returned, only a picture has live blocks, and only a look for them can fail.
    ensures none { IfOk result (λ live. IsLiveAnyway form live.items) }
    ensures kinds { IfErr result EndsLook }
    ensures drawn { OnErr result (form ≡ Svg) }
    ensures kept { KeepsZones (D.drive device.old) (D.drive device.new) }
{
    let _geometry = device.geometry();
    match form {
        ZonesForm::Svg => find_live(alloc, device),
        _ => Ok(Vec::new(alloc)),
    }
}

/// The zones of a drive as a report shows them. No block is read.
fn zones_reported<D: Device>(alloc: Global, device: &mut D) -> Result<Vec<ReportedZone>, ToolFault>
    ensures ok { IfOk result (λ zones. ReportsZones (D.drive device.old) zones.items (D.drive device.new)) }
    ensures err { IfErr result (IsUnshown (D.drive device.old) (D.drive device.new)) }
    ensures kept { KeepsZones (D.drive device.old) (D.drive device.new) }
{
    let geometry = device.geometry();
    let Ok(()) = geometry.check() else {
        return Err(ToolFault::Stopped);
    };
    match report_zones(alloc, device) {
        Ok(zones) => Ok(zones),
        Err(fault) => Err(interrupted(fault)),
    }
}

/// The zones of a drive as a report shows them, with their live blocks if the form shows these.
fn find_shown<D: Device>(
    alloc: Global,
    form: ZonesForm,
    device: &mut D,
) -> Result<ShownDrive, ToolFault>
    ensures ok { IsTrue (D.drive device.new).clean
        → IfOk result (IsShownDrive form (D.drive device.old) (D.drive device.new)) }
    ensures err { IsTrue (D.drive device.new).clean
        → IfErr result (IsUnshown (D.drive device.old) (D.drive device.new)) }
    ensures reported { IfOk result (IsShownAnyway form (D.drive device.old)) }
    ensures kinds { IfErr result (IsUnshownAnyway form (D.drive device.old) (D.drive device.new)) }
    ensures kept { KeepsZones (D.drive device.old) (D.drive device.new) }
{
    let geometry = device.geometry();
    let zones = zones_reported(alloc, device)?;
    let live = live_for(alloc, form, device)?;
    Ok(ShownDrive {
        geometry,
        zones,
        live,
    })
}

impl Form<ShownDrive> for ZonesForm {
    ghost use Rattle.device_jobs.specs.Shown.{ShowsDrive};

    ghost shows = { ShowsDrive };

    /// A drive has as many zones as its geometry says.
    fn text(&self, alloc: Global, shown: &ShownDrive) -> Result<String, AllocError> {
        if shown.zones.len() as u64 != u64::from(shown.geometry.zones) {
            return Err(AllocError);
        }
        let seen = Seen {
            zones: &shown.zones,
        };
        zones_text(alloc, *self, &seen, shown.geometry, &shown.live)
    }
}

/// Shows the zones of a drive, in another form than the lines of its report. No zone is changed, but that the
/// controller may close some.
pub fn show_zones<D: Device, W: Write>(
    alloc: Global,
    form: ZonesForm,
    device: &mut D,
    output: &mut W,
) -> Result<(), ToolFault>
    // While the drive is clean, a picture shows its live blocks. Why nothing is shown has its cause.
    ensures ok { IsTrue (D.drive device.new).clean → OnOk result (TellsFound
        (IsShownDrive form (D.drive device.old) (D.drive device.new))
        (ShowsDrive form) (W.contents output.old) (W.contents output.new)) }
    ensures err { IsTrue (D.drive device.new).clean → IfErr result (λ fault. TellsNothing
        (IsUnshown (D.drive device.old) (D.drive device.new))
        (IsShownDrive form (D.drive device.old) (D.drive device.new)) (ShowsDrive form) fault
        (W.contents output.old) (W.contents output.new)) }
    // Whatever the Reads returned, the zones are shown as a report showed them.
    ensures reported { OnOk result (TellsFound (IsShownAnyway form (D.drive device.old))
        (ShowsDrive form) (W.contents output.old) (W.contents output.new)) }
    ensures kinds { IfErr result (λ fault. TellsNothing
        (IsUnshownAnyway form (D.drive device.old) (D.drive device.new))
        (IsShownAnyway form (D.drive device.old)) (ShowsDrive form) fault
        (W.contents output.old) (W.contents output.new)) }
    ensures kept { KeepsZones (D.drive device.old) (D.drive device.new) }
{
    let shown = find_shown(alloc, form, device)?;
    tell(alloc, &form, &shown, output)
}
