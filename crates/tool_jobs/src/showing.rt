// The zones of a drive, in other forms than all lines of a report.

ghost use Rattle.std.specs.Prelude.{◌≡◌, false, IfErr, IfOk, OnOk, length, string_bytes};
ghost use Rattle.tool_jobs.specs.Telling.{HoldsNone, TellsFound, TellsNothing};
ghost use Rattle.tool_jobs.specs.Zones.{IsSavedDrive, IsStateText, ShowsForm};

use crate::fault::ToolFault;
use crate::form::{Form, as_line};
use crate::telling::tell;
use drive_port::Device;
use job_drives::saved_drive;
use nvme_wire::{ReportingOptions, ZoneState};
use std::alloc::{AllocError, Global};
use std::io::{Read, Write};
use tool_forms::{brief_text, zones_json, zones_svg};
use zone_drive::Drive;
use zone_report::{ReportedZones, report_bytes, report_text};
use zone_states::Geometry;

/// How the zones of a drive are shown.
#[derive(Clone, Copy, Debug, PartialEq, Eq)]
pub enum ZonesForm {
    /// The lines of a report, of the zones in this state.
    Lines(ZoneState),
    /// A line for each state.
    Brief,
    /// One object, with the names of nvme-cli: all zones, or those in a state.
    Json(Option<ZoneState>),
    /// A picture, as SVG, with the live blocks.
    Svg,
}

/// The lines of a report of the zones in a state.
fn state_lines<Z: ReportedZones>(
    alloc: Global,
    zones: &Z,
    geometry: Geometry,
    state: ZoneState,
) -> Result<String, AllocError>
    requires { length (Z.zones zones.now) ≡ geometry.zones }
    ensures { IfOk result (λ text. IsStateText geometry (Z.zones zones.now) state (string_bytes text)) }
{
    let dwords = 16 * (geometry.zones as u64 + 1);
    let options = ReportingOptions::InState(state);
    let Ok(report) = report_bytes(alloc, zones, geometry, 0, options, false, dwords) else {
        return Err(AllocError);
    };
    report_text(alloc, &report).or(Err(AllocError))
}

/// A picture of zones, with these numbers of live blocks. There is none where the geometry is out of range.
fn svg_of<Z: ReportedZones>(
    alloc: Global,
    zones: &Z,
    geometry: Geometry,
    live: &[u32],
) -> Result<String, AllocError>
    requires { length (Z.zones zones.now) ≡ geometry.zones }
{
    if geometry.check().is_err() {
        return Ok(String::new(alloc));
    }
    zones_svg(alloc, zones, &geometry, live)
}

/// The text of zones in a form. A picture shows the live blocks where their numbers are given.
pub fn zones_text<Z: ReportedZones>(
    alloc: Global,
    form: ZonesForm,
    zones: &Z,
    geometry: Geometry,
    live: &[u32],
) -> Result<String, AllocError>
    requires { length (Z.zones zones.now) ≡ geometry.zones }
    ensures { IfOk result (λ text. ShowsForm form geometry (Z.zones zones.now) (string_bytes text)) }
{
    match form {
        ZonesForm::Lines(state) => state_lines(alloc, zones, geometry, state),
        ZonesForm::Brief => brief_text(alloc, zones, geometry.zones),
        ZonesForm::Json(state) => as_line(zones_json(alloc, zones, geometry, state)?),
        ZonesForm::Svg => svg_of(alloc, zones, geometry, live),
    }
}

impl Form<Drive> for ZonesForm {
    ghost use Rattle.tool_jobs.specs.Zones.{ShowsZones};

    ghost shows = { ShowsZones };

    fn text(&self, alloc: Global, drive: &Drive) -> Result<String, AllocError> {
        zones_text(alloc, *self, drive, drive.geometry(), &[])
    }
}

/// Shows the drive in a file, as it was saved.
pub fn answer_zones<I: Read, F: Form<Drive>, W: Write>(
    alloc: Global,
    bytes: &mut I,
    form: &F,
    output: &mut W,
) -> Result<(), ToolFault>
    ensures ok { OnOk result (TellsFound (IsSavedDrive (I.remaining bytes.old)) (F.shows form.now)
        (W.contents output.old) (W.contents output.new)) }
    ensures err { IfErr result (λ fault. TellsNothing (HoldsNone (I.remaining bytes.old))
        (IsSavedDrive (I.remaining bytes.old)) (F.shows form.now) fault
        (W.contents output.old) (W.contents output.new)) }
{
    let drive = saved_drive(alloc, bytes)?;
    tell(alloc, form, &drive, output)
}
