// Plans of a drive, and drives that are planned.

ghost use Rattle.std.specs.Prelude.{◌≡◌, IfErr, IfOk, OnOk};
ghost use Rattle.write_plan.specs.Drives.{IsDriveFor};
ghost use Rattle.tool_jobs.specs.Plans.{HasNoDriveFor, HasNoPlan, HasNoShape, IsPlanFor, IsPlanOf};
ghost use Rattle.tool_jobs.specs.Plans.{IsPlannedShape, IsUnplanned};
ghost use Rattle.tool_jobs.specs.Telling.{TellsFound, TellsNothing};

use crate::fault::ToolFault;
use crate::form::{Form, as_line};
use crate::job::{PlanJob, PlannedDrive};
use crate::telling::tell;
use drive_port::Device;
use job_drives::saved_drive;
use std::alloc::{AllocError, Global};
use std::io::{Read, Write};
use write_plan::{
    Aim, PlanFault, Row, drive_for, format_words, plan, plan_json, plan_svg, plan_text,
};
use zone_states::Geometry;

/// The rows of a plan, and the shape of its drive.
#[derive(Drop)]
pub struct PlanRows {
    pub geometry: Geometry,
    pub rows: Vec<Row>,
}

/// How a plan is shown.
#[derive(Clone, Copy, Debug, PartialEq, Eq)]
pub enum PlanForm {
    /// A table.
    Table,
    /// One object.
    Json,
    /// A plot of the write amplification by the share, as SVG.
    Svg,
}

impl Form<PlanRows> for PlanForm {
    ghost use Rattle.std.specs.Prelude.{⊤};

    ghost shows = { λ _ _ _. ⊤ };

    /// There is no plan for a drive whose geometry is out of range, and no text.
    fn text(&self, alloc: Global, plan: &PlanRows) -> Result<String, AllocError> {
        if plan.geometry.check().is_err() {
            return Ok(String::new(alloc));
        }
        match self {
            PlanForm::Table => plan_text(alloc, &plan.geometry, &plan.rows),
            PlanForm::Json => as_line(plan_json(alloc, &plan.geometry, &plan.rows)?),
            PlanForm::Svg => plan_svg(alloc, &plan.geometry),
        }
    }
}

/// The words that make a drive, as a line.
#[derive(Clone, Copy, Debug, PartialEq, Eq)]
pub struct FormatLine;

impl Form<Geometry> for FormatLine {
    ghost use Rattle.std.specs.Prelude.{⊤};

    ghost shows = { λ _ _ _. ⊤ };

    fn text(&self, alloc: Global, geometry: &Geometry) -> Result<String, AllocError> {
        let words = format_words(alloc, geometry)?;
        format!(in alloc; "zonedisk format --image P {words}\n")
    }
}

/// The shape of the drive that a plan is for. The file is read if the drive is in it.
fn planned_shape<I: Read>(
    alloc: Global,
    drive: &PlannedDrive,
    bytes: &mut I,
) -> Result<Geometry, ToolFault>
    ensures ok { IfOk result (IsPlannedShape drive.now (I.remaining bytes.old)) }
    ensures err { IfErr result (HasNoShape drive.now (I.remaining bytes.old)) }
{
    match drive {
        PlannedDrive::Shape(geometry) => Ok(*geometry),
        PlannedDrive::Image(_) => Ok(saved_drive(alloc, bytes)?.geometry()),
    }
}

/// The plan of a drive of this shape.
pub fn plan_of(alloc: Global, geometry: Geometry, aim: Aim) -> Result<PlanRows, ToolFault>
    ensures ok { IfOk result (IsPlanOf geometry aim) }
    ensures err { IfErr result (IsUnplanned geometry aim) }
{
    match plan(alloc, &geometry, aim) {
        Ok(rows) => Ok(PlanRows { geometry, rows }),
        Err(PlanFault::OutOfMemory) => Err(ToolFault::Memory),
        Err(fault) => Err(ToolFault::Plan(fault)),
    }
}

/// The plan for a drive.
fn plan_for<I: Read>(
    alloc: Global,
    drive: &PlannedDrive,
    aim: Aim,
    bytes: &mut I,
) -> Result<PlanRows, ToolFault>
    ensures ok { IfOk result (IsPlanFor drive.now aim (I.remaining bytes.old)) }
    ensures err { IfErr result (HasNoPlan drive.now aim (I.remaining bytes.old)) }
{
    let geometry = planned_shape(alloc, drive, bytes)?;
    plan_of(alloc, geometry, aim)
}

/// Tells what numbers of logical blocks cost on a drive: the one that is given, or the one in a file.
pub fn answer_plan<I: Read, F: Form<PlanRows>, W: Write>(
    alloc: Global,
    job: &PlanJob,
    bytes: &mut I,
    form: &F,
    output: &mut W,
) -> Result<(), ToolFault>
    ensures ok { OnOk result (TellsFound (IsPlanFor job.now.drive job.now.aim (I.remaining bytes.old))
        (F.shows form.now) (W.contents output.old) (W.contents output.new)) }
    ensures err { IfErr result (λ fault. TellsNothing (HasNoPlan job.now.drive job.now.aim (I.remaining bytes.old))
        (IsPlanFor job.now.drive job.now.aim (I.remaining bytes.old)) (F.shows form.now) fault
        (W.contents output.old) (W.contents output.new)) }
{
    let plan = plan_for(alloc, &job.drive, job.aim, bytes)?;
    tell(alloc, form, &plan, output)
}

/// Tells which words make a drive for that many bytes.
pub fn answer_format<F: Form<Geometry>, W: Write>(
    alloc: Global,
    bytes: u64,
    form: &F,
    output: &mut W,
) -> Result<(), ToolFault>
    ensures ok { OnOk result (TellsFound (IsDriveFor bytes) (F.shows form.now)
        (W.contents output.old) (W.contents output.new)) }
    ensures err { IfErr result (λ fault. TellsNothing (HasNoDriveFor bytes) (IsDriveFor bytes) (F.shows form.now) fault
        (W.contents output.old) (W.contents output.new)) }
{
    let Some(geometry) = drive_for(bytes) else {
        return Err(ToolFault::Bytes);
    };
    tell(alloc, form, &geometry, output)
}
