// What the drive in a file holds, and what a mount of it takes.

ghost use Rattle.std.specs.Prelude.{IfErr, IfOk, OnOk};
ghost use Rattle.tool_jobs.specs.Checks.{AsksNone};
ghost use Rattle.tool_jobs.specs.Infos.{FindsInfo};
ghost use Rattle.tool_jobs.specs.Telling.{TellsFound, TellsNothing};

use crate::checking::interrupted;
use crate::fault::ToolFault;
use crate::form::{Form, as_line};
use crate::telling::tell;
use drive_inspection::{DriveInfo, InspectedDrive, blocks_taken, inspect_and_rehearse};
use drive_port::{Device, Honest};
use job_drives::restarted_drive;
use std::alloc::{AllocError, Global};
use std::io::{Read, Write};
use tool_forms::{info_json, info_text, unmounted_json, unmounted_text};
use zone_drive::Habit;

/// How what is found of a drive is shown.
#[derive(Clone, Copy, Debug, PartialEq, Eq)]
pub enum InfoForm {
    /// A line for each number.
    Lines,
    /// One object.
    Json,
}

impl Form<InspectedDrive> for InfoForm {
    ghost use Rattle.std.specs.Prelude.{⊤};

    ghost shows = { λ _ _ _. ⊤ };

    fn text(&self, alloc: Global, found: &InspectedDrive) -> Result<String, AllocError> {
        match self {
            InfoForm::Lines => info_text(alloc, found),
            InfoForm::Json => as_line(info_json(alloc, found)?),
        }
    }
}

impl Form<DriveInfo> for InfoForm {
    ghost use Rattle.std.specs.Prelude.{⊤};

    ghost shows = { λ _ _ _. ⊤ };

    fn text(&self, alloc: Global, found: &DriveInfo) -> Result<String, AllocError> {
        match self {
            InfoForm::Lines => unmounted_text(alloc, found),
            InfoForm::Json => as_line(unmounted_json(alloc, found)?),
        }
    }
}

/// What the drive holds that is restarted from the bytes of a file.
fn find_info<I: Read>(alloc: Global, bytes: &mut I) -> Result<InspectedDrive, ToolFault>
    ensures ok { IfOk result (FindsInfo (I.remaining bytes.old)) }
    ensures err { IfErr result (AsksNone (I.remaining bytes.old)) }
{
    let drive = restarted_drive(alloc, bytes, Habit::Lazy)?.drive;
    let given = blocks_taken(&drive.geometry());
    let (drive, inspected) = inspect_and_rehearse(alloc, drive, given);
    drive.vouch();
    match inspected {
        Ok(found) => Ok(found),
        Err(fault) => Err(interrupted(fault)),
    }
}

/// Tells what the drive in a file holds, and what a mount of it takes. The drive is restarted first, as by a mount. If
/// it does not say how many logical blocks it has, it is taken to have as many as it can serve.
pub fn answer_info<I: Read, F: Form<InspectedDrive>, W: Write>(
    alloc: Global,
    bytes: &mut I,
    form: &F,
    output: &mut W,
) -> Result<(), ToolFault>
    ensures ok { OnOk result (TellsFound (FindsInfo (I.remaining bytes.old)) (F.shows form.now)
        (W.contents output.old) (W.contents output.new)) }
    ensures err { IfErr result (λ fault. TellsNothing (AsksNone (I.remaining bytes.old))
        (FindsInfo (I.remaining bytes.old)) (F.shows form.now) fault
        (W.contents output.old) (W.contents output.new)) }
{
    let found = find_info(alloc, bytes)?;
    tell(alloc, form, &found, output)
}
