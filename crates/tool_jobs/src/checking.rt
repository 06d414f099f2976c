// Checks of the drive in a file.

ghost use Rattle.std.specs.Prelude.{◌≡◌, IfErr, IfOk};
ghost use Rattle.drive_survey.specs.Scan.{IsInterruption};
ghost use Rattle.tool_jobs.specs.Checks.{AsksNone, EndsLook, FindsFaults, FindsMountable, IsInterrupted};
ghost use Rattle.tool_jobs.specs.Telling.{TellsFound, TellsNothing};

use crate::fault::ToolFault;
use crate::form::{Form, as_line};
use crate::telling::tell;
use drive_inspection::{Findings, check_drive};
use drive_port::Honest;
use drive_survey::MountFault;
use job_drives::restarted_drive;
use std::alloc::{AllocError, Global};
use std::io::{Read, Write};
use tool_forms::{findings_json, findings_text};
use zone_drive::Habit;

/// How the findings of a check are shown.
#[derive(Clone, Copy, Debug, PartialEq, Eq)]
pub enum CheckForm {
    /// A line for each fault.
    Lines,
    /// One object.
    Json,
}

impl Form<Findings> for CheckForm {
    ghost use Rattle.std.specs.Prelude.{⊤};

    ghost shows = { λ _ _ _. ⊤ };

    fn text(&self, alloc: Global, findings: &Findings) -> Result<String, AllocError> {
        match self {
            CheckForm::Lines => findings_text(alloc, findings),
            CheckForm::Json => as_line(findings_json(alloc, findings)?),
        }
    }
}

/// What an interruption of a check is to a tool.
pub fn interrupted(fault: MountFault) -> ToolFault
    ensures told { IsInterrupted fault result }
    ensures ends { EndsLook result }
{
    match fault {
        MountFault::OutOfMemory => ToolFault::Memory,
        MountFault::Failed => ToolFault::Failed,
        MountFault::Damaged => ToolFault::Damaged,
        _ => ToolFault::Stopped,
    }
}

/// All faults of the drive that is restarted from the bytes of a file.
fn find_faults<I: Read>(alloc: Global, blocks: u64, bytes: &mut I) -> Result<Findings, ToolFault>
    ensures ok { IfOk result (FindsFaults (I.remaining bytes.old) blocks) }
    ensures err { IfErr result (AsksNone (I.remaining bytes.old)) }
{
    let mut drive = restarted_drive(alloc, bytes, Habit::Lazy)?.drive;
    let checked = check_drive(alloc, &mut drive, blocks);
    drive.vouch();
    match checked {
        Ok(findings) => Ok(findings),
        Err(fault) => Err(interrupted(fault)),
    }
}

/// Tells all faults of the drive in a file, and whether a mount as `blocks` logical blocks would be done. The drive is
/// restarted first, as by a mount.
pub fn answer_check<I: Read, F: Form<Findings>, W: Write>(
    alloc: Global,
    blocks: u64,
    bytes: &mut I,
    form: &F,
    output: &mut W,
) -> Result<bool, ToolFault>
    ensures ok { IfOk result (λ mountable. TellsFound (FindsMountable (I.remaining bytes.old) blocks mountable)
        (F.shows form.now) (W.contents output.old) (W.contents output.new)) }
    ensures err { IfErr result (λ fault. TellsNothing (AsksNone (I.remaining bytes.old))
        (FindsFaults (I.remaining bytes.old) blocks) (F.shows form.now) fault
        (W.contents output.old) (W.contents output.new)) }
{
    let findings = find_faults(alloc, blocks, bytes)?;
    tell(alloc, form, &findings, output)?;
    Ok(findings.refusal.is_none())
}
