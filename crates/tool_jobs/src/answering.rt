// The job of a tool, over the bytes of its file.

ghost use Rattle.std.specs.Prelude.{◌≡◌, IfErr, IfOk, OnOk};
ghost use Rattle.tool_jobs.specs.Asked.{TellsJob, TellsNoJob, TellsNoZones, TellsZones, all_well};

use crate::checking::answer_check;
use crate::entries::answer_entry;
use crate::fault::ToolFault;
use crate::informing::answer_info;
use crate::job::ToolJob;
use crate::picturing::{Picture, answer_picture};
use crate::planning::{FormatLine, answer_format, answer_plan};
use crate::showing::{ZonesForm, answer_zones};
use std::alloc::Global;
use std::io::{Read, Write};

/// Only a check may say that not all is well.
fn all_well(told: Result<(), ToolFault>) -> Result<bool, ToolFault>
    ensures { result ≡ all_well told }
{
    match told {
        Ok(()) => Ok(true),
        Err(fault) => Err(fault),
    }
}

/// Shows the zones of the drive in a file. A picture has live blocks, too.
fn answer_form<I: Read, W: Write>(
    alloc: Global,
    form: ZonesForm,
    bytes: &mut I,
    output: &mut W,
) -> Result<(), ToolFault>
    ensures ok { OnOk result (TellsZones form (I.remaining bytes.old) (W.contents output.old) (W.contents output.new)) }
    ensures err { IfErr result (λ fault. TellsNoZones form (I.remaining bytes.old) fault
        (W.contents output.old) (W.contents output.new)) }
{
    match form {
        ZonesForm::Svg => answer_picture(alloc, bytes, &Picture, output),
        form => answer_zones(alloc, bytes, &form, output),
    }
}

/// Does a job over the bytes of its file. It tells whether all is well: only a check may say no. A job without a file
/// reads none of the bytes.
pub fn answer_tool<I: Read, W: Write>(
    alloc: Global,
    job: &ToolJob,
    bytes: &mut I,
    output: &mut W,
) -> Result<bool, ToolFault>
    ensures ok { IfOk result (λ well. TellsJob job.now (I.remaining bytes.old) well
        (W.contents output.old) (W.contents output.new)) }
    ensures err { IfErr result (λ fault. TellsNoJob job.now (I.remaining bytes.old) fault
        (W.contents output.old) (W.contents output.new)) }
{
    match job {
        ToolJob::Check(job) => answer_check(alloc, job.blocks, bytes, &job.form, output),
        ToolJob::Info(job) => all_well(answer_info(alloc, bytes, &job.form, output)),
        ToolJob::Plan(job) => all_well(answer_plan(alloc, job, bytes, &job.form, output)),
        ToolJob::Format { bytes } => all_well(answer_format(alloc, *bytes, &FormatLine, output)),
        ToolJob::Zones(job) => all_well(answer_form(alloc, job.form, bytes, output)),
        ToolJob::Entry(words) => all_well(answer_entry(alloc, words, output)),
    }
}
