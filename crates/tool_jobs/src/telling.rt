ghost use Rattle.std.specs.Prelude.{IfErr, OnOk};
ghost use Rattle.tool_jobs.specs.Telling.{IsUnwrittenText, TellsText};

use crate::fault::ToolFault;
use crate::form::Form;
use disk_files::write_out;
use std::alloc::Global;
use std::io::Write;

/// Writes the text that a form gives of a value.
pub fn tell<T, F: Form<T>, W: Write>(
    alloc: Global,
    form: &F,
    shown: &T,
    output: &mut W,
) -> Result<(), ToolFault>
    ensures ok { OnOk result (TellsText (F.shows form.now shown.now) (W.contents output.old) (W.contents output.new)) }
    ensures err { IfErr result (λ fault. IsUnwrittenText (F.shows form.now shown.now) fault
        (W.contents output.old) (W.contents output.new)) }
{
    let text = form.text(alloc, shown)?;
    write_out(output, text.as_bytes())?;
    Ok(())
}
