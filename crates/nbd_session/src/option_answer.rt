ghost use Rattle.std.specs.Prelude.{◌≡◌, OnErr, OnOk};
ghost use Rattle.std.specs.Io.KnownBytes.{Appends};
ghost use Rattle.disk_files.specs.Output.{AppendsFront};
ghost use Rattle.nbd_session.specs.Session.{answer_bytes, option_answer};

use crate::output::send;
use disk_files::WriteFault;
use nbd_wire::{Export, OptionKind, ReplyKind, list_reply, short_reply};
use std::io::Write;

/// What is answered to an option.
#[derive(Clone, Copy, Debug, PartialEq, Eq)]
pub enum OptionAnswer {
    /// A reply without data.
    Short(ReplyKind),
    /// The list of exports.
    Exports,
    /// What there is to know of the export.
    ExportInfo,
    /// The same, as an EXPORT_NAME wants it.
    Name,
}

impl OptionAnswer {
    /// What is answered to an option whose data have this length.
    pub fn to(kind: Option<OptionKind>, length: u32) -> OptionAnswer
        ensures { result ≡ option_answer kind length }
    {
        match kind {
            None => OptionAnswer::Short(ReplyKind::Unsupported),
            Some(OptionKind::ExportName) => OptionAnswer::Name,
            Some(OptionKind::Abort) => OptionAnswer::Short(ReplyKind::Acknowledge),
            Some(OptionKind::ListExports) if length == 0 => OptionAnswer::Exports,
            Some(OptionKind::ListExports) => OptionAnswer::Short(ReplyKind::Invalid),
            Some(OptionKind::Info) => OptionAnswer::ExportInfo,
            Some(OptionKind::Go) => OptionAnswer::ExportInfo,
        }
    }
}

/// Sends the reply to an EXPORT_NAME.
fn send_name<W: Write>(writer: &mut W, export: &Export, no_zeroes: bool) -> Result<(), WriteFault>
    ensures ok { OnOk result (Appends (W.contents writer.old) (W.contents writer.new)
        (answer_bytes export.now no_zeroes 0 OptionAnswer.Name)) }
    ensures err { OnErr result (AppendsFront (W.contents writer.old) (W.contents writer.new)
        (answer_bytes export.now no_zeroes 0 OptionAnswer.Name)) }
{
    if no_zeroes {
        return send(writer, &export.short_name_reply());
    }
    send(writer, &export.name_reply())
}

/// Sends an answer to the option of this number.
pub fn send_answer<W: Write>(
    writer: &mut W,
    export: &Export,
    no_zeroes: bool,
    option: u32,
    answer: OptionAnswer,
) -> Result<(), WriteFault>
    ensures ok { OnOk result (Appends (W.contents writer.old) (W.contents writer.new)
        (answer_bytes export.now no_zeroes option answer)) }
    ensures err { OnErr result (AppendsFront (W.contents writer.old) (W.contents writer.new)
        (answer_bytes export.now no_zeroes option answer)) }
{
    match answer {
        OptionAnswer::Short(kind) => send(writer, &short_reply(option, kind)),
        OptionAnswer::Exports => send(writer, &list_reply(option)),
        OptionAnswer::ExportInfo => send(writer, &export.info_replies(option)),
        OptionAnswer::Name => send_name(writer, export, no_zeroes),
    }
}
