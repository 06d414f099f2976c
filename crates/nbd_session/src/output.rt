ghost use Rattle.std.specs.Prelude.{◌++◌, OnErr, OnOk};
ghost use Rattle.std.specs.Io.KnownBytes.{Appends};
ghost use Rattle.disk_files.specs.Output.{AppendsFront};

use disk_files::{WriteFault, write_out};
use std::io::Write;

/// Writes the head of a reply and its data.
pub fn send_both<W: Write>(writer: &mut W, head: &[u8], bytes: &[u8]) -> Result<(), WriteFault>
    ensures ok { OnOk result (Appends (W.contents writer.old) (W.contents writer.new) (head.now ++ bytes.now)) }
    ensures err { OnErr result (AppendsFront (W.contents writer.old) (W.contents writer.new) (head.now ++ bytes.now)) }
{
    write_out(writer, head)?;
    write_out(writer, bytes)?;
    Ok(())
}

/// Writes a reply without data, and lets the writer pass it on. If only that fails, the reply is written, and the fault
/// comes from the next write.
pub fn send<W: Write>(writer: &mut W, bytes: &[u8]) -> Result<(), WriteFault>
    ensures ok { OnOk result (Appends (W.contents writer.old) (W.contents writer.new) bytes.now) }
    ensures err { OnErr result (AppendsFront (W.contents writer.old) (W.contents writer.new) bytes.now) }
{
    write_out(writer, bytes)?;
    let _ = writer.flush();
    Ok(())
}
