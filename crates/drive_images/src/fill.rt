ghost use Rattle.std.specs.Prelude.{◌≡◌, ◌<◌, IfErr, IfSome, OnOk, length};
ghost use Rattle.std.specs.Io.KnownBytes.{Consumes};
ghost use Rattle.drive_images.specs.Reading.{TellsFirst, short_of};

use crate::fault::ImageFault;
use std::io::Read;

/// Reads until the buffer is full. It is `Short` if the reader ends before.
pub fn fill<R: Read>(reader: &mut R, buffer: &mut [u8]) -> Result<(), ImageFault>
    ensures ok { OnOk result
        (Consumes (R.remaining reader.old) (R.remaining reader.new) buffer.new) }
    ensures err { IfErr result (λ fault.
        IfSome (R.remaining reader.old)
        (λ bytes. TellsFirst (short_of (length buffer.old) bytes) fault)) }
{
    if disk_files::fill(reader, buffer)? < buffer.len() {
        return Err(ImageFault::Short);
    }
    Ok(())
}
