ghost use Rattle.std.specs.Prelude.{◌≡◌, ◌*◌, ◌∷◌, ◌++◌, [], OnErr, OnOk, length};
ghost use Rattle.std.specs.Io.KnownBytes.{Appends};
ghost use Rattle.hex.specs.Hex.{encode_lower};
ghost use Rattle.disk_files.specs.Output.{AppendsFront};
ghost use Rattle.disk_files.specs.RawLine.{raw_reply_text};

use crate::output::{WriteFault, write_out};
use std::io::Write;

/// How many bytes are encoded at a time.
const PIECE: usize = 2048;

/// Encodes bytes, in lower case, into twice as many.
fn encode(bytes: &[u8], digits: &mut [u8])
    requires { length digits.old ≡ 2 * length bytes.now }
    ensures { digits.new ≡ encode_lower bytes.now }
{
    hex::encode_to_slice(bytes, digits).unwrap();
}

/// The digits of a completion, in lower case, and the byte that follows them.
fn head(completion: &[u8; 16], follows: u8) -> [u8; 33]
    ensures { result ≡ encode_lower completion.now ++ follows ∷ [] }
{
    let mut head = [follows; 33];
    encode(completion, &mut head[..32]);
    head
}

/// Writes the digits of bytes, in lower case, piece by piece. After a fault a beginning of them is written.
fn write_digits<W: Write>(writer: &mut W, bytes: &[u8]) -> Result<(), WriteFault>
    ensures ok { OnOk result
        (Appends (W.contents writer.old) (W.contents writer.new) (encode_lower bytes.now)) }
    ensures err { OnErr result
        (AppendsFront (W.contents writer.old) (W.contents writer.new) (encode_lower bytes.now)) }
{
    let mut digits = [0; 2 * PIECE];
    let mut at = 0;
    while at < bytes.len() {
        let n = PIECE.min(bytes.len() - at);
        let piece = &mut digits[..2 * n];
        encode(&bytes[at..at + n], piece);
        write_out(writer, piece)?;
        at += n;
    }
    Ok(())
}

/// Writes the reply to a raw line: the completion and, where data came back, that data. It takes no memory,
/// however long the data is. After a fault a beginning of the reply is written.
pub fn write_raw_reply<W: Write>(
    writer: &mut W,
    completion: &[u8; 16],
    bytes: &[u8],
) -> Result<(), WriteFault>
    ensures ok { OnOk result (Appends (W.contents writer.old) (W.contents writer.new)
        (raw_reply_text completion.now bytes.now)) }
    ensures err { OnErr result (AppendsFront (W.contents writer.old) (W.contents writer.new)
        (raw_reply_text completion.now bytes.now)) }
{
    if bytes.is_empty() {
        return write_out(writer, &head(completion, b'\n'));
    }
    write_out(writer, &head(completion, b' '))?;
    write_digits(writer, bytes)?;
    write_out(writer, b"\n")
}
