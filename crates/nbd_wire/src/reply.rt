ghost use Rattle.std.specs.Prelude.{◌≡◌};
ghost use Rattle.nbd_wire.specs.Transmission.{simple_reply_bytes};

use crate::error_code::ErrorCode;
use byteorder::{BigEndian, ByteOrder};

/// The magic number that a simple reply begins with.
const SIMPLE_REPLY_MAGIC: u32 = 0x6744_6698;

/// The head of the reply to the request of this cookie, which the data of a READ that is done follow ("Simple reply
/// message").
pub fn simple_reply(error: ErrorCode, cookie: u64) -> [u8; 16]
    ensures { result ≡ simple_reply_bytes error cookie }
{
    let mut out = [0; 16];
    BigEndian::write_u32(&mut out[0..4], SIMPLE_REPLY_MAGIC);
    BigEndian::write_u32(&mut out[4..8], error.code());
    BigEndian::write_u64(&mut out[8..16], cookie);
    out
}
