ghost use Rattle.std.specs.Prelude.{◌≡◌, []};
ghost use Rattle.nbd_wire.specs.Handshake.{list_reply, option_reply};

use crate::reply_kind::ReplyKind;
use byteorder::{BigEndian, ByteOrder};

/// The magic number that a reply to an option begins with ("Fixed newstyle negotiation").
pub(crate) const OPTION_REPLY_MAGIC: u64 = 0x3_e889_0455_65a9;

/// The reply to the option of this number that has no data.
pub fn short_reply(option: u32, kind: ReplyKind) -> [u8; 20]
    ensures { result ≡ option_reply option kind [] }
{
    let mut out = [0; 20];
    BigEndian::write_u64(&mut out[0..8], OPTION_REPLY_MAGIC);
    BigEndian::write_u32(&mut out[8..12], option);
    BigEndian::write_u32(&mut out[12..16], kind.code());
    out
}

/// The replies to a LIST: one export, whose name is empty, and that this is all.
pub fn list_reply(option: u32) -> [u8; 44]
    ensures { result ≡ list_reply option }
{
    let mut out = [0; 44];
    BigEndian::write_u64(&mut out[0..8], OPTION_REPLY_MAGIC);
    BigEndian::write_u32(&mut out[8..12], option);
    BigEndian::write_u32(&mut out[12..16], ReplyKind::Server.code());
    BigEndian::write_u32(&mut out[16..20], 4);
    BigEndian::write_u64(&mut out[24..32], OPTION_REPLY_MAGIC);
    BigEndian::write_u32(&mut out[32..36], option);
    BigEndian::write_u32(&mut out[36..40], ReplyKind::Acknowledge.code());
    out
}
