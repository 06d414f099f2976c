ghost use Rattle.std.specs.Prelude.{◌≡◌, true, false};
ghost use Rattle.nbd_wire.specs.Handshake.{info_replies, name_reply, transmission_flags};

use crate::option_reply::OPTION_REPLY_MAGIC;
use crate::reply_kind::ReplyKind;
use byteorder::{BigEndian, ByteOrder};

/// What a server says first ("Newstyle negotiation"): two magic numbers, and the handshake flags, which say that it
/// knows the fixed newstyle and may leave out zeroes.
pub const GREETING: [u8; 18] = *b"NBDMAGICIHAVEOPT\0\x03";

/// The transmission flags of each export: FLUSH, FUA, TRIM and WRITE_ZEROES may be sent.
const TRANSMISSION_FLAGS: u16 = 1 + 4 + 8 + 32 + 64;

/// `NBD_FLAG_READ_ONLY`: what would change the export is refused.
const READ_ONLY_FLAG: u16 = 2;

/// The number of the information on an export's block sizes. That on its size and flags has the number 0.
const INFO_BLOCK_SIZE: u16 = 3;

/// What a client is told of an export ("Block size constraints").
#[derive(Clone, Copy, Debug, PartialEq, Eq)]
pub struct Export {
    /// How many bytes it has.
    pub size: u64,
    /// The minimum block size: offsets and lengths are multiples of it.
    pub minimum: u32,
    /// The preferred block size.
    pub preferred: u32,
    /// The maximum block size: how many bytes a READ or a WRITE has at most.
    pub maximum: u32,
    /// Whether it is read only.
    pub read_only: bool,
}

impl Export {
    /// The transmission flags.
    fn transmission_flags(&self) -> u16
        ensures { result ≡ transmission_flags self.now }
    {
        if self.read_only {
            return TRANSMISSION_FLAGS + READ_ONLY_FLAG;
        }
        TRANSMISSION_FLAGS
    }

    /// The replies to an INFO or a GO: the size and the transmission flags, the block sizes, and that this is all.
    pub fn info_replies(&self, option: u32) -> [u8; 86]
        ensures { result ≡ info_replies option self.now }
    {
        let mut out = [0; 86];
        BigEndian::write_u64(&mut out[0..8], OPTION_REPLY_MAGIC);
        BigEndian::write_u32(&mut out[8..12], option);
        BigEndian::write_u32(&mut out[12..16], ReplyKind::Info.code());
        BigEndian::write_u32(&mut out[16..20], 12);
        BigEndian::write_u64(&mut out[22..30], self.size);
        BigEndian::write_u16(&mut out[30..32], self.transmission_flags());
        BigEndian::write_u64(&mut out[32..40], OPTION_REPLY_MAGIC);
        BigEndian::write_u32(&mut out[40..44], option);
        BigEndian::write_u32(&mut out[44..48], ReplyKind::Info.code());
        BigEndian::write_u32(&mut out[48..52], 14);
        BigEndian::write_u16(&mut out[52..54], INFO_BLOCK_SIZE);
        BigEndian::write_u32(&mut out[54..58], self.minimum);
        BigEndian::write_u32(&mut out[58..62], self.preferred);
        BigEndian::write_u32(&mut out[62..66], self.maximum);
        BigEndian::write_u64(&mut out[66..74], OPTION_REPLY_MAGIC);
        BigEndian::write_u32(&mut out[74..78], option);
        BigEndian::write_u32(&mut out[78..82], ReplyKind::Acknowledge.code());
        out
    }

    /// The reply to an EXPORT_NAME, with its zeroes.
    pub fn name_reply(&self) -> [u8; 134]
        ensures { result ≡ name_reply self.now false }
    {
        let mut out = [0; 134];
        BigEndian::write_u64(&mut out[0..8], self.size);
        BigEndian::write_u16(&mut out[8..10], self.transmission_flags());
        out
    }

    /// The reply to an EXPORT_NAME, where the zeroes are left out.
    pub fn short_name_reply(&self) -> [u8; 10]
        ensures { result ≡ name_reply self.now true }
    {
        let mut out = [0; 10];
        BigEndian::write_u64(&mut out[0..8], self.size);
        BigEndian::write_u16(&mut out[8..10], self.transmission_flags());
        out
    }
}
