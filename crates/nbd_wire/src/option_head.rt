ghost use Rattle.std.specs.Prelude.{◌≡◌, IfSome, Some};
ghost use Rattle.nbd_wire.specs.Handshake.{FitsHead, option_head_bytes};

use crate::number::u32_at;
use byteorder::{BigEndian, ByteOrder};

/// What an option begins with, before its data ("Newstyle negotiation").
#[derive(Clone, Copy, Debug, PartialEq, Eq)]
pub struct OptionHead {
    /// The number of the option.
    pub option: u32,
    /// How many bytes of data follow.
    pub length: u32,
}

impl OptionHead {
    /// Encodes the head: `IHAVEOPT`, the option and the length.
    pub fn encode(&self) -> [u8; 16]
        ensures { result ≡ option_head_bytes self.now }
    {
        let mut out = *b"IHAVEOPT\0\0\0\0\0\0\0\0";
        BigEndian::write_u32(&mut out[8..12], self.option);
        BigEndian::write_u32(&mut out[12..16], self.length);
        out
    }

    /// Decodes a head. None where the bytes do not begin with `IHAVEOPT`.
    pub fn decode(bytes: &[u8; 16]) -> Option<OptionHead>
        ensures some { IfSome result (λ head. (bytes.now ≡ option_head_bytes head) × FitsHead head) }
        ensures encoded { (head : _) → FitsHead head → bytes.now ≡ option_head_bytes head
            → result ≡ Some head }
    {
        let head = OptionHead {
            option: u32_at(bytes, 8),
            length: u32_at(bytes, 12),
        };
        if head.encode() == *bytes {
            Some(head)
        } else {
            None
        }
    }
}
