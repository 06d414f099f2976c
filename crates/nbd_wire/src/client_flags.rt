ghost use Rattle.std.specs.Prelude.{◌≡◌, IfSome, Some};
ghost use Rattle.nbd_wire.specs.Handshake.{client_flags_bytes};

use crate::number::u32_at;
use byteorder::{BigEndian, ByteOrder};

/// What a client says first ("Client flags").
#[derive(Clone, Copy, Debug, PartialEq, Eq)]
pub struct ClientFlags {
    /// `NBD_FLAG_C_FIXED_NEWSTYLE`: whether it knows the fixed newstyle.
    pub fixed: bool,
    /// `NBD_FLAG_C_NO_ZEROES`: whether the zeroes after the reply to `EXPORT_NAME` are left out.
    pub no_zeroes: bool,
}

impl ClientFlags {
    /// Encodes the flags.
    pub fn encode(&self) -> [u8; 4]
        ensures { result ≡ client_flags_bytes self.now }
    {
        let mut out = [0; 4];
        BigEndian::write_u32(
            &mut out[0..4],
            self.fixed as u32 + 2 * self.no_zeroes as u32,
        );
        out
    }

    /// Decodes the flags. None where a flag is set that is none of these.
    pub fn decode(bytes: &[u8; 4]) -> Option<ClientFlags>
        ensures some { IfSome result (λ flags. bytes.now ≡ client_flags_bytes flags) }
        ensures encoded { (flags : _) → bytes.now ≡ client_flags_bytes flags → result ≡ Some flags }
    {
        let bits = u32_at(bytes, 0);
        let flags = ClientFlags {
            fixed: bits % 2 == 1,
            no_zeroes: bits / 2 % 2 == 1,
        };
        if flags.encode() == *bytes {
            Some(flags)
        } else {
            None
        }
    }
}
