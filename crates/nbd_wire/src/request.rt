ghost use Rattle.std.specs.Prelude.{◌≡◌, IfSome, Some};
ghost use Rattle.nbd_wire.specs.Transmission.{FitsRequest, request_bytes};

use crate::number::{u16_at, u32_at, u64_at};
use byteorder::{BigEndian, ByteOrder};

/// The magic number that a request begins with.
const REQUEST_MAGIC: u32 = 0x2560_9513;

/// The head of a request, which the data of a WRITE follow ("Request message").
#[derive(Clone, Copy, Debug, PartialEq, Eq)]
pub struct Request {
    /// The command flags.
    pub flags: u16,
    /// The number of the command.
    pub code: u16,
    /// What the reply names the request by.
    pub cookie: u64,
    /// The first byte of the export that is meant.
    pub offset: u64,
    /// How many bytes are meant.
    pub length: u32,
}

impl Request {
    /// Encodes the head.
    pub fn encode(&self) -> [u8; 28]
        ensures { result ≡ request_bytes self.now }
    {
        let mut out = [0; 28];
        BigEndian::write_u32(&mut out[0..4], REQUEST_MAGIC);
        BigEndian::write_u16(&mut out[4..6], self.flags);
        BigEndian::write_u16(&mut out[6..8], self.code);
        BigEndian::write_u64(&mut out[8..16], self.cookie);
        BigEndian::write_u64(&mut out[16..24], self.offset);
        BigEndian::write_u32(&mut out[24..28], self.length);
        out
    }

    /// Decodes a head. None where the bytes do not begin with the magic number of requests.
    pub fn decode(bytes: &[u8; 28]) -> Option<Request>
        ensures some { IfSome result (λ request. (bytes.now ≡ request_bytes request) × FitsRequest request) }
        ensures encoded { (request : _) → FitsRequest request → bytes.now ≡ request_bytes request
            → result ≡ Some request }
    {
        let request = Request {
            flags: u16_at(bytes, 4),
            code: u16_at(bytes, 6),
            cookie: u64_at(bytes, 8),
            offset: u64_at(bytes, 16),
            length: u32_at(bytes, 24),
        };
        if request.encode() == *bytes {
            Some(request)
        } else {
            None
        }
    }
}
