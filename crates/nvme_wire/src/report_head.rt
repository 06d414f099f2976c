ghost use Rattle.std.specs.Prelude.{◌≡◌, ◌<◌, ◌^◌, IfOk, IfErr, Ok};
ghost use Rattle.nvme_wire.specs.Descriptor.{report_head_bytes};

use crate::command::DecodeFault;
use crate::number::u64_at;
use byteorder::{ByteOrder, LittleEndian};

/// The head of a zone report (Zoned Namespace Command Set 1.1, section 3.4.2).
#[derive(Clone, Copy, Debug, PartialEq, Eq)]
pub struct ReportHead {
    /// How many zones match or, in a partial report, how many descriptors follow.
    pub zones: u64,
}

impl ReportHead {
    /// Encodes the head.
    pub fn encode(&self) -> [u8; 64]
        ensures { result ≡ report_head_bytes self.now }
    {
        let mut out = [0; 64];
        LittleEndian::write_u64(&mut out[0..8], self.zones);
        out
    }

    /// Decodes a head. Bytes that no head encodes to are the fault `Field`.
    pub fn decode(bytes: &[u8; 64]) -> Result<ReportHead, DecodeFault>
        ensures ok { IfOk result
            (λ head. (bytes.now ≡ report_head_bytes head) × (head.zones < 2 ^ 64)) }
        ensures encoded { (head : _) →
            head.zones < 2 ^ 64 → bytes.now ≡ report_head_bytes head → result ≡ Ok head }
        ensures err { IfErr result (λ fault. fault ≡ DecodeFault.Field) }
    {
        let head = ReportHead {
            zones: u64_at(bytes, 0),
        };
        if head.encode() == *bytes {
            Ok(head)
        } else {
            Err(DecodeFault::Field)
        }
    }
}
