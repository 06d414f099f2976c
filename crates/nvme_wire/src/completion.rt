ghost use Rattle.std.specs.Prelude.{◌≡◌, IfOk, IfErr, Ok};
ghost use Rattle.nvme_wire.specs.Completion.{completion_bytes, value_in, id_in, code_in, IsEncodable};

use crate::command::DecodeFault;
use crate::status::Status;
use byteorder::{ByteOrder, LittleEndian};

/// A completion queue entry (Base Specification 2.0, section 3.3.3.2). The queue head and identifier,
/// the phase tag and the Do Not Retry bit are 0.
#[derive(Clone, Copy, Debug, PartialEq, Eq)]
pub struct Completion {
    /// Dwords 0 and 1: the assigned address after an Append that succeeded, else 0.
    pub result: u64,
    /// The identifier of the command that completed.
    pub id: u16,
    /// Whether the command was done, and why not.
    pub status: Status,
}

fn value_at(bytes: &[u8; 16]) -> u64
    ensures { result ≡ value_in bytes.now }
{
    LittleEndian::read_u64(&bytes[0..8])
}

fn id_at(bytes: &[u8; 16]) -> u16
    ensures { result ≡ id_in bytes.now }
{
    LittleEndian::read_u16(&bytes[12..14])
}

fn code_at(bytes: &[u8; 16]) -> u16
    ensures { result ≡ code_in bytes.now }
{
    LittleEndian::read_u16(&bytes[14..16])
}

impl Completion {
    /// Encodes the completion.
    #[inline(always)]
    pub fn encode(&self) -> [u8; 16]
        ensures { result ≡ completion_bytes self.now }
    {
        let mut out = [0; 16];
        LittleEndian::write_u64(&mut out[0..8], self.result);
        LittleEndian::write_u16(&mut out[12..14], self.id);
        LittleEndian::write_u16(&mut out[14..16], self.status.code());
        out
    }

    /// Decodes a completion. Bytes that no completion encodes to are the fault `Field`.
    #[inline(always)]
    pub fn decode(bytes: &[u8; 16]) -> Result<Completion, DecodeFault>
        ensures ok { IfOk result (λ c. (bytes.now ≡ completion_bytes c) × IsEncodable c) }
        ensures encoded { (c : _) → IsEncodable c → bytes.now ≡ completion_bytes c → result ≡ Ok c }
        ensures err { IfErr result (λ fault. fault ≡ DecodeFault.Field) }
    {
        let Some(status) = Status::from_code(code_at(bytes)) else {
            return Err(DecodeFault::Field);
        };
        let completion = Completion {
            result: value_at(bytes),
            id: id_at(bytes),
            status,
        };
        if completion.encode() == *bytes {
            Ok(completion)
        } else {
            Err(DecodeFault::Field)
        }
    }
}
