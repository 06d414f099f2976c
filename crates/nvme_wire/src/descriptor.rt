ghost use Rattle.std.specs.Prelude.{◌≡◌, IfOk, IfErr, Ok};
ghost use Rattle.nvme_wire.specs.Descriptor.{IsDescriptor, IsPointer, descriptor_bytes, pointer_word};

use crate::command::DecodeFault;
use crate::number::u64_at;
use crate::zone_state::ZoneState;
use byteorder::{ByteOrder, LittleEndian};

/// A zone descriptor of a report (Zoned Namespace Command Set 1.1, section 3.4.2). All zones are of
/// the type Sequential Write Required, and no attribute is ever set.
#[derive(Clone, Copy, Debug, PartialEq, Eq)]
pub struct Descriptor {
    /// The state of the zone.
    pub state: ZoneState,
    /// How many blocks of the zone can be written.
    pub capacity: u64,
    /// The lowest address of the zone.
    pub start: u64,
    /// The address that is written next, in the states that have one: Empty, opened and Closed.
    pub pointer: Option<u64>,
}

/// The write pointer that a word is for a zone in this state.
fn pointer_of(
    state: ZoneState,
    start: u64,
    capacity: u64,
    word: u64,
) -> Result<Option<u64>, DecodeFault>
    ensures ok { IfOk result
        (λ pointer. IsPointer state start capacity pointer × (word ≡ pointer_word pointer)) }
    ensures encoded { (pointer : _) →
        IsPointer state start capacity pointer → word ≡ pointer_word pointer → result ≡ Ok pointer }
    ensures err { IfErr result (λ fault. fault ≡ DecodeFault.Field) }
{
    let within = start <= word && word - start < capacity;
    match state {
        ZoneState::Empty if word == start => Ok(Some(word)),
        ZoneState::ImplicitlyOpened | ZoneState::ExplicitlyOpened | ZoneState::Closed if within => {
            Ok(Some(word))
        }
        ZoneState::ReadOnly | ZoneState::Full | ZoneState::Offline if word == u64::MAX => Ok(None),
        _ => Err(DecodeFault::Field),
    }
}

impl Descriptor {
    /// Encodes the descriptor. The write pointer of a zone that has none is all ones.
    pub fn encode(&self) -> [u8; 64]
        ensures { result ≡ descriptor_bytes self.now }
    {
        let mut out = [0; 64];
        out[0] = 2;
        out[1] = self.state.code() << 4;
        LittleEndian::write_u64(&mut out[8..16], self.capacity);
        LittleEndian::write_u64(&mut out[16..24], self.start);
        LittleEndian::write_u64(&mut out[24..32], self.pointer.unwrap_or(u64::MAX));
        out
    }

    /// Decodes a descriptor. The pointer of an Empty zone is its start, that of an opened or Closed zone
    /// is within its capacity, and a zone in any other state has none. Bytes that no such descriptor
    /// encodes to are the fault `Field`.
    pub fn decode(bytes: &[u8; 64]) -> Result<Descriptor, DecodeFault>
        ensures ok { IfOk result (λ d. (bytes.now ≡ descriptor_bytes d) × IsDescriptor d) }
        ensures encoded { (d : _) →
            IsDescriptor d → bytes.now ≡ descriptor_bytes d → result ≡ Ok d }
        ensures err { IfErr result (λ fault. fault ≡ DecodeFault.Field) }
    {
        let Some(state) = ZoneState::from_code(bytes[1] >> 4) else {
            return Err(DecodeFault::Field);
        };
        let capacity = u64_at(bytes, 8);
        let start = u64_at(bytes, 16);
        let pointer = pointer_of(state, start, capacity, u64_at(bytes, 24))?;
        let descriptor = Descriptor {
            state,
            capacity,
            start,
            pointer,
        };
        if descriptor.encode() == *bytes {
            Ok(descriptor)
        } else {
            Err(DecodeFault::Field)
        }
    }
}
