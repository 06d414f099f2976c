ghost use Rattle.std.specs.Prelude.{◌≡◌, ◌≤◌, ◌^◌, true, Some, Ok, IfOk};
ghost use Rattle.nvme_wire.specs.Entry.{IsAdmitted, address_of, block_number, blocks_field, decode_of, decoded};
ghost use Rattle.nvme_wire.specs.Entry.{dwords_of, entry_bytes, entry_with, id_of, namespace_of, none};

use crate::command::{Action, Command, DecodeFault, Opcode, ReportingOptions};
use crate::number::u64_at;
use byteorder::{ByteOrder, LittleEndian};

/// The command identifier of an entry, whatever else the entry holds: bits 31:16 of dword 0 (Base
/// Specification 2.0, section 3.3.3.1).
pub fn entry_id(entry: &[u8; 64]) -> u16
    ensures { result ≡ id_of entry.now }
{
    LittleEndian::read_u16(&entry[2..4])
}

fn namespace_at(entry: &[u8; 64]) -> u32
    ensures { result ≡ namespace_of entry.now }
{
    LittleEndian::read_u32(&entry[4..8])
}

fn address_at(entry: &[u8; 64]) -> u64
    ensures { result ≡ address_of entry.now }
{
    u64_at(entry, 40)
}

fn blocks_at(entry: &[u8; 64]) -> u32
    ensures value { result ≡ blocks_field entry.now }
    ensures some { 1 ≤ result }
    ensures few { result ≤ 65536 }
{
    u32::from(LittleEndian::read_u16(&entry[48..50])) + 1
}

fn dwords_at(entry: &[u8; 64]) -> u64
    ensures value { result ≡ dwords_of entry.now }
    ensures few { result ≤ 2 ^ 32 }
{
    u64::from(LittleEndian::read_u32(&entry[48..52])) + 1
}

/// An entry to namespace 1 whose dwords 12 and 13 are zero.
#[inline(always)]
fn entry_to(opcode: Opcode, id: u16, address: u64) -> [u8; 64]
    ensures { result ≡ entry_with opcode id address none none }
{
    let mut out = [0; 64];
    out[0] = opcode.code();
    LittleEndian::write_u16(&mut out[2..4], id);
    LittleEndian::write_u32(&mut out[4..8], 1);
    LittleEndian::write_u64(&mut out[40..48], address);
    out
}

/// The entry of a command that transfers blocks, counted from one.
#[inline(always)]
fn blocks_entry(opcode: Opcode, id: u16, address: u64, blocks: u32) -> [u8; 64]
    requires some { 1 ≤ blocks }
    requires short { blocks ≤ 65536 }
    ensures { result ≡ entry_with opcode id address (block_number blocks) none }
{
    let mut out = entry_to(opcode, id, address);
    LittleEndian::write_u16(&mut out[48..50], (blocks - 1) as u16);
    out
}

/// Decodes a Zone Management Send, after its opcode and its namespace.
fn decode_send(entry: &[u8; 64]) -> Result<Command, DecodeFault>
    ensures value { result ≡ decoded (Some Opcode.Send) true entry.now }
    ensures admitted { IfOk result IsAdmitted }
{
    let all = entry[53] % 2 == 1;
    match Action::from_code(entry[52]) {
        None => Err(DecodeFault::Field),
        Some(Action::Open) if all => Err(DecodeFault::Field),
        Some(action) => Ok(Command::Send {
            slba: address_at(entry),
            action,
            all,
        }),
    }
}

/// Decodes a Zone Management Receive, after its opcode and its namespace.
fn decode_receive(entry: &[u8; 64]) -> Result<Command, DecodeFault>
    ensures value { result ≡ decoded (Some Opcode.Receive) true entry.now }
    ensures admitted { IfOk result IsAdmitted }
{
    let dwords = dwords_at(entry);
    if entry[52] != 0 {
        return Err(DecodeFault::Field);
    }
    let Some(options) = ReportingOptions::from_code(entry[53]) else {
        return Err(DecodeFault::Field);
    };
    if dwords < 16 {
        return Err(DecodeFault::Field);
    }
    Ok(Command::Receive {
        slba: address_at(entry),
        dwords,
        options,
        partial: entry[54] % 2 == 1,
    })
}

impl Command {
    /// Encodes a command that the profile admits, with an identifier. All bytes that no field of the
    /// command fills are zero, those of the data pointers too.
    #[inline(always)]
    pub fn encode(&self, id: u16) -> [u8; 64]
        requires { IsAdmitted self.now }
        ensures encoded { result ≡ entry_bytes self.now id }
        ensures again { decode_of result ≡ Ok self.now }
        ensures id { id_of result ≡ id }
    {
        match *self {
            Command::Flush => entry_to(Opcode::Flush, id, 0),
            Command::Read { slba, blocks } => blocks_entry(Opcode::Read, id, slba, blocks),
            Command::Write { slba, blocks } => blocks_entry(Opcode::Write, id, slba, blocks),
            Command::Append { zslba, blocks } => blocks_entry(Opcode::Append, id, zslba, blocks),
            Command::Send { slba, action, all } => {
                let mut out = entry_to(Opcode::Send, id, slba);
                out[52] = action.code();
                out[53] = all as u8;
                out
            }
            Command::Receive {
                slba,
                dwords,
                options,
                partial,
            } => {
                let mut out = entry_to(Opcode::Receive, id, slba);
                LittleEndian::write_u32(&mut out[48..52], (dwords - 1) as u32);
                out[53] = options.code();
                out[54] = partial as u8;
                out
            }
        }
    }

    /// Decodes an entry. Only the opcode, the namespace and the command's own fields are looked at, in
    /// this order, and the first of them that is wrong is the fault. What is decoded can be encoded.
    #[inline(always)]
    pub fn decode(entry: &[u8; 64]) -> Result<Command, DecodeFault>
        ensures value { result ≡ decode_of entry.now }
        ensures admitted { IfOk result IsAdmitted }
    {
        let Some(opcode) = Opcode::from_code(entry[0]) else {
            return Err(DecodeFault::Opcode);
        };
        if namespace_at(entry) != 1 {
            return Err(DecodeFault::Namespace);
        }
        let slba = address_at(entry);
        let blocks = blocks_at(entry);
        match opcode {
            Opcode::Flush => Ok(Command::Flush),
            Opcode::Read => Ok(Command::Read { slba, blocks }),
            Opcode::Write => Ok(Command::Write { slba, blocks }),
            Opcode::Append => Ok(Command::Append {
                zslba: slba,
                blocks,
            }),
            Opcode::Send => decode_send(entry),
            Opcode::Receive => decode_receive(entry),
        }
    }
}
