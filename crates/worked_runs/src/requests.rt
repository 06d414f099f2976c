//! Commands in words, as entries with their data.

use crate::fault::ScriptFault;
use crate::show::show_digits;
use crate::words::{byte, number, part, state};
use byteorder::{ByteOrder, LittleEndian};
use nvme_wire::ZoneState;
use std::alloc::{AllocError, Global};

/// A submission entry, and its data.
#[derive(Drop)]
pub struct Request {
    pub entry: [u8; 64],
    pub bytes: Vec<u8>,
}

/// The fields of an entry that commands differ in, and how many blocks of data come with it.
#[derive(Clone, Copy)]
struct Fields {
    opcode: u8,
    address: u64,
    dword12: u32,
    dword13: u32,
    data_blocks: u32,
}

fn entry_of(id: u16, fields: &Fields) -> [u8; 64] {
    let mut entry = [0; 64];
    entry[0] = fields.opcode;
    LittleEndian::write_u16(&mut entry[2..4], id);
    entry[4] = 1;
    LittleEndian::write_u64(&mut entry[40..48], fields.address);
    LittleEndian::write_u32(&mut entry[48..52], fields.dword12);
    LittleEndian::write_u32(&mut entry[52..56], fields.dword13);
    entry
}

fn transfer_code(command: &str) -> Result<u8, ScriptFault> {
    match command {
        "Write" => Ok(0x01),
        "Read" => Ok(0x02),
        "Append" => Ok(0x7d),
        _ => Err(ScriptFault::Words),
    }
}

fn transfer(opcode: u8, blocks: &str, address: &str) -> Result<Fields, ScriptFault> {
    let blocks = part(blocks)?;
    Ok(Fields {
        opcode,
        address: number(address)?,
        dword12: blocks.saturating_sub(1),
        dword13: 0,
        data_blocks: if opcode == 0x02 { 0 } else { blocks },
    })
}

fn action_code(action: &str) -> Result<u8, ScriptFault> {
    match action {
        "Close" => Ok(1),
        "Finish" => Ok(2),
        "Open" => Ok(3),
        "Reset" => Ok(4),
        "Offline" => Ok(5),
        _ => Err(ScriptFault::Words),
    }
}

fn send(action: &str, address: u64, all: u8) -> Result<Fields, ScriptFault> {
    let code = u32::from(action_code(action)?);
    Ok(Fields {
        opcode: 0x79,
        address,
        dword12: 0,
        dword13: code | (u32::from(all) << 8),
        data_blocks: 0,
    })
}

/// The number by which a report asks for the zones in a state.
fn option_of(state: ZoneState) -> u8 {
    match state {
        ZoneState::Empty => 1,
        ZoneState::ImplicitlyOpened => 2,
        ZoneState::ExplicitlyOpened => 3,
        ZoneState::Closed => 4,
        ZoneState::Full => 5,
        ZoneState::ReadOnly => 6,
        ZoneState::Offline => 7,
    }
}

fn report(address: &str, option: u8, dwords: &str, partial: u8) -> Result<Fields, ScriptFault> {
    Ok(Fields {
        opcode: 0x7a,
        address: number(address)?,
        dword12: part(dwords)?.saturating_sub(1),
        dword13: (u32::from(option) << 8) | (u32::from(partial) << 16),
        data_blocks: 0,
    })
}

/// A report, by the words from `from` on.
fn report_from(words: &[&str], option: u8) -> Result<Fields, ScriptFault> {
    match words {
        ["from", address, "in", dwords, "dwords"] => report(address, option, dwords, 0),
        ["from", address, "in", dwords, "dwords", "partial"] => report(address, option, dwords, 1),
        _ => Err(ScriptFault::Words),
    }
}

/// A report, by the words after `Report`.
fn report_of(words: &[&str]) -> Result<Fields, ScriptFault> {
    match words {
        ["of", name, "zones", words @ ..] => report_from(words, option_of(state(name)?)),
        _ => report_from(words, 0),
    }
}

/// A command that names zones or blocks, by the words after `of`.
fn command_of(name: &str, words: &[&str]) -> Result<Fields, ScriptFault> {
    match words {
        ["all", "zones"] => send(name, 0, 1),
        ["the", "zone", "at", address] => send(name, number(address)?, 0),
        [blocks, _, "at", address] => transfer(transfer_code(name)?, blocks, address),
        _ => Err(ScriptFault::Words),
    }
}

const FLUSH: Fields = Fields {
    opcode: 0,
    address: 0,
    dword12: 0,
    dword13: 0,
    data_blocks: 0,
};

fn fields_of(words: &[&str]) -> Result<Fields, ScriptFault> {
    match words {
        ["Flush"] => Ok(FLUSH),
        ["Report", words @ ..] => report_of(words),
        [name, "of", words @ ..] => command_of(name, words),
        _ => Err(ScriptFault::Words),
    }
}

/// The entry that these words ask for, with this identifier. Beside a Write or an Append stand blocks of
/// the byte that is named after `with`, or else of `aa`.
pub fn parse_request(
    alloc: Global,
    line: &str,
    id: u16,
    block_bytes: u32,
) -> Result<Request, ScriptFault> {
    let (command, data) = match line.split_once(" with ") {
        Some((command, data)) => (command, byte(data.as_bytes())?),
        None => (line, 0xaa),
    };
    let fields = fields_of(&command.split(' ').collect::<Vec<&str>>(alloc)?)?;
    let length = (fields.data_blocks as usize).saturating_mul(block_bytes as usize);
    Ok(Request {
        entry: entry_of(id, &fields),
        bytes: vec![in alloc; data; length]?,
    })
}

impl Request {
    /// The raw line of the entry and its data.
    pub fn raw_line(&self, alloc: Global) -> Result<String, AllocError> {
        let mut line = String::new(alloc);
        show_digits(&self.entry, &mut line)?;
        if !self.bytes.is_empty() {
            line.push(' ')?;
            show_digits(&self.bytes, &mut line)?;
        }
        Ok(line)
    }
}
