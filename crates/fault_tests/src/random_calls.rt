// Calls of a disk by chance, and the plain array to which they lead.

use drive_port::{Device, Geometry};
use std::alloc::Global;
use yardsticks::chance;
use zone_translator::{AnyDisk, DiskFault, Entry, MountFault};

/// What a disk is asked for.
#[derive(Clone, Copy, Debug, PartialEq, Eq)]
pub enum Asked {
    Fill,
    Write,
    Trim,
    List,
    Idle,
    Read,
    ReadJoined,
    Grow,
    Flush,
    Report,
    Remount,
}

/// A call of a disk. The blocks that it is about, if any, are those from `first` on.
#[derive(Clone, Copy)]
pub struct Call {
    pub asked: Asked,
    pub first: u32,
    pub blocks: u32,
    /// The byte of the first block that is written. Each other one has the next byte.
    pub byte: u8,
}

/// The byte so many after one.
fn byte_after(byte: u8, number: u32) -> u8 {
    byte.wrapping_add((number % 256) as u8)
}

/// What is asked for, by chance.
fn next_asked(state: &mut u64) -> Asked {
    match chance(state, 36) {
        0..=6 => Asked::Fill,
        7..=12 => Asked::Write,
        13..=14 => Asked::Trim,
        15..=18 => Asked::List,
        19..=24 => Asked::Idle,
        25..=28 => Asked::Read,
        29..=31 => Asked::ReadJoined,
        32 => Asked::Grow,
        33 => Asked::Flush,
        34 => Asked::Report,
        _ => Asked::Remount,
    }
}

/// What a call answers where a mount is refused.
fn fault_of_mount(fault: MountFault) -> DiskFault {
    match fault {
        MountFault::OutOfMemory => DiskFault::OutOfMemory,
        MountFault::Failed => DiskFault::Failed,
        _ => DiskFault::Unmounted,
    }
}

impl Call {
    /// A call of a disk with so many blocks, by chance.
    pub fn next(state: &mut u64, size: u64) -> Call {
        let size = (size.min(1000) as u32).max(3);
        let asked = next_asked(state);
        let first = chance(state, size - 2);
        let blocks = match asked {
            Asked::List => 3,
            _ => 1 + chance(state, 3),
        };
        let byte = 1 + chance(state, 250) as u8;
        Call {
            asked,
            first,
            blocks,
            byte,
        }
    }

    /// Whether it shows blocks.
    pub fn reads(&self) -> bool {
        matches!(self.asked, Asked::Read | Asked::ReadJoined)
    }

    /// Whether it writes or trims blocks.
    pub fn writes(&self) -> bool {
        self.byte_of(0).is_some()
    }

    /// How many of its blocks are written or trimmed before this one, counted from its first one.
    fn turn_of(&self, number: u32) -> u32 {
        match self.asked {
            Asked::List if number < 2 => number + 1,
            Asked::List => 0,
            _ => number,
        }
    }

    /// The byte that it leaves in a block, counted from its first one, if it writes or trims.
    fn byte_of(&self, number: u32) -> Option<u8> {
        match self.asked {
            Asked::Fill => Some(self.byte),
            Asked::Write => Some(byte_after(self.byte, number)),
            Asked::Trim => Some(0),
            // The first block of a list is trimmed.
            Asked::List if number == 0 => Some(0),
            Asked::List => Some(byte_after(self.byte, number)),
            _ => None,
        }
    }

    /// How many commands it may take. Once one has failed, each batch may clean one zone after the other. A mount reads
    /// each block once, and then passes over the zones once for each that is half clean and once more, with two Reads
    /// for each entry. Its repairs move and reset less than two zones.
    pub fn most_commands(&self, geometry: &Geometry, has_failed: bool) -> u64 {
        let capacity = u64::from(geometry.capacity);
        let zones = u64::from(geometry.zones);
        let cleans = if has_failed { zones } else { 1 };
        let batch = capacity
            .saturating_mul(2)
            .saturating_mul(cleans)
            .saturating_add(1);
        let most = u64::from(geometry.transfer.saturating_sub(1).clamp(1, 60));
        let blocks = u64::from(self.blocks);
        match self.asked {
            Asked::Fill | Asked::Write | Asked::List => blocks.saturating_mul(batch),
            Asked::Trim => blocks.div_ceil(most).saturating_mul(batch),
            Asked::Grow => batch,
            Asked::Idle => 2,
            Asked::Read | Asked::ReadJoined => blocks,
            Asked::Flush | Asked::Report => 1,
            Asked::Remount => {
                let passes = zones.saturating_mul(2).saturating_add(6);
                passes.saturating_mul(zones).saturating_mul(capacity)
            }
        }
    }

    /// Does it. What a read or a report shows is in `shown` then.
    pub fn perform<D: Device + Drop>(
        &self,
        alloc: Global,
        disk: &mut AnyDisk<D>,
        shown: &mut Vec<u8>,
    ) -> Result<(), DiskFault> {
        shown.clear();
        let (first, blocks) = (u64::from(self.first), u64::from(self.blocks));
        match self.asked {
            Asked::Fill => disk.fill(first, blocks, self.byte),
            Asked::Write => self.write(alloc, disk),
            Asked::Trim => disk.trim(first, blocks),
            Asked::List => self.write_list(disk),
            Asked::Idle => disk.idle(),
            Asked::Read => disk.read(first, blocks, shown),
            Asked::ReadJoined => disk.read_joined(first, blocks, shown),
            Asked::Grow => disk.grow(disk.blocks() + 1),
            Asked::Flush => disk.flush(),
            Asked::Report => {
                *shown = disk.report()?;
                Ok(())
            }
            Asked::Remount => disk.remount().map_err(fault_of_mount),
        }
    }

    /// Writes its blocks.
    fn write<D: Device + Drop>(
        &self,
        alloc: Global,
        disk: &mut AnyDisk<D>,
    ) -> Result<(), DiskFault> {
        let block = disk.block_bytes();
        let mut bytes = Vec::new(alloc);
        for number in 0..self.blocks {
            let length = bytes.len().saturating_add(block);
            bytes.resize(length, byte_after(self.byte, number))?;
        }
        if bytes.len() != bytes.len() / block * block {
            return Err(DiskFault::OutOfMemory);
        }
        disk.write(u64::from(self.first), &bytes)
    }

    /// Writes the last block and the middle one of three, and trims the first one between.
    fn write_list<D: Device + Drop>(&self, disk: &mut AnyDisk<D>) -> Result<(), DiskFault> {
        let mut bytes = [self.byte.wrapping_add(2); 1024];
        bytes[512..].fill(self.byte.wrapping_add(1));
        if disk.block_bytes() != 512 {
            return Err(DiskFault::OutOfMemory);
        }
        let first = u64::from(self.first);
        let entries = [
            Entry {
                block: first + 2,
                trim: false,
            },
            Entry {
                block: first,
                trim: true,
            },
            Entry {
                block: first + 1,
                trim: false,
            },
        ];
        disk.write_list(&entries, &bytes)
    }
}

/// A plain array: the bytes that each block may be filled with. That is one, or more where a refused call may have
/// written the block.
#[derive(Drop)]
pub struct PlainArray {
    alloc: Global,
    held: Vec<Vec<u8>>,
}

impl PlainArray {
    /// Blocks of zeros.
    pub fn new(alloc: Global, blocks: u64) -> Option<PlainArray> {
        let held = Vec::new(alloc);
        let mut array = PlainArray { alloc, held };
        for _ in 0..blocks {
            array.grow()?;
        }
        Some(array)
    }

    /// How many blocks there are.
    pub fn blocks(&self) -> u64 {
        self.held.len() as u64
    }

    /// One more block of zeros.
    fn grow(&mut self) -> Option<()> {
        let zeros = Vec::from_slice(self.alloc, &[0]).ok()?;
        self.held.push(zeros).ok()
    }

    /// Does a call here or, if it was refused, notes that its blocks may be written.
    pub fn follow(&mut self, call: &Call, is_done: bool) -> Option<()> {
        for number in 0..call.blocks {
            let block = call.first.wrapping_add(number) as usize;
            if let (Some(byte), Some(held)) = (call.byte_of(number), self.held.get_mut(block)) {
                if is_done {
                    held.clear();
                }
                held.push(byte).ok()?;
            }
        }
        if call.asked == Asked::Grow && is_done {
            self.grow()?;
        }
        Some(())
    }

    /// Whether a block may be filled with this byte once a call has written so many of its blocks.
    fn may_hold(&self, call: &Call, front: u32, block: u32, byte: u8) -> bool {
        let number = block.wrapping_sub(call.first);
        if number < call.blocks && call.turn_of(number) < front {
            if let Some(written) = call.byte_of(number) {
                return byte == written;
            }
        }
        let held = self.held.get(block as usize);
        held.is_some_and(|held| held.contains(&byte))
    }

    /// Whether all blocks may show this once a call has written so many of its blocks.
    fn may_show(&self, call: &Call, front: u32, shown: &[Option<u8>]) -> bool {
        let mut block: u32 = 0;
        for byte in shown {
            if let Some(byte) = *byte {
                if !self.may_hold(call, front, block, byte) {
                    return false;
                }
            }
            block = block.wrapping_add(1);
        }
        true
    }

    /// Whether all blocks may show this once a call has written a front of its blocks, none or all.
    pub fn shows_front(&self, call: &Call, shown: &[Option<u8>]) -> bool {
        for front in 0..=call.blocks {
            if self.may_show(call, front, shown) {
                return true;
            }
        }
        false
    }

    /// Notes what the blocks show after a refused call. One that cannot be read may be written, or not.
    pub fn settle(&mut self, call: &Call, shown: &[Option<u8>]) -> Option<()> {
        self.follow(call, false)?;
        for (held, byte) in self.held.iter_mut().zip(shown) {
            if let Some(byte) = *byte {
                held.clear();
                held.push(byte).ok()?;
            }
        }
        Some(())
    }

    /// Whether a block may show these bytes.
    fn may_be(&self, block: usize, bytes: &[u8]) -> bool {
        match (filled_with(bytes), self.held.get(block)) {
            (Some(byte), Some(held)) => held.contains(&byte),
            _ => false,
        }
    }

    /// Of how many of these blocks, from one on, other bytes are shown than this array may have.
    pub fn wrong(&self, first: u32, shown: &[u8]) -> u32 {
        let mut wrong: u32 = 0;
        for (number, bytes) in shown.chunks(512).enumerate() {
            let block = number.wrapping_add(first as usize);
            if !self.may_be(block, bytes) {
                wrong = wrong.saturating_add(1);
            }
        }
        wrong
    }
}

/// The byte that a block is filled with, if all its bytes are the same.
pub fn filled_with(bytes: &[u8]) -> Option<u8> {
    let first = *bytes.first()?;
    if bytes.iter().any(|&byte| byte != first) {
        return None;
    }
    Some(first)
}
