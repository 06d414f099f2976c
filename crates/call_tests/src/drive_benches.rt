use crate::first_looks::{Ahead, ahead};
use drive_counter::Counter;
use drive_port::{Device, append, finish, read, reset};
use nvme_wire::Command;
use std::alloc::Global;
use zone_drive::Drive;
use zone_states::Geometry;

/// A drive with zones of 1,024 blocks, of which 256 can be read at once.
pub const GEOMETRY: Geometry = Geometry {
    block: 512,
    zones: 4,
    size: 1024,
    capacity: 1024,
    transfer: 256,
    active: 4,
    open: 4,
};

/// A device that reads ahead, above a drive that counts its commands.
#[derive(Drop)]
pub struct Bench {
    alloc: Global,
    device: Ahead<Counter<Drive>>,
    /// How many blocks of each zone are written.
    written: [u64; 4],
    /// What is written now.
    generation: u8,
}

/// The byte that is written all over the block with an address.
fn byte_at(address: u64, generation: u8) -> u8 {
    ((address % 251) as u8).wrapping_add(generation)
}

/// Writes the blocks from an address on.
fn fill(bytes: &mut [u8], address: u64, generation: u8) {
    for place in 0..bytes.len() {
        bytes[place] = byte_at(address.wrapping_add(place as u64 / 512), generation);
    }
}

/// Whether bytes are the blocks from an address on.
fn shows(bytes: &[u8], address: u64, generation: u8) -> bool {
    for place in 0..bytes.len() {
        if bytes[place] != byte_at(address.wrapping_add(place as u64 / 512), generation) {
            return false;
        }
    }
    true
}

impl Bench {
    /// A drive on which so many blocks of each zone are written.
    fn over(alloc: Global, drive: Drive, written: [u64; 4]) -> Option<Bench> {
        Some(Bench {
            alloc,
            device: ahead(alloc, Counter::new(drive))?,
            written,
            generation: 0,
        })
    }

    /// An empty drive.
    pub fn new(alloc: Global) -> Option<Bench> {
        Bench::over(alloc, Drive::new(alloc, GEOMETRY).ok()?, [0; 4])
    }

    /// A drive whose first zone is Full before the first report.
    pub fn full(alloc: Global) -> Option<Bench> {
        let mut drive = Drive::new(alloc, GEOMETRY).ok()?;
        for part in 0..4 {
            if drive.geometry().block != 512 {
                return None;
            }
            let mut bytes = [0; 131_072];
            fill(&mut bytes, part * 256, 0);
            append(alloc, &mut drive, 0, &bytes).ok()?;
        }
        Bench::over(alloc, drive, [1024, 0, 0, 0])
    }

    /// How many Reads the drive completed.
    pub fn reads(&self) -> u64 {
        self.device.way().way().device().counts().reads
    }

    /// Appends so many blocks to a zone: whether that succeeded.
    pub fn append(&mut self, zone: usize, blocks: u32) -> bool {
        if zone >= 4 || blocks == 0 || blocks > 256 {
            return false;
        }
        let start = zone as u64 * 1024;
        let next = start.wrapping_add(self.written[zone]);
        let Ok(mut bytes) = Vec::from_elem(self.alloc, 0, blocks as usize * 512) else {
            return false;
        };
        if self.device.geometry().block != 512 {
            return false;
        }
        fill(&mut bytes, next, self.generation);
        self.written[zone] = self.written[zone].wrapping_add(u64::from(blocks));
        append(self.alloc, &mut self.device, start, &bytes) == Ok(next)
    }

    /// Appends the most that one command can, so many times.
    pub fn append_often(&mut self, zone: usize, times: u32) -> bool {
        for _ in 0..times {
            if !self.append(zone, 256) {
                return false;
            }
        }
        true
    }

    /// Reads blocks: whether that succeeded, and shows what was written last.
    pub fn read(&mut self, address: u64, blocks: u32) -> bool {
        if blocks == 0 || blocks > 256 {
            return false;
        }
        let mut room = Vec::new(self.alloc);
        if read(&mut self.device, address, blocks, &mut room) != Ok(()) {
            return false;
        }
        room.len() == blocks as usize * 512 && shows(&room, address, self.generation)
    }

    /// Resets a zone. What is written from then on is other bytes.
    pub fn reset(&mut self, zone: usize) -> bool {
        if zone >= 4 {
            return false;
        }
        self.generation = self.generation.wrapping_add(7);
        self.written[zone] = 0;
        reset(self.alloc, &mut self.device, zone as u64 * 1024) == Ok(())
    }

    /// Makes a zone Full.
    pub fn finish(&mut self, zone: usize) -> bool {
        zone < 4 && finish(self.alloc, &mut self.device, zone as u64 * 1024) == Ok(())
    }

    /// Sends a Flush.
    pub fn flush(&mut self) -> bool {
        let mut into = Vec::new(self.alloc);
        self.device
            .submit(&Command::Flush.encode(0), &[], &mut into)
            .is_ok()
    }
}
