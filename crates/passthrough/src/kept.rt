ghost use Rattle.std.specs.Prelude.{◌≡◌, ◌+◌, ◌-◌, ◌*◌, ◌/◌, ◌≤◌, ◌↔◌, ◌⊎◌, false, IsTrue};
ghost use Rattle.std.specs.Prelude.{length, take, drop};
ghost use Rattle.passthrough.specs.Kept.{CanFill, IsWithin, SameBlocks, Spares, forgotten};

use crate::run::{Run, width};
use nvme_wire::Command;
use std::alloc::Global;
use zone_states::Geometry;

/// Blocks of one zone that were read, and are kept.
#[derive(Drop)]
pub struct Kept {
    pub geometry: Geometry,
    /// The address of the first.
    pub start: u64,
    /// How many there are; 0: nothing is kept.
    pub blocks: u32,
    /// Their bytes, at the front of a buffer for one transfer. It is empty if there was no memory for it.
    pub bytes: Vec<u8>,
    /// The last Read that was sent, if nothing was forgotten since.
    pub run: Option<Run>,
}

impl Kept {
    /// Nothing is kept yet. The buffer is reserved here, once.
    pub fn new(alloc: Global, geometry: Geometry) -> Kept
        ensures geometry { result.geometry ≡ geometry }
        ensures nothing { result.blocks ≡ 0 }
    {
        let size = geometry.transfer as usize * geometry.block as usize;
        let bytes = match Vec::from_elem(alloc, 0, size) {
            Ok(bytes) => bytes,
            Err(_) => Vec::new(alloc),
        };
        Kept {
            geometry,
            start: 0,
            blocks: 0,
            bytes,
            run: None,
        }
    }

    /// Keeps nothing any more.
    pub fn forget(&mut self)
        ensures { self.new ≡ forgotten self.old }
    {
        self.blocks = 0;
        self.run = None;
    }

    /// Whether all blocks of a Read are kept.
    pub fn has(&self, address: u64, blocks: u32) -> bool
        ensures { IsTrue result ↔ IsWithin self.now address blocks }
    {
        if address < self.start || self.blocks < blocks {
            return false;
        }
        address - self.start <= u64::from(self.blocks - blocks)
    }

    /// Copies the bytes of kept blocks, from an address on, as many as there is room for.
    pub fn copy(&self, address: u64, room: &mut [u8])
        requires from { self.now.start ≤ address }
        requires to { (address - self.now.start) * self.now.geometry.block + length room.old
            ≤ length self.now.bytes.items }
        ensures { room.new ≡ take (length room.old)
            (drop ((address - self.now.start) * self.now.geometry.block) self.now.bytes.items) }
    {
        let from = (address - self.start) as usize * self.geometry.block as usize;
        room.copy_from_slice(&self.bytes[from..from + room.len()]);
    }

    /// Whether a command may change what is kept.
    fn may_change(&self, command: &Command) -> bool
        requires some { 1 ≤ self.now.blocks → 1 ≤ self.now.geometry.size }
        ensures { result ≡ false → 1 ≤ self.now.blocks
            → Spares self.now.geometry command.now (self.now.start / self.now.geometry.size) }
    {
        if self.blocks == 0 {
            return false;
        }
        let size = u64::from(self.geometry.size);
        let zone = self.start / size;
        match *command {
            Command::Write { slba, .. } => slba / size == zone,
            Command::Append { zslba, .. } => zslba / size == zone,
            Command::Send { all: true, .. } => true,
            Command::Send { slba, .. } => slba / size == zone,
            _ => false,
        }
    }

    /// Keeps nothing any more that a command may change.
    pub fn forget_changed(&mut self, command: &Command)
        requires some { 1 ≤ self.old.blocks → 1 ≤ self.old.geometry.size }
        ensures kept { (self.new ≡ self.old) ⊎ (self.new ≡ forgotten self.old) }
        ensures spares { 1 ≤ self.new.blocks
            → Spares self.new.geometry command.now (self.new.start / self.new.geometry.size) }
    {
        if self.may_change(command) {
            self.forget();
        }
    }

    /// How many blocks are read ahead if that many are asked, from an address on; 0: none. They end at `end` at most.
    pub fn ahead(&self, address: u64, blocks: u32, end: u64) -> u32
        ensures more { 1 ≤ result → blocks ≤ result }
        ensures can { 1 ≤ result → CanFill self.now address result end }
    {
        let width = width(self.run, address, blocks, self.geometry.size);
        let most = u64::from(width.min(self.geometry.transfer));
        let ahead = most.min(end.saturating_sub(address)) as u32;
        if ahead / 2 < blocks || self.bytes.len() < ahead as usize * self.geometry.block as usize {
            return 0;
        }
        ahead
    }

    /// Remembers a Read that was sent for blocks that were asked from an address on, so that a run goes on.
    pub fn remember(&mut self, address: u64, asked: u32, sent: u32)
        ensures { SameBlocks self.old self.new }
    {
        let width = width(self.run, address, asked, self.geometry.size);
        self.run = Some(Run::after(address, sent, width, self.geometry.transfer));
    }
}
