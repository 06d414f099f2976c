//! The drive of a script: its shape, and what its zones hold between two runs.

ghost use Rattle.std.specs.Prelude.{◌↔◌, IsTrue};
ghost use Rattle.std.specs.List.{AllByRecursion};
ghost use Rattle.yardsticks.specs.Zones.{HasWholeBlocks};

use crate::fault::ScriptFault;
use nvme_wire::ZoneState;
use std::alloc::{AllocError, Global};
use yardsticks::{ZoneImage, encoded_array, is_mountable};
use zone_drive::{Drive, DriveFault};
use zone_states::{Geometry, Zone};

#[derive(Drop)]
pub struct World {
    pub geometry: Geometry,
    pub zones: Vec<ZoneImage>,
}

fn is_whole(zone: &ZoneImage, block: usize) -> bool
    ensures { IsTrue result ↔ HasWholeBlocks block zone.now }
{
    zone.blocks.iter().all(|bytes| bytes.len() == block)
}

fn are_whole(zones: &[ZoneImage], block: usize) -> bool
    ensures { IsTrue result ↔ AllByRecursion (HasWholeBlocks block) zones.now }
{
    zones.iter().all(|zone| is_whole(zone, block))
}

/// What a zone holds, block by block.
fn image_of(alloc: Global, block: u32, zone: &Zone) -> Result<ZoneImage, AllocError> {
    let mut blocks = Vec::new(alloc);
    for bytes in zone.written().chunks((block as usize).max(1)) {
        blocks.push(Vec::from_slice(alloc, bytes)?)?;
    }
    Ok(ZoneImage {
        state: zone.state(),
        blocks,
    })
}

/// The bytes of the blocks of a zone.
pub fn bytes_of(alloc: Global, image: &ZoneImage) -> Result<Vec<u8>, AllocError> {
    let mut bytes = Vec::new(alloc);
    for block in &image.blocks {
        bytes.extend_from_slice(block)?;
    }
    Ok(bytes)
}

fn zone_of(alloc: Global, image: &ZoneImage) -> Result<Zone, AllocError> {
    Ok(Zone::from_parts(image.state, bytes_of(alloc, image)?))
}

impl World {
    /// No drive, of a shape that is not in range.
    pub fn none(alloc: Global) -> World {
        World {
            geometry: Geometry {
                block: 0,
                zones: 0,
                size: 0,
                capacity: 0,
                transfer: 0,
                active: 0,
                open: 0,
            },
            zones: Vec::new(alloc),
        }
    }

    /// What a drive holds.
    pub fn of(alloc: Global, geometry: Geometry, drive: &Drive) -> Result<World, AllocError> {
        let mut zones = Vec::new(alloc);
        for zone in drive.zones() {
            zones.push(image_of(alloc, geometry.block, zone)?)?;
        }
        Ok(World { geometry, zones })
    }

    /// A drive that holds this, and has completed no command.
    pub fn drive(&self, alloc: Global) -> Result<Result<Drive, DriveFault>, AllocError> {
        let mut zones = Vec::new(alloc);
        for zone in &self.zones {
            zones.push(zone_of(alloc, zone)?)?;
        }
        Ok(Drive::from_zones(alloc, self.geometry, zones))
    }

    /// What the drive holds after a restart.
    pub fn restarted(&self, alloc: Global) -> Result<World, ScriptFault> {
        let Ok(mut drive) = self.drive(alloc)? else {
            return Err(ScriptFault::Words);
        };
        drive.restart();
        Ok(World::of(alloc, self.geometry, &drive)?)
    }

    /// Gives a zone this state, and no block.
    pub fn set_zone(
        &mut self,
        alloc: Global,
        number: u64,
        state: ZoneState,
    ) -> Result<(), ScriptFault> {
        let zone = self
            .zones
            .get_mut(number as usize)
            .ok_or(ScriptFault::Words)?;
        *zone = ZoneImage {
            state,
            blocks: Vec::new(alloc),
        };
        Ok(())
    }

    /// Puts a block after a zone's: these bytes, and zeros up to its end.
    pub fn push_block(&mut self, number: u64, mut bytes: Vec<u8>) -> Result<(), ScriptFault> {
        let zone = self
            .zones
            .get_mut(number as usize)
            .ok_or(ScriptFault::Words)?;
        bytes.resize(self.geometry.block as usize, 0)?;
        zone.blocks.push(bytes)?;
        Ok(())
    }

    /// The array that the newest records of the zones spell, if each zone has a log: of the size that the
    /// headers say, or of `n` blocks.
    pub fn array(&self, alloc: Global, n: u32) -> Result<Option<Vec<Vec<u8>>>, ScriptFault> {
        let Ok(()) = self.geometry.check() else {
            return Err(ScriptFault::Words);
        };
        if !are_whole(&self.zones, self.geometry.block as usize) {
            return Err(ScriptFault::Words);
        }
        Ok(encoded_array(alloc, &self.geometry, &self.zones, n)?)
    }

    /// Whether the zones can be mounted as `n` blocks.
    pub fn can_mount(&self, alloc: Global, n: u32) -> Result<bool, ScriptFault> {
        let Ok(()) = self.geometry.check() else {
            return Err(ScriptFault::Words);
        };
        if !are_whole(&self.zones, self.geometry.block as usize) {
            return Err(ScriptFault::Words);
        }
        Ok(is_mountable(alloc, &self.geometry, &self.zones, n)?)
    }

    /// The array of a drive that can be mounted as `n` blocks.
    pub fn mounted_array(&self, alloc: Global, n: u32) -> Result<Vec<Vec<u8>>, ScriptFault> {
        if !self.can_mount(alloc, n)? {
            return Err(ScriptFault::NotMounted);
        }
        self.array(alloc, n)?.ok_or(ScriptFault::NoLog)
    }

    /// Checks that the drive can be mounted, and holds this array of `n` blocks.
    pub fn check_array(&self, alloc: Global, n: u32, array: &[Vec<u8>]) -> Result<(), ScriptFault> {
        if self.mounted_array(alloc, n)?.as_slice() != array {
            return Err(ScriptFault::Array);
        }
        Ok(())
    }
}
