ghost use Rattle.std.specs.Prelude.{◌≡◌, ◌==◌, ◌&&◌};
ghost use Rattle.std.specs.List.{list_any};
ghost use Rattle.drive_rescue.specs.Sources.{is_block, with_damage};
ghost use Rattle.drive_rescue.specs.declared.with_damage.DamagedBlock.{DamagedBlock};

use crate::source::{Reading, Source};
use drive_port::Halt;
use drive_survey::ReportedZone;
use std::alloc::Global;
use zone_states::Geometry;

/// A block of a zone.
#[derive(Clone, Copy, Debug, PartialEq, Eq)]
pub struct DamagedBlock {
    pub zone: u32,
    /// Counted from 0, the first block of the zone.
    pub offset: u32,
}

/// A source of which some more blocks are unreadable, for tests.
#[derive(Drop)]
pub struct WithDamage<'a, S: Source + Drop> {
    source: S,
    blocks: &'a [DamagedBlock],
}

impl<'a, S: Source + Drop> WithDamage<'a, S> {
    /// A source of which these blocks cannot be read.
    pub fn new(source: S, blocks: &'a [DamagedBlock]) -> Self
        ensures { ⟦<WithDamage<'a, S> as Source>⟧.view result ≡ with_damage (S.view source) blocks.now }
    {
        WithDamage { source, blocks }
    }

    fn is_damaged(&self, number: u32, offset: u32) -> bool
        ensures { result ≡ list_any (is_block number offset) self.now.blocks.now }
    {
        self.blocks
            .iter()
            .any(|block| block.zone == number && block.offset == offset)
    }
}

impl<'a, S: Source + Drop> Source for WithDamage<'a, S> {
    ghost view = { λ w. with_damage (S.view w.source) w.blocks.now };

    fn geometry(&self) -> Geometry {
        self.source.geometry()
    }

    fn report(&mut self, alloc: Global) -> Result<Vec<ReportedZone>, Halt> {
        self.source.report(alloc)
    }

    fn read(&mut self, number: u32, offset: u32, into: &mut Vec<u8>) -> Result<Reading, Halt> {
        let _geometry = self.source.geometry();
        if self.is_damaged(number, offset) {
            return Ok(Reading::Unreadable);
        }
        self.source.read(number, offset, into)
    }
}
