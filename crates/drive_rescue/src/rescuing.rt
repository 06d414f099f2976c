ghost use Rattle.std.specs.Prelude.{◌≡◌, ◌≤◌, ◌^◌, ℕ, IfErr, IfOk};
ghost use Rattle.drive_array.specs.Sizes.{size_or};
ghost use Rattle.drive_rescue.specs.Findings.{FindFails, IsFound};
ghost use Rattle.drive_rescue.specs.Giving.{GiveFails};
ghost use Rattle.drive_rescue.specs.Holding.{IsSmall};
ghost use Rattle.drive_rescue.specs.Rescue.{KeepsSource, RescueFails, Rescues};
ghost use Rattle.drive_survey.specs.Reported.{KeepsZones};

use crate::fault::RescueFault;
use crate::giving::{Rescued, give_blocks};
use crate::search::{Search, search_zones};
use crate::source::Source;
use std::alloc::Global;
use std::io::Write;

/// The greatest number of blocks that a disk can have.
const MOST_BLOCKS: u32 = 1 << 31;

/// The size that the headers say, or the given one.
fn size_or(size: Option<u32>, given: u32) -> u32
    requires small { IsSmall size }
    requires given { given ≤ 2 ^ 31 }
    ensures is { result ≡ size_or given size }
    ensures small { result ≤ 2 ^ 31 }
{
    match size {
        Some(size) => size,
        None => given,
    }
}

/// What was found on a drive: the newest record of each block, and how many blocks the disk has.
#[derive(Drop)]
pub struct Findings {
    search: Search,
    blocks: u32,
}

impl Findings {
    /// How many blocks the disk has: the greatest size that a header found says, or the given number.
    pub fn blocks(&self) -> u32
        ensures { result ≡ self.now.blocks }
    {
        self.blocks
    }
}

/// Searches the zones of a drive. `given` is how many blocks its disk has if no header says how many. The drive is
/// only read.
pub fn find<S: Source>(alloc: Global, source: &mut S, given: u32) -> Result<Findings, RescueFault>
    ensures ok { IfOk result (IsFound (S.view source.new) given) }
    ensures err { IfErr result (FindFails (S.view source.new) given) }
    ensures kept { KeepsZones (S.view source.old).drive (S.view source.new).drive }
{
    let geometry = source.geometry();
    let Ok(()) = geometry.check() else {
        return Err(RescueFault::Limits);
    };
    if given > MOST_BLOCKS {
        return Err(RescueFault::Limits);
    }
    let zones = source.report(alloc)?;
    let search = search_zones(alloc, source, &zones)?;
    let blocks = size_or(search.size, given);
    Ok(Findings { search, blocks })
}

/// Writes the disk that was found on a drive, block by block: what the newest record found shows of each, and zeros of
/// those that are lost, trimmed or unwritten. The drive is only read.
pub fn give<S: Source, W: Write>(
    alloc: Global,
    source: &mut S,
    findings: &Findings,
    writer: &mut W,
) -> Result<Rescued, RescueFault>
    requires found { (given : ℕ) × IsFound (S.view source.old) given findings.now }
    ensures ok { IfOk result (λ rescued. (given : ℕ) → IsFound (S.view source.old) given findings.now
        → Rescues (S.view source.new) given (W.contents writer.old) (W.contents writer.new) rescued) }
    ensures err { IfErr result (GiveFails (S.view source.new) (W.contents writer.old) (W.contents writer.new)) }
    ensures kept { KeepsSource (S.view source.old) (S.view source.new) }
{
    give_blocks(alloc, source, &findings.search, findings.blocks, writer)
}

/// Writes the disk that the readable batches of a drive spell, as [`find`] and [`give`] do.
pub fn rescue<S: Source, W: Write>(
    alloc: Global,
    source: &mut S,
    given: u32,
    writer: &mut W,
) -> Result<Rescued, RescueFault>
    ensures ok { IfOk result
        (Rescues (S.view source.new) given (W.contents writer.old) (W.contents writer.new)) }
    ensures err { IfErr result
        (RescueFails (S.view source.new) given (W.contents writer.old) (W.contents writer.new)) }
    ensures kept { KeepsZones (S.view source.old).drive (S.view source.new).drive }
{
    let findings = find(alloc, source, given)?;
    give(alloc, source, &findings, writer)
}
