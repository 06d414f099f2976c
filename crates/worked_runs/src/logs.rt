//! The logs of a drive's zones: as `batch_log` reads them, and as the yardstick finds them.

ghost use Rattle.std.specs.Prelude.{◌↔◌, ◌≡◌, IsTrue, vec_len};
ghost use Rattle.std.specs.List.{AllByRecursion};

use crate::fault::ScriptFault;
use crate::world::{World, bytes_of};
use batch_log::{Batches, FaultAt};
use nvme_wire::ZoneState;
use std::alloc::{AllocError, Global};
use yardsticks::{ZoneImage, log};

/// The bytes of a block.
const BLOCK: usize = 512;

/// How many batches a log has, how many data blocks, the greatest size that a header says, and whether
/// a torn tail is after them.
#[derive(Clone, Copy, PartialEq, Eq)]
struct Counts {
    batches: usize,
    data: usize,
    size: Option<u32>,
    is_torn: bool,
}

impl Counts {
    const NONE: Counts = Counts {
        batches: 0,
        data: 0,
        size: None,
        is_torn: false,
    };

    fn add(&mut self, data: usize, size: Option<u32>) {
        self.batches = self.batches.saturating_add(1);
        self.data = self.data.saturating_add(data);
        self.size = self.size.max(size);
    }
}

/// What `batch_log` reads: the log, and the block where a torn tail begins; or the fault that it meets.
type Reading = Result<(Counts, Option<u32>), FaultAt>;

fn read(bytes: &[u8], is_full: bool) -> Result<Reading, ScriptFault> {
    if bytes.len() % BLOCK != 0 || bytes.len() / BLOCK > u32::MAX as usize {
        return Err(ScriptFault::Words);
    }
    let mut counts = Counts::NONE;
    let mut batches = Batches::new(bytes, BLOCK as u32, is_full);
    while let Some(item) = batches.next() {
        match item {
            Ok(batch) => counts.add(batch.body.len() / BLOCK, batch.header.size()),
            Err(fault) => return Ok(Err(fault)),
        }
    }
    let torn = batches.torn();
    counts.is_torn = torn.is_some();
    Ok(Ok((counts, torn)))
}

fn are_whole(blocks: &[Vec<u8>], size: usize) -> bool
    ensures { IsTrue result ↔ AllByRecursion (λ block. vec_len block ≡ size) blocks.now }
{
    blocks.iter().all(|block| block.len() == size)
}

/// What the yardstick finds, if the blocks have a log.
fn found(alloc: Global, blocks: &[Vec<u8>], is_full: bool) -> Result<Option<Counts>, ScriptFault> {
    if !are_whole(blocks, BLOCK) {
        return Err(ScriptFault::Words);
    }
    let Some(log) = log(alloc, blocks, BLOCK, is_full)? else {
        return Ok(None);
    };
    let mut counts = Counts::NONE;
    for batch in &log.batches {
        counts.add(batch.body.len(), batch.header.size);
    }
    counts.is_torn = log.is_torn;
    Ok(Some(counts))
}

fn show_counts(counts: Counts, torn: Option<u32>, out: &mut String) -> Result<(), AllocError> {
    let Counts { batches, data, .. } = counts;
    write!(out, "batches {batches}, data blocks {data}")?;
    if let Some(size) = counts.size {
        write!(out, ", size {size}")?;
    }
    if let Some(block) = torn {
        write!(out, ", torn at block {block}")?;
    }
    writeln!(out)
}

fn show_reading(reading: Reading, out: &mut String) -> Result<(), AllocError> {
    match reading {
        Ok((counts, torn)) => show_counts(counts, torn, out),
        Err(FaultAt { offset, fault }) => {
            let number = fault as u8;
            writeln!(out, "no log, {number} {fault:?} at block {offset}")
        }
    }
}

/// Shows what is read in a zone, and whether the yardstick finds the same.
fn show_log(alloc: Global, zone: &ZoneImage, out: &mut String) -> Result<(), ScriptFault> {
    let is_full = zone.state == ZoneState::Full;
    let reading = read(&bytes_of(alloc, zone)?, is_full)?;
    show_reading(reading, out)?;
    let counts = match reading {
        Ok((counts, _)) => Some(counts),
        Err(_) => None,
    };
    if counts != found(alloc, &zone.blocks, is_full)? {
        writeln!(out, "    the yardstick finds something else")?;
    }
    Ok(())
}

/// Shows how many batches each zone that is not Empty holds, how many data blocks, which size, and where
/// a torn tail begins; or why it has no log. The blocks are of 512 bytes.
pub fn show_logs(alloc: Global, world: &World, out: &mut String) -> Result<(), ScriptFault> {
    for (number, zone) in world.zones.iter().enumerate() {
        if zone.state != ZoneState::Empty {
            write!(out, "    zone {number}: ")?;
            show_log(alloc, zone, out)?;
        }
    }
    Ok(())
}
