//! What is said of a block, and the array that logs encode.

ghost use Rattle.std.specs.Prelude.{◌≡◌, ◌↔◌, ◌≤◌, ◌<◌, ◌∷◌, ℕ, [], length, slice_index_or, IfOk, IfSome, IsSome};
ghost use Rattle.std.specs.List.{AllByRecursion};
ghost use Rattle.std.specs.Option.{option_map};
ghost use Rattle.zone_states.specs.Geometry.{IsInRange};
ghost use Rattle.batch_log.specs.Log.{one_unless};
ghost use Rattle.yardsticks.specs.Batches.{batch_of, held_blocks};
ghost use Rattle.drive_array.specs.Records.{batch_records, entry_content, log_records, newest, record_of, records};
ghost use Rattle.drive_array.specs.Sizes.{array_of};
ghost use Rattle.drive_array.specs.ZoneLogs.{HasLog, log_at, encoded_array};
ghost use Rattle.yardsticks.specs.Zones.{HasWholeBlocks, heard, image_contents, later, held_log};
ghost use Rattle.yardsticks.specs.Zones.{logs_but, held_logs, saying, saying_of, said_block};

use crate::batches::Batch;
use crate::logs::{ZoneImage, zone_logs};
use crate::sizes::{encoded_size, log_but};
use batch_log::Entry;
use std::alloc::{AllocError, Global};
use zone_states::Geometry;

/// What a record says of its block: its data, or none of a trim; with its sequence and its zone.
#[derive(Clone, Copy)]
pub(crate) struct Said<'a> {
    sequence: u64,
    pub zone: usize,
    pub content: Option<&'a [u8]>,
}

/// The later of two; of two with one sequence the first.
fn later<'a>(found: Option<Said<'a>>, said: Said<'a>) -> Option<Said<'a>>
    ensures { option_map saying_of result
        ≡ later (option_map saying_of found.entry) (saying_of said.entry) }
{
    if let Some(first) = found {
        if said.sequence <= first.sequence {
            return found;
        }
    }
    Some(said)
}

/// The block of a body with this number.
fn body_block(body: &[Vec<u8>], number: usize) -> &[u8]
    ensures { result.now ≡ slice_index_or (held_blocks body.now) number [] }
{
    match body.get(number) {
        Some(block) => block,
        None => &[],
    }
}

/// What an entry of a batch in a zone says, with the number of its data block in the body.
fn said_by<'a>(zone: usize, batch: &'a Batch, entry: &Entry, number: usize) -> Said<'a>
    ensures { saying_of result ≡ record {
      sequence = batch.now.header.sequence;
      zone = zone;
      content = entry_content entry.now.trim (held_blocks batch.now.body.items) number;
    } }
{
    let sequence = batch.header.sequence;
    if entry.trim {
        return Said {
            sequence,
            zone,
            content: None,
        };
    }
    let content = Some(body_block(&batch.body, number));
    Said {
        sequence,
        zone,
        content,
    }
}

fn data_blocks(entry: &Entry) -> usize
    ensures count { result ≡ one_unless entry.now.trim }
    ensures few { result ≤ 1 }
{
    if entry.trim { 0 } else { 1 }
}

/// The latest that is said of a block, by what was found or by an entry, with the number of its data block.
fn heard_in_entry<'a>(
    found: Option<Said<'a>>,
    block: u64,
    zone: usize,
    batch: &'a Batch,
    numbered: (usize, &Entry),
) -> Option<Said<'a>>
    ensures { let sequence = batch.now.header.sequence in
        let body = held_blocks batch.now.body.items in
        (header : ℕ) → option_map saying_of result ≡ heard block (option_map saying_of found.entry)
        (record_of sequence body zone header numbered.entry.0 numbered.entry.1.now ∷ []) }
{
    let (number, entry) = numbered;
    if entry.block != block {
        return found;
    }
    later(found, said_by(zone, batch, entry, number))
}

/// The latest that is said of a block, by what was found or by a batch.
fn heard_in_batch<'a>(
    found: Option<Said<'a>>,
    block: u64,
    zone: usize,
    batch: &'a Batch,
) -> Option<Said<'a>>
    ensures { (header : ℕ) → option_map saying_of result
        ≡ heard block (option_map saying_of found.entry)
        (batch_records zone header (batch_of batch.now)) }
{
    let mut latest = found;
    let mut number = 0;
    for entry in &batch.header.entries {
        latest = heard_in_entry(latest, block, zone, batch, (number, entry));
        number += data_blocks(entry);
    }
    latest
}

/// The latest that is said of a block, by what was found or by a log.
fn heard_in_log<'a>(
    found: Option<Said<'a>>,
    block: u64,
    zone: usize,
    log: &'a [Batch],
) -> Option<Said<'a>>
    ensures { option_map saying_of result
        ≡ heard block (option_map saying_of found.entry) (log_records zone 0 (held_log log.now)) }
{
    let mut latest = found;
    for batch in log {
        latest = heard_in_batch(latest, block, zone, batch);
    }
    latest
}

/// What the newest record of a block says, where the records of one zone may be left out.
pub(crate) fn newest<'a>(
    logs: &'a [Vec<Batch>],
    left_out: Option<usize>,
    block: u64,
) -> Option<Said<'a>>
    ensures { let found = newest block (records 0 (logs_but left_out (held_logs logs.now))) in
        option_map saying_of result ≡ option_map saying found }
{
    let mut latest = None;
    for zone in 0..logs.len() {
        latest = heard_in_log(latest, block, zone, log_but(logs, left_out, zone));
    }
    latest
}

/// The data of a block of which this is said.
fn shown(alloc: Global, said: Option<Said>, block_bytes: usize) -> Result<Vec<u8>, AllocError>
    ensures { let says = option_map saying_of said.entry in
        IfOk result (λ bytes. bytes.items ≡ said_block block_bytes says) }
{
    if let Some(said) = said {
        if let Some(content) = said.content {
            return Vec::from_slice(alloc, content);
        }
    }
    vec![in alloc; 0; block_bytes]
}

/// The array that the logs encode, where the batches of one zone may be left out; it has n blocks where
/// no header has a size.
pub(crate) fn array(
    alloc: Global,
    block_bytes: usize,
    n: u32,
    logs: &[Vec<Batch>],
    left_out: Option<usize>,
) -> Result<Vec<Vec<u8>>, AllocError>
    ensures { let kept = logs_but left_out (held_logs logs.now) in
        IfOk result (λ blocks. held_blocks blocks.items ≡ array_of block_bytes n kept) }
{
    let mut blocks = Vec::new(alloc);
    for block in 0..encoded_size(n, logs, left_out) {
        let said = newest(logs, left_out, block as u64);
        blocks.push(shown(alloc, said, block_bytes)?)?;
    }
    Ok(blocks)
}

/// The array that the zones encode, or none if some zone has no log. It has `n` blocks if no header
/// has a size, and else as many as the greatest size. The geometry is one that `check` admits, and each
/// block has its number of bytes.
pub fn encoded_array(
    alloc: Global,
    geometry: &Geometry,
    zones: &[ZoneImage],
    n: u32,
) -> Result<Option<Vec<Vec<u8>>>, AllocError>
    requires geometry { IsInRange geometry.now }
    requires whole { AllByRecursion (HasWholeBlocks geometry.now.block) zones.now }
    ensures some { let array = encoded_array geometry.now (image_contents zones.now) n in
        IfOk result (λ found. IfSome found (λ blocks. held_blocks blocks.items ≡ array)) }
    ensures logs { let contents = image_contents zones.now in
        IfOk result (λ found. IsSome found ↔ AllByRecursion (HasLog geometry.now) contents) }
{
    let Some(drive) = zone_logs(alloc, geometry, zones)? else {
        return Ok(None);
    };
    let block_bytes = geometry.block as usize;
    Ok(Some(array(alloc, block_bytes, n, &drive.logs, None)?))
}
