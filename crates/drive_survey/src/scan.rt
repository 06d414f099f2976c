ghost use Rattle.std.specs.Prelude.{◌≡◌, ◌⊎◌, ◌+◌, ◌-◌, ◌*◌, ◌<◌, ◌≤◌, ◌^◌, ℕ, List, [], length, drop};
ghost use Rattle.std.specs.Prelude.{slice_index_or, None, Some, true, IsTrue, IfErr, IfOk, OnOk};
ghost use Rattle.std.specs.List.{list_all};
ghost use Rattle.std.specs.Ordering.{nat_cmp};
ghost use Rattle.std.specs.BTreeSet.{insert_key};
ghost use Rattle.batch_log.specs.Causes.{header_fault, is_zero};
ghost use Rattle.batch_log.specs.Header.{IsNoHeader};
ghost use Rattle.drive_port.specs.Contents.{content_at, contents, is_full, is_usable, usage_of};
ghost use Rattle.drive_port.specs.Drive.{IsLawful};
ghost use Rattle.drive_survey.specs.Reported.{IsKnown, KeepsZones};
ghost use Rattle.drive_survey.specs.Reads.{ReadsNext, ReadsOfZone, ReadsOfZones, blocks_reported};
ghost use Rattle.drive_survey.specs.Heads.{no_heads, with_heading};
ghost use Rattle.drive_survey.specs.Scan.{AreKnown, EndsZone, FailsBy, FailsFirst, FailsIn, IsInterruption};
ghost use Rattle.drive_survey.specs.Scan.{MeetsHeader, Scans, ScansAll, Takes, TakesNext, block_of, readable_at};
ghost use Rattle.drive_survey.specs.Scan.{ending_fault, heading_fault};
ghost use Rattle.batch_log.specs.Ending.{Ending};
ghost use Rattle.batch_log.specs.Log.{IsTail, data_count};
ghost use Rattle.drive_array.specs.ZoneLogs.{readable};
ghost use Rattle.zone_states.specs.Geometry.{IsInRange};

use crate::fault::MountFault;
use crate::heads::ZoneHeads;
use crate::reported::{ReportedZone, fault_of};
use batch_log::{HeaderView, LogFault, read_header};
use drive_port::{Device, read};
use nvme_wire::ZoneState;
use std::alloc::Global;
use std::collections::BTreeSet;

/// A zone whose blocks are read: its number, and what the report tells of it.
#[derive(Clone, Copy, Debug, PartialEq, Eq)]
pub struct ReadableZone {
    pub number: u32,
    pub reported: ReportedZone,
}

/// What a mount keeps of a zone.
#[derive(Drop)]
pub struct ScannedZone {
    /// The headers of its batches, in order.
    pub heads: ZoneHeads,
    /// Whether a torn tail follows the batches.
    pub is_torn: bool,
}

fn is_full(state: ZoneState) -> bool
    ensures { result ≡ is_full (usage_of state) }
{
    match state {
        ZoneState::Full => true,
        _ => false,
    }
}

fn is_zero(bytes: &[u8]) -> bool
    ensures { result ≡ is_zero bytes.now }
{
    bytes.iter().all(|byte| *byte == 0)
}

/// Reads one of the readable blocks of a zone.
pub fn read_block<D: Device>(
    device: &mut D,
    zone: ReadableZone,
    offset: u32,
    block: &mut Vec<u8>,
) -> Result<(), MountFault>
    // The zone is as reported, and has this block.
    requires zone { IsKnown (D.drive device.old) zone.number zone.reported }
    requires in_range { offset < zone.reported.blocks }
    // Done, the buffer is the block, in its full length.
    ensures ok { OnOk result (IsTrue (D.drive device.new).clean
        → block.new.items ≡ block_of (D.drive device.old) zone.number offset) }
    ensures long { OnOk result (length block.new.items ≡ (D.drive device.old).geometry.block) }
    // It fails only if the drive stops or memory runs out. One command at most is sent. Zones hold what they held.
    ensures err { IfErr result (IsInterruption (D.drive device.new)) }
    ensures kept { KeepsZones (D.drive device.old) (D.drive device.new) }
    ensures completed { (D.drive device.new).completed ≤ (D.drive device.old).completed + 1 }
{
    let start = device.geometry().start_of(zone.number);
    if let Err(fault) = read(device, start + offset as u64, 1, block) {
        return Err(fault_of(fault));
    }
    Ok(())
}

/// Whether all readable blocks of a zone from one on are zeros.
fn is_zero_from<D: Device>(
    device: &mut D,
    zone: ReadableZone,
    from: u32,
    block: &mut Vec<u8>,
) -> Result<bool, MountFault>
    requires zone { IsKnown (D.drive device.old) zone.number zone.reported }
    ensures ok { IfOk result (λ b. IsTrue (D.drive device.new).clean
        → b ≡ list_all is_zero (drop from (readable_at (D.drive device.old) zone.number))) }
    // It fails only if the drive stops or memory runs out.
    ensures err { IfErr result (IsInterruption (D.drive device.new)) }
    // Whatever it answers, it takes one Read at most for each of these blocks, and zones hold what they held.
    ensures kept { KeepsZones (D.drive device.old) (D.drive device.new) }
    ensures completed { (D.drive device.new).completed
        ≤ (D.drive device.old).completed + (zone.reported.blocks - from) }
{
    for offset in from..zone.reported.blocks {
        read_block(device, zone, offset, block)?;
        if !is_zero(block) {
            return Ok(false);
        }
    }
    Ok(true)
}

/// If no header block stands: in a Full zone zeros end the log.
fn end_at<D: Device>(
    device: &mut D,
    zone: ReadableZone,
    offset: u32,
    cause: LogFault,
    block: &mut Vec<u8>,
) -> Result<(), MountFault>
    // The zone is as reported. The buffer is this block of it, which is no header block, for this cause.
    requires zone { IsKnown (D.drive device.old) zone.number zone.reported }
    requires in_range { offset < zone.reported.blocks }
    requires block { (IsTrue (D.drive device.old).clean
        → block.old.items ≡ block_of (D.drive device.old) zone.number offset)
        × (length block.old.items ≡ (D.drive device.old).geometry.block) }
    requires cause { header_fault block.old.items ≡ Some cause }
    requires none { IsNoHeader block.old.items }
    // Done, the zone is Full, and from the block on it has only zeros.
    ensures ok { OnOk result ((is_full (usage_of zone.reported.state) ≡ true)
        × (IsTrue (D.drive device.new).clean → IsTail (D.drive device.old).geometry.block
        (is_full (content_at (contents (D.drive device.old).zones) zone.number).usage)
        (drop offset (readable_at (D.drive device.old) zone.number)))) }
    // A fault says for which cause the batches end there, unless the drive stops or memory runs out.
    ensures err { IsTrue (D.drive device.new).clean → IfErr result (FailsBy (λ fault. (ending : Ending)
        × EndsZone (D.drive device.old) zone.number offset ending
        × (ending_fault zone.number offset ending ≡ Some fault)) (D.drive device.new)) }
    // Whatever it answers, zones hold what they held. Each later block takes one Read at most.
    ensures kept { KeepsZones (D.drive device.old) (D.drive device.new) }
    ensures completed { (D.drive device.new).completed + offset + 1
        ≤ (D.drive device.old).completed + zone.reported.blocks }
{
    if !is_full(zone.reported.state) {
        return Err(MountFault::Log(zone.number, offset, cause));
    }
    if !is_zero(block) {
        return Err(MountFault::Log(zone.number, offset, cause));
    }
    if is_zero_from(device, zone, offset + 1, block)? {
        return Ok(());
    }
    Err(MountFault::Log(zone.number, offset, LogFault::ForeignTail))
}

/// Takes the header of a batch, unless its sequence is one that a disk cannot have, or was met before.
fn take_header(
    heads: &mut ZoneHeads,
    seen: &mut BTreeSet<u64>,
    header: &HeaderView<'_>,
) -> Result<(), MountFault>
    // The entries and blocks of the zone can still be counted in 32 bits.
    requires few { length heads.old.entries + length header.now.entries < 2 ^ 32 }
    requires short { heads.old.blocks + 1 + data_count header.now.entries < 2 ^ 32 }
    // Done, the header is added, and its sequence is among the ones that were met.
    ensures ok { OnOk result ((heading_fault seen.old.keys header.now ≡ None)
        × (heads.new ≡ with_heading heads.old header.now)
        × (seen.new.keys ≡ insert_key nat_cmp seen.old.keys header.now.sequence)) }
    // It fails only for the header's sequence, or if memory runs out.
    ensures err { IfErr result (λ fault. (fault ≡ MountFault.OutOfMemory)
        ⊎ (heading_fault seen.old.keys header.now ≡ Some fault)) }
{
    let sequence = header.sequence();
    if sequence >= 1 << 63 {
        return Err(MountFault::Spent);
    }
    match seen.insert(sequence) {
        Ok(true) => {}
        Ok(false) => return Err(MountFault::SequenceRepeated),
        Err(_) => return Err(MountFault::OutOfMemory),
    }
    heads.push(header)?;
    Ok(())
}

/// Takes the header of a batch that begins after those that were taken; or tells that it is one of a torn tail.
fn meet_header(
    zone: ReadableZone,
    heads: &mut ZoneHeads,
    seen: &mut BTreeSet<u64>,
    header: &HeaderView<'_>,
) -> Result<Option<bool>, MountFault>
    requires in_range { heads.old.blocks < zone.reported.blocks }
    requires few { length heads.old.entries + length header.now.entries < 2 ^ 32 }
    ensures { MeetsHeader zone.number zone.reported heads.old seen.old.keys header.now result heads.new seen.new.keys }
{
    let left = zone.reported.blocks - heads.blocks() - 1;
    if header.data_blocks() <= left as usize {
        take_header(heads, seen, header)?;
        return Ok(None);
    }
    if is_full(zone.reported.state) {
        return Err(MountFault::Log(zone.number, heads.blocks(), LogFault::Torn));
    }
    Ok(Some(true))
}

/// Takes the header of the next batch of a zone; or tells that there is none, and whether a torn tail follows.
fn next_head<D: Device>(
    device: &mut D,
    zone: ReadableZone,
    heads: &mut ZoneHeads,
    seen: &mut BTreeSet<u64>,
    block: &mut Vec<u8>,
) -> Result<Option<bool>, MountFault>
    // The zone is as reported. Blocks of it are left, and the taken ones have at most 508 entries each.
    requires zone { IsKnown (D.drive device.old) zone.number zone.reported }
    requires in_range { heads.old.blocks < zone.reported.blocks }
    requires few { length heads.old.entries ≤ 508 * heads.old.blocks }
    // Done, one more header is taken; or all are, and it is known whether a torn tail follows.
    ensures few { OnOk result (length heads.new.entries ≤ 508 * heads.new.blocks) }
    ensures ok { IsTrue (D.drive device.new).clean → IfOk result (λ next. (before : List ℕ)
        → Takes (D.drive device.old).geometry (content_at (contents (D.drive device.old).zones) zone.number)
        before heads.old seen.old.keys
        → TakesNext (D.drive device.old).geometry (content_at (contents (D.drive device.old).zones) zone.number)
        before heads.old next heads.new seen.new.keys) }
    // A fault is the first one of the zone, unless the drive stops or memory runs out.
    ensures err { IsTrue (D.drive device.new).clean → IfErr result (FailsBy (λ fault. (before : List ℕ)
        → Takes (D.drive device.old).geometry (content_at (contents (D.drive device.old).zones) zone.number)
        before heads.old seen.old.keys
        → FailsIn (D.drive device.old).geometry (content_at (contents (D.drive device.old).zones) zone.number)
        zone.number before fault) (D.drive device.new)) }
    // Whatever it answers, no command was refused, and the zones hold what they held.
    ensures kept { KeepsZones (D.drive device.old) (D.drive device.new) }
    // A batch takes one Read, and an end or a fault at most one for each block that is left.
    ensures reads { ReadsNext zone.reported heads.old result heads.new (D.drive device.old) (D.drive device.new) }
{
    let offset = heads.blocks();
    read_block(device, zone, offset, block)?;
    match read_header(block) {
        Ok(header) => meet_header(zone, heads, seen, &header),
        Err(cause) => {
            end_at(device, zone, offset, cause, block)?;
            Ok(Some(false))
        }
    }
}

/// Reads the headers of the batches of a zone, one block each. The sequences that it meets join those that were
/// met before.
pub fn scan_zone<D: Device>(
    alloc: Global,
    device: &mut D,
    zone: ReadableZone,
    seen: &mut BTreeSet<u64>,
    block: &mut Vec<u8>,
) -> Result<ScannedZone, MountFault>
    requires zone { IsKnown (D.drive device.old) zone.number zone.reported }
    // Done, the zone holds a log without a fault. Its headers are kept, and whether a torn tail follows.
    ensures ok { IsTrue (D.drive device.new).clean → IfOk result (λ scanned. Scans (D.drive device.old).geometry
        (content_at (contents (D.drive device.old).zones) zone.number) seen.old.keys scanned.heads scanned.is_torn
        seen.new.keys) }
    // A fault is the first one of the zone, unless the drive stops or memory runs out.
    ensures err { IsTrue (D.drive device.new).clean → IfErr result (FailsBy (FailsIn (D.drive device.old).geometry
        (content_at (contents (D.drive device.old).zones) zone.number) zone.number seen.old.keys)
        (D.drive device.new)) }
    // Whatever it answers, no command was refused, and the zones hold what they held.
    ensures kept { KeepsZones (D.drive device.old) (D.drive device.new) }
    // Each batch takes one Read, and each block after them one at most. There are never more Reads than blocks.
    ensures reads { IfOk result (λ scanned. ReadsOfZone zone.reported scanned.heads (D.drive device.old)
        (D.drive device.new)) }
    ensures completed { (D.drive device.new).completed ≤ (D.drive device.old).completed + zone.reported.blocks }
{
    let mut heads = ZoneHeads::new(alloc);
    while heads.blocks() < zone.reported.blocks {
        if let Some(is_torn) = next_head(device, zone, &mut heads, seen, block)? {
            return Ok(ScannedZone { heads, is_torn });
        }
    }
    Ok(ScannedZone {
        heads,
        is_torn: false,
    })
}

/// Reads the headers of the batches of all zones, in ascending order. No zone is Read Only or Offline.
pub fn scan_zones<D: Device>(
    alloc: Global,
    device: &mut D,
    zones: &[ReportedZone],
) -> Result<Vec<ScannedZone>, MountFault>
    requires zones { AreKnown (D.drive device.old) zones.now }
    // Done, all zones hold logs without a fault. Their headers are kept, and which ones have a torn tail.
    ensures ok { IsTrue (D.drive device.new).clean → IfOk result (λ scanned. ScansAll (D.drive device.old).geometry
        (contents (D.drive device.old).zones) scanned.items) }
    // All zones were looked at.
    ensures count { IfOk result (λ scanned. length scanned.items ≡ length zones.now) }
    // A fault is the first one of the drive, unless it stops or memory runs out.
    ensures err { IsTrue (D.drive device.new).clean → IfErr result (FailsBy (FailsFirst (D.drive device.old).geometry
        (contents (D.drive device.old).zones)) (D.drive device.new)) }
    // Whatever it answers, no command was refused, and the zones hold what they held.
    ensures kept { KeepsZones (D.drive device.old) (D.drive device.new) }
    // Each batch takes one Read, and each block after a log one at most. There are never more Reads than blocks.
    ensures reads { IfOk result (λ scanned. ReadsOfZones zones.now scanned.items (D.drive device.old)
        (D.drive device.new)) }
    ensures completed { (D.drive device.new).completed ≤ (D.drive device.old).completed + blocks_reported zones.now }
{
    let mut seen = BTreeSet::new(alloc);
    let mut block = Vec::new(alloc);
    let mut scanned = Vec::new(alloc);
    for (number, reported) in zones.iter().enumerate() {
        let zone = ReadableZone {
            number: number as u32,
            reported: *reported,
        };
        let heads = scan_zone(alloc, device, zone, &mut seen, &mut block)?;
        if scanned.push(heads).is_err() {
            return Err(MountFault::OutOfMemory);
        }
    }
    Ok(scanned)
}
