ghost use Rattle.std.specs.Prelude.{◌≡◌, ◌++◌, [], ◌∷◌, ◌+◌, ◌*◌, ◌<◌, ◌≤◌, ◌^◌, ℕ, List, length, take, drop};
ghost use Rattle.std.specs.Prelude.{slice_index_or, IfErr, IfOk, IsTrue, OnOk};
ghost use Rattle.std.specs.List.{AllByRecursion, concat};
ghost use Rattle.batch_log.specs.Header.{IsHeading, header_block};
ghost use Rattle.batch_log.specs.Log.{batch_size, data_count};
ghost use Rattle.drive_port.specs.Drive.{DriveState};
ghost use Rattle.logical_map.specs.declared.place.Place.TheVariants as places;
ghost use Rattle.zone_choice.specs.Builder.{IsBuilt, built};
ghost use Rattle.zone_choice.specs.Tables.{size_of};
ghost use Rattle.drive_survey.specs.Heads.{no_heads, with_heading};
ghost use Rattle.remount.specs.Kept.{KeepsMountable, Stays};
ghost use Rattle.remount.specs.Moving.{Adds, CanCopy, CanTake, Extends, IsAtMove, IsBlockAt, IsBuiltAs, IsNamed, IsReadableAt, IsSafe, IsShaped, IsTakeable, TakesFirst, TakesSome};
ghost use Rattle.remount.specs.Moving.{blocks_listed, move_by, move_count, moved_data, moved_entries, named_by};
ghost use Rattle.remount.specs.Moving.{placed_entry, said_at, size_by, source_of};
ghost use Rattle.remount.specs.Torn.{data_count_at};
ghost use Rattle.zone_states.specs.Geometry.{IsInRange};
ghost use Rattle.drive_survey.specs.Reported.{IsKnown, KeepsZones};
ghost use Rattle.drive_survey.specs.Scan.{IsInterruption, readable_at};

use crate::refused::fault_or_damaged;
use batch_log::{Kind, read_header};
use drive_port::{Device, append, read};
use drive_survey::{MountFault, ReadableZone, ReportedZone, ZoneHeads};
use logical_map::Place;
use std::alloc::{AllocError, Global};
use zone_choice::{BatchBuilder, Tables};

/// Which Moves repair a torn zone.
#[derive(Drop)]
pub struct MovePlan {
    /// The torn zone.
    pub torn: u32,
    /// What the report says of it.
    pub reported: ReportedZone,
    /// The zone that the records are moved to.
    pub into: u32,
    /// The blocks whose newest record is in the torn zone, in the order in which they are moved.
    pub blocks: Vec<u32>,
    /// How many records a Move takes at most.
    pub most: u32,
    /// The sequence of the first Move.
    pub next: u64,
    /// The size that all Moves but the last one say.
    pub early: Option<u32>,
    /// The size that the last Move says.
    pub size: Option<u32>,
}

/// The Move that is being built, and the block that was read last.
#[derive(Drop)]
struct NextMove {
    batch: BatchBuilder,
    block: Vec<u8>,
}

/// The Moves that were made so far.
#[derive(Drop)]
struct Moves {
    /// Their headers.
    heads: ZoneHeads,
    next: NextMove,
}

/// Adds an entry for a block: data or a trim, by its place.
fn name_record(batch: &mut BatchBuilder, block: u32, place: Place) -> Result<(), AllocError>
    requires { block + 1 < 2 ^ 32 }
    ensures { OnOk result (batch.new.heading ≡ record batch.old.heading {
      entries = batch.old.heading.entries ++ placed_entry block place ∷ [];
    }) }
{
    match place {
        Place::At(_) => batch.name_data(block, 1),
        _ => batch.name_trims(block, 1),
    }
}

/// Adds an entry for each of these blocks: data or a trim, by its place.
fn name_records(batch: &mut BatchBuilder, tables: &Tables, blocks: &[u32]) -> Result<(), AllocError>
    requires { AllByRecursion (IsNamed tables.now) blocks.now }
    ensures { OnOk result (batch.new.heading ≡ record batch.old.heading {
      entries = batch.old.heading.entries ++ moved_entries tables.now.map.places blocks.now;
    }) }
{
    for block in blocks {
        name_record(batch, *block, tables.place_of(*block))?;
    }
    Ok(())
}

/// Reads the data of a record from its zone, and adds it to a Move. A trim has no data.
fn copy_record<D: Device>(
    device: &mut D,
    zone: ReadableZone,
    place: Place,
    next: &mut NextMove,
) -> Result<(), MountFault>
    // Done, as many bytes are added as the record has, and while the drive is clean its data, if its place can be read.
    ensures bytes { IsTrue (D.drive device.new).clean → IsKnown (D.drive device.old) zone.number zone.reported
        → IsBlockAt (zone.number * (D.drive device.old).geometry.size) zone.reported.blocks place
        → OnOk result (Adds next.old.batch.bytes (D.drive device.old).geometry.block
        (blocks_listed (said_at (readable_at (D.drive device.old) zone.number)
        (zone.number * (D.drive device.old).geometry.size) place)) next.new.batch.bytes) }
    ensures grown { OnOk result (Extends next.old.batch.bytes next.new.batch.bytes
        (data_count_at place * (D.drive device.old).geometry.block)) }
    // If its place can be read, it fails only if the drive stops or memory runs out, and zones hold what they held.
    ensures err { IsKnown (D.drive device.old) zone.number zone.reported
        → IsBlockAt (zone.number * (D.drive device.old).geometry.size) zone.reported.blocks place
        → IfErr result (IsInterruption (D.drive device.new)) }
    ensures heading { next.new.batch.heading ≡ next.old.batch.heading }
    ensures kept { IsKnown (D.drive device.old) zone.number zone.reported
        → KeepsZones (D.drive device.old) (D.drive device.new) }
    ensures stays { Stays (D.drive device.old) (D.drive device.new) }
{
    let geometry = device.geometry();
    let Place::At(address) = place else {
        return Ok(());
    };
    let start = geometry.start_of(zone.number);
    if address < start {
        return Err(MountFault::Damaged);
    }
    let offset = address - start;
    if offset >= zone.reported.blocks as u64 {
        return Err(MountFault::Damaged);
    }
    if let Err(fault) = read(device, address, 1, &mut next.block) {
        return Err(fault_or_damaged(fault));
    }
    next.batch.copy(&next.block)?;
    Ok(())
}

/// Reads the data of these blocks from their zone, and adds it to a Move.
fn copy_records<D: Device>(
    device: &mut D,
    zone: ReadableZone,
    tables: &Tables,
    blocks: &[u32],
    next: &mut NextMove,
) -> Result<(), MountFault>
    // The tables have all these blocks.
    requires named { AllByRecursion (IsNamed tables.now) blocks.now }
    // Done, as many bytes are added as they have, and while the drive is clean their data, if their places can be read.
    ensures bytes { IsTrue (D.drive device.new).clean → IsKnown (D.drive device.old) zone.number zone.reported
        → AllByRecursion (IsReadableAt tables.now (zone.number * (D.drive device.old).geometry.size)
        zone.reported.blocks) blocks.now
        → OnOk result (Adds next.old.batch.bytes (D.drive device.old).geometry.block
        (moved_data (source_of (D.drive device.old) tables.now zone.number) blocks.now) next.new.batch.bytes) }
    ensures grown { OnOk result (Extends next.old.batch.bytes next.new.batch.bytes
        (data_count (moved_entries tables.now.map.places blocks.now) * (D.drive device.old).geometry.block)) }
    // If their places can be read, it fails only if the drive stops or memory runs out, and zones hold what they held.
    ensures err { IsKnown (D.drive device.old) zone.number zone.reported
        → AllByRecursion (IsReadableAt tables.now (zone.number * (D.drive device.old).geometry.size)
        zone.reported.blocks) blocks.now
        → IfErr result (IsInterruption (D.drive device.new)) }
    ensures heading { next.new.batch.heading ≡ next.old.batch.heading }
    ensures kept { IsKnown (D.drive device.old) zone.number zone.reported
        → KeepsZones (D.drive device.old) (D.drive device.new) }
    ensures stays { Stays (D.drive device.old) (D.drive device.new) }
{
    let _size = device.geometry().size;
    for block in blocks {
        copy_record(device, zone, tables.place_of(*block), next)?;
    }
    Ok(())
}

/// At most `most` of the numbers, from index `from` on.
fn part(numbers: &[u32], from: usize, most: usize) -> &[u32]
    requires { from ≤ length numbers.now }
    ensures { result.now ≡ take most (drop from numbers.now) }
{
    let rest = &numbers[from..];
    &rest[..most.min(rest.len())]
}

impl MovePlan {
    /// How many Moves there are. It is at least one.
    pub(crate) fn count(&self) -> usize
        requires { 1 ≤ self.now.most }
        ensures { result ≡ move_count self.now }
    {
        self.blocks.len().div_ceil(self.most as usize).max(1)
    }

    /// The size that a Move says.
    fn size_of(&self, number: usize) -> Option<u32>
        requires most { 1 ≤ self.now.most }
        requires few { number < move_count self.now }
        ensures { result ≡ size_by self.now number }
    {
        if number + 1 == self.count() {
            return self.size;
        }
        self.early
    }

    /// The blocks that a Move names.
    fn blocks_of(&self, number: usize) -> &[u32]
        requires most { 1 ≤ self.now.most }
        requires few { number < move_count self.now }
        ensures { result.now ≡ named_by self.now number }
    {
        part(
            &self.blocks,
            number * self.most as usize,
            self.most as usize,
        )
    }
}

/// Builds the Move with this number, so that only its Append is left to do.
fn build_move<D: Device>(
    device: &mut D,
    plan: &MovePlan,
    tables: &Tables,
    number: usize,
    next: &mut NextMove,
) -> Result<(), MountFault>
    // The plan has this Move, with a sequence in range, blocks that the tables have, and a header that fits.
    requires most { 1 ≤ plan.now.most }
    requires few { number < move_count plan.now }
    requires last { plan.now.next + number < 2 ^ 63 }
    requires named { AllByRecursion (IsNamed tables.now) (named_by plan.now number) }
    requires range { IsInRange (D.drive device.old).geometry }
    requires heading { IsHeading (D.drive device.old).geometry.block
        (move_by (source_of (D.drive device.old) tables.now plan.now.torn) plan.now number).heading }
    // Done, the bytes are a batch with the heading of this Move, and exactly this Move while the drive is clean.
    ensures shaped { OnOk result (IsShaped (D.drive device.old).geometry.block
        (move_by (source_of (D.drive device.old) tables.now plan.now.torn) plan.now number).heading next.new.batch) }
    ensures built { IsTrue (D.drive device.new).clean → CanCopy (D.drive device.old) tables.now plan.now number
        → OnOk result (IsBuiltAs (D.drive device.old).geometry.block
        (move_by (source_of (D.drive device.old) tables.now plan.now.torn) plan.now number) next.new.batch) }
    // If its data can be read, it fails only if the drive stops or memory runs out, and zones hold what they held.
    ensures err { CanCopy (D.drive device.old) tables.now plan.now number
        → IfErr result (IsInterruption (D.drive device.new)) }
    ensures kept { CanCopy (D.drive device.old) tables.now plan.now number
        → KeepsZones (D.drive device.old) (D.drive device.new) }
    ensures stays { Stays (D.drive device.old) (D.drive device.new) }
{
    let block_bytes = device.geometry().block;
    let blocks = plan.blocks_of(number);
    let sequence = plan.next + number as u64;
    next.batch
        .start(Kind::Move, sequence, plan.torn, plan.size_of(number));
    name_records(&mut next.batch, tables, blocks)?;
    next.batch.encode(block_bytes)?;
    let zone = ReadableZone {
        number: plan.torn,
        reported: plan.reported,
    };
    copy_records(device, zone, tables, blocks, next)
}

/// Adds the header of a batch to those of its zone.
fn push_built(
    heads: &mut ZoneHeads,
    batch: &BatchBuilder,
    block_bytes: u32,
) -> Result<(), AllocError>
    // The batch is built whole, and the entries and blocks of the zone can still be counted in 32 bits.
    requires block { 512 ≤ block_bytes }
    requires heading { IsHeading block_bytes batch.now.heading }
    requires built { IsBuilt block_bytes batch.now }
    requires few { length heads.old.entries + length batch.now.heading.entries < 2 ^ 32 }
    requires short { heads.old.blocks + 1 + data_count batch.now.heading.entries < 2 ^ 32 }
    ensures { OnOk result (heads.new ≡ with_heading heads.old batch.now.heading) }
{
    match read_header(&batch.bytes()[..block_bytes as usize]) {
        Ok(header) => heads.push(&header),
        Err(_) => unreachable!(),
    }
}

/// Whether the header of a batch can be added to those of its zone: its entries and blocks still fit 32 bits.
#[tactic(auto, using(crate::proofs::MoveBuildLaws::few_data))]
fn can_push(heads: &ZoneHeads, batch: &BatchBuilder) -> bool
    ensures yes { IsTrue result → (length heads.now.entries + length batch.now.heading.entries < 2 ^ 32)
        × (heads.now.blocks + 1 + data_count batch.now.heading.entries < 2 ^ 32) }
    ensures no { length heads.now.entries + length batch.now.heading.entries < 2 ^ 31
        → heads.now.blocks + 1 + data_count batch.now.heading.entries < 2 ^ 31 → IsTrue result }
{
    if heads.entries().len() >= 1 << 31 {
        return false;
    }
    if batch.entries().len() >= 1 << 31 {
        return false;
    }
    heads.blocks() < 1 << 31
}

/// Appends a batch to a zone.
fn append_move<D: Device>(
    alloc: Global,
    device: &mut D,
    zone: u32,
    batch: &BatchBuilder,
) -> Result<(), MountFault>
    // It is a batch that fits in one transfer. While the drive is clean, the drive takes it.
    requires takeable { IsTakeable (D.drive device.old).geometry batch.now }
    requires can { IsTrue (D.drive device.old).clean → CanTake (D.drive device.old) zone batch.now }
    // Done, the zone has the whole batch.
    ensures ok { IsTrue (D.drive device.new).clean
        → OnOk result (TakesFirst (D.drive device.old) (D.drive device.new) zone
        (built (D.drive device.old).geometry.block batch.now)
        (batch_size (built (D.drive device.old).geometry.block batch.now))) }
    // Else the zone has a front of it, or the drive can be mounted as before, with the same array.
    ensures left { IsTrue (D.drive device.new).clean
        → IfErr result (λ _. TakesSome (D.drive device.old) (D.drive device.new) zone
        (built (D.drive device.old).geometry.block batch.now)) }
    // While the drive is clean it fails only if the drive stops or memory runs out.
    ensures err { IsTrue (D.drive device.new).clean → IfErr result (IsInterruption (D.drive device.new)) }
    ensures stays { Stays (D.drive device.old) (D.drive device.new) }
{
    let start = device.geometry().start_of(zone);
    match append(alloc, device, start, batch.bytes()) {
        Ok(_) => Ok(()),
        Err(fault) => Err(fault_or_damaged(fault)),
    }
}

/// Builds and appends the Move with this number, and adds its header to those of the Moves before
/// it.
fn make_move<D: Device>(
    alloc: Global,
    device: &mut D,
    plan: &MovePlan,
    tables: &Tables,
    number: usize,
    moves: &mut Moves,
) -> Result<(), MountFault>
    // It is a Move of the plan, whatever the Reads returned. While the drive is clean, all before it are made.
    requires safe { IsSafe (D.drive device.old).geometry tables.now plan.now }
    requires few { number < move_count plan.now }
    requires at { IsTrue (D.drive device.old).clean → (n : ℕ) × (start : DriveState)
        × IsAtMove n start (D.drive device.old) tables.now plan.now number moves.old.heads }
    // Done, it is made, too, if all before it were, and its header is known.
    ensures ok { (n : ℕ) (start : DriveState) → IsTrue (D.drive device.new).clean
        → IsAtMove n start (D.drive device.old) tables.now plan.now number moves.old.heads
        → OnOk result (IsAtMove n start (D.drive device.new) tables.now plan.now (number + 1) moves.new.heads) }
    // It fails only if the drive stops or memory runs out. A drive that can be mounted stays so, with the same array.
    ensures err { (n : ℕ) (start : DriveState) → IsTrue (D.drive device.new).clean
        → IsAtMove n start (D.drive device.old) tables.now plan.now number moves.old.heads
        → IfErr result (IsInterruption (D.drive device.new)) }
    ensures kept { (n : ℕ) (start : DriveState) → IsTrue (D.drive device.new).clean
        → IsAtMove n start (D.drive device.old) tables.now plan.now number moves.old.heads
        → KeepsMountable n start (D.drive device.new) }
    ensures stays { Stays (D.drive device.old) (D.drive device.new) }
{
    build_move(device, plan, tables, number, &mut moves.next)?;
    let block_bytes = device.geometry().block;
    if !can_push(&moves.heads, &moves.next.batch) {
        return Err(MountFault::Damaged);
    }
    push_built(&mut moves.heads, &moves.next.batch, block_bytes)?;
    append_move(alloc, device, plan.into, &moves.next.batch)
}

/// Builds and appends all Moves, and returns their headers.
pub(crate) fn make_moves<D: Device>(
    alloc: Global,
    device: &mut D,
    plan: &MovePlan,
    tables: &Tables,
) -> Result<ZoneHeads, MountFault>
    // The plan is safe, whatever the Reads returned. While the drive is clean, it is a repair, and no Move is made yet.
    requires safe { IsSafe (D.drive device.old).geometry tables.now plan.now }
    requires at { IsTrue (D.drive device.old).clean → (n : ℕ)
        × IsAtMove n (D.drive device.old) (D.drive device.old) tables.now plan.now 0 no_heads }
    // Done, the zone of the Moves holds all of them, and no torn tail.
    ensures ok { (n : ℕ) → IsTrue (D.drive device.new).clean
        → IsAtMove n (D.drive device.old) (D.drive device.old) tables.now plan.now 0 no_heads
        → IfOk result (λ heads. IsAtMove n (D.drive device.old) (D.drive device.new) tables.now plan.now
        (move_count plan.now) heads) }
    // It fails only if the drive stops or memory runs out. A drive that can be mounted stays so, with the same array.
    ensures err { (n : ℕ) → IsTrue (D.drive device.new).clean
        → IsAtMove n (D.drive device.old) (D.drive device.old) tables.now plan.now 0 no_heads
        → IfErr result (IsInterruption (D.drive device.new)) }
    ensures kept { (n : ℕ) → IsTrue (D.drive device.new).clean
        → IsAtMove n (D.drive device.old) (D.drive device.old) tables.now plan.now 0 no_heads
        → KeepsMountable n (D.drive device.old) (D.drive device.new) }
    ensures stays { Stays (D.drive device.old) (D.drive device.new) }
{
    let heads = ZoneHeads::new(alloc);
    let mut moves = Moves {
        heads,
        next: NextMove {
            batch: BatchBuilder::new(alloc),
            block: Vec::new(alloc),
        },
    };
    let _size = device.geometry().size;
    for number in 0..plan.count() {
        make_move(alloc, device, plan, tables, number, &mut moves)?;
    }
    Ok(moves.heads)
}
