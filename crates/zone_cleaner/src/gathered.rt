ghost use Rattle.std.specs.Prelude.{◌≡◌, ◌≢◌, ◌⊎◌, ◌≤◌, ◌<◌, ◌+◌, ◌++◌, ◌∷◌, ◌^◌, false, [], drop, is_some, length, map, nat_eq};
ghost use Rattle.std.specs.Prelude.{Err, None, Some, IfErr, IfSome, IsFalse, IsTrue, OnOk, OnErr, slice_index_or};
ghost use Rattle.std.specs.List.{AllByRecursion, IsDistinct, concat, list_any};
ghost use Rattle.std.specs.Option.{option_map};
ghost use Rattle.batch_log.specs.Header.{IsHeading};
ghost use Rattle.zone_choice.specs.Agreement.{mounted_array};
ghost use Rattle.zone_choice.specs.Builder.{naming};
ghost use Rattle.zone_cleaner.specs.Answering.{GatherAnswers};
ghost use Rattle.zone_cleaner.specs.Gathered.{AreOfLength, AreWithin, stored_bytes, data_bytes, entries_for, entry_for};
ghost use Rattle.zone_cleaner.specs.Moving.{HoldsMove, headed_bytes, heading_for, move_with};
ghost use Rattle.zone_cleaner.specs.LiveRecords.{gathered_data, trim_record, without_all, without_block};
ghost use Rattle.zone_choice.specs.Changes.{IsHalt, fault_halt};
ghost use Rattle.zone_cleaner.specs.Reading.{AddsBlock, IsGatherFault, IsStoredAt, OnlyAsks, OnlyReads};
ghost use Rattle.zone_cleaner.specs.Reading.{data_record, live_record};
ghost use Rattle.zone_cleaner.specs.Turns.{clean_fault};
ghost use Rattle.zone_cleaner.specs.declared.fault.CleanFault.TheVariants.{OutOfMemory};

use crate::fault::CleanFault;
use batch_log::{Entry, Kind};
use drive_port::{Device, Halt, PortFault};
use indexmap::IndexMap;
use logical_map::Place;
use std::alloc::{AllocError, Global};
use std::marker::Model;
use zone_choice::{BatchBuilder, Mounted};

/// The live records for the next Move, in the order in which they were gathered. A record has
/// data, or none if it is a trim. Data is read straight into the bytes of the Move.
#[derive(Drop)]
pub struct Gathered {
    /// For each block the position of its data in `batch`; none for a trim.
    records: IndexMap<u32, Option<usize>>,
    /// The Move: room for its header block, and the data in the order in which it was read.
    batch: BatchBuilder,
    /// Whether records were dropped. Their data is still in `batch`. So the Move is packed before
    /// it is appended.
    gaps: bool,
    /// The Move without the data of dropped records.
    packed: BatchBuilder,
    /// How many bytes each block has, the header block included.
    block_bytes: u32,
}

impl Model for Gathered {
    ghost use Rattle.std.specs.Prelude.{◌≡◌, ◌≤◌, false, drop, length, if◌then◌else◌};
    ghost use Rattle.zone_cleaner.specs.Gathered.{AreWithin, GatheredView, data_bytes, gathered_records};

    ghost Value = { GatheredView };

    ghost view = { λ g. record {
      records = gathered_records g.block_bytes g.batch.bytes g.records.entries;
      block_bytes = g.block_bytes;
      batch = if g.gaps then g.packed else g.batch;
    } };

    ghost invariant = { λ g.
        (g.block_bytes ≤ length g.batch.bytes)
        × AreWithin g.block_bytes (length g.batch.bytes) g.records.entries
        × (g.gaps ≡ false
        → data_bytes g.block_bytes g.batch.bytes g.records.entries ≡ drop g.block_bytes g.batch.bytes) };
}

/// What the header block of a Move says besides its entries, and how many bytes it has.
#[derive(Clone, Copy)]
pub struct MoveHeader {
    /// How many logical blocks the disk has.
    pub size: u32,
    pub sequence: u64,
    /// The zone from which the records are moved.
    pub source: u32,
    pub block_bytes: u32,
}

/// The fault of a clean that a halt of the drive causes.
pub fn fault_of(halt: Halt) -> CleanFault
    ensures { result ≡ clean_fault halt }
{
    match halt {
        Halt::Memory => CleanFault::OutOfMemory,
        Halt::Failed => CleanFault::Failed,
        Halt::Stopped => CleanFault::Stopped,
    }
}

/// The fault of a clean behind the fault of a command, which the drive does not refuse while it is clean.
pub fn command_fault(fault: PortFault) -> CleanFault
    ensures halt { IsHalt fault → result ≡ clean_fault (fault_halt fault) }
    ensures failed { result ≡ CleanFault.Failed → fault ≡ PortFault.Failed }
{
    match fault {
        PortFault::Memory => CleanFault::OutOfMemory,
        PortFault::Failed => CleanFault::Failed,
        PortFault::Stopped => CleanFault::Stopped,
        PortFault::Refused(_) => CleanFault::Damaged,
    }
}

/// Reads the data of a block from its address, and adds it to a batch.
fn fetch<D: Device>(
    batch: &mut BatchBuilder,
    disk: &mut Mounted<D>,
    block: u32,
    address: u64,
) -> Result<(), CleanFault>
    // While the drive is clean, the newest record of the block is stored there.
    requires { IsTrue disk.old.drive.clean → IsStoredAt disk.old block (Place.At address) }
    // Whatever the Read returned, it has sent one command at most, and tables and heading are the same. Done, as many
    // bytes as a block has follow those that the batch had; refused, these are the same.
    ensures asks { OnlyAsks disk.old disk.new }
    ensures fails { result ≡ Err CleanFault.Failed → IsFalse disk.new.drive.unfailing }
    ensures heading { batch.new.heading ≡ batch.old.heading }
    ensures adds { OnOk result (AddsBlock disk.old.drive.geometry.block batch.old.bytes batch.new.bytes) }
    ensures failed { OnErr result (batch.new.bytes ≡ batch.old.bytes) }
    // While the drive is clean, the contents are the same, and the bytes are the block's. Then it is refused only out
    // of memory, or where the drive has stopped.
    ensures reads { IsTrue disk.new.drive.clean → OnlyReads disk.old disk.new }
    ensures ok { IsTrue disk.new.drive.clean → OnOk result
        (batch.new.bytes ≡ batch.old.bytes ++ slice_index_or (mounted_array disk.old) block []) }
    ensures err { IsTrue disk.new.drive.clean → IfErr result (IsGatherFault disk.new.drive) }
{
    if let Err(fault) = batch.read(&mut disk.device, address) {
        return Err(command_fault(fault));
    }
    Ok(())
}

impl Gathered {
    /// No records. Nothing is allocated.
    pub fn new(alloc: Global) -> Gathered
        ensures { result.records ≡ [] }
    {
        Gathered {
            records: IndexMap::new(alloc),
            batch: BatchBuilder::new(alloc),
            gaps: false,
            packed: BatchBuilder::new(alloc),
            block_bytes: 0,
        }
    }

    /// How many records there are, of as many blocks.
    pub fn len(&self) -> usize
        ensures len { result ≡ length self.now.records }
        ensures distinct { IsDistinct nat_eq (map (λ r. r.block) self.now.records) }
    {
        self.records.len()
    }

    /// Makes room for a header block of `block_bytes` bytes, the length of each block of data that is there.
    fn make_room(&mut self, block_bytes: u32) -> Result<(), CleanFault>
        ensures records { self.new.records ≡ self.old.records }
        ensures room { OnOk result (self.new.block_bytes ≡ block_bytes) }
        // It is refused only for memory, unless some data has another length. No command is sent.
        ensures err { AreOfLength block_bytes (gathered_data self.old.records)
            → IfErr result (λ fault. fault ≡ OutOfMemory) }
        ensures read { IfErr result (λ fault. fault ≢ CleanFault.Failed) }
    {
        if self.block_bytes == block_bytes {
            return Ok(());
        }
        if has_data(&self.records) {
            return Err(CleanFault::Damaged);
        }
        self.batch.make_room(block_bytes)?;
        self.block_bytes = block_bytes;
        self.gaps = false;
        Ok(())
    }

    /// Adds a trim, of a block that is greater than those that are gathered.
    fn push_trim(&mut self, block: u32) -> Result<(), AllocError>
        requires above { AllByRecursion (λ r. r.block < block) self.old.records }
        ensures ok { OnOk result (self.new.records ≡ self.old.records ++ trim_record block ∷ []) }
        ensures err { OnErr result (self.new.records ≡ self.old.records) }
    {
        self.records.insert(block, None)?;
        Ok(())
    }

    /// Adds a record with data, which is read from an address. Its block is greater than those
    /// that are gathered. If it runs out of memory, the drive may have completed a Read.
    fn read<D: Device>(
        &mut self,
        disk: &mut Mounted<D>,
        block: u32,
        address: u64,
    ) -> Result<(), CleanFault>
        requires above { AllByRecursion (λ r. r.block < block) self.old.records }
        requires stored { IsTrue disk.old.drive.clean → IsStoredAt disk.old block (Place.At address) }
        requires whole { IsTrue disk.old.drive.clean
            → AreOfLength disk.old.drive.geometry.block (gathered_data self.old.records) }
        ensures { GatherAnswers disk.old self.old.records (data_record disk.old block) result
            disk.new self.new.records }
    {
        let block_bytes = disk.geometry().block;
        self.make_room(block_bytes)?;
        self.records.reserve(1)?;
        let position = self.batch.bytes().len();
        fetch(&mut self.batch, disk, block, address)?;
        // There is room for it.
        let _ = self.records.insert(block, Some(position));
        Ok(())
    }

    /// Gathers the record of a block, which is at this place. The block is greater than those that
    /// are gathered.
    pub fn gather<D: Device>(
        &mut self,
        disk: &mut Mounted<D>,
        block: u32,
        place: Place,
    ) -> Result<(), CleanFault>
        requires above { AllByRecursion (λ r. r.block < block) self.old.records }
        requires stored { IsTrue disk.old.drive.clean → IsStoredAt disk.old block place }
        requires whole { IsTrue disk.old.drive.clean
            → AreOfLength disk.old.drive.geometry.block (gathered_data self.old.records) }
        ensures { GatherAnswers disk.old self.old.records (live_record disk.old block place) result
            disk.new self.new.records }
    {
        if let Place::At(address) = place {
            return self.read(disk, block, address);
        }
        self.push_trim(block)?;
        Ok(())
    }

    /// Drops the record of a block, if it is gathered.
    fn forget_one(&mut self, block: u32)
        ensures { self.new.records ≡ without_block block self.old.records }
    {
        if self.records.shift_remove(&block).is_some() {
            self.gaps = true;
        }
    }

    /// Drops the records of the blocks that these entries name. Nothing is allocated.
    pub fn forget(&mut self, entries: &[Entry])
        requires { AllByRecursion (λ e. e.block < 2 ^ 32) entries.now }
        ensures { self.new.records ≡ without_all entries.now self.old.records }
    {
        for entry in entries {
            self.forget_one(entry.block as u32);
        }
    }

    /// Drops all records, and keeps their memory.
    pub fn clear(&mut self)
        ensures { self.new.records ≡ [] }
    {
        let block_bytes = self.block_bytes as usize;
        self.records.clear();
        self.batch.truncate(block_bytes);
        self.gaps = false;
    }

    /// Builds the Move of the records. After that its Append allocates nothing for them.
    pub fn build(&mut self, header: MoveHeader) -> Result<(), CleanFault>
        // One header block can name all the records.
        requires block { (header.block_bytes ≡ 512) ⊎ (header.block_bytes ≡ 4096) }
        requires heading { IsHeading header.block_bytes
            (move_with header self.old.records).heading }
        requires few { AllByRecursion (λ r. r.block + 1 < 2 ^ 32) self.old.records }
        // The records never change. Done, the Move is built: its header block, and after it their data, whole blocks.
        ensures records { self.new.records ≡ self.old.records }
        ensures built { OnOk result
            (HoldsMove self.new.batch header.block_bytes (move_with header self.old.records)) }
        ensures whole { OnOk result (AreOfLength header.block_bytes (gathered_data self.old.records)) }
        // It is refused only for memory, unless some data has another length.
        ensures err { AreOfLength header.block_bytes (gathered_data self.old.records)
            → IfErr result (λ fault. fault ≡ OutOfMemory) }
    {
        self.make_room(header.block_bytes)?;
        if self.gaps {
            let bytes = self.batch.bytes();
            pack(&self.records, bytes, header.block_bytes, &mut self.packed)?;
            head_move(&self.records, &mut self.packed, header)?;
            return Ok(());
        }
        head_move(&self.records, &mut self.batch, header)?;
        Ok(())
    }

    /// The Move that was built.
    pub fn batch(&self) -> &BatchBuilder
        ensures { result.now ≡ self.now.batch }
    {
        if self.gaps {
            return &self.packed;
        }
        &self.batch
    }
}

/// Whether one of the records has data.
fn has_data(records: &IndexMap<u32, Option<usize>>) -> bool
    ensures { result ≡ list_any (λ b. is_some b.1) records.now.entries }
{
    for position in records.values() {
        if position.is_some() {
            return true;
        }
    }
    false
}

/// Makes another batch: room for a header block, and then the data of the records.
fn pack(
    records: &IndexMap<u32, Option<usize>>,
    bytes: &[u8],
    block_bytes: u32,
    packed: &mut BatchBuilder,
) -> Result<(), AllocError>
    requires { AreWithin block_bytes (length bytes.now) records.now.entries }
    ensures long { OnOk result (block_bytes ≤ length packed.new.bytes) }
    ensures bytes { OnOk result
        (drop block_bytes packed.new.bytes ≡ data_bytes block_bytes bytes.now records.now.entries) }
{
    packed.make_room(block_bytes)?;
    copy_all(records, bytes, block_bytes as usize, packed)
}

/// Adds the data of the records to a batch.
fn copy_all(
    records: &IndexMap<u32, Option<usize>>,
    bytes: &[u8],
    block_bytes: usize,
    packed: &mut BatchBuilder,
) -> Result<(), AllocError>
    requires { AreWithin block_bytes (length bytes.now) records.now.entries }
    ensures { OnOk result (packed.new.bytes
        ≡ packed.old.bytes ++ data_bytes block_bytes bytes.now records.now.entries) }
{
    for position in records.values() {
        copy_block(bytes, block_bytes, *position, packed)?;
    }
    Ok(())
}

/// Adds the block of data at a position to a batch. Without a position nothing is added.
fn copy_block(
    bytes: &[u8],
    block_bytes: usize,
    position: Option<usize>,
    packed: &mut BatchBuilder,
) -> Result<(), AllocError>
    requires { IfSome position (λ position. position + block_bytes ≤ length bytes.now) }
    ensures { OnOk result
        (packed.new.bytes ≡ packed.old.bytes ++ stored_bytes block_bytes bytes.now position) }
{
    match position {
        Some(position) => packed.copy(&bytes[position..][..block_bytes]),
        None => Ok(()),
    }
}

/// Writes the header of a Move of these records into the room that was left for it.
fn head_move(
    records: &IndexMap<u32, Option<usize>>,
    batch: &mut BatchBuilder,
    header: MoveHeader,
) -> Result<(), AllocError>
    // There is room for a header block, and it can name all the records.
    requires block { (header.block_bytes ≡ 512) ⊎ (header.block_bytes ≡ 4096) }
    requires room { header.block_bytes ≤ length batch.old.bytes }
    requires heading { IsHeading header.block_bytes
        (heading_for header (entries_for records.now.entries)) }
    requires few { AllByRecursion (λ b. b.0 + 1 < 2 ^ 32) records.now.entries }
    // Done, the batch has this heading, and its bytes begin with the header block.
    ensures heading { OnOk result
        (batch.new.heading ≡ heading_for header (entries_for records.now.entries)) }
    ensures bytes { OnOk result
        (batch.new.bytes ≡ headed_bytes header.block_bytes batch.new.heading batch.old.bytes) }
    // Whatever it answers, the data after the header block is the same, and so is the length.
    ensures kept { drop header.block_bytes batch.new.bytes
        ≡ drop header.block_bytes batch.old.bytes }
    ensures length { length batch.new.bytes ≡ length batch.old.bytes }
{
    batch.start(
        Kind::Move,
        header.sequence,
        header.source,
        Some(header.size),
    );
    name_all(records, batch)?;
    batch.encode_before_data(header.block_bytes);
    Ok(())
}

/// Names the blocks of the records in a batch.
fn name_all(
    records: &IndexMap<u32, Option<usize>>,
    batch: &mut BatchBuilder,
) -> Result<(), AllocError>
    requires { AllByRecursion (λ b. b.0 + 1 < 2 ^ 32) records.now.entries }
    ensures heading { OnOk result
        (batch.new.heading ≡ naming batch.old.heading (entries_for records.now.entries)) }
    ensures bytes { batch.new.bytes ≡ batch.old.bytes }
{
    for (block, position) in records.iter() {
        name_record(batch, *block, *position)?;
    }
    Ok(())
}

/// Names the block of one record.
fn name_record(
    batch: &mut BatchBuilder,
    block: u32,
    position: Option<usize>,
) -> Result<(), AllocError>
    requires { block + 1 < 2 ^ 32 }
    ensures heading { OnOk result
        (batch.new.heading ≡ naming batch.old.heading (entry_for block position ∷ [])) }
    ensures bytes { batch.new.bytes ≡ batch.old.bytes }
{
    match position {
        Some(_) => batch.name_data(block, 1),
        None => batch.name_trims(block, 1),
    }
}
