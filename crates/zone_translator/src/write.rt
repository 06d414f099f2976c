ghost use Rattle.std.specs.Prelude.{◌≡◌, ◌⊎◌, ◌++◌, ◌+◌, ◌*◌, ◌≤◌, ◌<◌, ◌^◌, IfOk, IfErr, IsTrue, OnErr, OnOk, Some};
ghost use Rattle.batch_log.specs.Header.{IsSize, entry_room};
ghost use Rattle.zone_choice.specs.Agreement.{Agrees};
ghost use Rattle.drive_array.specs.Reserve.{FitsReserve};
ghost use Rattle.zone_choice.specs.Roles.{AreApart};
ghost use Rattle.zone_choice.specs.Sane.{IsSane};
ghost use Rattle.zone_choice.specs.Tables.{SameButReady, size_of};
ghost use Rattle.zone_cleaner.specs.Start.{AgreesWithClean};
ghost use Rattle.zone_states.specs.Geometry.{IsInRange};
ghost use Rattle.zone_cleaner.specs.Answering.{CostsClean};
ghost use Rattle.zone_translator.specs.Answering.{MaySend, StaysInRange, StaysOfSize};
ghost use Rattle.zone_translator.specs.Batches.{CanWrite, HasBytes, IsAfter, IsNextBatch, IsRoom, IsTaken, KeepsCut};
ghost use Rattle.zone_translator.specs.Batches.{WritesRest, batch_count, bytes_of, header_of, is_trim, named_with};
ghost use Rattle.zone_translator.specs.Batches.{next_count, next_heading};
ghost use Rattle.zone_translator.specs.Changes.{CostsBatch, GrowLeaves, IsCause, RoomLeaves};
ghost use Rattle.zone_translator.specs.Cleaning.{KeepsCleaning};

use crate::fault::DiskFault;
use crate::room::{fault_of, has_room, make_room};
use batch_log::Kind;
use drive_port::{Device, Geometry};
use std::alloc::AllocError;
use zone_choice::{BatchBuilder, Filling, Mounted, batch_most};
use zone_cleaner::Cleaner;

/// What is written to blocks that follow one another.
#[derive(Clone, Copy)]
pub(crate) enum Content<'a> {
    /// This byte, to all bytes of the blocks.
    Byte(u8),
    /// These bytes, block by block.
    Bytes(&'a [u8]),
    /// No data: the blocks are trimmed, and read as zeros.
    Trim,
}

impl<'a> Content<'a> {
    fn is_trim(self) -> bool
        ensures { result ≡ is_trim self.entry }
    {
        match self {
            Content::Trim => true,
            _ => false,
        }
    }

    /// What is written after the first `count` bytes.
    pub(crate) fn after(self, count: usize) -> Content<'a>
        requires { HasBytes count self }
        ensures { IsAfter count self.entry result }
    {
        match self {
            Content::Bytes(bytes) => Content::Bytes(&bytes[count..]),
            content => content,
        }
    }
}

/// What is left of a write: `left` blocks from `first` on, and what is written to them.
#[derive(Clone, Copy)]
pub(crate) struct Rest<'a> {
    pub(crate) first: u32,
    pub(crate) left: u32,
    pub(crate) content: Content<'a>,
}

/// How many of the blocks left the next batch takes.
fn batch_count(geometry: &Geometry, host: Filling, left: u32, trim: bool) -> u32
    requires in_range { IsInRange geometry.now }
    requires room { host.written + 2 ≤ geometry.now.capacity }
    ensures { result ≡ batch_count geometry.now host left trim }
{
    let most = left.min(batch_most(geometry));
    if trim {
        return most;
    }
    most.min(geometry.capacity - host.written - 1)
}

/// The sequence number that the next batch gets.
fn next_sequence<D: Device>(disk: &Mounted<D>) -> u64
    ensures { result ≡ disk.now.tables.next }
{
    disk.tables.next()
}

/// The zone that the next batch goes to. A batch needs a sequence number, too.
pub(crate) fn find_room<D: Device>(
    disk: &mut Mounted<D>,
    cleaner: &mut Cleaner,
) -> Result<Filling, DiskFault>
    // While the drive is clean, tables, drive and clean agree.
    requires sane { IsSane disk.old }
    requires agrees { IsTrue disk.old.drive.clean → AgreesWithClean disk.old cleaner.old }
    // Then the array never changes, and a fault has its cause. It adds no turns to a clean that ran.
    ensures leaves { IsTrue disk.new.drive.clean → RoomLeaves disk.old disk.new cleaner.new result }
    ensures cause { IsTrue disk.new.drive.clean → IfErr result (IsCause disk.new.drive disk.new.tables.next) }
    ensures clean { IsTrue disk.new.drive.clean → KeepsCleaning disk.old cleaner.old result disk.new cleaner.new }
    // Done, by the tables there is room, and a sequence is left. Whatever the Reads returned, the numbers stay in
    // range.
    ensures ok { IfOk result (IsRoom disk.new) }
    ensures apart { OnOk result (AreApart disk.new.tables.roles) }
    ensures stays { StaysOfSize disk.old disk.new }
    // It costs at most one command more than a whole clean, or than one for each zone, once a command failed.
    ensures costs { CostsClean 1 disk.old.drive disk.new.drive }
{
    let host = make_room(disk, cleaner)?;
    if !has_room(disk, host) {
        return Err(DiskFault::Damaged);
    }
    let capacity = disk.geometry().capacity as u64;
    if next_sequence(disk) >= (1 << 63) - capacity {
        return Err(DiskFault::Spent);
    }
    Ok(host)
}

/// Names `count` blocks from `first` on, as trims or with data.
fn name_blocks(
    batch: &mut BatchBuilder,
    trim: bool,
    first: u32,
    count: u32,
) -> Result<(), AllocError>
    requires { first + count < 2 ^ 32 }
    ensures { OnOk result (batch.new.heading ≡ named_with batch.old.heading trim first count) }
{
    if trim {
        return batch.name_trims(first, count);
    }
    batch.name_data(first, count)
}

/// Starts a batch of the host, of `count` blocks from `first` on. Its data is to follow the header block.
fn start_batch<D: Device>(
    disk: &Mounted<D>,
    batch: &mut BatchBuilder,
    trim: bool,
    first: u32,
    count: u32,
) -> Result<(), AllocError>
    // The geometry and the disk's size are in range, and one header can name all the blocks.
    requires in_range { IsInRange disk.now.drive.geometry }
    requires few { first + count < 2 ^ 32 }
    requires size { IsSize (size_of disk.now.tables) }
    requires room { count ≤ entry_room disk.now.drive.geometry.block }
    // Done, the batch is the disk's next one, and its bytes are the header block.
    ensures heading { OnOk result (batch.new.heading ≡ next_heading disk.now trim first count) }
    ensures bytes { OnOk result (batch.new.bytes ≡ header_of disk.now trim first count) }
{
    let tables = &disk.tables;
    batch.start(Kind::Host, tables.next(), 0, Some(tables.blocks()));
    name_blocks(batch, trim, first, count)?;
    batch.encode(disk.geometry().block)
}

/// Adds the data of the batch: the first `count` bytes of what is written.
fn add_content(batch: &mut BatchBuilder, content: Content, count: usize) -> Result<(), AllocError>
    requires within { HasBytes count content }
    requires few { count < 2 ^ 62 }
    // The heading never changes. Done, the data follows the bytes that the batch had; a trim adds none.
    ensures heading { batch.new.heading ≡ batch.old.heading }
    ensures bytes { OnOk result (batch.new.bytes ≡ batch.old.bytes
        ++ bytes_of count content.entry) }
{
    match content {
        Content::Byte(byte) => batch.fill(count, byte),
        Content::Bytes(bytes) => batch.copy(&bytes[..count]),
        Content::Trim => Ok(()),
    }
}

/// Builds the next batch of a write for the host zone, of as many of the blocks left as the batch and the zone take,
/// and answers how many. All is allocated then that its Append needs.
fn build_batch<D: Device>(
    disk: &mut Mounted<D>,
    batch: &mut BatchBuilder,
    host: Filling,
    rest: Rest,
) -> Result<u32, AllocError>
    // By the tables the host zone has room, a sequence is left, and the rest can be written.
    requires sane { IsSane disk.old }
    requires apart { AreApart disk.old.tables.roles }
    requires room { IsRoom disk.old host }
    requires can { CanWrite disk.old rest }
    // While the drive is clean, tables and drive agree. Then, done, the batch is the next one, and can be appended.
    requires agrees { IsTrue disk.old.drive.clean → Agrees disk.old }
    ensures ok { IsTrue disk.new.drive.clean → IfOk result (IsNextBatch disk.new host rest.entry batch.new) }
    // Done, it may be sent, and has as many of the blocks left as it can take.
    ensures may { OnOk result (MaySend disk.new host.zone batch.new) }
    ensures size { OnOk result (batch.new.heading.size ≡ Some (size_of disk.old.tables)) }
    ensures count { IfOk result
        (λ count. count ≡ next_count disk.old.drive.geometry host rest.entry) }
    // Whatever it answers, nothing of the disk changes except which blocks are ready to be placed.
    ensures drive { disk.new.drive ≡ disk.old.drive }
    ensures kept { SameButReady disk.old.tables disk.new.tables }
{
    let geometry = disk.geometry();
    let trim = rest.content.is_trim();
    let count = batch_count(&geometry, host, rest.left, trim);
    start_batch(disk, batch, trim, rest.first, count)?;
    add_content(
        batch,
        rest.content,
        count as usize * geometry.block as usize,
    )?;
    disk.tables.reserve(host.zone, rest.first, count)?;
    Ok(count)
}

/// Appends one batch of a write, and answers how many of the blocks left it took.
pub(crate) fn next_batch<D: Device>(
    disk: &mut Mounted<D>,
    cleaner: &mut Cleaner,
    batch: &mut BatchBuilder,
    rest: Rest,
) -> Result<u32, DiskFault>
    // The rest can be written. While the drive is clean, tables, drive and clean agree.
    requires sane { IsSane disk.old }
    requires can { CanWrite disk.old rest }
    requires agrees { IsTrue disk.old.drive.clean → AgreesWithClean disk.old cleaner.old }
    // Then, done, it has written the first of the blocks left. Refused, it has written none, unless the drive stopped.
    ensures leaves { IsTrue disk.new.drive.clean → WritesRest disk.old rest.entry result disk.new cleaner.new }
    ensures cause { IsTrue disk.new.drive.clean → IfErr result (IsCause disk.new.drive disk.new.tables.next) }
    // Then its batch is as long as it can be, and it adds no turns to a clean that ran.
    ensures cut { IsTrue disk.new.drive.clean → KeepsCut disk.old.drive rest.entry disk.new.drive }
    ensures clean { IsTrue disk.new.drive.clean → KeepsCleaning disk.old cleaner.old result disk.new cleaner.new }
    // Done, it took one block at least. Whatever the Reads returned, the numbers stay in range.
    ensures count { IfOk result (IsTaken disk.old.drive.geometry rest.entry) }
    ensures stays { StaysOfSize disk.old disk.new }
    // It costs at most the commands of one batch.
    ensures costs { CostsBatch disk.old.drive disk.new.drive }
{
    let host = find_room(disk, cleaner)?;
    let count = build_batch(disk, batch, host, rest)?;
    match cleaner.append_batch(disk, host, batch) {
        Ok(()) => Ok(count),
        Err(fault) => Err(fault_of(fault)),
    }
}

/// Appends an empty batch, whose header says that the disk has `blocks` blocks.
pub(crate) fn grow_batch<D: Device>(
    disk: &mut Mounted<D>,
    cleaner: &mut Cleaner,
    batch: &mut BatchBuilder,
    blocks: u32,
) -> Result<(), DiskFault>
    // The size is not below the disk's.
    requires sane { IsSane disk.old }
    requires grows { size_of disk.old.tables ≤ blocks }
    requires short { blocks ≤ 2 ^ 31 }
    // While the drive is clean, the reserve allows it, and tables, drive and clean agree.
    requires reserve { IsTrue disk.old.drive.clean → FitsReserve disk.old.drive.geometry blocks }
    requires agrees { IsTrue disk.old.drive.clean → AgreesWithClean disk.old cleaner.old }
    // Then, done, the disk has this size, and a header says so. Refused, the array is the same, unless the drive
    // stopped.
    ensures leaves { IsTrue disk.new.drive.clean → GrowLeaves disk.old disk.new cleaner.new blocks result }
    ensures cause { IsTrue disk.new.drive.clean → IfErr result (IsCause disk.new.drive disk.new.tables.next) }
    // Then it adds no turns to a clean that ran.
    ensures clean { IsTrue disk.new.drive.clean → KeepsCleaning disk.old cleaner.old result disk.new cleaner.new }
    // Done, the tables have this size; refused, the old one. Whatever the Reads returned, the numbers stay in range.
    ensures size { OnOk result (size_of disk.new.tables ≡ blocks) }
    ensures same { OnErr result (size_of disk.new.tables ≡ size_of disk.old.tables) }
    ensures stays { StaysInRange disk.old disk.new }
    // It costs at most the commands of one batch.
    ensures costs { CostsBatch disk.old.drive disk.new.drive }
{
    // A disk has one block at least.
    if blocks == 0 {
        return Err(DiskFault::Damaged);
    }
    let host = find_room(disk, cleaner)?;
    batch.start(Kind::Host, next_sequence(disk), 0, Some(blocks));
    batch.encode(disk.geometry().block)?;
    match cleaner.append_batch(disk, host, batch) {
        Ok(()) => Ok(()),
        Err(fault) => Err(fault_of(fault)),
    }
}
