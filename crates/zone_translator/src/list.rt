//! Lists of blocks: the batches that a disk makes of one.

ghost use Rattle.std.specs.Prelude.{◌≡◌, ◌++◌, ◌+◌, ◌*◌, ◌≤◌, ◌<◌, ◌^◌, IfOk, IfErr, IsTrue, OnOk, Some, drop, length};
ghost use Rattle.std.specs.Prelude.{nat_eq};
ghost use Rattle.std.specs.List.{AllByRecursion, IsDistinct};
ghost use Rattle.batch_log.specs.Header.{IsSize, entry_room, header_block};
ghost use Rattle.logical_map.specs.Places.{IsReady};
ghost use Rattle.zone_choice.specs.Agreement.{Agrees};
ghost use Rattle.zone_choice.specs.Roles.{AreApart};
ghost use Rattle.zone_choice.specs.Sane.{IsSane};
ghost use Rattle.zone_choice.specs.Tables.{SameButReady, size_of};
ghost use Rattle.zone_cleaner.specs.Start.{AgreesWithClean};
ghost use Rattle.zone_states.specs.Geometry.{IsInRange};
ghost use Rattle.zone_translator.specs.Answering.{MaySend, StaysOfSize};
ghost use Rattle.zone_translator.specs.Batches.{IsRoom, KeepsCutTo};
ghost use Rattle.zone_translator.specs.Changes.{IsCause, CostsBatch};
ghost use Rattle.zone_translator.specs.Cleaning.{KeepsCleaning};
ghost use Rattle.zone_translator.specs.Listed.{CanPutAll, IsFrontOf, IsNextListed, ListedLeaves, TakesMost};
ghost use Rattle.zone_translator.specs.Listed.{blocks_named, last_block, listed_heading};

use crate::fault::DiskFault;
use crate::room::fault_of;
use crate::write::find_room;
use batch_log::{Entry, Kind};
use drive_port::{Device, Geometry};
use std::alloc::AllocError;
use zone_choice::{BatchBuilder, Filling, Mounted, batch_most};
use zone_cleaner::Cleaner;

/// What is left of a list of blocks, each written or trimmed: the blocks, and the data of those that are written.
#[derive(Clone, Copy)]
pub(crate) struct ListRest<'a> {
    pub(crate) entries: &'a [Entry],
    pub(crate) bytes: &'a [u8],
}

impl<'a> ListRest<'a> {
    /// What is left of a list after its first entries and bytes.
    pub(crate) fn after(
        entries: &'a [Entry],
        bytes: &'a [u8],
        named: usize,
        copied: usize,
    ) -> ListRest<'a>
        requires named { named ≤ length entries.now }
        requires copied { copied ≤ length bytes.now }
        ensures entries { result.entries.now ≡ drop named entries.now }
        ensures bytes { result.bytes.now ≡ drop copied bytes.now }
    {
        ListRest {
            entries: &entries[named..],
            bytes: &bytes[copied..],
        }
    }
}

/// How many blocks of a list a batch takes, and how many of them have data.
#[derive(Clone, Copy)]
pub(crate) struct Taken {
    pub(crate) entries: usize,
    pub(crate) blocks: usize,
}

/// How many of the blocks left the next batch takes: no more than a header names, and no more data than the host zone
/// has room for after the header.
fn listed_count(geometry: &Geometry, host: Filling, entries: &[Entry]) -> Taken
    requires in_range { IsInRange geometry.now }
    requires room { host.written + 2 ≤ geometry.now.capacity }
    requires some { 1 ≤ length entries.now }
    ensures { TakesMost geometry.now host entries.now result }
{
    let most = (batch_most(geometry) as usize).min(entries.len());
    let room = (geometry.capacity - host.written - 1) as usize;
    let mut taken = Taken {
        entries: 0,
        blocks: 0,
    };
    while taken.entries < most {
        if entries[taken.entries].trim {
            taken.entries += 1;
        } else if taken.blocks < room {
            taken.entries += 1;
            taken.blocks += 1;
        } else {
            return taken;
        }
    }
    taken
}

/// Makes room for the places of these blocks, and to note them in a zone.
fn reserve_listed<D: Device>(
    disk: &mut Mounted<D>,
    zone: u32,
    entries: &[Entry],
) -> Result<(), AllocError>
    requires in_range { AllByRecursion (λ e. e.block < size_of disk.old.tables) entries.now }
    requires few { size_of disk.old.tables ≤ 2 ^ 31 }
    requires entries { length entries.now < 2 ^ 32 }
    ensures ok { OnOk result (AllByRecursion (λ e. IsReady disk.new.tables.map e.block) entries.now) }
    ensures kept { SameButReady disk.old.tables disk.new.tables }
    ensures drive { disk.new.drive ≡ disk.old.drive }
{
    disk.tables.reserve_all(zone, entries)
}

/// Starts a batch of the host, of these blocks. Its data is to follow the header block.
fn start_listed<D: Device>(
    disk: &Mounted<D>,
    batch: &mut BatchBuilder,
    entries: &[Entry],
) -> Result<(), AllocError>
    // The geometry and the disk's size are in range, and one header can name all the blocks.
    requires in_range { IsInRange disk.now.drive.geometry }
    requires size { IsSize (size_of disk.now.tables) }
    requires below { AllByRecursion (λ e. e.block < size_of disk.now.tables) entries.now }
    requires distinct { IsDistinct nat_eq (blocks_named entries.now) }
    requires room { length entries.now ≤ entry_room disk.now.drive.geometry.block }
    // Done, the batch is the disk's next one, and its bytes are the header block.
    ensures heading { OnOk result (batch.new.heading ≡ listed_heading disk.now entries.now) }
    ensures bytes { OnOk result (batch.new.bytes
        ≡ header_block disk.now.drive.geometry.block (listed_heading disk.now entries.now)) }
{
    let tables = &disk.tables;
    batch.start(Kind::Host, tables.next(), 0, Some(tables.blocks()));
    batch.name_all(entries)?;
    batch.encode(disk.geometry().block)
}

/// Builds the next batch of a list for the host zone, of as many of the blocks left as the batch and the zone take, and
/// answers how many. All is allocated then that its Append needs.
fn build_listed<D: Device>(
    disk: &mut Mounted<D>,
    batch: &mut BatchBuilder,
    host: Filling,
    left: ListRest,
) -> Result<Taken, AllocError>
    // By the tables the host zone has room, a sequence is left, and the list can be written.
    requires sane { IsSane disk.old }
    requires apart { AreApart disk.old.tables.roles }
    requires room { IsRoom disk.old host }
    requires can { CanPutAll disk.old left }
    // While the drive is clean, tables and drive agree. Then, done, the batch is the next one, and can be appended.
    requires agrees { IsTrue disk.old.drive.clean → Agrees disk.old }
    ensures ok { IsTrue disk.new.drive.clean
        → IfOk result (λ taken. IsNextListed disk.new host left.entry batch.new taken.entries) }
    // Done, it may be sent, and has as many of the blocks left as it can take.
    ensures may { OnOk result (MaySend disk.new host.zone batch.new) }
    ensures size { OnOk result (batch.new.heading.size ≡ Some (size_of disk.old.tables)) }
    ensures count { IfOk result
        (λ taken. TakesMost disk.old.drive.geometry host left.entry.entries.now taken) }
    // Whatever it answers, nothing of the disk changes except which blocks are ready to be placed.
    ensures drive { disk.new.drive ≡ disk.old.drive }
    ensures kept { SameButReady disk.old.tables disk.new.tables }
{
    let geometry = disk.geometry();
    let taken = listed_count(&geometry, host, left.entries);
    let entries = &left.entries[..taken.entries];
    start_listed(disk, batch, entries)?;
    batch.copy(&left.bytes[..taken.blocks * geometry.block as usize])?;
    reserve_listed(disk, host.zone, entries)?;
    Ok(taken)
}

/// Appends one batch of a list, and answers how many of the blocks left it took.
pub(crate) fn next_listed<D: Device>(
    disk: &mut Mounted<D>,
    cleaner: &mut Cleaner,
    batch: &mut BatchBuilder,
    left: ListRest,
) -> Result<Taken, DiskFault>
    // The list can be written. While the drive is clean, tables, drive and clean agree.
    requires sane { IsSane disk.old }
    requires can { CanPutAll disk.old left }
    requires agrees { IsTrue disk.old.drive.clean → AgreesWithClean disk.old cleaner.old }
    // Then, done, it has written the first of the blocks left. Refused, it has written none, unless the drive stopped.
    ensures leaves { IsTrue disk.new.drive.clean → ListedLeaves disk.old left.entry result disk.new cleaner.new }
    ensures cause { IsTrue disk.new.drive.clean → IfErr result (IsCause disk.new.drive disk.new.tables.next) }
    // Then its batch is as long as it can be, and it adds no turns to a clean that ran.
    ensures cut { IsTrue disk.new.drive.clean
        → KeepsCutTo (last_block left.entry.entries.now) disk.old.drive disk.new.drive }
    ensures clean { IsTrue disk.new.drive.clean → KeepsCleaning disk.old cleaner.old result disk.new cleaner.new }
    // Done, it took one block at least. Whatever the Reads returned, the numbers stay in range.
    ensures taken { IfOk result (λ taken. IsFrontOf left.entry.entries.now taken) }
    ensures stays { StaysOfSize disk.old disk.new }
    // It costs at most the commands of one batch.
    ensures costs { CostsBatch disk.old.drive disk.new.drive }
{
    let host = find_room(disk, cleaner)?;
    let taken = build_listed(disk, batch, host, left)?;
    match cleaner.append_batch(disk, host, batch) {
        Ok(()) => Ok(taken),
        Err(fault) => Err(fault_of(fault)),
    }
}
