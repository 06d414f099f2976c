ghost use Rattle.std.specs.Prelude.{◌≡◌, ◌+◌, ◌*◌, ◌≤◌, ◌<◌, ◌^◌, ℕ, IfSome, OnErr, OnOk, length, map, nat_eq, true, IsTrue};
ghost use Rattle.std.specs.List.{AllByRecursion, IsDistinct};
ghost use Rattle.batch_log.specs.Log.{data_count, one_unless};
ghost use Rattle.logical_map.specs.Places.{IsReady};
ghost use Rattle.zone_choice.specs.Agreement.{Agrees};
ghost use Rattle.zone_choice.specs.Builder.{IsBuilt, entry_place, placed};
ghost use Rattle.zone_choice.specs.Changes.{AloneLeaves, BatchLeaves, CanPlace, CloseBesideLeaves, IsHalt, built_for};
ghost use Rattle.zone_choice.specs.Changes.{closes_before, closes_beside, fault_halt, roles_alone};
ghost use Rattle.zone_choice.specs.Roles.{is_filling_at};
ghost use Rattle.zone_choice.specs.Sane.{ByHalt, IsSane, KeepsShape, MayPlace, TablesAfter, tables_alone};
ghost use Rattle.drive_array.specs.Sizes.{size_or};
ghost use Rattle.zone_choice.specs.Tables.{GrowsTo, size_of, with_places};

use crate::batch::BatchBuilder;
use crate::mounted::Mounted;
use crate::tables::Tables;
use batch_log::Entry;
use drive_port::{Device, Halt, PortFault, append, close};
use logical_map::Place;

/// The halt behind the fault of a command that the drive does not refuse.
pub fn halt_of(fault: PortFault) -> Halt
    requires { IsHalt fault }
    ensures { result ≡ fault_halt fault }
{
    match fault {
        PortFault::Memory => Halt::Memory,
        PortFault::Failed => Halt::Failed,
        PortFault::Stopped => Halt::Stopped,
        PortFault::Refused(_) => unreachable!(),
    }
}

/// Where a block of a batch is: a trim at the header, data at its own address.
fn place_of(entry: Entry, header: u64, address: u64) -> Place
    ensures { result ≡ entry_place entry.trim header address }
{
    if entry.trim {
        return Place::Trimmed(header);
    }
    Place::At(address)
}

/// How many data blocks an entry has.
fn data_blocks(entry: Entry) -> u64
    ensures { result ≡ one_unless entry.trim }
{
    if entry.trim {
        return 0;
    }
    1
}

/// Places the blocks of a batch whose header is at this address, and answers how many blocks the batch
/// takes, its header included.
fn place_blocks(tables: &mut Tables, entries: &[Entry], header: u64) -> u32
    // Each block is the disk's, is named once, and is ready to be placed. All numbers are in range.
    requires in_range { AllByRecursion (λ e. e.block < size_of tables.old) entries.now }
    requires ready { AllByRecursion (λ e. IsReady tables.old.map e.block) entries.now }
    requires distinct { IsDistinct nat_eq (map (λ e. e.block) entries.now) }
    requires few { length entries.now < 2 ^ 31 }
    requires size { size_of tables.old ≤ 2 ^ 31 }
    requires fits { header < 2 ^ 62 }
    // Then trims are at the header and data at its own address, and nothing else of the tables has changed.
    ensures placed { tables.new ≡ with_places tables.old
        (placed header (header + 1) entries.now tables.old.map.places) }
    ensures blocks { result ≡ 1 + data_count entries.now }
{
    let mut address = header + 1;
    for entry in entries {
        tables.place(entry.block as u32, place_of(*entry, header, address));
        address += data_blocks(*entry);
    }
    (address - header) as u32
}

/// Gives the tables the size that the header of a batch says, if it says one.
fn grow_to(tables: &mut Tables, size: Option<u32>)
    requires { IfSome size (λ size. size_of tables.old ≤ size) }
    ensures { GrowsTo tables.old (size_or (size_of tables.old) size) tables.new }
{
    if let Some(blocks) = size {
        tables.grow(blocks);
    }
}

/// Closes the other zone that is being filled, if it may be open. A full zone is not open, so
/// nothing is sent to it.
fn send_close<D: Device>(disk: &mut Mounted<D>, zone: u32) -> Result<(), PortFault>
    // This zone is being filled and, while the drive is clean, tables and drive agree.
    requires agrees { IsTrue disk.old.drive.clean → Agrees disk.old }
    requires filling { is_filling_at disk.old.tables.roles zone ≡ true }
    // While the drive is clean, its contents are the same and the Close is not refused. Done, the drive agrees with
    // tables that call the other zone closed.
    ensures leaves { IsTrue disk.new.drive.clean
        → ByHalt (CloseBesideLeaves disk.old.drive disk.old.tables zone disk.new.drive) result }
    // The tables never change. It completes one command at most, and none unless another zone may be open that is not
    // full.
    ensures kept { disk.new.tables ≡ disk.old.tables }
    ensures stays { KeepsShape disk.old.drive disk.new.drive }
    ensures completed { disk.new.drive.completed
        ≤ disk.old.drive.completed + closes_beside disk.old zone }
{
    let Some(other) = disk.tables.open_beside(zone) else {
        return Ok(());
    };
    let geometry = disk.geometry();
    if other.written == geometry.capacity {
        return Ok(());
    }
    if let Err(fault) = close(disk.alloc, &mut disk.device, geometry.start_of(other.zone)) {
        return Err(fault);
    }
    Ok(())
}

/// At an open limit of 1, makes this zone the only one that may be open.
fn close_beside<D: Device>(disk: &mut Mounted<D>, zone: u32) -> Result<(), PortFault>
    // This zone is being filled and, while the drive is clean, tables and drive agree.
    requires agrees { IsTrue disk.old.drive.clean → Agrees disk.old }
    requires filling { is_filling_at disk.old.tables.roles zone ≡ true }
    // While the drive is clean, its contents are the same. Done at a limit of 1, the drive agrees with the tables.
    ensures leaves { IsTrue disk.new.drive.clean → ByHalt (AloneLeaves disk.old disk.new zone) result }
    // Done, the tables call the other zone closed, at a limit of 1. Refused, they are the same.
    ensures alone { OnOk result
        (disk.new.tables ≡ tables_alone disk.old.drive.geometry disk.old.tables zone) }
    ensures kept { OnErr result (disk.new.tables ≡ disk.old.tables) }
    // It completes one command at most, and none at a greater limit.
    ensures stays { KeepsShape disk.old.drive disk.new.drive }
    ensures completed { disk.new.drive.completed
        ≤ disk.old.drive.completed + closes_before disk.old zone }
{
    if disk.geometry().open > 1 {
        return Ok(());
    }
    send_close(disk, zone)?;
    disk.tables.closed_beside(zone);
    Ok(())
}

/// Appends a batch to a zone that is being filled. At an open limit of 1 it is the only one that may be open.
fn append_alone<D: Device>(
    disk: &mut Mounted<D>,
    zone: u32,
    batch: &BatchBuilder,
) -> Result<(), PortFault>
    // The numbers of tables and batch are in range. At an open limit of 1 no other zone may be open.
    requires built { IsBuilt disk.old.drive.geometry.block batch.now }
    requires may { MayPlace disk.old zone (built_for disk.old batch.now) }
    requires alone { roles_alone disk.old.drive.geometry disk.old.tables.roles zone
        ≡ disk.old.tables.roles }
    // While the drive is clean, the batch is the next one, and the zone can take it.
    requires can { IsTrue disk.old.drive.clean → CanPlace disk.old zone (built_for disk.old batch.now) }
    // Then, done, it has appended the batch, and tables and drive agree. Refused, it has not, unless the drive stopped.
    ensures leaves { IsTrue disk.new.drive.clean
        → ByHalt (BatchLeaves disk.old disk.new zone (built_for disk.old batch.now)) result }
    // Whatever the Reads returned, the tables count the batch once it is appended. It completes one command at most.
    ensures tables { TablesAfter disk.old.drive.geometry disk.old.tables zone
        (built_for disk.old batch.now) result disk.new.tables }
    ensures stays { KeepsShape disk.old.drive disk.new.drive }
    ensures completed { disk.new.drive.completed ≤ disk.old.drive.completed + 1 }
{
    let start = disk.geometry().start_of(zone);
    match append(disk.alloc, &mut disk.device, start, batch.bytes()) {
        Ok(address) => {
            grow_to(&mut disk.tables, batch.size());
            let blocks = place_blocks(&mut disk.tables, batch.entries(), address);
            disk.tables.appended(zone, blocks);
            Ok(())
        }
        Err(fault) => Err(fault),
    }
}

/// Appends a batch to a zone that is being filled. The tables then say where its blocks are, and
/// what size the disk has. All memory that this takes was allocated before.
///
/// At an open limit of 1 the other zone that is being filled is closed first, if it may be open.
///
/// If the drive is out of memory, the batch was not appended. If it stops, the zone may have the
/// whole batch, a torn tail, or nothing of it. Either way the tables do not have the batch. The
/// other zone may be closed by then, and the tables may say so. A drive refuses nothing of this, unless it was not
/// clean.
pub fn append_batch<D: Device>(
    disk: &mut Mounted<D>,
    zone: u32,
    batch: &BatchBuilder,
) -> Result<(), PortFault>
    // The numbers of tables and batch are in range, and the blocks are ready to be placed.
    requires built { IsBuilt disk.old.drive.geometry.block batch.now }
    requires may { MayPlace disk.old zone (built_for disk.old batch.now) }
    // While the drive is clean, the batch is the next one, and the zone has room for it.
    requires can { IsTrue disk.old.drive.clean → CanPlace disk.old zone (built_for disk.old batch.now) }
    // Then, done, it has appended the batch, and tables and drive agree. Refused, it has not, unless the drive stopped.
    ensures leaves { IsTrue disk.new.drive.clean
        → ByHalt (BatchLeaves disk.old disk.new zone (built_for disk.old batch.now)) result }
    // Whatever the Reads returned, the tables count the batch once it is appended, with numbers in range.
    ensures tables { TablesAfter disk.old.drive.geometry disk.old.tables zone
        (built_for disk.old batch.now) result disk.new.tables }
    ensures sane { IsSane disk.new }
    ensures stays { KeepsShape disk.old.drive disk.new.drive }
    // It completes one command at most, or two at an open limit of 1.
    ensures completed { disk.new.drive.completed
        ≤ disk.old.drive.completed + closes_before disk.old zone + 1 }
{
    close_beside(disk, zone)?;
    append_alone(disk, zone, batch)
}
