ghost use Rattle.std.specs.Prelude.{◌≡◌, ◌≢◌, ◌≤◌, ◌+◌, ◌++◌, ◌*◌, ◌<◌, ◌^◌, [], IfErr, IfOk, IsTrue, OnOk, false};
ghost use Rattle.std.specs.Prelude.{length, replicate, slice_index_or};
ghost use Rattle.std.specs.List.{concat};
ghost use Rattle.logical_map.specs.declared.place.Place.TheVariants as places;
ghost use Rattle.zone_choice.specs.Agreement.{Agrees, mounted_array};
ghost use Rattle.zone_choice.specs.Changes.{KeepsArray};
ghost use Rattle.zone_choice.specs.Sane.{IsSane, KeepsShape};
ghost use Rattle.zone_choice.specs.Tables.{size_of};
ghost use Rattle.zone_states.specs.Geometry.{IsInRange};
ghost use Rattle.zone_translator.specs.Flat.{blocks_from};
ghost use Rattle.zone_translator.specs.Read.{AreNeighbours, EndsThere, IsBlockFault, IsPiece};

use crate::fault::DiskFault;
use crate::room::fault_of;
use drive_port::{Device, read_extending};
use logical_map::Place;
use std::alloc::AllocError;
use zone_choice::Mounted;

fn extend_zeros(into: &mut Vec<u8>, count: usize) -> Result<(), AllocError>
    requires { count ≤ 4096 }
    ensures { OnOk result (into.new.items ≡ into.old.items ++ replicate count 0) }
{
    let length = into.len() + count;
    into.resize(length, 0)?;
    Ok(())
}

/// Whether a block is where the last of `count` blocks more is that follow an address.
fn follows(place: Place, address: u64, count: u32) -> bool
    ensures yes { IsTrue result → place ≡ Place.At (address + count) }
    ensures no { result ≡ false → place ≢ Place.At (address + count) }
{
    match place {
        Place::At(next) => next >= address && next - address == u64::from(count),
        _ => false,
    }
}

/// How many blocks from `block` on, at most `left`, have their data in a row from this address on, where the data of
/// the first is.
fn neighbours<D: Device>(disk: &Mounted<D>, block: u32, address: u64, left: u32) -> u32
    requires in_order { IsInRange disk.now.drive.geometry }
    requires short { size_of disk.now.tables ≤ 2 ^ 31 }
    requires some { 1 ≤ left }
    requires in_range { block + left ≤ size_of disk.now.tables }
    requires at { slice_index_or disk.now.tables.map.places block places.None ≡ Place.At address }
    ensures some { 1 ≤ result }
    ensures few { result ≤ left }
    ensures row { AreNeighbours disk.now.drive.geometry disk.now.tables.map.places block address result }
    ensures ends { EndsThere disk.now.drive.geometry disk.now.tables.map.places block address left result }
{
    let geometry = disk.geometry();
    let in_zone = geometry.size - (address % geometry.size as u64) as u32;
    let most = left.min(geometry.transfer).min(in_zone);
    for count in 1..most {
        if !follows(disk.tables.place_of(block + count), address, count) {
            return count;
        }
    }
    most
}

/// Shows one block and its neighbours after what `into` holds, at most `left` of them: their data by one command, or
/// zeros for one block without data. It answers how many.
pub(crate) fn read_piece<D: Device>(
    disk: &mut Mounted<D>,
    block: u32,
    left: u32,
    into: &mut Vec<u8>,
) -> Result<u32, DiskFault>
    // The blocks are the disk's. While the drive is clean, tables and drive agree.
    requires sane { IsSane disk.old }
    requires some { 1 ≤ left }
    requires in_range { block + left ≤ size_of disk.old.tables }
    requires agrees { IsTrue disk.old.drive.clean → Agrees disk.old }
    // Then array and tables are the same, and tables and drive agree.
    ensures kept { IsTrue disk.new.drive.clean → KeepsArray disk.old disk.new }
    // Then, done, it has added the bytes of the blocks. Refused, it is out of memory, or the drive stopped at a block
    // with data.
    ensures ok { IsTrue disk.new.drive.clean → IfOk result (λ count. into.new.items ≡ into.old.items
        ++ concat (blocks_from (mounted_array disk.old) block count)) }
    ensures err { IsTrue disk.new.drive.clean → IfErr result (IsBlockFault disk.new block) }
    // Done, the blocks are a piece, and it adds as many bytes as they have. Whatever the Read returned, the tables are
    // the same.
    ensures piece { IfOk result (λ count. IsPiece disk.old.drive.geometry disk.old.tables.map.places block left count) }
    ensures added { IfOk result (λ count. length into.new.items ≡ length into.old.items
        + count * disk.old.drive.geometry.block) }
    ensures tables { disk.new.tables ≡ disk.old.tables }
    ensures shape { KeepsShape disk.old.drive disk.new.drive }
    // It completes one command at most.
    ensures completed { disk.new.drive.completed ≤ disk.old.drive.completed + 1 }
{
    let Place::At(address) = disk.tables.place_of(block) else {
        extend_zeros(into, disk.geometry().block as usize)?;
        return Ok(1);
    };
    let count = neighbours(disk, block, address, left);
    if let Err(fault) = read_extending(&mut disk.device, address, count, into) {
        return Err(fault_of(fault));
    }
    Ok(count)
}

/// Shows one block after what `into` holds: the data at its place, or zeros if it has none.
pub(crate) fn read_block<D: Device>(
    disk: &mut Mounted<D>,
    block: u32,
    into: &mut Vec<u8>,
) -> Result<(), DiskFault>
    // The block is the disk's. While the drive is clean, tables and drive agree.
    requires sane { IsSane disk.old }
    requires in_range { block < size_of disk.old.tables }
    requires agrees { IsTrue disk.old.drive.clean → Agrees disk.old }
    // Then array and tables are the same, and tables and drive agree.
    ensures kept { IsTrue disk.new.drive.clean → KeepsArray disk.old disk.new }
    // Then, done, it has added the block's bytes. Refused, it is out of memory, or the drive stopped at a block with
    // data.
    ensures ok { IsTrue disk.new.drive.clean → OnOk result (into.new.items ≡ into.old.items
        ++ slice_index_or (mounted_array disk.old) block []) }
    ensures err { IsTrue disk.new.drive.clean → IfErr result (IsBlockFault disk.new block) }
    // Whatever the Read returned, the tables are the same, and it adds as many bytes as a block has. It completes one
    // command at most.
    ensures tables { disk.new.tables ≡ disk.old.tables }
    ensures added { OnOk result (length into.new.items ≡ length into.old.items
        + 1 * disk.old.drive.geometry.block) }
    ensures shape { KeepsShape disk.old.drive disk.new.drive }
    ensures completed { disk.new.drive.completed ≤ disk.old.drive.completed + 1 }
{
    let Place::At(address) = disk.tables.place_of(block) else {
        extend_zeros(into, disk.geometry().block as usize)?;
        return Ok(());
    };
    if let Err(fault) = read_extending(&mut disk.device, address, 1, into) {
        return Err(fault_of(fault));
    }
    Ok(())
}
