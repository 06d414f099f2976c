//! Copies that are longer than what is copied at a time, and one out of a drive that cannot read a block.

use disk_copies::{export_blocks, import_blocks};
use std::alloc::{AllocError, Global};
use std::rt::Runtime;
use std::test::Fail;
use yardsticks::FailingDevice;
use zone_drive::Drive;
use zone_states::Geometry;
use zone_translator::{AnyDisk, Disk, Place};

const GEOMETRY: Geometry = Geometry {
    block: 4096,
    zones: 8,
    size: 256,
    capacity: 256,
    transfer: 64,
    active: 4,
    open: 4,
};

/// More than two pieces of 1 MiB.
const BLOCKS: u64 = 600;

/// A block in the middle of the second piece.
const UNREAD: u64 = 301;

/// Blocks that differ, but for every fifth one, which has zeros.
fn pattern(alloc: Global) -> Result<Vec<u8>, AllocError> {
    let mut bytes = Vec::new(alloc);
    for block in 0..BLOCKS {
        let byte = if block % 5 == 0 { 0 } else { block % 251 };
        bytes.resize(bytes.len().saturating_add(4096), byte as u8)?;
    }
    Ok(bytes)
}

/// A disk without data.
fn fresh_disk(alloc: Global) -> Result<Disk<Drive>, Fail> {
    let drive = Drive::new(alloc, GEOMETRY)?;
    match Disk::mount(alloc, drive, BLOCKS) {
        Ok(disk) => Ok(disk),
        Err(_) => Err(Fail::new("the drive is not mounted")),
    }
}

/// Imports blocks and exports them again: what is exported.
fn copy_of(alloc: Global, bytes: &[u8], sparse: bool) -> Result<Vec<u8>, Fail> {
    let mut disk = fresh_disk(alloc)?.into_any();
    let mut input = bytes;
    let taken = import_blocks(alloc, &mut disk, &mut input, 0, sparse, &mut 0)?;
    let mut copy = Vec::new(alloc);
    export_blocks(alloc, &mut disk, &mut copy, 0, taken)?;
    Ok(copy)
}

/// Shows whether a copy is the same.
fn show_copy<R: Runtime + AllocGlobal>(rt: &R, sparse: bool) -> Result<(), Fail> {
    let bytes = pattern(rt.alloc())?;
    let copy = copy_of(rt.alloc(), &bytes, sparse)?;
    println!(rt;
        "{BLOCKS} blocks, sparse {sparse}: the same {}",
        copy == bytes
    )?;
    Ok(())
}

/// A disk with these blocks, whose drive cannot read one of them.
fn failing_disk(alloc: Global, bytes: &[u8]) -> Result<AnyDisk<FailingDevice<Drive>>, Fail> {
    let mut disk = fresh_disk(alloc)?.into_any();
    let mut input = bytes;
    import_blocks(alloc, &mut disk, &mut input, 0, false, &mut 0)?;
    let Place::At(address) = disk.place_of(UNREAD) else {
        return Err(Fail::new("the block has no data"));
    };
    let device = FailingDevice::unreadable(disk.into_device(), address);
    match AnyDisk::mount(alloc, device, BLOCKS) {
        Ok(disk) => Ok(disk),
        Err(_) => Err(Fail::new("the failing drive is not mounted")),
    }
}

/// Shows how an export ends at a block that the drive cannot read, and whether all blocks before it are written.
fn show_unread<R: Runtime + AllocGlobal>(rt: &R) -> Result<(), Fail> {
    let bytes = pattern(rt.alloc())?;
    let mut disk = failing_disk(rt.alloc(), &bytes)?;
    let mut copy = Vec::new(rt.alloc());
    let Err(fault) = export_blocks(rt.alloc(), &mut disk, &mut copy, 0, BLOCKS) else {
        return Err(Fail::new("the export has no fault"));
    };
    let blocks = copy.len() / 4096;
    println!(rt;
        "{fault}; {blocks} blocks before it, the same {}",
        bytes.starts_with(&copy)
    )?;
    Ok(())
}

/// Shows copies that are dense and sparse, and one that ends early.
pub fn show_pieces<R: Runtime + AllocGlobal>(rt: &R) -> Result<(), Fail> {
    show_copy(rt, false)?;
    show_copy(rt, true)?;
    show_unread(rt)
}
