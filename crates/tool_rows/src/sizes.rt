//! Drives by what their headers say of the size: one block, none in a header that was written before sizes were, and
//! no header.

use crate::drives::SMALL;
use disk_copies::{CopyFault, CopyJob, ExportJob, ImportJob, explain, export_drive, import_drive};
use drive_images::write_image;
use drive_journal::Held;
use drive_port::Device;
use job_drives::DriveFile;
use nvme_wire::Command;
use std::alloc::{AllocError, Global};
use std::cell::Cell;
use std::rt::Runtime;
use std::test::Fail;
use zone_drive::Drive;

/// The file of a drive.
fn file_of(alloc: Global, drive: &Drive) -> Result<Vec<u8>, Fail> {
    let mut file = Vec::new(alloc);
    match write_image(drive, &mut file) {
        Ok(()) => Ok(file),
        Err(_) => Err(Fail::new("the image is not written")),
    }
}

/// The file of a fresh drive, to which these blocks are imported, of a disk of one block.
fn imported(alloc: Global, blocks: &[u8]) -> Result<Vec<u8>, Fail> {
    let image = file_of(alloc, &Drive::new(alloc, SMALL)?)?;
    let job = ImportJob {
        image: String::new(alloc),
        blocks: Some(1),
        first: 0,
        sparse: false,
        progress: false,
    };
    let file = DriveFile {
        bytes: image.as_slice(),
        store: Held::new(alloc, Vec::from_slice(alloc, &image)?, usize::MAX),
    };
    let mut input = blocks;
    let (_, store, taken) = import_drive(alloc, &job, file, &mut input, &mut 0);
    match taken {
        Ok(1) => Ok(Vec::from_slice(alloc, store.bytes())?),
        _ => Err(Fail::new("the block is not imported")),
    }
}

/// A batch that writes block 0: a header of version 1, which says no size, and the data.
fn old_batch(alloc: Global) -> Result<Vec<u8>, AllocError> {
    let mut batch = Vec::new(alloc);
    batch.extend_from_slice(b"ZLOGBAT1")?;
    // Version 1, of the host, one entry; sequence 1.
    batch.extend_from_slice(&[1, 0, 1, 0, 1, 0, 0, 0, 1])?;
    batch.resize(512, 0)?;
    batch.resize(1024, 0xdd)?;
    Ok(batch)
}

/// The file of a drive with such a batch.
fn old_file(alloc: Global) -> Result<Vec<u8>, Fail> {
    let mut drive = Drive::new(alloc, SMALL)?;
    let append = Command::Append {
        zslba: 0,
        blocks: 2,
    };
    let batch = old_batch(alloc)?;
    let mut into = Vec::new(alloc);
    match drive.submit(&append.encode(0), &batch, &mut into) {
        Ok(_) => file_of(alloc, &drive),
        Err(_) => Err(Fail::new("the batch is not written")),
    }
}

/// What an export of all blocks of a file's drive comes to: how many bytes, or why it has none.
fn exported(alloc: Global, file: &[u8], into: &mut Vec<u8>) -> Result<String, AllocError> {
    let export = ExportJob {
        image: String::from_str(alloc, "a.drive")?,
        first: 0,
        count: None,
        progress: false,
    };
    let mut bytes = file;
    let ended: Result<(), CopyFault> = export_drive(
        alloc,
        &export,
        &Cell::new(None),
        &mut bytes,
        into,
    );
    match ended {
        Ok(()) => format!(in alloc; "{} bytes", into.len()),
        Err(fault) => explain(alloc, &CopyJob::Export(export), fault),
    }
}

/// Shows exports of a disk of one block, of one whose headers say no size, and of one that was never written.
pub fn show_sizes<R: Runtime + AllocGlobal>(rt: &R) -> Result<(), Fail> {
    let alloc = rt.alloc();
    let block = vec![in alloc; 0xaa; 512]?;
    let mut copy = Vec::new(alloc);
    let told = exported(alloc, &imported(alloc, &block)?, &mut copy)?;
    println!(rt; "one block: {told}, the same {}", copy == block)?;
    let told = exported(alloc, &old_file(alloc)?, &mut Vec::new(alloc))?;
    println!(rt; "a header without a size: {told}")?;
    let fresh = file_of(alloc, &Drive::new(alloc, SMALL)?)?;
    let told = exported(alloc, &fresh, &mut Vec::new(alloc))?;
    println!(rt; "no header: {told}")?;
    Ok(())
}
