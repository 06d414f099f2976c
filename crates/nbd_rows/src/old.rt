//! A drive that was written before headers said the size of a disk.

use crate::fault::RowsFault;
use crate::run::Setting;
use drive_images::write_image;
use drive_port::Device;
use nvme_wire::Command;
use std::alloc::{AllocError, Global};
use zone_drive::Drive;

/// A batch of one block: a header of version 1, which says no size, and the data.
fn old_batch(alloc: Global, block: u64) -> Result<Vec<u8>, AllocError> {
    let mut batch = Vec::new(alloc);
    batch.extend_from_slice(b"ZLOGBAT1")?;
    // Version 1, of the host, one entry; sequence 1; no source, and no size.
    batch.extend_from_slice(&[1, 0, 1, 0, 1, 0, 0, 0])?;
    batch.extend_from_slice(&1u64.to_le_bytes())?;
    batch.extend_from_slice(&0u64.to_le_bytes())?;
    batch.extend_from_slice(&block.to_le_bytes())?;
    batch.resize(512, 0)?;
    batch.resize(1024, 0xdd)?;
    Ok(batch)
}

/// The image of a drive with such a batch, for the block of this number.
pub fn old_file(alloc: Global, setting: Setting, block: u64) -> Result<Vec<u8>, RowsFault> {
    let Ok(mut drive) = Drive::new(alloc, setting.geometry()) else {
        return Err(RowsFault::Drive);
    };
    let entry = Command::Append {
        zslba: 0,
        blocks: 2,
    };
    let batch = old_batch(alloc, block)?;
    let mut into = Vec::new(alloc);
    let sent = drive.submit(&entry.encode(0), &batch, &mut into);
    sent.or(Err(RowsFault::Drive))?;
    let mut file = Vec::new(alloc);
    write_image(&drive, &mut file).or(Err(RowsFault::Memory))?;
    Ok(file)
}
