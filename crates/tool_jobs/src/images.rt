// The drive of an image file, and a new image file of a drive.

use crate::fault::ToolFault;
use job_drives::{FileFault, KeepFault, Saving, image_to_read, new_image, save, saved_drive};
use std::alloc::Global;
use std::fs::File;
use std::rt::Files;
use zone_drive::Drive;

/// The drive in the image file of this path, as it was saved. Other programs can read the file too.
pub fn drive_in_image<F: Files<File = File>>(
    files: &F,
    alloc: Global,
    path: &str,
) -> Result<Drive, ToolFault> {
    let (_image, mut bytes) = match image_to_read(files, alloc, path) {
        Ok(opened) => opened,
        Err(fault) => return Err(ToolFault::File(KeepFault::from(fault))),
    };
    Ok(saved_drive(alloc, &mut bytes)?)
}

/// Opens a new image file, and saves a drive in it. It is removed after a fault.
fn save_new<F: Files<File = File>>(
    saving: &Saving<'_, F>,
    path: &str,
    drive: &Drive,
) -> Result<(), FileFault> {
    let image = new_image(saving.files, saving.alloc, path)?;
    let saved = save(saving, drive, &image);
    if saved.is_err() {
        image.discard(saving.files);
    }
    saved?;
    Ok(())
}

/// Saves a drive in a new image file of this path. Nothing may be there. After a fault there is no such file.
pub fn make_image<F: Files<File = File>>(
    files: &F,
    alloc: Global,
    path: &str,
    drive: &Drive,
) -> Result<(), ToolFault> {
    let saving = Saving { files, alloc };
    match save_new(&saving, path, drive) {
        Ok(()) => Ok(()),
        Err(fault) => Err(ToolFault::File(KeepFault::from(fault))),
    }
}
