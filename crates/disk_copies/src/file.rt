// The file of a copy: it is opened and locked, and saved after an import.

use crate::copy_fault::CopyFault;
use crate::drive_export::export_drive;
use crate::drive_import::import_drive;
use crate::job::{ExportJob, ImportJob};
use crate::stream_fault::ExportFault;
use job_drives::{
    ChangesFile, DriveFile, Finished, Left, Saved, Saving, finish, first_told, image_to_read,
    image_to_save,
};
use std::alloc::Global;
use std::cell::Cell;
use std::fs::File;
use std::io::{BufReader, Read, Write};
use std::rt::Files;

/// How an import ended, and how its drive was saved. Both can fail.
#[derive(Clone, Copy, Debug, PartialEq, Eq)]
pub struct Imported {
    /// How many blocks were taken.
    pub taken: Result<u64, CopyFault>,
    /// How many blocks were written to the drive, also before a fault. A file that takes no more changes has only the
    /// first ones.
    pub written: u64,
    /// Of the drive. It is `Ok` if there is none to save.
    pub saved: Result<Saved, CopyFault>,
}

impl Imported {
    /// An import that read nothing.
    fn unread(fault: CopyFault) -> Imported {
        Imported {
            taken: Err(fault),
            written: 0,
            saved: Ok(Saved::IN_PLACE),
        }
    }
}

/// Writes blocks of the drive in a file. Other programs can read the file too, and none can change it until the blocks
/// are written. How many bytes these blocks have is put into `total` before.
pub fn do_export<F: Files<File = File>, W: Write + Drop>(
    files: &F,
    alloc: Global,
    job: &ExportJob,
    total: &Cell<Option<u64>>,
    mut output: W,
) -> Result<(), CopyFault> {
    let (_image, mut bytes) = image_to_read(files, alloc, &job.image)?;
    let exported = export_drive(alloc, job, total, &mut bytes, &mut output);
    let sent = output.flush();
    exported.and(sent.or(Err(CopyFault::Export(ExportFault::Output))))
}

/// Imports blocks to the drive of an open file, whose bytes are read from `bytes`.
fn import_file<F: Files<File = File>, R: Read>(
    alloc: Global,
    job: &ImportJob,
    (file, bytes): (&ChangesFile<'_, F>, BufReader<File>),
    input: &mut R,
    written: &mut u64,
) -> (Option<Left>, Result<u64, CopyFault>) {
    let store = file.store();
    let file = DriveFile { bytes, store };
    let (left, _store, taken) = import_drive(alloc, job, file, input, written);
    (left, taken)
}

/// Reads blocks from `input`, writes them to the drive in a file, and saves the drive, also after a fault. Its changes
/// go to the file, which is locked until the drive is saved.
pub fn do_import<F: Files<File = File>, R: Read + Drop>(
    files: &F,
    alloc: Global,
    job: &ImportJob,
    mut input: R,
) -> Imported {
    let saving = Saving { files, alloc };
    let (image, bytes) = match image_to_save(files, alloc, &job.image) {
        Ok(opened) => opened,
        Err(fault) => return Imported::unread(CopyFault::from(fault)),
    };
    let file = ChangesFile::new(&saving, image);
    let mut written = 0;
    let (left, taken) = import_file(alloc, job, (&file, bytes), &mut input, &mut written);
    let Finished { fault, saved } = finish(file, left);
    Imported {
        taken: first_told(taken, fault.map(CopyFault::from)),
        written,
        saved: saved.map_err(CopyFault::from),
    }
}
