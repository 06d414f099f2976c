// The file of a drive. Two parts of a program share it: the device appends changes, and the output
// waits until the file has them.

ghost use Rattle.std.specs.Prelude.{◌≡◌, IfOk};

use crate::changes_output::SentAfter;
use crate::changes_store::ChangesStore;
use crate::file_end::FileEnd;
use crate::file_fault::{FileFault, SystemError};
use crate::gathered_file::{GatheredFile, Reached};
use crate::image_file::ImageFile;
use crate::input_gate::Gate;
use crate::locked_file::LockedFile;
use crate::new_file::{Saved, Saving};
use std::cell::RefCell;
use std::fs::File;
use std::io;
use std::io::ErrorKind;
use std::rt::Files;
use zone_drive::Drive;

/// The file of a drive, open and locked, to which changes are appended. Before the first change it
/// stays as it is.
///
/// Changes are gathered, and written together. That is done when
/// [`write_out`](ChangesFile::write_out) or [`sync`](ChangesFile::sync) is called, and before more
/// than 64 KiB are gathered.
///
/// After a fault the file takes no more changes. It keeps the first ones in their order, among
/// them all that were written out before. A call that needs a later one answers the same fault.
///
/// When the file is more than 1 MiB longer than twice the image of the drive, it is written anew
/// as that image. Its length is compared only now and then. So the file stays below twice the
/// longest image that the drive had, and 2 MiB and one change more, unless it cannot be written
/// anew.
#[derive(Drop)]
pub struct ChangesFile<'a, F: Files<File = File>> {
    /// How the file is written anew. `file` has this too. It is repeated here to say how long both
    /// may be used.
    saving: &'a Saving<'a, F>,
    file: RefCell<GatheredFile<'a, LockedFile<'a, F>>>,
}

/// The file of an image, for which nothing is gathered yet.
fn gathered<'a, F: Files<File = File>>(
    saving: &'a Saving<'a, F>,
    image: ImageFile,
) -> GatheredFile<'a, LockedFile<'a, F>> {
    let read_only = image.read_only;
    GatheredFile::new(saving.alloc, LockedFile::new(saving, image), read_only)
}

/// The fault of a file that is in use already. That never happens.
fn busy() -> FileFault {
    FileFault::Change(SystemError::from(io::Error::from(ErrorKind::ResourceBusy)))
}

impl<'a, F: Files<File = File>> ChangesFile<'a, F> {
    /// The file of an image, of which nothing was read yet.
    pub fn new(saving: &'a Saving<'a, F>, image: ImageFile) -> Self {
        ChangesFile {
            saving,
            file: RefCell::new(gathered(saving, image)),
        }
    }

    /// The same. At the first fault of the file this gate is shut: then no more is read of the
    /// input behind it.
    pub fn with_gate(saving: &'a Saving<'a, F>, image: ImageFile, gate: &'a Gate) -> Self {
        let mut file = gathered(saving, image);
        file.set_gate(gate);
        ChangesFile {
            saving,
            file: RefCell::new(file),
        }
    }

    /// The file as a store, which gathers the changes of a device.
    pub fn store(&self) -> ChangesStore<'_, 'a, F> {
        ChangesStore::new(self)
    }

    /// Writes all changes that were appended to the file.
    pub fn write_out(&self) -> Result<(), FileFault> {
        self.reach(SentAfter::Write)?;
        Ok(())
    }

    /// Writes all changes that were appended, and brings the file to the disk. If nothing was
    /// written since the last sync, it does nothing.
    pub fn sync(&self) -> Result<(), FileFault> {
        self.reach(SentAfter::Sync)?;
        Ok(())
    }

    /// Writes all changes that were appended, and syncs the file if that is asked for.
    pub(crate) fn reach(&self, after: SentAfter) -> Result<Reached, FileFault>
        ensures { IfOk result (λ reached. reached ≡ after) }
    {
        match self.file.try_borrow_mut() {
            Ok(mut file) => file.reach(after),
            Err(_) => Err(busy()),
        }
    }

    /// What is known of the file when its job has ended.
    pub fn end(&self) -> FileEnd {
        match self.file.try_borrow() {
            Ok(file) => file.end(),
            Err(_) => FileEnd {
                is_changed: true,
                takes_none: true,
            },
        }
    }

    /// Why the file takes no more changes, or why those that it has may not be on the disk.
    pub fn fault(&self) -> Option<FileFault> {
        match self.file.try_borrow() {
            Ok(file) => file.fault(),
            Err(_) => Some(busy()),
        }
    }

    /// Saves a drive in the place of the file, if there is one to save. Gathered changes are
    /// dropped. The new file is on the disk before it takes the place of the old one. After a
    /// fault the old file is still there.
    pub fn save(self, drive: Option<Drive>) -> Result<Saved, FileFault> {
        let mut file = self.file.into_inner();
        file.save(drive)
    }

    /// Appends a change. It may be gathered.
    pub(crate) fn append(&self, change: &[u8]) -> Result<(), FileFault> {
        match self.file.try_borrow_mut() {
            Ok(mut file) => file.append(change),
            Err(_) => Err(busy()),
        }
    }

    /// Writes the file anew, if it is too long, and says whether it did.
    pub(crate) fn renew(&self, drive: &Drive) -> bool {
        match self.file.try_borrow_mut() {
            Ok(mut file) => file.renew(drive),
            Err(_) => false,
        }
    }

    /// Says how many bytes of the file are its image and whole changes.
    pub(crate) fn cut(&self, whole: u64) {
        if let Ok(mut file) = self.file.try_borrow_mut() {
            file.cut(whole);
        }
    }
}
