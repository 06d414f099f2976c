// The file of a drive as a store of its changes.

ghost use Rattle.std.specs.Prelude.{None};

use crate::changes_file::ChangesFile;
use disk_files::WriteFault;
use drive_journal::ChangeStore;
use std::fs::File;
use std::rt::Files;
use zone_drive::Drive;

/// The changes of a device go to a file, which gathers them.
#[derive(Drop)]
pub struct ChangesStore<'s, 'a, F: Files<File = File>> {
    file: &'s ChangesFile<'a, F>,
    failed: bool,
}

impl<'s, 'a, F: Files<File = File>> ChangesStore<'s, 'a, F> {
    pub(crate) fn new(file: &'s ChangesFile<'a, F>) -> Self {
        ChangesStore {
            file,
            failed: false,
        }
    }
}

impl<F: Files<File = File>> ChangeStore<Drive> for ChangesStore<'_, '_, F> {
    ghost held = { λ _. None };

    ghost failed = { λ s. s.failed };

    fn has_failed(&self) -> bool {
        self.failed
    }

    fn append(&mut self, bytes: &[u8]) -> Result<(), WriteFault> {
        if bytes.is_empty() {
            return Ok(());
        }
        match self.file.append(bytes) {
            Ok(()) => Ok(()),
            Err(_) => {
                self.failed = true;
                Err(WriteFault)
            }
        }
    }

    fn fail(&mut self) {
        self.failed = true;
    }

    fn renew(&mut self, drive: &Drive) -> bool {
        self.file.renew(drive)
    }

    fn cut(&mut self, whole: u64) {
        self.file.cut(whole);
    }
}
