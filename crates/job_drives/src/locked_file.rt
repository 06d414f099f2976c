// The file of an image, as the system keeps it.

ghost use Rattle.std.specs.Prelude.{◌≡◌};

use crate::backing::{Backing, Renewed};
use crate::file_fault::{FileFault, SystemError};
use crate::image_file::ImageFile;
use crate::new_file::{Saving, replace, sync_name};
use std::fs::File;
use std::io::{Seek, SeekFrom, Write};
use std::rt::Files;
use zone_drive::Drive;

/// The file of an image, open and locked. Of its bytes no contract says anything.
#[derive(Drop)]
pub struct LockedFile<'a, F: Files<File = File>> {
    saving: &'a Saving<'a, F>,
    image: ImageFile,
    /// How many bytes it has, as far as this program knows.
    length: u64,
    /// Whether the next bytes are written at its end.
    is_at_end: bool,
    is_named: bool,
}

impl<'a, F: Files<File = File>> LockedFile<'a, F> {
    /// The file of an image, to which nothing was written yet.
    pub fn new(saving: &'a Saving<'a, F>, image: ImageFile) -> Self {
        LockedFile {
            saving,
            length: image.metadata.len(),
            image,
            is_at_end: false,
            is_named: false,
        }
    }

    /// Removes the file if this program made it, and saved nothing in it.
    pub fn discard(self) {
        self.image.discard(self.saving.files);
    }

    /// Goes to its end.
    fn go_to_end(&mut self) -> Result<(), SystemError>
        ensures { self.new.is_named ≡ self.old.is_named }
    {
        if !self.is_at_end {
            self.image.file.seek(SeekFrom::Start(self.length))?;
            self.is_at_end = true;
        }
        Ok(())
    }
}

impl<F: Files<File = File>> Backing for LockedFile<'_, F> {
    ghost use Rattle.std.specs.Prelude.{None};

    ghost state = { λ f. record { bytes = None; synced = None; is_named = f.is_named } };

    fn length(&self) -> u64 {
        self.length
    }

    fn is_named(&self) -> bool {
        self.is_named
    }

    fn cut(&mut self, whole: u64) -> Result<(), SystemError> {
        self.is_at_end = false;
        self.image.file.set_len(whole)?;
        self.length = whole;
        Ok(())
    }

    fn append(&mut self, bytes: &[u8]) -> Result<(), SystemError> {
        self.go_to_end()?;
        self.image.file.write_all(bytes)?;
        self.length = self.length.saturating_add(bytes.len() as u64);
        Ok(())
    }

    fn sync_all(&mut self) -> Result<(), SystemError> {
        Ok(self.image.file.sync_all()?)
    }

    fn sync_data(&mut self) -> Result<(), SystemError> {
        Ok(self.image.file.sync_data()?)
    }

    fn sync_name(&mut self) -> Result<(), SystemError> {
        sync_name(self.saving.files, &self.image.path)?;
        self.is_named = true;
        Ok(())
    }

    fn renew(&mut self, drive: &Drive) -> Result<Renewed, FileFault> {
        let new = replace(self.saving, drive, &self.image)?;
        self.image = new.image;
        self.length = self.image.metadata.len();
        self.is_at_end = false;
        self.is_named = new.name.is_ok();
        Ok(Renewed {
            is_restored: new.is_restored,
            name: new.name,
        })
    }
}
