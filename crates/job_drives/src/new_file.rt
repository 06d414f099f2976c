// Saving a drive: a new file is written in the folder of the image. When it is whole, it takes the
// place of the image.

ghost use Rattle.std.specs.Prelude.{◌≡◌};
ghost use Rattle.job_drives.specs.NewFile.{IsFolder, mode_of};

use crate::file_fault::{FileFault, SystemError};
use crate::image_file::ImageFile;
use drive_images::write_image;
use std::alloc::{AllocError, Global};
use std::fs::{File, Metadata, OpenOptions, Permissions};
use std::io::{BufWriter, ErrorKind, Write};
use std::os::unix::fs::{MetadataExt, OpenOptionsExt, PermissionsExt, fchown};
use std::rt::Files;
use std::{fs, io};
use zone_drive::Drive;

/// A file that is being written, and the error of the last write that failed.
#[derive(Drop)]
struct WrittenFile<'a> {
    file: &'a File,
    error: Option<SystemError>,
}

impl Write for WrittenFile<'_> {
    fn write(&mut self, bytes: &[u8]) -> io::Result<usize> {
        match self.file.write(bytes) {
            Ok(count) => Ok(count),
            Err(error) => {
                self.error = Some(SystemError::from(error));
                Err(error)
            }
        }
    }

    fn flush(&mut self) -> io::Result<()> {
        self.file.flush()
    }
}

/// How many names are tried for a new file.
const NAMES: u32 = 65_536;

/// A name for a new file in the folder of the image at `path`.
fn name(alloc: Global, path: &str, number: u32) -> Result<String, AllocError> {
    if number == 0 {
        return format!(in alloc; "{path}.new");
    }
    format!(in alloc; "{path}.new-{number}")
}

/// Makes a new file, which nobody else can read. If something has this path, it fails.
fn make_new<F: Files>(files: &F, path: &str) -> io::Result<F::File> {
    let mut options = OpenOptions::new();
    options.write(true).create_new(true).mode(0o600);
    options.open(files, path)
}

/// Makes a new file in the folder of the image at `path`, with the first name that is free.
fn make_at_free_name<F: Files>(
    files: &F,
    alloc: Global,
    path: &str,
) -> io::Result<(String, F::File)> {
    for number in 0..NAMES {
        let name = name(alloc, path, number)?;
        match make_new(files, &name) {
            Ok(file) => return Ok((name, file)),
            Err(error) if error.kind() == ErrorKind::AlreadyExists => {}
            Err(error) => return Err(error),
        }
    }
    Err(io::Error::from(ErrorKind::AlreadyExists))
}

/// The mode of a new file, from the mode of the old one. If the new file has another group, the
/// group may only do what all others may do.
fn mode_of(old: u32, is_group_kept: bool) -> u32
    ensures { result ≡ mode_of old is_group_kept }
{
    let (owner, group, others) = (old / 0o100 % 8, old / 0o10 % 8, old % 8);
    let group = if is_group_kept { group } else { others };
    owner * 0o100 + group * 0o10 + others
}

/// Gives a new file the owner, the group and the mode of the old one, as far as the system allows it.
fn keep_owner_and_mode(new: &File, old: &Metadata) {
    let is_owner_kept = fchown(new, Some(old.uid()), Some(old.gid())).is_ok();
    let is_group_kept = is_owner_kept || fchown(new, None, Some(old.gid())).is_ok();
    let mode = mode_of(old.mode(), is_group_kept);
    let _ = new.set_permissions(Permissions::from_mode(mode));
}

/// Writes the image of a drive to a new file.
fn write_drive(alloc: Global, drive: &Drive, file: &File) -> Result<(), SystemError> {
    let mut writer = BufWriter::new(alloc, WrittenFile { file, error: None })?;
    if write_image(drive, &mut writer).is_ok() {
        return Ok(writer.flush()?);
    }
    match writer.get_ref().error {
        Some(error) => Err(error),
        None => Err(SystemError::from(io::Error::from(ErrorKind::WriteZero))),
    }
}

/// Writes the image of a drive to a new file, and brings it to the disk. Without that a loss of power could leave an
/// empty file, once the new file has taken the place of the old one.
fn write(alloc: Global, drive: &Drive, file: &File) -> Result<(), SystemError> {
    write_drive(alloc, drive, file)?;
    Ok(file.sync_all()?)
}

/// The path of the folder of a file.
fn folder(path: &str) -> &str
    ensures { IsFolder path.now result.now }
{
    match path.rfind('/') {
        Some(0) => "/",
        Some(end) => &path[..end],
        None => ".",
    }
}

/// Brings the name of a file to the disk, by a sync of its folder. Some file systems cannot sync
/// folders, and call this an invalid input. Then there is nothing to do.
pub fn sync_name<F: Files<File = File>>(files: &F, path: &str) -> Result<(), SystemError> {
    match fs::open(files, folder(path))?.sync_all() {
        Err(error) if error.kind() == ErrorKind::InvalidInput => Ok(()),
        synced => Ok(synced?),
    }
}

/// How drives are saved.
#[derive(Drop)]
pub struct Saving<'a, F: Files> {
    pub files: &'a F,
    pub alloc: Global,
}

/// A new file that has the path of an image.
#[derive(Drop)]
pub struct NewImage {
    pub image: ImageFile,
    /// Whether the old image had been removed, so that nothing was at its path.
    pub is_restored: bool,
    /// Whether the name of the file is on the disk. Its bytes always are.
    pub name: Result<(), SystemError>,
}

/// The fault of a new file that cannot be made in the folder of an image.
fn new_file_fault(error: io::Error) -> FileFault {
    match error.kind() {
        ErrorKind::InvalidFilename => FileFault::LongName,
        _ => FileFault::NewFile(SystemError::from(error)),
    }
}

/// The fault of a new file that cannot take the place of an image.
fn rename_fault(error: io::Error) -> FileFault {
    match error.kind() {
        ErrorKind::ResourceBusy => FileFault::Mounted,
        _ => FileFault::Rename(SystemError::from(error)),
    }
}

/// Whether the image was removed, so that nothing is at its path. Another file there is a fault.
fn is_removed<F: Files>(files: &F, image: &ImageFile) -> Result<bool, FileFault> {
    match image.is_named(files) {
        Ok(true) => Ok(false),
        Ok(false) => Err(FileFault::Replaced),
        Err(error) if error.kind() == ErrorKind::NotFound => Ok(true),
        Err(error) => Err(rename_fault(error)),
    }
}

/// Writes the image of a drive to a new file, locks it, and renames it to the path of the old
/// image. The old image may have been removed.
fn fill<F: Files<File = File>>(
    how: &Saving<'_, F>,
    drive: &Drive,
    path: &str,
    file: File,
    old: &ImageFile,
) -> Result<NewImage, FileFault> {
    keep_owner_and_mode(&file, &old.metadata);
    write(how.alloc, drive, &file).map_err(FileFault::Write)?;
    let image = ImageFile::replacing(how.alloc, old, file)?;
    let is_restored = is_removed(how.files, old)?;
    fs::rename(how.files, path, old.path.as_str()).map_err(rename_fault)?;
    let name = sync_name(how.files, &old.path);
    Ok(NewImage {
        image,
        is_restored,
        name,
    })
}

/// Makes a new file with the image of a drive, and puts it in the place of the old image. After a
/// fault the new file is removed.
fn make_in_place<F: Files<File = File>>(
    how: &Saving<'_, F>,
    drive: &Drive,
    old: &ImageFile,
) -> Result<NewImage, FileFault> {
    let (path, file) = make_at_free_name(how.files, how.alloc, &old.path).map_err(new_file_fault)?;
    let made = fill(how, drive, &path, file, old);
    if made.is_err() {
        let _ = fs::remove_file(how.files, path.as_str());
    }
    made
}

/// Puts a new file with the image of a drive in the place of the old image, and returns it. The
/// bytes of the new file are on the disk before it is renamed, and its name is brought there
/// afterwards. After a fault no new file is left, and the old image is as before.
pub fn replace<F: Files<File = File>>(
    how: &Saving<'_, F>,
    drive: &Drive,
    old: &ImageFile,
) -> Result<NewImage, FileFault> {
    match make_in_place(how, drive, old) {
        Ok(new) => Ok(new),
        Err(fault) => match is_removed(how.files, old) {
            Ok(true) => Err(fault.of_removed()),
            _ => Err(fault),
        },
    }
}

/// Saves a drive in the place of the old image. After a fault no new file is left, and the old
/// image is as before. There is one exception: if only the sync of the name failed, the new file
/// stays.
pub fn save<F: Files<File = File>>(
    how: &Saving<'_, F>,
    drive: &Drive,
    image: &ImageFile,
) -> Result<Saved, FileFault> {
    let new = replace(how, drive, image)?;
    new.name.map_err(FileFault::Sync)?;
    Ok(Saved {
        is_restored: new.is_restored,
    })
}

/// What is known of a file after its drive was saved, or needed no save.
#[derive(Clone, Copy, Debug, PartialEq, Eq)]
pub struct Saved {
    /// Whether the file had been removed while it was in use, and was made again at its path.
    pub is_restored: bool,
}

impl Saved {
    /// The file has been at its path all the time.
    pub const IN_PLACE: Saved = Saved { is_restored: false };
}
