// The file of an image. It is locked before the image is read, and stays locked until the drive is
// saved.
//
// The lock is on the image file itself. So it needs no file of its own, and is the same through
// each link. A save puts a new file in the place of the locked one. So after a program has locked
// a file, it looks whether the path still names this file. If not, the image was replaced in the
// meantime.

use crate::file_fault::{FileFault, SystemError};
use crate::new_file::sync_name;
use drive_images::{ImageFault, read_image};
use std::alloc::Global;
use std::fs::{File, Metadata, OpenOptions, TryLockError};
use std::io::{BufReader, ErrorKind, Read, Seek, SeekFrom};
use std::os::unix::fs::MetadataExt;
use std::rt::Files;
use std::{fs, io};

/// An image file that is open and locked.
#[derive(Drop)]
pub struct ImageFile {
    /// The path of the file. Only if the image is just read, this may be a symbolic link.
    pub path: String,
    pub file: File,
    /// The metadata of the file when it was locked.
    pub metadata: Metadata,
    /// Why the file cannot be written, if it was opened only to be read.
    pub read_only: Option<SystemError>,
    /// Whether this program made the file. It is empty until the drive is saved.
    pub is_new: bool,
}

fn open_fault(error: io::Error) -> FileFault {
    FileFault::Open(SystemError::from(error))
}

/// A reader of a file, from its present position on.
fn reader_of(alloc: Global, file: &File) -> Result<BufReader<File>, FileFault> {
    let file = file.try_clone().map_err(open_fault)?;
    BufReader::new(alloc, file).map_err(open_fault)
}

fn is_same_file(one: &Metadata, other: &Metadata) -> bool {
    one.dev() == other.dev() && one.ino() == other.ino()
}

/// The result of an attempt to lock a file.
fn locked(attempt: Result<(), TryLockError>) -> Result<(), FileFault> {
    match attempt {
        Ok(()) => Ok(()),
        Err(TryLockError::WouldBlock) => Err(FileFault::InUse),
        Err(TryLockError::Error(error)) => Err(FileFault::Lock(SystemError::from(error))),
    }
}

/// The path of the file that a symbolic link leads to, and any other path as it is.
fn without_link<F: Files>(files: &F, alloc: Global, path: &str) -> io::Result<String> {
    if fs::symlink_metadata(files, path)?.is_symlink() {
        return Ok(files.canonicalize(alloc, path)?.into_string());
    }
    Ok(String::from_str(alloc, path)?)
}

/// Opens a file to read and write it. If that fails, it is opened only to read it, and the error is
/// returned, too. Writing is asked for since network file systems lock no other file.
fn open_both_ways<F: Files>(files: &F, path: &str) -> io::Result<(F::File, Option<SystemError>)> {
    match OpenOptions::new().read(true).write(true).open(files, path) {
        Ok(file) => Ok((file, None)),
        Err(error) => Ok((fs::open(files, path)?, Some(SystemError::from(error)))),
    }
}

/// Looks whether a path names a regular file, before it is opened: opening a pipe waits for its other end.
fn look_regular<F: Files>(files: &F, path: &str) -> Result<(), FileFault> {
    let metadata = fs::metadata(files, path).map_err(open_fault)?;
    if !metadata.is_file() {
        return Err(FileFault::NotRegular);
    }
    Ok(())
}

/// Looks whether a path names what can be read without waiting: a regular file, or a nameless pipe
/// that is open already, such as `/dev/stdin` may be.
fn look_readable<F: Files>(files: &F, alloc: Global, path: &str) -> Result<(), FileFault> {
    match look_regular(files, path) {
        Err(FileFault::NotRegular) if files.canonicalize(alloc, path).is_err() => Ok(()),
        looked => looked,
    }
}

/// Locks a file against all other programs. It fails if the path names another file by now.
fn lock_at<F: Files>(
    files: &F,
    path: String,
    file: File,
    is_new: bool,
) -> Result<ImageFile, FileFault> {
    locked(file.try_lock())?;
    let metadata = file.metadata().map_err(open_fault)?;
    let named = fs::metadata(files, path.as_str()).map_err(open_fault)?;
    if !is_same_file(&metadata, &named) {
        return Err(FileFault::InUse);
    }
    Ok(ImageFile {
        path,
        file,
        metadata,
        read_only: None,
        is_new,
    })
}

/// Opens the file of an image to read it. Other programs can read it too, and none can change it.
pub fn open_to_read<F: Files<File = File>>(
    files: &F,
    alloc: Global,
    path: &str,
) -> Result<ImageFile, FileFault> {
    look_readable(files, alloc, path)?;
    let file = fs::open(files, path).map_err(open_fault)?;
    locked(file.try_lock_shared())?;
    let metadata = file.metadata().map_err(open_fault)?;
    let path = String::from_str(alloc, path).map_err(|error| open_fault(io::Error::from(error)))?;
    Ok(ImageFile {
        path,
        file,
        metadata,
        read_only: None,
        is_new: false,
    })
}

/// Opens the file of an image to save a drive in it later. No other program can read or change it
/// until then. If the file can be written, it also looks whether its folder can be synced.
pub fn open_to_save<F: Files<File = File>>(
    files: &F,
    alloc: Global,
    path: &str,
) -> Result<ImageFile, FileFault> {
    let path = without_link(files, alloc, path).map_err(open_fault)?;
    look_regular(files, &path)?;
    let (file, read_only) = open_both_ways(files, &path).map_err(open_fault)?;
    let mut image = lock_at(files, path, file, false)?;
    image.read_only = read_only;
    if read_only.is_none() {
        sync_name(files, &image.path).map_err(FileFault::Folder)?;
    }
    Ok(image)
}

/// The file of an image, opened as by [`open_to_read`], and its bytes.
pub fn image_to_read<F: Files<File = File>>(
    files: &F,
    alloc: Global,
    path: &str,
) -> Result<(ImageFile, BufReader<File>), FileFault> {
    let image = open_to_read(files, alloc, path)?;
    let bytes = reader_of(alloc, &image.file)?;
    Ok((image, bytes))
}

/// The file of an image, opened as by [`open_to_save`], and its bytes.
pub fn image_to_save<F: Files<File = File>>(
    files: &F,
    alloc: Global,
    path: &str,
) -> Result<(ImageFile, BufReader<File>), FileFault> {
    let image = open_to_save(files, alloc, path)?;
    let bytes = reader_of(alloc, &image.file)?;
    Ok((image, bytes))
}

/// Makes an empty file for an image, at a path that nothing has. If it cannot be locked, it is
/// removed again, unless another program has it by now.
pub fn new_image<F: Files<File = File>>(
    files: &F,
    alloc: Global,
    path: &str,
) -> Result<ImageFile, FileFault> {
    let owned = String::from_str(alloc, path).map_err(|error| open_fault(io::Error::from(error)))?;
    sync_name(files, path).map_err(FileFault::Folder)?;
    let file = File::create_new(files, path).map_err(open_fault)?;
    let made = lock_at(files, owned, file, true);
    match made {
        Ok(_) | Err(FileFault::InUse) => {}
        Err(_) => {
            let _ = fs::remove_file(files, path);
        }
    }
    made
}

/// Whether a file begins as an image does. The reader of images decides that by the first bytes.
fn begins_as_image(alloc: Global, mut file: &File) -> io::Result<bool> {
    let mut head = [0; 64];
    file.read(&mut head)?;
    file.seek(SeekFrom::Start(0))?;
    let read = read_image(alloc, &mut head.as_slice());
    Ok(!matches!(read, Err(ImageFault::Magic)))
}

/// Opens the file in which a fresh drive will be saved, or makes it. Without `force` it has to be empty, or to begin as
/// an image does.
fn open_to_format<F: Files<File = File>>(
    files: &F,
    alloc: Global,
    path: &str,
    force: bool,
) -> Result<ImageFile, FileFault> {
    match fs::symlink_metadata(files, path) {
        Err(error) if error.kind() == ErrorKind::NotFound => return new_image(files, alloc, path),
        _ => {}
    }
    let image = open_to_save(files, alloc, path)?;
    if force || image.metadata.len() == 0 {
        return Ok(image);
    }
    if !begins_as_image(alloc, &image.file).map_err(open_fault)? {
        return Err(FileFault::NotImage);
    }
    Ok(image)
}

/// The file in which a fresh drive will be saved, opened or made, and its bytes. What it holds will be lost. Without
/// `force` it has to be empty, or to begin as an image does.
pub fn image_to_format<F: Files<File = File>>(
    files: &F,
    alloc: Global,
    path: &str,
    force: bool,
) -> Result<(ImageFile, BufReader<File>), FileFault> {
    let image = open_to_format(files, alloc, path, force)?;
    let bytes = reader_of(alloc, &image.file)?;
    Ok((image, bytes))
}

impl ImageFile {
    /// A new file that will get the path of an old one. No other program knows it yet, so it can be
    /// locked.
    pub fn replacing(alloc: Global, old: &ImageFile, file: File) -> Result<ImageFile, FileFault> {
        locked(file.try_lock())?;
        let metadata = file.metadata().map_err(open_fault)?;
        let path = String::from_str(alloc, &old.path).map_err(|error| open_fault(error.into()))?;
        Ok(ImageFile {
            path,
            file,
            metadata,
            read_only: None,
            is_new: false,
        })
    }

    /// Whether the path still names the file.
    pub fn is_named<F: Files>(&self, files: &F) -> io::Result<bool> {
        let named = fs::metadata(files, self.path.as_str())?;
        Ok(is_same_file(&self.metadata, &named))
    }

    /// Removes the file if this program made it.
    pub fn discard<F: Files>(&self, files: &F) {
        if self.is_new && self.is_named(files).unwrap_or(false) {
            let _ = fs::remove_file(files, self.path.as_str());
        }
    }
}
