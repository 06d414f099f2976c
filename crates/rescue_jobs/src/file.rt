// The files of a rescue: the image of the broken drive, the image of a new one, and the file for the lists.

use crate::fault::RescueJobFault;
use crate::job::{RescueJob, given_blocks};
use crate::lists::lists_json;
use crate::rescuing::{rescue_into, rescue_out};
use drive_port::{Device, Halt};
use drive_rescue::{DeviceSource, RescueFault, Rescued, Source};
use job_drives::SystemError;
use std::alloc::Global;
use std::cell::Cell;
use std::fs::{File, OpenOptions};
use std::io::{BufWriter, Write};
use std::rt::Files;
use tool_jobs::{drive_in_image, make_image};
use zone_drive::{Drive, DriveFault};

/// The file for the lists, if one was asked for. It is made before anything is read, so that its path is known to be
/// usable. Nothing may be there.
#[derive(Drop)]
pub struct ListFile {
    file: Option<File>,
}

impl ListFile {
    /// Makes the file that a job names.
    pub fn make<F: Files<File = File>>(
        files: &F,
        job: &RescueJob,
    ) -> Result<ListFile, RescueJobFault> {
        let Some(path) = &job.json else {
            return Ok(ListFile { file: None });
        };
        let mut options = OpenOptions::new();
        options.write(true).create_new(true);
        match options.open(files, path.as_str()) {
            Ok(file) => Ok(ListFile { file: Some(file) }),
            Err(error) => Err(RescueJobFault::Lists(SystemError::from(error))),
        }
    }

    /// Writes the lists of a rescued disk as JSON.
    pub fn write(self, alloc: Global, rescued: &Rescued) -> Result<(), RescueJobFault> {
        let Some(mut file) = self.file else {
            return Ok(());
        };
        let Ok(text) = lists_json(alloc, rescued) else {
            return Err(RescueJobFault::Rescue(RescueFault::Halted(Halt::Memory)));
        };
        match file.write_all(text.as_bytes()) {
            Ok(()) => Ok(()),
            Err(error) => Err(RescueJobFault::Lists(SystemError::from(error))),
        }
    }
}

/// Writes the disk of a source to an output. How many bytes it has is put into `total` before.
pub fn rescue_to_output<S: Source, W: Write>(
    alloc: Global,
    job: &RescueJob,
    total: &Cell<Option<u64>>,
    source: &mut S,
    output: &mut W,
) -> Result<Rescued, RescueJobFault> {
    let Ok(mut writer) = BufWriter::new(alloc, output) else {
        return Err(RescueJobFault::Rescue(RescueFault::Halted(Halt::Memory)));
    };
    let rescued = rescue_out(alloc, given_blocks(job.blocks), total, source, &mut writer)?;
    match writer.flush() {
        Ok(()) => Ok(rescued),
        Err(_) => Err(RescueJobFault::Rescue(RescueFault::Output)),
    }
}

/// Writes the disk of the drive in an image to the image of a new drive of the same shape.
fn rescue_to_image<F: Files<File = File>>(
    files: &F,
    alloc: Global,
    job: &RescueJob,
    path: &str,
    source: &mut DeviceSource<Drive>,
) -> Result<Rescued, RescueJobFault> {
    let Ok(new) = Drive::new(alloc, source.geometry()) else {
        return Err(RescueJobFault::Rescue(RescueFault::Halted(Halt::Memory)));
    };
    let (drive, rescued) = rescue_into(alloc, given_blocks(job.blocks), source, new)?;
    match make_image(files, alloc, path, &drive) {
        Ok(()) => Ok(rescued),
        Err(fault) => Err(RescueJobFault::NewImage(fault)),
    }
}

/// Rescues the disk of the drive in an image file, which is only read. Its blocks go to an output, or to the image of a
/// new drive. How many bytes an output gets is put into `total` before.
pub fn do_rescue<F: Files<File = File>, W: Write>(
    files: &F,
    alloc: Global,
    job: &RescueJob,
    total: &Cell<Option<u64>>,
    output: &mut W,
) -> Result<Rescued, RescueJobFault> {
    let drive = match drive_in_image(files, alloc, &job.image) {
        Ok(drive) => drive,
        Err(fault) => return Err(RescueJobFault::File(fault)),
    };
    let mut source = DeviceSource::new(drive);
    match &job.to {
        Some(path) => rescue_to_image(files, alloc, job, path, &mut source),
        None => rescue_to_output(alloc, job, total, &mut source, output),
    }
}
