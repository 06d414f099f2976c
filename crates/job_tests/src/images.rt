// Readers and writers of images that fail at each place, and the lines of the faults. `worked_runs` has the images
// that have those faults.

use crate::fakes::FullWriter;
use disk_files::{FailAfter, LineReader, WriteFault};
use disk_jobs::{DriveFile, Job, ProgramFault, run_job, write_program_fault};
use drive_images::{ImageFault, read_image, write_image};
use drive_journal::{ReadFault, Unknown};
use std::alloc::{AllocError, Global};
use std::io;
use std::process::Abort;
use std::test::Fail;
use zone_drive::Drive;

const ZONES: &[u8] = b"zones 3
start 0 state ImplicitlyOpened pointer 2 capacity 4
start 4 state Empty pointer 4 capacity 4
start 8 state Empty pointer 8 capacity 4
";

/// An image of 1,112 bytes: a drive of three zones, with two written blocks in the first one.
fn image(alloc: Global) -> Result<Vec<u8>, AllocError> {
    let mut bytes = Vec::from_slice(alloc, b"ZNSIMG01\0\x02\0\0\x03\0\0\0\x04\0\0\0\x04\0\0\0")?;
    bytes.extend_from_slice(b"\x02\0\0\0\x02\0\0\0\x01\0\0\0")?;
    bytes.resize(64, 0)?;
    bytes.extend_from_slice(b"\x02\0\0\0\x02\0\0\0")?;
    bytes.resize(1096, 0xaa)?;
    bytes.extend_from_slice(b"\x01\0\0\0\0\0\0\0\x01\0\0\0\0\0\0\0")?;
    Ok(bytes)
}

/// Reports an image whose reader fails after `left` bytes, and gives at most `step` of them in one call.
fn report(alloc: Global, bytes: &[u8], left: usize, step: usize) -> Result<Vec<u8>, AllocError> {
    let job = Job::Report {
        image: String::new(alloc),
    };
    let file = DriveFile {
        bytes: FailAfter::in_steps(bytes, left, step),
        store: Unknown::new(io::sink()),
    };
    let mut input = LineReader::new(alloc, b"".as_slice());
    let mut written = Vec::new(alloc);
    let (_, _, result) = run_job(alloc, &job, file, &mut input, &mut written);
    if let Err(fault) = result {
        write_program_fault(alloc, fault, &mut written).or(Err(AllocError))?;
    }
    Ok(written)
}

/// At each byte, and where the image has ended: whether more bytes follow is also asked of the reader.
#[test]
fn refuses_an_image_where_the_reader_fails(rt: HostRuntime) -> Result<(), Fail> {
    let bytes = image(rt.alloc())?;
    for left in 0..=bytes.len() {
        let written = report(rt.alloc(), &bytes, left, 1 + left % 50)?;
        assert_eq!(rt; written.as_slice(), b"fault image 9 Input\n".as_slice());
    }
    let written = report(rt.alloc(), &bytes, bytes.len().saturating_add(1), 100)?;
    assert_eq!(rt; written.as_slice(), ZONES);
    Ok(())
}

fn drive_of(rt: &impl Abort, alloc: Global, bytes: &[u8]) -> Drive {
    let mut rest = bytes;
    read_image(alloc, &mut rest).ok().expect(rt, "a drive")
}

/// Writes a drive to a writer that fails after `left` bytes, and compares what was written with its image.
fn check_front(rt: &impl Abort, alloc: Global, drive: &Drive, bytes: &[u8], left: usize) {
    let mut writer = FailAfter::in_steps(Vec::new(alloc), left, 1 + left % 90);
    let want = if left < bytes.len() {
        Err(WriteFault)
    } else {
        Ok(())
    };
    assert_eq!(rt; write_image(drive, &mut writer), want);
    let taken = left.min(bytes.len());
    assert_eq!(rt; writer.inner.as_slice(), &bytes[..taken]);
}

#[test]
fn writes_a_beginning_of_an_image(rt: HostRuntime) -> Result<(), Fail> {
    let bytes = image(rt.alloc())?;
    let drive = drive_of(&rt, rt.alloc(), &bytes);
    for left in 0..=bytes.len() {
        check_front(&rt, rt.alloc(), &drive, &bytes, left);
    }
    assert_eq!(rt; write_image(&drive, &mut FullWriter {}), Err(WriteFault));
    Ok(())
}

/// The faults of a file, and their lines.
const FAULT_LINES: [(ReadFault, &str); 14] = [
    (ReadFault::Image(ImageFault::Magic), "fault image 1 Magic\n"),
    (
        ReadFault::Image(ImageFault::Geometry),
        "fault image 2 Geometry\n",
    ),
    (ReadFault::Image(ImageFault::State), "fault image 3 State\n"),
    (
        ReadFault::Image(ImageFault::Written),
        "fault image 4 Written\n",
    ),
    (
        ReadFault::Image(ImageFault::RestNotZero),
        "fault image 5 RestNotZero\n",
    ),
    (
        ReadFault::Image(ImageFault::Limits),
        "fault image 6 Limits\n",
    ),
    (ReadFault::Image(ImageFault::Short), "fault image 7 Short\n"),
    (ReadFault::Image(ImageFault::Long), "fault image 8 Long\n"),
    (ReadFault::Image(ImageFault::Input), "fault image 9 Input\n"),
    (
        ReadFault::Image(ImageFault::OutOfMemory),
        "fault image 10 OutOfMemory\n",
    ),
    (ReadFault::Long(88), "fault image 8 Long\n"),
    (ReadFault::Earlier(88), "fault file\n"),
    (ReadFault::Damaged(96), "fault file\n"),
    (ReadFault::Zones, "fault file\n"),
];

#[test]
fn writes_the_lines_of_all_faults_of_a_file_that_is_read(rt: HostRuntime) {
    for (fault, line) in &FAULT_LINES {
        let mut written = Vec::new(rt.alloc());
        let ended = write_program_fault(rt.alloc(), ProgramFault::Image(*fault), &mut written);
        assert!(rt; ended.is_ok());
        assert_eq!(rt; written.as_slice(), line.as_bytes());
    }
}
