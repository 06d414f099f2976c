// A fresh drive in the file of an image.

ghost use Rattle.std.specs.Prelude.{◌≡◌, ◌⊎◌, IfErr, OnOk, Some};
ghost use Rattle.job_drives.specs.Backing.{SavesDrive};
ghost use Rattle.job_drives.specs.Kept.{HoldsFile};
ghost use Rattle.disk_jobs.specs.Formatting.{EndsFormat, HoldsEmptyDrive, IsHeld, MayReplace, unread};

use crate::fault::ProgramFault;
use crate::file::file_told;
use crate::holding::FileHolding;
use disk_files::write_out;
use disk_runs::RunFault;
use drive_images::ImageFault;
use drive_inspection::find_written;
use drive_journal::ReadFault;
use drive_port::Honest;
use job_drives::{Backing, FileFault, Saved, restarted_drive};
use std::alloc::Global;
use std::io::{Read, Write};
use zone_drive::{Drive, Habit};
use zone_translator::MountFault;

/// Why a file is not replaced in which no drive is read, by the fault of its bytes.
fn unread(fault: ReadFault) -> ProgramFault
    ensures { result ≡ unread fault }
{
    match fault {
        ReadFault::Image(ImageFault::Magic) => ProgramFault::File(FileFault::NotImage),
        ReadFault::Image(ImageFault::OutOfMemory) => ProgramFault::Run(RunFault::Memory),
        fault => ProgramFault::Holds(FileHolding::Unread(fault)),
    }
}

/// Refuses bytes in which anything is written: those of a drive with a zone that is not Empty, and those in which no
/// drive is read.
fn refuse_written<I: Read>(alloc: Global, bytes: &mut I) -> Result<(), ProgramFault>
    ensures ok { OnOk result (HoldsEmptyDrive (I.remaining bytes.old)) }
    ensures err { IfErr result (IsHeld (I.remaining bytes.old)) }
{
    let mut drive = match restarted_drive(alloc, bytes, Habit::Lazy) {
        Ok(begun) => begun.drive,
        Err(fault) => return Err(unread(fault)),
    };
    let found = find_written(alloc, &mut drive);
    drive.vouch();
    match found {
        Ok(None) => Ok(()),
        Ok(Some(written)) => Err(ProgramFault::Holds(FileHolding::Drive(written))),
        Err(MountFault::OutOfMemory) => Err(ProgramFault::Run(RunFault::Memory)),
        Err(fault) => Err(ProgramFault::Run(RunFault::Mount(fault))),
    }
}

/// Saves a fresh drive in a file.
fn save_fresh<B: Backing>(drive: &Drive, file: &mut B) -> Result<Saved, FileFault>
    ensures { SavesDrive (Some drive.now) (B.state file.old) result (B.state file.new) }
{
    let renewed = file.renew(drive)?;
    match renewed.name {
        Ok(()) => Ok(Saved {
            is_restored: renewed.is_restored,
        }),
        Err(error) => Err(FileFault::Sync(error)),
    }
}

/// Replaces what a file holds by a fresh drive, and then says `ok`. `bytes` are those of the file. Without `force` the
/// file has to hold nothing that is written: no byte, or a drive all of whose zones are Empty.
#[tactic(auto, using(crate::proofs::FormattingLaws::ends_held))]
pub fn format_file<I: Read, B: Backing, W: Write>(
    alloc: Global,
    force: bool,
    drive: &Drive,
    bytes: &mut I,
    file: &mut B,
    output: &mut W,
) -> Result<Saved, ProgramFault>
    requires { HoldsFile (B.state file.old).bytes (I.remaining bytes.old) }
    // Without force a file that holds something is as it was, whatever is answered.
    ensures kept { MayReplace force (B.state file.old).bytes ⊎ (B.state file.new ≡ B.state file.old) }
    // `ok` is written last.
    ensures ends { EndsFormat force drive.now.state (B.state file.old) (W.contents output.old) result
        (B.state file.new) (W.contents output.new) }
{
    if !force && file.length() != 0 {
        refuse_written(alloc, bytes)?;
    }
    let saved = match save_fresh(drive, file) {
        Ok(saved) => saved,
        Err(fault) => return Err(file_told(fault)),
    };
    match write_out(output, b"ok\n") {
        Ok(()) => Ok(saved),
        Err(_) => Err(ProgramFault::Run(RunFault::Output)),
    }
}
