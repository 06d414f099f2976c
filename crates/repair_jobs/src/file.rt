// The file of a repair: it is opened and locked, and saved after the repair.

ghost use Rattle.std.specs.Prelude.{◌≡◌, IfErr, IfNone, IfOk, IfSome};
ghost use Rattle.job_drives.specs.Kept.{HoldsFile};
ghost use Rattle.tool_jobs.specs.Asked.{any_text};
ghost use Rattle.tool_jobs.specs.Telling.{TellsFound};
ghost use Rattle.repair_jobs.specs.Jobs.{KeepsFile, ListsNone, MendsFile, MendsNothing, TailsInFile, left_to_save};

use crate::fault::{RepairJobFault, is_refusal};
use crate::job::RepairJob;
use crate::mending::{Mended, list_tails, mend};
use drive_journal::ChangeStore;
use drive_port::Honest;
use job_drives::{
    ChangesFile, DriveFile, FileFault, Finished, KeepFault, Left, Saved, Saving, finish,
    first_told, image_to_read, image_to_save, keep_restarted, leave, restarted_drive,
};
use std::alloc::Global;
use std::fs::File;
use std::io::{BufReader, Read, Write};
use std::rt::Files;
use zone_drive::{Drive, Habit};

/// How a repair of the drive in a file ended, and how the drive was saved. Both can fail.
#[derive(Drop)]
pub struct Repaired {
    /// What became of the drive.
    pub mended: Result<Mended, RepairJobFault>,
    /// Of the drive. It is `Ok` if there is none to save.
    pub saved: Result<Saved, RepairJobFault>,
}

/// That memory ran out for a call of the system is told as such.
fn file_fault(fault: FileFault) -> RepairJobFault {
    RepairJobFault::File(KeepFault::from(fault))
}

/// Tells which zones of the drive in a file end in something foreign, and whether there is none. The drive is restarted
/// first, as by a mount.
pub fn list_file<I: Read, W: Write>(
    alloc: Global,
    bytes: &mut I,
    output: &mut W,
) -> Result<bool, RepairJobFault>
    ensures ok { IfOk result (λ none. TellsFound (TailsInFile (I.remaining bytes.old) none) any_text
        (W.contents output.old) (W.contents output.new)) }
    ensures err { IfErr result (λ fault. ListsNone (I.remaining bytes.old) fault
        (W.contents output.old) (W.contents output.new)) }
{
    match restarted_drive(alloc, bytes, Habit::Lazy) {
        Ok(mut begun) => {
            let told = list_tails(alloc, &mut begun.drive, output);
            begun.drive.vouch();
            told
        }
        Err(fault) => Err(RepairJobFault::File(KeepFault::Image(fault))),
    }
}

/// Repairs the drive of a file. Its changes go to the store. What is left of the drive is handed back, also after a
/// fault, if the file holds one.
pub fn mend_file<I: Read + Drop, S: ChangeStore<Drive> + Drop>(
    alloc: Global,
    file: DriveFile<I, S>,
) -> (Option<Left>, S, Result<Mended, RepairJobFault>)
    requires { HoldsFile (S.held file.store) (I.remaining file.bytes) }
    // The drive in the file is repaired, and the store holds the drive that is left.
    ensures left { IfSome result.0 (λ left. MendsFile (I.remaining file.bytes) result.2 left
        (S.held result.1) (S.failed result.1)) }
    // No batch is lost with which a zone of the drive in the file began.
    ensures kept { IfSome result.0 (λ left. KeepsFile (I.remaining file.bytes) left
        (S.held result.1) (S.failed result.1)) }
    ensures none { IfNone result.0 (MendsNothing (I.remaining file.bytes) result.2) }
    ensures unused { IfNone result.0 (S.held result.1 ≡ S.held file.store) }
{
    let mut stored = match keep_restarted(alloc, file, Habit::Lazy) {
        Ok(stored) => stored,
        Err((fault, store)) => {
            return (
                None,
                store,
                Err(RepairJobFault::File(KeepFault::Image(fault))),
            );
        }
    };
    let mended = mend(alloc, &mut stored.device);
    stored.device.vouch();
    let (left, store) = leave(stored.device, stored.was_image);
    (Some(left), store, mended)
}

/// What is saved of the drive that a repair left. After a refusal nothing is, and the file stays as it is.
pub fn left_to_save(left: Option<Left>, mended: &Result<Mended, RepairJobFault>) -> Option<Left>
    ensures { result ≡ left_to_save left mended.now }
{
    match mended {
        Err(RepairJobFault::Repair(fault)) if is_refusal(*fault) => None,
        _ => left,
    }
}

/// Tells which zones of the drive in an image file end in something foreign, and whether there is none. Other programs
/// can read the file too.
pub fn list_image<F: Files<File = File>, W: Write>(
    files: &F,
    alloc: Global,
    job: &RepairJob,
    output: &mut W,
) -> Result<bool, RepairJobFault> {
    match image_to_read(files, alloc, &job.image) {
        Ok((_image, mut bytes)) => list_file(alloc, &mut bytes, output),
        Err(fault) => Err(file_fault(fault)),
    }
}

/// Repairs the drive of an open file, whose bytes are read from `bytes`.
fn mend_open<F: Files<File = File>>(
    alloc: Global,
    (file, bytes): (&ChangesFile<'_, F>, BufReader<File>),
) -> (Option<Left>, Result<Mended, RepairJobFault>) {
    let store = file.store();
    let (left, _store, mended) = mend_file(alloc, DriveFile { bytes, store });
    (left_to_save(left, &mended), mended)
}

/// Repairs the drive in an image file, and saves it, also after a fault. Its changes go to the file, which is locked
/// until the drive is saved. After a refusal the file stays as it is.
pub fn mend_image<F: Files<File = File>>(files: &F, alloc: Global, job: &RepairJob) -> Repaired {
    let saving = Saving { files, alloc };
    let (image, bytes) = match image_to_save(files, alloc, &job.image) {
        Ok(opened) => opened,
        Err(fault) => {
            return Repaired {
                mended: Err(file_fault(fault)),
                saved: Ok(Saved::IN_PLACE),
            };
        }
    };
    let file = ChangesFile::new(&saving, image);
    let (left, mended) = mend_open(alloc, (&file, bytes));
    let Finished { fault, saved } = finish(file, left);
    Repaired {
        mended: first_told(mended, fault.map(file_fault)),
        saved: saved.map_err(file_fault),
    }
}
