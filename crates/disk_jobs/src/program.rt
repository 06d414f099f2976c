ghost use Rattle.std.specs.Prelude.{◌≡◌, Err, IfErr, IfNone, IfSome, OnOk, true};
ghost use Rattle.drive_journal.specs.Cut.{front_of};
ghost use Rattle.drive_journal.specs.File.{IsStoredWhole};
ghost use Rattle.job_drives.specs.Kept.{HoldsFile};
ghost use Rattle.disk_runs.specs.Run.{exchange};
ghost use Rattle.disk_jobs.specs.Saved.{HasNoDrive, LeavesDrive, LeftByLines, ShowsReport, TellsRun};
ghost use Rattle.disk_jobs.specs.Saved.{ended_by, has_changes};

use crate::begun::begin;
use crate::fault::ProgramFault;
use crate::job::Job;
use crate::lines::{Answered, Start, answer_in_memory, answer_kept};
use disk_files::LineReader;
use disk_runs::RunFault;
use drive_journal::ChangeStore;
use drive_port::Device;
use job_drives::{DriveFile, Stored, keep};
use std::alloc::Global;
use std::io::{Read, Write};
use zone_choice::most_blocks;
use zone_drive::Drive;
use zone_states::Geometry;
use zone_translator::MountFault;

/// What the fault of a run over a drive of this shape is to the program.
pub fn run_told(fault: RunFault, geometry: &Geometry) -> ProgramFault
    ensures tells { TellsRun geometry.now result }
    ensures ended { ended_by (Err result) ≡ Err fault }
{
    if fault != RunFault::Mount(MountFault::Reserve) || geometry.check().is_err() {
        return ProgramFault::Run(fault);
    }
    ProgramFault::Reserve {
        most: most_blocks(geometry),
    }
}

/// Whether the changes of a job go to its file.
fn has_changes(job: &Job) -> bool
    ensures { result ≡ has_changes job.now }
{
    match job {
        Job::Run { read_only, .. } => !*read_only,
        Job::Nvme { .. } => true,
        _ => false,
    }
}

/// Answers the lines of a job over the drive that it begins with.
fn answer<S: ChangeStore<Drive> + Drop, R: Read + Drop, W: Write>(
    alloc: Global,
    job: &Job,
    start: Start<S>,
    input: &mut LineReader<R>,
    output: &mut W,
) -> (Answered, S, Result<(), RunFault>)
    requires { has_changes job.now ≡ true → IfSome (front_of start.begun.whole (S.held start.store))
        (λ bytes. IsStoredWhole bytes start.begun.drive.state start.begun.sum) }
    ensures leaves { LeavesDrive job.now (exchange input.old.left (W.contents output.old) (W.contents output.new))
        start.begun.drive.state result.2 result.0 (S.held start.store) (S.held result.1) (S.failed result.1) }
    ensures was_image { result.0.left.was_image ≡ start.begun.is_image }
{
    if !has_changes(job) {
        return answer_in_memory(alloc, job, start, input, output);
    }
    let Start { begun, store } = start;
    let stored = Stored {
        was_image: begun.is_image,
        device: keep(alloc, begun, store),
    };
    answer_kept(alloc, job, stored, input, output)
}

/// Does a job, but for opening and saving its file: reads the file and then the lines of `input`, writes its changes to
/// the store, and writes to `output`. What is left of the drive is handed back, also after a fault, if the job has one.
/// A run that only reads changes nothing in the store.
pub fn run_job<I: Read + Drop, S: ChangeStore<Drive> + Drop, R: Read + Drop, W: Write>(
    alloc: Global,
    job: &Job,
    file: DriveFile<I, S>,
    input: &mut LineReader<R>,
    output: &mut W,
) -> (Option<Answered>, S, Result<(), ProgramFault>)
    requires { HoldsFile (S.held file.store) (I.remaining file.bytes) }
    // A drive that is handed back is the one that the lines left, whatever ended them, and the store has it too, unless
    // the job only reads; it is said to be that of the store alone only if the store failed. The fault comes from the
    // run of the lines.
    ensures left { IfSome result.0 (λ answered. LeftByLines job.now (I.remaining file.bytes)
        (exchange input.old.left (W.contents output.old) (W.contents output.new))
        (ended_by result.2) answered (S.held file.store) (S.held result.1) (S.failed result.1)) }
    ensures told { IfSome result.0 (λ answered. IfErr result.2 (TellsRun answered.left.drive.state.geometry)) }
    // Without a drive no line was read and no change written, and of what the job writes at most a beginning is
    // written: the fault says why there is no drive, by the bytes of the file. Only a report is done without one.
    ensures unread { IfNone result.0 ((input.new ≡ input.old) × (S.held result.1 ≡ S.held file.store)) }
    ensures none { IfNone result.0 (IfErr result.2 (λ fault. HasNoDrive job.now (I.remaining file.bytes) fault
        (W.contents output.old) (W.contents output.new))) }
    ensures shown { IfNone result.0 (OnOk result.2 (ShowsReport job.now (I.remaining file.bytes)
        (W.contents output.old) (W.contents output.new))) }
{
    let DriveFile { mut bytes, store } = file;
    let begun = match begin(alloc, job, &mut bytes, output) {
        Ok(Some(begun)) => begun,
        Ok(None) => return (None, store, Ok(())),
        Err(fault) => return (None, store, Err(fault)),
    };
    let (answered, store, result) = answer(alloc, job, Start { begun, store }, input, output);
    let geometry = answered.left.drive.geometry();
    match result {
        Ok(()) => (Some(answered), store, Ok(())),
        Err(fault) => (Some(answered), store, Err(run_told(fault, &geometry))),
    }
}
