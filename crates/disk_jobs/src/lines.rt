// The lines of a job, answered over its drive.

ghost use Rattle.std.specs.Prelude.{◌≡◌, IsTrue, false, true};
ghost use Rattle.job_drives.specs.Stop.{stopping};
ghost use Rattle.disk_runs.specs.Run.{exchange};
ghost use Rattle.disk_jobs.specs.AnyDevice.{RunsAnyTrace};
ghost use Rattle.disk_jobs.specs.Mounted.{TellsJob, TellsMount, TellsMountAnyway};
ghost use Rattle.disk_jobs.specs.Saved.{LeavesDrive, RunsLines, RunsTrace, ThenShows};
ghost use Rattle.disk_jobs.specs.Saved.{has_changes, shows_zones};

use crate::begun::show_zones;
use crate::job::Job;
use crate::mounting::Mounting;
use crate::statistics::run_counted;
use disk_files::LineReader;
use disk_runs::{RunFault, Taking, answer_any_trace, run_raw};
use drive_journal::ChangeStore;
use drive_port::{Device, Honest};
use job_drives::{Begun, Left, Stop, Stored, leave, stopping};
use std::alloc::Global;
use std::io::{Read, Write};
use zone_drive::Drive;
use zone_translator::AnyDisk;

/// What a job begins with: a drive, and the store of its file.
#[derive(Drop)]
pub(crate) struct Start<S: ChangeStore<Drive> + Drop> {
    pub(crate) begun: Begun,
    pub(crate) store: S,
}

/// What the lines of a job left.
#[derive(Drop)]
pub struct Answered {
    pub left: Left,
    /// What is known of the mount, if there was one.
    pub mounting: Mounting,
}

/// How a trace is run: the number of logical blocks that the mount is given, when the device stops, and which lines are
/// taken. A job with a store does not flush: its store makes changes durable.
#[derive(Clone, Copy)]
pub struct TraceRun {
    pub blocks: u64,
    pub stop: Stop,
    pub takes: Taking,
}

/// Answers a trace over any device, which stops. It tells what is known of the mount.
///
/// Whatever the device's Reads return, each line is answered or ends the run. As long as they returned what it holds,
/// the lines are answered by the disk of the drive: so are all before the first Read that lied.
pub fn run_any_stopping<D: Device + Drop, R: Read + Drop, W: Write>(
    alloc: Global,
    device: D,
    how: TraceRun,
    input: &mut LineReader<R>,
    output: &mut W,
) -> (D, Mounting, Result<(), RunFault>)
    ensures runs { RunsAnyTrace how.takes how.blocks (stopping how.stop (D.drive device))
        (exchange input.old.left (W.contents output.old) (W.contents output.new)) result.2 (D.drive result.0) }
    // While the drive is clean, the disk is told that was mounted.
    ensures mounting { IsTrue (D.drive result.0).clean → TellsMount how.blocks (D.drive device) result.2 result.1 }
    // Whatever the Reads returned.
    ensures told { TellsMountAnyway (D.drive device).geometry result.2 result.1 }
{
    let disk = match AnyDisk::mount(alloc, stopping(device, how.stop), how.blocks) {
        Ok(disk) => disk,
        Err((fault, device)) => {
            let mounting = Mounting::refused(device.completed());
            return (device.into_inner(), mounting, Err(RunFault::Mount(fault)));
        }
    };
    let mounting = Mounting::done(&disk);
    let (disk, result) = answer_any_trace(alloc, how.takes, input, output, disk);
    (disk.into_device().into_inner(), mounting, result)
}

/// The same over a device that is always clean.
pub fn run_stopping<D: Device + Honest + Drop, R: Read + Drop, W: Write>(
    alloc: Global,
    device: D,
    how: TraceRun,
    input: &mut LineReader<R>,
    output: &mut W,
) -> (D, Mounting, Result<(), RunFault>)
    ensures runs { RunsTrace how.takes how.blocks (stopping how.stop (D.drive device))
        (exchange input.old.left (W.contents output.old) (W.contents output.new)) result.2 (D.drive result.0) }
    ensures mounting { TellsMount how.blocks (D.drive device) result.2 result.1 }
{
    let (device, mounting, result) = run_any_stopping(alloc, device, how, input, output);
    device.vouch();
    (device, mounting, result)
}

/// Answers the lines of a job over a device. It tells what is known of the mount, if there was one.
fn run_lines<D: Device + Honest + Drop, R: Read + Drop, W: Write>(
    alloc: Global,
    job: &Job,
    device: D,
    input: &mut LineReader<R>,
    output: &mut W,
) -> (D, Mounting, Result<(), RunFault>)
    ensures runs { RunsLines job.now (exchange input.old.left (W.contents output.old) (W.contents output.new))
        (D.drive device) result.2 (D.drive result.0) }
    ensures mounting { TellsJob job.now (D.drive device) result.2 result.1 }
{
    match job {
        Job::Run {
            blocks,
            statistics,
            stop,
            ..
        }
        | Job::Fresh {
            blocks,
            statistics,
            stop,
            ..
        } => {
            let how = TraceRun {
                blocks: *blocks,
                stop: *stop,
                takes: Taking::unsynced(job.reads_only()),
            };
            if *statistics {
                run_counted(alloc, device, how, input, output)
            } else {
                run_stopping(alloc, device, how, input, output)
            }
        }
        Job::Nvme { .. } | Job::FreshRaw { .. } => {
            let (device, result) = run_raw(alloc, input, output, device);
            (device, Mounting::NONE, result)
        }
        Job::Format { .. } | Job::Report { .. } => (device, Mounting::NONE, Ok(())),
    }
}

/// Whether the zones are shown after the replies.
fn shows_zones(job: &Job) -> bool
    ensures { result ≡ shows_zones job.now }
{
    match job {
        Job::Run { zones, .. } => *zones,
        Job::Fresh { report, .. } => *report,
        _ => false,
    }
}

/// Shows the zones of a drive after a run that was done, if the job asks for them.
fn show_after<W: Write>(
    alloc: Global,
    job: &Job,
    drive: &Drive,
    ran: Result<(), RunFault>,
    output: &mut W,
) -> Result<(), RunFault>
    ensures { ThenShows (shows_zones job.now) drive.now.state ran
        (W.contents output.old) result (W.contents output.new) }
{
    if ran.is_err() || !shows_zones(job) {
        return ran;
    }
    show_zones(alloc, drive, output)
}

/// Answers the lines of a job over a drive that no store keeps.
pub(crate) fn answer_in_memory<S: ChangeStore<Drive> + Drop, R: Read + Drop, W: Write>(
    alloc: Global,
    job: &Job,
    start: Start<S>,
    input: &mut LineReader<R>,
    output: &mut W,
) -> (Answered, S, Result<(), RunFault>)
    requires { has_changes job.now ≡ false }
    ensures leaves { LeavesDrive job.now (exchange input.old.left (W.contents output.old) (W.contents output.new))
        start.begun.drive.state result.2 result.0 (S.held start.store) (S.held result.1) (S.failed result.1) }
    ensures was_image { result.0.left.was_image ≡ start.begun.is_image }
{
    let Start { begun, store } = start;
    let was_image = begun.is_image;
    let (drive, mounting, ran) = run_lines(alloc, job, begun.drive, input, output);
    let shown = show_after(alloc, job, &drive, ran, output);
    let left = Left {
        drive,
        failed: store.has_failed(),
        was_image,
    };
    (Answered { left, mounting }, store, shown)
}

/// Answers the lines of a job over a drive whose changes go to a store.
pub(crate) fn answer_kept<S: ChangeStore<Drive> + Drop, R: Read + Drop, W: Write>(
    alloc: Global,
    job: &Job,
    stored: Stored<S>,
    input: &mut LineReader<R>,
    output: &mut W,
) -> (Answered, S, Result<(), RunFault>)
    requires { has_changes job.now ≡ true }
    ensures leaves { LeavesDrive job.now (exchange input.old.left (W.contents output.old) (W.contents output.new))
        stored.device.drive result.2 result.0 stored.device.contents (S.held result.1) (S.failed result.1) }
    ensures was_image { result.0.left.was_image ≡ stored.was_image }
{
    let Stored { device, was_image } = stored;
    let (device, mounting, ran) = run_lines(alloc, job, device, input, output);
    let (left, store) = leave(device, was_image);
    let shown = show_after(alloc, job, &left.drive, ran, output);
    (Answered { left, mounting }, store, shown)
}
