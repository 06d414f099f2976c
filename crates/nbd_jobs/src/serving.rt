// A session over the drive of a store.

ghost use Rattle.std.specs.Prelude.{◌≡◌, IfNone, IfSome, IsTrue, Ok, false, is_some};
ghost use Rattle.nbd_session.specs.Manners.{while_clean};
ghost use Rattle.nbd_session.specs.Streams.{streams};
ghost use Rattle.drive_port.specs.Stop.{drive_of};
ghost use Rattle.job_drives.specs.Kept.{HoldsFile};
ghost use Rattle.job_drives.specs.Left.{LeavesFile};
ghost use Rattle.job_drives.specs.Stop.{stopping};
ghost use Rattle.nbd_jobs.specs.Serving.{HoldsNoDrive, ReadsFile, ServesDriveAs, ServesKept, ServesStopping};
ghost use Rattle.nbd_jobs.specs.Serving.{ServesStoppingAs, TellsAnyway, TellsSession, session_end};

use crate::done::{SessionDone, SessionTold};
use crate::fault::NbdFault;
use crate::forgetting::{Forgotten, serve_store};
use crate::job::NbdJob;
use crate::mounted::mount_flushed;
use crate::told::shown_statistics;
use drive_counter::Counter;
use drive_journal::ChangeStore;
use drive_port::{Device, Honest};
use job_drives::{
    DiskSize, DriveFile, KeepFault, Left, Saved, keep_restarted, leave, restarted_drive, stopping,
};
use nbd_session::{Client, Medium, ServeOptions, ServedDisk, SessionFault, WriteThrough};
use std::alloc::Global;
use std::io::{Read, Write};
use zone_drive::Drive;

/// The file of a served drive: what it holds, the store of its changes, and what makes them durable.
#[derive(Drop)]
pub struct ServedFile<I: Read + Drop, S: ChangeStore<Drive> + Drop, M: Medium + Drop> {
    pub bytes: I,
    pub store: S,
    pub medium: M,
}

/// What is left of a device and its medium once its session has ended, and what is told of it.
#[derive(Drop)]
pub struct Ended<D: Device + Drop, M: Medium + Drop> {
    pub device: D,
    pub medium: M,
    pub told: SessionTold,
}

/// What is left of the file of a served drive, once its session has ended.
#[derive(Drop)]
pub struct AfterSession<S: ChangeStore<Drive> + Drop, M: Medium + Drop> {
    /// What is left of the drive, if the file held one.
    pub left: Option<Left>,
    pub store: S,
    pub medium: M,
    pub told: SessionTold,
}

/// How a session ended, as it is told.
fn session_end(ended: Result<(), SessionFault>) -> Result<(), NbdFault>
    ensures { result ≡ session_end ended }
{
    match ended {
        Ok(()) => Ok(()),
        Err(fault) => Err(NbdFault::Session(fault)),
    }
}

/// A device, what keeps its drive, and whether the drive is only read.
#[derive(Drop)]
pub struct Kept<D: Device + Drop, M: Medium + Drop> {
    pub device: D,
    pub medium: M,
    pub read_only: bool,
}

/// Mounts a drive behind any device, and serves it to a client. Its commands are counted.
fn serve_counted<D: Device + Drop, M: Medium + Drop, R: Client, W: Write>(
    alloc: Global,
    job: &NbdJob,
    kept: Kept<D, M>,
    reader: &mut R,
    writer: &mut W,
) -> Ended<D, M>
    ensures serves { ServesDriveAs while_clean kept.read_only job.now
        (streams (R.remaining reader.old) (R.remaining reader.new) (W.contents writer.old) (W.contents writer.new))
        (record {
          before = M.syncs kept.medium;
          after = M.syncs result.medium;
          flushes = M.flushes kept.medium;
        })
        (D.drive kept.device) result.told.result result.told.forgotten (D.drive result.device) }
    ensures tells { IsTrue (D.drive result.device).clean → TellsSession job.now (D.drive kept.device) result.told.result
        (is_some result.told.statistics) result.told.disk }
    // Whatever the Reads returned.
    ensures told { TellsAnyway job.now (D.drive kept.device).geometry result.told.result
        (is_some result.told.statistics) result.told.disk }
{
    let flushes = kept.medium.flushes();
    let disk = match mount_flushed(alloc, Counter::new(kept.device), job.blocks, flushes) {
        Ok(disk) => disk,
        Err((fault, counter)) => {
            return Ended {
                device: counter.into_inner(),
                medium: kept.medium,
                told: SessionTold::unserved(fault),
            };
        }
    };
    let size = DiskSize::of(&disk);
    let options = ServeOptions {
        read_only: kept.read_only,
        cleans: job.idle,
    };
    let store = ServedDisk::over(disk, kept.medium, options);
    let after = serve_store(alloc, job.fail, job.forget, store, reader, writer);
    let (disk, medium) = after.store.into_any_parts();
    let statistics = shown_statistics(alloc, job, &disk);
    Ended {
        device: disk.into_device().into_inner(),
        medium,
        told: SessionTold {
            result: session_end(after.result),
            statistics,
            disk: Some(size),
            forgotten: after.forgotten,
            failed: after.failed,
        },
    }
}

/// Mounts a drive behind any device, and serves it to a client, as [`serve_stopping`] does.
///
/// Whatever the device's Reads return, each message has a reply, or the session ends by a fault. As long as they
/// returned what it holds, the replies are those of `serve_stopping`: so are all before the first Read that lied.
pub fn serve_any_stopping<D: Device + Drop, M: Medium + Drop, R: Client, W: Write>(
    alloc: Global,
    job: &NbdJob,
    kept: Kept<D, M>,
    reader: &mut R,
    writer: &mut W,
) -> Ended<D, M>
    // Each message is answered, and each sync is one of the medium: while the drive is clean by the disk of the drive.
    ensures serves { ServesStoppingAs while_clean kept.read_only job.now
        (streams (R.remaining reader.old) (R.remaining reader.new) (W.contents writer.old) (W.contents writer.new))
        (record {
          before = M.syncs kept.medium;
          after = M.syncs result.medium;
          flushes = M.flushes kept.medium;
        })
        (stopping job.now.stop (D.drive kept.device)) result.told.result result.told.forgotten (D.drive result.device) }
    // While it is clean, the disk is told that was served.
    ensures tells { IsTrue (D.drive result.device).clean
        → TellsSession job.now (drive_of (stopping job.now.stop (D.drive kept.device))) result.told.result
        (is_some result.told.statistics) result.told.disk }
    // Whatever the Reads returned.
    ensures told { TellsAnyway job.now (D.drive kept.device).geometry result.told.result
        (is_some result.told.statistics) result.told.disk }
{
    let stopping = Kept {
        device: stopping(kept.device, job.stop),
        medium: kept.medium,
        read_only: kept.read_only,
    };
    let ended = serve_counted(alloc, job, stopping, reader, writer);
    Ended {
        device: ended.device.into_inner(),
        medium: ended.medium,
        told: ended.told,
    }
}

/// Mounts a drive, and serves it to a client. The drive stops when the job says so. Its commands are counted.
pub fn serve_stopping<D: Device + Honest + Drop, M: Medium + Drop, R: Client, W: Write>(
    alloc: Global,
    job: &NbdJob,
    kept: Kept<D, M>,
    reader: &mut R,
    writer: &mut W,
) -> Ended<D, M>
    ensures serves { ServesStopping kept.read_only job.now
        (streams (R.remaining reader.old) (R.remaining reader.new) (W.contents writer.old) (W.contents writer.new))
        (record {
          before = M.syncs kept.medium;
          after = M.syncs result.medium;
          flushes = M.flushes kept.medium;
        })
        (stopping job.now.stop (D.drive kept.device)) result.told.result result.told.forgotten (D.drive result.device) }
    ensures tells { TellsSession job.now (drive_of (stopping job.now.stop (D.drive kept.device))) result.told.result
        (is_some result.told.statistics) result.told.disk }
{
    let ended = serve_any_stopping(alloc, job, kept, reader, writer);
    ended.device.vouch();
    ended
}

/// Serves the drive of a file to one client, which sends to `reader` and gets what `writer` takes. The changes of the
/// drive go to the store, and each sync is one of the medium. What is left of the drive is handed back, also after a
/// fault, if the file holds one. The disk is written whatever `job.read_only` says.
pub fn serve_drive<
    I: Read + Drop,
    S: ChangeStore<Drive> + Drop,
    M: Medium + Drop,
    R: Client,
    W: Write,
>(
    alloc: Global,
    job: &NbdJob,
    file: ServedFile<I, S, M>,
    reader: &mut R,
    writer: &mut W,
) -> AfterSession<S, M>
    requires { HoldsFile (S.held file.store) (I.remaining file.bytes) }
    // What the client sent is answered by the disk of the drive in the file, and the store holds the drive that is
    // left. Each sync that the session completed is one of this medium.
    ensures left { IfSome result.left (λ left. LeavesFile
        (ServesKept job.now
        (streams (R.remaining reader.old) (R.remaining reader.new) (W.contents writer.old) (W.contents writer.new))
        (record {
          before = M.syncs file.medium;
          after = M.syncs result.medium;
          flushes = M.flushes file.medium;
        })
        result.told.result (is_some result.told.statistics) result.told.disk result.told.forgotten)
        (I.remaining file.bytes) job.now.habit left (S.held result.store) (S.failed result.store)) }
    // Without a drive nothing is read of the client, and nothing is written.
    ensures none { IfNone result.left (HoldsNoDrive (I.remaining file.bytes)
        (streams (R.remaining reader.old) (R.remaining reader.new) (W.contents writer.old) (W.contents writer.new))
        (record {
          before = M.syncs file.medium;
          after = M.syncs result.medium;
          flushes = M.flushes file.medium;
        })
        result.told.result result.told.forgotten) }
    ensures unused { IfNone result.left (S.held result.store ≡ S.held file.store) }
{
    let ServedFile {
        bytes,
        store,
        medium,
    } = file;
    let stored = match keep_restarted(alloc, DriveFile { bytes, store }, job.habit) {
        Ok(stored) => stored,
        Err((fault, store)) => {
            return AfterSession {
                left: None,
                store,
                medium,
                told: SessionTold::unserved(NbdFault::File(KeepFault::Image(fault))),
            };
        }
    };
    let kept = Kept {
        device: stored.device,
        medium,
        read_only: false,
    };
    let ended = serve_stopping(alloc, job, kept, reader, writer);
    let (left, store) = leave(ended.device, stored.was_image);
    AfterSession {
        left: Some(left),
        store,
        medium: ended.medium,
        told: ended.told,
    }
}

/// Serves the drive of a file read only, to one client: the file is read from `bytes`, and nothing is written but what
/// `writer` takes. A WRITE, a TRIM and a WRITE_ZEROES are refused, whatever `job.read_only` says, and no turn of
/// cleaning is taken.
pub fn serve_read_only<I: Read, R: Client, W: Write>(
    alloc: Global,
    job: &NbdJob,
    bytes: &mut I,
    reader: &mut R,
    writer: &mut W,
) -> SessionDone
    // What the client sent is answered by the disk of the drive in the file, which is read only.
    ensures reads { ReadsFile job.now (I.remaining bytes.old)
        (streams (R.remaining reader.old) (R.remaining reader.new) (W.contents writer.old) (W.contents writer.new))
        result.told.result result.told.forgotten }
    // There is no drive to save.
    ensures saved { result.saved ≡ Ok (record { is_restored = false }) }
{
    let begun = match restarted_drive(alloc, bytes, job.habit) {
        Ok(begun) => begun,
        Err(fault) => return SessionDone::unserved(NbdFault::File(KeepFault::Image(fault))),
    };
    let kept = Kept {
        device: begun.drive,
        medium: WriteThrough::new(),
        read_only: true,
    };
    let ended = serve_stopping(alloc, job, kept, reader, writer);
    SessionDone {
        told: ended.told,
        saved: Ok(Saved::IN_PLACE),
    }
}
