// The drive behind a device, served to one client.

ghost use Rattle.std.specs.Prelude.{◌≡◌, IsTrue, is_some};
ghost use Rattle.drive_port.specs.Stop.{drive_of};
ghost use Rattle.nbd_session.specs.Manners.{while_clean};
ghost use Rattle.nbd_session.specs.Streams.{streams};
ghost use Rattle.job_drives.specs.Stop.{stopping};
ghost use Rattle.nbd_jobs.specs.Serving.{ServesStoppingAs, TellsAnyway, TellsSession, sent_end};
ghost use Rattle.device_jobs.specs.Durable.{ServesAndHardens};

use crate::hardening::{HardenFault, harden_by};
use drive_port::Device;
use job_drives::KeepFault;
use nbd_jobs::{
    Ended, Kept, NbdFault, NbdJob, REPLIES, REQUESTS, SessionTold, are_sent, sent_end,
    serve_any_stopping,
};
use nbd_session::{Client, Medium};
use std::alloc::Global;
use std::io::{BufReader, BufWriter, Read, Write};

/// How a session over the drive behind a device ended.
#[derive(Debug, PartialEq, Eq, Drop)]
pub struct Served {
    /// Of the session, with all replies that it sent.
    pub told: SessionTold,
    /// Whether the drive had stopped by itself: it failed, or answered what does not fit.
    pub stopped: bool,
    /// Whether what the drive completed was made durable at the end.
    pub hardened: Result<(), HardenFault>,
}

/// Mounts the drive behind a device, and serves it to a client, read only if the job says so. Each sync is one of the
/// medium.
pub fn serve_device<D: Device + Drop, M: Medium + Drop, R: Client, W: Write>(
    alloc: Global,
    job: &NbdJob,
    device: D,
    medium: M,
    reader: &mut R,
    writer: &mut W,
) -> Ended<D, M>
    // Each message is answered, and each sync is one of the medium: while the drive is clean by the disk of the drive.
    ensures serves { ServesStoppingAs while_clean job.now.read_only job.now
        (streams (R.remaining reader.old) (R.remaining reader.new) (W.contents writer.old) (W.contents writer.new))
        (record {
          before = M.syncs medium;
          after = M.syncs result.medium;
          flushes = M.flushes medium;
        })
        (stopping job.now.stop (D.drive device)) result.told.result result.told.forgotten (D.drive result.device) }
    // While it is clean, the disk is told that was served.
    ensures tells { IsTrue (D.drive result.device).clean
        → TellsSession job.now (drive_of (stopping job.now.stop (D.drive device))) result.told.result
        (is_some result.told.statistics) result.told.disk }
    // Whatever the Reads returned.
    ensures told { TellsAnyway job.now (D.drive device).geometry result.told.result
        (is_some result.told.statistics) result.told.disk }
{
    let kept = Kept {
        device,
        medium,
        read_only: job.read_only,
    };
    serve_any_stopping(alloc, job, kept, reader, writer)
}

/// A session over the drive behind a device, and whether what the drive completed was made durable after it.
#[derive(Drop)]
pub struct Hardened<D: Device + Drop, M: Medium + Drop> {
    pub ended: Ended<D, M>,
    pub hardened: Result<(), HardenFault>,
}

/// The same, and makes durable at the end what the drive has completed, also after a fault.
pub fn serve_hardened<D: Device + Drop, M: Medium + Drop, R: Client, W: Write>(
    alloc: Global,
    job: &NbdJob,
    device: D,
    medium: M,
    reader: &mut R,
    writer: &mut W,
) -> Hardened<D, M>
    ensures serves { ServesAndHardens job.now
        (streams (R.remaining reader.old) (R.remaining reader.new) (W.contents writer.old) (W.contents writer.new))
        (record {
          before = M.syncs medium;
          after = M.syncs result.ended.medium;
          flushes = M.flushes medium;
        })
        (D.drive device) result.ended.told.result result.ended.told.forgotten result.hardened
        (D.drive result.ended.device) }
    ensures tells { IsTrue (D.drive result.ended.device).clean
        → TellsSession job.now (drive_of (stopping job.now.stop (D.drive device)))
        result.ended.told.result (is_some result.ended.told.statistics) result.ended.told.disk }
    ensures told { TellsAnyway job.now (D.drive device).geometry result.ended.told.result
        (is_some result.ended.told.statistics) result.ended.told.disk }
{
    let flushes = medium.flushes();
    let mut ended = serve_device(alloc, job, device, medium, reader, writer);
    let hardened = harden_by(alloc, flushes, &mut ended.device, &mut ended.medium);
    Hardened { ended, hardened }
}

/// What is told of a session once its last replies were sent, if they could be.
fn told_after<D: Device + Drop, M: Medium + Drop>(done: Hardened<D, M>, sent: bool) -> Served
    ensures result { result.told.result ≡ sent_end done.ended.told.result sent }
    ensures stopped { result.stopped ≡ (D.drive done.ended.device).stopped }
    ensures hardened { result.hardened ≡ done.hardened }
{
    let Hardened { ended, hardened } = done;
    let stopped = ended.device.stopped();
    let told = SessionTold {
        result: sent_end(ended.told.result, sent),
        ..ended.told
    };
    Served {
        told,
        stopped,
        hardened,
    }
}

/// The same for a client that sends to `input` and gets what `output` takes, both through buffers.
pub fn serve_client<D: Device + Drop, M: Medium + Drop, R: Read + Drop, W: Write>(
    alloc: Global,
    job: &NbdJob,
    device: D,
    medium: M,
    input: R,
    output: &mut W,
) -> Served {
    let (Ok(mut reader), Ok(mut writer)) = (
        BufReader::with_capacity(alloc, REQUESTS, input),
        BufWriter::with_capacity(alloc, REPLIES, output),
    ) else {
        return Served {
            told: SessionTold::unserved(NbdFault::File(KeepFault::Memory)),
            stopped: false,
            hardened: Ok(()),
        };
    };
    let done = serve_hardened(alloc, job, device, medium, &mut reader, &mut writer);
    told_after(done, are_sent(writer.flush()))
}
