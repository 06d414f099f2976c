// The file of a served drive: it is opened and locked, and saved at the end if the drive is not only read.

use crate::done::{SessionDone, SessionTold};
use crate::fault::NbdFault;
use crate::job::NbdJob;
use crate::saving::{sent_end, told_in_session};
use crate::serving::{ServedFile, serve_drive, serve_read_only};
use job_drives::{
    ChangesFile, ChangesOutput, Finished, KeepFault, Left, Saved, Saving, SentAfter, finish,
    first_told, image_to_read, image_to_save,
};
use nbd_session::{Medium, MediumFault, SyncCount};
use std::alloc::Global;
use std::fs::File;
use std::io;
use std::io::{BufReader, BufWriter, ErrorKind, Read, Write};
use std::rt::Files;

/// How many bytes of requests are read at a time: 64 WRITEs of 4 KiB with their heads, as many requests as are done
/// together.
pub const REQUESTS: usize = 263_936;

/// How many bytes of replies are sent at a time. A reply that is longer is not copied.
pub const REPLIES: usize = 65_536;

/// What makes the changes of a drive durable: its file.
#[derive(Drop)]
struct FileMedium<'s, 'a, F: Files<File = File>> {
    file: &'s ChangesFile<'a, F>,
    /// How often the file was synced. The files of std say nothing of what a sync does.
    syncs: SyncCount,
}

impl<F: Files<File = File>> Medium for FileMedium<'_, '_, F> {
    ghost use Rattle.std.specs.Prelude.{false};

    ghost syncs = { λ m. m.syncs };

    ghost flushes = { λ m. false };

    fn flushes(&self) -> bool {
        false
    }

    fn sync(&mut self) -> Result<(), MediumFault> {
        self.file.sync().or(Err(MediumFault))?;
        self.syncs.add_one()
    }
}

/// Whether the last replies were sent, as far as somebody waits for them: a client may end its session and go at once.
pub fn are_sent(flushed: io::Result<()>) -> bool {
    match flushed {
        Ok(()) => true,
        Err(error) => matches!(
            error.kind(),
            ErrorKind::BrokenPipe | ErrorKind::ConnectionReset
        ),
    }
}

/// Serves the drive of an open file, whose bytes are read from `bytes`. Its changes are in the file before a reply is
/// sent, and on the disk before a FLUSH is answered. What is left of the drive is not saved yet.
fn serve_file<F: Files<File = File>, R: Read + Drop, W: Write>(
    alloc: Global,
    job: &NbdJob,
    (file, bytes): (&ChangesFile<'_, F>, BufReader<File>),
    input: R,
    output: &mut W,
) -> (Option<Left>, SessionDone) {
    let served = ServedFile {
        bytes,
        store: file.store(),
        medium: FileMedium {
            file,
            syncs: SyncCount::new(),
        },
    };
    let sent = ChangesOutput::new(file, SentAfter::Write, output);
    let (Ok(mut reader), Ok(mut writer)) = (
        BufReader::with_capacity(alloc, REQUESTS, input),
        BufWriter::with_capacity(alloc, REPLIES, sent),
    ) else {
        return (
            None,
            SessionDone::unserved(NbdFault::File(KeepFault::Memory)),
        );
    };
    let after = serve_drive(alloc, job, served, &mut reader, &mut writer);
    let sent = are_sent(writer.flush());
    let told = SessionTold {
        result: sent_end(after.told.result, sent),
        ..after.told
    };
    let saved = Ok(Saved::IN_PLACE);
    (after.left, SessionDone { told, saved })
}

/// Serves the drive in a file, and saves it once the session has ended, also after a fault. No other program can read
/// or change the file until then.
fn serve_and_save<F: Files<File = File>, R: Read + Drop, W: Write>(
    files: &F,
    alloc: Global,
    job: &NbdJob,
    input: R,
    output: &mut W,
) -> SessionDone {
    let saving = Saving { files, alloc };
    let (image, bytes) = match image_to_save(files, alloc, &job.image) {
        Ok(opened) => opened,
        Err(fault) => return SessionDone::unserved(NbdFault::from(fault)),
    };
    let file = ChangesFile::new(&saving, image);
    let (left, done) = serve_file(alloc, job, (&file, bytes), input, output);
    let Finished { fault, saved } = finish(file, left);
    let told = SessionTold {
        result: first_told(done.told.result, fault.map(told_in_session)),
        ..done.told
    };
    SessionDone {
        told,
        saved: saved.map_err(NbdFault::from),
    }
}

/// Serves the drive in a file read only. Other programs can read the file too, and none can change it until the
/// session has ended.
fn serve_unchanged<F: Files<File = File>, R: Read + Drop, W: Write>(
    files: &F,
    alloc: Global,
    job: &NbdJob,
    input: R,
    output: &mut W,
) -> SessionDone {
    let (_image, mut bytes) = match image_to_read(files, alloc, &job.image) {
        Ok(opened) => opened,
        Err(fault) => return SessionDone::unserved(NbdFault::from(fault)),
    };
    let (Ok(mut reader), Ok(mut writer)) = (
        BufReader::with_capacity(alloc, REQUESTS, input),
        BufWriter::with_capacity(alloc, REPLIES, output),
    ) else {
        return SessionDone::unserved(NbdFault::File(KeepFault::Memory));
    };
    let done = serve_read_only(alloc, job, &mut bytes, &mut reader, &mut writer);
    let sent = are_sent(writer.flush());
    let told = SessionTold {
        result: sent_end(done.told.result, sent),
        ..done.told
    };
    SessionDone {
        told,
        saved: done.saved,
    }
}

/// Serves the drive in a file to the client that sends to `input` and gets what `output` takes. The file is locked
/// until the session has ended. Then the drive is saved, also after a fault, unless the job says that it is only read.
pub fn do_nbd_job<F: Files<File = File>, R: Read + Drop, W: Write>(
    files: &F,
    alloc: Global,
    job: &NbdJob,
    input: R,
    output: &mut W,
) -> SessionDone {
    if job.read_only {
        return serve_unchanged(files, alloc, job, input, output);
    }
    serve_and_save(files, alloc, job, input, output)
}
