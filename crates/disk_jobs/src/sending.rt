// A job whose replies wait for what it asks for.

ghost use Rattle.std.specs.Prelude.{◌≡◌};
ghost use Rattle.job_drives.specs.Kept.{HoldsFile};
ghost use Rattle.disk_jobs.specs.Asked.{sent_after};

use crate::fault::ProgramFault;
use crate::job::Job;
use crate::lines::Answered;
use crate::program::run_job;
use disk_files::LineReader;
use disk_runs::RunFault;
use drive_journal::ChangeStore;
use job_drives::{ChangesOutput, DriveFile};
use std::alloc::Global;
use std::fs::File;
use std::io::{BufWriter, Read, Write};
use std::rt::Files;
use zone_drive::Drive;

/// What the lines of a job left, and how they ended.
pub(crate) type Ran = (Option<Answered>, Result<(), ProgramFault>);

/// An output whose bytes wait for the changes before them.
pub(crate) trait Waiting: Write {
    ghost use Rattle.job_drives.specs.declared.changes_output.SentAfter.{SentAfter};

    /// What they wait for.
    ghost after: { Self → SentAfter };
}

impl<F: Files<File = File>, W: Write> Waiting for ChangesOutput<'_, '_, F, W> {
    ghost after = { λ o. o };
}

/// Sends what was written.
pub(crate) fn send<W: Write>(output: &mut W) -> Result<(), ProgramFault> {
    output.flush().or(Err(ProgramFault::Run(RunFault::Output)))
}

/// Does a job over a file, and sends what it wrote to an output that waits for what the job asks for.
pub(crate) fn run_sending<
    I: Read + Drop,
    S: ChangeStore<Drive> + Drop,
    R: Read + Drop,
    O: Waiting + Drop,
>(alloc: Global, job: &Job, file: DriveFile<I, S>, input: &mut LineReader<R>, output: O) -> Ran
    requires holds { HoldsFile (S.held file.store) (I.remaining file.bytes) }
    requires waits { O.after output ≡ sent_after job.now }
{
    let Ok(mut output) = BufWriter::new(alloc, output) else {
        return (None, Err(ProgramFault::Run(RunFault::Memory)));
    };
    let (answered, _, ran) = run_job(alloc, job, file, input, &mut output);
    (answered, ran.and(send(&mut output)))
}
