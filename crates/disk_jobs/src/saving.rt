ghost use Rattle.std.specs.Prelude.{◌≡◌};
ghost use Rattle.disk_jobs.specs.Asked.{file_access, sent_after};
ghost use Rattle.disk_jobs.specs.Saved.{left_to_save};

use crate::job::Job;
use crate::lines::Answered;
use job_drives::{Left, SentAfter};

/// How the file of a drive is opened.
#[derive(Clone, Copy, Debug, PartialEq, Eq)]
pub(crate) enum Access {
    /// To read the drive. Other programs may read it at the same time.
    ToRead,
    /// To save a drive there. Until then no other program reads or changes the file.
    ToSave,
}

/// How the file of a job is opened.
pub(crate) fn file_access(job: &Job) -> Access
    ensures { result ≡ file_access job.now }
{
    match job {
        Job::Report { .. } => Access::ToRead,
        _ if job.reads_only() => Access::ToRead,
        _ => Access::ToSave,
    }
}

/// What has to be done with the changes of a job before a reply is sent.
pub(crate) fn sent_after(job: &Job) -> SentAfter
    ensures { result ≡ sent_after job.now }
{
    if job.sync() {
        SentAfter::Sync
    } else {
        SentAfter::Write
    }
}

/// What a job hands over to be saved in its file, also after a fault: the drive as its lines left
/// it. A job that only reads hands over nothing.
pub(crate) fn left_to_save(job: &Job, answered: Option<Answered>) -> Option<Left>
    ensures { result ≡ left_to_save job.now answered }
{
    let answered = answered?;
    if job.reads_only() {
        return None;
    }
    Some(answered.left)
}
