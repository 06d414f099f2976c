use crate::fault::NbdFault;
use crate::forgetting::Forgotten;
use crate::job::NbdJob;
use job_drives::NoDiskFault;
use nbd_session::SessionEnd;
use std::alloc::{AllocError, Global};

/// One line for people that says what a fault is, without a line feed.
pub fn explain(alloc: Global, job: &NbdJob, fault: NbdFault) -> Result<String, AllocError> {
    let path = job.image.as_str();
    match fault {
        NbdFault::File(fault) => fault.explain(alloc, path),
        NbdFault::Mount(NoDiskFault::Mount(fault)) => format!(in alloc; "{path}: {fault}"),
        NbdFault::Unflushed(_) => format!(in alloc; "{path}: {fault}"),
        fault => format!(in alloc; "{fault}"),
    }
}

/// How a session over a disk that forgets ended.
fn ended_text(alloc: Global, job: &NbdJob, forgotten: &Forgotten) -> Result<String, AllocError> {
    let cut_after = job.forget.and_then(|forget| forget.cut_after);
    match (forgotten.ended, cut_after) {
        (Ok(SessionEnd::Disconnected), _) => String::from_str(alloc, "disconnected"),
        (Ok(SessionEnd::LimitReached), Some(requests)) => {
            format!(in alloc; "power cut after {requests} requests")
        }
        (Err(_), _) => String::from_str(alloc, "power cut at a fault of the session"),
        _ => String::from_str(alloc, "power cut at the end of the input"),
    }
}

/// One line for people that says what became of the blocks that were pending, without a line feed.
pub fn forgotten_note(
    alloc: Global,
    job: &NbdJob,
    forgotten: &Forgotten,
) -> Result<String, AllocError> {
    let ended = ended_text(alloc, job, forgotten)?;
    let pending = forgotten.pending;
    match forgotten.lost {
        Ok(_) if forgotten.ended == Ok(SessionEnd::Disconnected) => {
            format!(in alloc; "{ended}: {pending} pending blocks applied")
        }
        Ok(lost) => format!(in alloc; "{ended}: {lost} of {pending} pending blocks lost"),
        Err(fault) => {
            format!(in alloc; "{ended}: some of {pending} pending blocks may be lost: {fault}")
        }
    }
}

/// One line for people that says how many requests failed by chance, without a line feed.
pub fn failed_note(alloc: Global, failed: u64) -> Result<String, AllocError> {
    format!(in alloc; "{failed} requests failed by chance")
}
