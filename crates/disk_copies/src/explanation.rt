use crate::copy_fault::CopyFault;
use crate::job::CopyJob;
use crate::stream_fault::{ExportFault, ImportFault};
use job_drives::NoDiskFault;
use std::alloc::{AllocError, Global};

/// One line for people that says what a fault is, without a line feed.
pub fn explain(alloc: Global, job: &CopyJob, fault: CopyFault) -> Result<String, AllocError> {
    let path = job.image();
    match (job, fault) {
        (CopyJob::Export(_), CopyFault::Mount(NoDiskFault::Unwritten { .. })) => {
            format!(in alloc;
                "{path}: nothing was written to the drive, so it has no logical blocks"
            )
        }
        (CopyJob::Export(_), CopyFault::Mount(NoDiskFault::NoSize { most })) => {
            format!(in alloc;
                "{path}: the drive was written, but its headers say no size: a write by `run --blocks N`, \
                N from 1 to {most}, makes them say it"
            )
        }
        (_, CopyFault::Export(ExportFault::PastEnd(1))) => {
            String::from_str(
                alloc,
                "the disk has 1 block, and the export goes past its end",
            )
        }
        (_, CopyFault::File(fault)) => fault.explain(alloc, path),
        (_, CopyFault::Mount(fault)) => format!(in alloc; "{path}: {fault}"),
        (_, fault) => format!(in alloc; "{fault}"),
    }
}

/// One line for people that says how many blocks an import wrote, without a line feed. None if no disk was mounted,
/// or if it is not known how many a file has.
pub fn written_text(
    alloc: Global,
    path: &str,
    written: u64,
    taken: Result<u64, CopyFault>,
) -> Result<Option<String>, AllocError> {
    let more = match taken {
        Ok(_) => "",
        Err(CopyFault::Import(ImportFault::Disk(_))) => ", and perhaps some more",
        Err(CopyFault::Import(_)) => "",
        Err(_) => return Ok(None),
    };
    let text = match written {
        1 => format!(in alloc; "{path}: 1 block was written{more}")?,
        _ => format!(in alloc; "{path}: {written} blocks were written{more}")?,
    };
    Ok(Some(text))
}
