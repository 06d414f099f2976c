// What people are told of a job on a device that ended by a fault: one line without a line feed.

use crate::job::DeviceRun;
use crate::raw::SendFault;
use disk_jobs::{AskedLines, JobInput, Mounting, ProgramFault, explain_lines, place};
use job_drives::Stop;
use std::alloc::{AllocError, Global};
use std::io::Read;

/// What is told of a trace that ended by a fault. `input` has the line that was read last, and no more lines
/// afterwards.
pub fn explain_run<R: Read + Drop>(
    alloc: Global,
    job: &DeviceRun,
    fault: ProgramFault,
    input: &mut JobInput<'_, R>,
    mounting: Mounting,
) -> Result<String, AllocError> {
    let asked = AskedLines {
        are_raw: false,
        stop: (job.stop != Stop::NEVER).then_some(job.stop.commands),
    };
    explain_lines(alloc, &job.device, asked, fault, input, mounting)
}

/// What is told of raw lines that ended by a fault.
pub fn explain_sent<R: Read + Drop>(
    alloc: Global,
    path: &str,
    fault: SendFault,
    input: &mut JobInput<'_, R>,
) -> Result<String, AllocError> {
    match fault {
        SendFault::Run(fault) => {
            let asked = AskedLines {
                are_raw: true,
                stop: None,
            };
            let fault = ProgramFault::Run(fault);
            explain_lines(alloc, path, asked, fault, input, Mounting::NONE)
        }
        SendFault::Raw(fault) => format!(in alloc; "{}: {fault}", place(alloc, input)?),
    }
}
