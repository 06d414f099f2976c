// The file of a tool: it is opened and locked, and read.

use crate::answering::answer_tool;
use crate::fault::ToolFault;
use crate::job::ToolJob;
use job_drives::{KeepFault, image_to_read};
use std::alloc::Global;
use std::fs::File;
use std::io;
use std::io::Write;
use std::rt::Files;

/// Does a job over the file of this path. Other programs can read it too, and none can change it until the job is done.
fn answer_file<F: Files<File = File>, W: Write>(
    files: &F,
    alloc: Global,
    job: &ToolJob,
    path: &str,
    output: &mut W,
) -> Result<bool, ToolFault> {
    let (_image, mut bytes) = match image_to_read(files, alloc, path) {
        Ok(opened) => opened,
        Err(fault) => return Err(ToolFault::File(KeepFault::from(fault))),
    };
    answer_tool(alloc, job, &mut bytes, output)
}

/// Does the job of a tool, and sends what it wrote. `Ok(false)` is a check of a drive that cannot be mounted. No file
/// is changed.
pub fn do_tool_job<F: Files<File = File>, W: Write>(
    files: &F,
    alloc: Global,
    job: &ToolJob,
    output: &mut W,
) -> Result<bool, ToolFault> {
    let done = match job.image() {
        Some(path) => answer_file(files, alloc, job, path, output)?,
        None => answer_tool(alloc, job, &mut io::empty(), output)?,
    };
    match output.flush() {
        Ok(()) => Ok(done),
        Err(_) => Err(ToolFault::Output),
    }
}
