use crate::job::ToolJob;
use std::alloc::{AllocError, Global};
use write_plan::{drive_for, memory_advice};

/// What people are told beside what a tool tells: that the drive which was planned for a number of bytes needs much
/// memory.
pub fn tool_note(alloc: Global, job: &ToolJob) -> Result<Option<String>, AllocError> {
    let ToolJob::Format { bytes } = job else {
        return Ok(None);
    };
    match drive_for(*bytes) {
        Some(geometry) => memory_advice(alloc, &geometry),
        None => Ok(None),
    }
}
