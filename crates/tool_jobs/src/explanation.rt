use crate::fault::ToolFault;
use crate::job::{PlanJob, ToolJob};
use std::alloc::{AllocError, Global};
use write_plan::{Aim, PlanFault};

/// One line for people that says what a fault is, without a line feed.
pub fn explain(alloc: Global, job: &ToolJob, fault: ToolFault) -> Result<String, AllocError> {
    let path = job.image().unwrap_or("the file");
    match (job, fault) {
        (
            ToolJob::Plan(
                PlanJob {
                    aim: Aim::Share(share),
                    ..
                },
            ),
            ToolFault::Plan(fault @ PlanFault::Share),
        ) => format!(in alloc; "--share {share}: {fault}"),
        (_, ToolFault::File(fault)) => fault.explain(alloc, path),
        (_, fault) => format!(in alloc; "{fault}"),
    }
}
