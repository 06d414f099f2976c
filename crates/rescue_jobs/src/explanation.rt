use crate::fault::RescueJobFault;
use crate::job::RescueJob;
use drive_rescue::RescueFault;
use std::alloc::{AllocError, Global};

/// The text of an option, or none.
fn path_of(path: &Option<String>) -> &str {
    match path {
        Some(path) => path.as_str(),
        None => "",
    }
}

/// One line for people that says what a fault is, without a line feed.
pub fn explain(
    alloc: Global,
    job: &RescueJob,
    fault: RescueJobFault,
) -> Result<String, AllocError> {
    let image = job.image.as_str();
    let new = path_of(&job.to);
    match fault {
        RescueJobFault::Rescue(RescueFault::Output) => {
            String::from_str(alloc, "standard output failed")
        }
        RescueJobFault::Mount(fault) => format!(in alloc; "{new}: {fault}"),
        RescueJobFault::Disk(_) | RescueJobFault::NewImage(_) => format!(in alloc;
            "{new}: {fault}"
        ),
        RescueJobFault::Lists(fault) => {
            let lists = path_of(&job.json);
            format!(in alloc; "{lists}: {fault}")
        }
        fault => format!(in alloc; "{image}: {fault}"),
    }
}
