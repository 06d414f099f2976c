use crate::fault::RepairJobFault;
use crate::job::RepairJob;
use std::alloc::{AllocError, Global};
use tail_repair::RepairFault;

/// What else people should know of a fault.
fn note(fault: RepairFault) -> &'static str {
    match fault {
        RepairFault::Behind(_, _) =>
            ": a repair would lose that batch, and zonedisk rescue reads it",
        RepairFault::Unsound(_) | RepairFault::Unusable(_) =>
            ": zonedisk rescue reads what can be read",
        RepairFault::NoEmptyZone => ": the batches of a zone have no place to go to",
        RepairFault::Halted(_) | RepairFault::Unfinished =>
            ": the same repair goes on where this one ended",
        RepairFault::Limits => "",
    }
}

/// One line for people that says what a fault is, without a line feed.
pub fn explain(
    alloc: Global,
    job: &RepairJob,
    fault: RepairJobFault,
) -> Result<String, AllocError> {
    let image = job.image.as_str();
    match fault {
        RepairJobFault::File(fault) => fault.explain(alloc, image),
        RepairJobFault::Repair(fault) => {
            let note = note(fault);
            format!(in alloc; "{image}: {fault}{note}")
        }
        RepairJobFault::Output => String::from_str(alloc, "standard output failed"),
    }
}
