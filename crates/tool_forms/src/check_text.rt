use crate::check_faults::{FoundFault, found_faults};
use drive_inspection::Findings;
use drive_survey::MountFault;
use std::alloc::{AllocError, Global};

/// Adds the line of the fault by which a mount is refused. Of a torn zone it says that it is not repaired.
fn write_refusal(
    text: &mut String,
    refusal: MountFault,
    faults: &[FoundFault],
) -> Result<(), AllocError> {
    if let MountFault::TornZone(_) = refusal {
        return writeln!(text, "refused: {refusal}");
    }
    for fault in faults {
        if fault.refuses {
            writeln!(text, "refused: {}", fault.text)?;
        }
    }
    Ok(())
}

/// Adds how many zones could be read, if not all could.
fn write_readable(text: &mut String, findings: &Findings) -> Result<(), AllocError> {
    if findings.unusable.is_empty() && findings.unread.is_empty() {
        return Ok(());
    }
    let count = findings.readable;
    writeln!(
        text,
        "zones that were read without a fault: {count}; zonedisk rescue gives what can be read"
    )
}

/// The findings as lines. The first says why a mount is refused, or that the drive can be mounted, and each of the
/// others says one more fault. If not all zones could be read, the last one says how many were.
pub fn findings_text(alloc: Global, findings: &Findings) -> Result<String, AllocError> {
    let Some(refusal) = findings.refusal else {
        return String::from_str(alloc, "the drive can be mounted\n");
    };
    let faults = found_faults(alloc, findings)?;
    let mut text = String::new(alloc);
    write_refusal(&mut text, refusal, &faults)?;
    for fault in &faults {
        if !fault.refuses {
            writeln!(text, "{}", fault.text)?;
        }
    }
    write_readable(&mut text, findings)?;
    Ok(text)
}
