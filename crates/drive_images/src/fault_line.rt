ghost use Rattle.std.specs.Prelude.{◌≡◌, IfOk};
ghost use Rattle.drive_images.specs.FaultText.{image_fault_text, fault_name, fault_number};

use crate::fault::ImageFault;
use std::alloc::{AllocError, Global};
use std::io::Write;

/// The number of a fault in the list of them, and its name.
fn refusal(fault: ImageFault) -> (u8, &'static str)
    ensures number { result.0 ≡ fault_number fault }
    ensures name { result.1.now ≡ fault_name fault }
{
    match fault {
        ImageFault::Magic => (1, "Magic"),
        ImageFault::Geometry => (2, "Geometry"),
        ImageFault::State => (3, "State"),
        ImageFault::Written => (4, "Written"),
        ImageFault::RestNotZero => (5, "RestNotZero"),
        ImageFault::Limits => (6, "Limits"),
        ImageFault::Short => (7, "Short"),
        ImageFault::Long => (8, "Long"),
        ImageFault::Input => (9, "Input"),
        ImageFault::OutOfMemory => (10, "OutOfMemory"),
    }
}

/// The line by which a program tells the fault.
pub fn image_fault_line(alloc: Global, fault: ImageFault) -> Result<Vec<u8>, AllocError>
    ensures { IfOk result (λ line. line.items ≡ image_fault_text fault) }
{
    let (number, name) = refusal(fault);
    let mut line = Vec::new(alloc);
    writeln!(line, "fault image {number} {name}").map_err(|_| AllocError)?;
    Ok(line)
}
