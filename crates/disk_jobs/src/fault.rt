ghost use Rattle.std.specs.Prelude.{◌≡◌, IfErr, IfOk, OnOk};
ghost use Rattle.std.specs.Io.KnownBytes.{Appends};
ghost use Rattle.disk_runs.specs.declared.fault.RunFault.TheVariants.{Memory, Output};
ghost use Rattle.disk_jobs.specs.FaultLine.{IsUnwritten, program_text, read_fault_text};
ghost use Rattle.disk_jobs.specs.declared.fault.ProgramFault.TheVariants as program;

use crate::holding::FileHolding;
use disk_files::{WriteFault, write_out};
use disk_runs::{RunFault, write_fault};
use drive_images::{ImageFault, image_fault_line};
use drive_journal::ReadFault;
use job_drives::FileFault;
use std::alloc::{AllocError, Global};
use std::io::Write;
use thiserror::Error;
use zone_translator::MountFault;

/// Why the program ends with status 1. As text it is the name of its variant, and that of a run is the name of its
/// fault; `write_program_fault` writes the line that the program shows, and `explain` says it to people.
#[derive(Clone, Copy, Debug, PartialEq, Eq, Error)]
pub enum ProgramFault {
    /// The run of the lines ended, or there is no drive to run them on.
    #[error("{0}")]
    Run(RunFault),
    /// The drive has not room for that many logical blocks, but for `most` of them.
    #[error("Reserve")]
    Reserve { most: u64 },
    /// The file holds no drive: its image or a change after it has a fault.
    #[error("Image")]
    Image(ReadFault),
    /// The file of the image is not used, or the drive is not saved in it.
    #[error("File")]
    File(FileFault),
    /// The file holds what a format would destroy, and that was not forced.
    #[error("Holds")]
    Holds(FileHolding),
}

impl From<RunFault> for ProgramFault {
    ghost from_gives = { λ fault told. told ≡ program.Run fault };

    fn from(fault: RunFault) -> ProgramFault {
        ProgramFault::Run(fault)
    }
}

impl From<ReadFault> for ProgramFault {
    ghost from_gives = { λ fault told. told ≡ program.Image fault };

    fn from(fault: ReadFault) -> ProgramFault {
        ProgramFault::Image(fault)
    }
}

impl From<AllocError> for ProgramFault {
    ghost from_gives = { λ _ told. told ≡ program.Run Memory };

    fn from(_error: AllocError) -> ProgramFault {
        ProgramFault::Run(RunFault::Memory)
    }
}

impl From<WriteFault> for ProgramFault {
    ghost from_gives = { λ _ told. told ≡ program.Run Output };

    fn from(_fault: WriteFault) -> ProgramFault {
        ProgramFault::Run(RunFault::Output)
    }
}

const RESERVE: RunFault = RunFault::Mount(MountFault::Reserve);

/// The line of the fault of a file that holds no drive.
fn read_fault_line(alloc: Global, fault: ReadFault) -> Result<Vec<u8>, AllocError>
    ensures { IfOk result (λ line. line.items ≡ read_fault_text fault) }
{
    match fault {
        ReadFault::Image(fault) => image_fault_line(alloc, fault),
        ReadFault::Long(_) => image_fault_line(alloc, ImageFault::Long),
        ReadFault::Earlier(_) => Vec::from_slice(alloc, b"fault file\n"),
        ReadFault::Damaged(_) => Vec::from_slice(alloc, b"fault file\n"),
        ReadFault::Zones => Vec::from_slice(alloc, b"fault file\n"),
    }
}

/// Writes the line of a fault. It is refused by `Output` where the writer fails, with a beginning of the line written,
/// and by `Memory` with nothing written.
pub fn write_program_fault<W: Write>(
    alloc: Global,
    fault: ProgramFault,
    output: &mut W,
) -> Result<(), ProgramFault>
    ensures ok { OnOk result (Appends (W.contents output.old) (W.contents output.new) (program_text fault)) }
    ensures err { IfErr result (λ cause. IsUnwritten (program_text fault) cause
        (W.contents output.old) (W.contents output.new)) }
{
    match fault {
        ProgramFault::Run(fault) => write_fault(alloc, fault, output)?,
        ProgramFault::Reserve { .. } => write_fault(alloc, RESERVE, output)?,
        ProgramFault::Image(fault) => write_out(output, &read_fault_line(alloc, fault)?)?,
        ProgramFault::File(_) => write_out(output, b"fault file\n")?,
        ProgramFault::Holds(_) => write_out(output, b"fault file\n")?,
    }
    Ok(())
}
