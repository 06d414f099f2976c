ghost use Rattle.std.specs.Prelude.{◌≡◌, ◌++◌, IfErr, OnOk, codes};
ghost use Rattle.std.specs.Io.KnownBytes.{Appends};
ghost use Rattle.disk_runs.specs.FaultText.{NotWritten, block_text, cause_text, disk_refusal, run_fault_text};
ghost use Rattle.disk_runs.specs.FaultText.{geometry_refusal, line_text, log_refusal, mount_refusal, mount_text};
ghost use Rattle.disk_runs.specs.FaultText.{numbered, refusal_text, zone_text};

use crate::fault::RunFault;
use batch_log::LogFault;
use disk_files::write_out;
use std::alloc::{AllocError, Global};
use std::io::Write;
use zone_states::GeometryFault;
use zone_translator::{DiskFault, MountFault};

/// The number and the name of a disk's refusal.
fn disk_refusal(fault: DiskFault) -> (u8, &'static str)
    ensures number { result.0 ≡ (disk_refusal fault).number }
    ensures name { result.1.now ≡ (disk_refusal fault).name }
{
    match fault {
        DiskFault::OutOfRange => (1, "OutOfRange"),
        DiskFault::OutOfMemory => (2, "OutOfMemory"),
        DiskFault::Stopped => (3, "Stopped"),
        DiskFault::Spent => (4, "Spent"),
        DiskFault::Unmounted => (5, "Unmounted"),
        DiskFault::Smaller => (7, "Smaller"),
        DiskFault::Reserve => (8, "Reserve"),
        DiskFault::Damaged => (9, "Damaged"),
        DiskFault::Failed => (10, "Failed"),
    }
}

/// The number and the name of a mount's refusal.
fn mount_refusal(fault: MountFault) -> (u8, &'static str)
    ensures number { result.0 ≡ (mount_refusal fault).number }
    ensures name { result.1.now ≡ (mount_refusal fault).name }
{
    match fault {
        MountFault::Reserve => (1, "Reserve"),
        MountFault::Limits => (2, "Limits"),
        MountFault::ZoneUnusable(_) => (3, "ZoneUnusable"),
        MountFault::Log(_, _, _) => (4, "Log"),
        MountFault::SequenceRepeated => (5, "SequenceRepeated"),
        MountFault::BlockOutOfRange => (6, "BlockOutOfRange"),
        MountFault::TooManyPartial => (7, "TooManyPartial"),
        MountFault::NoSpare => (8, "NoSpare"),
        MountFault::Spent => (9, "Spent"),
        MountFault::Halted => (10, "Halted"),
        MountFault::OutOfMemory => (11, "OutOfMemory"),
        MountFault::TornZone(_) => (13, "TornZone"),
        MountFault::Damaged => (14, "Damaged"),
        MountFault::Failed => (15, "Failed"),
    }
}

/// The number and the name of the cause for which a zone holds no log.
fn log_refusal(fault: LogFault) -> (u8, &'static str)
    ensures number { result.0 ≡ (log_refusal fault).number }
    ensures name { result.1.now ≡ (log_refusal fault).name }
{
    match fault {
        LogFault::Magic => (1, "Magic"),
        LogFault::Version => (2, "Version"),
        LogFault::Kind => (3, "Kind"),
        LogFault::Count => (4, "Count"),
        LogFault::RestNotZero => (5, "RestNotZero"),
        LogFault::BlockRepeated => (6, "BlockRepeated"),
        LogFault::Torn => (7, "Torn"),
        LogFault::ForeignTail => (8, "ForeignTail"),
        LogFault::Size => (9, "Size"),
    }
}

/// The number and the name of a geometry's part that is out of range.
fn geometry_refusal(fault: GeometryFault) -> (u8, &'static str)
    ensures number { result.0 ≡ (geometry_refusal fault).number }
    ensures name { result.1.now ≡ (geometry_refusal fault).name }
{
    match fault {
        GeometryFault::Block => (1, "Block"),
        GeometryFault::Zones => (2, "Zones"),
        GeometryFault::Size => (3, "Size"),
        GeometryFault::Capacity => (4, "Capacity"),
        GeometryFault::Transfer => (5, "Transfer"),
        GeometryFault::Active => (6, "Active"),
        GeometryFault::Open => (7, "Open"),
    }
}

fn refusal_line(kind: &str, refusal: (u8, &str), out: &mut Vec<u8>) -> Result<(), AllocError>
    ensures { OnOk result (out.new.items ≡ out.old.items
        ++ refusal_text kind.now (numbered refusal.entry.0 refusal.entry.1.now)) }
{
    let (number, name) = refusal;
    writeln!(out, "fault {kind} {number} {name}").map_err(|_| AllocError)
}

fn numbered_line(kind: &str, number: u64, out: &mut Vec<u8>) -> Result<(), AllocError>
    ensures { OnOk result (out.new.items ≡ out.old.items ++ line_text kind.now number) }
{
    writeln!(out, "fault {kind} {number}").map_err(|_| AllocError)
}

/// The refusal of a mount, followed by the zone that it names.
fn zone_line(refusal: (u8, &str), zone: u32, out: &mut Vec<u8>) -> Result<(), AllocError>
    ensures { OnOk result (out.new.items ≡ out.old.items
        ++ zone_text (numbered refusal.entry.0 refusal.entry.1.now) zone) }
{
    let (number, name) = refusal;
    writeln!(out, "fault mount {number} {name} {zone}").map_err(|_| AllocError)
}

/// The refusal of a mount, followed by a zone and a block of it.
fn block_line(
    refusal: (u8, &str),
    zone: u32,
    offset: u32,
    out: &mut Vec<u8>,
) -> Result<(), AllocError>
    ensures { OnOk result (out.new.items ≡ out.old.items
        ++ block_text (numbered refusal.entry.0 refusal.entry.1.now) zone offset) }
{
    let (number, name) = refusal;
    write!(out, "fault mount {number} {name} {zone} {offset}").map_err(|_| AllocError)
}

/// The rest of a line, which names a cause.
fn cause_line(cause: (u8, &str), out: &mut Vec<u8>) -> Result<(), AllocError>
    ensures { OnOk result (out.new.items ≡ out.old.items
        ++ cause_text (numbered cause.entry.0 cause.entry.1.now)) }
{
    let (number, name) = cause;
    writeln!(out, " {number} {name}").map_err(|_| AllocError)
}

/// The refusal of a mount for a zone that holds no log.
fn log_line(
    refusal: (u8, &str),
    zone: u32,
    offset: u32,
    cause: LogFault,
    out: &mut Vec<u8>,
) -> Result<(), AllocError>
    ensures { OnOk result (out.new.items ≡ out.old.items
        ++ block_text (numbered refusal.entry.0 refusal.entry.1.now) zone offset ++ cause_text
        (log_refusal cause)) }
{
    block_line(refusal, zone, offset, out)?;
    cause_line(log_refusal(cause), out)?;
    Ok(())
}

fn mount_line(fault: MountFault, out: &mut Vec<u8>) -> Result<(), AllocError>
    ensures { OnOk result (out.new.items ≡ out.old.items ++ mount_text fault) }
{
    let refusal = mount_refusal(fault);
    match fault {
        MountFault::ZoneUnusable(zone) | MountFault::TornZone(zone) => {
            zone_line(refusal, zone, out)
        }
        MountFault::Log(zone, offset, cause) => { log_line(refusal, zone, offset, cause, out) }
        _ => refusal_line("mount", refusal, out),
    }
}

fn fault_line(fault: RunFault, out: &mut Vec<u8>) -> Result<(), AllocError>
    ensures { OnOk result (out.new.items ≡ out.old.items ++ run_fault_text fault) }
{
    match fault {
        RunFault::Line(number) => numbered_line("line", number, out),
        RunFault::Long(number) => numbered_line("long", number, out),
        RunFault::Disk(fault) => refusal_line("disk", disk_refusal(fault), out),
        RunFault::Mount(fault) => mount_line(fault, out),
        RunFault::Geometry(fault) => refusal_line("geometry", geometry_refusal(fault), out),
        RunFault::Input => out.extend_from_slice(b"fault input\n"),
        RunFault::Output => out.extend_from_slice(b"fault output\n"),
        RunFault::Memory => out.extend_from_slice(b"fault memory\n"),
    }
}

/// Writes the line of a fault. It is refused by `Output` where the writer fails, with a beginning of the
/// line written, and by `Memory` with nothing written.
pub fn write_fault<W: Write>(alloc: Global, fault: RunFault, writer: &mut W) -> Result<(), RunFault>
    ensures ok { OnOk result
        (Appends (W.contents writer.old) (W.contents writer.new) (run_fault_text fault)) }
    ensures err { IfErr result
        (NotWritten (W.contents writer.old) (W.contents writer.new) (run_fault_text fault)) }
{
    let mut line = Vec::new(alloc);
    fault_line(fault, &mut line)?;
    write_out(writer, &line)?;
    Ok(())
}
