// Drives of which zones end in something foreign: they are shown, or repaired.

ghost use Rattle.std.specs.Prelude.{◌≡◌, ◌⊎◌, false, Err, IfErr, IfOk, Ok};
ghost use Rattle.std.specs.Process.{exit_status};
ghost use Rattle.zonedisk_program.specs.Ends.{EndsFound, EndsMended, EndsTold};

use crate::devices::{is_synced, refuse_lines};
use crate::files::{fail, tell_saved};
use device_jobs::{Devices, OpenDevice, write_device_fault};
use disk_files::write_out;
use disk_jobs::{Habit, ProgramFault, Saved};
use disk_runs::RunFault;
use job_drives::KeepFault;
use repair_jobs::{
    Mended, RepairJob, RepairJobFault, Repaired, explain, list_image, list_tails, mend, mend_image,
    moved_text, repair_fault_line, tell_found,
};
use std::alloc::Global;
use std::fs;
use std::io::Write;
use std::process::ExitCode;
use std::rt::Files;
use tail_repair::RepairFault;

/// Why what a repair did may be lost.
#[derive(Clone, Copy)]
pub(crate) enum Unkept {
    /// The sync at the end failed. People were told.
    Unsynced,
    /// The drive is not saved in its file.
    Unsaved(RepairJobFault),
}

/// The fault of a file, as the program tells it.
fn told_fault(fault: KeepFault) -> ProgramFault {
    match fault {
        KeepFault::Image(fault) => ProgramFault::Image(fault),
        KeepFault::File(fault) => ProgramFault::File(fault),
        KeepFault::Memory => ProgramFault::Run(RunFault::Memory),
    }
}

/// Writes the line of a fault of a repair.
fn write_line<W: Write>(alloc: Global, fault: RepairFault, output: &mut W) {
    if let Ok(line) = repair_fault_line(alloc, fault) {
        let _ = write_out(output, &line);
        let _ = output.flush();
    }
}

/// Says on standard error what a fault is.
fn tell_fault<R: Eprint>(rt: &R, alloc: Global, job: &RepairJob, fault: RepairJobFault) {
    if let Ok(text) = explain(alloc, job, fault) {
        let _ = eprintln!(rt; "zonedisk: {text}");
    }
}

/// Says why a drive is not repaired, or why it is not told what is wrong with it.
fn refuse_repair<R: Eprint, W: Write>(
    rt: &R,
    alloc: Global,
    job: &RepairJob,
    fault: RepairJobFault,
    output: &mut W,
) -> ExitCode
    ensures { exit_status result ≡ 1 }
{
    match fault {
        RepairJobFault::File(fault) => {
            let _status = fail(alloc, told_fault(fault), output);
        }
        RepairJobFault::Repair(fault) => write_line(alloc, fault, output),
        RepairJobFault::Output => {
            let _status = fail(alloc, ProgramFault::Run(RunFault::Output), output);
        }
    }
    tell_fault(rt, alloc, job, fault);
    ExitCode::FAILURE
}

/// Sends what was told. What cannot be sent is a fault of the output.
fn send<W: Write>(
    told: Result<bool, RepairJobFault>,
    output: &mut W,
) -> Result<bool, RepairJobFault>
    ensures ok { IfOk result (λ well. told ≡ Ok well) }
    ensures err { IfErr result (λ fault. (told ≡ Err fault) ⊎ (fault ≡ RepairJobFault.Output)) }
{
    let well = told?;
    match output.flush() {
        Ok(()) => Ok(well),
        Err(_) => Err(RepairJobFault::Output),
    }
}

/// Tells why not all was sent. It ends well just if all was, and all is well.
fn end_told<R: Eprint, W: Write>(
    rt: &R,
    alloc: Global,
    job: &RepairJob,
    sent: Result<bool, RepairJobFault>,
    output: &mut W,
) -> ExitCode
    ensures { EndsTold sent result }
{
    let well = match sent {
        Ok(well) => well,
        Err(fault) => return refuse_repair(rt, alloc, job, fault, output),
    };
    if well {
        ExitCode::SUCCESS
    } else {
        ExitCode::FAILURE
    }
}

/// Says on standard error which zones were repaired.
fn tell_moved<R: Eprint>(rt: &R, alloc: Global, path: &str, mended: &Mended) {
    if mended.moved.is_empty() {
        let _ = eprintln!(rt; "zonedisk: {path}: nothing to repair");
    }
    for moved in mended.moved.as_slice() {
        if let Ok(text) = moved_text(alloc, *moved) {
            let _ = eprintln!(rt; "zonedisk: {path}: {text}");
        }
    }
}

/// Says what a check found of the drive that was repaired.
fn end_found<R: Eprint, W: Write>(
    rt: &R,
    alloc: Global,
    job: &RepairJob,
    mended: &Mended,
    output: &mut W,
) -> ExitCode
    ensures { EndsFound mended.now.found result }
{
    let sent = send(tell_found(alloc, &mended.found, output), output);
    end_told(rt, alloc, job, sent, output)
}

/// Says that what was done may be lost.
fn end_unkept<R: Eprint, W: Write>(
    rt: &R,
    alloc: Global,
    job: &RepairJob,
    unkept: Unkept,
    output: &mut W,
) -> ExitCode
    ensures { exit_status result ≡ 1 }
{
    match unkept {
        Unkept::Unsynced => {
            let _ = write_device_fault(output);
            let _ = output.flush();
            ExitCode::FAILURE
        }
        Unkept::Unsaved(fault) => refuse_repair(rt, alloc, job, fault, output),
    }
}

/// Says that a drive was not repaired to its end. Where it is not saved either, that is told too.
fn end_unmended<R: Eprint, W: Write>(
    rt: &R,
    alloc: Global,
    job: &RepairJob,
    fault: RepairJobFault,
    kept: Result<(), Unkept>,
    output: &mut W,
) -> ExitCode
    ensures { exit_status result ≡ 1 }
{
    let status = refuse_repair(rt, alloc, job, fault, output);
    if let Err(Unkept::Unsaved(fault)) = kept {
        tell_fault(rt, alloc, job, fault);
    }
    status
}

/// Tells how a repair ended: which zones were repaired and, if that is kept, what a check says of the drive.
fn end_mended<R: Eprint, W: Write>(
    rt: &R,
    alloc: Global,
    job: &RepairJob,
    mended: Result<Mended, RepairJobFault>,
    kept: Result<(), Unkept>,
    output: &mut W,
) -> ExitCode
    ensures { EndsMended mended kept result }
{
    let mended = match mended {
        Ok(mended) => mended,
        Err(fault) => return end_unmended(rt, alloc, job, fault, kept, output),
    };
    tell_moved(rt, alloc, &job.image, &mended);
    match kept {
        Ok(()) => end_found(rt, alloc, job, &mended, output),
        Err(unkept) => end_unkept(rt, alloc, job, unkept, output),
    }
}

/// Repairs the drive in an image, or shows its zones that a repair is for.
pub(crate) fn repair_image<R: Eprint + Files<File = fs::File>, W: Write>(
    rt: &R,
    alloc: Global,
    job: &RepairJob,
    output: &mut W,
) -> ExitCode {
    if !job.force {
        let sent = send(list_image(rt, alloc, job, output), output);
        return end_told(rt, alloc, job, sent, output);
    }
    let Repaired { mended, saved } = mend_image(rt, alloc, job);
    tell_saved(rt, alloc, &job.image, saved.unwrap_or(Saved::IN_PLACE));
    let kept = match saved {
        Ok(_) => Ok(()),
        Err(fault) => Err(Unkept::Unsaved(fault)),
    };
    end_mended(rt, alloc, job, mended, kept, output)
}

/// Shows the zones of the drive behind a device that a repair is for.
fn list_device<R: Eprint, D: Devices, W: Write>(
    rt: &R,
    alloc: Global,
    devices: &D,
    job: &RepairJob,
    output: &mut W,
) -> ExitCode
    ensures { D.has_way devices.now ≡ false → exit_status result ≡ 1 }
{
    let mut drive = match devices.open_reader(alloc, &job.image, Habit::Lazy) {
        Ok(drive) => drive,
        Err(fault) => return refuse_lines(rt, &job.image, fault, output),
    };
    let sent = send(list_tails(alloc, &mut drive, output), output);
    end_told(rt, alloc, job, sent, output)
}

/// Repairs the drive behind a device. That ends with a sync.
fn mend_device<R: Eprint, D: Devices, W: Write>(
    rt: &R,
    alloc: Global,
    devices: &D,
    job: &RepairJob,
    output: &mut W,
) -> ExitCode
    ensures { D.has_way devices.now ≡ false → exit_status result ≡ 1 }
{
    let OpenDevice {
        mut drive,
        mut medium,
        ..
    } = match devices.open(alloc, &job.image, Habit::Lazy) {
        Ok(open) => open,
        Err(fault) => return refuse_lines(rt, &job.image, fault, output),
    };
    let mended = mend(alloc, &mut drive);
    let kept = if is_synced(rt, alloc, &job.image, &mut drive, &mut medium) {
        Ok(())
    } else {
        Err(Unkept::Unsynced)
    };
    end_mended(rt, alloc, job, mended, kept, output)
}

/// Repairs the drive behind a device, or one that stays in its file; or shows its zones that a repair is for.
pub(crate) fn repair_device<R: Eprint, D: Devices, W: Write>(
    rt: &R,
    alloc: Global,
    devices: &D,
    job: &RepairJob,
    output: &mut W,
) -> ExitCode
    ensures { D.has_way devices.now ≡ false → exit_status result ≡ 1 }
{
    if job.force {
        mend_device(rt, alloc, devices, job, output)
    } else {
        list_device(rt, alloc, devices, job, output)
    }
}
