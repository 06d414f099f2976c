// The drive that a job begins with: a fresh one, or the one in a file.

ghost use Rattle.std.specs.Prelude.{◌≡◌, IfErr, IfOk, OnOk, true};
ghost use Rattle.disk_jobs.specs.Saved.{FailsToWrite, HasDrive, HasNoDrive, IsNotFresh, IsNotRead, IsSavedText};
ghost use Rattle.disk_jobs.specs.Saved.{ThenShows, WritesText, fresh_drive};
ghost use Rattle.disk_jobs.specs.declared.fault.ProgramFault.TheVariants as program;

use crate::fault::ProgramFault;
use crate::job::Job;
use disk_files::write_out;
use disk_runs::RunFault;
use drive_port::Device;
use job_drives::{Begun, restarted_drive, saved_drive};
use nvme_wire::ReportingOptions;
use std::alloc::Global;
use std::io::{Read, Write};
use zone_drive::{Drive, DriveFault, Habit};
use zone_report::{report_bytes, report_text};
use zone_states::Geometry;

/// A drive in which nothing is written.
pub(crate) fn fresh_drive(
    alloc: Global,
    geometry: Geometry,
    habit: Habit,
) -> Result<Drive, RunFault>
    ensures ok { IfOk result (λ drive. drive ≡ fresh_drive geometry habit) }
    ensures err { IfErr result (λ fault. IsNotFresh geometry (program.Run fault)) }
{
    match Drive::new(alloc, geometry) {
        Ok(mut drive) => {
            drive.set_habit(habit);
            Ok(drive)
        }
        Err(DriveFault::Geometry(fault)) => Err(RunFault::Geometry(fault)),
        Err(_) => Err(RunFault::Memory),
    }
}

/// Writes the report text of all zones of a drive, without a command.
pub(crate) fn show_zones<W: Write>(
    alloc: Global,
    drive: &Drive,
    output: &mut W,
) -> Result<(), RunFault>
    ensures { ThenShows true drive.now.state (Ok tt) (W.contents output.old) result (W.contents output.new) }
{
    let geometry = drive.geometry();
    let dwords = 16 * (geometry.zones as u64 + 1);
    let Ok(report) = report_bytes(
        alloc,
        drive,
        geometry,
        0,
        ReportingOptions::AnyState,
        false,
        dwords,
    ) else {
        return Err(RunFault::Memory);
    };
    let Ok(text) = report_text(alloc, &report) else {
        return Err(RunFault::Memory);
    };
    write_out(output, text.as_bytes())?;
    Ok(())
}

/// Shows the zones of a drive as it was saved.
fn report<I: Read, W: Write>(
    alloc: Global,
    file: &mut I,
    output: &mut W,
) -> Result<(), ProgramFault>
    ensures ok { OnOk result (WritesText (IsSavedText (I.remaining file.old))
        (W.contents output.old) (W.contents output.new)) }
    ensures err { IfErr result (λ fault. FailsToWrite (IsNotRead (I.remaining file.old))
        (IsSavedText (I.remaining file.old)) fault (W.contents output.old) (W.contents output.new)) }
{
    let drive = saved_drive(alloc, file)?;
    show_zones(alloc, &drive, output)?;
    Ok(())
}

/// The drive that a job works on, if it works on one after this: a fresh one, or the one in the file.
pub(crate) fn begin<I: Read, W: Write>(
    alloc: Global,
    job: &Job,
    file: &mut I,
    output: &mut W,
) -> Result<Option<Begun>, ProgramFault>
    ensures ok { IfOk result (λ found. HasDrive job.now (I.remaining file.old) found
        (W.contents output.old) (W.contents output.new)) }
    ensures err { IfErr result (λ fault. HasNoDrive job.now (I.remaining file.old) fault
        (W.contents output.old) (W.contents output.new)) }
{
    match job {
        Job::Format { geometry, .. } => Ok(Some(Begun::fresh(fresh_drive(
            alloc,
            *geometry,
            Habit::Lazy,
        )?))),
        Job::Run { habit, .. } | Job::Nvme { habit, .. } => {
            Ok(Some(restarted_drive(alloc, file, *habit)?))
        }
        Job::Report { .. } => {
            report(alloc, file, output)?;
            Ok(None)
        }
        Job::Fresh {
            geometry,
            habit,
            ..
        }
        | Job::FreshRaw { geometry, habit } => {
            Ok(Some(Begun::fresh(fresh_drive(alloc, *geometry, *habit)?)))
        }
    }
}
