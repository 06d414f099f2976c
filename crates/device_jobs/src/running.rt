// A trace over the drive behind a device.

ghost use Rattle.std.specs.Prelude.{◌≡◌, IsTrue};
ghost use Rattle.disk_runs.specs.Run.{exchange};
ghost use Rattle.disk_jobs.specs.Mounted.{TellsMount, TellsMountAnyway};
ghost use Rattle.job_drives.specs.Stop.{stopping};
ghost use Rattle.device_jobs.specs.Runs.{AnswersTrace, RunsAsked, ThenReports, run_fault};

use crate::job::DeviceRun;
use crate::reporting::answer_report;
use disk_files::LineReader;
use disk_jobs::{Mounting, TraceRun, run_any_counted, run_any_stopping};
use disk_runs::RunFault;
use drive_port::Device;
use std::alloc::Global;
use std::io::{Read, Write};
use tool_jobs::ToolFault;
use zone_translator::DiskFault;

/// Answers a trace over a device that stops, and then shows what was counted if it is asked for.
fn answer_asked<D: Device + Drop, R: Read + Drop, W: Write>(
    alloc: Global,
    device: D,
    job: &DeviceRun,
    input: &mut LineReader<R>,
    output: &mut W,
) -> (D, Mounting, Result<(), RunFault>)
    ensures runs { RunsAsked job.now.statistics job.now.takes job.now.blocks (stopping job.now.stop (D.drive device))
        (exchange input.old.left (W.contents output.old) (W.contents output.new)) result.2 (D.drive result.0) }
    ensures mounting { IsTrue (D.drive result.0).clean
        → TellsMount job.now.blocks (D.drive device) result.2 result.1 }
    ensures told { TellsMountAnyway (D.drive device).geometry result.2 result.1 }
{
    let how = TraceRun {
        blocks: job.blocks,
        stop: job.stop,
        takes: job.takes,
    };
    if job.statistics {
        run_any_counted(alloc, device, how, input, output)
    } else {
        run_any_stopping(alloc, device, how, input, output)
    }
}

/// What a fault of a report is to a run.
pub fn run_fault(fault: ToolFault) -> RunFault
    ensures { result ≡ run_fault fault }
{
    match fault {
        ToolFault::Output => RunFault::Output,
        ToolFault::Memory => RunFault::Memory,
        ToolFault::Failed => RunFault::Disk(DiskFault::Failed),
        ToolFault::Damaged => RunFault::Disk(DiskFault::Damaged),
        _ => RunFault::Disk(DiskFault::Stopped),
    }
}

/// Shows the zones of a drive after a run that was done, if they are asked for.
fn show_after<D: Device, W: Write>(
    alloc: Global,
    zones: bool,
    device: &mut D,
    ran: Result<(), RunFault>,
    output: &mut W,
) -> Result<(), RunFault>
    ensures reports { ThenReports zones (D.drive device.old) ran (W.contents output.old) result
        (D.drive device.new) (W.contents output.new) }
    ensures trusted { IsTrue (D.drive device.new).clean → IsTrue (D.drive device.old).clean }
{
    if ran.is_err() || !zones {
        return ran;
    }
    match answer_report(alloc, device, None, output) {
        Ok(()) => Ok(()),
        Err(fault) => Err(run_fault(fault)),
    }
}

/// Mounts a drive, answers the lines of a trace, and then shows the zones if they are asked for. The drive is not
/// restarted before, so that it continues where the last program left it. It is given back, also after a fault.
pub fn run_device<D: Device + Drop, R: Read + Drop, W: Write>(
    alloc: Global,
    device: D,
    job: &DeviceRun,
    input: &mut LineReader<R>,
    output: &mut W,
) -> (D, Mounting, Result<(), RunFault>)
    // What speaks of bytes that were read is promised while the drive is clean, and the rest in any case (`RunsAny`).
    ensures answers { AnswersTrace job.now (exchange input.old.left (W.contents output.old) (W.contents output.new))
        (D.drive device) result.1 result.2 (D.drive result.0) }
{
    let (mut device, mounting, ran) = answer_asked(alloc, device, job, input, output);
    let shown = show_after(alloc, job.zones, &mut device, ran, output);
    (device, mounting, shown)
}
