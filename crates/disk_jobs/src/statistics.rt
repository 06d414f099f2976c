ghost use Rattle.std.specs.Prelude.{◌≡◌, IsTrue, Ok};
ghost use Rattle.disk_runs.specs.Run.{exchange};
ghost use Rattle.disk_jobs.specs.AnyDevice.{RunsAnyCounted};
ghost use Rattle.disk_jobs.specs.Mounted.{TellsMount, TellsMountAnyway};
ghost use Rattle.disk_jobs.specs.Saved.{RunsCounted, ThenTells};
ghost use Rattle.job_drives.specs.Stop.{stopping};

use crate::lines::TraceRun;
use crate::mounting::Mounting;
use disk_files::{LineReader, write_out};
use disk_runs::{RunFault, answer_any_trace};
use drive_counter::Counter;
use drive_port::{Device, Honest};
use job_drives::{statistics_of, stopping};
use std::alloc::Global;
use std::io::{Read, Write};
use zone_translator::AnyDisk;

/// Writes what was counted of a disk, without a command.
fn write_statistics<W: Write, D: Device + Drop>(
    alloc: Global,
    disk: &AnyDisk<Counter<D>>,
    output: &mut W,
) -> Result<(), RunFault>
    ensures { ThenTells (Ok tt) (W.contents output.old) result (W.contents output.new) }
{
    let text = statistics_of(alloc, disk)?;
    write_out(output, text.as_bytes())?;
    Ok(())
}

/// Writes what was counted of a disk after a run that was done.
fn tell_after<W: Write, D: Device + Drop>(
    alloc: Global,
    disk: &AnyDisk<Counter<D>>,
    ran: Result<(), RunFault>,
    output: &mut W,
) -> Result<(), RunFault>
    ensures { ThenTells ran (W.contents output.old) result (W.contents output.new) }
{
    if ran.is_err() {
        return ran;
    }
    write_statistics(alloc, disk, output)
}

/// Answers a trace over any device, which stops and whose commands are counted, and then shows what was counted. It
/// tells what is known of the mount. What is promised is that of [`run_any_stopping`](crate::run_any_stopping).
pub fn run_any_counted<D: Device + Drop, R: Read + Drop, W: Write>(
    alloc: Global,
    device: D,
    how: TraceRun,
    input: &mut LineReader<R>,
    output: &mut W,
) -> (D, Mounting, Result<(), RunFault>)
    ensures runs { RunsAnyCounted how.takes how.blocks (stopping how.stop (D.drive device))
        (exchange input.old.left (W.contents output.old) (W.contents output.new)) result.2 (D.drive result.0) }
    // While the drive is clean, the disk is told that was mounted.
    ensures mounting { IsTrue (D.drive result.0).clean → TellsMount how.blocks (D.drive device) result.2 result.1 }
    // Whatever the Reads returned.
    ensures told { TellsMountAnyway (D.drive device).geometry result.2 result.1 }
{
    let device = stopping(device, how.stop);
    let disk = match AnyDisk::mount(alloc, Counter::new(device), how.blocks) {
        Ok(disk) => disk,
        Err((fault, counter)) => {
            let mounting = Mounting::refused(counter.completed());
            let device = counter.into_inner();
            return (device.into_inner(), mounting, Err(RunFault::Mount(fault)));
        }
    };
    let mounting = Mounting::done(&disk);
    let (disk, ran) = answer_any_trace(alloc, how.takes, input, output, disk);
    let told = tell_after(alloc, &disk, ran, output);
    let device = disk.into_device().into_inner();
    (device.into_inner(), mounting, told)
}

/// The same over a device that is always clean.
pub fn run_counted<D: Device + Honest + Drop, R: Read + Drop, W: Write>(
    alloc: Global,
    device: D,
    how: TraceRun,
    input: &mut LineReader<R>,
    output: &mut W,
) -> (D, Mounting, Result<(), RunFault>)
    ensures runs { RunsCounted how.takes how.blocks (stopping how.stop (D.drive device))
        (exchange input.old.left (W.contents output.old) (W.contents output.new)) result.2 (D.drive result.0) }
    ensures mounting { TellsMount how.blocks (D.drive device) result.2 result.1 }
{
    let (device, mounting, told) = run_any_counted(alloc, device, how, input, output);
    device.vouch();
    (device, mounting, told)
}
