// Jobs on the drive behind a device, or on one that stays in its file.

ghost use Rattle.std.specs.Prelude.{◌≡◌, ◌⊎◌, codes, false};
ghost use Rattle.std.specs.Io.KnownBytes.{Appends};
ghost use Rattle.std.specs.Process.{exit_status};
ghost use Rattle.disk_files.specs.Output.{AppendsFront};
ghost use Rattle.zonedisk_program.specs.Ends.{EndsLines, EndsServed, reaches};

use crate::files::{counted, fail, tell_imported, tell_session, tell_size, tell_terminal};
use crate::repairing::repair_device;
use crate::rescuing::rescue_device;
use device_jobs::{
    DeviceFault, DeviceJob, DeviceRun, Devices, FormatFault, NamedDrive, OpenDevice, SendFault,
    Served, answer_report, check_device, explain_run, explain_sent, export_device, format_device,
    harden, inform_device, plan_device, run_device, run_fault, send_lines, serve_client,
    show_zones, write_device_fault,
};
use disk_copies::{CopyFault, CopyJob, ExportFault, ExportJob, ImportJob, import_mounted};
use disk_files::write_out;
use disk_jobs::{
    Counted, Explained, Gate, Habit, JobInput, LineCount, ProgramFault, Stop, Watched,
    explain_geometry, run_told,
};
use disk_runs::{RunFault, Taking};
use drive_port::{Device, Geometry, Honest};
use nbd_jobs::NbdJob;
use nbd_session::{Medium, WriteThrough};
use nvme_wire::ZoneState;
use std::alloc::Global;
use std::cell::Cell;
use std::io::Write;
use std::process::ExitCode;
use std::rt::Files;
use std::time::Clock;
use std::{fs, io};
use tool_jobs::{CheckJob, InfoJob, PlanForm, ToolFault, ZonesJob};
use write_plan::Aim;

/// Says on standard error why a device is not used.
pub(crate) fn refuse<R: Eprint>(rt: &R, path: &str, fault: DeviceFault) -> ExitCode
    ensures { exit_status result ≡ 1 }
{
    let _ = eprintln!(rt; "zonedisk: {path} {fault}");
    ExitCode::FAILURE
}

/// The same for a job that shows its faults by lines.
pub(crate) fn refuse_lines<R: Eprint, W: Write>(
    rt: &R,
    path: &str,
    fault: DeviceFault,
    output: &mut W,
) -> ExitCode
    ensures shows { Appends (W.contents output.old) (W.contents output.new) (codes "fault device\n")
        ⊎ AppendsFront (W.contents output.old) (W.contents output.new) (codes "fault device\n") }
    ensures status { exit_status result ≡ 1 }
{
    let _ = write_device_fault(output);
    let _ = output.flush();
    refuse(rt, path, fault)
}

/// Sends what was written.
fn send<W: Write>(output: &mut W) -> Result<(), ProgramFault> {
    output.flush().or(Err(ProgramFault::Run(RunFault::Output)))
}

/// Says that what a drive has completed may not be durable. Why its sync failed is told by the way to it.
fn tell_unsynced<R: Eprint>(rt: &R, path: &str) {
    let _ = eprintln!(rt;
        "zonedisk: {path}: not all that was done is synced: a loss of power may lose it"
    );
}

/// Makes durable what a drive has completed. People are told if that fails.
pub(crate) fn is_synced<R: Eprint, D: Device, M: Medium>(
    rt: &R,
    alloc: Global,
    path: &str,
    drive: &mut D,
    medium: &mut M,
) -> bool {
    if harden(alloc, drive, medium).is_ok() {
        return true;
    }
    tell_unsynced(rt, path);
    false
}

/// Ends a job that shows its faults by lines, once it is known whether what it did is durable. A job that is not done
/// has shown its fault.
fn end_lines<W: Write>(done: bool, synced: bool, output: &mut W) -> ExitCode
    ensures { EndsLines done synced (W.contents output.old) result (W.contents output.new) }
{
    if !done {
        return ExitCode::FAILURE;
    }
    if synced {
        return ExitCode::SUCCESS;
    }
    let _ = write_device_fault(output);
    let _ = output.flush();
    ExitCode::FAILURE
}

/// Says why a drive is not formatted, or where that is not known to be done.
fn refuse_format<R: Eprint, W: Write>(
    rt: &R,
    named: NamedDrive<'_>,
    fault: FormatFault,
    output: &mut W,
) -> ExitCode {
    let _ = write_device_fault(output);
    let _ = output.flush();
    let _ = eprintln!(rt; "zonedisk: {named}: {fault}");
    ExitCode::FAILURE
}

/// Makes a drive in which nothing is written.
fn do_format<R: Eprint, D: Devices, W: Write>(
    rt: &R,
    alloc: Global,
    devices: &D,
    path: &str,
    force: bool,
    output: &mut W,
) -> ExitCode
    ensures { D.has_way devices.now ≡ false → exit_status result ≡ 1 }
{
    let open = match devices.open(alloc, path, Habit::Lazy) {
        Ok(open) => open,
        Err(fault) => return refuse_lines(rt, path, fault, output),
    };
    let OpenDevice {
        mut drive,
        mut medium,
        name,
    } = open;
    let named = NamedDrive { path, name: &name };
    if let Err(fault) = format_device(rt, alloc, named, force, &mut drive, output) {
        return refuse_format(rt, named, fault, output);
    }
    if output.flush().is_err() {
        return refuse_format(rt, named, FormatFault::Output, output);
    }
    let synced = is_synced(rt, alloc, path, &mut drive, &mut medium);
    end_lines(true, synced, output)
}

/// Says that a drive was made in the file of this path.
pub(crate) fn end_made<R: Eprint, W: Write>(rt: &R, path: &str, output: &mut W) -> ExitCode {
    if write_out(output, b"ok\n").is_ok() && output.flush().is_ok() {
        return ExitCode::SUCCESS;
    }
    let _ = eprintln!(rt; "zonedisk: {path}: the drive was made, but standard output failed");
    ExitCode::FAILURE
}

/// Says why no drive is made in the file of this path. A shape that is out of range is told by its options.
fn refuse_create<R: Eprint, W: Write>(
    rt: &R,
    alloc: Global,
    path: &str,
    geometry: &Geometry,
    fault: DeviceFault,
    output: &mut W,
) -> ExitCode
    ensures { exit_status result ≡ 1 }
{
    let DeviceFault::Shape(shape) = fault else {
        return refuse_lines(rt, path, fault, output);
    };
    let _ = write_device_fault(output);
    let _ = output.flush();
    if let Ok(text) = explain_geometry(alloc, *geometry, shape) {
        let _ = eprintln!(rt; "zonedisk: {text}");
    }
    ExitCode::FAILURE
}

/// Makes a new drive that stays in its file.
fn do_create<R: Eprint, D: Devices, W: Write>(
    rt: &R,
    alloc: Global,
    devices: &D,
    path: &str,
    geometry: &Geometry,
    output: &mut W,
) -> ExitCode
    ensures { D.has_way devices.now ≡ false → exit_status result ≡ 1 }
{
    if let Err(fault) = devices.create(path, geometry) {
        return refuse_create(rt, alloc, path, geometry, fault, output);
    }
    end_made(rt, path, output)
}

/// How a run ended, as the program tells it.
fn run_end(ran: Result<(), RunFault>, geometry: &Geometry) -> Result<(), ProgramFault> {
    match ran {
        Ok(()) => Ok(()),
        Err(fault) => Err(run_told(fault, geometry)),
    }
}

/// Answers a trace over a drive. Its lines are on standard input. The drive is given back, with whether all was done.
fn answer_lines<R: Clock + Eprint + Files<File = fs::File> + Input, D: Device + Drop, W: Write>(
    rt: &R,
    alloc: Global,
    drive: D,
    job: &DeviceRun,
    output: &mut W,
) -> (D, bool) {
    let gate = Gate::open();
    let count = LineCount::new();
    let counted = job.progress.then_some(Counted::Lines);
    let reader = Watched::input(rt.reader(), rt, counted);
    let mut input = JobInput::new(alloc, &gate, &count, reader);
    let (drive, mounting, ran) = run_device(alloc, drive, job, input.reader(), output);
    let ended = run_end(ran, &drive.geometry()).and(send(output));
    tell_size(rt, alloc, &job.device, Some(job.blocks), mounting.disk);
    let Err(fault) = ended else {
        return (drive, true);
    };
    let _status = fail(alloc, fault, output);
    if let Ok(text) = explain_run(alloc, job, fault, &mut input, mounting) {
        let _ = eprintln!(rt; "zonedisk: {text}");
    }
    (drive, false)
}

/// Mounts the drive in memory, and answers the lines of a trace that read.
fn read_run<R: Clock + Eprint + Files<File = fs::File> + Input, D: Devices, W: Write>(
    rt: &R,
    alloc: Global,
    devices: &D,
    job: &DeviceRun,
    output: &mut W,
) -> ExitCode
    ensures { D.has_way devices.now ≡ false → exit_status result ≡ 1 }
{
    match devices.open_reader(alloc, &job.device, job.habit) {
        Ok(drive) => {
            let (_drive, done) = answer_lines(rt, alloc, drive, job, output);
            end_lines(done, true, output)
        }
        Err(fault) => refuse_lines(rt, &job.device, fault, output),
    }
}

/// Mounts the drive, and answers a trace. It ends with a sync, unless the drive has to stop before.
fn change_run<R: Clock + Eprint + Files<File = fs::File> + Input, D: Devices, W: Write>(
    rt: &R,
    alloc: Global,
    devices: &D,
    job: &DeviceRun,
    output: &mut W,
) -> ExitCode
    ensures { D.has_way devices.now ≡ false → exit_status result ≡ 1 }
{
    match devices.open(alloc, &job.device, job.habit) {
        Ok(open) => {
            let OpenDevice {
                drive,
                mut medium,
                ..
            } = open;
            let (mut drive, done) = answer_lines(rt, alloc, drive, job, output);
            let synced = job.stop != Stop::NEVER
                || is_synced(rt, alloc, &job.device, &mut drive, &mut medium);
            end_lines(done, synced, output)
        }
        Err(fault) => refuse_lines(rt, &job.device, fault, output),
    }
}

/// Mounts the drive, and answers a trace, or the lines of it that read.
fn do_run<R: Clock + Eprint + Files<File = fs::File> + Input, D: Devices, W: Write>(
    rt: &R,
    alloc: Global,
    devices: &D,
    job: &DeviceRun,
    output: &mut W,
) -> ExitCode
    ensures { D.has_way devices.now ≡ false → exit_status result ≡ 1 }
{
    if job.takes == Taking::Reads {
        read_run(rt, alloc, devices, job, output)
    } else {
        change_run(rt, alloc, devices, job, output)
    }
}

/// Shows the zones of the drive.
fn do_report<R: Eprint, D: Devices, W: Write>(
    rt: &R,
    alloc: Global,
    devices: &D,
    path: &str,
    state: Option<ZoneState>,
    output: &mut W,
) -> ExitCode
    ensures { D.has_way devices.now ≡ false → exit_status result ≡ 1 }
{
    let mut drive = match devices.open_beside(alloc, path) {
        Ok(drive) => drive,
        Err(fault) => return refuse_lines(rt, path, fault, output),
    };
    let told = answer_report(alloc, &mut drive, state, output);
    let told = told.and(output.flush().or(Err(ToolFault::Output)));
    let Err(fault) = told else {
        return ExitCode::SUCCESS;
    };
    let code = fail(alloc, ProgramFault::Run(run_fault(fault)), output);
    let _ = eprintln!(rt; "zonedisk: {path}: the zones are not shown: {fault}");
    code
}

/// Shows the zones of the drive in another form.
fn do_zones<R: Eprint, D: Devices, W: Write>(
    rt: &R,
    alloc: Global,
    devices: &D,
    job: &ZonesJob,
    output: &mut W,
) -> ExitCode
    ensures { D.has_way devices.now ≡ false → exit_status result ≡ 1 }
{
    let mut drive = match devices.open_beside(alloc, &job.image) {
        Ok(drive) => drive,
        Err(fault) => return refuse(rt, &job.image, fault),
    };
    let told = show_zones(alloc, job.form, &mut drive, output);
    end_tool(rt, &job.image, told.map(|()| true), output)
}

/// Raw lines that are sent to the drive of a path.
#[derive(Clone, Copy)]
struct RawJob<'j> {
    path: &'j str,
    explain: bool,
    habit: Habit,
    sync: bool,
}

/// Sends raw lines, and says why they are answered no further.
fn do_nvme<R: Eprint + Input, D: Devices, W: Write>(
    rt: &R,
    alloc: Global,
    devices: &D,
    job: &RawJob<'_>,
    output: &mut W,
) -> ExitCode
    ensures { D.has_way devices.now ≡ false → exit_status result ≡ 1 }
{
    let RawJob { path, sync, .. } = *job;
    let mut drive = match devices.open_raw(alloc, path, job.habit) {
        Ok(drive) => drive,
        Err(fault) => return refuse_lines(rt, path, fault, output),
    };
    let gate = Gate::open();
    let count = LineCount::new();
    let mut input = JobInput::new(alloc, &gate, &count, rt.reader());
    let sent = if job.explain {
        let mut explained = Explained::new(rt, output);
        send_lines(alloc, sync, &mut drive, input.reader(), &mut explained)
    } else {
        send_lines(alloc, sync, &mut drive, input.reader(), output)
    };
    let sent = sent.and(output.flush().or(Err(SendFault::Run(RunFault::Output))));
    let Err(fault) = sent else {
        return ExitCode::SUCCESS;
    };
    let code = fail(alloc, ProgramFault::Run(fault.shown()), output);
    if let Ok(text) = explain_sent(alloc, path, fault, &mut input) {
        let _ = eprintln!(rt; "zonedisk: {text}");
    }
    code
}

/// Serves a drive on the standard streams.
fn serve<R: Input + Print, D: Device + Drop, M: Medium + Drop>(
    rt: &R,
    alloc: Global,
    job: &NbdJob,
    drive: D,
    medium: M,
) -> Served {
    serve_client(alloc, job, drive, medium, rt.reader(), &mut io::writer(rt))
}

/// Says that a drive has stopped, though nobody asked for it.
fn tell_stopped<R: Eprint>(rt: &R, path: &str) {
    let _ = eprintln!(rt;
        "zonedisk: {path}: the drive stopped by itself in the session: it failed, or it answered what does not fit"
    );
}

/// Tells on standard error how a session ended: by its fault, or else that its drive had stopped by itself, or else
/// that what was done may not be durable.
fn end_session<R: Eprint>(rt: &R, alloc: Global, job: &NbdJob, served: Served) -> ExitCode
    ensures { EndsServed served.told.result served.stopped served.hardened result }
{
    let Served {
        told,
        stopped,
        hardened,
    } = served;
    tell_size(rt, alloc, &job.image, job.blocks, told.disk);
    let is_done = told.result.is_ok();
    let ended = tell_session(rt, alloc, job, told);
    if is_done && stopped {
        tell_stopped(rt, &job.image);
        return ExitCode::FAILURE;
    }
    if hardened.is_ok() {
        return ended;
    }
    if !stopped {
        tell_unsynced(rt, &job.image);
    }
    ExitCode::FAILURE
}

/// Serves the drive on the standard streams, or only reads it. What people are told goes to standard error.
fn do_nbd<R: Eprint + Files<File = fs::File> + Input + Print, D: Devices>(
    rt: &R,
    alloc: Global,
    devices: &D,
    job: &NbdJob,
) -> ExitCode
    ensures { D.has_way devices.now ≡ false → exit_status result ≡ 1 }
{
    tell_terminal(rt);
    let served = if job.read_only {
        match devices.open_reader(alloc, &job.image, job.habit) {
            Ok(drive) => serve(rt, alloc, job, drive, WriteThrough::new()),
            Err(fault) => return refuse(rt, &job.image, fault),
        }
    } else {
        match devices.open(alloc, &job.image, job.habit) {
            Ok(open) => serve(rt, alloc, job, open.drive, open.medium),
            Err(fault) => return refuse(rt, &job.image, fault),
        }
    };
    end_session(rt, alloc, job, served)
}

/// Sends what a tool wrote, and says why it told nothing. A check may say that not all is well.
fn end_tool<R: Eprint, W: Write>(
    rt: &R,
    path: &str,
    told: Result<bool, ToolFault>,
    output: &mut W,
) -> ExitCode {
    let told = match output.flush() {
        Ok(()) => told,
        Err(_) => told.and(Err(ToolFault::Output)),
    };
    match told {
        Ok(true) => ExitCode::SUCCESS,
        Ok(false) => ExitCode::FAILURE,
        Err(fault) => {
            let _ = eprintln!(rt; "zonedisk: {path}: {fault}");
            ExitCode::FAILURE
        }
    }
}

/// Shows all faults of the drive.
fn do_check<R: Eprint, D: Devices, W: Write>(
    rt: &R,
    alloc: Global,
    devices: &D,
    job: &CheckJob,
    output: &mut W,
) -> ExitCode
    ensures { D.has_way devices.now ≡ false → exit_status result ≡ 1 }
{
    let mut drive = match devices.open_reader(alloc, &job.image, Habit::Lazy) {
        Ok(drive) => drive,
        Err(fault) => return refuse(rt, &job.image, fault),
    };
    let told = check_device(alloc, job.blocks, &mut drive, &job.form, output);
    end_tool(rt, &job.image, told, output)
}

/// Shows what the drive holds.
fn do_info<R: Eprint, D: Devices, W: Write>(
    rt: &R,
    alloc: Global,
    devices: &D,
    job: &InfoJob,
    output: &mut W,
) -> ExitCode
    ensures { D.has_way devices.now ≡ false → exit_status result ≡ 1 }
{
    let mut drive = match devices.open_beside(alloc, &job.image) {
        Ok(drive) => drive,
        Err(fault) => return refuse(rt, &job.image, fault),
    };
    let told = inform_device(alloc, &mut drive, &job.form, output);
    end_tool(rt, &job.image, told.map(|()| true), output)
}

/// Shows what numbers of logical blocks cost on the drive.
fn do_plan<R: Eprint, D: Devices, W: Write>(
    rt: &R,
    alloc: Global,
    devices: &D,
    path: &str,
    aim: Aim,
    form: PlanForm,
    output: &mut W,
) -> ExitCode
    ensures { D.has_way devices.now ≡ false → exit_status result ≡ 1 }
{
    let geometry = match devices.open_reader(alloc, path, Habit::Lazy) {
        Ok(drive) => drive.geometry(),
        Err(fault) => return refuse(rt, path, fault),
    };
    let told = plan_device(alloc, geometry, aim, &form, output);
    end_tool(rt, path, told.map(|()| true), output)
}

/// Writes blocks of a drive to standard output.
fn export<R: Clock + Eprint + Files<File = fs::File> + Print, D: Device + Drop>(
    rt: &R,
    alloc: Global,
    drive: D,
    job: &ExportJob,
) -> Result<(), CopyFault> {
    let total = Cell::new(None);
    let mut output = Watched::output(io::writer(rt), rt, counted(job.progress), &total);
    let (_drive, exported) = export_device(alloc, job, &total, drive, &mut output);
    let sent = output.flush();
    exported.and(sent.or(Err(CopyFault::Export(ExportFault::Output))))
}

/// Writes blocks of standard input to a drive, which is given back.
fn import<R: Clock + Eprint + Files<File = fs::File> + Input, D: Device + Drop>(
    rt: &R,
    alloc: Global,
    drive: D,
    job: &ImportJob,
) -> (D, Result<(), CopyFault>) {
    let mut input = Watched::input(rt.reader(), rt, counted(job.progress));
    let mut written = 0;
    let (drive, taken) = import_mounted(alloc, job, drive, &mut input, &mut written);
    tell_imported(rt, alloc, &job.image, written, taken);
    (drive, taken.map(|_count| ()))
}

/// Tells how a copy ended. Why it is not whole goes to standard error.
fn end_copy<R: Eprint>(
    rt: &R,
    alloc: Global,
    job: &CopyJob,
    copied: Result<(), CopyFault>,
) -> ExitCode {
    let Err(fault) = copied else {
        return ExitCode::SUCCESS;
    };
    if let Ok(text) = disk_copies::explain(alloc, job, fault) {
        let _ = eprintln!(rt; "zonedisk: {text}");
    }
    ExitCode::FAILURE
}

/// Opens the drive, and copies blocks into it. That ends with a sync.
fn import_into<R: Clock + Eprint + Files<File = fs::File> + Input, D: Devices>(
    rt: &R,
    alloc: Global,
    devices: &D,
    job: &CopyJob,
    asked: &ImportJob,
) -> ExitCode
    ensures { D.has_way devices.now ≡ false → exit_status result ≡ 1 }
{
    match devices.open(alloc, job.image(), Habit::Lazy) {
        Ok(open) => {
            let OpenDevice {
                drive,
                mut medium,
                ..
            } = open;
            let (mut drive, imported) = import(rt, alloc, drive, asked);
            let ended = end_copy(rt, alloc, job, imported);
            if is_synced(rt, alloc, job.image(), &mut drive, &mut medium) {
                ended
            } else {
                ExitCode::FAILURE
            }
        }
        Err(fault) => refuse(rt, job.image(), fault),
    }
}

/// Copies blocks out of the drive, which is only read, or into it.
fn do_copy<R: Clock + Eprint + Files<File = fs::File> + Input + Print, D: Devices>(
    rt: &R,
    alloc: Global,
    devices: &D,
    job: &CopyJob,
) -> ExitCode
    ensures { D.has_way devices.now ≡ false → exit_status result ≡ 1 }
{
    match job {
        CopyJob::Export(asked) => match devices.open_reader(alloc, job.image(), Habit::Lazy) {
            Ok(drive) => end_copy(rt, alloc, job, export(rt, alloc, drive, asked)),
            Err(fault) => refuse(rt, job.image(), fault),
        },
        CopyJob::Import(asked) => import_into(rt, alloc, devices, job, asked),
    }
}

/// Does a job on a device, or makes a new drive in a file. A rescue may do both. The Reads of a new drive are true. The
/// job ends with the status of a fault if there is no way to it.
pub fn do_device<
    R: Clock + Eprint + Files<File = fs::File> + Input + Print,
    D: Devices,
    F: Devices,
    W: Write,
>(rt: &R, alloc: Global, devices: &D, files: &F, job: &DeviceJob, output: &mut W) -> ExitCode
where
    F::Drive: Honest,
    ensures { reaches (record { devices = D.has_way devices.now; files = F.has_way files.now }) job.now ≡ false
        → exit_status result ≡ 1 }
{
    match job {
        DeviceJob::Format { device, force } => {
            do_format(rt, alloc, devices, device, *force, output)
        }
        DeviceJob::Create { image, geometry } => {
            do_create(rt, alloc, files, image, geometry, output)
        }
        DeviceJob::Run(job) => do_run(rt, alloc, devices, job, output),
        DeviceJob::Report { device, state } => {
            do_report(rt, alloc, devices, device, *state, output)
        }
        DeviceJob::Nvme {
            device,
            explain,
            habit,
            sync,
        } => {
            let job = RawJob {
                path: device,
                explain: *explain,
                habit: *habit,
                sync: *sync,
            };
            do_nvme(rt, alloc, devices, &job, output)
        }
        DeviceJob::Nbd(job) => do_nbd(rt, alloc, devices, job),
        DeviceJob::Check(job) => do_check(rt, alloc, devices, job, output),
        DeviceJob::Info(job) => do_info(rt, alloc, devices, job, output),
        DeviceJob::Zones(job) => do_zones(rt, alloc, devices, job, output),
        DeviceJob::Plan { device, aim, form } => {
            do_plan(rt, alloc, devices, device, *aim, *form, output)
        }
        DeviceJob::Copy(job) => do_copy(rt, alloc, devices, job),
        DeviceJob::Rescue(job) => rescue_device(rt, alloc, devices, files, job),
        DeviceJob::Repair(job) => repair_device(rt, alloc, devices, job, output),
    }
}
