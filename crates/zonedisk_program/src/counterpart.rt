// Tasks on the image in a file, as jobs on a drive that stays in its file.

ghost use Rattle.std.specs.Prelude.{◌≡◌, IfErr, IfOk, None, Some};
ghost use Rattle.device_jobs.specs.declared.job.DeviceJob.TheVariants as jobs;
ghost use Rattle.asked_tasks.specs.declared.task.Task.TheVariants as tasks;
ghost use Rattle.tool_jobs.specs.declared.job.ToolJob.TheVariants as tools;
ghost use Rattle.zonedisk_program.specs.InPlace.{counterpart, lines_counterpart, plan_counterpart, tool_counterpart};
ghost use Rattle.zonedisk_program.specs.InPlace.{taking_of, zones_in};

use asked_tasks::Task;
use device_jobs::{DeviceJob, DeviceRun};
use disk_jobs::Job;
use disk_runs::Taking;
use nvme_wire::ZoneState;
use tool_jobs::{PlanJob, PlannedDrive, ToolJob, ZonesForm, ZonesJob};

/// A report of the zones of a drive: all, or those in a state.
fn report_job(device: String, state: Option<ZoneState>) -> DeviceJob
    ensures { result ≡ jobs.Report device state }
{
    DeviceJob::Report { device, state }
}

/// Which lines of a trace are taken: one that only reads is never synced.
fn taking_of(read_only: bool, sync: bool) -> Taking
    ensures { result ≡ taking_of read_only sync }
{
    if read_only {
        return Taking::Reads;
    }
    if sync { Taking::Synced } else { Taking::All }
}

/// The job of lines.
fn lines_in_place(job: Job) -> Result<DeviceJob, Task>
    ensures ok { IfOk result (λ new. lines_counterpart job ≡ Some new) }
    ensures err { IfErr result (λ left. (left ≡ tasks.Lines job) × (lines_counterpart job ≡ None)) }
{
    match job {
        Job::Run {
            image,
            blocks,
            zones,
            statistics,
            stop,
            habit,
            sync,
            read_only,
            progress,
        } => Ok(DeviceJob::Run(DeviceRun {
            device: image,
            blocks,
            zones,
            statistics,
            stop,
            habit,
            takes: taking_of(read_only, sync),
            progress,
        })),
        Job::Report { image } => Ok(report_job(image, None)),
        Job::Nvme {
            image,
            explain,
            habit,
            sync,
        } => Ok(DeviceJob::Nvme {
            device: image,
            explain,
            habit,
            sync,
        }),
        job => Err(Task::Lines(job)),
    }
}

/// The lines of the zones in a state, or another form.
fn zones_in_place(job: ZonesJob) -> DeviceJob
    ensures { result ≡ zones_in job.form job }
{
    match job.form {
        ZonesForm::Lines(state) => report_job(job.image, Some(state)),
        _ => DeviceJob::Zones(job),
    }
}

/// The plan of a drive in a file.
fn plan_in_place(job: PlanJob) -> Result<DeviceJob, Task>
    ensures ok { IfOk result (λ new. plan_counterpart job ≡ Some new) }
    ensures err { IfErr result (λ left. (left ≡ tasks.Tool (tools.Plan job)) × (plan_counterpart job ≡ None)) }
{
    let PlanJob { drive, aim, form } = job;
    match drive {
        PlannedDrive::Image(device) => Ok(DeviceJob::Plan { device, aim, form }),
        drive => Err(Task::Tool(ToolJob::Plan(PlanJob { drive, aim, form }))),
    }
}

/// A tool.
fn tool_in_place(job: ToolJob) -> Result<DeviceJob, Task>
    ensures ok { IfOk result (λ new. tool_counterpart job ≡ Some new) }
    ensures err { IfErr result (λ left. (left ≡ tasks.Tool job) × (tool_counterpart job ≡ None)) }
{
    match job {
        ToolJob::Check(job) => Ok(DeviceJob::Check(job)),
        ToolJob::Info(job) => Ok(DeviceJob::Info(job)),
        ToolJob::Plan(job) => plan_in_place(job),
        ToolJob::Zones(job) => Ok(zones_in_place(job)),
        job => Err(Task::Tool(job)),
    }
}

/// The job on a drive that stays in its file which a task on the image in that file stands for. A task that stands for
/// none is given back as it is.
pub fn in_place(task: Task) -> Result<DeviceJob, Task>
    ensures ok { IfOk result (λ job. counterpart task ≡ Some job) }
    ensures err { IfErr result (λ left. (left ≡ task) × (counterpart task ≡ None)) }
{
    match task {
        Task::Lines(job) => lines_in_place(job),
        Task::Nbd(job) => Ok(DeviceJob::Nbd(job)),
        Task::Copy(job) => Ok(DeviceJob::Copy(job)),
        Task::Tool(job) => tool_in_place(job),
        Task::Rescue(job) => Ok(DeviceJob::Rescue(job)),
        Task::Repair(job) => Ok(DeviceJob::Repair(job)),
        Task::Convert(job) => Err(Task::Convert(job)),
        Task::Device(job) => Err(Task::Device(job)),
    }
}
