// Jobs on drives in files, and those that have no drive.

ghost use Rattle.std.specs.Prelude.{◌≡◌, OnErr};
ghost use Rattle.std.specs.Process.{exit_status};
ghost use Rattle.zonedisk_program.specs.Ends.{EndsSaved};

use disk_copies::{CopyFault, CopyJob, do_export, do_import, written_text};
use disk_jobs::{
    Counted, DiskSize, Explained, Gate, Job, JobInput, LineCount, LinesDone, ProgramFault, Saved,
    Watched, do_job, explain, explain_geometry, is_terminal, restored_note, size_notes,
    write_program_fault,
};
use nbd_jobs::{
    Forgotten, NbdFault, NbdJob, SessionDone, SessionTold, do_nbd_job, failed_note, forgotten_note,
};
use std::alloc::{AllocError, Global};
use std::cell::Cell;
use std::io::{Read, Write};
use std::process::ExitCode;
use std::rt::Files;
use std::time::Clock;
use std::{fs, io};
use tool_jobs::{PlanJob, PlannedDrive, ToolFault, ToolJob, do_tool_job};
use write_plan::PlanFault;

/// Writes the line of a fault, and gives the exit status of one, also where the line can't be written.
pub(crate) fn fail<W: Write>(alloc: Global, fault: ProgramFault, output: &mut W) -> ExitCode {
    let _ = write_program_fault(alloc, fault, output);
    let _ = output.flush();
    ExitCode::FAILURE
}

/// Says on standard error what people should know of the size of a disk.
pub(crate) fn tell_size<R: Eprint>(
    rt: &R,
    alloc: Global,
    path: &str,
    asked: Option<u64>,
    disk: Option<DiskSize>,
) {
    if let Some(disk) = disk
        && let Ok(notes) = size_notes(alloc, path, asked, disk)
    {
        let _ = eprint!(rt; "{notes}");
    }
}

/// Says on standard error where a file was saved that had been removed.
pub(crate) fn tell_saved<R: Eprint>(rt: &R, alloc: Global, path: &str, saved: Saved) {
    if saved.is_restored
        && let Ok(note) = restored_note(alloc, path)
    {
        let _ = eprintln!(rt; "zonedisk: {note}");
    }
}

/// Says on standard error why a job or a save failed, a line for each.
fn tell<R: Eprint, I: Read + Drop>(
    rt: &R,
    alloc: Global,
    job: &Job,
    done: LinesDone,
    input: &mut JobInput<'_, I>,
) {
    for ended in [done.job, done.saved.map(|_| ())] {
        if let Err(fault) = ended
            && let Ok(text) = explain(alloc, job, fault, input, done.mounting)
        {
            let _ = eprintln!(rt; "zonedisk: {text}");
        }
    }
}

/// Does a job whose lines are on standard input.
pub(crate) fn do_lines<R: Clock + Eprint + Files<File = fs::File> + Input, W: Write>(
    rt: &R,
    alloc: Global,
    job: &Job,
    output: &mut W,
) -> ExitCode {
    let gate = Gate::open();
    let counted = job.shows_progress().then_some(Counted::Lines);
    let count = LineCount::new();
    let reader = Watched::input(rt.reader(), rt, counted);
    let mut input = JobInput::new(alloc, &gate, &count, reader);
    let done = if job.explains() {
        do_job(rt, alloc, job, &mut input, &mut Explained::new(rt, output))
    } else {
        do_job(rt, alloc, job, &mut input, output)
    };
    if let Some(path) = job.image() {
        tell_size(rt, alloc, path, job.blocks(), done.mounting.disk);
        tell_saved(rt, alloc, path, done.saved.unwrap_or(Saved::IN_PLACE));
    }
    let Some(fault) = done.fault() else {
        return ExitCode::SUCCESS;
    };
    let code = fail(alloc, fault, output);
    tell(rt, alloc, job, done, &mut input);
    code
}

/// Says on standard error what a disk forgot. It ends as a fault if the disk did not apply blocks, and had not stopped.
fn tell_forgotten<R: Eprint>(
    rt: &R,
    alloc: Global,
    job: &NbdJob,
    forgotten: Option<Forgotten>,
) -> ExitCode {
    let Some(forgotten) = forgotten else {
        return ExitCode::SUCCESS;
    };
    if let Ok(note) = forgotten_note(alloc, job, &forgotten) {
        let path = job.image.as_str();
        let _ = eprintln!(rt; "zonedisk: {path}: {note}");
    }
    match forgotten.fault() {
        None => ExitCode::SUCCESS,
        Some(_) => ExitCode::FAILURE,
    }
}

/// Says on standard error how many requests failed by chance, if some were to.
fn tell_failed<R: Eprint>(rt: &R, alloc: Global, job: &NbdJob, failed: Option<u64>) {
    let Some(failed) = failed else {
        return;
    };
    if let Ok(note) = failed_note(alloc, failed) {
        let path = job.image.as_str();
        let _ = eprintln!(rt; "zonedisk: {path}: {note}");
    }
}

/// Says on standard error why a drive is not served, or not saved.
fn tell_fault<R: Eprint>(rt: &R, alloc: Global, job: &NbdJob, fault: NbdFault) -> ExitCode
    ensures { exit_status result ≡ 1 }
{
    if let Ok(text) = nbd_jobs::explain(alloc, job, fault) {
        let _ = eprintln!(rt; "zonedisk: {text}");
    }
    ExitCode::FAILURE
}

/// Says on standard error what is told of a session.
pub(crate) fn tell_session<R: Eprint>(
    rt: &R,
    alloc: Global,
    job: &NbdJob,
    told: SessionTold,
) -> ExitCode
    ensures { OnErr told.result (exit_status result ≡ 1) }
{
    if let Some(text) = &told.statistics {
        let _ = eprint!(rt; "{text}");
    }
    let forgot = tell_forgotten(rt, alloc, job, told.forgotten);
    tell_failed(rt, alloc, job, told.failed);
    match told.result {
        Ok(()) => forgot,
        Err(fault) => tell_fault(rt, alloc, job, fault),
    }
}

/// Tells on standard error how a session ended, and how its drive was saved.
fn end_session<R: Eprint>(rt: &R, alloc: Global, job: &NbdJob, done: SessionDone) -> ExitCode
    ensures { EndsSaved done.told.result done.saved result }
{
    let SessionDone { told, saved } = done;
    tell_size(rt, alloc, &job.image, job.blocks, told.disk);
    tell_saved(rt, alloc, &job.image, saved.unwrap_or(Saved::IN_PLACE));
    let ended = tell_session(rt, alloc, job, told);
    match saved {
        Ok(_) => ended,
        Err(fault) => tell_fault(rt, alloc, job, fault),
    }
}

/// Says on standard error what a session waits for, if a terminal is where a client should be.
pub(crate) fn tell_terminal<R: Eprint + Files<File = fs::File>>(rt: &R) {
    if is_terminal(rt, "/dev/stdin") {
        let _ = eprintln!(rt;
            "zonedisk: nbd waits for a client on standard input, and answers it on standard output: let a client \
            start it, as `nbdfuse disk --command zonedisk nbd --image P`"
        );
    }
}

/// Serves a drive on the standard streams. What people are told goes to standard error.
pub(crate) fn do_nbd<R: Eprint + Files<File = fs::File> + Input, W: Write>(
    rt: &R,
    alloc: Global,
    job: &NbdJob,
    output: &mut W,
) -> ExitCode {
    tell_terminal(rt);
    let done = do_nbd_job(rt, alloc, job, rt.reader(), output);
    end_session(rt, alloc, job, done)
}

/// What is counted of a copy, if it is shown how far it is.
pub(crate) fn counted(progress: bool) -> Option<Counted> {
    progress.then_some(Counted::Mebibytes)
}

/// Says on standard error how many blocks were written, also before a fault.
pub(crate) fn tell_imported<R: Eprint>(
    rt: &R,
    alloc: Global,
    path: &str,
    written: u64,
    taken: Result<u64, CopyFault>,
) {
    if let Ok(Some(text)) = written_text(alloc, path, written, taken) {
        let _ = eprintln!(rt; "zonedisk: {text}");
    }
}

/// Copies blocks out of a drive to standard output, or from standard input into a drive. Why a copy is not whole goes
/// to standard error.
pub(crate) fn copy<R: Clock + Eprint + Files<File = fs::File> + Input + Print>(
    rt: &R,
    alloc: Global,
    job: &CopyJob,
) -> ExitCode {
    let ends = match job {
        CopyJob::Export(job) => {
            let total = Cell::new(None);
            let output = Watched::output(io::writer(rt), rt, counted(job.progress), &total);
            [do_export(rt, alloc, job, &total, output), Ok(())]
        }
        CopyJob::Import(job) => {
            let input = Watched::input(rt.reader(), rt, counted(job.progress));
            let imported = do_import(rt, alloc, job, input);
            tell_saved(
                rt,
                alloc,
                &job.image,
                imported.saved.unwrap_or(Saved::IN_PLACE),
            );
            tell_imported(rt, alloc, &job.image, imported.written, imported.taken);
            [imported.taken.map(|_| ()), imported.saved.map(|_| ())]
        }
    };
    let mut code = ExitCode::SUCCESS;
    for ended in ends {
        if let Err(fault) = ended {
            code = ExitCode::FAILURE;
            if let Ok(text) = disk_copies::explain(alloc, job, fault) {
                let _ = eprintln!(rt; "zonedisk: {text}");
            }
        }
    }
    code
}

/// Why a tool tells nothing. A shape that is out of range is told by its options.
fn tool_text(alloc: Global, job: &ToolJob, fault: ToolFault) -> Result<String, AllocError> {
    match (job, fault) {
        (
            ToolJob::Plan(
                PlanJob {
                    drive: PlannedDrive::Shape(geometry),
                    ..
                },
            ),
            ToolFault::Plan(PlanFault::Limits(fault)),
        ) => explain_geometry(alloc, *geometry, fault),
        (_, fault) => tool_jobs::explain(alloc, job, fault),
    }
}

/// Does what a tool is asked for. Why it tells nothing goes to standard error, and what else is to be known.
pub(crate) fn use_tool<R: Eprint + Files<File = fs::File>, W: Write>(
    rt: &R,
    alloc: Global,
    job: &ToolJob,
    output: &mut W,
) -> ExitCode {
    match do_tool_job(rt, alloc, job, output) {
        Ok(true) => {
            if let Ok(Some(note)) = tool_jobs::tool_note(alloc, job) {
                let _ = eprintln!(rt; "zonedisk: {note}");
            }
            ExitCode::SUCCESS
        }
        Ok(false) => ExitCode::FAILURE,
        Err(fault) => {
            if let Ok(text) = tool_text(alloc, job, fault) {
                let _ = eprintln!(rt; "zonedisk: {text}");
            }
            ExitCode::FAILURE
        }
    }
}
