use crate::fault::ProgramFault;
use crate::input::JobInput;
use crate::job::Job;
use crate::line_problem::{LineProblem, raw_problem, trace_problem};
use crate::mounting::Mounting;
use disk_files::LONGEST_LINE;
use disk_runs::RunFault;
use job_drives::unread_note;
use std::alloc::{AllocError, Global};
use std::io::Read;
use zone_states::{Geometry, GeometryFault};
use zone_translator::{DiskFault, MountFault};

/// What the lines of a job are, as far as that explains a fault of them.
#[derive(Clone, Copy, Debug, PartialEq, Eq)]
pub struct AskedLines {
    /// Whether they are raw lines, and no lines of a trace.
    pub are_raw: bool,
    /// After how many commands the drive stops, if the job asks for that.
    pub stop: Option<u64>,
}

impl AskedLines {
    /// Those of a job.
    fn of(job: &Job) -> AskedLines {
        AskedLines {
            are_raw: matches!(job, Job::Nvme { .. } | Job::FreshRaw { .. }),
            stop: job.stop(),
        }
    }
}

/// What is wrong with a line, if it is no raw line or none of a trace.
fn problem_of(asked: AskedLines, line: &[u8], mounting: Mounting) -> Option<LineProblem> {
    match mounting.disk {
        _ if asked.are_raw => Some(raw_problem(line)),
        Some(disk) => trace_problem(line, disk.geometry.block),
        None => trace_problem(line, 0),
    }
}

/// How many bytes of a line are shown.
const SHOWN_BYTES: usize = 60;

/// The beginning of a line, if it is text.
fn shown_line(alloc: Global, line: &[u8]) -> Result<String, AllocError> {
    let shown = line.len().min(SHOWN_BYTES);
    match std::str::from_utf8(&line[..shown]) {
        Ok(text) if shown < line.len() => format!(in alloc; ", `{text}..`"),
        Ok(text) => format!(in alloc; ", `{text}`"),
        Err(_) => Ok(String::new(alloc)),
    }
}

/// Where a run ended: at a line, by its number as `fault line` counts, or before the first one.
pub fn place<R: Read + Drop>(
    alloc: Global,
    input: &mut JobInput<'_, R>,
) -> Result<String, AllocError> {
    if input.line().is_empty() {
        return String::from_str(alloc, "before the first line");
    }
    let shown = shown_line(alloc, input.line())?;
    let number = input.number();
    format!(in alloc; "at line {number}{shown}")
}

/// Where memory ran out, once a line was read.
fn explain_memory<R: Read + Drop>(
    alloc: Global,
    input: &mut JobInput<'_, R>,
) -> Result<String, AllocError> {
    if input.line().is_empty() {
        return String::from_str(alloc, "out of memory");
    }
    let place = place(alloc, input)?;
    format!(in alloc; "{place}: out of memory")
}

/// What a stop comes to that the job asks for: how many of the commands before it the mount took.
fn explain_stop(
    alloc: Global,
    asked: AskedLines,
    fault: RunFault,
    mounting: Mounting,
) -> Result<String, AllocError> {
    let taken = mounting.commands;
    match (asked.stop, fault) {
        (
            Some(commands),
            RunFault::Disk(DiskFault::Stopped) | RunFault::Mount(MountFault::Halted),
        ) => format!(in alloc; ", after {commands} commands, of which the mount took {taken}"),
        _ => Ok(String::new(alloc)),
    }
}

/// Why a job does not take the line of this number. A line in which nothing is wrong is a call of a disk, and not a
/// read: a run that only reads takes no such line.
fn explain_line(
    alloc: Global,
    number: u64,
    problem: Option<LineProblem>,
) -> Result<String, AllocError> {
    match problem {
        Some(problem) => format!(in alloc; "line {number}: {problem}"),
        None => {
            format!(in alloc; "line {number} would change the disk, and --read-only was given")
        }
    }
}

fn explain_run<R: Read + Drop>(
    alloc: Global,
    asked: AskedLines,
    fault: RunFault,
    input: &mut JobInput<'_, R>,
    mounting: Mounting,
) -> Result<String, AllocError> {
    match fault {
        RunFault::Line(number) => {
            explain_line(alloc, number, problem_of(asked, input.line(), mounting))
        }
        RunFault::Long(number) => {
            format!(in alloc; "line {number} has more than {LONGEST_LINE} bytes")
        }
        RunFault::Disk(fault) => format!(in alloc; "{}: {fault}", place(alloc, input)?),
        RunFault::Mount(fault) => format!(in alloc; "{}: {fault}", place(alloc, input)?),
        RunFault::Geometry(fault) => format!(in alloc; "{fault}"),
        RunFault::Input => String::from_str(alloc, "standard input failed"),
        RunFault::Output => String::from_str(alloc, "standard output failed"),
        RunFault::Memory => explain_memory(alloc, input),
    }
}

/// One line for people that says what a fault of lines is, without a line feed. `path` names their drive. `input` has
/// the line that was read last, and no more lines afterwards. `mounting` is what is known of the mount.
pub fn explain_lines<R: Read + Drop>(
    alloc: Global,
    path: &str,
    asked: AskedLines,
    fault: ProgramFault,
    input: &mut JobInput<'_, R>,
    mounting: Mounting,
) -> Result<String, AllocError> {
    match fault {
        ProgramFault::Run(fault) => {
            let (told, stop) = (
                explain_run(alloc, asked, fault, input, mounting)?,
                explain_stop(alloc, asked, fault, mounting)?,
            );
            format!(in alloc; "{told}{stop}")
        }
        ProgramFault::Reserve { most } => {
            format!(in alloc; "the drive has room for 1 to {most} logical blocks")
        }
        ProgramFault::Image(fault) => {
            let note = unread_note(fault);
            format!(in alloc; "{path}: {fault}{note}")
        }
        ProgramFault::File(fault) => format!(in alloc; "{path} {fault}"),
        ProgramFault::Holds(holding) => {
            format!(in alloc; "{path}: {holding}. format --force destroys that")
        }
    }
}

/// One line for people that says why a new drive cannot have a shape, without a line feed.
pub fn explain_geometry(
    alloc: Global,
    geometry: Geometry,
    fault: GeometryFault,
) -> Result<String, AllocError> {
    let Geometry { active, open, .. } = geometry;
    if fault == GeometryFault::Open && open > active {
        return format!(in alloc; "--open {open} is above --active {active}");
    }
    format!(in alloc; "{fault}")
}

/// The same for the lines of a job.
pub fn explain<R: Read + Drop>(
    alloc: Global,
    job: &Job,
    fault: ProgramFault,
    input: &mut JobInput<'_, R>,
    mounting: Mounting,
) -> Result<String, AllocError> {
    if let ProgramFault::Run(RunFault::Geometry(cause)) = fault
        && let Some(geometry) = job.geometry()
    {
        return explain_geometry(alloc, geometry, cause);
    }
    let path = job.image().unwrap_or("the file");
    explain_lines(alloc, path, AskedLines::of(job), fault, input, mounting)
}
