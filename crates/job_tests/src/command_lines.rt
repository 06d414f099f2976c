// What a command line of the program asks for, what it writes, and what is told of it.

use clap::error::ErrorKind;
use disk_jobs::{Gate, Job, JobInput, LineCount, do_job, explain, write_program_fault};
use std::alloc::Global;
use std::fs::File;
use std::process::Abort;
use std::rt::Files;
use zonedisk_program::{Task, task_of};

/// What a command line asks for whose words have one space between them.
pub fn task(rt: &impl Abort, alloc: Global, line: &str) -> Result<Task, clap::Error> {
    let mut words = Vec::new(alloc);
    for word in line.split(' ') {
        let word = String::from_str(alloc, word).expect(rt, "memory");
        words.push(word).expect(rt, "memory");
    }
    task_of(alloc, &words)
}

/// The job of a command line that has lines.
fn job(rt: &impl Abort, alloc: Global, line: &str) -> Option<Job> {
    match task(rt, alloc, line) {
        Ok(Task::Lines(job)) => Some(job),
        _ => None,
    }
}

/// How the words of a command line are refused, if they are.
pub fn refusal(rt: &impl Abort, alloc: Global, line: &str) -> Option<ErrorKind> {
    match task(rt, alloc, line) {
        Ok(_) => None,
        Err(error) => Some(error.kind()),
    }
}

/// What a command line writes, with the line of a fault, and the lines that standard error says of that.
fn answer<R: Files<File = File> + Abort>(
    rt: &R,
    alloc: Global,
    line: &str,
    lines: &[u8],
) -> (Vec<u8>, String) {
    let job = job(rt, alloc, line).expect(rt, "a job");
    let gate = Gate::open();
    let count = LineCount::new();
    let mut input = JobInput::new(alloc, &gate, &count, lines);
    let mut written = Vec::new(alloc);
    let done = do_job(rt, alloc, &job, &mut input, &mut written);
    let mut told = String::new(alloc);
    if let Some(fault) = done.fault() {
        write_program_fault(alloc, fault, &mut written).expect(rt, "memory");
    }
    for ended in [done.job, done.saved.map(|_| ())] {
        if let Err(fault) = ended {
            let text = explain(alloc, &job, fault, &mut input, done.mounting).expect(rt, "memory");
            told.push_str(&text).expect(rt, "memory");
            told.push('\n').expect(rt, "memory");
        }
    }
    (written, told)
}

/// Runs command lines one after the other, each on its input, and compares what they write.
pub fn check_written<R: Files<File = File> + Abort>(
    rt: &R,
    alloc: Global,
    cases: &[(&str, &[u8], &[u8])],
) {
    for (line, lines, output) in cases {
        let (written, _) = answer(rt, alloc, line, lines);
        assert_eq!(rt; written.as_slice(), *output);
    }
}

/// What is told of each of these command lines, on its input.
pub fn check_told<R: Files<File = File> + Abort>(
    rt: &R,
    alloc: Global,
    cases: &[(&str, &[u8], &str)],
) {
    for (line, lines, text) in cases {
        let (_, told) = answer(rt, alloc, line, lines);
        assert_eq!(rt; told.trim_end(), *text);
    }
}
