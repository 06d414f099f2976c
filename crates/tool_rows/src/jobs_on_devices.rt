// Jobs on devices, by the words that ask for them, over drives in memory in the place of real ones.

use crate::device_faults::show_faults;
use crate::device_words::words_of;
use crate::drives_in_files::show_in_place;
use crate::memory_devices::MemoryDevices;
use crate::streams::show_streams;
use device_jobs::DeviceJob;
use std::alloc::Global;
use std::fs::File;
use std::process::ExitCode;
use std::rt::Files;
use std::test::Fail;
use std::time::Clock;
use zonedisk_program::{Task, do_device, task_of};

/// Does a job on a device, with the lines that it takes.
fn show_job<R: Clock + Eprint + Files<File = File> + Input + Print>(
    rt: &R,
    alloc: Global,
    job: &DeviceJob,
    lines: &[u8],
) -> Result<(), Fail> {
    if show_streams(rt, alloc, job, lines)? {
        return Ok(());
    }
    let mut written = Vec::new(alloc);
    let ended = do_device(rt, alloc, &MemoryDevices, &MemoryDevices, job, &mut written);
    print!(rt; "{}", std::str::from_utf8(&written)?)?;
    println!(rt;
        "{}",
        if ended == ExitCode::SUCCESS {
            "done"
        } else {
            "failed"
        }
    )?;
    Ok(())
}

/// The first line of a text.
fn first_line(text: &str) -> &str {
    text.lines().next().unwrap_or("")
}

/// Why words are refused.
fn show_refusal<R: Print>(rt: &R, alloc: Global, error: clap::Error) -> Result<(), Fail> {
    let text = format!(in alloc; "{error}")?;
    println!(rt; "{}", first_line(&text))?;
    Ok(())
}

/// Shows what words ask for.
fn show_words<R: Clock + Eprint + Files<File = File> + Input + Print>(
    rt: &R,
    alloc: Global,
    line: &str,
    lines: &[u8],
) -> Result<(), Fail> {
    println!(rt; "{line}")?;
    let task = match task_of(alloc, &words_of(alloc, line)?) {
        Ok(task) => task,
        Err(error) => return show_refusal(rt, alloc, error),
    };
    match &task {
        Task::Device(job) => show_job(rt, alloc, job, lines),
        _ => Ok(println!(rt; "no job on a device")?),
    }
}

/// Does the jobs that the lines ask for, and shows what became of them.
pub fn show_jobs<R: Clock + Eprint + Files<File = File> + Input + Print>(
    rt: &R,
    alloc: Global,
    text: &str,
) -> Result<(), Fail> {
    let mut lines = Vec::new(alloc);
    for line in text.lines() {
        if line.starts_with("zonedisk ") {
            show_words(rt, alloc, line, &lines)?;
            lines.clear();
        } else {
            lines.extend_from_slice(line.as_bytes())?;
            lines.push(b'\n')?;
        }
    }
    show_faults(rt, alloc)?;
    show_in_place(rt, alloc)
}
