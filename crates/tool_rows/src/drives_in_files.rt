// Tasks on files that begin as a drive does which stays in its file. They hold nothing else, and are made here.

use crate::device_words::words_of;
use crate::memory_devices::MemoryDevices;
use device_jobs::{Devices, NoDevices};
use drive_port::Honest;
use std::alloc::Global;
use std::fs;
use std::fs::File;
use std::process::ExitCode;
use std::rt::Files;
use std::test::Fail;
use std::time::Clock;
use zonedisk_program::{do_task, task_of};

/// Drives in memory stand for the drives in these files. `other` begins with another version, and `made` is an image
/// that a line makes.
const LINES: [&str; 21] = [
    "zonedisk report --image disk",
    "zonedisk report --image disk --state full",
    "zonedisk report --image other",
    "zonedisk report --image disk --json",
    "zonedisk report --image disk --brief",
    "zonedisk check --image disk",
    "zonedisk run --image disk --blocks 9 --zones --habit closing",
    "zonedisk run --image disk --blocks 9 --sync",
    "zonedisk run --image disk --blocks 9 --read-only",
    "zonedisk nvme --image disk --explain",
    "zonedisk nvme --image disk --sync",
    "zonedisk nbd --image other --read-only",
    "zonedisk export --image disk --count 0",
    "zonedisk rescue --image disk --to new",
    "zonedisk repair --image disk",
    "zonedisk repair --image disk --force",
    "zonedisk import --image disk",
    "zonedisk plan --image disk --blocks 9",
    "zonedisk convert --image disk --to made",
    "zonedisk convert --image made --to new",
    "zonedisk format --image disk --force --block 512 --zones 4 --size 8 --capacity 6 --transfer 4 \
     --active 2 --open 2",
];

/// Does what a line asks for. No device is reached.
fn show_task<R: Clock + Eprint + Files<File = File> + Input + Print, F: Devices>(
    rt: &R,
    alloc: Global,
    line: &str,
    files: &F,
) -> Result<(), Fail>
where
    F::Drive: Honest,
{
    let task = match task_of(alloc, &words_of(alloc, line)?) {
        Ok(task) => task,
        Err(_) => return Ok(println!(rt; "the words are refused")?),
    };
    let mut written = Vec::new(alloc);
    let ended = do_task(rt, alloc, &NoDevices, files, task, &mut written);
    print!(rt; "{}", std::str::from_utf8(&written)?)?;
    println!(rt; "{}", ended == ExitCode::SUCCESS)?;
    Ok(())
}

/// Shows how each task ends in a program without a way to such drives, and in one with a way.
pub fn show_in_place<R: Clock + Eprint + Files<File = File> + Input + Print>(
    rt: &R,
    alloc: Global,
) -> Result<(), Fail> {
    fs::write(rt, "disk", b"ZNSDRV01".as_slice())?;
    fs::write(rt, "other", b"ZNSDRV02".as_slice())?;
    for line in LINES {
        println!(rt; "{line}")?;
        show_task(rt, alloc, line, &NoDevices)?;
        show_task(rt, alloc, line, &MemoryDevices)?;
    }
    fs::remove_file(rt, "made")?;
    fs::remove_file(rt, "disk")?;
    fs::remove_file(rt, "other")?;
    Ok(())
}
