// Repairs on the command line: which words ask for them, what they tell, and what becomes of an image.

use crate::command_lines::{check_written, refusal, task};
use clap::error::ErrorKind;
use drive_port::Halt;
use job_drives::KeepFault;
use repair_jobs::{RepairJob, RepairJobFault, explain, moved_text, repair_fault_line};
use std::alloc::{AllocError, Global};
use std::fs;
use std::fs::File;
use std::process::{Abort, ExitCode};
use std::rt::Files;
use std::test::Fail;
use std::time::Clock;
use tail_repair::{MovedZone, RepairFault};
use zonedisk_program::{NoDevices, Task, do_task};

/// Which words of a repair are refused, and how.
const WORDS: [(&str, Option<ErrorKind>); 9] = [
    ("zonedisk repair --image a", None),
    ("zonedisk repair --force --image a", None),
    ("zonedisk repair --device a --force", None),
    ("zonedisk repair", Some(ErrorKind::MissingRequiredArgument)),
    (
        "zonedisk repair --force",
        Some(ErrorKind::MissingRequiredArgument),
    ),
    (
        "zonedisk repair --image a --device b",
        Some(ErrorKind::ArgumentConflict),
    ),
    (
        "zonedisk repair --image a --image b",
        Some(ErrorKind::ArgumentConflict),
    ),
    (
        "zonedisk repair --image a --blocks 9",
        Some(ErrorKind::UnknownArgument),
    ),
    (
        "zonedisk repair --image a --habit lazy",
        Some(ErrorKind::UnknownArgument),
    ),
];

#[test]
fn reads_the_words_of_repairs(rt: HostRuntime) {
    for (line, kind) in &WORDS {
        assert_eq!(rt; refusal(&rt, rt.alloc(), line), *kind);
    }
}

/// The job of a command line that asks for a repair.
fn repair(rt: &impl Abort, alloc: Global, line: &str) -> RepairJob {
    match task(rt, alloc, line) {
        Ok(Task::Repair(job)) => job,
        _ => panic!(rt; "no repair was asked for"),
    }
}

#[test]
fn takes_the_words_of_repairs(rt: HostRuntime) {
    let job = repair(&rt, rt.alloc(), "zonedisk repair --force --image a");
    assert_eq!(rt; job.image.as_str(), "a");
    assert!(rt; job.force);
    assert!(rt; !repair(&rt, rt.alloc(), "zonedisk repair --image a").force);
}

/// What is told of zones that were repaired.
const MOVED: [(u32, Option<u32>, &str); 4] = [
    (
        12,
        Some(7),
        "zone 4: 12 blocks of batches were moved to zone 7, and the zone was reset",
    ),
    (
        1,
        Some(0),
        "zone 4: 1 block of batches was moved to zone 0, and the zone was reset",
    ),
    (
        0,
        None,
        "zone 4: there was no batch, and the zone was reset",
    ),
    (
        12,
        None,
        "zone 4: only zeros were foreign, and the zone was finished",
    ),
];

#[test]
fn tells_what_became_of_zones(rt: HostRuntime) -> Result<(), Fail> {
    for (blocks, into, text) in &MOVED {
        let moved = MovedZone {
            zone: 4,
            blocks: *blocks,
            into: *into,
        };
        assert_eq!(rt; moved_text(rt.alloc(), moved)?.as_str(), *text);
    }
    Ok(())
}

/// The line of each fault, and what is told of it.
const FAULTS: [(RepairFault, &str, &str); 8] = [
    (
        RepairFault::Limits,
        "fault repair 1 Limits\n",
        "a: the geometry of the drive is out of range",
    ),
    (
        RepairFault::Unusable(3),
        "fault repair 2 Unusable 3\n",
        "a: zone 3 is Read Only or Offline: zonedisk rescue reads what can be read",
    ),
    (
        RepairFault::Unsound(3),
        "fault repair 3 Unsound 3\n",
        "a: zone 3 has batches that no disk writes: zonedisk rescue reads what can be read",
    ),
    (
        RepairFault::Behind(3, 14),
        "fault repair 4 Behind 3 14\n",
        "a: zone 3 has a header at block 14, behind blocks that are no batch: a repair would lose that batch, and \
         zonedisk rescue reads it",
    ),
    (
        RepairFault::NoEmptyZone,
        "fault repair 5 NoEmptyZone\n",
        "a: no zone is Empty: the batches of a zone have no place to go to",
    ),
    (
        RepairFault::Halted(Halt::Stopped),
        "fault repair 6 Halted\n",
        "a: the device has stopped: the same repair goes on where this one ended",
    ),
    (
        RepairFault::Halted(Halt::Memory),
        "fault repair 7 OutOfMemory\n",
        "a: out of memory: the same repair goes on where this one ended",
    ),
    (
        RepairFault::Unfinished,
        "fault repair 8 Unfinished\n",
        "a: the drive did not do what it was asked: the same repair goes on where this one ended",
    ),
];

#[test]
fn tells_faults_of_repairs(rt: HostRuntime) -> Result<(), Fail> {
    let alloc = rt.alloc();
    let job = repair(&rt, alloc, "zonedisk repair --image a");
    for (fault, line, text) in &FAULTS {
        assert_eq!(rt;
            repair_fault_line(alloc, *fault)?.as_slice(),
            line.as_bytes()
        );
        let told = explain(alloc, &job, RepairJobFault::Repair(*fault))?;
        assert_eq!(rt; told.as_str(), *text);
    }
    let told = explain(alloc, &job, RepairJobFault::File(KeepFault::Memory))?;
    assert_eq!(rt; told.as_str(), "out of memory");
    let told = explain(alloc, &job, RepairJobFault::Output)?;
    assert_eq!(rt; told.as_str(), "standard output failed");
    Ok(())
}

const FORMAT: &str =
    "zonedisk format --image torn.image --block 512 --zones 4 --size 16 --capacity 12 --transfer 4 \
     --active 2 --open 2";

const RUN: &str = "zonedisk run --image torn.image --blocks 9";

const NVME: &str = "zonedisk nvme --image torn.image";

const LIST: &str = "zonedisk repair --image torn.image";

const REPAIR: &str = "zonedisk repair --image torn.image --force";

/// The front of the line of an Append of one block to zone 0, and of a Finish of zones 1, 2 and 3.
const APPEND: &[u8] =
    b"7d000100010000000000000000000000000000000000000000000000000000000000000000000000\
      000000000000000000000000000000000000000000000000 ";

const FINISHES: &[u8] =
    b"79000100010000000000000000000000000000000000000000000000000000000000000000000000\
      100000000000000000000000020000000000000000000000\n\
      79000100010000000000000000000000000000000000000000000000000000000000000000000000\
      200000000000000000000000020000000000000000000000\n\
      79000100010000000000000000000000000000000000000000000000000000000000000000000000\
      300000000000000000000000020000000000000000000000\n";

/// The line of an Append of a block that begins with these bytes, and is zeros behind them.
fn append(alloc: Global, front: &[u8]) -> Result<Vec<u8>, AllocError> {
    let mut block = Vec::from_slice(alloc, front)?;
    block.resize(512, 0)?;
    let mut line = Vec::from_slice(alloc, APPEND)?;
    for byte in block.as_slice() {
        let byte = *byte;
        let digits = format!(in alloc; "{byte:02x}")?;
        line.extend_from_slice(digits.as_bytes())?;
    }
    line.push(b'\n')?;
    Ok(line)
}

/// The header of a batch of one record, of block 7.
const HEADER: &[u8] =
    b"ZLOGBAT1\x02\0\x01\0\x01\0\0\0\x64\0\0\0\0\0\0\0\0\0\0\0\x09\0\0\0\x07\0\0\0\0\0\0\0";

/// What a task writes, and whether it ends well, in a program without a way to devices or to drives that stay in their
/// files.
fn done<R: Clock + Eprint + Files<File = File> + Input + Print + Abort>(
    rt: &R,
    alloc: Global,
    line: &str,
) -> (Vec<u8>, bool) {
    let Ok(task) = task(rt, alloc, line) else {
        panic!(rt; "the words are refused");
    };
    let mut written = Vec::new(alloc);
    let ended = do_task(rt, alloc, &NoDevices, &NoDevices, task, &mut written);
    (written, ended == ExitCode::SUCCESS)
}

/// Does tasks one after the other, and compares what they write, and whether they end well.
fn check_done<R: Clock + Eprint + Files<File = File> + Input + Print + Abort>(
    rt: &R,
    alloc: Global,
    cases: &[(&str, &[u8], bool)],
) {
    for (line, output, well) in cases {
        let (written, ended) = done(rt, alloc, line);
        assert_eq!(rt; written.as_slice(), *output);
        assert_eq!(rt; ended, *well);
    }
}

/// An image of a disk of nine blocks, the first three of which are `a` all over. Then a block that is no batch stands
/// in its zone 0, behind a header and three blocks.
fn tear_image<R: Files<File = File> + Abort>(rt: &R, alloc: Global) -> Result<(), Fail> {
    check_written(rt, alloc, &[(FORMAT, b"", b"ok\n")]);
    check_written(rt, alloc, &[(RUN, b"fill 0 3 61\n", b"ok\n")]);
    let reply: &[u8] = b"04000000000000000000000001000000\n";
    check_written(rt, alloc, &[(NVME, &append(alloc, b"?")?, reply)]);
    Ok(())
}

const READ: (&str, &[u8], &[u8]) = (RUN, b"read 2 2\n", b"2 61*512\n3 00*512\nok\n");

#[test]
fn repairs_an_image(rt: HostRuntime) -> Result<(), Fail> {
    let alloc = rt.alloc();
    tear_image(&rt, alloc)?;
    let torn = fs::read(&rt, "torn.image")?;
    check_done(
        &rt,
        alloc,
        &[(
            LIST,
            b"zone 0: 4 blocks of batches, then something foreign\n",
            false,
        )],
    );
    assert!(rt; fs::read(&rt, "torn.image")? == torn);
    check_done(
        &rt,
        alloc,
        &[
            (REPAIR, b"the drive can be mounted\n", true),
            (LIST, b"nothing to repair\n", true),
            (REPAIR, b"the drive can be mounted\n", true),
        ],
    );
    check_written(&rt, alloc, &[READ]);
    fs::remove_file(&rt, "torn.image")?;
    Ok(())
}

#[test]
fn loses_no_batch_behind(rt: HostRuntime) -> Result<(), Fail> {
    let alloc = rt.alloc();
    tear_image(&rt, alloc)?;
    let reply: &[u8] = b"05000000000000000000000001000000\n";
    check_written(&rt, alloc, &[(NVME, &append(alloc, HEADER)?, reply)]);
    let torn = fs::read(&rt, "torn.image")?;
    let told: &[u8] = b"fault repair 4 Behind 0 5\n";
    check_done(&rt, alloc, &[(LIST, told, false), (REPAIR, told, false)]);
    assert!(rt; fs::read(&rt, "torn.image")? == torn);
    fs::remove_file(&rt, "torn.image")?;
    Ok(())
}

#[test]
fn needs_an_empty_zone(rt: HostRuntime) -> Result<(), Fail> {
    let alloc = rt.alloc();
    tear_image(&rt, alloc)?;
    let replies: &[u8] = b"00000000000000000000000001000000\n\
        00000000000000000000000001000000\n\
        00000000000000000000000001000000\n";
    check_written(&rt, alloc, &[(NVME, FINISHES, replies)]);
    let torn = fs::read(&rt, "torn.image")?;
    check_done(
        &rt,
        alloc,
        &[
            (
                LIST,
                b"zone 0: 4 blocks of batches, then something foreign\n",
                false,
            ),
            (REPAIR, b"fault repair 5 NoEmptyZone\n", false),
        ],
    );
    assert!(rt; fs::read(&rt, "torn.image")? == torn);
    fs::remove_file(&rt, "torn.image")?;
    Ok(())
}

#[test]
fn repairs_no_other_file(rt: HostRuntime) -> Result<(), Fail> {
    let alloc = rt.alloc();
    fs::write(&rt, "torn.image", b"kept".as_slice())?;
    let told: &[u8] = b"fault image 7 Short\n";
    check_done(&rt, alloc, &[(LIST, told, false), (REPAIR, told, false)]);
    assert_eq!(rt; fs::read(&rt, "torn.image")?.as_slice(), b"kept".as_slice());
    fs::remove_file(&rt, "torn.image")?;
    let told: &[u8] = b"fault file\n";
    check_done(&rt, alloc, &[(LIST, told, false), (REPAIR, told, false)]);
    check_done(
        &rt,
        alloc,
        &[(
            "zonedisk repair --device torn.image",
            b"fault device\n",
            false,
        )],
    );
    Ok(())
}
