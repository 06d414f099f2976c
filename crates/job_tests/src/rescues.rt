// Rescues on the command line: which words ask for them, what they give of an image that is broken in part, what they
// tell of it, and how they end.

use crate::command_lines::{check_written, refusal, task};
use clap::error::ErrorKind;
use disk_copies::{CopyFault, CopyJob};
use drive_rescue::{BlockRange, RescueFault, Rescued};
use rescue_jobs::{
    ListFile, RescueJob, RescueJobFault, do_rescue, explain, is_whole, lists_json, lists_text,
};
use std::alloc::{AllocError, Global};
use std::cell::Cell;
use std::fs;
use std::fs::File;
use std::process::{Abort, ExitCode};
use std::rt::Files;
use std::test::Fail;
use std::time::Clock;
use zonedisk_program::{NoDevices, Task, do_export, do_task};

/// Which words of a rescue are refused, and how.
const WORDS: [(&str, Option<ErrorKind>); 13] = [
    ("zonedisk rescue --image a", None),
    (
        "zonedisk rescue --image a --blocks 9 --json b --progress",
        None,
    ),
    ("zonedisk rescue --device a --to b --json c", None),
    ("zonedisk rescue", Some(ErrorKind::MissingRequiredArgument)),
    (
        "zonedisk rescue --to b",
        Some(ErrorKind::MissingRequiredArgument),
    ),
    (
        "zonedisk rescue --image a --device b",
        Some(ErrorKind::ArgumentConflict),
    ),
    (
        "zonedisk rescue --image a --to b --progress",
        Some(ErrorKind::ArgumentConflict),
    ),
    (
        "zonedisk rescue --image a --image b",
        Some(ErrorKind::ArgumentConflict),
    ),
    (
        "zonedisk rescue --image a --blocks x",
        Some(ErrorKind::ValueValidation),
    ),
    (
        "zonedisk rescue --image a --blocks 9223372036854775808",
        Some(ErrorKind::ValueValidation),
    ),
    (
        "zonedisk rescue --image a --to",
        Some(ErrorKind::InvalidValue),
    ),
    (
        "zonedisk rescue --image a --habit lazy",
        Some(ErrorKind::UnknownArgument),
    ),
    (
        "zonedisk rescue --image a --read-only",
        Some(ErrorKind::UnknownArgument),
    ),
];

#[test]
fn reads_the_words_of_rescues(rt: HostRuntime) {
    for (line, kind) in &WORDS {
        assert_eq!(rt; refusal(&rt, rt.alloc(), line), *kind);
    }
}

/// The job of a command line that asks for a rescue.
fn rescue(rt: &impl Abort, alloc: Global, line: &str) -> RescueJob {
    match task(rt, alloc, line) {
        Ok(Task::Rescue(job)) => job,
        _ => panic!(rt; "no rescue was asked for"),
    }
}

#[test]
fn takes_the_words_of_rescues(rt: HostRuntime) {
    let job = rescue(
        &rt,
        rt.alloc(),
        "zonedisk rescue --json c --to b --blocks 9 --image a",
    );
    assert_eq!(rt; job.image.as_str(), "a");
    assert_eq!(rt; job.blocks, Some(9));
    assert!(rt; matches!(&job.to, Some(to) if to.as_str() == "b"));
    assert!(rt; matches!(&job.json, Some(json) if json.as_str() == "c"));
    assert!(rt; !job.progress);
    let job = rescue(&rt, rt.alloc(), "zonedisk rescue --image a --progress");
    assert!(rt; job.progress && job.blocks.is_none() && job.to.is_none() && job.json.is_none());
}

/// A list of ranges, by their first blocks and their counts.
fn ranges(alloc: Global, pairs: &[(u32, u32)]) -> Result<Vec<BlockRange>, AllocError> {
    let mut list = Vec::new(alloc);
    for (first, count) in pairs {
        list.push(BlockRange {
            first: *first,
            count: *count,
        })?;
    }
    Ok(list)
}

/// What was given of a disk of five blocks.
fn given(alloc: Global, lost: &[(u32, u32)], older: &[(u32, u32)]) -> Result<Rescued, AllocError> {
    Ok(Rescued {
        blocks: 5,
        lost: ranges(alloc, lost)?,
        older: ranges(alloc, older)?,
    })
}

const LISTS: &str = "5 blocks were given
lost, given as zeros: block 1
lost, given as zeros: blocks 3 to 4
perhaps older than it should be: block 4
";

const LISTS_JSON: &str = "{
  \"blocks\": 5,
  \"lost\": [
    {
      \"count\": 1,
      \"first\": 1
    },
    {
      \"count\": 2,
      \"first\": 3
    }
  ],
  \"older\": [
    {
      \"count\": 1,
      \"first\": 4
    }
  ]
}";

#[test]
fn tells_what_is_missing(rt: HostRuntime) -> Result<(), Fail> {
    let alloc = rt.alloc();
    let rescued = given(alloc, &[(1, 1), (3, 2)], &[(4, 1)])?;
    assert_eq!(rt; lists_text(alloc, &rescued)?.as_str(), LISTS);
    assert_eq!(rt; lists_json(alloc, &rescued)?.as_str(), LISTS_JSON);
    assert!(rt; !is_whole(&rescued));
    assert!(rt; !is_whole(&given(alloc, &[(0, 5)], &[])?));
    assert!(rt; !is_whole(&given(alloc, &[], &[(0, 1)])?));
    let whole = given(alloc, &[], &[])?;
    assert!(rt; is_whole(&whole));
    assert_eq!(rt;
        lists_text(alloc, &whole)?.as_str(),
        "5 blocks were given\n"
    );
    Ok(())
}

/// How a task ends in a program without a way to devices or to drives that stay in their files.
fn ends_well<R: Clock + Eprint + Files<File = File> + Input + Print + Abort>(
    rt: &R,
    alloc: Global,
    line: &str,
) -> bool {
    let Ok(task) = task(rt, alloc, line) else {
        panic!(rt; "the words are refused");
    };
    let mut written = Vec::new(alloc);
    let ended = do_task(rt, alloc, &NoDevices, &NoDevices, task, &mut written);
    assert!(rt; written.is_empty());
    ended == ExitCode::SUCCESS
}

/// What an export writes.
fn exported<R: Files<File = File> + Abort>(
    rt: &R,
    alloc: Global,
    line: &str,
) -> (Vec<u8>, Result<(), CopyFault>) {
    let Ok(Task::Copy(CopyJob::Export(job))) = task(rt, alloc, line) else {
        panic!(rt; "no export was asked for");
    };
    let mut written = Vec::new(alloc);
    let done = do_export(rt, alloc, &job, &Cell::new(None), &mut written);
    (written, done)
}

/// What a rescue writes to standard output.
fn rescued<R: Files<File = File> + Abort>(
    rt: &R,
    alloc: Global,
    line: &str,
) -> (Vec<u8>, Result<Rescued, RescueJobFault>) {
    let job = rescue(rt, alloc, line);
    let mut written = Vec::new(alloc);
    let done = do_rescue(rt, alloc, &job, &Cell::new(None), &mut written);
    (written, done)
}

/// Whether a rescue that was done tells this.
fn tells(rt: &impl Abort, alloc: Global, done: Result<Rescued, RescueJobFault>, text: &str) {
    let Ok(rescued) = done else {
        panic!(rt; "the rescue failed");
    };
    let told = lists_text(alloc, &rescued).expect(rt, "memory");
    assert_eq!(rt; told.as_str(), text);
}

/// Blocks of 512 bytes, each of which has one of these bytes all over.
fn blocks(alloc: Global, bytes: &[u8]) -> Result<Vec<u8>, AllocError> {
    let mut all = Vec::new(alloc);
    for byte in bytes {
        let block = [*byte; 512];
        all.extend_from_slice(&block)?;
    }
    Ok(all)
}

const FORMAT: &str =
    "zonedisk format --image broken.image --block 512 --zones 4 --size 16 --capacity 12 --transfer 4 \
     --active 2 --open 2";

const RUN: &str = "zonedisk run --image broken.image --blocks 9";

const NVME: &str = "zonedisk nvme --image broken.image";

const EXPORT: &str = "zonedisk export --image broken.image";

const RESCUE: &str = "zonedisk rescue --image broken.image";

/// The front of the line of an Append to zone 0: of one block, and of two.
const APPEND_ONE: &[u8] =
    b"7d000100010000000000000000000000000000000000000000000000000000000000000000000000\
      000000000000000000000000000000000000000000000000 ";

const APPEND_TWO: &[u8] =
    b"7d000100010000000000000000000000000000000000000000000000000000000000000000000000\
      000000000000000001000000000000000000000000000000 ";

/// A line of an Append with its data in hexadecimal digits.
fn append(alloc: Global, front: &[u8], bytes: &[u8]) -> Result<Vec<u8>, AllocError> {
    let mut line = Vec::from_slice(alloc, front)?;
    for byte in bytes {
        let byte = *byte;
        let digits = format!(in alloc; "{byte:02x}")?;
        line.extend_from_slice(digits.as_bytes())?;
    }
    line.push(b'\n')?;
    Ok(line)
}

/// A batch of sequence 100 that writes block 7 of a disk of nine blocks: its header, and a block of `b`.
fn later_batch(alloc: Global) -> Result<Vec<u8>, AllocError> {
    let mut batch = Vec::from_slice(alloc, b"ZLOGBAT1\x02\0\x01\0\x01\0\0\0\x64\0\0\0\0\0\0\0")?;
    batch.extend_from_slice(b"\0\0\0\0\x09\0\0\0\x07\0\0\0\0\0\0\0")?;
    batch.resize(512, 0)?;
    batch.resize(1024, b'b')?;
    Ok(batch)
}

/// Nothing bounds what a gap hides that no batch follows.
const ALL_OLDER: &str = "9 blocks were given
perhaps older than it should be: blocks 0 to 8
";

/// The batch of sequence 100 bounds it: only its own block is as new.
const SOME_OLDER: &str = "9 blocks were given
perhaps older than it should be: blocks 0 to 6
perhaps older than it should be: block 8
";

const SOME_OLDER_JSON: &[u8] = b"{
  \"blocks\": 9,
  \"lost\": [],
  \"older\": [
    {
      \"count\": 7,
      \"first\": 0
    },
    {
      \"count\": 1,
      \"first\": 8
    }
  ]
}";

/// An image of a disk of nine blocks, the first three of which are `a` all over. Then a block that is no batch stands
/// in its zone 0, behind a header and three blocks.
fn break_image<R: Files<File = File> + Abort>(rt: &R, alloc: Global) -> Result<(), Fail> {
    check_written(rt, alloc, &[(FORMAT, b"", b"ok\n")]);
    check_written(rt, alloc, &[(RUN, b"fill 0 3 61\n", b"ok\n")]);
    let (before, done) = exported(rt, alloc, EXPORT);
    assert!(rt; done.is_ok());
    assert!(rt; before == blocks(alloc, b"aaa\0\0\0\0\0\0")?);
    let line = append(alloc, APPEND_ONE, &blocks(alloc, b"?")?)?;
    let reply: &[u8] = b"04000000000000000000000001000000\n";
    check_written(rt, alloc, &[(NVME, &line, reply)]);
    let (nothing, done) = exported(rt, alloc, EXPORT);
    assert!(rt; nothing.is_empty() && matches!(done, Err(CopyFault::Mount(_))));
    Ok(())
}

/// A batch follows that block.
fn go_on<R: Files<File = File> + Abort>(rt: &R, alloc: Global) -> Result<(), Fail> {
    let line = append(alloc, APPEND_TWO, &later_batch(alloc)?)?;
    let reply: &[u8] = b"05000000000000000000000001000000\n";
    check_written(rt, alloc, &[(NVME, &line, reply)]);
    Ok(())
}

#[test]
fn gives_what_an_export_gave_before(rt: HostRuntime) -> Result<(), Fail> {
    let alloc = rt.alloc();
    break_image(&rt, alloc)?;
    let broken = fs::read(&rt, "broken.image")?;
    let (written, done) = rescued(&rt, alloc, RESCUE);
    assert!(rt; written == blocks(alloc, b"aaa\0\0\0\0\0\0")?);
    tells(&rt, alloc, done, ALL_OLDER);
    assert!(rt; fs::read(&rt, "broken.image")? == broken);
    go_on(&rt, alloc)?;
    let (written, done) = rescued(&rt, alloc, RESCUE);
    assert!(rt; written == blocks(alloc, b"aaa\0\0\0\0b\0")?);
    tells(&rt, alloc, done, SOME_OLDER);
    fs::remove_file(&rt, "broken.image")?;
    Ok(())
}

const TO: &str = "zonedisk rescue --image broken.image --to saved.image --json lists.json";

/// The disk on the new drive.
const READ: (&str, &[u8], &[u8]) = (
    "zonedisk run --image saved.image --blocks 9",
    b"read 0 9\n",
    b"0 61*512\n1 61*512\n2 61*512\n3 00*512\n4 00*512\n5 00*512\n6 00*512\n7 62*512\n8 00*512\nok\n",
);

#[test]
fn gives_a_new_drive(rt: HostRuntime) -> Result<(), Fail> {
    let alloc = rt.alloc();
    break_image(&rt, alloc)?;
    go_on(&rt, alloc)?;
    assert!(rt; !ends_well(&rt, alloc, TO));
    assert!(rt; fs::read(&rt, "lists.json")?.as_slice() == SOME_OLDER_JSON);
    check_written(&rt, alloc, &[READ]);
    let (written, done) = exported(&rt, alloc, "zonedisk export --image saved.image");
    assert!(rt; done.is_ok());
    assert!(rt; written == blocks(alloc, b"aaa\0\0\0\0b\0")?);
    // Nothing is missing of the new drive.
    let again = "zonedisk rescue --image saved.image --to again.image";
    assert!(rt; ends_well(&rt, alloc, again));
    assert!(rt; !ends_well(&rt, alloc, again));
    for path in ["broken.image", "saved.image", "again.image", "lists.json"] {
        fs::remove_file(&rt, path)?;
    }
    Ok(())
}

const FORMAT_FRESH: &str =
    "zonedisk format --image fresh.image --block 512 --zones 4 --size 8 --capacity 6 --transfer 4 \
     --active 2 --open 2";

const FRESH: &str = "zonedisk rescue --image fresh.image";

const NO_SIZE: &str =
    "fresh.image: no header that was found says how many blocks the disk has: --blocks says it";

#[test]
fn gives_no_disk_without_a_size(rt: HostRuntime) -> Result<(), Fail> {
    let alloc = rt.alloc();
    check_written(&rt, alloc, &[(FORMAT_FRESH, b"", b"ok\n")]);
    assert!(rt; !ends_well(&rt, alloc, FRESH));
    let (written, done) = rescued(&rt, alloc, FRESH);
    assert!(rt; written.is_empty() && matches!(done, Err(RescueJobFault::NoSize)));
    let told = explain(alloc, &rescue(&rt, alloc, FRESH), RescueJobFault::NoSize)?;
    assert_eq!(rt; told.as_str(), NO_SIZE);
    let (written, done) = rescued(&rt, alloc, "zonedisk rescue --image fresh.image --blocks 2");
    assert!(rt; written == blocks(alloc, b"\0\0")?);
    tells(&rt, alloc, done, "2 blocks were given\n");
    let many = "zonedisk rescue --image fresh.image --blocks 4294967297";
    let (written, done) = rescued(&rt, alloc, many);
    let is_refused = matches!(done, Err(RescueJobFault::Rescue(RescueFault::Limits)));
    assert!(rt; written.is_empty() && is_refused);
    fs::remove_file(&rt, "fresh.image")?;
    Ok(())
}

#[test]
fn replaces_no_file(rt: HostRuntime) -> Result<(), Fail> {
    let alloc = rt.alloc();
    check_written(&rt, alloc, &[(FORMAT_FRESH, b"", b"ok\n")]);
    fs::write(&rt, "kept.txt", b"kept".as_slice())?;
    let lists = "zonedisk rescue --image fresh.image --blocks 2 --json kept.txt";
    assert!(rt; !ends_well(&rt, alloc, lists));
    let made = ListFile::make(&rt, &rescue(&rt, alloc, lists));
    assert!(rt; matches!(made, Err(RescueJobFault::Lists(_))));
    let to = "zonedisk rescue --image fresh.image --blocks 2 --to kept.txt";
    assert!(rt; !ends_well(&rt, alloc, to));
    assert_eq!(rt; fs::read(&rt, "kept.txt")?.as_slice(), b"kept".as_slice());
    assert!(rt;
        !ends_well(
            &rt,
            alloc,
            "zonedisk rescue --image kept.txt --to new.image"
        )
    );
    assert!(rt; fs::metadata(&rt, "new.image").is_err());
    assert!(rt; !ends_well(&rt, alloc, "zonedisk rescue --device fresh.image"));
    fs::remove_file(&rt, "fresh.image")?;
    fs::remove_file(&rt, "kept.txt")?;
    Ok(())
}
