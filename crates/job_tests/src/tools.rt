// The tools on the command line: which words ask for them, and what they tell of a drive in a file.

use crate::command_lines::{check_written, refusal, task};
use clap::error::ErrorKind;
use std::alloc::{AllocError, Global};
use std::fs;
use std::fs::File;
use std::process::Abort;
use std::rt::Files;
use std::test::Fail;
use tool_forms::EntryFault;
use tool_jobs::{ToolFault, ToolJob, do_tool_job};
use zonedisk_program::Task;

/// Which words of tools are refused, and how.
const WORDS: [(&str, Option<ErrorKind>); 40] = [
    ("zonedisk export --image a", None),
    (
        "zonedisk export --image a --first 3 --count 2 --progress",
        None,
    ),
    (
        "zonedisk export --image a --count x",
        Some(ErrorKind::ValueValidation),
    ),
    (
        "zonedisk export --image a --sparse",
        Some(ErrorKind::UnknownArgument),
    ),
    (
        "zonedisk import --image a --blocks 9 --first 1 --sparse --progress",
        None,
    ),
    (
        "zonedisk import --image a --count 2",
        Some(ErrorKind::UnknownArgument),
    ),
    ("zonedisk import", Some(ErrorKind::MissingRequiredArgument)),
    ("zonedisk check --image a", None),
    ("zonedisk check --image a --blocks 9 --json", None),
    ("zonedisk check", Some(ErrorKind::MissingRequiredArgument)),
    (
        "zonedisk check --image a --blocks x",
        Some(ErrorKind::ValueValidation),
    ),
    (
        "zonedisk check --image a --zones",
        Some(ErrorKind::UnknownArgument),
    ),
    ("zonedisk info --image a --json", None),
    ("zonedisk info", Some(ErrorKind::MissingRequiredArgument)),
    (
        "zonedisk info --image a --blocks 9",
        Some(ErrorKind::UnknownArgument),
    ),
    ("zonedisk plan --image a", None),
    ("zonedisk plan --image a --share 80 --json", None),
    ("zonedisk plan --image a --amplification 3 --svg", None),
    ("zonedisk plan", Some(ErrorKind::MissingRequiredArgument)),
    (
        "zonedisk plan --block 512 --zones 4 --size 8 --capacity 6 --transfer 4 --active 2",
        Some(ErrorKind::MissingRequiredArgument),
    ),
    (
        "zonedisk plan --block 512 --zones 4 --size 8 --capacity 6 --transfer 4 --active 2 --open 2",
        None,
    ),
    (
        "zonedisk plan --image a --zones 4",
        Some(ErrorKind::ArgumentConflict),
    ),
    (
        "zonedisk plan --image a --json --svg",
        Some(ErrorKind::ArgumentConflict),
    ),
    (
        "zonedisk plan --image a --blocks 9 --share 80",
        Some(ErrorKind::ArgumentConflict),
    ),
    ("zonedisk plan --bytes 256M", None),
    ("zonedisk plan --bytes 0", None),
    ("zonedisk plan --bytes M", Some(ErrorKind::ValueValidation)),
    (
        "zonedisk plan --bytes 1KM",
        Some(ErrorKind::ValueValidation),
    ),
    (
        "zonedisk plan --bytes 16777216T",
        Some(ErrorKind::ValueValidation),
    ),
    (
        "zonedisk plan --bytes 1M --json",
        Some(ErrorKind::ArgumentConflict),
    ),
    ("zonedisk report --image a --state Full --json", None),
    ("zonedisk report --image a --state full", None),
    (
        "zonedisk report --image a --state half",
        Some(ErrorKind::ValueValidation),
    ),
    (
        "zonedisk report --image a --brief --svg",
        Some(ErrorKind::ArgumentConflict),
    ),
    (
        "zonedisk report --image a --brief --state Full",
        Some(ErrorKind::ArgumentConflict),
    ),
    ("zonedisk entry reset --all --state Full", None),
    ("zonedisk entry", Some(ErrorKind::MissingRequiredArgument)),
    ("zonedisk entry erase", Some(ErrorKind::ValueValidation)),
    (
        "zonedisk entry append --data abc",
        Some(ErrorKind::ValueValidation),
    ),
    (
        "zonedisk entry append --start x",
        Some(ErrorKind::ValueValidation),
    ),
];

#[test]
fn reads_the_words_of_tools(rt: HostRuntime) {
    for (line, kind) in &WORDS {
        assert_eq!(rt; refusal(&rt, rt.alloc(), line), *kind);
    }
}

/// What is told of refused words: the word, what is taken in its place, and the usage of the subcommand.
const REFUSED_WORDS: [(&str, &str); 11] = [
    (
        "zonedisk report --image a --state half",
        "error: invalid value 'half' for '--state'
  [possible values: Empty, ImplicitlyOpened, ExplicitlyOpened, Closed, ReadOnly, Full, Offline]

Usage: zonedisk report [OPTIONS]

For more information, try '--help'.
",
    ),
    (
        "zonedisk run --image a --blocks +9",
        "error: invalid value '+9' for '--blocks': a whole number, as 4096

Usage: zonedisk run [OPTIONS] --blocks <N>

For more information, try '--help'.
",
    ),
    (
        "zonedisk run --image a --blocks 4k",
        "error: invalid value '4k' for '--blocks <N>': a whole number, as 4096

Usage: zonedisk run [OPTIONS] --blocks <N>

For more information, try '--help'.
",
    ),
    (
        "zonedisk run --image a --blocks 99999999999999999999",
        "error: invalid value '99999999999999999999' for '--blocks <N>': a whole number, as 4096

Usage: zonedisk run [OPTIONS] --blocks <N>

For more information, try '--help'.
",
    ),
    (
        "zonedisk run --image a --blocks 9 --tear 2",
        "error: the option '--tear' belongs to '--stop-after', which is not given

Usage: zonedisk run [OPTIONS] --blocks <N>

For more information, try '--help'.
",
    ),
    (
        "zonedisk run --image= --blocks 9",
        "error: a value is required for '--image <P>' but none was supplied

For more information, try '--help'.
",
    ),
    (
        "zonedisk plan --bytes 1GiB",
        "error: invalid value '1GiB' for '--bytes': a number, then K, M, G or T, or none of them

Usage: zonedisk plan [OPTIONS]

For more information, try '--help'.
",
    ),
    (
        "zonedisk plan --image a --share 80 --zones 4",
        "error: the option '--image' cannot be used with '--zones'

Usage: zonedisk plan [OPTIONS]

For more information, try '--help'.
",
    ),
    (
        "zonedisk report --image a --svg --state Full",
        "error: the option '--svg' cannot be used with '--state'

Usage: zonedisk report [OPTIONS]

For more information, try '--help'.
",
    ),
    (
        "zonedisk entry erase",
        "error: invalid value 'erase' for '<COMMAND>'
  [possible values: append, read, write, flush, close, finish, open, reset, offline, report]

Usage: zonedisk entry [OPTIONS] <COMMAND>

For more information, try '--help'.
",
    ),
    (
        "zonedisk entry append --data abc",
        "error: invalid value 'abc' for '--data': pairs of hexadecimal digits

Usage: zonedisk entry [OPTIONS] <COMMAND>

For more information, try '--help'.
",
    ),
];

/// The text of a refusal.
fn told_of(rt: &impl Abort, alloc: Global, line: &str) -> String {
    match task(rt, alloc, line) {
        Ok(_) => String::new(alloc),
        Err(error) => format!(in alloc; "{error}").expect(rt, "memory"),
    }
}

#[test]
fn tells_refused_words(rt: HostRuntime) {
    for (line, text) in &REFUSED_WORDS {
        assert_eq!(rt; told_of(&rt, rt.alloc(), line).as_str(), *text);
    }
}

/// The job of a command line that asks for a tool.
fn tool(rt: &impl Abort, alloc: Global, line: &str) -> Option<ToolJob> {
    match task(rt, alloc, line) {
        Ok(Task::Tool(job)) => Some(job),
        _ => None,
    }
}

/// The bytes that are asked for, and what `--bytes` says.
const BYTES: [(&str, u64); 5] = [
    ("7", 7),
    ("1K", 1024),
    ("256M", 268_435_456),
    ("3G", 3_221_225_472),
    ("16777215T", 18_446_742_974_197_923_840),
];

#[test]
fn reads_bytes(rt: HostRuntime) -> Result<(), Fail> {
    for (text, bytes) in BYTES {
        let line = format!(in rt.alloc(); "zonedisk plan --bytes {text}")?;
        let Some(ToolJob::Format { bytes: asked }) = tool(&rt, rt.alloc(), &line) else {
            panic!(rt; "no bytes were asked for");
        };
        assert_eq!(rt; asked, bytes);
    }
    Ok(())
}

/// What a tool writes, and whether all is well.
fn used<R: Files<File = File> + Abort>(
    rt: &R,
    alloc: Global,
    line: &str,
) -> (Vec<u8>, Result<bool, ToolFault>) {
    let job = tool(rt, alloc, line).expect(rt, "a tool");
    let mut written = Vec::new(alloc);
    let done = do_tool_job(rt, alloc, &job, &mut written);
    (written, done)
}

/// Compares what tools write, each of which tells whether all is well.
fn check_used<R: Files<File = File> + Abort>(rt: &R, alloc: Global, cases: &[(&str, bool, &[u8])]) {
    for (line, is_well, output) in cases {
        let (written, done) = used(rt, alloc, line);
        assert_eq!(rt; written.as_slice(), *output);
        assert_eq!(rt; done, Ok(*is_well));
    }
}

/// A raw line that appends a block of ones to the zone that starts at this block.
fn append_ones(alloc: Global, start: u8) -> Result<Vec<u8>, AllocError> {
    let text = format!(in alloc; "7d00010001000000{:064}{start:02x}{:046} ", 0, 0)?;
    let mut line = Vec::from_slice(alloc, text.as_bytes())?;
    for _ in 0..512 {
        line.extend_from_slice(b"ff")?;
    }
    line.push(b'\n')?;
    Ok(line)
}

const FORMAT_CHECKED: &str =
    "zonedisk format --image checked.image --block 512 --zones 4 --size 8 --capacity 6 --transfer 4 \
     --active 2 --open 2";

const CHECK: &str = "zonedisk check --image checked.image";

const CHECK_JSON: &str = "zonedisk check --image checked.image --json --blocks 9";

const FRESH: &[u8] = b"the drive can be mounted\n";

const FRESH_JSON: &[u8] = b"{
  \"batches\": [],
  \"faults\": [],
  \"mountable\": true,
  \"partly_written\": 0,
  \"past_end\": [],
  \"refusal\": null,
  \"repeated\": [],
  \"torn\": [],
  \"unusable\": []
}
";

/// Both zones are told, and the first of them is why a mount is refused.
const FAULTY: &[u8] =
    b"refused: zone 0 holds no batch at block 0: the header does not begin with ZLOGBAT1
zone 1 holds no batch at block 0: the header does not begin with ZLOGBAT1
";

/// Both zones were open before the restart.
const INFO: &[u8] = b"block 512
zones 4
capacity 6
state Empty zones 2
state Closed zones 2
refused: zone 0 holds no batch at block 0: the header does not begin with ZLOGBAT1
";

const BRIEF: &[u8] = b"zones 4
state Empty zones 2 at 2-3
state ImplicitlyOpened zones 2 at 0-1
";

const EMPTY: &[u8] = b"zones 2
start 16 state Empty pointer 16 capacity 6
start 24 state Empty pointer 24 capacity 6
";

#[test]
fn checks_a_drive(rt: HostRuntime) -> Result<(), Fail> {
    let alloc = rt.alloc();
    check_written(&rt, alloc, &[(FORMAT_CHECKED, b"", b"ok\n")]);
    check_used(
        &rt,
        alloc,
        &[(CHECK, true, FRESH), (CHECK_JSON, true, FRESH_JSON)],
    );
    let replies: &[u8] = b"00000000000000000000000001000000\n08000000000000000000000001000000\n";
    let mut lines = append_ones(alloc, 0)?;
    lines.extend_from_slice(&append_ones(alloc, 8)?)?;
    check_written(
        &rt,
        alloc,
        &[("zonedisk nvme --image checked.image", &lines, replies)],
    );
    check_used(
        &rt,
        alloc,
        &[
            (CHECK, false, FAULTY),
            ("zonedisk info --image checked.image", true, INFO),
            ("zonedisk report --image checked.image --brief", true, BRIEF),
            (
                "zonedisk report --image checked.image --state Empty",
                true,
                EMPTY,
            ),
        ],
    );
    fs::remove_file(&rt, "checked.image")?;
    Ok(())
}

/// The lines of entries: the opcode, the identifier and the namespace first, the address at digit 80, then dwords 12
/// and 13. Without its option an address is 0, one block is meant, and the buffer of a report has 1,024 dwords.
const ENTRIES: [(&str, bool, &[u8]); 11] = [
    (
        "zonedisk entry append --start 8 --blocks 4 --id 7 --data aABb",
        true,
        b"7d000700010000000000000000000000000000000000000000000000000000000000000000000000\
          080000000000000003000000000000000000000000000000 aabb\n",
    ),
    (
        "zonedisk entry write --start 9 --data 00",
        true,
        b"01000000010000000000000000000000000000000000000000000000000000000000000000000000\
          090000000000000000000000000000000000000000000000 00\n",
    ),
    (
        "zonedisk entry read --blocks 65536 --start 9223372036854775807",
        true,
        b"02000000010000000000000000000000000000000000000000000000000000000000000000000000\
          ffffffffffffff7fffff0000000000000000000000000000\n",
    ),
    (
        "zonedisk entry flush --id 65535",
        true,
        b"0000ffff010000000000000000000000000000000000000000000000000000000000000000000000\
          000000000000000000000000000000000000000000000000\n",
    ),
    (
        "zonedisk entry reset --start 16",
        true,
        b"79000000010000000000000000000000000000000000000000000000000000000000000000000000\
          100000000000000000000000040000000000000000000000\n",
    ),
    (
        "zonedisk entry finish --all",
        true,
        b"79000000010000000000000000000000000000000000000000000000000000000000000000000000\
          000000000000000000000000020100000000000000000000\n",
    ),
    (
        "zonedisk entry close --start 8 --id 513",
        true,
        b"79000102010000000000000000000000000000000000000000000000000000000000000000000000\
          080000000000000000000000010000000000000000000000\n",
    ),
    (
        "zonedisk entry open --start 8",
        true,
        b"79000000010000000000000000000000000000000000000000000000000000000000000000000000\
          080000000000000000000000030000000000000000000000\n",
    ),
    (
        "zonedisk entry offline --all --id 1",
        true,
        b"79000100010000000000000000000000000000000000000000000000000000000000000000000000\
          000000000000000000000000050100000000000000000000\n",
    ),
    (
        "zonedisk entry report",
        true,
        b"7a000000010000000000000000000000000000000000000000000000000000000000000000000000\
          0000000000000000ff030000000000000000000000000000\n",
    ),
    (
        "zonedisk entry report --dwords 4294967296 --state Closed --partial --start 8",
        true,
        b"7a000000010000000000000000000000000000000000000000000000000000000000000000000000\
          0800000000000000ffffffff000401000000000000000000\n",
    ),
];

#[test]
fn shows_entries(rt: HostRuntime) {
    check_used(&rt, rt.alloc(), &ENTRIES);
}

/// Entries that are refused, and why.
const NO_ENTRIES: [(&str, EntryFault); 9] = [
    ("zonedisk entry read --data aa", EntryFault::Options),
    ("zonedisk entry flush --start 0", EntryFault::Options),
    ("zonedisk entry open --all", EntryFault::Options),
    ("zonedisk entry reset --blocks 1", EntryFault::Options),
    ("zonedisk entry append --partial", EntryFault::Options),
    ("zonedisk entry read --blocks 0", EntryFault::Blocks),
    ("zonedisk entry write --blocks 65537", EntryFault::Blocks),
    ("zonedisk entry report --dwords 15", EntryFault::Dwords),
    ("zonedisk entry flush --id 65536", EntryFault::Id),
];

#[test]
fn refuses_entries(rt: HostRuntime) {
    for (line, fault) in &NO_ENTRIES {
        let (written, done) = used(&rt, rt.alloc(), line);
        assert_eq!(rt; done, Err(ToolFault::Entry(*fault)));
        assert!(rt; written.is_empty());
    }
}

#[test]
fn tells_why_a_tool_tells_nothing(rt: HostRuntime) -> Result<(), Fail> {
    let (written, done) = used(&rt, rt.alloc(), "zonedisk plan --bytes 4097G");
    assert_eq!(rt; done, Err(ToolFault::Bytes));
    assert!(rt; written.is_empty());
    let (_, done) = used(&rt, rt.alloc(), "zonedisk check --image no.image");
    assert!(rt; matches!(done, Err(ToolFault::File(_))));
    Ok(())
}
