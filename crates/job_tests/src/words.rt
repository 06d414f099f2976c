// Which words of the command line are refused, and how.

use crate::command_lines::{refusal, task};
use clap::error::ErrorKind;
use std::test::Fail;

const FRESH: &str =
    "zonedisk fresh --block 512 --zones 4 --size 8 --capacity 6 --transfer 4 --active 2 --open 2";

/// Which words of the command line of a fresh disk are refused, and how.
const WORDS: [(&str, Option<ErrorKind>); 20] = [
    ("--blocks 9", None),
    ("--blocks=0009 --report", None),
    ("--statistics --blocks 9223372036854775807", None),
    ("--blocks 9 --habit strict", None),
    ("--blocks 9 --tear 2 --stop-after=5", None),
    (
        "--blocks 9 --tear 0",
        Some(ErrorKind::MissingRequiredArgument),
    ),
    ("--blocks +5", Some(ErrorKind::ValueValidation)),
    ("--blocks -5", Some(ErrorKind::UnknownArgument)),
    ("--blocks 0x5", Some(ErrorKind::ValueValidation)),
    ("--blocks 5.", Some(ErrorKind::ValueValidation)),
    (
        "--blocks 9223372036854775808",
        Some(ErrorKind::ValueValidation),
    ),
    (
        "--blocks 99999999999999999999",
        Some(ErrorKind::ValueValidation),
    ),
    (
        "--blocks 9 --open 4294967296",
        Some(ErrorKind::ArgumentConflict),
    ),
    ("--blocks 9 --blocks 9", Some(ErrorKind::ArgumentConflict)),
    ("--blocks 9 --zone 4", Some(ErrorKind::UnknownArgument)),
    ("--blocks 9 --habit Lazy", None),
    ("--blocks 9 --habit", Some(ErrorKind::InvalidValue)),
    ("--blocks 9 more", Some(ErrorKind::UnknownArgument)),
    ("--report", Some(ErrorKind::MissingRequiredArgument)),
    ("--help", Some(ErrorKind::DisplayHelp)),
];

#[test]
fn reads_the_words(rt: HostRuntime) -> Result<(), Fail> {
    for (rest, kind) in &WORDS {
        let line = format!(in rt.alloc(); "{FRESH} {rest}")?;
        assert_eq!(rt; refusal(&rt, rt.alloc(), &line), *kind);
    }
    Ok(())
}

/// Which other words are refused, and how.
const OTHER_WORDS: [(&str, Option<ErrorKind>); 41] = [
    ("zonedisk run --zones --blocks=9 --image=a/b", None),
    (
        "zonedisk run --image b --blocks 9 --statistics --zones",
        None,
    ),
    ("zonedisk run --read-only --image b --blocks 9", None),
    (
        "zonedisk run --image b --blocks 9 --tear 2",
        Some(ErrorKind::MissingRequiredArgument),
    ),
    (
        "zonedisk nbd --device b --tear 2",
        Some(ErrorKind::MissingRequiredArgument),
    ),
    ("zonedisk nbd --image b --read-only", None),
    (
        "zonedisk nbd --image b --blocks 9 --idle --stop-after 7",
        None,
    ),
    (
        "zonedisk nbd --image b --blocks +9",
        Some(ErrorKind::ValueValidation),
    ),
    ("zonedisk nbd --image b --forget 7", None),
    (
        "zonedisk nbd --image b --cut-after 120 --odds 100 --forget 7 --stop-after 9",
        None,
    ),
    (
        "zonedisk nbd --image b --forget 7 --odds 101",
        Some(ErrorKind::ValueValidation),
    ),
    (
        "zonedisk nbd --image b --forget 7 --read-only",
        Some(ErrorKind::ArgumentConflict),
    ),
    (
        "zonedisk nbd --image b --odds 30",
        Some(ErrorKind::MissingRequiredArgument),
    ),
    (
        "zonedisk nbd --image b --cut-after 120",
        Some(ErrorKind::MissingRequiredArgument),
    ),
    ("zonedisk nbd --image b --fail 7 --fail-odds 5", None),
    (
        "zonedisk nbd --image b --fail-odds 0 --fail 7 --read-only",
        None,
    ),
    (
        "zonedisk nbd --image b --read-only --idle",
        Some(ErrorKind::ArgumentConflict),
    ),
    (
        "zonedisk nbd --image b --fail 7 --fail-odds 100 --forget 7 --cut-after 9 --stop-after 9 --habit lazy",
        None,
    ),
    (
        "zonedisk nbd --image b --fail 7",
        Some(ErrorKind::MissingRequiredArgument),
    ),
    (
        "zonedisk nbd --image b --fail-odds 5",
        Some(ErrorKind::MissingRequiredArgument),
    ),
    (
        "zonedisk nbd --image b --fail 7 --fail-odds 101",
        Some(ErrorKind::ValueValidation),
    ),
    ("zonedisk nvme --habit=closing --image b --explain", None),
    ("zonedisk", Some(ErrorKind::MissingSubcommand)),
    ("zonedisk mount", Some(ErrorKind::InvalidSubcommand)),
    (
        "zonedisk run --image b",
        Some(ErrorKind::MissingRequiredArgument),
    ),
    (
        "zonedisk run --image b --blocks +9",
        Some(ErrorKind::ValueValidation),
    ),
    (
        "zonedisk format --image b --in-place --block 512 --zones 4 --size 8 --capacity 6 --transfer 4 \
         --active 2 --open 2",
        None,
    ),
    (
        "zonedisk format --image b --in-place --force --block 512 --zones 4 --size 8 --capacity 6 --transfer 4 \
         --active 2 --open 2",
        Some(ErrorKind::ArgumentConflict),
    ),
    (
        "zonedisk format --image b --in-place",
        Some(ErrorKind::MissingRequiredArgument),
    ),
    (
        "zonedisk format --device b --in-place",
        Some(ErrorKind::ArgumentConflict),
    ),
    (
        "zonedisk run --image b --blocks 9 --in-place",
        Some(ErrorKind::UnknownArgument),
    ),
    ("zonedisk report", Some(ErrorKind::MissingRequiredArgument)),
    ("zonedisk report --image=", Some(ErrorKind::InvalidValue)),
    ("zonedisk check --device=", Some(ErrorKind::InvalidValue)),
    (
        "zonedisk convert --image b --to=",
        Some(ErrorKind::InvalidValue),
    ),
    (
        "zonedisk rescue --image b --json=",
        Some(ErrorKind::InvalidValue),
    ),
    (
        "zonedisk report --image b --habit lazy",
        Some(ErrorKind::UnknownArgument),
    ),
    (
        "zonedisk nvme --image b --habit lazy --habit lazy",
        Some(ErrorKind::ArgumentConflict),
    ),
    (
        "zonedisk fresh --block 4294967296",
        Some(ErrorKind::ValueValidation),
    ),
    ("zonedisk --help", Some(ErrorKind::DisplayHelp)),
    ("zonedisk --version", Some(ErrorKind::DisplayVersion)),
];

#[test]
fn reads_other_words(rt: HostRuntime) {
    for (line, kind) in &OTHER_WORDS {
        assert_eq!(rt; refusal(&rt, rt.alloc(), line), *kind);
    }
}

#[test]
fn says_why_words_are_refused(rt: HostRuntime) -> Result<(), Fail> {
    let line = format!(in rt.alloc(); "{FRESH} --blocks +5")?;
    let Err(error) = task(&rt, rt.alloc(), &line) else {
        panic!(rt; "the words were taken");
    };
    let text = format!(in rt.alloc(); "{error}")?;
    let front = "error: invalid value '+5' for '--blocks': a whole number, as 4096\n";
    assert!(rt; text.starts_with(front));
    Ok(())
}
