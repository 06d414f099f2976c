// Jobs on fresh disks: what is written, and what is told of their faults.

use crate::command_lines::{check_told, check_written};
use disk_jobs::{DiskSize, size_notes};
use std::test::Fail;
use zone_states::Geometry;

const DISK: &str =
    "zonedisk fresh --block 512 --zones 4 --size 8 --capacity 6 --transfer 4 --active 2 --open 2 --blocks 9";

const RAW: &str =
    "zonedisk fresh-raw --block 512 --zones 4 --size 8 --capacity 6 --transfer 4 --active 2 --open 2";

const SHOWN: &[u8] = b"ok
zones 4
start 0 state Full pointer - capacity 6
start 8 state ImplicitlyOpened pointer 10 capacity 6
start 16 state Empty pointer 16 capacity 6
start 24 state Empty pointer 24 capacity 6
";

const REPORTED: &str =
    "zonedisk fresh --block 512 --zones 4 --size 8 --capacity 6 --transfer 4 --active 2 --open 2 --blocks 9 --report";

const LARGE: &str =
    "zonedisk fresh --block 512 --zones 4 --size 8 --capacity 6 --transfer 4 --active 2 --open 2 --blocks 10 --report";

const WIDE: &str =
    "zonedisk fresh --block 512 --zones 4 --size 8 --capacity 9 --transfer 4 --active 2 --open 2 --blocks 9";

/// The reports of the zones, and what ends a job.
const JOBS: [(&str, &[u8], &[u8]); 5] = [
    (REPORTED, b"fill 0 5 AA\n", SHOWN),
    (DISK, b"fill 0 5 AA\n", b"ok\n"),
    (REPORTED, b"fill 0 5 AA\nnone\n", b"ok\nfault line 2\n"),
    (LARGE, b"read 0 0\n", b"fault mount 1 Reserve\n"),
    (WIDE, b"read 0 0\n", b"fault geometry 4 Capacity\n"),
];

#[test]
fn does_its_jobs(rt: HostRuntime) {
    check_written(&rt, rt.alloc(), &JOBS);
}

const STOPPED_AT_ONCE: &str =
    "zonedisk fresh --block 512 --zones 4 --size 8 --capacity 6 --transfer 4 \
     --active 2 --open 2 --blocks 9 --stop-after 0";

const STOPPED_LATER: &str =
    "zonedisk fresh --block 512 --zones 4 --size 8 --capacity 6 --transfer 4 \
     --active 2 --open 2 --blocks 9 --stop-after 2";

/// What standard error says of a fault: with a byte order mark, a carriage return, a tab, and words that are wrong.
const TOLD: [(&str, &[u8], &str); 16] = [
    (DISK, b"read 0 1\n", ""),
    (
        STOPPED_AT_ONCE,
        b"read 0 1\n",
        "before the first line: the drive has stopped, after 0 commands, of which the mount took 0",
    ),
    (
        STOPPED_LATER,
        b"fill 0 1 aa\nfill 0 1 bb\n",
        "at line 2, `fill 0 1 bb`: the drive has stopped, after 2 commands, of which the mount took 1",
    ),
    (
        STOPPED_LATER,
        b"# a comment\nfill 0 1 aa\n\nfill 0 1 bb",
        "at line 4, `fill 0 1 bb`: the drive has stopped, after 2 commands, of which the mount took 1",
    ),
    (
        STOPPED_LATER,
        b"fill 0 1 aa\nfill 0 1 bb\nread 0 1\n\nread 0 1",
        "at line 2, `fill 0 1 bb`: the drive has stopped, after 2 commands, of which the mount took 1",
    ),
    (
        "zonedisk report --image missing.image",
        b"",
        "missing.image cannot be opened: No such file or directory (os error 2)",
    ),
    (
        DISK,
        b"\xef\xbb\xbfread 0 1\n",
        "line 1: it begins with a byte order mark",
    ),
    (
        DISK,
        b"read 0 1\r\n",
        "line 1: a carriage return stands before the line feed",
    ),
    (
        DISK,
        b"read 0\t1\n",
        "line 1: it has a tab; words have one space between them",
    ),
    (
        DISK,
        b"#\n\nread 0  1\n",
        "line 3: it has a second space between two words",
    ),
    (
        DISK,
        b"#\nfill 0 1 aaa\n",
        "line 2: word 4 has to be two hexadecimal digits",
    ),
    (
        DISK,
        b"idle",
        "line 1: word 2 is missing: a number below 2^32 in decimal digits",
    ),
    (DISK, b"trim 0 1 2\n", "line 1: word 4 is one too many"),
    (LARGE, b"", "the drive has room for 1 to 9 logical blocks"),
    (
        RAW,
        b"00\n",
        "line 1: word 1 has to be the 128 hexadecimal digits of an entry",
    ),
    (
        DISK,
        b"write 0 aabb\n",
        "line 1: it has 2 bytes of data, and a write takes whole blocks of 512",
    ),
];

#[test]
fn explains_the_faults(rt: HostRuntime) {
    check_told(&rt, rt.alloc(), &TOLD);
}

/// The front of a line, what follows a million digits, and what is told of them.
const LONG_LINES: [(&[u8], &[u8], &str); 3] = [
    (
        b"write 0 ",
        b"x\n",
        "line 1: word 3 has to be data: two hexadecimal digits for each byte, and whole blocks in a write",
    ),
    (
        b"wrote 0 ",
        b"\n",
        "line 1: word 1 has to be read, fill, write, trim, idle, grow or remount",
    ),
    (
        b"# ",
        b"\nfill 0 1 aa\nidle\n",
        "line 3: word 2 is missing: a number below 2^32 in decimal digits",
    ),
];

/// A long line is explained as a short one is, and the lines after it are counted as ever.
#[test]
fn explains_long_lines(rt: HostRuntime) -> Result<(), Fail> {
    for (first, last, text) in &LONG_LINES {
        let mut lines = Vec::from_slice(rt.alloc(), first)?;
        lines.resize(first.len() + 1_000_000, b'0')?;
        lines.extend_from_slice(last)?;
        check_told(&rt, rt.alloc(), &[(DISK, &lines, text)]);
    }
    Ok(())
}

/// The drive whose disk has this number of logical blocks.
const SIZE: DiskSize = DiskSize {
    geometry: Geometry {
        block: 4096,
        zones: 64,
        size: 8192,
        capacity: 8192,
        transfer: 128,
        active: 8,
        open: 8,
    },
    blocks: 435_147,
};

/// The plan of this drive has 10.03 at 85 percent, and 7.54 at 80 percent.
const SLOW: &str =
    "a: 435147 logical blocks are 85 percent of the greatest number: random writes of one block are expected to write \
     10.03 times as much; with 80 percent, 409550 logical blocks, it is 7.54 times\n";

const OTHER: &str =
    "a: the drive says that its disk has 409550 logical blocks: that counts, and not --blocks 12\n";

#[test]
fn tells_what_to_know_of_a_size(rt: HostRuntime) -> Result<(), Fail> {
    let advised = DiskSize {
        blocks: 409_550,
        ..SIZE
    };
    let cases = [
        (Some(435_147), SIZE, SLOW),
        (None, SIZE, SLOW),
        (Some(12), advised, OTHER),
        (Some(409_550), advised, ""),
        (None, advised, ""),
    ];
    for (asked, disk, text) in &cases {
        assert_eq!(rt; size_notes(rt.alloc(), "a", *asked, *disk)?.as_str(), *text);
    }
    Ok(())
}
