// Jobs on the drive in a file: what is written and told, and what they leave in the file.

use crate::command_lines::{check_told, check_written};
use crate::runs::FINISH;
use std::alloc::{AllocError, Global};
use std::fs;
use std::os::unix::fs::MetadataExt;
use std::process::Abort;
use std::rt::Files;
use std::test::Fail;

const OPENED: &[u8] = b"zones 4
start 0 state Full pointer - capacity 6
start 8 state ImplicitlyOpened pointer 10 capacity 6
start 16 state Empty pointer 16 capacity 6
start 24 state Empty pointer 24 capacity 6
";

/// The same once a run has restarted the drive and saved it.
const CLOSED: &[u8] = b"zones 4
start 0 state Full pointer - capacity 6
start 8 state Closed pointer 10 capacity 6
start 16 state Empty pointer 16 capacity 6
start 24 state Empty pointer 24 capacity 6
";

const FINISHED: &[u8] = b"zones 4
start 0 state Full pointer - capacity 6
start 8 state Closed pointer 10 capacity 6
start 16 state Full pointer - capacity 6
start 24 state Empty pointer 24 capacity 6
";

const FORMAT: &str =
    "zonedisk format --image drive.image --block 512 --zones 4 --size 8 --capacity 6 --transfer 4 --active 2 --open 2";

const RUN: &str = "zonedisk run --image drive.image --blocks 9";

const STOPPED: &str = "zonedisk run --image drive.image --blocks 9 --zones --stop-after 0";

const TORN: &str = "zonedisk run --image drive.image --blocks 9 --zones --stop-after 1 --tear 3";

const READ_ONLY: &str = "zonedisk run --image drive.image --blocks 9 --read-only";

const STRICT: &str = "zonedisk run --image drive.image --blocks 9 --habit strict";

const REPORT: &str = "zonedisk report --image drive.image";

const NVME: &str = "zonedisk nvme --image drive.image";

const COUNTED: &str = "zonedisk run --image drive.image --blocks 9 --zones --statistics";

/// The mount reads the two headers of zone 0 and the one of zone 1. The read reads a block.
const COUNTS: &[u8] = b"0 aa*512
ok
host blocks 0
all blocks 0
moved blocks 0
cleans 0
write amplification -
appends 0
reads 4
closes 0
finishes 0
resets 0
reports 1
other commands 0
least live 0
median live 0
most live 4
zones 4
start 0 state Full pointer - capacity 6
start 8 state Closed pointer 10 capacity 6
start 16 state Empty pointer 16 capacity 6
start 24 state Empty pointer 24 capacity 6
";

/// What a run replies that only reads, to a read and a fill.
const REFUSED: &[u8] = b"0 aa*512\nok\nfault line 2\n";

/// Jobs on the file that the job before left, and how long it is then: a head of 96 bytes, and the written blocks.
const FILE_JOBS: [(&str, &[u8], &[u8], u64); 16] = [
    (REPORT, b"", b"fault image 7 Short\n", 0),
    (FORMAT, b"", b"ok\n", 96),
    (STOPPED, b"read 0 1\n", b"fault mount 10 Halted\n", 96),
    (TORN, b"fill 0 5 AA\n", b"fault disk 3 Stopped\n", 1632),
    (READ_ONLY, b"read 0 1\n", b"0 00*512\nok\n", 1632),
    (
        RUN,
        b"read 0 4\n",
        b"0 00*512\n1 00*512\n2 00*512\n3 00*512\nok\n",
        96,
    ),
    (FORMAT, b"", b"ok\n", 96),
    (RUN, b"fill 0 5 AA\nnone\n", b"ok\nfault line 2\n", 4192),
    (REPORT, b"", OPENED, 4192),
    (READ_ONLY, b"read 0 1\nfill 0 1 BB\n", REFUSED, 4192),
    (COUNTED, b"read 0 1\n", COUNTS, 4192),
    (STRICT, b"read 0 1\n", b"0 aa*512\nok\n", 4192),
    (REPORT, b"", CLOSED, 4192),
    (NVME, b"none\n", b"fault line 1\n", 4192),
    (NVME, FINISH, b"00000000000000000000000001000000\n", 4192),
    (REPORT, b"", FINISHED, 4192),
];

#[test]
fn works_on_a_file(rt: HostRuntime) {
    fs::write(&rt, "drive.image", b"".as_slice()).expect(&rt, "an empty file");
    for (line, lines, output, length) in &FILE_JOBS {
        check_written(&rt, rt.alloc(), &[(line, lines, output)]);
        let file = fs::metadata(&rt, "drive.image").expect(&rt, "the file");
        assert_eq!(rt; file.len(), *length);
    }
    fs::remove_file(&rt, "drive.image").expect(&rt, "to remove the file");
    check_written(&rt, rt.alloc(), &[(REPORT, b"", b"fault file\n")]);
}

const FORMAT_NARROW: &str =
    "zonedisk format --image narrow.image --block 512 --zones 3 --size 4 --capacity 4 --transfer 2 --active 2 --open 1";

const STOPPED_NARROW: &str = "zonedisk run --image narrow.image --blocks 2 --stop-after 0";

const RUN_NARROW: &str = "zonedisk run --image narrow.image --blocks 2";

const READ_NARROW: &str = "zonedisk run --image narrow.image --blocks 2 --read-only";

const NOT_A_READ: &str = "line 2 would change the disk, and --read-only was given";

/// The image of a drive of that shape in which nothing was written: the head, and three empty zones.
fn narrow_image(alloc: Global) -> Result<Vec<u8>, AllocError> {
    let mut bytes = Vec::from_slice(alloc, b"ZNSIMG01\0\x02\0\0\x03\0\0\0\x04\0\0\0\x04\0\0\0")?;
    bytes.extend_from_slice(b"\x02\0\0\0\x02\0\0\0\x01\0\0\0")?;
    bytes.resize(64, 0)?;
    for _ in 0..3 {
        bytes.extend_from_slice(b"\x01\0\0\0\0\0\0\0")?;
    }
    Ok(bytes)
}

/// The same after a fill of block 0 with the byte A1: zone 0 is in this state, with a header and the block.
fn filled_image(alloc: Global, state: u8) -> Result<Vec<u8>, AllocError> {
    let mut bytes = narrow_image(alloc)?;
    bytes.truncate(64);
    bytes.push(state)?;
    bytes.extend_from_slice(b"\0\0\0\x02\0\0\0ZLOGBAT1\x02\0\x01\0\x01\0\0\0\x01\0\0\0\0\0\0\0")?;
    bytes.extend_from_slice(b"\0\0\0\0\x02\0\0\0")?;
    bytes.resize(72 + 512, 0)?;
    bytes.resize(72 + 1024, 0xa1)?;
    bytes.extend_from_slice(b"\x01\0\0\0\0\0\0\0\x01\0\0\0\0\0\0\0")?;
    Ok(bytes)
}

fn check_narrow_image<R: Files + Alloc + Abort>(rt: &R, want: &[u8]) {
    let bytes = fs::read(rt, "narrow.image").ok().expect(rt, "the file");
    assert_eq!(rt; bytes.as_slice(), want);
}

/// The codes of Implicitly Opened and Closed.
const OPENED_STATE: u8 = 2;

const CLOSED_STATE: u8 = 4;

/// What a run that stops before its first command writes.
const HALTED: &[u8] = b"fault mount 10 Halted\n";

/// Such a run does not touch a drive at rest. An open zone it closes, as a restart does. A run that only reads does not
/// touch the file.
#[test]
fn keeps_each_byte_where_a_run_stops_at_once(rt: HostRuntime) -> Result<(), Fail> {
    let empty = narrow_image(rt.alloc())?;
    check_written(&rt, rt.alloc(), &[(FORMAT_NARROW, b"", b"ok\n")]);
    check_narrow_image(&rt, &empty);
    check_written(&rt, rt.alloc(), &[(STOPPED_NARROW, b"read 0 1\n", HALTED)]);
    check_narrow_image(&rt, &empty);
    check_written(&rt, rt.alloc(), &[(RUN_NARROW, b"fill 0 1 A1\n", b"ok\n")]);
    check_told(
        &rt,
        rt.alloc(),
        &[(READ_NARROW, b"read 0 1\ntrim 0 1\n", NOT_A_READ)],
    );
    check_narrow_image(&rt, &filled_image(rt.alloc(), OPENED_STATE)?);
    check_written(&rt, rt.alloc(), &[(STOPPED_NARROW, b"read 0 1\n", HALTED)]);
    check_narrow_image(&rt, &filled_image(rt.alloc(), CLOSED_STATE)?);
    fs::remove_file(&rt, "narrow.image").expect(&rt, "to remove the file");
    Ok(())
}

const EMPTY: &[u8] = b"zones 4
start 0 state Empty pointer 0 capacity 6
start 8 state Empty pointer 8 capacity 6
start 16 state Empty pointer 16 capacity 6
start 24 state Empty pointer 24 capacity 6
";

const FORMAT_KEPT: &str =
    "zonedisk format --image kept.image --block 512 --zones 4 --size 8 --capacity 6 --transfer 4 --active 2 --open 2";

const FORMAT_MISSING: &str =
    "zonedisk format --image missing/kept.image --block 512 --zones 4 --size 8 --capacity 6 --transfer 4 \
     --active 2 --open 2";

const FORMAT_FOLDER: &str =
    "zonedisk format --image kept.image.new --block 512 --zones 4 --size 8 --capacity 6 --transfer 4 \
     --active 2 --open 2";

const RUN_KEPT: &str = "zonedisk run --image kept.image --blocks 9";

/// A folder is where no image can be, and in the way of the new file, which gets another name.
const BESIDE_A_FOLDER: [(&str, &[u8], &[u8]); 6] = [
    (FORMAT_MISSING, b"", b"fault file\n"),
    (FORMAT_FOLDER, b"", b"fault file\n"),
    (
        "zonedisk run --image kept.image.new --blocks 9",
        b"",
        b"fault file\n",
    ),
    (
        "zonedisk report --image kept.image.new",
        b"",
        b"fault file\n",
    ),
    (RUN_KEPT, b"fill 0 1 AA\n", b"ok\n"),
    (RUN_KEPT, b"read 0 1\n", b"0 aa*512\nok\n"),
];

#[test]
fn saves_beside_a_folder(rt: HostRuntime) {
    check_written(&rt, rt.alloc(), &[(FORMAT_KEPT, b"", b"ok\n")]);
    fs::create_dir(&rt, "kept.image.new").expect(&rt, "a folder");
    check_written(&rt, rt.alloc(), &BESIDE_A_FOLDER);
    fs::remove_dir(&rt, "kept.image.new").expect(&rt, "to remove the folder");
    fs::remove_file(&rt, "kept.image").expect(&rt, "to remove the file");
}

const FORMAT_LONG: &str =
    "zonedisk format --image long.image --block 512 --zones 4 --size 8 --capacity 6 --transfer 4 --active 2 --open 2";

/// A name so long that no name of a new file has room for four bytes more.
fn long_name(rt: &impl Abort, alloc: Global) -> String {
    let mut name = String::new(alloc);
    for _ in 0..252 {
        name.push('k').expect(rt, "memory");
    }
    name
}

/// The zones after two fills and a Finish, none of which is in the image.
const KEPT: &[u8] = b"zones 4
start 0 state Closed pointer 4 capacity 6
start 8 state Empty pointer 8 capacity 6
start 16 state Full pointer - capacity 6
start 24 state Empty pointer 24 capacity 6
";

/// The replies come before the fault. The changes are kept after the image, and the next job finds them. Both the fault
/// of a line and the save are told.
#[test]
fn keeps_the_changes_where_a_save_fails(rt: HostRuntime) -> Result<(), Fail> {
    let alloc = rt.alloc();
    let name = long_name(&rt, alloc);
    let run = format!(in alloc; "zonedisk run --image {name} --blocks 9")?;
    let nvme = format!(in alloc; "zonedisk nvme --image {name}")?;
    let report = format!(in alloc; "zonedisk report --image {name}")?;
    check_written(&rt, alloc, &[(FORMAT_LONG, b"", b"ok\n")]);
    fs::rename(&rt, "long.image", name.as_str())?;
    let written: [(&str, &[u8], &[u8]); 6] = [
        (&run, b"read 0 1\n", b"0 00*512\nok\n"),
        (
            &run,
            b"fill 0 1 AA\nread 0 1\n",
            b"ok\n0 aa*512\nok\nfault file\n",
        ),
        (&run, b"fill 1 1 BB\nnone\n", b"ok\nfault line 2\n"),
        (&run, b"read 0 2\n", b"0 aa*512\n1 bb*512\nok\nfault file\n"),
        (
            &nvme,
            FINISH,
            b"00000000000000000000000001000000\nfault file\n",
        ),
        (&report, b"", KEPT),
    ];
    check_written(&rt, alloc, &written);
    let kept = "is never written anew, since the name of a new file would be too long";
    let told = format!(in alloc;
        "line 2: word 1 has to be read, fill, write, trim, idle, grow or remount\n\
        {name} {kept}: it keeps its image and all changes"
    )?;
    check_told(&rt, alloc, &[(&run, b"fill 2 1 CC\nnone\n", &told)]);
    fs::remove_file(&rt, name.as_str())?;
    Ok(())
}

const FORMAT_READ: &str =
    "zonedisk format --image read.image --block 512 --zones 4 --size 8 --capacity 6 --transfer 4 --active 2 --open 2";

const RUN_READ: &str = "zonedisk run --image read.image --blocks 9";

const RUN_SYNCED: &str = "zonedisk run --image read.image --blocks 9 --sync";

const NVME_SYNCED: &str = "zonedisk nvme --image read.image --sync";

/// A run that changes nothing does not touch the file of a drive at rest. After a change a new file takes its place.
#[test]
fn leaves_a_file_alone_that_is_only_read(rt: HostRuntime) -> Result<(), Fail> {
    let alloc = rt.alloc();
    check_written(&rt, alloc, &[(FORMAT_READ, b"", b"ok\n")]);
    check_written(&rt, alloc, &[(RUN_SYNCED, b"fill 0 1 AA\n", b"ok\n")]);
    check_written(&rt, alloc, &[(RUN_READ, b"read 0 1\n", b"0 aa*512\nok\n")]);
    let first = fs::metadata(&rt, "read.image")?.ino();
    check_written(&rt, alloc, &[(RUN_READ, b"read 0 1\n", b"0 aa*512\nok\n")]);
    check_written(&rt, alloc, &[(NVME_SYNCED, b"# no entry\n", b"")]);
    assert_eq!(rt; fs::metadata(&rt, "read.image")?.ino(), first);
    check_written(&rt, alloc, &[(RUN_READ, b"trim 0 1\n", b"ok\n")]);
    assert_ne!(rt; fs::metadata(&rt, "read.image")?.ino(), first);
    fs::remove_file(&rt, "read.image")?;
    Ok(())
}

const FORMAT_TEXT: &str =
    "zonedisk format --image text.image --block 512 --zones 4 --size 8 --capacity 6 --transfer 4 --active 2 --open 2";

const FORCE_TEXT: &str =
    "zonedisk format --force --image text.image --block 512 --zones 4 --size 8 --capacity 6 --transfer 4 \
     --active 2 --open 2";

/// A file that is no image is replaced only by force, and one that is locked not at all.
#[test]
fn formats_no_other_file(rt: HostRuntime) -> Result<(), Fail> {
    fs::write(&rt, "text.image", b"not an image".as_slice())?;
    check_written(&rt, rt.alloc(), &[(FORMAT_TEXT, b"", b"fault file\n")]);
    assert_eq!(rt; fs::metadata(&rt, "text.image")?.len(), 12);
    let file = fs::open(&rt, "text.image")?;
    file.lock_shared()?;
    check_written(&rt, rt.alloc(), &[(FORCE_TEXT, b"", b"fault file\n")]);
    assert_eq!(rt; fs::metadata(&rt, "text.image")?.len(), 12);
    file.unlock()?;
    check_written(&rt, rt.alloc(), &[(FORCE_TEXT, b"", b"ok\n")]);
    assert_eq!(rt; fs::metadata(&rt, "text.image")?.len(), 96);
    fs::remove_file(&rt, "text.image")?;
    Ok(())
}

const RUN_TEXT: &str = "zonedisk run --image text.image --blocks 9";

/// A drive in which a block is written is replaced only by force, and so is a damaged one. Why is told.
#[test]
fn formats_no_written_drive(rt: HostRuntime) -> Result<(), Fail> {
    let alloc = rt.alloc();
    let written: [(&str, &[u8], &[u8]); 3] = [
        (FORMAT_TEXT, b"", b"ok\n"),
        (RUN_TEXT, b"fill 0 1 AA\n", b"ok\n"),
        (FORMAT_TEXT, b"", b"fault file\n"),
    ];
    check_written(&rt, alloc, &written);
    let told =
        "text.image: it holds a disk of 9 logical blocks, which can be mounted; zones that are not Empty: 1. \
        format --force destroys that";
    check_told(&rt, alloc, &[(FORMAT_TEXT, b"", told)]);
    check_written(&rt, alloc, &[(RUN_TEXT, b"read 0 1\n", b"0 aa*512\nok\n")]);
    let image = fs::read(&rt, "text.image")?;
    let cut = image.len().saturating_sub(1);
    fs::write(&rt, "text.image", &image[..cut])?;
    let told =
        "text.image: no drive is read in it (the image ends too early). format --force destroys that";
    check_told(&rt, alloc, &[(FORMAT_TEXT, b"", told)]);
    check_written(&rt, alloc, &[(FORCE_TEXT, b"", b"ok\n")]);
    fs::remove_file(&rt, "text.image")?;
    Ok(())
}
