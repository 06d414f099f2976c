// Traces of the worked examples, over drives that return other bytes at one Read than they hold.

use crate::checked_runs::mounted;
use crate::kept_reads::{KeepingDrive, KeptRead};
use crate::told_lies::{LIES, lie};
use disk_files::LineReader;
use disk_runs::{Taking, answer_any_trace};
use drive_port::{Device, Geometry};
use std::alloc::Global;
use std::process::Abort;
use yardsticks::LyingDevice;
use zone_drive::Drive;
use zone_translator::AnyDisk;

/// Zones of 6 blocks in 8.
const WIDE: Geometry = Geometry {
    block: 512,
    zones: 4,
    size: 8,
    capacity: 6,
    transfer: 4,
    active: 2,
    open: 2,
};

/// Zones of 4 blocks.
const NARROW: Geometry = Geometry {
    block: 512,
    zones: 3,
    size: 4,
    capacity: 4,
    transfer: 2,
    active: 2,
    open: 1,
};

/// Zones of 8 blocks.
const LONG: Geometry = Geometry {
    block: 512,
    zones: 4,
    size: 8,
    capacity: 8,
    transfer: 3,
    active: 2,
    open: 1,
};

/// A drive on which nothing is written, the blocks of its disk, and the lines of a trace.
#[derive(Clone, Copy)]
struct Row {
    geometry: Geometry,
    blocks: u64,
    lines: &'static str,
}

/// Those of the rows of `worked_runs` that clean zones, mount the disk again, grow it or read most.
const ROWS: [Row; 12] = [
    Row {
        geometry: WIDE,
        blocks: 9,
        lines: "fill 0 5 aa\nread 0 9\nfill 2 4 bb\nread 1 4",
    },
    Row {
        geometry: WIDE,
        blocks: 9,
        lines: "fill 0 9 aa\nfill 0 3 bb\nfill 4 1 cc\nread 0 9",
    },
    Row {
        geometry: WIDE,
        blocks: 9,
        lines: "fill 0 5 aa\nfill 0 1 bb\nidle 2\nfill 1 1 cc\nidle 9\nread 0 4",
    },
    Row {
        geometry: WIDE,
        blocks: 9,
        lines: "fill 0 4 aa\nfill 0 3 bb\nidle 2\nfill 3 1 cc\nidle 2\nfill 8 1 dd\nread 3 1",
    },
    Row {
        geometry: WIDE,
        blocks: 9,
        lines: "fill 0 4 11\ntrim 3 1\nfill 4 2 22\nfill 4 1 33\nfill 4 2 44\nidle 4\nremount\nread 3 1",
    },
    Row {
        geometry: WIDE,
        blocks: 9,
        lines: "fill 0 5 aa\nremount\nfill 2 4 bb\nremount\nread 1 4",
    },
    Row {
        geometry: WIDE,
        blocks: 9,
        lines: "fill 0 5 aa\nfill 0 1 bb\nidle 2\nremount\nidle 9\nread 0 4",
    },
    Row {
        geometry: WIDE,
        blocks: 4,
        lines: "fill 0 1 aa\ngrow 6\nremount\nread 5 1\nread 5 2",
    },
    Row {
        geometry: NARROW,
        blocks: 2,
        lines: "fill 0 1 a1\nfill 0 1 a2\nfill 1 1 a3\nfill 0 1 a4\nfill 0 1 a5\nfill 1 1 a6\nread 0 2",
    },
    Row {
        geometry: NARROW,
        blocks: 2,
        lines: "fill 0 1 a1\nfill 0 1 a2\nfill 0 1 a3\nidle 3\nfill 1 1 a4\nread 0 2",
    },
    Row {
        geometry: NARROW,
        blocks: 2,
        lines: "fill 0 1 a1\nfill 0 1 a2\nfill 0 1 a3\nidle 2\nremount\nidle 3\nfill 1 1 a4",
    },
    Row {
        geometry: LONG,
        blocks: 8,
        lines: "fill 0 7 aa\nfill 0 1 bb\nidle 3\ntrim 1 1\nidle 2\ngrow 12\nidle 1\nread 0 5",
    },
];

/// Answers a line of a trace. The disk is given back, and whether the line was done.
fn answer<D: Device + Drop>(
    alloc: Global,
    disk: AnyDisk<D>,
    line: &str,
    reply: &mut Vec<u8>,
) -> (AnyDisk<D>, bool) {
    reply.clear();
    let mut reader = LineReader::new(alloc, line.as_bytes());
    let (disk, result) = answer_any_trace(alloc, Taking::All, &mut reader, reply, disk);
    (disk, result.is_ok())
}

/// How many lines of a reply are others than they should be.
fn wrong_lines(reply: &[u8], right: &[u8]) -> Option<u32> {
    let mut wrong: u32 = 0;
    let mut rights = std::str::from_utf8(right).ok()?.lines();
    for line in std::str::from_utf8(reply).ok()?.lines() {
        if rights.next() != Some(line) {
            wrong = wrong.saturating_add(1);
        }
    }
    Some(wrong)
}

/// A row over a drive that does not lie: what it answered to each line, and its Reads.
#[derive(Drop)]
struct Told {
    replies: Vec<Vec<u8>>,
    reads: Vec<KeptRead>,
}

/// Runs a row over a drive that does not lie.
fn run_honestly(rt: &impl Abort, alloc: Global, row: &Row) -> Option<Told> {
    let device = KeepingDrive::new(alloc, Drive::new(alloc, row.geometry).ok()?);
    let Ok(mut disk) = AnyDisk::mount(alloc, device, row.blocks) else {
        return None;
    };
    let mut replies = Vec::new(alloc);
    for line in row.lines.lines() {
        let mut reply = Vec::new(alloc);
        let (left, is_done) = answer(alloc, disk, line, &mut reply);
        assert!(rt; is_done, "{line}");
        replies.push(reply).ok()?;
        disk = left;
    }
    let reads = disk.into_device().into_reads()?;
    Some(Told { replies, reads })
}

/// Runs a row over a drive that lies at a Read. It says whether the drive lied.
///
/// If the line in which it lied is a read, one of the blocks that this line shows is wrong, and nothing else.
fn run_lied(
    rt: &impl Abort,
    alloc: Global,
    row: &Row,
    replies: &[Vec<u8>],
    device: LyingDevice<Drive>,
) -> Option<bool> {
    let Ok(mut disk) = AnyDisk::mount(alloc, device, row.blocks) else {
        return None;
    };
    let mut reply = Vec::new(alloc);
    let mut has_lied = false;
    let mut is_in_read = true;
    for (line, right) in row.lines.lines().zip(replies) {
        let (left, is_done) = answer(alloc, disk, line, &mut reply);
        let is_first = !has_lied && left.device().has_lied();
        has_lied = left.device().has_lied();
        is_in_read = is_in_read && (!is_first || line.starts_with("read"));
        if is_in_read {
            assert!(rt; is_done, "{line}");
            assert_eq!(rt; wrong_lines(&reply, right), Some(u32::from(is_first)));
        }
        disk = left;
    }
    let disk = mounted(rt, alloc, disk.into_device().into_inner(), row.blocks);
    assert!(rt; !is_in_read || disk.is_some());
    Some(has_lied)
}

/// Runs a row with each lie about one of its Reads. It says how many drives lied.
fn lie_at(
    rt: &impl Abort,
    alloc: Global,
    row: &Row,
    told: &Told,
    others: &[KeptRead],
    number: usize,
) -> Option<u32> {
    let mut count: u32 = 0;
    for kind in 0..LIES {
        if let Some(instead) = lie(alloc, &told.reads, others, number, kind) {
            let drive = Drive::new(alloc, row.geometry).ok()?;
            let device = LyingDevice::new(drive, number as u64, instead);
            let has_lied = run_lied(rt, alloc, row, &told.replies, device)?;
            count = count.saturating_add(u32::from(has_lied));
        }
    }
    Some(count)
}

/// Runs a row with each lie about each of its Reads. It says how many drives lied.
fn lie_everywhere(rt: &impl Abort, alloc: Global, row: &Row, others: &[KeptRead]) -> Option<u32> {
    let told = run_honestly(rt, alloc, row)?;
    let mut count: u32 = 0;
    for number in 0..told.reads.len() {
        count = count.saturating_add(lie_at(rt, alloc, row, &told, others, number)?);
    }
    Some(count)
}

#[test]
fn each_line_of_the_worked_rows_ends_after_a_lie(rt: HostRuntime) {
    let alloc = rt.alloc();
    let others = run_honestly(&rt, alloc, &ROWS[5]).expect(&rt, "a run");
    for row in &ROWS {
        let count = lie_everywhere(&rt, alloc, row, &others.reads).expect(&rt, "runs");
        assert!(rt; count > 0);
    }
}
