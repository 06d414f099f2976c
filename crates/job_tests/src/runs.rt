// Readers and writers that fail. `worked_runs` has the rows of traces and raw lines.

use crate::fakes::FlushedWriter;
use batch_log::LogFault;
use disk_files::{FailAfter, LineReader};
use disk_runs::{RunFault, run_raw, run_trace, write_fault};
use drive_port::Geometry;
use std::alloc::Global;
use std::process::Abort;
use std::test::Fail;
use zone_drive::Drive;
use zone_states::{GeometryFault, ZoneState};
use zone_translator::{DiskFault, MountFault};

/// Zones of 6 blocks in 8, two of which may be active and open; 9 logical blocks are served.
fn drive(rt: &impl Abort, alloc: Global) -> Drive {
    let geometry = Geometry {
        block: 512,
        zones: 4,
        size: 8,
        capacity: 6,
        transfer: 4,
        active: 2,
        open: 2,
    };
    Drive::new(alloc, geometry).expect(rt, "a drive")
}

const TRACE: &[u8] = b"fill 0 1 AA\nread 0 1\n";

const REPLIES: &[u8] = b"ok\n0 aa*512\nok\n";

#[test]
fn ends_where_the_reader_fails(rt: HostRuntime) {
    for left in 0..=TRACE.len() {
        for step in [1, 100] {
            let failing = FailAfter::in_steps(TRACE, left, step);
            let mut reader = LineReader::new(rt.alloc(), failing);
            let mut replies = Vec::new(rt.alloc());
            let drive = drive(&rt, rt.alloc());
            let (_, result) = run_trace(rt.alloc(), &mut reader, &mut replies, drive, 9);
            let want = if left < 12 {
                b"".as_slice()
            } else if left < 21 {
                b"ok\n".as_slice()
            } else {
                REPLIES
            };
            assert_eq!(rt; (replies.as_slice(), result), (want, Err(RunFault::Input)));
        }
    }
}

/// A raw line that finishes the zone at the address 16.
pub const FINISH: &[u8] =
    b"79000100010000000000000000000000000000000000000000000000000000000000000000000000\
     100000000000000000000000020000000000000000000000\n";

const RAW_REPLIES: &[u8] = b"00000000000000000000000001000000\n00000000000000000000000007000200\n";

/// The reader gives the first bytes of that line and of one without a command.
#[test]
fn ends_where_the_reader_of_raw_lines_fails(rt: HostRuntime) -> Result<(), Fail> {
    let mut lines = Vec::from_slice(rt.alloc(), FINISH)?;
    lines.extend_from_slice(b"0f00070001000000")?;
    lines.resize(257, b'0')?;
    lines.push(b'\n')?;
    for (left, replied, state) in [
        (0, 0, ZoneState::Empty),
        (128, 0, ZoneState::Empty),
        (129, 33, ZoneState::Full),
        (257, 33, ZoneState::Full),
        (258, 66, ZoneState::Full),
    ] {
        let failing = FailAfter::in_steps(lines.as_slice(), left, 50);
        let mut reader = LineReader::new(rt.alloc(), failing);
        let mut replies = Vec::new(rt.alloc());
        let drive = drive(&rt, rt.alloc());
        let (drive, result) = run_raw(rt.alloc(), &mut reader, &mut replies, drive);
        assert_eq!(rt; result, Err(RunFault::Input));
        assert_eq!(rt; replies.as_slice(), &RAW_REPLIES[..replied]);
        let zone = drive.zone(2).expect(&rt, "the zone");
        assert_eq!(rt; zone.state(), state);
    }
    Ok(())
}

/// Replies are sent if no whole line waits: once for lines that come together, and after each that comes alone.
#[test]
fn sends_replies_where_no_line_waits(rt: HostRuntime) {
    for (step, flushes) in [(100, [15].as_slice()), (1, [3, 15].as_slice())] {
        let in_steps = FailAfter::in_steps(TRACE, 100, step);
        let mut reader = LineReader::new(rt.alloc(), in_steps);
        let mut writer = FlushedWriter {
            bytes: 0,
            flushes: Vec::new(rt.alloc()),
        };
        let drive = drive(&rt, rt.alloc());
        let (_, result) = run_trace(rt.alloc(), &mut reader, &mut writer, drive, 9);
        assert_eq!(rt; (writer.flushes.as_slice(), result), (flushes, Ok(())));
    }
}

/// The writer takes the first bytes of the replies to a trace, and to two raw lines without a command.
#[test]
fn ends_where_the_writer_fails(rt: HostRuntime) -> Result<(), Fail> {
    let mut lines = Vec::from_slice(rt.alloc(), b"0f00070001000000")?;
    lines.resize(128, b'0')?;
    lines.extend_from_slice(b"\n#\n")?;
    let raw_reply = b"00000000000000000000000007000200\n";
    for (is_trace, replies) in [(true, REPLIES), (false, raw_reply.as_slice())] {
        for left in 0..=replies.len() {
            let mut writer = FailAfter::in_steps(Vec::new(rt.alloc()), left, 1 + left % 5);
            let drive = drive(&rt, rt.alloc());
            let (_, result) = if is_trace {
                let mut reader = LineReader::new(rt.alloc(), TRACE);
                run_trace(rt.alloc(), &mut reader, &mut writer, drive, 9)
            } else {
                let mut reader = LineReader::new(rt.alloc(), lines.as_slice());
                run_raw(rt.alloc(), &mut reader, &mut writer, drive)
            };
            let want = if left < replies.len() {
                Err(RunFault::Output)
            } else {
                Ok(())
            };
            assert_eq!(rt; writer.inner.as_slice(), &replies[..left]);
            assert_eq!(rt; result, want);
        }
    }
    Ok(())
}

/// Faults and their lines. `worked_runs` shows the others.
const FAULT_LINES: [(RunFault, &str); 11] = [
    (
        RunFault::Long(u64::MAX),
        "fault long 18446744073709551615\n",
    ),
    (
        RunFault::Disk(DiskFault::Unmounted),
        "fault disk 5 Unmounted\n",
    ),
    (RunFault::Disk(DiskFault::Damaged), "fault disk 9 Damaged\n"),
    (RunFault::Disk(DiskFault::Failed), "fault disk 10 Failed\n"),
    (
        RunFault::Mount(MountFault::Limits),
        "fault mount 2 Limits\n",
    ),
    (
        RunFault::Mount(MountFault::Log(0, 4, LogFault::Torn)),
        "fault mount 4 Log 0 4 7 Torn\n",
    ),
    (
        RunFault::Mount(MountFault::Damaged),
        "fault mount 14 Damaged\n",
    ),
    (
        RunFault::Mount(MountFault::Failed),
        "fault mount 15 Failed\n",
    ),
    (RunFault::Input, "fault input\n"),
    (RunFault::Output, "fault output\n"),
    (RunFault::Memory, "fault memory\n"),
];

/// Writes the line of a fault to a writer that takes at most `left` bytes, and compares what it took.
fn check_fault_line(rt: &impl Abort, alloc: Global, fault: RunFault, left: usize, line: &str) {
    let mut writer = FailAfter::in_steps(Vec::new(alloc), left, 7);
    let want = if left < line.len() {
        Err(RunFault::Output)
    } else {
        Ok(())
    };
    assert_eq!(rt; write_fault(alloc, fault, &mut writer), want);
    let taken = left.min(line.len());
    assert_eq!(rt; writer.inner.as_slice(), &line.as_bytes()[..taken]);
}

/// The line of a fault, and a writer that takes the line without its line feed.
#[test]
fn writes_the_line_of_a_fault(rt: HostRuntime) {
    for (fault, line) in &FAULT_LINES {
        check_fault_line(&rt, rt.alloc(), *fault, line.len(), line);
        check_fault_line(&rt, rt.alloc(), *fault, line.len().saturating_sub(1), line);
    }
}

/// As text a fault is the name of its variant.
const MESSAGES: [(RunFault, &str); 8] = [
    (RunFault::Line(2), "Line"),
    (RunFault::Long(2), "Long"),
    (RunFault::Disk(DiskFault::Stopped), "Disk"),
    (RunFault::Mount(MountFault::Halted), "Mount"),
    (RunFault::Geometry(GeometryFault::Block), "Geometry"),
    (RunFault::Input, "Input"),
    (RunFault::Output, "Output"),
    (RunFault::Memory, "Memory"),
];

#[test]
fn names_all_faults(rt: HostRuntime) -> Result<(), Fail> {
    for (fault, name) in &MESSAGES {
        let message = format!(in rt.alloc(); "{fault}")?;
        assert_eq!(rt; message.as_str(), *name);
    }
    Ok(())
}
