// Readers and writers that fail, and lines without an end. `worked_runs` has the rows of the grammars and
// of the replies.

use crate::fakes::FullWriter;
use disk_files::{FailAfter, LONGEST_LINE, LineFault, LineReader, WriteFault, write_out};
use std::alloc::{AllocError, Global};
use std::io;
use std::io::Read;
use std::test::Fail;

/// The lines of a reader one after the other, each ended by a bar, and how reading them ended.
fn lines<R: Read + Drop>(
    alloc: Global,
    reader: R,
) -> Result<(Vec<u8>, Option<LineFault>), AllocError> {
    let mut reader = LineReader::new(alloc, reader);
    let mut all = Vec::new(alloc);
    for _ in 0..u64::MAX {
        match reader.next_line() {
            Ok(true) => {
                all.extend_from_slice(reader.line())?;
                all.push(b'|')?;
            }
            Ok(false) => return Ok((all, None)),
            Err(fault) => return Ok((all, Some(fault))),
        }
    }
    Ok((all, None))
}

const TRACE: &[u8] = b"fill 0 1 AA\nread 0 1";

/// What a reader has, how many bytes it gives before it fails, its lines, and how reading them ends.
const READ: [(&[u8], usize, &[u8], Option<LineFault>); 10] = [
    (b"", 9, b"", None),
    (b"\n", 9, b"|", None),
    (
        b"read 8 1\n\n# a\nread 99 0",
        99,
        b"read 8 1||# a|read 99 0|",
        None,
    ),
    (b"\0\0\n\0", 9, b"\0\0|\0|", None),
    (b"read 8 1\r\n", 99, b"read 8 1\r|", None),
    (TRACE, 0, b"", Some(LineFault::Input)),
    (TRACE, 11, b"", Some(LineFault::Input)),
    (TRACE, 12, b"fill 0 1 AA|", Some(LineFault::Input)),
    (TRACE, 20, b"fill 0 1 AA|", Some(LineFault::Input)),
    (TRACE, 21, b"fill 0 1 AA|read 0 1|", None),
];

/// The bytes come in pieces of each size.
#[test]
fn reads_lines(rt: HostRuntime) -> Result<(), Fail> {
    for (bytes, left, want, fault) in READ {
        for step in [1, 2, 3, 5000] {
            let read = lines(rt.alloc(), FailAfter::in_steps(bytes, left, step))?;
            assert_eq!(rt; (read.0.as_slice(), read.1), (want, fault));
        }
    }
    Ok(())
}

#[test]
fn ends_the_longest_line(rt: HostRuntime) -> Result<(), Fail> {
    for (length, want) in [
        (LONGEST_LINE, None),
        (LONGEST_LINE + 1, Some(LineFault::Long)),
    ] {
        let reader = io::repeat(b'#')
            .take(length as u64)
            .chain(b"\nread 8 1".as_slice());
        let mut reader = LineReader::new(rt.alloc(), reader);
        assert_eq!(rt; reader.next_line().err(), want);
    }
    let (all, fault) = lines(rt.alloc(), io::repeat(b'a'))?;
    assert_eq!(rt; (all.len(), fault), (0, Some(LineFault::Long)));
    Ok(())
}

#[test]
fn writes_what_a_writer_takes(rt: HostRuntime) {
    let reply = b"ok\n0 aa*512\nok\n";
    for left in 0..=15 {
        for step in [1, 2, 100] {
            let mut writer = FailAfter::in_steps(Vec::new(rt.alloc()), left, step);
            let want = if left == 15 { Ok(()) } else { Err(WriteFault) };
            assert_eq!(rt; write_out(&mut writer, reply), want);
            assert_eq!(rt; writer.inner.as_slice(), &reply[..left]);
        }
    }
    assert_eq!(rt; write_out(&mut FullWriter {}, reply), Err(WriteFault));
}
