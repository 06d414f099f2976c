// Cleans that meet a block which cannot be read, while other zones can be cleaned: each write is done.
//
// The first two are the smallest ones in which a write failed. The turns of one clean were not enough to undo it and to
// clean another zone. Or the clean that was undone had taken one of two Empty zones, and no other zone was due.

use crate::checked_runs::{Found, Run, SHAPES, found_after};
use crate::random_calls::{Asked, Call};
use drive_port::Device;
use std::alloc::Global;
use std::process::Abort;
use yardsticks::FailingDevice;
use zone_translator::DiskFault;

/// Fills, by their first block and how many there are, after which four zones are full. The turns of one clean are not
/// enough to undo that of the first zone, if its block 2 cannot be read, and to clean the second one.
const FOUR_ZONES: [(u32, u32); 9] = [
    (0, 3),
    (3, 1),
    (4, 3),
    (7, 1),
    (8, 3),
    (0, 1),
    (1, 1),
    (4, 1),
    (5, 1),
];

/// Fills after which three zones are full, and two are Empty. Only the first one is worth a clean.
const THREE_ZONES: [(u32, u32); 6] = [(0, 3), (3, 1), (4, 3), (7, 1), (8, 3), (0, 1)];

/// Fills after which seven zones are full. The first three have one live block each: 0, 3 and 6.
const SEVEN_ZONES: [(u32, u32); 10] = [
    (0, 3),
    (3, 3),
    (6, 3),
    (9, 3),
    (1, 2),
    (4, 2),
    (7, 2),
    (9, 1),
    (1, 1),
    (5, 1),
];

/// How the blocks are written on.
#[derive(Clone, Copy)]
struct Way {
    /// The block that is written first. The others follow in order.
    from: u32,
    /// How many turns of cleaning are taken before each write.
    turns: u32,
    /// Whether the disk is mounted again before each write. A mount knows of no block that cannot be read.
    remounts: bool,
}

/// A call about so many blocks.
fn call(asked: Asked, first: u32, blocks: u32, byte: u8) -> Call {
    Call {
        asked,
        first,
        blocks,
        byte,
    }
}

/// Asks for a call, which takes no more commands than one may that meets blocks which cannot be read.
fn ask<D: Device + Drop>(rt: &impl Abort, run: &mut Run<D>, call: &Call) -> Result<(), DiskFault> {
    let most = call.most_commands(&run.disk.device().geometry(), true);
    let outcome = run.ask_any(rt, call);
    assert!(rt; outcome.taken <= most, "too many commands");
    outcome.answer
}

/// What comes before a write. A turn may fail, since it gathers a block that cannot be read.
fn prepare<D: Device + Drop>(rt: &impl Abort, run: &mut Run<D>, way: Way) {
    if way.remounts {
        assert!(rt; ask(rt, run, &call(Asked::Remount, 0, 0, 0)) == Ok(()));
    }
    for _ in 0..way.turns {
        let answer = ask(rt, run, &call(Asked::Idle, 0, 0, 0));
        assert!(rt; answer == Ok(()) || answer == Err(DiskFault::Failed));
    }
}

/// After a write all blocks show what they should, but for those that cannot be read.
fn look<D: Device + Drop>(
    rt: &impl Abort,
    run: &mut Run<D>,
    write: &Call,
    lost: &[u32],
) -> Option<()> {
    let shown = run.look(rt)?;
    let mut block: u32 = 0;
    for byte in &shown {
        assert_eq!(rt; byte.is_none(), lost.contains(&block));
        block = block.wrapping_add(1);
    }
    run.check_front(rt, write, &shown);
    Some(())
}

/// Writes a block, which is done.
fn write_one<D: Device + Drop>(
    rt: &impl Abort,
    run: &mut Run<D>,
    block: u32,
    byte: u8,
    lost: &[u32],
) -> Option<()> {
    let write = call(Asked::Fill, block, 1, byte);
    let answer = ask(rt, run, &write);
    assert!(rt; answer == Ok(()), "the write of block {block} is not done");
    look(rt, run, &write, lost)
}

/// Fills blocks of a new disk, and then writes three times each block that can be read.
fn written_on<D: Device + Drop>(
    rt: &impl Abort,
    mut run: Run<D>,
    fills: &[(u32, u32)],
    way: Way,
    lost: &[u32],
) -> Option<Run<D>> {
    let mut byte: u8 = 0;
    for fill in fills {
        byte = byte.wrapping_add(1);
        assert!(rt; ask(rt, &mut run, &call(Asked::Fill, fill.0, fill.1, byte)) == Ok(()));
    }
    let blocks = (run.disk.blocks().min(100) as u32).max(1);
    for number in 0..blocks.saturating_mul(3) {
        let block = way.from.wrapping_add(number) % blocks;
        if !lost.contains(&block) {
            prepare(rt, &mut run, way);
            byte = byte.wrapping_add(1);
            write_one(rt, &mut run, block, byte, lost)?;
        }
    }
    Some(run)
}

/// One block cannot be read, at an address of a drive with five zones.
fn check_one(
    rt: &impl Abort,
    alloc: Global,
    fills: &[(u32, u32)],
    address: u64,
    lost: u32,
    way: Way,
) -> Option<()> {
    let shape = &SHAPES[0];
    let device = FailingDevice::unreadable(shape.drive(alloc)?, address);
    let run = Run::new(alloc, device, shape.blocks, 1)?;
    let run = written_on(rt, run, fills, way, &[lost])?;
    let drive = run.disk.into_device().into_inner();
    assert_eq!(rt; found_after(rt, alloc, drive, &run.plain), Found::Same);
    Some(())
}

/// Three blocks cannot be read, in the three zones of eight that have the fewest live records.
fn check_three(rt: &impl Abort, alloc: Global, fills: &[(u32, u32)], way: Way) -> Option<()> {
    let shape = &SHAPES[3];
    let first = FailingDevice::unreadable(shape.drive(alloc)?, 1);
    let device = FailingDevice::unreadable(FailingDevice::unreadable(first, 9), 17);
    let run = Run::new(alloc, device, shape.blocks, 1)?;
    let run = written_on(rt, run, fills, way, &[0, 3, 6])?;
    let drive = run
        .disk
        .into_device()
        .into_inner()
        .into_inner()
        .into_inner();
    assert_eq!(rt; found_after(rt, alloc, drive, &run.plain), Found::Same);
    Some(())
}

/// Each way to write on, from any of so many blocks.
fn ways(alloc: Global, blocks: u32) -> Option<Vec<Way>> {
    let mut ways = Vec::new(alloc);
    for from in 0..blocks {
        for turns in 0..5 {
            for remounts in [false, true] {
                let way = Way {
                    from,
                    turns,
                    remounts,
                };
                ways.push(way).ok()?;
            }
        }
    }
    Some(ways)
}

#[test]
fn a_write_goes_on_after_the_turns_of_one_clean(rt: HostRuntime) {
    let alloc = rt.alloc();
    let ways = ways(alloc, 11).expect(&rt, "ways");
    for way in &ways {
        check_one(&rt, alloc, &FOUR_ZONES, 3, 2, *way).expect(&rt, "a run");
    }
}

#[test]
fn a_write_takes_the_second_of_two_empty_zones(rt: HostRuntime) {
    let alloc = rt.alloc();
    let ways = ways(alloc, 11).expect(&rt, "ways");
    for way in &ways {
        check_one(&rt, alloc, &THREE_ZONES, 2, 1, *way).expect(&rt, "a run");
    }
}

#[test]
fn a_write_goes_on_past_three_zones_that_are_left_out(rt: HostRuntime) {
    let alloc = rt.alloc();
    let ways = ways(alloc, 12).expect(&rt, "ways");
    for way in &ways {
        check_three(&rt, alloc, &SEVEN_ZONES, *way).expect(&rt, "a run");
    }
}
