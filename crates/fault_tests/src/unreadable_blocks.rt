// Disks over a drive that fails at each Read of one of its blocks.
//
// A read of the logical block whose newest data are there fails, and the disk serves on. Written or trimmed anew, the
// block is elsewhere. A clean that meets the block is undone, and another zone is cleaned. A write fails only if no
// other zone can be cleaned.

use crate::checked_runs::{CALLS, Found, Run, SHAPES, Shape, found_after};
use crate::random_calls::{Asked, Call};
use drive_port::Device;
use std::alloc::Global;
use std::process::Abort;
use yardsticks::FailingDevice;
use zone_drive::Drive;
use zone_translator::{DiskFault, DiskStatus, Place};

/// How many runs of calls by chance each shape has. Each of them is run anew for each block of the drive.
const SEEDS: u64 = 40;

/// How many calls failed, and how many blocks that could not be read were replaced.
#[derive(Clone, Copy)]
struct Counts {
    reads: u32,
    turns: u32,
    mounts: u32,
    /// Writes, trims and growths.
    writes: u32,
    /// Writes and trims of such blocks that were done.
    replaced: u32,
}

impl Counts {
    const NONE: Counts = Counts {
        reads: 0,
        turns: 0,
        mounts: 0,
        writes: 0,
        replaced: 0,
    };

    /// Counts a call that failed.
    fn count(&mut self, asked: Asked) {
        let count = match asked {
            Asked::Read | Asked::ReadJoined => &mut self.reads,
            Asked::Idle => &mut self.turns,
            Asked::Remount => &mut self.mounts,
            _ => &mut self.writes,
        };
        *count = count.saturating_add(1);
    }
}

/// A run over a drive that cannot read the block at an address.
#[derive(Drop)]
struct Unreadable {
    run: Run<FailingDevice<Drive>>,
    shape: Shape,
    address: u64,
}

impl Unreadable {
    /// Whether the newest data of one of these blocks are at the address.
    fn is_lost(&self, first: u64, blocks: u64) -> bool {
        for block in first..first.saturating_add(blocks) {
            if self.run.disk.place_of(block) == Place::At(self.address) {
                return true;
            }
        }
        false
    }

    /// How many zones are not Full, and how many of these are Empty, as the second byte of each descriptor says.
    fn unfilled(&mut self, rt: &impl Abort) -> (u32, u32) {
        let report = self.run.disk.report().expect(rt, "a report");
        let mut unfilled: u32 = 0;
        let mut empty: u32 = 0;
        for zone in report.chunks(64).skip(1) {
            let state = zone.get(1).copied().unwrap_or(0) >> 4;
            unfilled = unfilled.saturating_add(u32::from(state != 0xe));
            empty = empty.saturating_add(u32::from(state == 1));
        }
        (unfilled, empty)
    }

    /// How many zones could be cleaned, or are empty, beside the one that has the address.
    fn others_to_clean(&self) -> u32 {
        let mut count: u32 = 0;
        for zone in 0..self.shape.zones {
            let is_other = u64::from(zone) != self.address / 8;
            if is_other && self.shape.can_be_moved(self.run.disk.live(zone)) {
                count = count.saturating_add(1);
            }
        }
        count
    }

    /// A call failed in a clean, which met a live block that cannot be read. After a turn the clean is still to be
    /// undone. Any other call has tried all other zones: one is Empty, and none can be cleaned into it.
    fn check_clean(&mut self, rt: &impl Abort, call: &Call) {
        let blocks = self.run.disk.blocks();
        assert!(rt; self.is_lost(0, blocks));
        if call.asked == Asked::Idle {
            assert!(rt; self.run.disk.is_cleaning());
            return;
        }
        assert!(rt; !self.run.disk.is_cleaning());
        assert_eq!(rt; self.unfilled(rt), (1, 1));
        assert_eq!(rt; self.others_to_clean(), 1);
    }

    /// After a call that failed, all blocks can be read, but for one whose newest data are at the address. They show
    /// the array as before, with a front of the call's blocks.
    fn look(&mut self, rt: &impl Abort, call: &Call) -> Option<()> {
        let shown = self.run.look(rt)?;
        let mut block: u64 = 0;
        for byte in &shown {
            assert_eq!(rt; byte.is_none(), self.is_lost(block, 1));
            block = block.wrapping_add(1);
        }
        self.run.check_front(rt, call, &shown);
        Some(())
    }

    /// Checks how a call ended that failed.
    fn check_failed(&mut self, rt: &impl Abort, call: &Call) -> Option<()> {
        match call.asked {
            Asked::Remount => {
                assert_eq!(rt; self.run.disk.status(), DiskStatus::Unmounted);
                assert!(rt; self.run.disk.flush() == Err(DiskFault::Unmounted));
                return Some(());
            }
            Asked::Read | Asked::ReadJoined => {
                assert!(rt; self.is_lost(u64::from(call.first), u64::from(call.blocks)));
            }
            Asked::Flush | Asked::Report => panic!(rt; "a call without Reads failed"),
            _ => self.check_clean(rt, call),
        }
        assert_eq!(rt; self.run.disk.status(), DiskStatus::Serving);
        self.look(rt, call)
    }

    /// Asks the disk for a call, which is done or fails.
    fn ask(&mut self, rt: &impl Abort, call: &Call, counts: &mut Counts) -> Option<()> {
        let was_lost = self.is_lost(u64::from(call.first), u64::from(call.blocks));
        let outcome = self.run.ask_any(rt, call);
        let device = self.run.disk.device();
        let most = call.most_commands(&device.geometry(), device.has_failed());
        assert!(rt; outcome.taken <= most, "too many commands");
        assert_eq!(rt; outcome.wrong, 0);
        if !outcome.is_done() {
            assert!(rt; outcome.answer == Err(DiskFault::Failed));
            counts.count(call.asked);
            return self.check_failed(rt, call);
        }
        assert!(rt; !was_lost || !call.reads());
        if was_lost && call.writes() {
            counts.replaced = counts.replaced.saturating_add(1);
        }
        Some(())
    }
}

/// Runs with the same calls, each over a drive that cannot read another block.
#[derive(Clone, Copy)]
struct Sweep {
    alloc: Global,
    shape: Shape,
    seed: u64,
    /// Whether the disk is mounted again in between. A mount that is refused ends the run.
    remounts: bool,
}

impl Sweep {
    /// A run over a drive that cannot read the block at an address. The drive then holds what the calls say.
    fn run(&self, rt: &impl Abort, address: u64, counts: &mut Counts) -> Option<()> {
        let device = FailingDevice::unreadable(self.shape.drive(self.alloc)?, address);
        let run = Run::new(self.alloc, device, self.shape.blocks, self.seed)?;
        let mut unreadable = Unreadable {
            run,
            shape: self.shape,
            address,
        };
        for _ in 0..CALLS {
            let call = unreadable.run.next_call();
            if self.remounts || call.asked != Asked::Remount {
                unreadable.ask(rt, &call, counts)?;
            }
            if unreadable.run.disk.status() == DiskStatus::Unmounted {
                break;
            }
        }
        let run = unreadable.run;
        let drive = run.disk.into_device().into_inner();
        assert_eq!(rt; found_after(rt, self.alloc, drive, &run.plain), Found::Same);
        Some(())
    }

    /// The runs for each block of a zone.
    fn run_zone(&self, rt: &impl Abort, start: u64, counts: &mut Counts) -> Option<()> {
        for block in 0..u64::from(self.shape.capacity) {
            self.run(rt, start.saturating_add(block), counts)?;
        }
        Some(())
    }

    /// The runs for each block of the drive.
    fn run_everywhere(&self, rt: &impl Abort, counts: &mut Counts) -> Option<()> {
        for zone in 0..u64::from(self.shape.zones) {
            self.run_zone(rt, zone.saturating_mul(8), counts)?;
        }
        Some(())
    }
}

/// What all runs of a shape met.
fn counts_of(rt: &impl Abort, alloc: Global, shape: &Shape, remounts: bool) -> Counts {
    let mut counts = Counts::NONE;
    for seed in 1..=SEEDS {
        let sweep = Sweep {
            alloc,
            shape: *shape,
            seed,
            remounts,
        };
        sweep.run_everywhere(rt, &mut counts).expect(rt, "runs");
    }
    counts
}

/// The runs of a shape, first without remounts. Of reads, turns and mounts some fail, of writes only where all other
/// zones may have too many live records.
fn check(rt: &impl Abort, alloc: Global, shape: &Shape, may_lack: bool) {
    let counts = counts_of(rt, alloc, shape, false);
    assert_eq!(rt; counts.mounts, 0);
    assert!(rt; counts.reads > 0);
    assert!(rt; counts.turns > 0);
    assert_eq!(rt; counts.writes > 0, may_lack);
    assert!(rt; counts.replaced > 0);
    let counts = counts_of(rt, alloc, shape, true);
    assert!(rt; counts.mounts > 0);
    assert_eq!(rt; counts.writes > 0, may_lack);
    assert!(rt; counts.replaced > 0);
}

#[test]
fn an_unreadable_block_fails_alone_with_three_open_zones(rt: HostRuntime) {
    check(&rt, rt.alloc(), &SHAPES[0], false);
}

#[test]
fn an_unreadable_block_fails_alone_with_two_open_zones(rt: HostRuntime) {
    check(&rt, rt.alloc(), &SHAPES[1], false);
}

#[test]
fn an_unreadable_block_fails_alone_with_one_open_zone(rt: HostRuntime) {
    check(&rt, rt.alloc(), &SHAPES[2], false);
}

#[test]
fn an_unreadable_block_fails_alone_with_eight_zones(rt: HostRuntime) {
    check(&rt, rt.alloc(), &SHAPES[3], false);
}

#[test]
fn an_unreadable_block_fails_alone_with_three_zones(rt: HostRuntime) {
    check(&rt, rt.alloc(), &SHAPES[4], true);
}
