// Disks over a drive that returns other bytes at one Read than it holds.

use crate::checked_runs::{CALLS, Found, Run, SHAPES, Shape, found_after, kept_reads};
use crate::kept_reads::KeptRead;
use crate::random_calls::{Asked, Call};
use crate::told_lies::{LIES, lie};
use std::alloc::Global;
use std::process::Abort;
use yardsticks::LyingDevice;
use zone_drive::Drive;
use zone_translator::DiskStatus;

/// How many runs of calls by chance each shape has. Each of them is run anew for each lie.
const SEEDS: u64 = 10;

/// What runs met in which a Read lied.
#[derive(Clone, Copy)]
struct Counts {
    /// How many runs there were.
    runs: u32,
    /// How many disks have then answered `Damaged`, and `Stopped` to what came next, though the drive had not stopped.
    damaged: u32,
    /// How many disks have then refused a remount.
    unmounted: u32,
    /// How many drives could not be mounted after the run.
    refused: u32,
    /// How many drives were mounted after it, and had other blocks than the plain array.
    changed: u32,
}

impl Counts {
    const NONE: Counts = Counts {
        runs: 0,
        damaged: 0,
        unmounted: 0,
        refused: 0,
        changed: 0,
    };

    fn add(&mut self, other: Counts) {
        self.runs = self.runs.saturating_add(other.runs);
        self.damaged = self.damaged.saturating_add(other.damaged);
        self.unmounted = self.unmounted.saturating_add(other.unmounted);
        self.refused = self.refused.saturating_add(other.refused);
        self.changed = self.changed.saturating_add(other.changed);
    }
}

/// The same, by the call in which the Read lied.
#[derive(Clone, Copy)]
struct Sums {
    /// How many runs had no such Read, or one that had these bytes anyway.
    honest: u32,
    reads: Counts,
    mounts: Counts,
    cleans: Counts,
}

impl Sums {
    const NONE: Sums = Sums {
        honest: 0,
        reads: Counts::NONE,
        mounts: Counts::NONE,
        cleans: Counts::NONE,
    };

    fn add(&mut self, told: Option<Call>, counts: Counts) {
        match told {
            None => self.honest = self.honest.saturating_add(1),
            Some(call) if call.reads() => self.reads.add(counts),
            Some(call) if call.asked == Asked::Remount => self.mounts.add(counts),
            Some(_) => self.cleans.add(counts),
        }
    }
}

/// A run in which a Read lies. It tells the call in which it lied, if it did.
fn run_lied(
    rt: &impl Abort,
    mut run: Run<LyingDevice<Drive>>,
    counts: &mut Counts,
) -> Option<Call> {
    let mut told: Option<Call> = None;
    for _ in 0..CALLS {
        let call = run.next_call();
        let outcome = run.ask(rt, &call);
        if !outcome.is_done() {
            run.plain.follow(&call, false).expect(rt, "memory");
        }
        let is_first = told.is_none() && run.disk.device().has_lied();
        if is_first {
            told = Some(call);
        }
        // The bytes of a read change nothing but what it shows.
        if told.is_none_or(|call| call.reads()) {
            assert!(rt; outcome.is_done());
            assert_eq!(rt; outcome.wrong, u32::from(is_first));
        }
        match run.disk.status() {
            DiskStatus::Serving => (),
            DiskStatus::Stopped => counts.damaged = 1,
            DiskStatus::Unmounted => counts.unmounted = 1,
        }
    }
    counts.runs = 1;
    let drive = run.disk.into_device().into_inner();
    match found_after(rt, run.alloc, drive, &run.plain) {
        Found::Same => (),
        Found::Other => counts.changed = 1,
        Found::Nothing => counts.refused = 1,
    }
    told
}

/// The runs with the same calls, each with another lie.
#[derive(Drop)]
struct Sweep {
    alloc: Global,
    shape: Shape,
    seed: u64,
    /// The Reads of the run in which none lies.
    reads: Vec<KeptRead>,
    /// Those of another run.
    others: Vec<KeptRead>,
}

impl Sweep {
    fn new(rt: &impl Abort, alloc: Global, shape: &Shape, seed: u64) -> Option<Sweep> {
        Some(Sweep {
            alloc,
            shape: *shape,
            seed,
            reads: kept_reads(rt, alloc, shape, seed)?,
            others: kept_reads(rt, alloc, shape, seed.wrapping_add(1000))?,
        })
    }

    /// A run in which the Read with this number returns other bytes.
    fn run(&self, rt: &impl Abort, number: usize, instead: Vec<u8>, sums: &mut Sums) -> Option<()> {
        let drive = self.shape.drive(self.alloc)?;
        let device = LyingDevice::new(drive, number as u64, instead);
        let run = Run::new(self.alloc, device, self.shape.blocks, self.seed)?;
        let mut counts = Counts::NONE;
        let told = run_lied(rt, run, &mut counts);
        sums.add(told, counts);
        Some(())
    }

    /// The runs in which the Read with this number lies, by each lie.
    fn lie_at(&self, rt: &impl Abort, number: usize, sums: &mut Sums) -> Option<()> {
        for kind in 0..LIES {
            if let Some(instead) = lie(self.alloc, &self.reads, &self.others, number, kind) {
                self.run(rt, number, instead, sums)?;
            }
        }
        Some(())
    }

    /// The runs in which a Read lies, for each Read.
    fn lie_everywhere(&self, rt: &impl Abort, sums: &mut Sums) -> Option<()> {
        for number in 0..self.reads.len() {
            self.lie_at(rt, number, sums)?;
        }
        Some(())
    }
}

/// What all runs of a shape met.
fn sums_of(rt: &impl Abort, alloc: Global, shape: &Shape) -> Sums {
    let mut sums = Sums::NONE;
    for seed in 1..=SEEDS {
        let sweep = Sweep::new(rt, alloc, shape, seed).expect(rt, "a run");
        sweep.lie_everywhere(rt, &mut sums).expect(rt, "runs");
    }
    sums
}

/// The runs of a shape. Those whose lie is in a read of the disk go on as if there were none.
fn check(rt: &impl Abort, alloc: Global, shape: &Shape) {
    let sums = sums_of(rt, alloc, shape);
    let Counts {
        runs,
        damaged,
        unmounted,
        refused,
        changed,
    } = sums.reads;
    assert!(rt; runs > 0);
    assert_eq!(rt; (damaged, unmounted, refused, changed), (0, 0, 0, 0));
    assert!(rt; sums.mounts.unmounted > 0);
    assert!(rt; sums.cleans.runs > 0);
}

#[test]
fn each_call_ends_after_a_lie_with_three_open_zones(rt: HostRuntime) {
    check(&rt, rt.alloc(), &SHAPES[0]);
}

#[test]
fn each_call_ends_after_a_lie_with_two_open_zones(rt: HostRuntime) {
    check(&rt, rt.alloc(), &SHAPES[1]);
}

#[test]
fn each_call_ends_after_a_lie_with_one_open_zone(rt: HostRuntime) {
    check(&rt, rt.alloc(), &SHAPES[2]);
}

#[test]
fn each_call_ends_after_a_lie_with_eight_zones(rt: HostRuntime) {
    check(&rt, rt.alloc(), &SHAPES[3]);
}
