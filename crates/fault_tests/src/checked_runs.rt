// Runs of random calls on a disk over a small drive.

use crate::kept_reads::{KeepingDrive, KeptRead};
use crate::random_calls::{Call, PlainArray, filled_with};
use drive_port::Device;
use std::alloc::Global;
use std::process::Abort;
use zone_drive::{Drive, may_hold};
use zone_states::{Geometry, is_active, is_open};
use zone_translator::{AnyDisk, DiskFault, DiskStatus};

/// How many calls a run has.
pub const CALLS: u32 = 60;

/// A drive, and a disk on it that has nearly as many blocks as the reserve allows, so that cleans move blocks.
#[derive(Clone, Copy)]
pub struct Shape {
    pub zones: u32,
    pub capacity: u32,
    pub transfer: u32,
    /// How many zones may be active, and how many open.
    pub limits: (u32, u32),
    pub blocks: u64,
}

pub const SHAPES: [Shape; 5] = [
    Shape {
        zones: 5,
        capacity: 6,
        transfer: 4,
        limits: (3, 3),
        blocks: 11,
    },
    Shape {
        zones: 6,
        capacity: 6,
        transfer: 2,
        limits: (2, 2),
        blocks: 9,
    },
    Shape {
        zones: 5,
        capacity: 7,
        transfer: 3,
        limits: (3, 1),
        blocks: 11,
    },
    Shape {
        zones: 8,
        capacity: 6,
        transfer: 2,
        limits: (2, 1),
        blocks: 12,
    },
    // The only one with so few zones that all others may have too many live records to be cleaned.
    Shape {
        zones: 3,
        capacity: 8,
        transfer: 4,
        limits: (2, 2),
        blocks: 7,
    },
];

impl Shape {
    fn geometry(&self) -> Geometry {
        Geometry {
            block: 512,
            zones: self.zones,
            size: 8,
            capacity: self.capacity,
            transfer: self.transfer,
            active: self.limits.0,
            open: self.limits.1,
        }
    }

    /// Whether so many records can be moved to an empty zone, with two of its blocks left. Each Move has a header.
    pub fn can_be_moved(&self, records: u32) -> bool {
        let moves = records.div_ceil(self.transfer.saturating_sub(1).max(1));
        let needed = records.saturating_add(moves).saturating_add(2);
        needed <= self.capacity
    }

    /// A drive of this shape on which nothing is written.
    pub fn drive(&self, alloc: Global) -> Option<Drive> {
        Drive::new(alloc, self.geometry()).ok()
    }
}

/// A run of calls on a disk, and the array to which they should lead.
#[derive(Drop)]
pub struct Run<D: Device + Drop> {
    pub alloc: Global,
    pub disk: AnyDisk<D>,
    pub plain: PlainArray,
    state: u64,
    shown: Vec<u8>,
}

/// What became of a call.
#[derive(Clone, Copy)]
pub struct Outcome {
    pub answer: Result<(), DiskFault>,
    /// How many of the blocks that it showed are wrong.
    pub wrong: u32,
    /// How many commands it took.
    pub taken: u64,
}

impl Outcome {
    /// Whether it is done, or is a growth that the reserve does not allow.
    pub fn is_done(&self) -> bool {
        self.answer == Ok(()) || self.answer == Err(DiskFault::Reserve)
    }
}

impl<D: Device + Drop> Run<D> {
    pub fn new(alloc: Global, device: D, blocks: u64, seed: u64) -> Option<Run<D>> {
        let Ok(disk) = AnyDisk::mount(alloc, device, blocks) else {
            return None;
        };
        Some(Run {
            alloc,
            disk,
            plain: PlainArray::new(alloc, blocks)?,
            state: seed,
            shown: Vec::new(alloc),
        })
    }

    /// The next call, by chance.
    pub fn next_call(&mut self) -> Call {
        let blocks = self.disk.blocks();
        Call::next(&mut self.state, blocks)
    }

    /// Asks the disk for a call of which no command fails. It takes no more commands than it may.
    pub fn ask(&mut self, rt: &impl Abort, call: &Call) -> Outcome {
        let most = call.most_commands(&self.disk.device().geometry(), false);
        let outcome = self.ask_any(rt, call);
        assert!(rt; outcome.taken <= most, "too many commands");
        outcome
    }

    /// Asks the disk for a call. The drive does not stop. If the call is done, the plain array does it, too.
    pub fn ask_any(&mut self, rt: &impl Abort, call: &Call) -> Outcome {
        let before = self.disk.device().completed();
        let status = self.disk.status();
        let answer = call.perform(self.alloc, &mut self.disk, &mut self.shown);
        let taken = self.disk.device().completed().saturating_sub(before);
        // The drive does not stop, so a disk answers `Stopped` only after `Damaged`.
        assert!(rt; !self.disk.device().stopped());
        assert!(rt; answer != Err(DiskFault::Stopped) || status == DiskStatus::Stopped);
        let wrong = match answer {
            Ok(()) if call.reads() => self.plain.wrong(call.first, &self.shown),
            _ => 0,
        };
        if answer == Ok(()) {
            self.plain.follow(call, true).expect(rt, "memory");
        }
        Outcome {
            answer,
            wrong,
            taken,
        }
    }

    /// What each block shows: the byte that it is filled with, or nothing if the drive fails at its Read.
    pub fn look(&mut self, rt: &impl Abort) -> Option<Vec<Option<u8>>> {
        let mut shown = Vec::new(self.alloc);
        for block in 0..self.disk.blocks() {
            let answer = self.disk.read(block, 1, &mut self.shown);
            let byte = filled_with(&self.shown);
            assert!(rt; byte.is_some() || answer == Err(DiskFault::Failed));
            shown.push(byte).ok()?;
        }
        Some(shown)
    }

    /// What the blocks show after a refused call: the drive has written a front of the call's blocks, and nothing else.
    pub fn check_front(&mut self, rt: &impl Abort, call: &Call, shown: &[Option<u8>]) {
        assert_eq!(rt; self.disk.blocks(), self.plain.blocks());
        assert!(rt; self.plain.shows_front(call, shown));
        self.plain.settle(call, shown).expect(rt, "memory");
    }

    /// The drive of a run in which each call is done, and shows what the plain array has.
    pub fn into_device_after(mut self, rt: &impl Abort) -> D {
        for _ in 0..CALLS {
            let call = self.next_call();
            let outcome = self.ask(rt, &call);
            assert!(rt; outcome.is_done() && outcome.wrong == 0);
        }
        self.disk.into_device()
    }
}

/// Whether the zones of a drive are as its rules ask.
fn keeps_rules(drive: &Drive) -> bool {
    let geometry = drive.geometry();
    let mut active = 0_u32;
    let mut open = 0_u32;
    for zone in drive.zones() {
        if !may_hold(zone.state(), geometry.capacity, zone.blocks(&geometry)) {
            return false;
        }
        active = active.saturating_add(u32::from(is_active(zone.state())));
        open = open.saturating_add(u32::from(is_open(zone.state())));
    }
    active <= geometry.active && open <= geometry.open
}

/// Mounts the drive that a run left. Whatever the mount answers, the zones are as the drive's rules ask.
pub fn mounted(
    rt: &impl Abort,
    alloc: Global,
    drive: Drive,
    blocks: u64,
) -> Option<AnyDisk<Drive>> {
    assert!(rt; keeps_rules(&drive));
    match AnyDisk::mount(alloc, drive, blocks) {
        Ok(disk) => {
            assert!(rt; keeps_rules(disk.device()));
            Some(disk)
        }
        Err((_, drive)) => {
            assert!(rt; keeps_rules(&drive));
            None
        }
    }
}

/// What a mount finds on a drive after a run.
#[derive(Clone, Copy, Debug, PartialEq, Eq)]
pub enum Found {
    /// The blocks of the plain array.
    Same,
    /// Other blocks, or more or fewer.
    Other,
    /// No disk: the mount is refused.
    Nothing,
}

/// Reads all blocks of a disk.
fn found_on<D: Device + Drop>(
    rt: &impl Abort,
    alloc: Global,
    disk: &mut AnyDisk<D>,
    plain: &PlainArray,
) -> Found {
    let mut shown = Vec::new(alloc);
    let blocks = disk.blocks();
    let answer = disk.read(0, blocks, &mut shown);
    assert!(rt; answer == Ok(()));
    let wrong = plain.wrong(0, &shown);
    if wrong > 0 || blocks != plain.blocks() {
        return Found::Other;
    }
    Found::Same
}

/// Mounts the drive that a run left, and looks at what it holds.
pub fn found_after(rt: &impl Abort, alloc: Global, drive: Drive, plain: &PlainArray) -> Found {
    match mounted(rt, alloc, drive, plain.blocks()) {
        Some(mut disk) => found_on(rt, alloc, &mut disk, plain),
        None => Found::Nothing,
    }
}

/// The Reads of a run in which none lies.
pub fn kept_reads(
    rt: &impl Abort,
    alloc: Global,
    shape: &Shape,
    seed: u64,
) -> Option<Vec<KeptRead>> {
    let device = KeepingDrive::new(alloc, shape.drive(alloc)?);
    let run = Run::new(alloc, device, shape.blocks, seed)?;
    run.into_device_after(rt).into_reads()
}
