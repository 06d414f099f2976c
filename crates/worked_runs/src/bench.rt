//! The device over which a script runs: a drive in memory that can be made to stop, or to be once out of
//! memory, and whose commands are recorded.

use crate::fault::ScriptFault;
use crate::world::World;
use drive_port::{Device, Geometry, Halt, Honest, Recorder, StopAfter};
use std::alloc::Global;
use zone_drive::{Drive, Habit};

/// A device that has no memory for one submit, after `others` of them.
#[derive(Drop)]
pub struct OnceWithoutMemory<D: Device + Drop> {
    pub device: D,
    pub others: u64,
}

impl<D: Device + Drop> Device for OnceWithoutMemory<D> {
    ghost drive = { λ s. D.drive s.device };

    fn geometry(&self) -> Geometry {
        self.device.geometry()
    }

    fn completed(&self) -> u64 {
        self.device.completed()
    }

    fn stopped(&self) -> bool {
        self.device.stopped()
    }

    fn submit(
        &mut self,
        entry: &[u8; 64],
        bytes: &[u8],
        into: &mut Vec<u8>,
    ) -> Result<[u8; 16], Halt> {
        if self.others == 0 && !self.device.stopped() {
            self.others = u64::MAX;
            into.clear();
            return Err(Halt::Memory);
        }
        self.others = self.others.saturating_sub(1);
        self.device.submit(entry, bytes, into)
    }

    fn submit_extending(&mut self, entry: &[u8; 64], into: &mut Vec<u8>) -> Result<[u8; 16], Halt> {
        if self.others == 0 && !self.device.stopped() {
            self.others = u64::MAX;
            return Err(Halt::Memory);
        }
        self.others = self.others.saturating_sub(1);
        self.device.submit_extending(entry, into)
    }
}

impl<D: Device + Honest + Drop> Honest for OnceWithoutMemory<D> {
    fn vouch(&self) {
        self.device.vouch();
    }
}

/// How a run is made and shown: after how many commands the device stops or is out of memory, if ever;
/// how many blocks of the Append after those commands are written before it stops; and whether the bytes
/// of the entries are shown. The drive has this habit.
#[derive(Clone, Copy)]
pub struct Setting {
    pub stop_after: Option<u64>,
    pub tear: u32,
    pub no_memory_after: Option<u64>,
    pub shows_entries: bool,
    pub habit: Habit,
}

/// The drive over which the lines of a step run, and how.
#[derive(Clone, Copy)]
pub struct Stage<'a> {
    pub alloc: Global,
    pub world: &'a World,
    pub setting: Setting,
}

impl Setting {
    pub const PLAIN: Setting = Setting {
        stop_after: None,
        tear: 0,
        no_memory_after: None,
        shows_entries: false,
        habit: Habit::Lazy,
    };
}

pub type Bench = Recorder<StopAfter<OnceWithoutMemory<Drive>>>;

/// A device over a drive that holds what `world` says.
pub fn bench_of(alloc: Global, world: &World, setting: Setting) -> Result<Bench, ScriptFault> {
    let Ok(mut drive) = world.drive(alloc)? else {
        return Err(ScriptFault::Words);
    };
    drive.set_habit(setting.habit);
    let device = OnceWithoutMemory {
        device: drive,
        others: setting.no_memory_after.unwrap_or(u64::MAX),
    };
    let commands = setting.stop_after.unwrap_or(u64::MAX);
    let stopping = StopAfter::tearing(device, commands, setting.tear);
    Ok(Recorder::new(alloc, stopping))
}

/// What a run left: the entries of its commands, and what the drive holds.
#[derive(Drop)]
pub struct AfterRun {
    pub entries: Vec<[u8; 64]>,
    pub world: World,
}

pub fn left_by(alloc: Global, geometry: Geometry, bench: Bench) -> Result<AfterRun, ScriptFault> {
    Ok(AfterRun {
        entries: Vec::from_slice(alloc, bench.entries())?,
        world: world_of(alloc, geometry, bench)?,
    })
}

/// What the drive within holds.
pub fn world_of(alloc: Global, geometry: Geometry, bench: Bench) -> Result<World, ScriptFault> {
    let drive = bench.into_inner().into_inner().device;
    Ok(World::of(alloc, geometry, &drive)?)
}

/// What the drive within holds, if what was shown of it has met no fault.
pub fn world_after(
    alloc: Global,
    geometry: Geometry,
    bench: Bench,
    shown: Result<(), ScriptFault>,
) -> Result<World, ScriptFault> {
    shown?;
    world_of(alloc, geometry, bench)
}
