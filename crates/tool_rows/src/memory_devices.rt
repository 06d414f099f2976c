// Drives in memory, in the place of real ones.

use crate::drives::{SMALL, finish, put_block};
use device_jobs::{
    DeviceFault, DeviceRun, Devices, DriveName, OpenDevice, RawDrive, RawFault, StartCommand,
    run_device,
};
use disk_files::LineReader;
use disk_jobs::{Habit, Stop};
use disk_runs::Taking;
use drive_port::{Device, Geometry, Halt};
use drive_rescue::{DeviceSource, Reading, Source};
use drive_survey::ReportedZone;
use nbd_session::WriteThrough;
use std::alloc::{AllocError, Global};
use zone_drive::Drive;
use zone_states::{GeometryFault, Zone, ZoneState};

/// A drive in which nothing is written.
fn empty(alloc: Global) -> Result<Drive, DeviceFault> {
    Drive::new(alloc, SMALL).or(Err(DeviceFault::Memory))
}

/// One block of data that are no log.
fn foreign(alloc: Global) -> Result<Zone, AllocError> {
    let block = Vec::from_slice(alloc, &[7; 512])?;
    Ok(Zone::from_parts(ZoneState::Closed, block))
}

/// Such data in zone 1, and zone 2 in a state.
fn zones_with(alloc: Global, state: ZoneState) -> Result<Vec<Zone>, AllocError> {
    let mut zones = Vec::new(alloc);
    zones.push(Zone::new(alloc))?;
    zones.push(foreign(alloc)?)?;
    zones.push(Zone::from_parts(state, Vec::new(alloc)))?;
    zones.push(Zone::new(alloc))?;
    Ok(zones)
}

/// A drive with such zones.
fn drive_with(alloc: Global, state: ZoneState) -> Result<Drive, DeviceFault> {
    let zones = zones_with(alloc, state).or(Err(DeviceFault::Memory))?;
    Drive::from_zones(alloc, SMALL, zones).or(Err(DeviceFault::Memory))
}

/// A drive with a disk whose first three blocks are `a` all over.
fn with_disk(alloc: Global) -> Result<Drive, DeviceFault> {
    let job = DeviceRun {
        device: String::new(alloc),
        blocks: 9,
        zones: false,
        statistics: false,
        stop: Stop::NEVER,
        habit: Habit::Lazy,
        takes: Taking::All,
        progress: false,
    };
    let mut lines = LineReader::new(alloc, b"fill 0 3 61\n".as_slice());
    let mut replies = Vec::new(alloc);
    let (drive, _, ran) = run_device(alloc, empty(alloc)?, &job, &mut lines, &mut replies);
    match ran {
        Ok(()) => Ok(drive),
        Err(_) => Err(DeviceFault::Memory),
    }
}

/// The same, with a block behind it that is no batch.
fn torn(alloc: Global) -> Result<Drive, DeviceFault> {
    let mut drive = with_disk(alloc)?;
    put_block(alloc, &mut drive, 0, b"?").or(Err(DeviceFault::Memory))?;
    Ok(drive)
}

/// The header of a batch of one record.
const HEADER: &[u8] =
    b"ZLOGBAT1\x02\0\x01\0\x01\0\0\0\x64\0\0\0\0\0\0\0\0\0\0\0\x09\0\0\0\x07\0\0\0\0\0\0\0";

/// The same, with a header behind that block.
fn torn_before(alloc: Global) -> Result<Drive, DeviceFault> {
    let mut drive = torn(alloc)?;
    put_block(alloc, &mut drive, 0, HEADER).or(Err(DeviceFault::Memory))?;
    Ok(drive)
}

/// One block that is no batch, and no zone Empty.
fn crowded(alloc: Global) -> Result<Drive, DeviceFault> {
    let mut drive = torn(alloc)?;
    for zone in 1..SMALL.zones {
        finish(alloc, &mut drive, SMALL.start_of(zone));
    }
    Ok(drive)
}

/// Two batches with one sequence.
fn repeated(alloc: Global) -> Result<Drive, DeviceFault> {
    let mut drive = empty(alloc)?;
    for zone in 0..2 {
        let start = SMALL.start_of(zone);
        put_block(alloc, &mut drive, start, HEADER).or(Err(DeviceFault::Memory))?;
        put_block(alloc, &mut drive, start, b"b").or(Err(DeviceFault::Memory))?;
    }
    Ok(drive)
}

/// The drive of a path.
pub fn drive_of(alloc: Global, path: &str) -> Result<Drive, DeviceFault> {
    match path {
        "empty" | "new" => empty(alloc),
        "disk" => with_disk(alloc),
        "foreign" => drive_with(alloc, ZoneState::Empty),
        "read-only" => drive_with(alloc, ZoneState::ReadOnly),
        "offline" => drive_with(alloc, ZoneState::Offline),
        "torn" => torn(alloc),
        "behind" => torn_before(alloc),
        "crowded" => crowded(alloc),
        "repeated" => repeated(alloc),
        "cached" => Err(DeviceFault::CacheOn),
        "busy" => Err(DeviceFault::Busy),
        _ => Err(DeviceFault::NotDone(StartCommand::Report)),
    }
}

/// What each drive says that it is.
fn name(alloc: Global) -> Result<DriveName, AllocError> {
    Ok(DriveName {
        model: String::from_str(alloc, "Memory")?,
        serial: String::from_str(alloc, "7")?,
        bytes: 16_384,
    })
}

/// A drive in memory to which entries are sent as they are. It answers one of them.
#[derive(Drop)]
pub struct RawMemory {
    drive: Drive,
    answered: bool,
}

impl RawDrive for RawMemory {
    fn send(
        &mut self,
        entry: &[u8; 64],
        bytes: &[u8],
        into: &mut Vec<u8>,
    ) -> Result<[u8; 16], RawFault> {
        if self.answered {
            return Err(RawFault::Unanswered);
        }
        self.answered = true;
        match self.drive.submit(entry, bytes, into) {
            Ok(completion) => Ok(completion),
            Err(Halt::Memory) => Err(RawFault::Memory),
            Err(Halt::Failed | Halt::Stopped) => Err(RawFault::Unanswered),
        }
    }
}

/// A drive in memory of which a rescue reads what can be read.
#[derive(Drop)]
pub struct MemorySource {
    source: DeviceSource<Drive>,
}

impl Source for MemorySource {
    ghost view = { λ s. ⟦<DeviceSource<Drive> as Source>⟧.view s.source };

    fn geometry(&self) -> Geometry {
        self.source.geometry()
    }

    fn report(&mut self, alloc: Global) -> Result<Vec<ReportedZone>, Halt> {
        self.source.report(alloc)
    }

    fn read(&mut self, number: u32, offset: u32, into: &mut Vec<u8>) -> Result<Reading, Halt> {
        self.source.read(number, offset, into)
    }
}

/// A way to drives in memory, by the names that stand for paths. Each time a drive is as it was.
#[derive(Clone, Copy)]
pub struct MemoryDevices;

impl Devices for MemoryDevices {
    ghost use Rattle.std.specs.Prelude.{true};

    type Drive = Drive;

    type Medium = WriteThrough;

    type Reader = Drive;

    type Source = MemorySource;

    type Raw = RawMemory;

    ghost has_way = { λ _. true };

    fn open(
        &self,
        alloc: Global,
        path: &str,
        habit: Habit,
    ) -> Result<OpenDevice<Drive, WriteThrough>, DeviceFault> {
        let mut drive = drive_of(alloc, path)?;
        drive.set_habit(habit);
        let name = name(alloc).or(Err(DeviceFault::Memory))?;
        Ok(OpenDevice {
            drive,
            medium: WriteThrough::new(),
            name,
        })
    }

    fn open_reader(&self, alloc: Global, path: &str, habit: Habit) -> Result<Drive, DeviceFault> {
        let mut drive = drive_of(alloc, path)?;
        drive.set_habit(habit);
        Ok(drive)
    }

    fn open_source(&self, alloc: Global, path: &str) -> Result<MemorySource, DeviceFault> {
        let source = DeviceSource::new(drive_of(alloc, path)?);
        Ok(MemorySource { source })
    }

    fn open_raw(&self, alloc: Global, path: &str, habit: Habit) -> Result<RawMemory, DeviceFault> {
        let mut drive = drive_of(alloc, path)?;
        drive.set_habit(habit);
        Ok(RawMemory {
            drive,
            answered: false,
        })
    }

    /// Drives of one shape can be made, by one name. None is kept.
    fn create(&self, path: &str, geometry: &Geometry) -> Result<(), DeviceFault> {
        if *geometry != SMALL {
            return Err(DeviceFault::Shape(GeometryFault::Block));
        }
        match path {
            "new" => Ok(()),
            _ => Err(DeviceFault::Exists),
        }
    }

    fn store(&self, path: &str, drive: &Drive) -> Result<(), DeviceFault> {
        self.create(path, &drive.geometry())
    }

    fn load(&self, alloc: Global, path: &str) -> Result<Drive, DeviceFault> {
        drive_of(alloc, path)
    }
}
