// The program without any way to a device.

use crate::devices::{Devices, OpenDevice, RawDrive, RawFault};
use crate::fault::DeviceFault;
use drive_port::{Device, Halt};
use drive_rescue::{Reading, Source};
use drive_survey::ReportedZone;
use nbd_session::WriteThrough;
use std::alloc::Global;
use zone_drive::{Drive, Habit};
use zone_states::Geometry;

/// The devices of a program that has no way to any. Each is refused by [`DeviceFault::NoWay`], and none is made.
#[derive(Clone, Copy, Debug)]
pub struct NoDevices;

/// A drive that answers no entry. None is ever opened.
#[derive(Drop)]
pub struct NoRawDrive;

impl RawDrive for NoRawDrive {
    fn send(
        &mut self,
        _entry: &[u8; 64],
        _bytes: &[u8],
        _into: &mut Vec<u8>,
    ) -> Result<[u8; 16], RawFault> {
        Err(RawFault::Unanswered)
    }
}

/// A drive of which nothing is read. None is ever opened.
#[derive(Drop)]
pub struct NoSource {
    drive: Drive,
}

impl Source for NoSource {
    ghost use Rattle.drive_rescue.specs.Sources.{undamaged};

    ghost view = { λ s. undamaged (⟦<Drive as Device>⟧.drive s.drive) };

    fn geometry(&self) -> Geometry {
        self.drive.geometry()
    }

    fn report(&mut self, _alloc: Global) -> Result<Vec<ReportedZone>, Halt> {
        Err(Halt::Stopped)
    }

    fn read(&mut self, _number: u32, _offset: u32, _into: &mut Vec<u8>) -> Result<Reading, Halt> {
        // The contract of its shape says that the drive is lawful.
        let _shape = self.drive.geometry();
        Err(Halt::Stopped)
    }
}

// Types have to be named. No drive of them is ever opened.
impl Devices for NoDevices {
    ghost use Rattle.std.specs.Prelude.{false};

    type Drive = Drive;

    type Medium = WriteThrough;

    type Reader = Drive;

    type Source = NoSource;

    type Raw = NoRawDrive;

    ghost has_way = { λ _. false };

    fn open(
        &self,
        _alloc: Global,
        _path: &str,
        _habit: Habit,
    ) -> Result<OpenDevice<Drive, WriteThrough>, DeviceFault> {
        Err(DeviceFault::NoWay)
    }

    fn open_reader(
        &self,
        _alloc: Global,
        _path: &str,
        _habit: Habit,
    ) -> Result<Drive, DeviceFault> {
        Err(DeviceFault::NoWay)
    }

    fn open_source(&self, _alloc: Global, _path: &str) -> Result<NoSource, DeviceFault> {
        Err(DeviceFault::NoWay)
    }

    fn open_raw(
        &self,
        _alloc: Global,
        _path: &str,
        _habit: Habit,
    ) -> Result<NoRawDrive, DeviceFault> {
        Err(DeviceFault::NoWay)
    }

    fn create(&self, _path: &str, _geometry: &Geometry) -> Result<(), DeviceFault> {
        Err(DeviceFault::NoWay)
    }

    fn store(&self, _path: &str, _drive: &Drive) -> Result<(), DeviceFault> {
        Err(DeviceFault::NoWay)
    }

    fn load(&self, _alloc: Global, _path: &str) -> Result<Drive, DeviceFault> {
        Err(DeviceFault::NoWay)
    }
}
