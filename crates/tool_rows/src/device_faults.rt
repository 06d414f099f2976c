// Why a device is not used.

use device_jobs::{DeviceFault, DeviceJob, NoDevices, StartCommand};
use disk_jobs::SystemError;
use std::alloc::Global;
use std::fs::File;
use std::io;
use std::process::ExitCode;
use std::rt::Files;
use std::test::Fail;
use std::time::Clock;
use zone_states::GeometryFault;
use zonedisk_program::do_device;

/// A format of a device, in a program that has no way to any.
fn show_no_way<R: Clock + Eprint + Files<File = File> + Input + Print>(
    rt: &R,
    alloc: Global,
) -> Result<(), Fail> {
    let job = DeviceJob::Format {
        device: String::from_str(alloc, "/dev/ng0n1")?,
        force: true,
    };
    let mut written = Vec::new(alloc);
    let ended = do_device(rt, alloc, &NoDevices, &NoDevices, &job, &mut written);
    print!(rt; "{}", std::str::from_utf8(&written)?)?;
    println!(rt; "{}", ended == ExitCode::FAILURE)?;
    Ok(())
}

/// Shows each reason.
pub fn show_faults<R: Clock + Eprint + Files<File = File> + Input + Print>(
    rt: &R,
    alloc: Global,
) -> Result<(), Fail> {
    for fault in [
        DeviceFault::NoWay,
        DeviceFault::Unopened(SystemError::from(io::Error::from_raw_os_error(13))),
        DeviceFault::NotPermitted,
        DeviceFault::BlockNotPermitted,
        DeviceFault::BlockUnopened(SystemError::from(io::Error::from_raw_os_error(5))),
        DeviceFault::NotSent(StartCommand::SetWriteCache),
        DeviceFault::Busy,
        DeviceFault::Mounted,
        DeviceFault::NoNamespace,
        DeviceFault::CacheOn,
        DeviceFault::NotDone(StartCommand::SetWriteCache),
        DeviceFault::Unshown(3),
        DeviceFault::Untransferred,
        DeviceFault::NoDrive,
        DeviceFault::Version,
        DeviceFault::Shape(GeometryFault::Capacity),
        DeviceFault::Short,
        DeviceFault::Long,
        DeviceFault::Table(3),
        DeviceFault::Limits,
        DeviceFault::NotRegular,
        DeviceFault::Exists,
        DeviceFault::Memory,
    ] {
        println!(rt; "{fault}")?;
    }
    show_no_way(rt, alloc)
}
