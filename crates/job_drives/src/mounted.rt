// The disk that a drive has by what its headers say.

ghost use Rattle.std.specs.Prelude.{IfErr, IfOk, IsTrue, None, Some};
ghost use Rattle.drive_survey.specs.Reported.{KeepsZones};
ghost use Rattle.remount.specs.Mount.{IsToMount};
ghost use Rattle.zone_choice.specs.Sane.{KeepsShape};
ghost use Rattle.job_drives.specs.Mounted.{IsFoundAgain, IsNotFound, IsNotServed, IsServed, TellsFault};
ghost use Rattle.job_drives.specs.Mounted.{TellsOutOfRange, TellsRoom};

use crate::headers::{look, room, without_size};
use crate::mount_fault::NoDiskFault;
use drive_port::{Device, Geometry, Honest};
use std::alloc::Global;
use zone_choice::most_blocks;
use zone_translator::{AnyDisk, Disk, MountFault};

/// The fault of a mount. A number of blocks for which there is no room is told with the greatest.
fn mount_told(fault: MountFault, geometry: &Geometry) -> NoDiskFault
    ensures tells { TellsFault geometry.now fault result }
    ensures room { TellsRoom geometry.now result }
{
    if fault != MountFault::Reserve || geometry.check().is_err() {
        return NoDiskFault::Mount(fault);
    }
    NoDiskFault::Reserve {
        most: most_blocks(geometry),
    }
}

/// Mounts a drive as `blocks` logical blocks if it does not say its size.
fn mount_given<D: Device + Drop>(
    alloc: Global,
    device: D,
    blocks: u64,
) -> Result<AnyDisk<D>, (NoDiskFault, D)>
    ensures disk { IfOk result (λ disk. IsTrue disk.drive.clean → IsServed (D.drive device) (Some blocks) disk) }
    ensures err { IfErr result (λ refusal. IsTrue (D.drive refusal.1).clean
        → IsNotServed (D.drive device) (Some blocks) refusal.0 (D.drive refusal.1)) }
    // Whatever the Reads returned, the drive has the same shape, and the room that is told is that of its geometry.
    ensures shape { IfOk result (λ disk. KeepsShape (D.drive device) disk.drive) }
    ensures back { IfErr result (λ refusal. KeepsShape (D.drive device) (D.drive refusal.1)) }
    ensures room { IfErr result (λ refusal. TellsRoom (D.drive device).geometry refusal.0) }
{
    let geometry = device.geometry();
    match AnyDisk::mount(alloc, device, blocks) {
        Ok(disk) => Ok(disk),
        Err((fault, device)) => Err((mount_told(fault, &geometry), device)),
    }
}

/// Looks at the headers of a drive that was mounted as one block, and mounts it again if one says a size. It is given
/// the number 2 then, for which each drive has room: a disk of one block has its size from a header.
fn mount_one_block<D: Device + Drop>(
    alloc: Global,
    mut device: D,
) -> Result<AnyDisk<D>, (NoDiskFault, D)>
    requires { IsTrue (D.drive device).clean → IsToMount (D.drive device) 1 }
    ensures disk { IfOk result (λ disk. IsTrue disk.drive.clean → IsFoundAgain (D.drive device) disk) }
    ensures err { IfErr result (λ refusal. IsTrue (D.drive refusal.1).clean
        → IsNotFound (D.drive device) refusal.0 (D.drive refusal.1)) }
    // Whatever the Reads returned, the drive has the same shape, and the room that is told is that of its geometry.
    ensures shape { IfOk result (λ disk. KeepsShape (D.drive device) disk.drive) }
    ensures back { IfErr result (λ refusal. KeepsShape (D.drive device) (D.drive refusal.1)) }
    ensures room { IfErr result (λ refusal. TellsRoom (D.drive device).geometry refusal.0) }
{
    let said = match look(alloc, &mut device, 1) {
        Ok(said) => said,
        Err(fault) => return Err((NoDiskFault::Mount(fault), device)),
    };
    if said.size.is_none() {
        return Err((without_size(said), device));
    }
    match AnyDisk::mount(alloc, device, 2) {
        Ok(disk) => Ok(disk),
        Err((fault, device)) => Err((NoDiskFault::Mount(fault), device)),
    }
}

/// Why a drive is not mounted as one block in which a batch names another: its headers may say no size.
fn out_of_range<D: Device + Drop>(alloc: Global, mut device: D) -> (NoDiskFault, D)
    ensures told { IsTrue (D.drive result.1).clean → TellsOutOfRange (D.drive result.1) result.0 }
    // Whatever the Reads returned, zones hold what they held, and the room that is told is that of the geometry.
    ensures room { TellsRoom (D.drive device).geometry result.0 }
    ensures kept { KeepsZones (D.drive device) (D.drive result.1) }
{
    let most = room(&device.geometry());
    match look(alloc, &mut device, most) {
        Ok(said) if said.size.is_none() => (without_size(said), device),
        _ => (NoDiskFault::Mount(MountFault::BlockOutOfRange), device),
    }
}

/// Mounts a drive with the size that its headers say.
fn mount_said<D: Device + Drop>(alloc: Global, device: D) -> Result<AnyDisk<D>, (NoDiskFault, D)>
    ensures disk { IfOk result (λ disk. IsTrue disk.drive.clean → IsServed (D.drive device) None disk) }
    ensures err { IfErr result (λ refusal. IsTrue (D.drive refusal.1).clean
        → IsNotServed (D.drive device) None refusal.0 (D.drive refusal.1)) }
    // Whatever the Reads returned, the drive has the same shape, and the room that is told is that of its geometry.
    ensures shape { IfOk result (λ disk. KeepsShape (D.drive device) disk.drive) }
    ensures back { IfErr result (λ refusal. KeepsShape (D.drive device) (D.drive refusal.1)) }
    ensures room { IfErr result (λ refusal. TellsRoom (D.drive device).geometry refusal.0) }
{
    let geometry = device.geometry();
    match AnyDisk::mount(alloc, device, 1) {
        Ok(disk) => {
            if disk.blocks() == 1 {
                return mount_one_block(alloc, disk.into_device());
            }
            Ok(disk)
        }
        Err((MountFault::BlockOutOfRange, device)) => Err(out_of_range(alloc, device)),
        Err((fault, device)) => Err((mount_told(fault, &geometry), device)),
    }
}

/// Mounts a drive behind any device, as [`mount_served`] does.
pub fn mount_any<D: Device + Drop>(
    alloc: Global,
    device: D,
    blocks: Option<u64>,
) -> Result<AnyDisk<D>, (NoDiskFault, D)>
    // While the drive is clean, this is its disk, or why there is none.
    ensures disk { IfOk result (λ disk. IsTrue disk.drive.clean → IsServed (D.drive device) blocks disk) }
    ensures err { IfErr result (λ refusal. IsTrue (D.drive refusal.1).clean
        → IsNotServed (D.drive device) blocks refusal.0 (D.drive refusal.1)) }
    // Whatever the Reads returned, the drive has the same shape, and the room that is told is that of its geometry.
    ensures shape { IfOk result (λ disk. KeepsShape (D.drive device) disk.drive) }
    ensures back { IfErr result (λ refusal. KeepsShape (D.drive device) (D.drive refusal.1)) }
    ensures room { IfErr result (λ refusal. TellsRoom (D.drive device).geometry refusal.0) }
{
    match blocks {
        Some(blocks) => mount_given(alloc, device, blocks),
        None => mount_said(alloc, device),
    }
}

/// Mounts a drive, as `blocks` logical blocks if it does not say its size. With the fault the drive is given back.
pub fn mount_served<D: Device + Honest + Drop>(
    alloc: Global,
    device: D,
    blocks: Option<u64>,
) -> Result<Disk<D>, (NoDiskFault, D)>
    ensures disk { IfOk result (IsServed (D.drive device) blocks) }
    ensures err { IfErr result (λ refusal. IsNotServed (D.drive device) blocks refusal.0 (D.drive refusal.1)) }
{
    match mount_any(alloc, device, blocks) {
        Ok(disk) => {
            disk.device().vouch();
            Ok(Disk::of(disk))
        }
        Err((fault, device)) => {
            device.vouch();
            Err((fault, device))
        }
    }
}
