ghost use Rattle.std.specs.Prelude.{◌≡◌, ◌+◌, ◌≤◌, ◌<◌, IfOk, IfErr, IfSome, IfNone, IsTrue, OnOk, None, Some};
ghost use Rattle.std.specs.Prelude.{true};
ghost use Rattle.zone_choice.specs.Agreement.{Agrees};
ghost use Rattle.zone_choice.specs.Changes.{IsHalt, fault_halt};
ghost use Rattle.zone_choice.specs.Roles.{AreApart};
ghost use Rattle.zone_choice.specs.Sane.{IsSane};
ghost use Rattle.zone_cleaner.specs.Answering.{CostsClean};
ghost use Rattle.zone_cleaner.specs.Start.{AgreesWithClean, LacksZones};
ghost use Rattle.zone_translator.specs.Answering.{StaysOfSize};
ghost use Rattle.zone_translator.specs.Changes.{IsCause, IsHost, RetireLeaves, RoomLeaves, TakesHost, disk_fault};
ghost use Rattle.zone_translator.specs.Cleaning.{KeepsCleaning};

use crate::fault::DiskFault;
use drive_port::{Device, PortFault, finish};
use zone_choice::{Filling, Mounted};
use zone_cleaner::Cleaner;

/// What the fault of a command is to a disk. While the drive is clean, it refuses no command.
pub(crate) fn fault_of(fault: PortFault) -> DiskFault
    ensures { IsHalt fault → result ≡ disk_fault (fault_halt fault) }
{
    match fault {
        PortFault::Memory => DiskFault::OutOfMemory,
        PortFault::Failed => DiskFault::Failed,
        PortFault::Stopped => DiskFault::Stopped,
        PortFault::Refused(_) => DiskFault::Damaged,
    }
}

/// The zone that the host's batches go to, if any.
fn host_of<D: Device>(disk: &Mounted<D>) -> Option<Filling>
    ensures { result ≡ disk.now.tables.roles.host }
{
    disk.tables.host()
}

/// Seals the host zone, which has fewer than two free blocks: with one it is sent Finish.
fn retire<D: Device>(disk: &mut Mounted<D>, host: Filling) -> Result<(), DiskFault>
    // The numbers of the disk are in range, and this host zone has no room for a batch with data.
    requires sane { IsSane disk.old }
    requires host { disk.old.tables.roles.host ≡ Some host }
    requires few { disk.old.drive.geometry.capacity < host.written + 2 }
    // While the drive is clean, tables and drive agree.
    requires agrees { IsTrue disk.old.drive.clean → Agrees disk.old }
    // Then the array never changes, and a fault has its cause.
    ensures leaves { IsTrue disk.new.drive.clean → RetireLeaves disk.old disk.new result }
    ensures err { IsTrue disk.new.drive.clean → IfErr result (IsCause disk.new.drive disk.new.tables.next) }
    // Done, there is no host zone. Whatever the Reads returned, the numbers stay in range.
    ensures ok { OnOk result (disk.new.tables.roles.host ≡ None) }
    ensures stays { StaysOfSize disk.old disk.new }
    // It completes one command at most.
    ensures completed { disk.new.drive.completed ≤ disk.old.drive.completed + 1 }
{
    let geometry = disk.geometry();
    if host.written == geometry.capacity {
        disk.tables.seal();
        return Ok(());
    }
    if let Err(fault) = finish(disk.alloc, &mut disk.device, geometry.start_of(host.zone)) {
        return Err(fault_of(fault));
    }
    disk.tables.seal();
    Ok(())
}

/// Makes the next zone the host zone or, if there is no next zone, the lowest empty one, unless it is the last.
fn take<D: Device>(disk: &mut Mounted<D>) -> Option<Filling>
    requires { disk.old.tables.roles.host ≡ None }
    // If it finds a zone, only the tables change. If not, there was none to take, and nothing changes.
    ensures some { IfSome result (λ host. TakesHost disk.old.tables host disk.new.tables) }
    ensures none { IfNone result (LacksZones disk.old.tables.roles × (disk.new ≡ disk.old)) }
    ensures drive { disk.new.drive ≡ disk.old.drive }
{
    if let Some(host) = disk.tables.promote() {
        return Some(host);
    }
    let zone = disk.tables.take_empty()?;
    Some(Filling {
        zone,
        written: 0,
        may_open: false,
    })
}

/// A host zone for a disk that has none: the next zone, or an empty one, or the zone that a clean leaves.
fn find_host<D: Device>(disk: &mut Mounted<D>, cleaner: &mut Cleaner) -> Result<Filling, DiskFault>
    // There is no host zone. While the drive is clean, tables, drive and clean agree.
    requires sane { IsSane disk.old }
    requires host { disk.old.tables.roles.host ≡ None }
    requires agrees { IsTrue disk.old.drive.clean → AgreesWithClean disk.old cleaner.old }
    // Then the array never changes. Done, the host zone has two free blocks; refused, the fault has its cause.
    ensures leaves { IsTrue disk.new.drive.clean → RoomLeaves disk.old disk.new cleaner.new result }
    ensures ok { IsTrue disk.new.drive.clean → IfOk result (IsHost disk.new) }
    ensures err { IsTrue disk.new.drive.clean → IfErr result (IsCause disk.new.drive disk.new.tables.next) }
    // Then it adds no turns to a clean that ran.
    ensures clean { IsTrue disk.new.drive.clean → KeepsCleaning disk.old cleaner.old result disk.new cleaner.new }
    // Whatever the Reads returned, the numbers stay in range. It costs at most the commands of a whole clean, or of one
    // for each zone, once a command failed.
    ensures stays { StaysOfSize disk.old disk.new }
    ensures costs { CostsClean 2 disk.old.drive disk.new.drive }
{
    if let Some(host) = take(disk) {
        return Ok(host);
    }
    if let Err(fault) = cleaner.clean_zone(disk) {
        return Err(DiskFault::from(fault));
    }
    match take(disk) {
        Some(host) => Ok(host),
        None => Err(DiskFault::Damaged),
    }
}

/// Makes the host zone one with two free blocks at least: the one that there is, or else another, which may take a
/// clean.
pub(crate) fn make_room<D: Device>(
    disk: &mut Mounted<D>,
    cleaner: &mut Cleaner,
) -> Result<Filling, DiskFault>
    // While the drive is clean, tables, drive and clean agree.
    requires sane { IsSane disk.old }
    requires agrees { IsTrue disk.old.drive.clean → AgreesWithClean disk.old cleaner.old }
    // Then the array never changes. Done, the host zone has two free blocks; refused, the fault has its cause.
    ensures leaves { IsTrue disk.new.drive.clean → RoomLeaves disk.old disk.new cleaner.new result }
    ensures ok { IsTrue disk.new.drive.clean → IfOk result (IsHost disk.new) }
    ensures err { IsTrue disk.new.drive.clean → IfErr result (IsCause disk.new.drive disk.new.tables.next) }
    // Then it adds no turns to a clean that ran.
    ensures clean { IsTrue disk.new.drive.clean → KeepsCleaning disk.old cleaner.old result disk.new cleaner.new }
    // Whatever the Reads returned, the numbers stay in range. It costs at most one command more than `find_host`.
    ensures stays { StaysOfSize disk.old disk.new }
    ensures costs { CostsClean 1 disk.old.drive disk.new.drive }
{
    let Some(host) = host_of(disk) else {
        return find_host(disk, cleaner);
    };
    if host.written + 2 <= disk.geometry().capacity {
        return Ok(host);
    }
    if let Err(fault) = retire(disk, host) {
        return Err(fault);
    }
    find_host(disk, cleaner)
}

/// Whether this is the host zone by the tables, with two free blocks.
pub(crate) fn has_room<D: Device>(disk: &Mounted<D>, host: Filling) -> bool
    ensures some { IsTrue result → IsHost disk.now host }
    ensures none { IsHost disk.now host → result ≡ true }
    ensures apart { AreApart disk.now.tables.roles }
{
    // The destination of a clean is another zone.
    let _other = disk.tables.destination();
    disk.tables.host() == Some(host)
        && u64::from(host.written) + 2 <= u64::from(disk.geometry().capacity)
}
