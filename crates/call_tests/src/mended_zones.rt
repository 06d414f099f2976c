// Repairs of drives with a zone that ends in something foreign: whole ones, and ones that stop after each command.

use drive_port::{Device, StopAfter, append};
use std::alloc::Global;
use std::test::Fail;
use tail_repair::{RepairFault, find_tails, repair_tails};
use yardsticks::restarted;
use zone_drive::Drive;
use zone_states::Geometry;
use zone_translator::Disk;

/// Zones of 6 blocks in 8.
const GEOMETRY: Geometry = Geometry {
    block: 512,
    zones: 5,
    size: 8,
    capacity: 6,
    transfer: 4,
    active: 2,
    open: 2,
};

/// How many logical blocks the disk has.
const BLOCKS: u64 = 9;

/// A drive on which these many single blocks were filled, each with a byte of its own, restarted.
fn filled(alloc: Global, fills: u8) -> Option<Drive> {
    let mut disk = Disk::mount(alloc, Drive::new(alloc, GEOMETRY).ok()?, BLOCKS).ok()?;
    for byte in 0..fills {
        disk.fill(byte as u64 % BLOCKS, 1, byte + 1).ok()?;
    }
    restarted(alloc, &disk.into_device())
}

/// Appends one block to a zone.
fn append_block(alloc: Global, drive: &mut Drive, zone: u32, block: &[u8]) -> Option<u64> {
    if drive.geometry().block != 512 || block.len() != 512 {
        return None;
    }
    append(alloc, drive, GEOMETRY.start_of(zone), block).ok()
}

/// The same drive with one foreign block at the end of its first zone that has room for it, restarted.
fn foreign(alloc: Global, drive: &Drive, byte: u8) -> Option<Drive> {
    let mut broken = restarted(alloc, drive)?;
    for zone in 0..GEOMETRY.zones {
        let written = broken.zone(zone as usize)?.written().len() / 512;
        if written != 0 && written < GEOMETRY.capacity as usize {
            append_block(alloc, &mut broken, zone, &[byte; 512])?;
            return restarted(alloc, &broken);
        }
    }
    None
}

/// The bytes of the disk on a drive, if it can be mounted.
fn disk_on(alloc: Global, drive: &Drive) -> Option<Vec<u8>> {
    let mut disk = Disk::mount(alloc, restarted(alloc, drive)?, BLOCKS).ok()?;
    let mut bytes = Vec::new(alloc);
    disk.read(0, BLOCKS, &mut bytes).ok()?;
    Some(bytes)
}

/// Whether a drive that is repaired, and stops after so many commands, is mended by the next repair. `None` if it did
/// not stop.
fn mends(alloc: Global, broken: &Drive, commands: u64, tear: u32, whole: &[u8]) -> Option<bool> {
    let copy = restarted(alloc, broken)?;
    let mut stopping = StopAfter::tearing(copy, commands, tear);
    if repair_tails(alloc, &mut stopping).is_ok() {
        return None;
    }
    let mut drive = restarted(alloc, &stopping.into_inner())?;
    if repair_tails(alloc, &mut drive).is_err() {
        return Some(false);
    }
    let found = disk_on(alloc, &drive)?;
    Some(found.as_slice() == whole)
}

/// How many stops of a repair are mended by the next one, and whether all are.
fn stops(alloc: Global, broken: &Drive, tear: u32, whole: &[u8]) -> (u64, bool) {
    for commands in 0..200 {
        match mends(alloc, broken, commands, tear, whole) {
            Some(true) => {}
            Some(false) => return (commands, false),
            None => return (commands, true),
        }
    }
    (200, false)
}

#[test]
fn repairs_foreign_tails(rt: HostRuntime) {
    let alloc = rt.alloc();
    for fills in 1..24 {
        let drive = filled(alloc, fills).expect(&rt, "filled");
        let whole = disk_on(alloc, &drive).expect(&rt, "a disk");
        let Some(mut broken) = foreign(alloc, &drive, 0x3f) else {
            continue;
        };
        assert!(rt; disk_on(alloc, &broken).is_none());
        let tails = find_tails(alloc, &mut broken).expect(&rt, "looked at");
        assert_eq!(rt; tails.len(), 1);
        let moved = repair_tails(alloc, &mut broken).expect(&rt, "repaired");
        assert_eq!(rt; moved.len(), 1);
        let found = disk_on(alloc, &broken).expect(&rt, "a disk again");
        assert!(rt; found.as_slice() == whole.as_slice());
    }
}

#[test]
fn repairs_after_each_stop(rt: HostRuntime) {
    let alloc = rt.alloc();
    let drive = filled(alloc, 5).expect(&rt, "filled");
    let whole = disk_on(alloc, &drive).expect(&rt, "a disk");
    let broken = foreign(alloc, &drive, 0x3f).expect(&rt, "broken");
    for tear in 0..4 {
        let (count, right) = stops(alloc, &broken, tear, &whole);
        assert!(rt; right && count > 8);
    }
}

#[test]
fn finishes_a_zone_of_zeros(rt: HostRuntime) {
    let alloc = rt.alloc();
    let drive = filled(alloc, 5).expect(&rt, "filled");
    let whole = disk_on(alloc, &drive).expect(&rt, "a disk");
    let mut broken = foreign(alloc, &drive, 0).expect(&rt, "broken");
    let moved = repair_tails(alloc, &mut broken).expect(&rt, "repaired");
    assert!(rt; moved.len() == 1 && moved[0].into.is_none());
    let found = disk_on(alloc, &broken).expect(&rt, "a disk again");
    assert!(rt; found.as_slice() == whole.as_slice());
}

#[test]
fn finds_nothing_to_repair(rt: HostRuntime) {
    let alloc = rt.alloc();
    let mut drive = filled(alloc, 5).expect(&rt, "filled");
    assert!(rt;
        find_tails(alloc, &mut drive)
            .expect(&rt, "looked at")
            .is_empty()
    );
    assert!(rt;
        repair_tails(alloc, &mut drive)
            .expect(&rt, "looked at")
            .is_empty()
    );
}

#[test]
fn refuses_a_header_behind(rt: HostRuntime) {
    let alloc = rt.alloc();
    let drive = filled(alloc, 1).expect(&rt, "filled");
    let zone = drive.zone(0).expect(&rt, "a zone");
    let header = zone.written().get(..512).expect(&rt, "a header");
    let mut broken = foreign(alloc, &drive, 0x3f).expect(&rt, "broken");
    append_block(alloc, &mut broken, 0, header).expect(&rt, "appended");
    let refused = RepairFault::Behind(0, 3);
    assert!(rt; repair_tails(alloc, &mut broken) == Err(refused));
}
