// Mounts of drives that return other bytes at one Read than they hold.

use drive_port::StopAfter;
use remount::mount;
use std::alloc::Global;
use std::test::Fail;
use yardsticks::{LyingDevice, chance, restarted};
use zone_drive::Drive;
use zone_states::Geometry;
use zone_translator::Disk;

/// Zones of 6 blocks in 8.
const GEOMETRY: Geometry = Geometry {
    block: 512,
    zones: 5,
    size: 8,
    capacity: 6,
    transfer: 4,
    active: 3,
    open: 3,
};

/// How many logical blocks the disk has.
const BLOCKS: u64 = 9;

/// A drive on which single blocks were filled until it stopped after so many commands, restarted.
fn stopped_after(alloc: Global, commands: u64) -> Option<Drive> {
    let drive = StopAfter::new(Drive::new(alloc, GEOMETRY).ok()?, commands);
    let mut disk = match Disk::mount(alloc, drive, BLOCKS) {
        Ok(disk) => disk,
        Err((_, drive)) => return restarted(alloc, &drive.into_inner()),
    };
    let mut state = 1;
    for byte in 1..100 {
        let first = chance(&mut state, BLOCKS as u32) as u64;
        if disk.fill(first, 1, byte).is_err() {
            break;
        }
    }
    restarted(alloc, &disk.into_device().into_inner())
}

/// How many lies there are.
const LIES: usize = 22;

/// The bytes of a lie about a block: one byte in all places, the first block of a zone, or the same with one bit
/// turned.
fn lie(alloc: Global, drive: &Drive, number: usize) -> Option<Vec<u8>> {
    let mut bytes = Vec::new(alloc);
    if number < 2 {
        bytes.resize(512, number as u8 * 0xff).ok()?;
        return Some(bytes);
    }
    let written = drive.zone((number - 2) % 5)?.written();
    bytes.extend_from_slice(written.get(..512)?).ok()?;
    if number >= 7 {
        let place = number.wrapping_mul(7) % 64;
        *bytes.get_mut(place)? ^= 1 << (number % 8);
    }
    Some(bytes)
}

/// What came of the mounts of a drive.
#[derive(Clone, Copy)]
struct Counts {
    /// How many drives lied.
    told: u32,
    /// How many of these were mounted.
    served: u32,
    /// How many of these were refused.
    refused: u32,
    /// How many drives did not lie, and were refused.
    wrong: u32,
}

/// Mounts a copy of a drive that lies at a Read, and counts what comes of it.
fn mount_lied(
    alloc: Global,
    drive: &Drive,
    read: u64,
    number: usize,
    counts: &mut Counts,
) -> Option<()> {
    let Some(instead) = lie(alloc, drive, number) else {
        return Some(());
    };
    let mut device = LyingDevice::new(restarted(alloc, drive)?, read, instead);
    let is_mounted = mount(alloc, &mut device, BLOCKS).is_ok();
    if device.has_lied() {
        counts.told = counts.told.saturating_add(1);
        let count = if is_mounted {
            &mut counts.served
        } else {
            &mut counts.refused
        };
        *count = count.saturating_add(1);
    } else if !is_mounted {
        counts.wrong = counts.wrong.saturating_add(1);
    }
    Some(())
}

/// Mounts copies of a drive that lie at each Read, by each lie.
fn mount_all(alloc: Global, drive: &Drive, counts: &mut Counts) -> Option<()> {
    for number in 0..LIES {
        for read in 0..20 {
            mount_lied(alloc, drive, read, number, counts)?;
        }
    }
    Some(())
}

#[test]
fn a_mount_ends_whatever_a_read_returns(rt: HostRuntime) -> Result<(), Fail> {
    let alloc = rt.alloc();
    let mut counts = Counts {
        told: 0,
        served: 0,
        refused: 0,
        wrong: 0,
    };
    for commands in [0, 3, 9, 15, 21, 27, 33, 39] {
        let drive = stopped_after(alloc, commands).expect(&rt, "a drive");
        mount_all(alloc, &drive, &mut counts).expect(&rt, "mounts");
    }
    assert_eq!(rt; counts.wrong, 0);
    assert!(rt; counts.served > 0);
    assert!(rt; counts.refused > 0);
    assert_eq!(rt; counts.told, counts.served.saturating_add(counts.refused));
    Ok(())
}
