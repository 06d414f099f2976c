// A store whose medium fails by chance.

use drive_port::Geometry;
use nbd_session::{FailingStore, ServeOptions, ServedDisk, Store, StoreFault, WriteThrough};
use std::alloc::Global;
use std::process::Abort;
use std::test::Fail;
use zone_drive::Drive;
use zone_translator::Disk;

const GEOMETRY: Geometry = Geometry {
    block: 512,
    zones: 8,
    size: 32,
    capacity: 32,
    transfer: 16,
    active: 2,
    open: 2,
};

const BLOCKS: u64 = 40;

type Failing = FailingStore<ServedDisk<Drive, WriteThrough>>;

/// A disk of blocks of 0x5a.
fn failing(rt: &impl Abort, alloc: Global, odds: u32) -> Failing {
    let drive = Drive::new(alloc, GEOMETRY).expect(rt, "a drive");
    let Ok(mut disk) = Disk::mount(alloc, drive, BLOCKS) else {
        panic!(rt; "no disk");
    };
    disk.fill(0, BLOCKS, 0x5a).expect(rt, "a fill");
    let served = ServedDisk::new(disk, WriteThrough::new(), ServeOptions::PLAIN);
    FailingStore::new(served, 7, odds)
}

/// A write of a block of zeros.
fn put(
    rt: &impl Abort,
    alloc: Global,
    store: &mut Failing,
    first: u64,
) -> Result<Result<(), StoreFault>, Fail> {
    let block = store.block_bytes() as usize;
    let zeros = Vec::from_elem(alloc, 0, block)?;
    assert!(rt; zeros.len() == zeros.len() / block * block);
    Ok(store.write(first, &zeros))
}

/// In how many of 64 calls the medium fails.
fn failures(rt: &impl Abort, alloc: Global, store: &mut Failing) -> Result<u32, Fail> {
    let mut shown = Vec::new(alloc);
    let mut count: u32 = 0;
    for first in 0..16 {
        for done in [
            store.read(first, 1, &mut shown),
            put(rt, alloc, store, first)?,
            store.trim(first, 1),
            store.write_zeroes(first, 1),
        ] {
            if done == Err(StoreFault::Medium) {
                count = count.saturating_add(1);
            }
        }
    }
    Ok(count)
}

/// How many bytes of the disk are 0x5a.
fn kept(rt: &impl Abort, alloc: Global, store: Failing) -> usize {
    let mut below = store.into_store();
    let mut shown = Vec::new(alloc);
    below.read(0, BLOCKS, &mut shown).expect(rt, "a read");
    shown.iter().filter(|byte| **byte == 0x5a).count()
}

#[test]
fn fails_never_with_odds_0(rt: HostRuntime) -> Result<(), Fail> {
    let mut store = failing(&rt, rt.alloc(), 0);
    assert_eq!(rt; failures(&rt, rt.alloc(), &mut store)?, 0);
    assert_eq!(rt; store.sync(), Ok(()));
    assert_eq!(rt; store.force(0, 1), Ok(()));
    assert_eq!(rt; kept(&rt, rt.alloc(), store), 24 * 512);
    Ok(())
}

#[test]
fn fails_always_with_odds_100_and_changes_nothing(rt: HostRuntime) -> Result<(), Fail> {
    let mut store = failing(&rt, rt.alloc(), 100);
    assert_eq!(rt; failures(&rt, rt.alloc(), &mut store)?, 64);
    assert_eq!(rt; store.sync(), Err(StoreFault::Medium));
    assert_eq!(rt; store.force(0, 1), Err(StoreFault::Medium));
    assert_eq!(rt; kept(&rt, rt.alloc(), store), 40 * 512);
    Ok(())
}

#[test]
fn fails_sometimes_with_odds_50(rt: HostRuntime) -> Result<(), Fail> {
    let mut store = failing(&rt, rt.alloc(), 50);
    let count = failures(&rt, rt.alloc(), &mut store)?;
    assert!(rt; (16..48).contains(&count), "{count} of 64");
    Ok(())
}

#[test]
fn fails_in_no_sync_that_is_spared(rt: HostRuntime) -> Result<(), Fail> {
    let mut store = failing(&rt, rt.alloc(), 100).sparing_syncs();
    assert_eq!(rt; failures(&rt, rt.alloc(), &mut store)?, 64);
    assert_eq!(rt; store.sync(), Ok(()));
    assert_eq!(rt; store.force(0, 1), Ok(()));
    assert_eq!(rt; store.failures(), 64);
    assert_eq!(rt; kept(&rt, rt.alloc(), store), 40 * 512);
    Ok(())
}
