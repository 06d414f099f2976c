use crate::drive_benches::Bench;
use std::alloc::Global;

/// A bench, the first zones of which have so many times 256 blocks.
fn written(alloc: Global, zones: usize, times: u32) -> Option<Bench> {
    let mut bench = Bench::new(alloc)?;
    for zone in 0..zones {
        if !bench.append_often(zone, times) {
            return None;
        }
    }
    Some(bench)
}

#[test]
fn neighbours_take_three_commands(rt: HostRuntime) {
    let mut bench = written(rt.alloc(), 1, 2).expect(&rt, "a drive");
    for address in 0..256 {
        assert!(rt; bench.read(address, 1), "at {address}");
    }
    assert_eq!(rt; bench.reads(), 3);
}

#[test]
fn neighbours_that_are_transfers_are_read_as_they_are(rt: HostRuntime) {
    let mut bench = written(rt.alloc(), 1, 4).expect(&rt, "a drive");
    for part in 0..4 {
        assert!(rt; bench.read(part * 256, 256), "at {part}");
    }
    assert_eq!(rt; bench.reads(), 4);
}

/// The headers of batches of two blocks, as a mount reads them: 768 Reads, and 64 times fewer commands.
#[test]
fn every_second_block_of_three_zones_takes_few_commands(rt: HostRuntime) {
    let mut bench = written(rt.alloc(), 3, 2).expect(&rt, "a drive");
    for zone in 0..3 {
        for batch in 0..256 {
            assert!(rt; bench.read(zone * 1024 + 2 * batch, 1), "at {batch}");
        }
    }
    assert_eq!(rt; bench.reads(), 12);
}

/// Each in another zone than the one before, forwards and backwards.
#[test]
fn random_reads_take_a_command_each(rt: HostRuntime) {
    let mut bench = written(rt.alloc(), 3, 2).expect(&rt, "a drive");
    for step in 0..300u64 {
        let address = step % 3 * 1024 + step * 389 % 509;
        assert!(rt; bench.read(address, 1), "at {address}");
    }
    assert_eq!(rt; bench.reads(), 300);
}

#[test]
fn backward_reads_take_a_command_each(rt: HostRuntime) {
    let mut bench = written(rt.alloc(), 1, 2).expect(&rt, "a drive");
    for step in 0..100u64 {
        assert!(rt; bench.read(500 - 5 * step, 1), "at {step}");
    }
    assert_eq!(rt; bench.reads(), 100);
}

#[test]
fn far_reads_take_a_command_each(rt: HostRuntime) {
    let mut bench = written(rt.alloc(), 1, 4).expect(&rt, "a drive");
    for step in 0..40u64 {
        assert!(rt; bench.read(step * 25, 1), "at {step}");
    }
    assert_eq!(rt; bench.reads(), 40);
}

/// A zone of 20 blocks: 1, 16 and 3 of them are read, and none past the pointer.
#[test]
fn reads_up_to_the_pointer(rt: HostRuntime) {
    let mut bench = Bench::new(rt.alloc()).expect(&rt, "a drive");
    assert!(rt; bench.append(0, 20));
    for address in 0..20 {
        assert!(rt; bench.read(address, 1), "at {address}");
    }
    assert_eq!(rt; bench.reads(), 3);
    assert!(rt; !bench.read(20, 1));
}

/// How many blocks of a zone are written is not known if it was Full at the first report.
#[test]
fn a_full_zone_is_read_to_its_capacity(rt: HostRuntime) {
    let mut bench = Bench::full(rt.alloc()).expect(&rt, "a drive");
    for address in 0..1024 {
        assert!(rt; bench.read(address, 1), "at {address}");
    }
    assert_eq!(rt; bench.reads(), 6);
}

/// What was kept is read anew after a Reset, and shows what was written since.
#[test]
fn a_reset_is_seen(rt: HostRuntime) {
    let mut bench = written(rt.alloc(), 1, 1).expect(&rt, "a drive");
    for address in 0..40 {
        assert!(rt; bench.read(address, 1), "at {address}");
    }
    assert_eq!(rt; bench.reads(), 3);
    assert!(rt; bench.reset(0));
    assert!(rt; bench.append(0, 30));
    for address in 0..30 {
        assert!(rt; bench.read(address, 1), "at {address}");
    }
    assert_eq!(rt; bench.reads(), 6);
}

/// An Append to the zone drops what is kept; Appends to others, and a Flush, do not.
#[test]
fn appends_to_other_zones_keep_what_was_read(rt: HostRuntime) {
    let mut bench = written(rt.alloc(), 2, 1).expect(&rt, "a drive");
    assert!(rt; bench.read(0, 1));
    assert!(rt; bench.read(1, 1));
    assert_eq!(rt; bench.reads(), 2);
    assert!(rt; bench.append(1, 20));
    assert!(rt; bench.append(2, 20));
    assert!(rt; bench.flush());
    assert!(rt; bench.read(2, 1));
    assert!(rt; bench.read(16, 1));
    assert_eq!(rt; bench.reads(), 2);
    assert!(rt; bench.append(0, 20));
    assert!(rt; bench.read(2, 1));
    assert_eq!(rt; bench.reads(), 3);
    assert!(rt; bench.read(256, 20));
    assert_eq!(rt; bench.reads(), 4);
}

/// A random Read keeps what was read ahead.
#[test]
fn a_read_elsewhere_keeps_what_was_read(rt: HostRuntime) {
    let mut bench = written(rt.alloc(), 2, 1).expect(&rt, "a drive");
    assert!(rt; bench.read(0, 1));
    assert!(rt; bench.read(1, 1));
    assert!(rt; bench.read(1200, 1));
    assert!(rt; bench.read(9, 3));
    assert_eq!(rt; bench.reads(), 3);
}
