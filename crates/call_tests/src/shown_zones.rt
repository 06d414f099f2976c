// What a report shows of each zone.

use crate::small_drives::GEOMETRY;
use nvme_wire::{Descriptor, ZoneState};
use passthrough::{SeenZone, ShownFault, zones_shown};
use std::alloc::Global;
use std::test::Fail;

/// A zone in a state, with a pointer if it has one.
fn descriptor(number: u64, state: ZoneState, pointer: Option<u64>) -> [u8; 64] {
    let descriptor = Descriptor {
        state,
        capacity: 6,
        start: number.wrapping_mul(8),
        pointer,
    };
    descriptor.encode()
}

/// A report of three zones: one in a state, and two others that are Empty.
fn report_of(alloc: Global, first: [u8; 64]) -> Option<Vec<u8>> {
    let mut report = Vec::from_slice(alloc, &[0; 64]).ok()?;
    report.extend_from_slice(&first).ok()?;
    report
        .extend_from_slice(&descriptor(1, ZoneState::Empty, Some(8)))
        .ok()?;
    report
        .extend_from_slice(&descriptor(2, ZoneState::Empty, Some(16)))
        .ok()?;
    Some(report)
}

/// What a report shows whose first descriptor is this.
fn shown(alloc: Global, first: [u8; 64]) -> Option<Result<SeenZone, ShownFault>> {
    let report = report_of(alloc, first)?;
    match zones_shown(alloc, GEOMETRY, &report) {
        Ok(seen) => Some(Ok(*seen.get(0)?)),
        Err(fault) => Some(Err(fault)),
    }
}

#[test]
fn each_state_is_shown(rt: HostRuntime) {
    for (state, pointer, written) in [
        (ZoneState::Empty, Some(0), Some(0)),
        (ZoneState::ImplicitlyOpened, Some(3), Some(3)),
        (ZoneState::ExplicitlyOpened, Some(0), Some(0)),
        (ZoneState::Closed, Some(5), Some(5)),
        (ZoneState::ReadOnly, None, None),
        (ZoneState::Full, None, None),
        (ZoneState::Offline, None, None),
    ] {
        let seen = shown(rt.alloc(), descriptor(0, state, pointer)).expect(&rt, "a report");
        let zone = SeenZone {
            state,
            written,
            changed: false,
        };
        assert_eq!(rt; seen, Ok(zone));
    }
}

/// At each place of a descriptor one byte that is not that of this zone.
#[test]
fn another_descriptor_is_refused(rt: HostRuntime) {
    for (place, byte) in [
        (0, 1),
        (0, 3),
        (1, 0),
        (1, 0x50),
        (8, 7),
        (15, 1),
        (16, 8),
        (23, 1),
    ] {
        let mut bytes = descriptor(0, ZoneState::Closed, Some(3));
        bytes[place] = byte;
        let seen = shown(rt.alloc(), bytes).expect(&rt, "a report");
        assert_eq!(rt; seen, Err(ShownFault::Zone(0)), "{place}");
    }
}

/// At or past the capacity, and all ones.
#[test]
fn a_pointer_out_of_the_zone_is_refused(rt: HostRuntime) {
    for pointer in [6, 7, 8, 1 << 32, u64::MAX] {
        let first = descriptor(0, ZoneState::ImplicitlyOpened, Some(pointer));
        let seen = shown(rt.alloc(), first).expect(&rt, "a report");
        assert_eq!(rt; seen, Err(ShownFault::Zone(0)), "{pointer}");
    }
}

/// A pointer below the start, in the third zone.
#[test]
fn the_zone_of_a_fault_is_named(rt: HostRuntime) -> Result<(), Fail> {
    let first = descriptor(0, ZoneState::Empty, Some(0));
    let mut report = report_of(rt.alloc(), first).expect(&rt, "a report");
    report.truncate(192);
    report.extend_from_slice(&descriptor(2, ZoneState::Closed, Some(15)))?;
    let fault = zones_shown(rt.alloc(), GEOMETRY, &report).err();
    assert_eq!(rt; fault, Some(ShownFault::Zone(2)));
    Ok(())
}

#[test]
fn a_report_of_another_length_is_refused(rt: HostRuntime) -> Result<(), Fail> {
    let first = descriptor(0, ZoneState::Empty, Some(0));
    let mut report = report_of(rt.alloc(), first).expect(&rt, "a report");
    report.push(0)?;
    for length in [0, 64, 255, 257] {
        assert!(rt; length <= report.len());
        let fault = zones_shown(rt.alloc(), GEOMETRY, &report[..length]).err();
        assert_eq!(rt; fault, Some(ShownFault::Length));
    }
    Ok(())
}
