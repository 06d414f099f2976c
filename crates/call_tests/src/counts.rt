ghost use Rattle.std.specs.Prelude.{◌≡◌, ◌<◌, length};

use live_index::LiveIndex;
use std::test::Fail;
use yardsticks::chance;

/// Which zones are named, and the one of them with the fewest where zones 0 and 2 have one.
const LEAST: [([bool; 4], Option<u32>); 5] = [
    ([true, true, true, true], Some(1)),
    ([true, false, true, true], Some(3)),
    ([true, false, true, false], Some(0)),
    ([false, false, true, false], Some(2)),
    ([false; 4], None),
];

#[test]
fn counts_and_finds_the_least(rt: HostRuntime) -> Result<(), Fail> {
    let mut index = LiveIndex::new(rt.alloc(), 4)?;
    index.add(0);
    index.add(0);
    index.add(2);
    index.remove(0);
    for (zone, count) in [(0, 1), (1, 0), (2, 1), (3, 0)] {
        assert_eq!(rt; index.count(zone), count);
    }
    for (among, least) in LEAST {
        assert_eq!(rt; index.least(&among), least);
    }
    Ok(())
}

/// One live record more or less in a zone, in both. The counts stay below 5, so that many are equal.
fn change(index: &mut LiveIndex, counts: &mut [u32; 16], zone: u32, more: bool)
    requires length { length index.old ≡ 16 }
    requires zone { zone < 16 }
    ensures { length index.new ≡ 16 }
{
    let count = index.count(zone);
    if more && count < 4 {
        index.add(zone);
        counts[zone as usize] = counts[zone as usize].wrapping_add(1);
    } else if count > 0 {
        index.remove(zone);
        counts[zone as usize] = counts[zone as usize].wrapping_sub(1);
    }
}

/// A zone is named where its bit is 1.
fn marks(bits: u32) -> [bool; 16] {
    let mut among = [false; 16];
    for zone in 0..16 {
        among[zone] = (bits >> zone) & 1 == 1;
    }
    among
}

/// The zone with the fewest, the lowest of equals, by a look at each.
fn plain_least(counts: &[u32; 16], among: &[bool; 16]) -> Option<u32> {
    let mut best: Option<(u32, u32)> = None;
    for zone in 0..16 {
        let found = (counts[zone], zone as u32);
        if among[zone] && best.is_none_or(|least| found < least) {
            best = Some(found);
        }
    }
    best.map(|(_, zone)| zone)
}

#[test]
fn counts_as_a_plain_list(rt: HostRuntime) -> Result<(), Fail> {
    let mut index = LiveIndex::new(rt.alloc(), 16)?;
    let mut counts = [0; 16];
    let mut state = 1;
    for call in 0..10_000 {
        let zone = chance(&mut state, 16);
        let more = chance(&mut state, 2) == 0;
        change(&mut index, &mut counts, zone, more);
        let among = marks(chance(&mut state, 65536));
        assert_eq!(rt;
            (index.count(zone), index.least(&among)),
            (counts[zone as usize], plain_least(&counts, &among)),
            "after call {call}"
        );
    }
    Ok(())
}
