use crate::cells::Cell;
use crate::cells::Cell::{Data, Trims, Writes};
use drive_rescue::DamagedBlock;
use zone_states::ZoneState;
use zone_states::ZoneState::{Closed, Empty, Full, Offline, ReadOnly};

/// A drive of three zones, of which some blocks cannot be read.
pub struct Case {
    pub name: &'static str,
    pub zones: &'static [(ZoneState, &'static [Cell])],
    pub damaged: &'static [DamagedBlock],
    pub given: u32,
}

/// Blocks 0 and 1, then 2 and 3.
const FIRST: &[Cell] = &[
    Writes(1, &[0, 1]),
    Data(0xa0),
    Data(0xa1),
    Writes(2, &[2, 3]),
    Data(0xa2),
    Data(0xa3),
    Writes(3, &[4]),
    Data(0xa4),
];

/// Block 0 again, and a trim of 3.
const SECOND: &[Cell] = &[Writes(4, &[0]), Data(0xb0), Trims(5, &[3])];

pub const CASES: &[Case] = &[
    Case {
        name: "a whole drive",
        zones: &[(Full, FIRST), (Closed, SECOND), (Empty, &[])],
        damaged: &[],
        given: 9,
    },
    Case {
        name: "an empty drive",
        zones: &[(Empty, &[]), (Empty, &[]), (Empty, &[])],
        damaged: &[],
        given: 3,
    },
    Case {
        name: "one unreadable data block",
        zones: &[(Full, FIRST), (Closed, SECOND), (Empty, &[])],
        damaged: &[DamagedBlock { zone: 0, offset: 4 }],
        given: 9,
    },
    Case {
        name: "an unreadable data block that is not the newest",
        zones: &[(Full, FIRST), (Closed, SECOND), (Empty, &[])],
        damaged: &[DamagedBlock { zone: 0, offset: 1 }],
        given: 9,
    },
    Case {
        name: "one unreadable header",
        zones: &[(Full, FIRST), (Closed, SECOND), (Empty, &[])],
        damaged: &[DamagedBlock { zone: 0, offset: 3 }],
        given: 9,
    },
    Case {
        name: "the last header is unreadable",
        zones: &[(Full, FIRST), (Closed, SECOND), (Empty, &[])],
        damaged: &[DamagedBlock { zone: 1, offset: 2 }],
        given: 9,
    },
    Case {
        name: "one foreign block in the middle",
        zones: &[
            (
                Closed,
                &[
                    Writes(1, &[0]),
                    Data(0xa0),
                    Data(0xff),
                    Writes(3, &[1]),
                    Data(0xa1),
                ],
            ),
            (
                Closed,
                &[Writes(2, &[2]), Data(0xb2), Writes(4, &[3]), Data(0xb3)],
            ),
            (Empty, &[]),
        ],
        damaged: &[],
        given: 9,
    },
    Case {
        name: "after a gap a header with a lesser sequence",
        zones: &[
            (
                Closed,
                &[
                    Writes(3, &[0]),
                    Data(0xa0),
                    Data(0xff),
                    Writes(2, &[1]),
                    Data(0xa1),
                    Writes(4, &[2]),
                    Data(0xa2),
                ],
            ),
            (Empty, &[]),
            (Empty, &[]),
        ],
        damaged: &[],
        given: 9,
    },
    Case {
        name: "a torn tail whose data look like a header",
        zones: &[
            (
                Closed,
                &[
                    Writes(1, &[0]),
                    Data(0xa0),
                    Writes(2, &[0, 1, 2]),
                    Writes(9, &[1]),
                    Data(0xff),
                ],
            ),
            (Empty, &[]),
            (Empty, &[]),
        ],
        damaged: &[],
        given: 9,
    },
    Case {
        name: "a Full zone that ends in zeros",
        zones: &[
            (Full, &[Writes(1, &[0]), Data(0xa0)]),
            (Closed, &[Writes(2, &[1]), Data(0xb1)]),
            (Empty, &[]),
        ],
        damaged: &[],
        given: 9,
    },
    Case {
        name: "a Full zone with a batch after zeros",
        zones: &[
            (
                Full,
                &[
                    Writes(1, &[0]),
                    Data(0xa0),
                    Data(0),
                    Writes(3, &[1]),
                    Data(0xa1),
                ],
            ),
            (
                Closed,
                &[Writes(2, &[2]), Data(0xb2), Writes(4, &[3]), Data(0xb3)],
            ),
            (Empty, &[]),
        ],
        damaged: &[],
        given: 9,
    },
    Case {
        name: "a Read Only zone",
        zones: &[
            (ReadOnly, &[Writes(1, &[0]), Data(0xa0)]),
            (Closed, &[Writes(2, &[1]), Data(0xb1)]),
            (Empty, &[]),
        ],
        damaged: &[],
        given: 9,
    },
    Case {
        name: "a Read Only zone with a torn tail",
        zones: &[
            (
                Closed,
                &[Writes(1, &[0]), Data(0xa0), Writes(2, &[1]), Data(0xa1)],
            ),
            (ReadOnly, &[Writes(3, &[0, 1]), Data(0xb0)]),
            (Empty, &[]),
        ],
        damaged: &[],
        given: 9,
    },
    Case {
        name: "a Read Only zone with an unreadable block at its end",
        zones: &[
            (Closed, &[Writes(1, &[0]), Data(0xa0)]),
            (ReadOnly, &[Writes(2, &[1, 2]), Data(0xb1), Data(0)]),
            (Empty, &[]),
        ],
        damaged: &[DamagedBlock { zone: 1, offset: 2 }],
        given: 9,
    },
    Case {
        name: "an Offline zone",
        zones: &[
            (Offline, &[]),
            (Closed, &[Writes(2, &[1]), Data(0xb1)]),
            (Empty, &[]),
        ],
        damaged: &[],
        given: 9,
    },
    Case {
        name: "a number that no disk has",
        zones: &[(Empty, &[]), (Empty, &[]), (Empty, &[])],
        damaged: &[],
        given: 2_147_483_649,
    },
];
