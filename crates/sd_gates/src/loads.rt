// Many jobs; stores, devices and turns that end too soon.
use crate::gates::{ALL_DONE, FOUR, at};
use crate::holding::{Hold, Open};
use crate::jobs::Case;
use crate::telling::{NONE, Told, play};
use sd_line::Point;
use sd_memdrive::{Call, Fail};
use sd_spool::{SpoolCall, SpoolFail, When};
use std::test::*;

// Eight lines of four lanes each.
const MANY: Case = Case {
    lines: 8,
    lanes: 4,
    records: 10_000,
    most: 100,
    ..FOUR
};

// What each load has of its own: the room of a queue, and the limit of a spool.
static LOADS: [(usize, u64); 5] = [(1, 0), (2, 0), (3, 10_000), (8, 0), (8, 100_000)];

#[test]
fn many_jobs(rt: HostRuntime) {
    for (queue, spool) in &LOADS {
        let case = Case {
            queue: *queue,
            spool: *spool,
            ..MANY
        };
        let wanted = Told { done: 32, ..NONE };
        assert_eq!(rt;
            play(rt, rt.alloc(), &case, &Open),
            Some(wanted),
            "{case:?}"
        );
    }
}

// The calls of a store of which the first session's job fails.
static STORES: [SpoolFail; 2] = [
    SpoolFail {
        call: SpoolCall::Append,
        nth: 3,
        when: When::Before,
    },
    SpoolFail {
        call: SpoolCall::Read,
        nth: 1,
        when: When::Before,
    },
];

#[test]
fn spool_fails(rt: HostRuntime) {
    for store in &STORES {
        let case = Case {
            spool: 10_000,
            store: Some(*store),
            ..FOUR
        };
        let wanted = Told {
            done: 3,
            spool_faults: 1,
            ..NONE
        };
        assert_eq!(rt;
            play(rt, rt.alloc(), &case, &Open),
            Some(wanted),
            "{case:?}"
        );
    }
}

// The first sync of blocks: each label syncs once before it.
static THIRD_SYNC: [Fail; 1] = [Fail {
    call: Call::Sync,
    nth: 3,
    when: When::Before,
}];

// The first drive loses a block of each of its two sessions: its worker is held until both have sent theirs.
#[test]
fn sync_fails(rt: HostRuntime) {
    let case = Case {
        records: 4,
        most: 100,
        device: &THIRD_SYNC,
        ..FOUR
    };
    let gate = Hold::new(
        rt,
        at(Point::BeforePlace, 1, 2),
        at(Point::AfterPush, 1, 2),
        2,
    );
    let wanted = Told {
        done: 2,
        failed: 2,
        ..NONE
    };
    assert_eq!(rt; play(rt, rt.alloc(), &case, &gate), Some(wanted));
    assert!(rt; gate.held_well());
}

// How many records each job has and how many turns, and what the four come to. Of 40 records are more bodies than turns;
// one record is a body that is closed by the end alone.
static TURNS: [(u32, u64, Told); 4] = [
    (40, 0, Told { active: 4, ..NONE }),
    (40, 3, Told { active: 4, ..NONE }),
    (1, 0, Told { ended: 4, ..NONE }),
    (1, 1_000_000, ALL_DONE),
];

#[test]
fn out_of_turns(rt: HostRuntime) {
    for (records, turns, wanted) in &TURNS {
        let case = Case {
            records: *records,
            turns: *turns,
            ..FOUR
        };
        assert_eq!(rt;
            play(rt, rt.alloc(), &case, &Open),
            Some(*wanted),
            "{case:?}"
        );
    }
}
