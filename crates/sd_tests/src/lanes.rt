// The queue that threads share, of two lanes and of any number of them.
use crate::player::{Case, Told, play};

// The room of a queue, how many pieces each lane's thread pushes, and how many are left in the queue then.
type Row = (usize, u64, u64);

static TWO_LANES: [Row; 8] = [
    (1, 500, 0),
    (1, 500, 1),
    (2, 500, 1),
    (3, 500, 2),
    (8, 2000, 5),
    (8, 2000, 8),
    (1024, 5000, 700),
    (1024, 200, 600),
];

static ALL_LANES: [Row; 4] = [(1, 40, 1), (2, 40, 0), (8, 40, 3), (64, 40, 64)];

fn case_of(lanes: u32, row: &Row) -> Case {
    let (capacity, each, left) = *row;
    Case {
        lanes,
        capacity,
        each,
        left,
    }
}

// What is to come of it: after what is left, there is the rest of the room.
fn wanted(case: &Case) -> Told {
    Told {
        room: Some(case.capacity),
        room_behind: Some(case.capacity.saturating_sub(case.left as usize)),
        wrong: 0,
        is_over: true,
        last: 1,
    }
}

#[test]
fn two_lanes(rt: HostRuntime) {
    for row in &TWO_LANES {
        let case = case_of(2, row);
        assert_eq!(rt; play(&rt, rt.alloc(), &case), wanted(&case), "{case:?}");
    }
}

#[test]
fn all_lanes(rt: HostRuntime) {
    for lanes in 1..=32 {
        for row in &ALL_LANES {
            let case = case_of(lanes, row);
            assert_eq!(rt; play(&rt, rt.alloc(), &case), wanted(&case), "{case:?}");
        }
    }
}
