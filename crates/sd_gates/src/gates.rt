// Jobs run beside one another: one is held until another has ended, and one drive until another has placed.
use crate::holding::{Hold, Open, Place};
use crate::jobs::Case;
use crate::telling::{NONE, Told, play};
use sd_line::Point;
use std::test::*;

/// Two lines of two lanes each.
pub const FOUR: Case = Case {
    lines: 2,
    lanes: 2,
    first: 1,
    next: 1,
    queue: 2,
    spool: 0,
    records: 40,
    most: 900,
    turns: 1_000_000,
    device: &[],
    store: None,
};

/// All four jobs are done.
pub const ALL_DONE: Told = Told { done: 4, ..NONE };

pub const fn at(point: Point, least: u32, most: u32) -> Place {
    Place { point, least, most }
}

#[test]
fn four_jobs(rt: HostRuntime) {
    assert_eq!(rt; play(rt, rt.alloc(), &FOUR, &Open), Some(ALL_DONE));
}

#[test]
fn gate_session(rt: HostRuntime) {
    let gate = Hold::new(
        rt,
        at(Point::BeforeAppend, 1, 1),
        at(Point::AfterClose, 2, 2),
        1,
    );
    assert_eq!(rt; play(rt, rt.alloc(), &FOUR, &gate), Some(ALL_DONE));
    assert!(rt; gate.held_well());
}

#[test]
fn gate_drive(rt: HostRuntime) {
    let gate = Hold::new(
        rt,
        at(Point::BeforePlace, 1, 2),
        at(Point::AfterPlace, 3, 4),
        1,
    );
    assert_eq!(rt; play(rt, rt.alloc(), &FOUR, &gate), Some(ALL_DONE));
    assert!(rt; gate.held_well());
}
