// Jobs that name a line which isn't theirs.
ghost use Rattle.sd_gates.specs.Names.{AreNamed};

use crate::gates::FOUR;
use crate::jobs::{Begun, begin_all, make_all};
use crate::making::Made;
use sd_jobs::{Job, have_lines};
use sd_line::Naming;
use std::alloc::Global;
use std::marker::Brand;
use std::sync::Wait;
use std::test::*;

// Whether each job is found to have its line, if the last one names the line at this place.
fn play<R: Wait + Copy + Drop>(rt: R, alloc: Global, place: usize) -> Option<bool> {
    let all = make_all(rt, alloc, &FOUR)?;
    play_with::<Brand, R>(rt, alloc, all, place)
}

fn play_with<N: Naming, R: Wait + Copy + Drop>(
    rt: R,
    alloc: Global,
    all: Vec<Made<R>>,
    place: usize,
) -> Option<bool>
    requires { AreNamed N.table N.time all.items }
{
    let Begun { lines, mut jobs } = begin_all::<N, R>(rt, alloc, &FOUR, all)?;
    let Job {
        line: _,
        part,
        recs,
        moment,
    } = jobs.pop()?;
    let job = Job {
        line: place,
        part,
        recs,
        moment,
    };
    jobs.push(job).ok()?;
    Some(have_lines(&lines, &jobs))
}

// Its line is the second.
#[test]
fn lines_of_jobs(rt: HostRuntime) {
    for (place, wanted) in [(1, true), (0, false), (2, false)] {
        assert_eq!(rt; play(rt, rt.alloc(), place), Some(wanted), "{place}");
    }
}
