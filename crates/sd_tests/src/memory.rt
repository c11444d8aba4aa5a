// The drive in memory against a plain model, through the trait's bound: every call failing in every way, and a
// stop after every call.
use crate::calls::{Bench, Step, play};
use crate::table::{STOPS, TOLD};
use sd_driver::Driver;
use sd_memdrive::{Call, Fail, MemDrive, When};
use std::alloc::{AllocError, Global};
use std::test::Fail as TestFail;

static HISTORY: [Step; 26] = [
    Step::Create("A"),
    Step::Append(&[1, 2, 3, 4, 5]),
    Step::Sync,
    Step::Unload,
    Step::Create("B"),
    Step::Append(&[6, 7]),
    Step::Append(&[8, 9, 10, 11, 12, 13, 14]),
    Step::Sync,
    Step::Cut(1),
    Step::Unload,
    Step::Create("A"),
    Step::Load("C"),
    Step::Len("C"),
    Step::Read("C", 0),
    Step::Load("A"),
    Step::Append(&[20, 21, 22]),
    Step::Append(&[23]),
    Step::Cut(6),
    Step::Len("A"),
    Step::Read("A", 2),
    Step::Sync,
    Step::Append(&[30]),
    Step::Cut(3),
    Step::Unload,
    Step::Len("B"),
    Step::Read("B", 0),
];

// Tells the two volumes that the history makes.
fn tell_shelf<D: Driver + Drop>(text: &mut String, bench: &mut Bench<D>) -> Result<(), AllocError> {
    text.push_str("A=")?;
    bench.bytes_of(text, "A")?;
    text.push_str(" B=")?;
    bench.bytes_of(text, "B")
}

fn make_bench(alloc: Global, plan: &[Fail]) -> Result<Bench<MemDrive>, AllocError> {
    Ok(Bench {
        driver: MemDrive::new(alloc, 8, plan)?,
        loaded: false,
    })
}

// The shelf that a stop after so many counted calls leaves.
fn stopped(
    alloc: Global,
    text: &mut String,
    drive: &MemDrive,
    calls: u64,
    tail: &[u8],
) -> Result<(), AllocError> {
    if calls > drive.calls() {
        return Ok(());
    }
    let mut left = Bench {
        driver: drive.after_stop(alloc, calls, tail)?,
        loaded: false,
    };
    tell_shelf(text, &mut left)
}

// The kinds of call, with how many of each the history makes.
static KINDS: [(Call, u64); 7] = [
    (Call::Create, 3),
    (Call::Load, 2),
    (Call::Len, 3),
    (Call::Read, 3),
    (Call::Append, 6),
    (Call::Sync, 3),
    (Call::Cut, 3),
];

// One that can't be half done fails before it does anything.
static WAYS: [When; 3] = [When::Before, When::Half, When::After];

// The history without a failure, and with each call of it in turn failing in each way: a line for each.
fn tell_all(alloc: Global) -> Result<String, AllocError> {
    let mut text = String::new(alloc);
    text.push_str("no failure: ")?;
    tell(alloc, &[], &mut text)?;
    for (call, count) in &KINDS {
        for when in &WAYS {
            tell_failing(alloc, *call, *count, *when, &mut text)?;
        }
    }
    Ok(text)
}

// The history with each call of a kind in turn failing so.
fn tell_failing(
    alloc: Global,
    call: Call,
    count: u64,
    when: When,
    text: &mut String,
) -> Result<(), AllocError> {
    for nth in 1..=count {
        write!(text, "{call:?} {nth} {when:?}: ")?;
        tell(alloc, &[Fail { call, nth, when }], text)?;
    }
    Ok(())
}

// The history under a plan.
fn tell(alloc: Global, plan: &[Fail], text: &mut String) -> Result<(), AllocError> {
    let mut bench = make_bench(alloc, plan)?;
    tell_calls(alloc, text, &mut bench)?;
    text.push('\n')
}

fn tell_calls(
    alloc: Global,
    text: &mut String,
    bench: &mut Bench<MemDrive>,
) -> Result<(), AllocError> {
    play(text, bench, &HISTORY)?;
    text.push_str("| ")?;
    tell_shelf(text, bench)?;
    text.push_str(" | ")?;
    let calls = bench.driver.calls();
    stopped(alloc, text, &bench.driver, calls, &[])?;
    write!(text, " | {} {calls}", bench.driver.failures())
}

#[test]
fn every_call_fails(rt: HostRuntime) -> Result<(), TestFail> {
    assert_eq!(rt; tell_all(rt.alloc())?.as_str(), TOLD);
    Ok(())
}

// What a stop after each counted call of the history leaves, a line for each.
fn tell_stops(alloc: Global, text: &mut String) -> Result<(), AllocError> {
    let mut bench = make_bench(alloc, &[])?;
    play(text, &mut bench, &HISTORY)?;
    text.clear();
    tell_each_stop(alloc, text, &bench.driver)
}

fn tell_each_stop(alloc: Global, text: &mut String, drive: &MemDrive) -> Result<(), AllocError> {
    for calls in 0..=drive.calls() {
        write!(text, "{calls}: ")?;
        stopped(alloc, text, drive, calls, &[0, 0])?;
        text.push('\n')?;
    }
    Ok(())
}

#[test]
fn stop_after_every_call(rt: HostRuntime) -> Result<(), TestFail> {
    let mut text = String::new(rt.alloc());
    tell_stops(rt.alloc(), &mut text)?;
    assert_eq!(rt; text.as_str(), STOPS);
    Ok(())
}

// Two stable bytes, by three counted calls.
static TWO_BYTES: [Step; 3] = [Step::Create("A"), Step::Append(&[1, 2]), Step::Sync];

// One counted call.
static SYNC_AGAIN: [Step; 2] = [Step::Load("A"), Step::Sync];

// Two stable bytes, and the number of the counted calls; then what a stop after them leaves, with a tail of one byte.
fn tell_tail(alloc: Global, text: &mut String) -> Result<(), AllocError> {
    let mut bench = make_bench(alloc, &[])?;
    play(text, &mut bench, &TWO_BYTES)?;
    write!(text, "{} ", bench.driver.calls())?;
    tell_left(alloc, text, &bench.driver)
}

fn tell_left(alloc: Global, text: &mut String, drive: &MemDrive) -> Result<(), AllocError> {
    let mut left = Bench {
        driver: drive.after_stop(alloc, drive.calls(), &[9])?,
        loaded: false,
    };
    tell_synced(alloc, text, &mut left)
}

// A drive stopped before and after a sync, told with the number of its counted calls.
fn tell_synced(
    alloc: Global,
    text: &mut String,
    left: &mut Bench<MemDrive>,
) -> Result<(), AllocError> {
    stopped(alloc, text, &left.driver, 0, &[])?;
    text.push(' ')?;
    play(text, left, &SYNC_AGAIN)?;
    let calls = left.driver.calls();
    stopped(alloc, text, &left.driver, calls, &[])?;
    write!(text, " {calls}")
}

// A tail that a stop left is made stable by a sync, as any other bytes.
#[test]
fn tail_is_synced(rt: HostRuntime) -> Result<(), TestFail> {
    let mut text = String::new(rt.alloc());
    tell_tail(rt.alloc(), &mut text)?;
    assert_eq!(rt; text.as_str(), ". . . 3 A=[1, 2] B=N . . A=[1, 2, 9] B=N 1");
    Ok(())
}
