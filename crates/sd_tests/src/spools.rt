// Bodies through a spool in memory, with each call of its store failing in each way.
use sd_base::{LEAST_BODY, MOST_BODY};
use sd_block::FramedBody;
use sd_pack::Body;
use sd_spool::{JobSpool, MemSpool, PutFault, SpoolCall, SpoolFail, SpoolStore, When};
use std::alloc::{AllocError, Global};

// The limit of the spools here.
const LIMIT: u64 = 60;

// What goes through such a spool, by length: three bodies fill it.
static LENGTHS: [usize; 6] = [12, 20, 28, 30, 30, 12];

const WENT_THROUGH: &str = "12 of 1, 20 of 2, 28 of 3, 30 of 4, 30 of 5, 12 of 6, ";

// The kinds of call, with how many of each there are.
static KINDS: [(SpoolCall, u64); 3] = [
    (SpoolCall::Append, 6),
    (SpoolCall::Read, 6),
    (SpoolCall::Clear, 3),
];

static WAYS: [When; 3] = [When::Before, When::Half, When::After];

// A body of that length, each byte of which is the number.
fn body_of(alloc: Global, length: usize, number: u32) -> Result<Body, AllocError> {
    let length = length.clamp(LEAST_BODY, MOST_BODY);
    let bytes = vec![in alloc; (number % 256) as u8; length]?;
    Ok(Body {
        bytes: FramedBody::from_slice(alloc, &bytes)?,
        first: number,
        last: number,
    })
}

// How many bytes of the body are its number.
fn tell_body(text: &mut String, body: &Body) -> Result<(), AllocError> {
    let number = body.first;
    let is_number = |byte: &&u8| u32::from(**byte) == number;
    let same = body.bytes.as_slice().iter().filter(is_number).count();
    write!(text, "{same} of {number}, ")
}

// Takes all bodies out, each once more if that failed.
fn drain(text: &mut String, spool: &mut JobSpool<MemSpool>) -> Result<(), AllocError> {
    for _ in 0..100 {
        match spool.next_body() {
            Ok(Some(body)) => tell_body(text, &body)?,
            Ok(None) => return Ok(()),
            Err(_) => {}
        }
    }
    Ok(())
}

// Puts a body in. If that failed or the spool is full, takes all others out first.
fn put(text: &mut String, spool: &mut JobSpool<MemSpool>, body: &Body) -> Result<(), AllocError> {
    for _ in 0..4 {
        match spool.put_body(body) {
            Ok(()) => return Ok(()),
            Err(PutFault::Memory) => return Err(AllocError),
            Err(_) => drain(text, spool)?,
        }
    }
    Ok(())
}

// Sends the bodies through a spool, and tells them as they come out.
fn send(
    alloc: Global,
    text: &mut String,
    spool: &mut JobSpool<MemSpool>,
) -> Result<(), AllocError> {
    for (place, length) in LENGTHS.iter().enumerate() {
        let body = body_of(alloc, *length, place as u32 + 1)?;
        put(text, spool, &body)?;
    }
    drain(text, spool)
}

// A spool on a store that may fail its first clear, once.
fn cleared(alloc: Global, store: MemSpool) -> Option<JobSpool<MemSpool>> {
    match JobSpool::new(alloc, store, LIMIT) {
        Ok(spool) => Some(spool),
        Err(kept) => JobSpool::new(alloc, kept.store, LIMIT).ok(),
    }
}

// How often the store failed on the way of the bodies through it; `None` if they came out otherwise.
fn failures_of(alloc: Global, plan: Vec<SpoolFail>) -> Option<u64> {
    let mut spool = cleared(alloc, MemSpool::with_plan(alloc, plan))?;
    let mut text = String::new(alloc);
    send(alloc, &mut text, &mut spool).ok()?;
    (text.as_str() == WENT_THROUGH).then_some(spool.into_store().failures())
}

// The first call of the kind that can't fail in this way, once.
fn first_otherwise(alloc: Global, call: SpoolCall, calls: u64, when: When) -> Option<u64> {
    for nth in 1..=calls {
        let Ok(plan) = vec![in alloc; SpoolFail { call, nth, when }; 1] else {
            return Some(nth);
        };
        if failures_of(alloc, plan) != Some(1) {
            return Some(nth);
        }
    }
    None
}

#[test]
fn calls_of_the_store_fail(rt: HostRuntime) {
    let alloc = rt.alloc();
    assert_eq!(rt; failures_of(alloc, Vec::new(alloc)), Some(0));
    for (call, calls) in &KINDS {
        for when in &WAYS {
            assert_eq!(rt; first_otherwise(alloc, *call, *calls, *when), None);
        }
    }
}
