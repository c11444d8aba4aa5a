// Sealing and opening blocks, beside a copy of as many bytes.
use crate::rate::{Length, print_copies, print_rate, tell};
use sd_base::{LEAST_BODY, MOST_BLOCK, MOST_BODY, SessionKey};
use sd_block::{open_block, seal};
use std::alloc::Global;
use std::mem::swap;
use std::time::Instant;

const KEY: SessionKey = SessionKey { time: 1000, id: 1 };

/// Seals and opens a usual and the greatest block.
pub fn run(rt: HostRuntime, length: Length) -> bool {
    seal_and_open(rt, length, "64,512 bytes", 64_488)
        && seal_and_open(rt, length, "1 MiB", 1_048_552)
}

fn seal_and_open(rt: HostRuntime, length: Length, label: &str, size: usize) -> bool {
    let Ok(body) = vec![in rt.alloc(); 0x5au8; size] else {
        return false;
    };
    let rounds = length.rounds(size);
    let mut sealed = Vec::new(rt.alloc());
    let mut all = print_copies(rt, length, "copy of a body", &body, rounds);
    let start = Instant::now(&rt);
    for number in 0..rounds {
        all &= seal_into(rt.alloc(), (number & 0xffff) as u32, &body, &mut sealed);
    }
    print_rate(rt, length, "seal", start, size, rounds);
    let mut other = Vec::new(rt.alloc());
    all &= seal_into(rt.alloc(), 1, &body, &mut other);
    all && print_opens(rt, length, label, size, &mut sealed, &mut other)
}

// Whether the body was sealed.
fn seal_into(alloc: Global, number: u32, body: &[u8], sealed: &mut Vec<u8>) -> bool {
    if body.len() < LEAST_BODY || body.len() > MOST_BODY {
        return false;
    }
    match seal(alloc, KEY, number, body) {
        Ok(block) => {
            *sealed = block;
            true
        }
        Err(_) => false,
    }
}

// Opens the two blocks in turn: one that stays the compiler opens once for all rounds.
fn print_opens(
    rt: HostRuntime,
    length: Length,
    label: &str,
    size: usize,
    sealed: &mut Vec<u8>,
    other: &mut Vec<u8>,
) -> bool {
    let rounds = length.rounds(size);
    let start = Instant::now(&rt);
    let mut all = true;
    for _ in 0..rounds {
        swap(sealed, other);
        all &= open_block(sealed, MOST_BLOCK).is_ok();
    }
    print_rate(rt, length, "open", start, size, rounds);
    tell(rt, "blocks of", label, "open", all)
}
