//! A program for tests: worked examples as lists of events, given to worlds whose devices and spools are in memory, or
//! over folders in memory.
//!
//! - each as one list, and its closed sessions read by `run_and_read` in a world of their own;
//! - devices that stop after each of their changes, and a later run that reads what was told to be closed;
//! - a volume that a later run takes over, and one of the same time, which is refused;
//! - each call of a device and of a spool failing, in each way;
//! - all again over folders in memory, by the device and the spools that the daemon has over folders of the system.
//!
//! With the word `scarce` each is played by lists of one event each, an event that is refused for want of memory is given once
//! more, and a later run reads its sessions again: `tests/memory/run` refuses each allocation of that in turn.
#![tactic(auto)]

mod adopted;
mod events;
mod failing;
mod folders;
mod listed;
mod rows;
mod scarce;
mod stops;
mod worlds;

use rows::{HELLO, INTERLEAVED, SPOOLED, THREE_BLOCKS, TWO_VOLUMES};
use std::{env, io};

fn main(rt: HostRuntime) -> io::Result<()> {
    let words: Vec<String> = env::args(&rt)?.collect(rt.alloc())?;
    match words.get(1) {
        Some(word) if word.as_str() == "scarce" => play_scarce(rt),
        _ => play_all(rt),
    }
}

fn play_scarce(rt: HostRuntime) -> io::Result<()> {
    for row in [&HELLO, &THREE_BLOCKS, &TWO_VOLUMES, &INTERLEAVED, &SPOOLED] {
        scarce::run(rt, row)?;
    }
    Ok(())
}

fn play_all(rt: HostRuntime) -> io::Result<()> {
    for row in [&HELLO, &THREE_BLOCKS, &TWO_VOLUMES, &INTERLEAVED, &SPOOLED] {
        listed::run(rt, row)?;
    }
    for row in [&HELLO, &THREE_BLOCKS, &TWO_VOLUMES, &INTERLEAVED] {
        stops::run(rt, row)?;
    }
    adopted::run(rt, &HELLO)?;
    for row in [&TWO_VOLUMES, &INTERLEAVED, &SPOOLED] {
        failing::run(rt, row)?;
    }
    play_over_folders(rt)
}

fn play_over_folders(rt: HostRuntime) -> io::Result<()> {
    for row in [&HELLO, &THREE_BLOCKS, &TWO_VOLUMES, &INTERLEAVED, &SPOOLED] {
        folders::list(rt, row)?;
    }
    for row in [&HELLO, &THREE_BLOCKS, &TWO_VOLUMES, &INTERLEAVED] {
        folders::stop(rt, row)?;
    }
    for row in [&TWO_VOLUMES, &INTERLEAVED, &SPOOLED] {
        folders::fail(rt, row)?;
    }
    Ok(())
}
