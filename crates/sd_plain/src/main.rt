//! A program for tests: plays scripts and holds talks over queues for one thread. It is no part of the tool or the daemon.
//! Without words it runs the script on standard input as `sdtool run` does: the rows of tests are played by both, since whatever
//! a script prints is the same over either queue. With the word `talk` it holds talks as the daemon does, on standard input and
//! output.
#![tactic(auto)]

mod talks;
mod world;

use sd_base::Refusal;
use sd_lane::PlainLanes;
use sd_port::WorldPort;
use sd_tool::{memory_drives, read_settings, run_lines};
use std::io::{BufReader, BufWriter};
use std::process::ExitCode;
use std::{env, io};
use talks::hold_talks;
use world::memory_world;

/// The status of a run whose command line was wrong.
const USAGE: u8 = 2;

/// For how many rounds a record and a close wait at most.
const ROUNDS: u32 = 1_000_000_000;

fn main(rt: HostRuntime) -> ExitCode {
    let words = match env::args(&rt) {
        Ok(words) => words.collect::<Vec<String>>(rt.alloc()),
        Err(_) => return without_memory(&rt),
    };
    let Ok(words) = words else {
        return without_memory(&rt);
    };
    match words.as_slice() {
        [] | [_] => run_script(&rt),
        [_, word] if word.as_str() == "talk" => hold(&rt),
        _ => {
            let _ = rt.eprintln("usage: sd_plain, or sd_plain talk");
            ExitCode::from(USAGE)
        }
    }
}

/// Runs the script on standard input.
fn run_script<R: Input + Print + AllocGlobal>(rt: &R) -> ExitCode {
    let alloc = rt.alloc();
    let Ok(queue) = PlainLanes::new(alloc, 1, 1) else {
        return without_memory(rt);
    };
    let Ok(mut reader) = BufReader::new(alloc, rt.reader()) else {
        return without_memory(rt);
    };
    let Ok(mut writer) = BufWriter::new(alloc, io::writer(rt)) else {
        return without_memory(rt);
    };
    let settings = read_settings(alloc, &mut reader);
    let Ok(drivers) = memory_drives(alloc, &settings.values) else {
        return without_memory(rt);
    };
    let status = run_lines(alloc, settings, drivers, queue, &mut reader, &mut writer);
    // What could not be written is given up, and not tried again as the writer goes.
    let _ = writer.into_parts();
    ExitCode::from(status)
}

/// Holds talks on standard input and output, over a new world. The status is 0 if the input came to its end after a
/// talk that was finished, or before the first.
fn hold<R: Input + Print + Eprint + AllocGlobal>(rt: &R) -> ExitCode {
    let alloc = rt.alloc();
    // One reader for all talks, so that no byte is lost between two.
    let (Ok(world), Ok(mut reader)) = (memory_world(alloc), BufReader::new(alloc, rt.reader()))
    else {
        let _ = rt.eprintln(Refusal::Memory);
        return ExitCode::FAILURE;
    };
    let mut port = WorldPort::new(alloc, world, 0, ROUNDS);
    if hold_talks(alloc, &mut reader, io::writer(rt), &mut port) {
        ExitCode::SUCCESS
    } else {
        ExitCode::FAILURE
    }
}

fn without_memory(rt: &impl Print) -> ExitCode {
    let _ = rt.println(Refusal::Memory);
    ExitCode::FAILURE
}
