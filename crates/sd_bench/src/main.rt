//! How fast the byte path is, beside plain memory copies in the same run.
//!
//! Without an argument each job runs once, on little, and says what it made; so the gate sees that
//! the jobs work. With the argument `times` they run long enough to be timed, and say their rates. With
//! `files FOLDER COUNT` it only writes so many blocks to a file in the folder, and with `spool FOLDER COUNT` so
//! many bodies to a spool there and back, to be timed from outside. With `queues` it times a million pieces that 32
//! threads push and one takes.
#![tactic(auto)]

mod blocks;
mod checksum;
mod packing;
mod queues;
mod rate;
mod readback;
mod spools;
mod talk;
mod volumes;

use anyhow::{Result, bail};
use rate::Length;
use sd_filedrive::FileDrive;
use std::alloc::Global;
use std::env;

/// How much memory is taken and given back at the start.
const KEPT: usize = 33_000_000;

fn main(rt: HostRuntime) -> Result<()> {
    keep_memory(rt.alloc());
    let mut arguments = env::args(&rt)?.skip(1);
    let first = arguments.next();
    let folder = arguments.next();
    let count = arguments.next();
    let first = word(&first);
    if first != "queues" && !run(rt, first, word(&folder), word(&count)) {
        bail!("a job isn't done");
    }
    // Here alone, since this handle may wait in `main` and nowhere else.
    if (first == "queues" || first.is_empty())
        && !queues::run(&rt, rt.alloc(), queues_length(first))
    {
        bail!("a queue isn't as it was to be");
    }
    Ok(())
}

fn queues_length(first: &str) -> Length {
    match first {
        "queues" => Length::Timed,
        _ => Length::Once,
    }
}

fn word(argument: &Option<String>) -> &str {
    match argument {
        Some(word) => word.as_str(),
        None => "",
    }
}

// Whether what the arguments ask for was done. The jobs answer so too, and no more: each way out of a function with an
// error in hand would cost as much to prove as the job.
fn run(rt: HostRuntime, first: &str, folder: &str, count: &str) -> bool {
    match first {
        "files" | "spool" => run_in_files(rt, first == "spool", folder, count),
        "times" => run_jobs(rt, Length::Timed),
        _ => run_jobs(rt, Length::Once),
    }
}

fn run_in_files(rt: HostRuntime, into_spool: bool, folder: &str, count: &str) -> bool {
    let Ok(count) = count.parse::<u64>() else {
        let _ = eprintln!(rt; "usage: files FOLDER COUNT, or spool FOLDER COUNT");
        return false;
    };
    if into_spool {
        spools::run(rt, folder, count)
    } else {
        files(rt, folder, count)
    }
}

fn run_jobs(rt: HostRuntime, length: Length) -> bool {
    checksum::run(rt, length)
        && blocks::run(rt, length)
        && packing::run(rt, length)
        && volumes::run(rt, length)
        && readback::run(rt, length)
        && talk::run(rt, length)
}

// Writes so many blocks to a file of the folder.
fn files(rt: HostRuntime, folder: &str, blocks: u64) -> bool {
    match FileDrive::new(rt, rt.alloc(), folder) {
        Ok(mut drive) => volumes::write(&mut drive, blocks),
        Err(_) => false,
    }
}

// Takes one large piece of memory and gives it back, untouched. From then on the C library's heap keeps what is given
// back to it, up to twice that much, in place of handing each piece to the system (as: glibc, mallopt(3),
// M_MMAP_THRESHOLD, which adjusts itself). So the byte path takes no fresh pages once it has run for a while.
fn keep_memory(alloc: Global) {
    let _piece = Vec::<u8>::with_capacity(alloc, KEPT);
}
