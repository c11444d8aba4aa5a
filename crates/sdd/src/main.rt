//! The storage daemon: `sdd serve` serves clients, and `sdd check` reads a configuration on standard input and prints
//! its values, or what is wrong with it; on standard error, where that is, and which folders aren't there.
#![tactic(auto)]

use sd_arguments::{DaemonTask, Serving, daemon_task, status_of};
use sd_base::Refusal;
use sd_conf::check_conf;
use sd_daemon::{Bounds, serve_file, warn_of_folders};
use sd_serve::Log;
use sd_text::Printer;
use std::alloc::Global;
use std::io::BufWriter;
use std::process::ExitCode;
use std::sync::Wait;
use std::thread::Threads;
use std::time::Clock;
use std::{env, io};

/// How much memory is taken and given back at the start.
const KEPT: usize = 2_000_000;

fn main(rt: HostRuntime) -> ExitCode {
    let alloc = rt.alloc();
    keep_memory(alloc);
    let words = match env::args(&rt) {
        Ok(words) => words.collect::<Vec<String>>(alloc),
        Err(_) => return without_memory(&rt),
    };
    let Ok(words) = words else {
        return without_memory(&rt);
    };
    match daemon_task(alloc, words.as_slice()) {
        DaemonTask::Check => check_input(&rt),
        DaemonTask::Serve(asked) => serve_clients(&rt, rt, &asked),
        DaemonTask::Print(told) => match told.print(&rt) {
            Ok(()) => ExitCode::from(status_of(&told)),
            Err(_) => ExitCode::FAILURE,
        },
        DaemonTask::NoMemory => without_memory(&rt),
    }
}

/// Checks the configuration on standard input.
fn check_input(rt: &HostRuntime) -> ExitCode {
    let alloc = rt.alloc();
    let Ok(mut writer) = BufWriter::new(alloc, io::writer(rt)) else {
        return without_memory(rt);
    };
    let mut out = Printer::new(&mut writer);
    let mut errors = Printer::new(rt.stderr());
    let checked = check_conf(alloc, &mut rt.reader(), &mut out, &mut errors);
    if let Ok(conf) = &checked.conf {
        warn_of_folders(rt, conf, &mut errors);
    }
    // What could not be written is given up, and not tried again as the writer goes.
    let _ = out.into_writer();
    let _ = writer.into_parts();
    ExitCode::from(checked.status)
}

/// Serves clients.
fn serve_clients<W: Threads + Wait + Clock + Send + Sync + Copy + Drop>(
    rt: &HostRuntime,
    wait: W,
    asked: &Serving<'_>,
) -> ExitCode {
    let log = Log::new(if asked.log { Some(rt.stderr()) } else { None });
    let mut out = Printer::new(io::writer(rt));
    let bounds = Bounds {
        talks: asked.talks,
        wait: asked.wait,
        metrics: asked.metrics,
        until: asked.until,
        adopt: asked.adopt,
        adopt_damaged: asked.adopt_damaged.as_slice(),
    };
    let mut errors = Printer::new(rt.stderr());
    let status = serve_file(rt, wait, asked.path, bounds, &log, &mut out, &mut errors);
    ExitCode::from(status)
}

// Takes one piece of memory and gives it back, untouched. From then on the C library's heap keeps up to twice that much
// of what is given back to it, in place of handing pages to the system and taking them again (as: glibc, mallopt(3),
// M_MMAP_THRESHOLD, which adjusts itself). So the bodies that a drive's thread lets go cost no fresh pages.
fn keep_memory(alloc: Global) {
    let _piece = Vec::<u8>::with_capacity(alloc, KEPT);
}

fn without_memory(rt: &impl Print) -> ExitCode {
    let _ = rt.println(Refusal::Memory);
    ExitCode::FAILURE
}
