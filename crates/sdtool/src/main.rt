//! The storage daemon's tool: plays scripts, and lists, reads, scans and verifies volumes. `sdtool run` reads a script on standard
//! input, runs it over the core and prints what each line of it comes to; `sdtool ls` lists a volume; `sdtool read` reads a
//! session back from its volumes, `sdtool salvage` past damage; `sdtool scan` finds the sessions on volumes, and `sdtool verify` what is damaged of them.
#![tactic(auto)]

use sd_arguments::{ToolTask, status_of, tool_task};
use sd_base::Refusal;
use sd_files::{Extracted, ShownProgress, list_volume, read_back};
use sd_lane::Lanes;
use sd_ruled::RuledLanes;
use sd_salvage::{Salvage, salvage_back};
use sd_scan::{Told, scan_folder, scan_named, verify_folder};
use sd_text::Printer;
use sd_tool::{memory_drives, read_settings, run_lines};
use std::alloc::Global;
use std::io::{BufReader, BufWriter};
use std::process::ExitCode;
use std::{env, io};

/// How much memory is taken and given back at the start.
const KEPT: usize = 2_000_000;

fn main(rt: HostRuntime) -> ExitCode {
    let alloc = rt.alloc();
    keep_memory(alloc);
    let words = match env::args(&rt) {
        Ok(words) => words.collect::<Vec<String>>(alloc),
        Err(_) => return without_memory(&rt),
    };
    let Ok(words) = words else {
        return without_memory(&rt);
    };
    match tool_task(alloc, words.as_slice()) {
        ToolTask::Run => match RuledLanes::new(rt, alloc, 1, 1) {
            Ok(queue) => run_script(&rt, queue),
            Err(_) => without_memory(&rt),
        },
        ToolTask::List { volume, progress } => list(&rt, volume, ShownProgress::asked(progress)),
        ToolTask::Read {
            spans,
            folder,
            progress,
        } => read(&rt, spans, folder, ShownProgress::asked(progress)),
        ToolTask::Salvage {
            spans,
            folder,
            progress,
        } => salvage(&rt, spans, folder, ShownProgress::asked(progress)),
        ToolTask::Scan {
            folder,
            volumes,
            texts,
            progress,
        } => scan(&rt, folder, &volumes, texts, ShownProgress::asked(progress)),
        ToolTask::Verify {
            folder,
            expected,
            json,
        } => verify(&rt, folder, expected, json),
        ToolTask::Print(told) => match told.print(&rt) {
            Ok(()) => ExitCode::from(status_of(&told)),
            Err(_) => ExitCode::FAILURE,
        },
        ToolTask::NoMemory => without_memory(&rt),
    }
}

/// Runs the script on standard input, over drives in memory and queues like the one given.
fn run_script<R: Input + Print + AllocGlobal, Q: Lanes + Drop>(rt: &R, queue: Q) -> ExitCode {
    let alloc = rt.alloc();
    let Ok(mut reader) = BufReader::new(alloc, rt.reader()) else {
        return without_memory(rt);
    };
    let Ok(mut writer) = BufWriter::new(alloc, io::writer(rt)) else {
        return without_memory(rt);
    };
    let settings = read_settings(alloc, &mut reader);
    let Ok(drivers) = memory_drives(alloc, &settings.values) else {
        return without_memory(rt);
    };
    let status = run_lines(alloc, settings, drivers, queue, &mut reader, &mut writer);
    // What could not be written is given up, and not tried again as the writer goes.
    let _ = writer.into_parts();
    ExitCode::from(status)
}

/// Lists the volume in the file at this path.
fn list(rt: &HostRuntime, volume: &str, progress: ShownProgress) -> ExitCode {
    let Ok(writer) = BufWriter::new(rt.alloc(), io::writer(rt)) else {
        return without_memory(rt);
    };
    let mut out = Printer::new(writer);
    let status = list_volume(rt, volume, progress, &mut out);
    // What could not be written is given up, and not tried again as the writer goes.
    let _ = out.into_writer().into_parts();
    ExitCode::from(status)
}

/// Reads a session back by the text in the file `spans`, from the volumes in `folder`.
fn read(rt: &HostRuntime, spans: &str, folder: &str, progress: ShownProgress) -> ExitCode {
    let Ok(writer) = BufWriter::new(rt.alloc(), io::writer(rt)) else {
        return without_memory(rt);
    };
    let Extracted { out, status } = read_back(rt, spans, folder, progress, Printer::new(writer));
    let _ = out.into_writer().into_parts();
    ExitCode::from(status)
}

/// Salvages a session by the text in the file `spans`, from the volumes in `folder`, past damage.
fn salvage(rt: &HostRuntime, spans: &str, folder: &str, progress: ShownProgress) -> ExitCode {
    let Ok(writer) = BufWriter::new(rt.alloc(), io::writer(rt)) else {
        return without_memory(rt);
    };
    let Salvage { out, status } = salvage_back(rt, spans, folder, progress, Printer::new(writer));
    let _ = out.into_writer().into_parts();
    ExitCode::from(status)
}

/// Finds the sessions on these volumes of a folder, or on all of them if none is named.
fn scan(
    rt: &HostRuntime,
    folder: &str,
    volumes: &[&str],
    texts: Option<&str>,
    progress: ShownProgress,
) -> ExitCode {
    let Ok(writer) = BufWriter::new(rt.alloc(), io::writer(rt)) else {
        return without_memory(rt);
    };
    let mut out = Printer::new(writer);
    let status = if volumes.is_empty() {
        scan_folder(rt, folder, texts, progress, &mut out)
    } else {
        scan_named(rt, folder, volumes, texts, progress, &mut out)
    };
    let _ = out.into_writer().into_parts();
    ExitCode::from(status)
}

/// Looks for damage on all volumes of a folder, and tells how far it has come.
fn verify(rt: &HostRuntime, folder: &str, expected: Option<&str>, json: bool) -> ExitCode {
    let Ok(writer) = BufWriter::new(rt.alloc(), io::writer(rt)) else {
        return without_memory(rt);
    };
    let mut out = Printer::new(writer);
    let told = if json {
        Told::UnsoundJson
    } else {
        Told::Unsound
    };
    let status = verify_folder(rt, folder, expected, told, &mut out);
    let _ = out.into_writer().into_parts();
    ExitCode::from(status)
}

// Takes one piece of memory and gives it back, untouched, so that from then on the C library's heap keeps pages for the
// next body, as in the daemon (`keep_memory` of `sdd` says how).
fn keep_memory(alloc: Global) {
    let _piece = Vec::<u8>::with_capacity(alloc, KEPT);
}

fn without_memory(rt: &impl Print) -> ExitCode {
    let _ = rt.println(Refusal::Memory);
    ExitCode::FAILURE
}
