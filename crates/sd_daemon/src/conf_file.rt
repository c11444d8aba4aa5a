// The daemon, from the file of its configuration on.
ghost use Rattle.std.specs.Prelude.{◌≡◌, IfErr, IfOk};
ghost use Rattle.sd_conf.specs.Conf.{IsWithinLimits};
ghost use Rattle.sd_text.specs.Says.{Says, said_view};
ghost use Rattle.sd_text.specs.Lines.{line};
ghost use Rattle.sd_daemon.specs.Serve.{IsConfOf, IsFaultOf, IsOutcomeOf, PrintsServe, folder_text, outcome_lines, settle_lines, status_of, unserved_line};

use crate::daemon::{ServeFault, serve};
use crate::run::Bounds;
use crate::serve_line::ServeLine;
use sd_base::DriveNo;
use sd_conf::{CheckFault, Conf, ConfFault, Place, Text, conf_in, print_conf_fault, print_place};
use sd_serve::Log;
use sd_text::Printer;
use std::fs;
use std::io::{ErrorKind, Write};
use std::sync::Wait;
use std::thread::Threads;
use std::time::Clock;

/// The status of a daemon that held its talks, and whose drives are settled.
const DONE: u8 = 0;

/// The status of a daemon that could not serve, or settle a drive.
const FAILED: u8 = 1;

/// What came of the file of a configuration.
#[derive(Drop)]
pub enum Outcome {
    /// It was served, and these drives could not be settled after that.
    Served(Vec<DriveNo>),
    /// It can't be read.
    NoFile,
    /// What it holds is no configuration, for this and, where that is known, at this place.
    NoConf {
        fault: ConfFault,
        place: Option<Place>,
    },
    /// Its configuration can't be served.
    NotServed(ServeFault),
}

/// Serves clients as the configuration in a file says, and prints a line for each drive that can't be settled after
/// that; or prints the line of what is wrong, and on `errors` what more is known of it. Answers the status: 0 if clients were served and all drives settled, and
/// else 1.
pub fn serve_file<
    R: Threads + Wait + Clock + Send + Sync + Copy + Drop,
    W: Write,
    E: Write,
    L: Write + Send + Drop,
>(
    rt: &HostRuntime,
    wait: R,
    path: &str,
    bounds: Bounds<'_>,
    log: &Log<L>,
    out: &mut Printer<W>,
    errors: &mut Printer<E>,
) -> u8
    ensures { PrintsServe (said_view W.contents out.old) (said_view W.contents out.new) result }
{
    let outcome = outcome_of(rt, wait, path, bounds, log);
    print_outcome(&outcome, out);
    out.flush();
    print_cause(&outcome, errors);
    status_of(&outcome, out.failed())
}

// The status of a daemon with this outcome.
fn status_of(outcome: &Outcome, failed: bool) -> u8
    ensures { result ≡ status_of outcome.now failed }
{
    match outcome {
        Outcome::Served(unsettled) if unsettled.is_empty() && !failed => DONE,
        _ => FAILED,
    }
}

// What comes of the file.
fn outcome_of<R: Threads + Wait + Clock + Send + Sync + Copy + Drop, L: Write + Send + Drop>(
    rt: &HostRuntime,
    wait: R,
    path: &str,
    bounds: Bounds<'_>,
    log: &Log<L>,
) -> Outcome
    ensures { IsOutcomeOf result }
{
    let conf = match read_file(rt, path) {
        Ok(conf) => conf,
        Err(CheckFault::Input) => return Outcome::NoFile,
        Err(CheckFault::Conf { fault, place }) => return Outcome::NoConf { fault, place },
    };
    match serve(rt, wait, &conf, bounds, log) {
        Ok(unsettled) => Outcome::Served(unsettled),
        Err(fault) => Outcome::NotServed(fault),
    }
}

// The configuration in a file.
#[tactic(auto, using(crate::proofs::ServeLemmas::conf_of, crate::proofs::ServeLemmas::fault_of, crate::proofs::ServeLemmas::no_memory, crate::proofs::ServeLemmas::no_input))]
fn read_file(rt: &HostRuntime, path: &str) -> Result<Conf, CheckFault>
    ensures within { IfOk result IsWithinLimits }
    ensures conf { IfOk result IsConfOf }
    ensures fault { IfErr result IsFaultOf }
{
    match fs::read(rt, path) {
        Ok(bytes) => conf_in(rt.alloc(), &bytes),
        Err(fault) if fault.kind() == ErrorKind::OutOfMemory => {
            Err(CheckFault::Conf {
                fault: ConfFault::Memory,
                place: None,
            })
        }
        Err(_) => Err(CheckFault::Input),
    }
}

// Prints the lines of what is wrong, if anything is.
fn print_outcome<W: Write>(outcome: &Outcome, out: &mut Printer<W>)
    ensures { Says (said_view W.contents out.old) (said_view W.contents out.new)
        (outcome_lines outcome.now) }
{
    match outcome {
        Outcome::Served(unsettled) => print_unsettled(unsettled, out),
        Outcome::NoFile => out.line(ServeLine::NoFile),
        Outcome::NoConf { fault, place: _ } => print_conf_fault(fault, out),
        Outcome::NotServed(fault) => print_unserved(fault, out),
    }
}

// Prints what more is known of what is wrong.
fn print_cause<E: Write>(outcome: &Outcome, errors: &mut Printer<E>) {
    match outcome {
        Outcome::NoConf { fault: _, place } => print_place(*place, errors),
        Outcome::NotServed(ServeFault::Port(fault)) => errors.line(*fault),
        _ => {}
    }
    errors.flush();
}

// Prints a line for each drive that can't be settled. Calls itself for those before the last one.
fn print_unsettled<W: Write>(unsettled: &[DriveNo], out: &mut Printer<W>)
    ensures { Says (said_view W.contents out.old) (said_view W.contents out.new)
        (settle_lines unsettled.now) }
{
    if let Some((last, front)) = unsettled.split_last() {
        print_unsettled(front, out);
        out.line(ServeLine::Unsettled(last.get()));
    }
}

// Prints the line of why nothing is served.
fn print_unserved<W: Write>(fault: &ServeFault, out: &mut Printer<W>)
    ensures { Says (said_view W.contents out.old) (said_view W.contents out.new)
        (unserved_line fault.now) }
{
    match fault {
        ServeFault::Time => out.line(ServeLine::NoTime),
        ServeFault::Port(_) => out.line(ServeLine::NoPort),
        ServeFault::Folder(folder) => print_locked(folder, out),
        ServeFault::Memory => out.line(ServeLine::NoMemory),
    }
}

// Prints the line of a folder that another process has locked, piece by piece: it has any length.
fn print_locked<W: Write>(folder: &Text, out: &mut Printer<W>)
    ensures { Says (said_view W.contents out.old) (said_view W.contents out.new)
        (line (folder_text folder.now)) }
{
    out.bytes(b"fault folder ");
    out.bytes(folder.as_str().as_bytes());
    out.bytes(b" locked");
    out.bytes(b"\n");
}
