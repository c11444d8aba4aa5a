//! A program for tests: calls that take memory, each made again if it is refused.
//!
//! If a call is refused because it is out of memory, it is made once more with the same arguments. So
//! whichever one allocation fails, the program ends with the output that it has with ample memory: a
//! refusal left all as it was. `tests/memory/run` makes each allocation fail in turn and compares the
//! outputs.
//!
//! The packets, the codecs of records and blocks, a device and a volume are called by themselves, and of drives,
//! journals and spans the calls that no world makes. What else is behind them, from the desk to the drive, is called by
//! the scripts that `tests/memory/run` gives `sdtool`. Last a job is run in a thread, its line is settled whatever it
//! came to, and its session is brought to its end and read back.
#![tactic(auto)]

mod devices;
mod drives;
mod jobs;
mod names;
mod packets;
mod records;
mod session;
mod settling;
mod spans;
mod volumes;

use anyhow::Result;
use names::Names;
use sd_jobs::Stop;
use settling::Told;
use std::alloc::AllocError;
use std::io;

fn main(rt: HostRuntime) -> Result<()> {
    let names = Names::new()?;
    match run(rt, &names) {
        Ok(()) => {}
        // In the words by which `tests/memory/run` knows it.
        Err(error) if error.kind() == io::ErrorKind::OutOfMemory => return Err(AllocError.into()),
        Err(error) => return Err(error.into()),
    }
    // Here alone, since this handle may wait in `main` and nowhere else.
    match jobs::play(rt, rt.alloc(), &names) {
        Ok(told) => Ok(print_told(rt, &told)?),
        Err(wrong) => Err(io::Error::other(wrong.text()).into()),
    }
}

// What the job came to differs from run to run, and goes to standard error, where `tests/memory/run` counts it.
fn print_told(rt: HostRuntime, told: &Told) -> io::Result<()> {
    let stop = word_of(told.stop);
    eprintln!(rt; "a job: {stop}")?;
    if told.again {
        eprintln!(rt; "a job: settled again")?;
    }
    let records = told.read.records;
    let bytes = told.read.bytes;
    println!(rt; "records of a job: {records}, of {bytes} bytes in all")
}

fn word_of(stop: Stop) -> &'static str {
    match stop {
        Stop::Done => "done",
        Stop::OutOfTurns => "out of turns",
        Stop::Refused(_) => "refused",
        Stop::NoThread => "no thread",
    }
}

fn run(rt: HostRuntime, names: &Names) -> io::Result<()> {
    packets::run(rt)?;
    session::run(rt, names)?;
    devices::run(rt, &names.volume)?;
    volumes::run(rt, &names.volume_label())?;
    drives::run(rt, names)?;
    spans::run(rt)
}
