// Timing a job, and telling what it did.
use std::time::Instant;
use std::{io, num};

/// How long the jobs run.
#[derive(Clone, Copy)]
pub enum Length {
    /// Once, to see that they work.
    Once,
    /// Long enough to be timed.
    Timed,
}

impl Length {
    /// How often to go over a buffer of so many bytes: some 400 MB in all if it is timed.
    pub fn rounds(self, bytes: usize) -> usize {
        match self {
            Length::Once => 1,
            Length::Timed => 400_000_000 / bytes.max(1) + 1,
        }
    }
}

/// Prints the rate of a job that went over so many bytes so many times since `start`, if it was timed, and
/// gives it in GB/s; 0 if it wasn't, or the clock failed.
pub fn print_rate(
    rt: HostRuntime,
    length: Length,
    name: &str,
    start: io::Result<Instant>,
    bytes: usize,
    rounds: usize,
) -> f64 {
    let (Length::Timed, Ok(start)) = (length, start) else {
        return 0.0;
    };
    let Ok(elapsed) = start.elapsed(&rt) else {
        return 0.0;
    };
    let whole = num::nearest_u64_to_f64(bytes as u64) * num::nearest_u64_to_f64(rounds as u64);
    let rate = whole / elapsed.as_secs_f64() / 1e9;
    let _ = println!(rt; "{name:<36} {rate:>7.2} GB/s");
    rate
}

/// Copies the bytes so many times, which no job over them can beat, and prints the rate. Whether there was memory.
pub fn print_copies(
    rt: HostRuntime,
    length: Length,
    name: &str,
    bytes: &[u8],
    rounds: usize,
) -> bool {
    let start = Instant::now(&rt);
    let mut all = true;
    for _ in 0..rounds {
        all &= bytes.to_vec(rt.alloc()).is_ok();
    }
    print_rate(rt, length, name, start, bytes.len(), rounds);
    all
}

/// Prints whether a job did all that it was to do with these things. Whether that could be printed.
pub fn tell(rt: HostRuntime, things: &str, label: &str, done: &str, all: bool) -> bool {
    println!(rt; "{things} {label} {done}: {all}").is_ok()
}

/// Prints the checksums of something. Whether that could be printed.
pub fn tell_sum(rt: HostRuntime, of: &str, sum: u32) -> bool {
    println!(rt; "checksums of {of}: {sum:08x}").is_ok()
}
