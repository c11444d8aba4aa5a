// Reading a session back from a volume in memory, beside what it can't do without: a checksum of each block, and
// one copy of each byte.
ghost use Rattle.std.specs.Prelude.{◌≡◌, None, Some};

use crate::packing::{Bodies, pack, record};
use crate::rate::{Length, print_rate, tell, tell_sum};
use crate::volumes::{KEY, add, label};
use sd_base::{MOST_VOLUME, Rec};
use sd_block::FramedBody;
use sd_crc::crc32;
use sd_driver::Driver;
use sd_label::VolumeLabel;
use sd_memdrive::MemDrive;
use sd_pack::Body;
use sd_readback::{Seen, Sink, read_session};
use sd_span::Span;
use sd_volume::{Volume, label_new};
use std::alloc::{AllocError, Global};
use std::time::Instant;

/// The bytes of a record.
const RECORD: usize = 64_000;

/// Packs a session onto a volume of some 16 MB, and reads it back, again and again. A sink that lets each record
/// go measures the reader; one that keeps them all measures the memory too that it takes anew in each round.
pub fn run(rt: HostRuntime, length: Length) -> bool {
    let count = match length {
        Length::Once => 2,
        Length::Timed => 250,
    };
    let (Some(label), Some(rec)) = (label(), record(rt.alloc(), RECORD)) else {
        return false;
    };
    let Ok(mut drive) = MemDrive::new(rt.alloc(), MOST_VOLUME, &[]) else {
        return false;
    };
    let mut bodies = Vec::new(rt.alloc());
    pack(rt.alloc(), &rec, count, Bodies::Kept, &mut bodies) > 0
        && print_session(rt, length, count, &mut drive, &label, &bodies)
}

fn print_session<D: Driver>(
    rt: HostRuntime,
    length: Length,
    count: usize,
    drive: &mut D,
    label: &VolumeLabel,
    bodies: &[Body],
) -> bool
    requires { (D.meaning drive.old).loaded ≡ None }
{
    let rounds = match length {
        Length::Once => 1,
        Length::Timed => 25,
    };
    match stored(rt.alloc(), drive, label, bodies) {
        Some(span) => {
            let allowed = print_alone(rt, length, bodies, rounds);
            print_both(rt, length, count, rounds, allowed, drive, &span)
        }
        None => false,
    }
}

// Where the session is, on a volume that is made for it.
fn stored<D: Driver>(
    alloc: Global,
    drive: &mut D,
    label: &VolumeLabel,
    bodies: &[Body],
) -> Option<Span>
    requires { (D.meaning drive.old).loaded ≡ None }
{
    let mut volume = label_new(alloc, drive, label).ok()?;
    let start = volume.end();
    if !store(alloc, drive, &mut volume, bodies) {
        return None;
    }
    Some(Span {
        volume: label.name.copy(),
        vol_index: 1,
        first: 1,
        last: 1,
        start,
        end: volume.end(),
    })
}

// Whether all bodies were added as blocks.
fn store<D: Driver>(alloc: Global, drive: &mut D, volume: &mut Volume, bodies: &[Body]) -> bool
    requires { (D.meaning drive.old).loaded ≡ None }
{
    if drive.load(volume.name()).is_err() {
        return false;
    }
    let mut all = true;
    for body in bodies {
        all = all && add_copy(alloc, drive, volume, body);
    }
    drive.unload();
    all
}

// Whether a block of a copy of the body was added.
fn add_copy<D: Driver>(alloc: Global, drive: &mut D, volume: &mut Volume, body: &Body) -> bool
    requires { (D.meaning drive.old).loaded ≡ Some volume.old.name }
    ensures loaded { (D.meaning drive.new).loaded ≡ (D.meaning drive.old).loaded }
    ensures name { volume.new.name ≡ volume.old.name }
{
    match FramedBody::from_slice(alloc, body.bytes.as_slice()) {
        Ok(mut copy) => add(drive, volume, &mut copy),
        Err(_) => false,
    }
}

// The checksums of the blocks and one copy of the bodies, as often; and the rate in GB/s that both together allow.
fn print_alone(rt: HostRuntime, length: Length, bodies: &[Body], rounds: usize) -> f64 {
    let whole = RECORD.wrapping_mul(bodies.len());
    let start = Instant::now(&rt);
    let mut sum = 0;
    for _ in 0..rounds {
        sum ^= sum_of(bodies);
    }
    let sums = print_rate(rt, length, "checksums of its bodies", start, whole, rounds);
    let start = Instant::now(&rt);
    let mut all = true;
    for _ in 0..rounds {
        all &= are_copied(rt.alloc(), bodies);
    }
    let copies = print_rate(rt, length, "copy of its bodies", start, whole, rounds);
    if all && tell_sum(rt, "a session's bodies", sum) {
        1.0 / (1.0 / sums + 1.0 / copies)
    } else {
        0.0
    }
}

fn sum_of(bodies: &[Body]) -> u32 {
    let mut sum = 0;
    for body in bodies {
        sum ^= crc32(body.bytes.as_slice());
    }
    sum
}

fn are_copied(alloc: Global, bodies: &[Body]) -> bool {
    let mut all = true;
    for body in bodies {
        all &= body.bytes.as_slice().to_vec(alloc).is_ok();
    }
    all
}

// Reads the session back into each kind of sink, beside the rate that a checksum and a copy allow.
fn print_both<D: Driver>(
    rt: HostRuntime,
    length: Length,
    count: usize,
    rounds: usize,
    allowed: f64,
    drive: &mut D,
    span: &Span,
) -> bool {
    let whole = RECORD.wrapping_mul(count);
    let start = Instant::now(&rt);
    let passed = read_again::<Passed, D>(rt.alloc(), drive, span, rounds);
    let rate = print_rate(rt, length, "read a session back", start, whole, rounds);
    if let Length::Timed = length {
        let share = rate / allowed;
        let _ = println!(rt; "{:<36} {share:>7.2} of a checksum and a copy", "");
    }
    let start = Instant::now(&rt);
    let kept = read_again::<Vec<Rec>, D>(rt.alloc(), drive, span, rounds);
    let name = "read it back, and keep its records";
    print_rate(rt, length, name, start, whole, rounds);
    let all = passed == whole as u64 && kept == count as u64;
    tell(rt, "a session's", "records", "are read back", all)
}

/// A sink that is made anew for each reading, and counts what it got.
trait Target: Sink + Drop {
    fn empty(alloc: Global) -> Self;

    fn count(&self) -> u64;
}

// Reads the session so many times, each time into a sink of its own. What the last of them counted; 0 if one
// isn't read.
fn read_again<S: Target, D: Driver>(
    alloc: Global,
    drive: &mut D,
    span: &Span,
    rounds: usize,
) -> u64 {
    let spans = std::slice::from_ref(span);
    let mut all = true;
    let mut count = 0;
    for _ in 0..rounds {
        let mut sink = S::empty(alloc);
        all &= read_session(alloc, drive, KEY, spans, &mut sink).is_ok();
        count = sink.count();
    }
    if all { count } else { 0 }
}

// Keeps the records.
impl Target for Vec<Rec> {
    fn empty(alloc: Global) -> Self {
        Vec::new(alloc)
    }

    fn count(&self) -> u64 {
        self.len() as u64
    }
}

// Counts the bytes of the records that it is handed, and lets the records go.
#[derive(Drop)]
struct Passed {
    bytes: u64,
    handed: Option<Seen<Rec>>,
}

impl Target for Passed {
    fn empty(_alloc: Global) -> Self {
        Passed {
            bytes: 0,
            handed: None,
        }
    }

    fn count(&self) -> u64 {
        self.bytes
    }
}

impl Sink for Passed {
    ghost use Rattle.sd_base.specs.Seen.{seen_of};

    ghost got = { λ s. seen_of s.handed };

    fn put(&mut self, rec: Rec) -> Result<(), AllocError> {
        self.handed = Some(Seen::with(&self.handed, &rec));
        self.bytes = self.bytes.wrapping_add(rec.bytes.len() as u64);
        Ok(())
    }
}
