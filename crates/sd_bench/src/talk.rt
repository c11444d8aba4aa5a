// A talk over memory that appends records of several sizes, beside copying the same bytes once.
ghost use Rattle.std.specs.Prelude.{◌≡◌, [], pos};

use crate::rate::{Length, print_copies, print_rate, tell};
use sd_append::{Exchanges, ReadBack, SessionPort, TalkEnd, talk};
use sd_base::{Bytes, DriveNo, Items, Refusal, SessionKey, Ticket};
use sd_bnet::{Packet, Payload, SignalNo, put_packet};
use sd_machine::{Event, Reply};
use sd_readback::{ReadEnd, Sink};
use sd_span::Span;
use std::alloc::Global;
use std::snapshot::Snapshot;
use std::time::Instant;
use std::{io, num};

/// How many bytes of records one talk appends if it is timed.
const TALK_BYTES: usize = 16_000_000;

/// What a client sends before its records, all of which are under one header.
static BEGINNING: [&[u8]; 3] = [
    b"append open session JobId=7 Pool=Default Media=File",
    b"append data 1",
    b"1 2 0",
];

/// Talks that append records of 64 KiB, of 4 KB and of 100 bytes.
pub fn run(rt: HostRuntime, length: Length) -> bool {
    appends(rt, length, "talk, records of 64 KiB", "64 KiB", 65_536)
        && appends(rt, length, "talk, records of 4 KB", "4 KB", 4_000)
        && appends(rt, length, "talk, records of 100 bytes", "100 bytes", 100)
}

fn appends(rt: HostRuntime, length: Length, name: &str, words: &str, size: usize) -> bool {
    let count = match length {
        Length::Once => 2,
        Length::Timed => TALK_BYTES / size.max(1),
    };
    let mut input = Vec::new(rt.alloc());
    put_session(rt.alloc(), &mut input, size, count)
        && print_talks(rt, length, name, words, &input, size, count)
}

// Tells whether each talk over these bytes appended so many records of that size.
fn print_talks(
    rt: HostRuntime,
    length: Length,
    name: &str,
    words: &str,
    input: &[u8],
    size: usize,
    count: usize,
) -> bool {
    let rounds = match length {
        Length::Once => 1,
        Length::Timed => 25,
    };
    let mut all = print_copies(rt, length, "copy of a talk's bytes", input, rounds);
    let start = Instant::now(&rt);
    for _ in 0..rounds {
        all = all && talks(rt.alloc(), input, size, count);
    }
    let rate = print_rate(rt, length, name, start, input.len(), rounds);
    if let Length::Timed = length {
        let records = num::nearest_u64_to_f64(count as u64) * 1e3;
        let records = rate * records / num::nearest_u64_to_f64(input.len() as u64);
        let _ = println!(rt; "{:<36} {records:>7.2} million records a second", "");
    }
    tell(rt, "records of", words, "are appended", all)
}

// Whether a talk over these bytes appends so many records of that size.
fn talks(alloc: Global, input: &[u8], size: usize, count: usize) -> bool {
    let mut port = Counting::new();
    let mut rest = input;
    let talked = talk(alloc, &mut rest, io::sink(), &mut port, u64::MAX);
    matches!(talked.end, Ok(TalkEnd::Finished))
        && port.records == count as u64
        && port.bytes == (count as u64).wrapping_mul(size as u64)
}

// Adds the packets of a client that appends so many records of that size. Whether there was memory.
fn put_session(alloc: Global, bytes: &mut Vec<u8>, size: usize, count: usize) -> bool {
    let Ok(record) = vec![in alloc; b'x'; size] else {
        return false;
    };
    let mut all = true;
    for line in BEGINNING {
        all &= put_text(alloc, bytes, line, 1);
    }
    all &= put_text(alloc, bytes, &record, count);
    all &= put_signal(bytes, -1);
    all &= put_signal(bytes, -1);
    all &= put_text(alloc, bytes, b"append end session 1", 1);
    all & put_signal(bytes, -4)
}

// Adds the packet of the text so many times.
fn put_text(alloc: Global, bytes: &mut Vec<u8>, text: &[u8], times: usize) -> bool {
    let Ok(text) = Bytes::from_slice(alloc, text) else {
        return false;
    };
    let Some(payload) = Payload::new(text) else {
        return false;
    };
    let packet = Packet::Bytes(payload);
    let mut all = true;
    for _ in 0..times {
        all &= put_packet(bytes, &packet).is_ok();
    }
    all
}

fn put_signal(bytes: &mut Vec<u8>, number: i32) -> bool {
    match SignalNo::new(number) {
        Some(signal) => put_packet(bytes, &Packet::Signal(signal)).is_ok(),
        None => false,
    }
}

// A port that counts the records that it is given, and lets them go.
#[derive(Drop)]
struct Counting {
    exchanges: Exchanges,
    records: u64,
    bytes: u64,
}

impl Counting {
    fn new() -> Self {
        Counting {
            exchanges: Exchanges::new(),
            records: 0,
            bytes: 0,
        }
    }

    fn answer(&mut self, event: &Event) -> Reply
        ensures { self.new.exchanges ≡ self.old.exchanges }
    {
        match event {
            Event::Open { .. } => match (Ticket::new(1), DriveNo::new(1)) {
                (Some(ticket), Some(drive)) => Reply::Opened { ticket, drive },
                _ => Reply::Idle,
            },
            Event::Append { rec, .. } => {
                self.records = self.records.wrapping_add(1);
                self.bytes = self.bytes.wrapping_add(rec.bytes.len() as u64);
                Reply::Taken {
                    count: self.records,
                }
            }
            Event::End { .. } => Reply::Ended,
            _ => Reply::Cancelled,
        }
    }
}

impl SessionPort for Counting {
    ghost asked = { λ p. p.exchanges };

    ghost clock = { λ p. pos 0 };

    fn step(&mut self, event: Event) -> Reply {
        let given = Snapshot::of(&event);
        let reply = self.answer(&event);
        self.exchanges = self.exchanges.stepped(given, &reply);
        reply
    }

    fn read<S: Sink>(&mut self, key: SessionKey, spans: &[Span], sink: S) -> ReadBack<S> {
        let answer: std::result::Result<ReadEnd, Refusal> = Err(Refusal::BadCommand);
        self.exchanges = self
            .exchanges
            .was_read(key, spans, sd_append::Shown::nothing(), &answer);
        ReadBack { sink, answer }
    }

    fn console(&mut self, line: &[u8]) -> std::result::Result<Items<Payload>, Refusal> {
        let answer = Err(Refusal::BadCommand);
        self.exchanges = self.exchanges.said(0, line, &answer);
        answer
    }

    fn moment(&self) -> i64 {
        0
    }
}
