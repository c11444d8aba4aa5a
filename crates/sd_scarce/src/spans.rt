// Placements of two sessions on two volumes: those of one in a journal, and the text of its spans.
ghost use Rattle.std.specs.Prelude.{IfSome, IsTrue};
ghost use Rattle.sd_span.specs.Spans.{EndFits};
ghost use Rattle.sd_journal.specs.Journal.{IsReady};

use crate::names::KEY;
use sd_base::{SessionKey, VolName};
use sd_journal::Journal;
use sd_span::{Placement, put_jobmedia, spans_of};
use std::alloc::Global;
use std::io;

/// A session's number, a volume, and where a block lies: its start, its length, its first and its last
/// FileIndex. A volume that comes again is a span of its own, and a block of another session ends none.
type Row = (u32, &'static str, u64, u64, u32, u32);

static ROWS: [Row; 6] = [
    (1, "A", 82, 38, 0, 0),
    (1, "B", 0, 50, 0, 0),
    (2, "B", 50, 40, 5, 5),
    (1, "B", 90, 30, 1, 3),
    (1, "B", 120, 40, 0, 0),
    (1, "A", 300, 0x1_0000_00ab, 3, 4),
];

/// Prints how many placements of the session a journal has, and the text of its spans.
pub fn run(rt: HostRuntime) -> io::Result<()> {
    let (Some(count), Some(text)) = (count_again(rt.alloc()), text_again(rt.alloc())) else {
        return Err(io::Error::other("no memory"));
    };
    println!(rt; "placements of a session: {count}")?;
    print!(rt; "{text}")
}

fn count_again(alloc: Global) -> Option<usize> {
    match count(alloc) {
        None => count(alloc),
        counted => counted,
    }
}

fn text_again(alloc: Global) -> Option<String> {
    match text_of(alloc) {
        None => text_of(alloc),
        text => text,
    }
}

fn count(alloc: Global) -> Option<usize> {
    let mut journal = Journal::new(alloc);
    for row in &ROWS {
        note(&mut journal, placed(row)?)?;
    }
    Some(journal.placements(KEY).ok()?.len())
}

fn note(journal: &mut Journal, placement: Placement) -> Option<()>
    requires { EndFits placement }
{
    if !is_ready(journal, placement.key) {
        return None;
    }
    journal.note(placement);
    Some(())
}

fn is_ready(journal: &mut Journal, key: SessionKey) -> bool
    ensures { IsTrue result → IsReady key journal.new }
{
    journal.ready(key).is_ok()
}

fn text_of(alloc: Global) -> Option<String> {
    let mut placements = Vec::new(alloc);
    for row in &ROWS {
        placements.push(placed(row)?).ok()?;
    }
    let spans = spans_of(alloc, &placements, KEY).ok()?;
    let mut text = String::new(alloc);
    put_jobmedia(&mut text, KEY, spans.as_slice()).ok()?;
    Some(text)
}

fn placed(row: &Row) -> Option<Placement>
    ensures { IfSome result EndFits }
{
    row.2.checked_add(row.3)?;
    Some(Placement {
        key: SessionKey {
            time: KEY.time,
            id: row.0,
        },
        volume: VolName::parse(row.1).ok()?,
        start: row.2,
        length: row.3,
        first: row.4,
        last: row.5,
    })
}
