// What an operator does is answered under a line's lock as in a world.
ghost use Rattle.std.specs.Prelude.{◌≡◌, ◌≤◌, [], None};
ghost use Rattle.sd_base.specs.Limits.{most_lanes};
ghost use Rattle.sd_drive.specs.Limits.{AreLimits};
ghost use Rattle.sd_line.specs.Named.{AreNamedFor};

use crate::making::{TIME, make_drive, make_used, make_world};
use sd_base::{DriveNo, JobId, Name, Refusal, SessionKey};
use sd_core::World;
use sd_drive::Drive;
use sd_lane::PlainLanes;
use sd_line::{CloseBook, Line, Naming};
use sd_machine::{Event, Reply};
use sd_memdrive::MemDrive;
use sd_ruled::RuledLanes;
use sd_spool::MemSpool;
use std::alloc::Global;
use std::marker::Brand;
use std::sync::Wait;
use std::test::*;

const KEY: SessionKey = SessionKey { time: TIME, id: 1 };

// An event, with the names of its volume, pool and media.
#[derive(Clone, Copy)]
enum Asked {
    Label(&'static str, &'static str, &'static str),
    Adopt(&'static str),
    Mount(&'static str),
    Unmount,
    Seek,
    Sync,
}

// A reply.
#[derive(Clone, Copy, Debug, PartialEq)]
enum Said {
    Labelled,
    Adopted(u64, u32),
    Mounted(u8),
    Unmounted,
    Requested,
    NoNeed,
    Synced,
    Refused(Refusal),
    Otherwise,
}

static ROWS: [(Asked, Said); 21] = [
    (Asked::Seek, Said::Requested),
    (Asked::Label("Vol-0001", "Default", "File"), Said::Labelled),
    (
        Asked::Label("Vol-0001", "Default", "File"),
        Said::Refused(Refusal::AlreadyLabelled),
    ),
    (
        Asked::Label("Vol-0002", "Default", "Tape"),
        Said::Refused(Refusal::OtherPoolOrMedia),
    ),
    (Asked::Label("Vol-0002", "Other", "File"), Said::Labelled),
    (
        Asked::Label("Vol-0007", "Default", "File"),
        Said::Refused(Refusal::AlreadyLabelled),
    ),
    (
        Asked::Adopt("Vol-0001"),
        Said::Refused(Refusal::AlreadyLabelled),
    ),
    (
        Asked::Adopt("Vol-0009"),
        Said::Refused(Refusal::VolumeNotOnShelf),
    ),
    (Asked::Adopt("Vol-0007"), Said::Adopted(82, 1)),
    (
        Asked::Mount("Vol-0009"),
        Said::Refused(Refusal::VolumeNotOnShelf),
    ),
    (
        Asked::Mount("Vol-0002"),
        Said::Refused(Refusal::OtherPoolOrMedia),
    ),
    (Asked::Seek, Said::Mounted(b'1')),
    (Asked::Seek, Said::NoNeed),
    (Asked::Mount("Vol-0001"), Said::Refused(Refusal::InUse)),
    (
        Asked::Label("Vol-0003", "Default", "File"),
        Said::Refused(Refusal::InUse),
    ),
    (Asked::Adopt("Vol-0009"), Said::Refused(Refusal::InUse)),
    (Asked::Sync, Said::Synced),
    (Asked::Mount("Vol-0007"), Said::Mounted(b'7')),
    (Asked::Unmount, Said::Unmounted),
    (Asked::Unmount, Said::Unmounted),
    (Asked::Seek, Said::Mounted(b'1')),
];

// The event, at this drive.
fn event_of(drive: DriveNo, asked: Asked) -> Option<Event> {
    match asked {
        Asked::Label(volume, pool, media) => Some(Event::Label {
            drive,
            name: Name::parse(volume).ok()?,
            pool: Name::parse(pool).ok()?,
            media: Name::parse(media).ok()?,
            moment: 0,
        }),
        Asked::Adopt(volume) => Some(Event::Adopt {
            drive,
            name: Name::parse(volume).ok()?,
        }),
        Asked::Mount(volume) => Some(Event::Mount {
            drive,
            name: Name::parse(volume).ok()?,
        }),
        Asked::Unmount => Some(Event::Unmount { drive }),
        Asked::Seek => Some(Event::Seek { drive }),
        Asked::Sync => Some(Event::Sync { drive }),
    }
}

// What a reply says; of a volume that was mounted the last letter of its name.
fn shown(reply: &Reply) -> Said {
    match reply {
        Reply::Labelled => Said::Labelled,
        Reply::Adopted { end, next } => Said::Adopted(*end, *next),
        Reply::Mounted { name } => {
            Said::Mounted(name.as_str().as_bytes().last().copied().unwrap_or(0))
        }
        Reply::Unmounted => Said::Unmounted,
        Reply::Requested => Said::Requested,
        Reply::NoNeed => Said::NoNeed,
        Reply::Synced => Said::Synced,
        Reply::Refused(refusal) => Said::Refused(*refusal),
        _ => Said::Otherwise,
    }
}

// The first row that the line or the world answers otherwise.
fn first_other<N: Naming, R: Wait + Drop>(
    line: &Line<MemDrive, N, R>,
    world: &mut World<MemDrive, PlainLanes, MemSpool>,
) -> Option<usize> {
    let drive = line.no();
    for (at, (asked, wanted)) in ROWS.iter().enumerate() {
        let (Some(here), Some(there)) = (event_of(drive, *asked), event_of(drive, *asked)) else {
            return Some(at);
        };
        if shown(&line.operate(here)) != *wanted || shown(&world.step(there)) != *wanted {
            return Some(at);
        }
    }
    None
}

// What a line answers to events of a drive that are none of the operator's, and to one of another
// drive.
fn others<N: Naming, R: Wait + Drop>(line: &Line<MemDrive, N, R>) -> Option<[Said; 4]> {
    let drive = line.no();
    let other = DriveNo::new(2)?;
    Some([
        shown(&line.operate(Event::Take { drive })),
        shown(&line.operate(Event::Place { drive })),
        shown(&line.operate(Event::Retire { drive })),
        shown(&line.operate(Event::Sync { drive: other })),
    ])
}

// What came of a line and of a world.
#[derive(Clone, Copy, Debug, PartialEq)]
struct Came {
    first_other: Option<usize>,
    others: [Said; 4],
}

fn both<N: Naming, R: Wait + Drop>(
    rt: R,
    alloc: Global,
    no: DriveNo,
    drive: Drive<MemDrive>,
    lanes: RuledLanes<R>,
    book: CloseBook<MemDrive>,
) -> Option<Came>
    requires named { AreNamedFor N.table no (record { queue = lanes.table; book = book.id })
        × (drive.limits.time ≡ N.time no) }
    requires limits { AreLimits drive.limits × (lanes.lanes ≤ most_lanes) }
    requires unused { (drive.journal ≡ []) × (drive.hand ≡ None) }
    requires empty { (lanes.taken ≡ []) × (lanes.held ≡ []) }
{
    let Ok((line, _)) = Line::<MemDrive, N, R>::new(rt, alloc, no, drive, lanes, book) else {
        return None;
    };
    let mut world = make_world(alloc)?;
    let open = Event::Open {
        job: JobId::new(7)?,
        pool: Name::parse("Default").ok()?,
        media: Name::parse("File").ok()?,
        moment: 0,
    };
    let Reply::Opened { .. } = world.step(open) else {
        return None;
    };
    Some(Came {
        first_other: first_other(&line, &mut world),
        others: others(&line)?,
    })
}

fn play<R: Wait + Drop + Copy>(rt: R, alloc: Global) -> Option<Came> {
    let pool = Name::parse("Default").ok()?;
    let drive = make_drive(alloc, make_used(alloc)?, KEY, &pool)?;
    let lanes = RuledLanes::new(rt, alloc, 1, 8).ok()?;
    let book = CloseBook::new(alloc).ok()?;
    let no = DriveNo::new(1)?;
    both::<Brand, R>(rt, alloc, no, drive, lanes, book)
}

#[test]
fn operate_beside_world(rt: HostRuntime) {
    let wanted = Came {
        first_other: None,
        others: [Said::Refused(Refusal::BadCommand); 4],
    };
    assert_eq!(rt; play(rt, rt.alloc()), Some(wanted));
}
