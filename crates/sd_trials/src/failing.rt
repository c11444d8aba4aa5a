// An example in which one call of its device or of its spool fails: each of every kind in turn, in each way.
ghost use Rattle.std.specs.Prelude.{◌∷◌, [], codes};
ghost use Rattle.sd_core.specs.Conf.{AreStores};

use crate::events::{are_records_of, deeds_of, event_of, ticket};
use crate::listed::{Closed, TIME};
use crate::rows::{Deed, Row};
use crate::worlds::{CAPACITY, WorldOver, stores, world_over};
use sd_base::{Rec, Refusal};
use sd_core::{Reply, Status};
use sd_driver::Driver;
use sd_machine::Event;
use sd_memdrive::{Call, Fail, MemDrive, When};
use sd_spool::{SpoolCall, SpoolFail, SpoolStore};
use std::alloc::Global;
use std::io;

static CALLS: [Call; 7] = [
    Call::Create,
    Call::Load,
    Call::Len,
    Call::Read,
    Call::Append,
    Call::Sync,
    Call::Cut,
];

static SPOOL_CALLS: [SpoolCall; 3] = [SpoolCall::Append, SpoolCall::Read, SpoolCall::Clear];

pub static WAYS: [When; 3] = [When::Before, When::Half, When::After];

/// No example makes so many calls of one kind.
const MOST_CALLS: u64 = 40;

/// What came of the runs of an example.
#[derive(Clone, Copy)]
pub struct Tally {
    /// How many met a fault.
    pub faults: u32,
    /// How many sessions were closed all the same and read to their records, and how many failed.
    pub read: u32,
    pub failed: u32,
    /// How many answers or records weren't as they are to be.
    pub wrong: u32,
}

/// What a run of an example came to.
#[derive(Clone, Copy)]
pub struct Came {
    pub has_fault: bool,
    pub tally: Tally,
}

/// What came of no run.
pub const NONE: Tally = Tally {
    faults: 0,
    read: 0,
    failed: 0,
    wrong: 0,
};

const READ: Tally = Tally {
    faults: 0,
    read: 1,
    failed: 0,
    wrong: 0,
};

const FAILED: Tally = Tally {
    faults: 0,
    read: 0,
    failed: 1,
    wrong: 0,
};

/// What came of one that is wrong.
pub const WRONG: Tally = Tally {
    faults: 0,
    read: 0,
    failed: 0,
    wrong: 1,
};

impl Came {
    fn and(self, more: Came) -> Came {
        Came {
            has_fault: self.has_fault || more.has_fault,
            tally: self.tally.and(more.tally),
        }
    }
}

impl Tally {
    pub fn and(self, more: Tally) -> Tally {
        Tally {
            faults: self.faults.saturating_add(more.faults),
            read: self.read.saturating_add(more.read),
            failed: self.failed.saturating_add(more.failed),
            wrong: self.wrong.saturating_add(more.wrong),
        }
    }
}

/// Plays the example with each call failing.
pub fn run(rt: HostRuntime, row: &Row) -> io::Result<()> {
    let alloc = rt.alloc();
    let mut all = NONE;
    for call in &CALLS {
        for when in &WAYS {
            all = all.and(of_device(alloc, row, *call, *when)?);
        }
    }
    for call in &SPOOL_CALLS {
        for when in &WAYS {
            all = all.and(of_spool(alloc, row, *call, *when)?);
        }
    }
    let name = row.name;
    let Tally {
        faults,
        read,
        failed,
        wrong,
    } = all;
    println!(rt;
        "{name}: {faults} runs met a fault; {read} sessions closed and read to their records, {failed} failed, {wrong} wrong"
    )
}

// The runs in which a call of the device fails, up to the one that meets no fault.
fn of_device(alloc: Global, row: &Row, call: Call, when: When) -> io::Result<Tally> {
    let mut all = NONE;
    for nth in 1..MOST_CALLS {
        let device = MemDrive::new(alloc, CAPACITY, &[Fail { call, nth, when }])?;
        let stores = stores(alloc, Vec::new(alloc))?;
        let (came, unread, _) = play(alloc, row, device, stores)?;
        all = all.and(came.tally).and(all_wrong(&unread));
        if !came.has_fault {
            return Ok(all);
        }
    }
    Ok(all)
}

// Those in which a call of the spool fails.
fn of_spool(alloc: Global, row: &Row, call: SpoolCall, when: When) -> io::Result<Tally> {
    let mut all = NONE;
    for nth in 1..MOST_CALLS {
        let device = MemDrive::new(alloc, CAPACITY, &[])?;
        let plan = vec![in alloc; SpoolFail { call, nth, when }]?;
        let (came, unread, _) = play(alloc, row, device, stores(alloc, plan)?)?;
        all = all.and(came.tally).and(all_wrong(&unread));
        if !came.has_fault {
            return Ok(all);
        }
    }
    Ok(all)
}

// A device in memory that failed once reads what it has.
fn all_wrong(unread: &[Closed]) -> Tally {
    let mut all = NONE;
    for _one in unread {
        all = all.and(WRONG);
    }
    all
}

/// Plays the example, one event after another, and then looks at each session. Gives what it came to, the closed sessions that
/// the device can't read any more, and the world.
pub fn play<D: Driver + Drop, S: SpoolStore + Drop>(
    alloc: Global,
    row: &Row,
    device: D,
    stores: Vec<Vec<S>>,
) -> io::Result<(Came, Vec<Closed>, WorldOver<D, S>)>
    requires { AreStores ((codes "File", 4) ∷ []) stores.items }
{
    let mut world = world_over(alloc, row, TIME, device, stores)?;
    let mut unread = Vec::with_capacity(alloc, row.closes.len())?;
    let mut came = Came {
        has_fault: false,
        tally: NONE,
    };
    for deed in &deeds_of(alloc, row)? {
        came = came.and(step(alloc, row, &mut world, *deed, &mut unread)?);
    }
    for of in row.closes {
        came.tally = came.tally.and(leave(&mut world, *of)?);
    }
    if came.has_fault {
        came.tally.faults = 1;
    }
    Ok((came, unread, world))
}

// Gives the world the event of a deed. A session that is closed by it is read.
fn step<D: Driver + Drop, S: SpoolStore + Drop>(
    alloc: Global,
    row: &Row,
    world: &mut WorldOver<D, S>,
    deed: Deed,
    unread: &mut Vec<Closed>,
) -> io::Result<Came> {
    let status = status_for(world, deed)?;
    let reply = world.step(event_of(alloc, deed)?);
    let has_fault = is_fault(&reply);
    let tally = if is_right(deed, status, &reply) {
        NONE
    } else {
        WRONG
    };
    if let (Deed::Close(ticket), Reply::Closed { key, spans }) = (deed, reply) {
        return read(alloc, row, world, Closed { ticket, key, spans }, unread);
    }
    Ok(Came { has_fault, tally })
}

// Reads a closed session, a second time if the first met a fault. If that meets one too, it is unread.
fn read<D: Driver + Drop, S: SpoolStore + Drop>(
    alloc: Global,
    row: &Row,
    world: &mut WorldOver<D, S>,
    closed: Closed,
    unread: &mut Vec<Closed>,
) -> io::Result<Came> {
    let (key, spans) = (closed.key, closed.spans.as_slice());
    let mut recs: Vec<Rec> = Vec::new(alloc);
    let mut end = world.read(key, spans, &mut recs);
    let has_fault = matches!(end, Err(Refusal::DeviceFault));
    if has_fault {
        recs = Vec::new(alloc);
        end = world.read(key, spans, &mut recs);
    }
    let tally = match end {
        Ok(end) if end.ended && are_records_of(row, closed.ticket, &recs) => READ,
        Err(Refusal::DeviceFault) => {
            unread.push(closed)?;
            NONE
        }
        _ => WRONG,
    };
    Ok(Came { has_fault, tally })
}

// How far the session of a record or of an end label is.
fn status_for<D: Driver + Drop, S: SpoolStore + Drop>(
    world: &WorldOver<D, S>,
    deed: Deed,
) -> io::Result<Option<Status>> {
    match deed {
        Deed::Record(of, _, _) | Deed::End(of) => Ok(world.status(ticket(of)?)),
        _ => Ok(None),
    }
}

// Whether a record or an end label is answered as its session's status asks; every other reply is right.
fn is_right(deed: Deed, status: Option<Status>, reply: &Reply) -> bool {
    match (deed, status) {
        (Deed::Record(..), Some(Status::Active)) => matches!(reply, Reply::Taken { .. }),
        (Deed::End(_), Some(Status::Active)) => matches!(reply, Reply::Ended),
        (Deed::Record(..) | Deed::End(_), Some(Status::Failed)) => {
            matches!(reply, Reply::Refused(Refusal::SessionFailed))
        }
        (Deed::Record(..) | Deed::End(_), _) => {
            matches!(reply, Reply::Refused(Refusal::SessionNotOpen))
        }
        _ => true,
    }
}

// Cancels a session at the end, and tells whether that is answered as its status asks.
fn leave<D: Driver + Drop, S: SpoolStore + Drop>(
    world: &mut WorldOver<D, S>,
    of: u32,
) -> io::Result<Tally> {
    let ticket = ticket(of)?;
    let status = world.status(ticket);
    let reply = world.step(Event::Cancel { ticket });
    Ok(match (status, &reply) {
        (Some(Status::Failed), Reply::Refused(Refusal::SessionFailed)) => FAILED,
        (Some(Status::Active | Status::Ended), Reply::Cancelled) => NONE,
        (Some(Status::Closed) | None, Reply::Refused(Refusal::SessionNotOpen)) => NONE,
        _ => WRONG,
    })
}

// Whether a reply tells of a device or a spool that failed.
fn is_fault(reply: &Reply) -> bool {
    matches!(
        reply,
        Reply::VolumeError | Reply::Refused(Refusal::DeviceFault | Refusal::SpoolFault)
    )
}
