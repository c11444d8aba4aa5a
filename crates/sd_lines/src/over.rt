// The session of a talk that goes on no more.
ghost use Rattle.std.specs.Prelude.{◌≡◌, ◌↔◌, IsTrue};
ghost use Rattle.sd_lines.specs.Held.{IsOnItsWay};
ghost use Rattle.sd_session.specs.Session.{NotRunning};

use crate::hub::Hub;
use sd_base::{Refusal, Ticket};
use sd_board::Sent;
use sd_driver::Driver;
use sd_line::{Naming, SessionPart};
use sd_session::{Session, Status};
use sd_spool::SpoolStore;
use sd_stations::Live;
use std::marker::Model;
use std::snapshot::Snapshot;
use std::sync::Wait;
use std::time::Clock;

/// A session that has left its lane: its number, and why an event of it is refused. In a contract it is what its part was at
/// its end, a `PartIs`; nothing of that is held.
#[derive(Drop)]
pub struct EndedSession<N: Naming, S: SpoolStore> {
    id: u32,
    why: Refusal,
    part: Snapshot<SessionPart<N, S>>,
}

impl<N: Naming, S: SpoolStore> Model for EndedSession<N, S> {
    ghost use Rattle.std.specs.Prelude.{◌≡◌};
    ghost use Rattle.sd_line.specs.Parts.{PartIs};
    ghost use Rattle.sd_session.specs.Session.{NotRunning};

    ghost Value = { PartIs };

    ghost view = { λ o. o.part.value };

    ghost invariant = { λ o. record {
      id : o.id ≡ o.part.value.session.key.id;
      why : NotRunning o.part.value.session o.why;
    } };
}

impl<N: Naming, S: SpoolStore + Drop> EndedSession<N, S> {
    /// Whether this is the number of the session.
    pub(crate) fn is_of(&self, ticket: Ticket) -> bool
        ensures { IsTrue result ↔ (self.now.session.key.id ≡ ticket) }
    {
        self.id == ticket.get()
    }

    /// Why an event of the session is refused.
    pub(crate) fn why(&self) -> Refusal
        ensures { NotRunning self.now.session result }
    {
        self.why
    }
}

/// A session that goes on no more leaves its lane. Its end lies at the desk from then on, where the lane is free once all
/// that was sent is placed, or at once if nothing was; its drive is to come to rest for that, and may notice that nobody needs
/// a volume any more.
pub(crate) fn leave<D: Driver, N: Naming, R: Wait + Clock + Drop, S: SpoolStore + Drop>(
    hub: &Hub<D, N, R, S>,
    live: Live<'_, D, N, R, S>,
    why: Refusal,
) -> EndedSession<N, S>
    requires { NotRunning live.session why }
    ensures { result ≡ live.entry }
{
    let part = Snapshot::of(live.part());
    let session = live.part().session();
    let (status, records) = (session.status(), session.records());
    let key = session.key();
    let on_its_way = on_its_way(session);
    let station = live.station();
    hub.come_back(live.leave(), on_its_way, key.id, status, records);
    if status != Status::Closed {
        station.rest(&hub.rt);
        station.wait_for_rest(&hub.rt);
    }
    EndedSession {
        id: key.id,
        why,
        part,
    }
}

// What is on its way of a session that goes on no more.
fn on_its_way<S: SpoolStore + Drop>(session: &Session<S>) -> Option<Sent>
    ensures { IsOnItsWay session.now result }
{
    if session.status() == Status::Closed || session.sent() == 0 {
        return None;
    }
    Some(Sent {
        key: session.key(),
        sent: session.sent(),
    })
}
