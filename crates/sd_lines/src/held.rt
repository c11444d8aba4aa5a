// What a talk has of the session that it opened last, and what the events of that session do.
ghost use Rattle.std.specs.Prelude.{◌≡◌, None, Some, IfNone, IfSome};
ghost use Rattle.std.specs.Option.{option_or};
ghost use Rattle.sd_session.specs.Session.{IsRunning, NotRunning};
ghost use Rattle.sd_machine.specs.declared.reply.Reply.TheVariants.{Cancelled};
ghost use Rattle.sd_lines.specs.Held.{AnswersEvent, AnswersOpen, AnswersOwn, Appends, Cancels, Ends, GivesUp, RefusesOver, Shuts, ShowsEvent, ShowsReply, last_of};

use crate::hub::Hub;
use crate::opening::{Begun, open};
use crate::over::{EndedSession, leave};
use sd_base::{JobId, MediaName, PoolName, Rec, Refusal, Ticket};
use sd_driver::Driver;
use sd_line::{Naming, ToldToken};
use sd_machine::{Event, Reply};
use sd_session::Status;
use sd_spool::SpoolStore;
use sd_stations::{Live, Patience, Shut};
use std::marker::Model;
use std::sync::Wait;
use std::time::Clock;

/// The session that a talk opened last, while it goes on; or what is known of it then. In a contract it is a `HeldIs`.
#[derive(Drop)]
pub(crate) struct Held<'h, D: Driver, N: Naming, R: Wait + Drop, S: SpoolStore, P> {
    hub: &'h Hub<D, N, R, S>,
    // How long a record and a close wait for a volume that their drive needs.
    patience: P,
    live: Option<Live<'h, D, N, R, S>>,
    over: Option<EndedSession<N, S>>,
}

impl<'h, D: Driver, N: Naming, R: Wait + Drop, S: SpoolStore, P> Model for Held<'h, D, N, R, S, P> {
    ghost use Rattle.sd_lines.specs.Held.{HeldIs, IsHeld};

    ghost Value = { HeldIs };

    ghost view = { λ h. record { live = h.live; over = h.over } };

    ghost invariant = { λ h. IsHeld (record { live = h.live; over = h.over }) };
}

impl<
    'h,
    D: Driver,
    N: Naming,
    R: Wait + Clock + Drop,
    S: SpoolStore + Drop,
    P: Patience + Drop,
> Held<'h, D, N, R, S, P> {
    /// A talk that opened no session yet.
    pub(crate) fn nothing(hub: &'h Hub<D, N, R, S>, patience: P) -> Self
        ensures { result ≡ record { live = None; over = None } }
    {
        Held {
            hub,
            patience,
            live: None,
            over: None,
        }
    }

    pub(crate) fn hub(&self) -> &'h Hub<D, N, R, S> {
        self.hub
    }

    /// What the talk reaches the notes of volumes by.
    pub(crate) fn notes(&self) -> &P {
        &self.patience
    }

    /// What an event comes to. What shows that a session is closed is put into `told`.
    pub(crate) fn answer(&mut self, event: Event, told: &mut Option<ToldToken<D, N>>) -> Reply
        ensures answers { AnswersEvent event result (last_of self.old) (last_of self.new) }
        ensures shows { ShowsEvent event result (last_of self.new) told.old told.new }
    {
        match event {
            Event::Open {
                job,
                pool,
                media,
                moment,
            } => self.open(job, pool, &media, moment),
            Event::Append { ticket, rec } => self.append(ticket, &rec),
            Event::End { ticket, moment } => self.end(ticket, moment),
            Event::Close { ticket } => self.close(ticket, told),
            Event::Cancel { ticket } => self.cancel(ticket),
            _ => Reply::Refused(Refusal::BadCommand),
        }
    }

    // Opens a session, unless the talk's goes on.
    fn open(&mut self, job: JobId, pool: PoolName, media: &MediaName, moment: i64) -> Reply
        ensures { AnswersOpen job pool media.now moment result (last_of self.old)
            (last_of self.new) }
    {
        match &self.live {
            Some(_) => return Reply::Refused(Refusal::BadCommand),
            None => {}
        }
        match open(self.hub, job, pool, media, moment) {
            Ok(
                Begun {
                    ticket,
                    drive,
                    live,
                },
            ) => {
                self.live = Some(live);
                Reply::Opened { ticket, drive }
            }
            Err(why) => Reply::Refused(why),
        }
    }

    // Adds a record to the talk's session.
    fn append(&mut self, ticket: Ticket, rec: &Rec) -> Reply
        ensures { AnswersOwn (Appends rec.now) ticket result (last_of self.old) (last_of self.new) }
    {
        let hub = self.hub;
        let Some(live) = &mut self.live else {
            return self.refuse(ticket);
        };
        if !live.is_of(ticket) {
            return Reply::Refused(Refusal::SessionNotOpen);
        }
        let (drive, lane) = (live.part().no(), live.part().session().lane());
        let reply = match live.add(&hub.rt, rec, &self.patience) {
            Ok(count) => {
                hub.took(drive, lane, count, rec.bytes.len());
                Reply::Taken { count }
            }
            Err(why) => Reply::Refused(why),
        };
        leave_if_over(hub, &mut self.live, &mut self.over);
        reply
    }

    // Adds the end label to the talk's session.
    fn end(&mut self, ticket: Ticket, moment: i64) -> Reply
        ensures { AnswersOwn (Ends moment) ticket result (last_of self.old) (last_of self.new) }
    {
        let hub = self.hub;
        let Some(live) = &mut self.live else {
            return self.refuse(ticket);
        };
        if !live.is_of(ticket) {
            return Reply::Refused(Refusal::SessionNotOpen);
        }
        let records = live.part().session().records();
        match live.end(moment) {
            Ok(()) => {
                hub.tell_ended(ticket, records);
                Reply::Ended
            }
            Err(why) => Reply::Refused(why),
        }
    }

    // Closes the talk's session.
    fn close(&mut self, ticket: Ticket, told: &mut Option<ToldToken<D, N>>) -> Reply
        ensures answers { AnswersOwn Shuts ticket result (last_of self.old) (last_of self.new) }
        ensures shows { ShowsReply result (last_of self.new) told.old told.new }
    {
        let hub = self.hub;
        let Some(live) = &mut self.live else {
            return self.refuse(ticket);
        };
        if !live.is_of(ticket) {
            return Reply::Refused(Refusal::SessionNotOpen);
        }
        let reply = close_live(hub, live, &self.patience, told);
        leave_if_over(hub, &mut self.live, &mut self.over);
        reply
    }

    /// Gives up the talk's session.
    pub(crate) fn cancel(&mut self, ticket: Ticket) -> Reply
        ensures { AnswersOwn Cancels ticket result (last_of self.old) (last_of self.new) }
    {
        let hub = self.hub;
        let Some(live) = &mut self.live else {
            return self.refuse(ticket);
        };
        if !live.is_of(ticket) {
            return Reply::Refused(Refusal::SessionNotOpen);
        }
        let reply = match live.cancel() {
            Ok(()) => Reply::Cancelled,
            Err(why) => Reply::Refused(why),
        };
        leave_if_over(hub, &mut self.live, &mut self.over);
        reply
    }

    /// Gives up the talk's session, if it goes on. What it was at its end, if one was opened.
    #[tactic(auto, using(crate::proofs::HeldLemmas::gives_up_none))]
    pub(crate) fn give_up(self) -> Option<EndedSession<N, S>>
        ensures { GivesUp (last_of self.entry) result }
    {
        let Held {
            hub,
            patience: _,
            live,
            over,
        } = self;
        let Some(live) = live else {
            return over;
        };
        Some(end_now(hub, live))
    }

    /// Whether the talk opened this session last.
    pub(crate) fn is_last(&self, ticket: Ticket) -> bool {
        match (&self.live, &self.over) {
            (Some(live), _) => live.is_of(ticket),
            (None, Some(over)) => over.is_of(ticket),
            (None, None) => false,
        }
    }

    // Why an event of this session is refused, while none of the talk goes on.
    fn refuse(&self, ticket: Ticket) -> Reply
        requires { self.now.live ≡ None }
        ensures { RefusesOver ticket result self.now.over }
    {
        match &self.over {
            Some(over) if over.is_of(ticket) => Reply::Refused(over.why()),
            _ => Reply::Refused(Refusal::SessionNotOpen),
        }
    }
}

// The talk's session leaves its lane, if it goes on no more.
fn leave_if_over<'h, D: Driver, N: Naming, R: Wait + Clock + Drop, S: SpoolStore + Drop>(
    hub: &Hub<D, N, R, S>,
    live: &mut Option<Live<'h, D, N, R, S>>,
    over: &mut Option<EndedSession<N, S>>,
)
    requires { IfSome over.old (λ p. IsRunning p.session.status → ⊥) }
    ensures last { option_or live.new over.new ≡ option_or live.old over.old }
    ensures live { IfSome live.new (λ p. IsRunning p.session.status) }
    ensures over { IfSome over.new (λ p. IsRunning p.session.status → ⊥) }
{
    let Some(why) = why_over(live) else {
        return;
    };
    if let Some(gone) = live.take() {
        *over = Some(leave(hub, gone, why));
    }
}

// Gives up a session that goes on, which leaves its lane.
fn end_now<D: Driver, N: Naming, R: Wait + Clock + Drop, S: SpoolStore + Drop>(
    hub: &Hub<D, N, R, S>,
    mut live: Live<'_, D, N, R, S>,
) -> EndedSession<N, S>
    requires { IsRunning live.session.status }
    ensures { Cancels Cancelled live.entry result }
{
    // That is refused only if it doesn't go on.
    let _ = live.cancel();
    leave(hub, live, Refusal::SessionCancelled)
}

// Why a session goes on no more, if there is one and it doesn't.
fn why_over<D: Driver, N: Naming, R: Wait + Clock + Drop, S: SpoolStore + Drop>(
    live: &Option<Live<'_, D, N, R, S>>,
) -> Option<Refusal>
    ensures over { IfSome result (λ why. IfSome live.now (λ p. NotRunning p.session why)) }
    ensures runs { IfNone result (IfSome live.now (λ p. IsRunning p.session.status)) }
{
    match live {
        Some(live) => live.part().session().running().err(),
        None => None,
    }
}

// Closes a session. If it may be closed, room for its receipt is made before.
#[tactic(auto, using(crate::proofs::HeldLemmas::shuts_by, crate::proofs::HeldLemmas::shuts_not, crate::proofs::HeldLemmas::shows_by))]
fn close_live<D: Driver, N: Naming, R: Wait + Clock + Drop, S: SpoolStore + Drop, P: Patience>(
    hub: &Hub<D, N, R, S>,
    live: &mut Live<'_, D, N, R, S>,
    patience: &P,
    told: &mut Option<ToldToken<D, N>>,
) -> Reply
    ensures shuts { Shuts result live.old live.new }
    ensures shows { ShowsReply result (Some live.new) told.old told.new }
{
    let drive = live.part().no();
    let is_ended = live.part().session().status() == Status::Ended;
    if is_ended && hub.promise_receipt(drive).is_err() {
        return Reply::Refused(Refusal::Memory);
    }
    match live.close(&hub.rt, patience) {
        Ok(
            Shut {
                receipt,
                spans,
                token,
            },
        ) => {
            let key = receipt.key();
            hub.keep(drive, receipt);
            *told = Some(token);
            Reply::Closed { key, spans }
        }
        Err(why) => {
            if is_ended {
                hub.keep_none(drive);
            }
            Reply::Refused(why)
        }
    }
}
