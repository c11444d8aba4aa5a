// The numbers of sessions, and a line for each that was given.
ghost use Rattle.std.specs.Prelude.{◌≡◌, ◌-◌, ◌+◌, ◌<◌, map, take, drop, slice_get, [], IfOk, IfSome, IfNone, OnErr, OnOk};
ghost use Rattle.sd_base.specs.Limits.{most_number};
ghost use Rattle.sd_board.specs.Lines.{GivesNumber, KeepsLines, count_of, next_number, posted_in, promised_more, promised_less, session_line};

use crate::place::ticket_place;
use crate::posted::Posted;
use sd_base::{DriveNo, Items, LaneNo, Ticket};
use sd_machine::SessionLine;
use sd_session::Status;
use std::alloc::{AllocError, Global};
use std::marker::Model;

/// What came of giving a number.
#[derive(Clone, Copy, Debug, PartialEq, Eq)]
pub enum Numbered {
    /// The session has it.
    Given,
    /// Another drive takes the session now, or none does: its lane is to be chosen again.
    Elsewhere,
    /// Another session got that number meanwhile; this is the next one now.
    Next(Ticket),
    /// No number is left.
    NoneLeft,
    /// No room was promised to the session's line, and there is no memory for it.
    NoRoom,
}

/// The lines of the sessions 1, 2 and on, and for how many more there is room. In a contract they are a `LinesIs`.
///
/// Its type keeps what `KeepsLines` says: numbers were given one after the other, without a gap.
#[derive(Drop)]
pub(crate) struct Lines {
    sessions: Vec<Posted>,
    // To how many sessions a line is promised, which have no number yet.
    promised: usize,
}

impl Model for Lines {
    ghost use Rattle.std.specs.Prelude.{◌+◌, ◌≤◌, length};
    ghost use Rattle.std.specs.Vec.{vec_capacity};
    ghost use Rattle.sd_board.specs.Lines.{KeepsLines, LinesIs};

    ghost Value = { LinesIs };

    ghost view = { λ l. record { sessions = l.sessions.items; promised = l.promised } };

    ghost invariant = { λ l. record {
      keeps : KeepsLines (record { sessions = l.sessions.items; promised = l.promised });
      room : length l.sessions.items + l.promised ≤ vec_capacity l.sessions;
    } };
}

impl Lines {
    /// No number was given yet. Takes no memory.
    pub(crate) fn new(alloc: Global) -> Self
        ensures { result ≡ record { sessions = []; promised = 0 } }
    {
        Lines {
            sessions: Vec::new(alloc),
            promised: 0,
        }
    }

    /// What its type keeps. Does nothing.
    pub(crate) fn know(&self)
        ensures { KeepsLines self.now }
    {
        let _ = &self.promised;
    }

    /// The number that is given next, if one is left.
    pub(crate) fn next(&self) -> Option<Ticket>
        ensures some { IfSome result (λ ticket. ticket ≡ next_number self.now) }
        ensures left { IfSome result (λ _. count_of self.now < most_number) }
        ensures none { IfNone result (count_of self.now ≡ most_number) }
    {
        Ticket::new(self.sessions.len() as u32 + 1)
    }

    /// Promises a line to one session more, for which there is room from now on.
    pub(crate) fn promise(&mut self) -> Result<(), AllocError>
        ensures ok { OnOk result (self.new ≡ promised_more self.old) }
        ensures err { OnErr result (self.new ≡ self.old) }
    {
        let Some(promised) = self.promised.checked_add(1) else {
            return Err(AllocError);
        };
        if let Err(AllocError) = self.sessions.reserve(promised) {
            return Err(AllocError);
        }
        self.promised = promised;
        Ok(())
    }

    /// Ends a promise. Takes no memory.
    pub(crate) fn end_promise(&mut self)
        ensures { self.new ≡ promised_less self.old }
    {
        self.promised = self.promised.saturating_sub(1);
    }

    /// Gives this number to a session, if it is the next one: its line comes after the others, and its promise ends.
    /// With that promise it takes no memory.
    pub(crate) fn give(&mut self, ticket: Ticket, drive: DriveNo, lane: LaneNo) -> Numbered
        ensures { GivesNumber result ticket drive lane self.old self.new }
    {
        let Some(next) = self.next() else {
            return Numbered::NoneLeft;
        };
        if next.get() != ticket.get() {
            return Numbered::Next(next);
        }
        if let Err(AllocError) = self.sessions.reserve(1) {
            return Numbered::NoRoom;
        }
        self.sessions.push_reserved(Posted {
            ticket,
            drive,
            lane,
            status: Status::Active,
            records: 0,
        });
        self.promised = self.promised.saturating_sub(1);
        Numbered::Given
    }

    /// The session's line says from now on that it has this status and took so many records. A ticket without a line
    /// changes nothing. Takes no memory.
    pub(crate) fn post(&mut self, ticket: Ticket, status: Status, records: u64)
        ensures { self.new ≡ posted_in ticket status records self.old }
    {
        let at = ticket_place(ticket);
        if at >= self.sessions.len() {
            return;
        }
        let line = &mut self.sessions[at];
        line.status = status;
        line.records = records;
    }

    /// The line of the session, if there is one of this ticket.
    pub(crate) fn session(&self, ticket: Ticket) -> Option<Posted>
        ensures { result ≡ slice_get self.now.sessions (ticket - 1) }
    {
        match self.sessions.get(ticket_place(ticket)) {
            Some(line) => Some(*line),
            None => None,
        }
    }

    /// How many sessions have a line.
    pub(crate) fn session_count(&self) -> usize
        ensures { result ≡ count_of self.now }
    {
        self.sessions.len()
    }

    /// A line for each session behind the first `from`, by rising ticket, for `most` of them at the most.
    pub(crate) fn session_lines(
        &self,
        alloc: Global,
        from: usize,
        most: usize,
    ) -> Result<Items<SessionLine>, AllocError>
        ensures { IfOk result (λ lines. lines
            ≡ map session_line (take most (drop from self.now.sessions))) }
    {
        show(alloc, piece(&self.sessions, from, most))
    }
}

// Those behind the first `from`, `most` of them at the most.
fn piece(sessions: &[Posted], from: usize, most: usize) -> &[Posted]
    ensures { result.now ≡ take most (drop from sessions.now) }
{
    let rest = &sessions[from.min(sessions.len())..];
    &rest[..most.min(rest.len())]
}

// A line of a status for each of these.
fn show(alloc: Global, sessions: &[Posted]) -> Result<Items<SessionLine>, AllocError>
    ensures { IfOk result (λ lines. lines ≡ map session_line sessions.now) }
{
    let mut lines = Vec::with_capacity(alloc, sessions.len())?;
    for posted in sessions {
        lines.push_reserved(posted.line());
    }
    Ok(Items::from_vec(lines))
}
