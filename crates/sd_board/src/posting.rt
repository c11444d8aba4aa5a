// The lines of the board.
ghost use Rattle.std.specs.Prelude.{◌≡◌, ◌-◌, map, take, drop, slice_get, IfOk};
ghost use Rattle.sd_board.specs.Lines.{count_of, posted_in, session_line};

use crate::board::Board;
use crate::posted::Posted;
use sd_base::{Items, Ticket};
use sd_line::Naming;
use sd_machine::SessionLine;
use sd_session::Status;
use sd_spool::SpoolStore;
use std::alloc::AllocError;

impl<N: Naming, S: SpoolStore + Drop> Board<N, S> {
    /// The session's line says from now on that it has this status and took so many records. A ticket without a line
    /// changes nothing. Takes no memory.
    pub fn post(&mut self, ticket: Ticket, status: Status, records: u64)
        ensures { self.new ≡ record self.old {
          lines = posted_in ticket status records self.old.lines;
        } }
    {
        self.lines.post(ticket, status, records);
    }

    /// The line of the session, if there is one of this ticket: that of number n is the nth.
    pub fn session(&self, ticket: Ticket) -> Option<Posted>
        ensures { result ≡ slice_get self.now.lines.sessions (ticket - 1) }
    {
        self.lines.session(ticket)
    }

    /// How many sessions have a line.
    pub fn session_count(&self) -> usize
        ensures { result ≡ count_of self.now.lines }
    {
        self.lines.session_count()
    }

    /// A line for each session behind the first `from`, by rising ticket, for `most` of them at the most.
    pub fn session_lines(&self, from: usize, most: usize) -> Result<Items<SessionLine>, AllocError>
        ensures { IfOk result (λ lines. lines
            ≡ map session_line (take most (drop from self.now.lines.sessions))) }
    {
        self.lines.session_lines(self.alloc, from, most)
    }
}
