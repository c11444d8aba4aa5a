// The connections that a server has open.
ghost use Rattle.std.specs.Prelude.{◌≡◌, ◌≤◌, ◌<◌, ◌+◌, ◌⊎◌, Some, IfSome, IsSomeAnd, cond, is_some};
ghost use Rattle.sd_serve.specs.Connections.{most_open};

use sd_base::{MOST_DRIVES, MOST_LANES};
use slab::Slab;
use std::alloc::{AllocError, Global};
use std::marker::Model;
use std::net::SocketAddr;
use std::time::Instant;

/// How many connections are open at once at the most: one for each lane that the drives may have, and some more.
pub const MOST_OPEN: usize = 320;

const _: () = prove!(MOST_OPEN == MOST_DRIVES as usize * MOST_LANES as usize + 64);

/// A connection that is open.
#[derive(Clone, Copy)]
pub struct OpenConnection {
    /// The number of its talk, from 1 on.
    pub talk: u64,
    /// The client's address.
    pub peer: SocketAddr,
    /// When it was taken; `None` if the clock couldn't be read.
    pub since: Option<Instant>,
    /// The session that its talk opened last, until that was closed or given up.
    pub session: Option<u32>,
}

/// The place of an open connection in the table, and the number of its talk.
#[derive(Clone, Copy)]
pub struct Seat {
    pub place: usize,
    pub talk: u64,
}

/// The connections that are open, with a number each that no other had. In a contract it is an `OpenTable`.
#[derive(Drop)]
pub struct ConnectionTable {
    held: Slab<OpenConnection>,
    last: u64,
}

impl Model for ConnectionTable {
    ghost use Rattle.sd_serve.specs.Connections.{IsKept, OpenTable};

    ghost Value = { OpenTable };

    ghost view = { λ t. record { places = t.held.slots; last = t.last } };

    ghost invariant = { λ t. IsKept t.held t.last };
}

impl ConnectionTable {
    ghost use Rattle.std.specs.Prelude.{ℕ, ◌≡◌, ◌≢◌, ◌≤◌, ◌<◌, ◌+◌, ◌↔◌, ◌⊎◌, [], None, Some, IfOk, IfSome, IfNone, IsNone, IsTrue, OnSome, option_map};
    ghost use Rattle.sd_serve.specs.Connections.{IsFull, IsOpen, IsSeatOf, OthersStay, begun, in_session, most_open, open_at, open_count, session_count};
    ghost use Rattle.sd_serve.specs.declared.connection_table.OpenConnection.{OpenConnection};

    /// The table before the first connection. From then on it takes no memory.
    pub fn new(alloc: Global) -> Result<Self, AllocError>
        ensures empty { IfOk result (λ t. t.places ≡ []) }
        ensures last { IfOk result (λ t. t.last ≡ 0) }
    {
        Ok(ConnectionTable {
            held: Slab::with_capacity(alloc, MOST_OPEN)?,
            last: 0,
        })
    }

    /// A connection is taken: its number is the next one. `None` if there are as many as there may be.
    pub fn begin(&mut self, peer: SocketAddr, since: Option<Instant>) -> Option<Seat>
        ensures full { IsNone result ↔ IsFull self.old }
        ensures none { IsNone result → self.new ≡ self.old }
        ensures number { IfSome result (λ s. s.talk ≡ self.old.last + 1) }
        ensures was_free { IfSome result (λ s. open_at self.old s.place ≡ None) }
        ensures begun { IfSome result (λ s. open_at self.new s.place ≡ Some (begun s.talk peer since)) }
        ensures others { IfSome result (λ s. OthersStay s.place self.old self.new) }
        ensures counted { OnSome result (open_count self.new ≡ open_count self.old + 1) }
        ensures last { OnSome result (self.new.last ≡ self.old.last + 1) }
    {
        if self.held.len() >= MOST_OPEN || self.last == u64::MAX {
            return None;
        }
        let talk = self.last + 1;
        let connection = OpenConnection {
            talk,
            peer,
            since,
            session: None,
        };
        let place = self.held.insert_reserved(connection);
        self.last = talk;
        Some(Seat { place, talk })
    }

    /// Whether the connection with this seat is open.
    pub fn has(&self, seat: Seat) -> bool
        ensures { IsTrue result ↔ IsSeatOf self.now seat }
    {
        match self.held.get(seat.place) {
            Some(connection) => connection.talk == seat.talk,
            None => false,
        }
    }

    /// The connection with this seat has ended, if it is open.
    pub fn end(&mut self, seat: Seat)
        ensures ended { IsSeatOf self.old seat → open_at self.new seat.place ≡ None }
        ensures counted { IsSeatOf self.old seat → open_count self.new + 1 ≡ open_count self.old }
        ensures others { OthersStay seat.place self.old self.new }
        ensures otherwise { (IsSeatOf self.old seat → ⊥) → self.new ≡ self.old }
        ensures last { self.new.last ≡ self.old.last }
    {
        if self.has(seat) {
            self.held.try_remove(seat.place);
        }
    }

    /// The talk with this seat has this session open, or none any more.
    pub fn set_session(&mut self, seat: Seat, session: Option<u32>)
        ensures noted { IsSeatOf self.old seat → open_at self.new seat.place ≡ option_map
            (in_session session) (open_at self.old seat.place) }
        ensures counted { open_count self.new ≡ open_count self.old }
        ensures others { OthersStay seat.place self.old self.new }
        ensures otherwise { (IsSeatOf self.old seat → ⊥) → self.new ≡ self.old }
        ensures last { self.new.last ≡ self.old.last }
    {
        if !self.has(seat) {
            return;
        }
        if let Some(connection) = self.held.try_remove(seat.place) {
            self.held.insert_reserved(OpenConnection {
                session,
                ..connection
            });
        }
    }

    /// The number that was given last; 0 before the first.
    pub fn last(&self) -> u64
        ensures { result ≡ self.now.last }
    {
        self.last
    }

    /// How many are open.
    pub fn len(&self) -> usize
        ensures count { result ≡ open_count self.now }
        ensures within { result ≤ most_open }
    {
        self.held.len()
    }

    /// How many have a session open.
    pub fn with_session(&self) -> usize
        ensures { result ≡ session_count self.now }
    {
        let mut counted = 0;
        for (_place, connection) in self.held.iter() {
            counted = counted_with(counted, *connection);
        }
        counted
    }

    /// Of the connections with a number above `talk` the one with the lowest, and its place.
    pub fn oldest_after(&self, talk: u64) -> Option<(usize, OpenConnection)>
        ensures found { IfSome result (λ o. open_at self.now o.0 ≡ Some o.1) }
        ensures after { IfSome result (λ o. talk < o.1.talk) }
        ensures oldest { IfSome result (λ o. (other : OpenConnection) → IsOpen self.now other
            → talk < other.talk → o.1.talk ≤ other.talk) }
        ensures none { IfNone result ((other : OpenConnection) → IsOpen self.now other
            → other.talk ≤ talk) }
    {
        let mut oldest = None;
        for (place, connection) in self.held.iter() {
            oldest = older(oldest, place, *connection, talk);
        }
        oldest
    }

    /// No two have one number, and none has one above the last that was given.
    pub fn numbers_differ(&self)
        ensures once { (a b : ℕ) (c d : OpenConnection) → open_at self.now a ≡ Some c
            → open_at self.now b ≡ Some d → c.talk ≡ d.talk → a ≡ b }
        ensures given { (c : OpenConnection) → IsOpen self.now c → c.talk ≤ self.now.last }
    {
        let _ = &self.held;
    }
}

// One more if the connection has a session.
fn counted_with(counted: usize, connection: OpenConnection) -> usize
    requires { counted < most_open }
    ensures { result ≡ counted + cond (is_some connection.session) 1 0 }
{
    if connection.session.is_some() {
        counted + 1
    } else {
        counted
    }
}

// The older one, with its place, of those with a number above `talk`.
fn older(
    oldest: Option<(usize, OpenConnection)>,
    place: usize,
    connection: OpenConnection,
    talk: u64,
) -> Option<(usize, OpenConnection)>
    ensures comes { IfSome result (λ o. (oldest ≡ Some o)
        ⊎ ((o ≡ (place, connection)) × (talk < o.1.talk))) }
    ensures before { IfSome oldest (λ o. IsSomeAnd result (λ p. p.1.talk ≤ o.1.talk)) }
    ensures covers { talk < connection.talk
        → IsSomeAnd result (λ p. p.1.talk ≤ connection.talk) }
{
    if connection.talk <= talk {
        return oldest;
    }
    match oldest {
        Some((_, before)) if before.talk <= connection.talk => oldest,
        _ => Some((place, connection)),
    }
}
