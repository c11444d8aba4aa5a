// The JobMedia texts that closes printed.
ghost use Rattle.std.specs.Prelude.{◌≡◌, ◌<◌, ◌-◌, ◌++◌, ◌∷◌, [], None, OnOk, vec_capacity, vec_len};
ghost use Rattle.std.specs.Option.{option_copied};
ghost use Rattle.sd_tool.specs.Printed.{last_printed};

use sd_base::{Items, SessionKey};
use sd_span::Span;
use std::alloc::{AllocError, Global};

/// A session and its spans, as its close printed them.
#[derive(Drop)]
pub struct Closed {
    pub key: SessionKey,
    pub spans: Items<Span>,
}

/// The closed sessions of this run and of the earlier ones, in the order in which they were printed.
#[derive(Drop)]
pub struct Printed {
    sessions: Vec<Closed>,
}

impl Printed {
    pub fn new(alloc: Global) -> Self
        ensures { result.sessions.items ≡ [] }
    {
        Printed {
            sessions: Vec::new(alloc),
        }
    }

    /// Makes room for one more.
    pub fn reserve(&mut self) -> Result<(), AllocError>
        ensures same { self.new.sessions.items ≡ self.old.sessions.items }
        ensures ok { OnOk result (vec_len self.new.sessions < vec_capacity self.new.sessions) }
    {
        self.sessions.try_reserve(1)
    }

    /// One more. There is room for it.
    pub fn add(&mut self, closed: Closed)
        requires { vec_len self.old.sessions < vec_capacity self.old.sessions }
        ensures { self.new.sessions.items ≡ self.old.sessions.items ++ closed ∷ [] }
    {
        self.sessions.push_reserved(closed);
    }

    /// What was printed last of a session.
    pub fn find(&self, key: SessionKey) -> Option<&Closed>
        ensures { option_copied result ≡ last_printed key None self.now.sessions.items }
    {
        last_of(&self.sessions, key)
    }
}

// The last of these that has the key.
fn last_of(sessions: &[Closed], key: SessionKey) -> Option<&Closed>
    ensures { option_copied result ≡ last_printed key None sessions.now }
{
    let mut last = None;
    for closed in sessions {
        if key == closed.key {
            last = Some(closed);
        }
    }
    last
}
