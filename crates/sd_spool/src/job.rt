// The spool of one session.
ghost use Rattle.std.specs.Prelude.{◌≡◌, ◌≢◌, ◌↔◌, ◌+◌, ◌<◌, ◌≤◌, [], length, take, drop, IfOk, IfErr, OnOk, OnErr, IsErrOf, IsTrue, MatchOption};
ghost use Rattle.sd_base.specs.Limits.{most_body};
ghost use Rattle.sd_spool.specs.Meaning.{IsHonest};
ghost use Rattle.sd_spool.specs.Job.{state_of, empty_on, HoldsUsed, HasCause, FailsToClear, Puts, FailsToPut, Takes, FailsToTake};

use crate::entry::{Extent, SpoolEntry};
use crate::store::{SpoolStore, SpoolStoreFault};
use sd_base::BLOCK_HEADER;
use sd_block::FramedBody;
use sd_pack::Body;
use std::alloc::Global;
use std::collections::VecDeque;
use std::marker::Model;

/// Why a body isn't in the spool.
#[derive(Clone, Copy, Debug, PartialEq, Eq)]
pub enum PutFault {
    /// It would pass the limit.
    Full,
    /// The store failed, and counted that.
    Device,
    /// Out of memory.
    Memory,
}

/// A store that could not be cleared, and why.
#[derive(Drop)]
pub struct NotCleared<S> {
    pub store: S,
    pub fault: SpoolStoreFault,
}

/// Bodies on their way through a store: they come out as they were put in, in order, once each. The limit counts the
/// bytes of all bodies put since the spool was last empty. A spool that has run empty clears its store at the
/// next put.
#[derive(Drop)]
pub struct JobSpool<S: SpoolStore> {
    alloc: Global,
    store: S,
    entries: VecDeque<SpoolEntry>,
    extent: Extent,
    limit: u64,
}

impl<S: SpoolStore> Model for JobSpool<S> {
    ghost use Rattle.sd_spool.specs.Job.{JobView, view_of, IsKept};

    ghost Value = { JobView };

    ghost view = { λ j. view_of (S.meaning j.store) j.entries.items j.extent j.limit };

    ghost invariant = { λ j. IsKept (S.meaning j.store) j.entries.items j.extent j.limit };
}

impl<S: SpoolStore> JobSpool<S> {
    /// An empty spool on a store, which it clears.
    pub fn new(alloc: Global, store: S, limit: u64) -> Result<JobSpool<S>, NotCleared<S>>
        ensures ok { IfOk result (λ spool. spool ≡ empty_on (state_of (S.meaning store)) limit) }
        ensures err { IfErr result (λ kept.
            FailsToClear kept.fault (S.meaning store) (S.meaning kept.store)) }
    {
        let mut store = store;
        match store.clear() {
            Ok(()) => Ok(JobSpool {
                alloc,
                store,
                entries: VecDeque::new(alloc),
                extent: Extent {
                    end: 0,
                    torn: false,
                },
                limit,
            }),
            Err(fault) => Err(NotCleared { store, fault }),
        }
    }

    /// The store as it is; what bodies are in it are lost.
    pub fn into_store(self) -> S
        ensures state { state_of (S.meaning result) ≡ self.store }
        ensures bytes { HoldsUsed self (S.meaning result) }
    {
        let JobSpool {
            alloc: _,
            store,
            entries: _,
            extent: _,
            limit: _,
        } = self;
        store
    }

    /// Whether no body is in the spool.
    pub fn is_empty(&self) -> bool
        ensures shapes { IsTrue result ↔ (self.now.shapes ≡ []) }
        ensures bodies { IsTrue result ↔ (self.now.bodies ≡ []) }
    {
        self.entries.is_empty()
    }

    /// Puts a body after those in the spool. `Full` and `Memory` leave the spool as it was.
    pub fn put_body(&mut self, body: &Body) -> Result<(), PutFault>
        ensures cause { HasCause (IsErrOf result PutFault.Device) self.old.store self.new.store }
        ensures ok { OnOk result (Puts body.now self.old self.new) }
        ensures full { IsErrOf result PutFault.Full
            ↔ (self.old.limit < self.old.used + length body.now.bytes) }
        ensures unchanged { IsErrOf result PutFault.Full → self.new ≡ self.old }
        ensures memory { IsErrOf result PutFault.Memory → self.new ≡ self.old }
        ensures device { IsErrOf result PutFault.Device → FailsToPut self.old self.new }
    {
        let bytes = body.bytes.as_slice();
        let is_first = self.is_empty();
        let used = if is_first { 0 } else { self.extent.end };
        if bytes.len() as u64 > self.limit - used {
            return Err(PutFault::Full);
        }
        if self.entries.reserve(1).is_err() {
            return Err(PutFault::Memory);
        }
        let at = match self.extent.put(&mut self.store, is_first, bytes) {
            Ok(at) => at,
            Err(SpoolStoreFault::Device) => return Err(PutFault::Device),
            Err(SpoolStoreFault::Memory) => return Err(PutFault::Memory),
        };
        let entry = SpoolEntry {
            at,
            length: bytes.len(),
            first: body.first,
            last: body.last,
        };
        self.entries.push_back(entry).unwrap();
        Ok(())
    }

    /// Takes the oldest body out, none if the spool is empty. After a fault of the store the same bodies are in
    /// the spool; `Memory` leaves it as it was.
    pub fn next_body(&mut self) -> Result<Option<Body>, SpoolStoreFault>
        ensures cause { HasCause (IsErrOf result SpoolStoreFault.Device)
            self.old.store self.new.store }
        ensures ok { IfOk result (λ found. MatchOption found
            ((self.old.shapes ≡ []) × (self.new ≡ self.old))
            (λ body. Takes body self.old self.new)) }
        ensures some { OnErr result (self.old.shapes ≢ []) }
        ensures memory { IsErrOf result SpoolStoreFault.Memory → self.new ≡ self.old }
        ensures device { IsErrOf result SpoolStoreFault.Device → FailsToTake self.old self.new }
    {
        let Some(entry) = self.entries.front() else {
            return Ok(None);
        };
        let SpoolEntry {
            at,
            length,
            first,
            last,
        } = *entry;
        let bytes = read_body(self.alloc, &mut self.store, at, length)?;
        let _ = self.entries.pop_front();
        Ok(Some(Body { bytes, first, last }))
    }
}

// The body of `size` bytes at `at` of a store.
fn read_body<S: SpoolStore>(
    alloc: Global,
    store: &mut S,
    at: u64,
    size: usize,
) -> Result<FramedBody, SpoolStoreFault>
    requires { size ≤ most_body }
    ensures cause { HasCause (IsErrOf result SpoolStoreFault.Device)
        (state_of (S.meaning store.old)) (state_of (S.meaning store.new)) }
    ensures memory { IsErrOf result SpoolStoreFault.Memory
        → S.meaning store.new ≡ S.meaning store.old }
    ensures size { IfOk result (λ body. length body.bytes ≡ size) }
    ensures ok { IsHonest (S.meaning store.old) → IfOk result
        (λ body. body.bytes ≡ take size (drop at (S.meaning store.old).bytes)) }
    ensures same { IsHonest (S.meaning store.old)
        → (S.meaning store.new).bytes ≡ (S.meaning store.old).bytes }
{
    let Ok(mut frame) = vec![in alloc; 0; BLOCK_HEADER + size] else {
        return Err(SpoolStoreFault::Memory);
    };
    store.read_at(at, &mut frame[BLOCK_HEADER..])?;
    Ok(FramedBody::from_frame(frame))
}
