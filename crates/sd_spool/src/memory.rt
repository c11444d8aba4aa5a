// A spool in memory, as a store.
ghost use Rattle.std.specs.Prelude.{◌≡◌, ◌↔◌, ◌≤◌, ◌+◌, ◌++◌, [], take, drop, length, IfErr, OnOk, OnErr, IsTrue, IsErrOf};

use crate::call::{SpoolCall, SpoolFail};
use crate::store::{SpoolStore, SpoolStoreFault};
use sd_plan::{Plan, part};
use std::alloc::Global;

/// A spool in memory, whose calls fail as its plan says. It is honest.
#[derive(Drop)]
pub struct MemSpool {
    bytes: Vec<u8>,
    plan: Plan<SpoolCall>,
}

impl MemSpool {
    ghost use Rattle.sd_spool.specs.MemSpool.{meaning_of, unused, plan_of, NoneCounted};

    /// An empty spool, no call of which fails by plan. Takes no memory.
    pub fn new(alloc: Global) -> MemSpool
        ensures unused { meaning_of result ≡ unused }
        ensures plan { plan_of result ≡ [] }
        ensures counted { NoneCounted result }
    {
        MemSpool::with_plan(alloc, Vec::new(alloc))
    }

    /// An empty spool, whose calls fail as `plan` says. Takes no memory.
    pub fn with_plan(alloc: Global, plan: Vec<SpoolFail>) -> MemSpool
        ensures unused { meaning_of result ≡ unused }
        ensures plan { plan_of result ≡ plan.items }
        ensures counted { NoneCounted result }
    {
        MemSpool {
            bytes: Vec::new(alloc),
            plan: Plan::new(plan),
        }
    }
}

impl SpoolStore for MemSpool {
    ghost use Rattle.sd_spool.specs.Meaning.{IsHonest, CountsFailures, MayAppend, MayClear};
    ghost use Rattle.sd_spool.specs.MemSpool.{meaning_of, FollowsPlan, IsShort, AppendsPart, ClearsUnlessAtOnce};

    ghost meaning = { meaning_of };

    fn append(&mut self, bytes: &[u8]) -> Result<(), SpoolStoreFault>
        ensures counts { CountsFailures result (meaning_of self.old) (meaning_of self.new) }
        ensures memory { IsErrOf result SpoolStoreFault.Memory
            → meaning_of self.new ≡ meaning_of self.old }
        ensures ok { IsHonest (meaning_of self.old) → OnOk result
            ((meaning_of self.new).bytes ≡ (meaning_of self.old).bytes ++ bytes.now) }
        ensures err { IsHonest (meaning_of self.old) → OnErr result
            (MayAppend (meaning_of self.old).bytes (meaning_of self.new).bytes) }

        ensures plan { FollowsPlan SpoolCall.Append ⊥ result self.old self.new }
        ensures part { ¬ IsErrOf result SpoolStoreFault.Memory
            → AppendsPart bytes.now self.old self.new }
    {
        let due = self.plan.begin(SpoolCall::Append, SpoolStoreFault::Device)?;
        let Ok(()) = self.bytes.extend_from_slice(part(due, bytes)) else {
            return Err(SpoolStoreFault::Memory);
        };
        self.plan.finish(due, SpoolStoreFault::Device)
    }

    fn read_at(&mut self, at: u64, into: &mut [u8]) -> Result<(), SpoolStoreFault>
        ensures counts { CountsFailures result (meaning_of self.old) (meaning_of self.new) }
        ensures memory { IsErrOf result SpoolStoreFault.Memory
            → meaning_of self.new ≡ meaning_of self.old }
        ensures ok { IsHonest (meaning_of self.old) → OnOk result
            (into.new ≡ take (length into.old) (drop at (meaning_of self.old).bytes)) }
        ensures same { IsHonest (meaning_of self.old)
            → (meaning_of self.new).bytes ≡ (meaning_of self.old).bytes }

        ensures faults { IfErr result (λ fault. fault ≡ SpoolStoreFault.Device) }
        ensures plan { FollowsPlan SpoolCall.Read (IsShort at (length into.old) self.old)
            result self.old self.new }
    {
        let due = self.plan.begin(SpoolCall::Read, SpoolStoreFault::Device)?;
        if !stands(&self.bytes, at, into.len()) {
            return Err(self.plan.fail(SpoolStoreFault::Device));
        }
        let at = at as usize;
        into.copy_from_slice(&self.bytes[at..at + into.len()]);
        self.plan.finish(due, SpoolStoreFault::Device)
    }

    fn clear(&mut self) -> Result<(), SpoolStoreFault>
        ensures counts { CountsFailures result (meaning_of self.old) (meaning_of self.new) }
        ensures memory { IsErrOf result SpoolStoreFault.Memory
            → meaning_of self.new ≡ meaning_of self.old }
        ensures ok { IsHonest (meaning_of self.old) → OnOk result
            ((meaning_of self.new).bytes ≡ []) }
        ensures err { IsHonest (meaning_of self.old) → OnErr result
            (MayClear (meaning_of self.old).bytes (meaning_of self.new).bytes) }

        ensures faults { IfErr result (λ fault. fault ≡ SpoolStoreFault.Device) }
        ensures plan { FollowsPlan SpoolCall.Clear ⊥ result self.old self.new }
        ensures clears { ClearsUnlessAtOnce self.old self.new }
    {
        let due = self.plan.begin(SpoolCall::Clear, SpoolStoreFault::Device)?;
        self.bytes.clear();
        self.plan.finish(due, SpoolStoreFault::Device)
    }

    fn failures(&self) -> u64 {
        self.plan.failures()
    }
}

// Whether there are so many bytes from a place on.
fn stands(bytes: &[u8], at: u64, count: usize) -> bool
    ensures { IsTrue result ↔ (at + count ≤ length bytes.now) }
{
    let held = bytes.len() as u64;
    at <= held && count as u64 <= held - at
}
