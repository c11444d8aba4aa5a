// A plan of failing calls, and what it has counted.
ghost use Rattle.std.specs.Prelude.{◌≡◌, ◌↔◌, ◌≤◌, None, IsOk, IfOk, IfErr, OnOk, OnErr};
ghost use Rattle.sd_base.specs.Count.{IsSpent, Rose};
ghost use Rattle.sd_plan.specs.Plan.{FailsAtOnce, KeepsCounts, NoneCounted, Strikes, due_of, entries_of, failures_of, is_for, planned, works};

use crate::fail::{Fail, When};
use crate::kind::{Kind, MOST_KINDS};

/// A plan of failing calls, the calls so far of each kind, and how many have failed. At `u64::MAX` failures
/// that count can't rise, and every call that can fail does.
#[derive(Drop)]
pub struct Plan<K: Kind> {
    fails: Vec<Fail<K>>,
    calls: [u64; MOST_KINDS],
    failures: u64,
}

impl<K: Kind> Plan<K> {
    /// A plan of these entries, with no call made yet.
    pub fn new(fails: Vec<Fail<K>>) -> Plan<K>
        ensures entries { entries_of result ≡ fails.items }
        ensures counted { NoneCounted K.kinds result }
        ensures failures { failures_of result ≡ 0 }
    {
        Plan {
            fails,
            calls: [0; MOST_KINDS],
            failures: 0,
        }
    }

    /// How many calls have failed.
    pub fn failures(&self) -> u64
        ensures { result ≡ failures_of self.now }
    {
        self.failures
    }

    /// Counts a call, and tells how it is to fail once it has done its work: by the first entry for it. Past
    /// `u64::MAX` calls of a kind none fails by plan. Answers `fault` if the call fails at once.
    pub fn begin<E: Drop>(&mut self, call: K, fault: E) -> Result<Option<When>, E>
        ensures strikes { Strikes K.kinds call self.old self.new }
        ensures at_once { OnErr result (FailsAtOnce K.kinds call self.old) }
        ensures goes_on { OnOk result (¬ FailsAtOnce K.kinds call self.old) }
        ensures due { IfOk result (λ due. due ≡ due_of K.kinds call self.old) }
        ensures ok { OnOk result
            ((failures_of self.new ≡ failures_of self.old) × ¬ IsSpent (failures_of self.new)) }
        ensures err { IfErr result (λ e. e ≡ fault) }
        ensures counted { OnErr result (Rose (failures_of self.old) (failures_of self.new)) }
        ensures later { failures_of self.old ≤ failures_of self.new }
    {
        let due = self.strike(call);
        if self.failures == u64::MAX || !does_work(call, due) {
            return Err(self.fail(fault));
        }
        Ok(due)
    }

    /// Ends a call that has done its work, and is to fail so.
    pub fn finish<E: Drop>(&mut self, due: Option<When>, fault: E) -> Result<(), E>
        requires { ¬ IsSpent (failures_of self.old) }
        ensures keeps { KeepsCounts self.old self.new }
        ensures done { IsOk result ↔ (due ≡ None) }
        ensures ok { OnOk result (failures_of self.new ≡ failures_of self.old) }
        ensures err { IfErr result (λ e. e ≡ fault) }
        ensures counted { OnErr result (Rose (failures_of self.old) (failures_of self.new)) }
        ensures later { failures_of self.old ≤ failures_of self.new }
    {
        match due {
            None => Ok(()),
            Some(_) => Err(self.fail(fault)),
        }
    }

    /// Counts a failure, and gives its fault back.
    pub fn fail<E>(&mut self, fault: E) -> E
        ensures keeps { KeepsCounts self.old self.new }
        ensures fault { result ≡ fault }
        ensures counted { Rose (failures_of self.old) (failures_of self.new) }
        ensures later { failures_of self.old ≤ failures_of self.new }
    {
        self.failures = self.failures.saturating_add(1);
        fault
    }

    // Counts a call, and says how it is to fail.
    fn strike(&mut self, call: K) -> Option<When>
        ensures strikes { Strikes K.kinds call self.old self.new }
        ensures due { result ≡ due_of K.kinds call self.old }
        ensures failures { failures_of self.new ≡ failures_of self.old }
    {
        let place = call.place();
        let before = self.calls[place];
        self.calls[place] = before.saturating_add(1);
        planned(&self.fails, call, before.checked_add(1)?)
    }
}

// How the call of that kind and number fails.
fn planned<K: Kind>(fails: &[Fail<K>], call: K, nth: u64) -> Option<When>
    ensures { result ≡ planned K.kinds call nth fails.now }
{
    let fail = fails.iter().find(|fail| is_for(fail, call, nth))?;
    Some(fail.when)
}

// Whether an entry is for the call of that kind and number.
fn is_for<K: Kind>(fail: &Fail<K>, call: K, nth: u64) -> bool
    ensures { result ≡ is_for K.kinds call nth fail.now }
{
    fail.call.place() == call.place() && fail.nth == nth
}

// Whether a call that is to fail so does some of its work.
fn does_work<K: Kind>(call: K, due: Option<When>) -> bool
    ensures { result ≡ works K.kinds call due }
{
    match due {
        None | Some(When::After) => true,
        Some(When::Half) => call.is_append(),
        Some(When::Before) => false,
    }
}
