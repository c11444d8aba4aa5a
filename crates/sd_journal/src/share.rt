// What a journal keeps of one session.
ghost use Rattle.std.specs.Prelude.{◌≡◌, ◌+◌, ◌<◌, ◌≤◌, ◌^◌, [], All, map, true, false, nat_lt, IfOk, OnOk, OnErr};
ghost use Rattle.std.specs.List.{list_any, sum_by};
ghost use Rattle.std.specs.Vec.{vec_len, vec_capacity};
ghost use Rattle.sd_base.specs.FileIndex.{first_nonzero};
ghost use Rattle.sd_span.specs.Spans.{numbered_from};
ghost use Rattle.sd_journal.specs.ShareView.{ShareView};
ghost use Rattle.sd_journal.specs.Stretch.{HasName, span_of, is_on, counted, grown_by, marked_at};

use crate::counts::Counts;
use crate::mark::Mark;
use crate::names::Names;
use crate::noted::Noted;
use crate::stretch::{Stretch, first_of};
use sd_base::Items;
use sd_span::Span;
use std::alloc::{AllocError, Global};
use std::marker::Model;

/// What a journal keeps of one session: its stretches, how many blocks it has, and its last FileIndex.
#[derive(Drop)]
pub(crate) struct Share {
    stretches: Vec<Stretch>,
    placed: u64,
    last: u32,
    // Whether there is room for one stretch more.
    ready: bool,
}

impl Model for Share {
    ghost use Rattle.std.specs.Prelude.{◌≡◌, ◌<◌, ◌≤◌, ◌^◌, true};
    ghost use Rattle.std.specs.List.{sum_by};
    ghost use Rattle.std.specs.Vec.{vec_len, vec_capacity};
    ghost use Rattle.sd_journal.specs.ShareView.{ShareView};
    ghost use Rattle.sd_journal.specs.Stretch.{counted};

    ghost Value = { ShareView };

    ghost view = { λ s. record {
      stretches = s.stretches.items;
      placed = s.placed;
      last = s.last;
      ready = s.ready;
    } };

    ghost invariant = { λ s. record {
      room : s.ready ≡ true → vec_len s.stretches < vec_capacity s.stretches;
      counted : sum_by counted s.stretches.items ≤ s.placed;
      fits : s.placed < 2 ^ 64;
    } };
}

impl Share {
    /// Of a session without blocks, with room for its first stretch.
    pub(crate) fn new(alloc: Global) -> Result<Self, AllocError>
        ensures { IfOk result (λ share. share ≡ record {
          stretches = [];
          placed = 0;
          last = 0;
          ready = true;
        }) }
    {
        Ok(Share {
            stretches: Vec::with_capacity(alloc, 1)?,
            placed: 0,
            last: 0,
            ready: true,
        })
    }

    /// How many blocks of it were placed, and how many of them are synced.
    pub(crate) fn counts(&self) -> Counts
        ensures placed { result.placed ≡ self.now.placed }
        ensures synced { result.synced ≡ sum_by (λ s. s.synced) self.now.stretches }
    {
        Counts {
            placed: self.placed,
            synced: synced_in(&self.stretches),
        }
    }

    /// Whether a block of it is lost.
    pub(crate) fn fails(&self) -> bool
        ensures { result ≡ list_any (λ s. nat_lt 0 s.lost) self.now.stretches }
    {
        self.stretches.iter().any(|one| 0 < one.lost)
    }

    /// Whether one of its stretches is on the volume at this place.
    pub(crate) fn is_on(&self, volume: u32) -> bool
        ensures { result ≡ list_any (is_on volume) self.now.stretches }
    {
        self.stretches.iter().any(|one| volume == one.volume)
    }

    /// Its spans, numbered 1, 2 and on.
    pub(crate) fn spans(&self, alloc: Global, names: &Names) -> Result<Items<Span>, AllocError>
        requires { All (HasName names.now.names) self.now.stretches }
        ensures { IfOk result (λ spans. spans
            ≡ numbered_from 1 (map (span_of names.now.names) self.now.stretches)) }
    {
        spans_of(alloc, names, &self.stretches)
    }

    /// Makes room for one stretch more.
    pub(crate) fn ready(&mut self) -> Result<(), AllocError>
        ensures ok { OnOk result (self.new ≡ record self.old { ready = true }) }
        ensures err { OnErr result (self.new ≡ self.old) }
    {
        self.stretches.reserve(1)?;
        self.ready = true;
        Ok(())
    }

    /// Adds one block more, which the last stretch grows by, or which begins one in the room that was made for it. Returns its
    /// last FileIndex before, and whether a stretch began.
    pub(crate) fn note(&mut self, noted: &Noted) -> (u32, bool)
        requires end { noted.now.start + noted.now.length < 2 ^ 64 }
        requires ready { self.old.ready ≡ true }
        requires fits { self.old.placed + 1 < 2 ^ 64 }
        ensures share { self.new ≡ record {
          stretches = grown_by self.old.stretches noted.now;
          placed = self.old.placed + 1;
          last = first_nonzero noted.now.last self.old.last;
          ready = false;
        } }
        ensures last { result.0 ≡ self.old.last }
        ensures on { result.1 ≡ false
            → list_any (is_on noted.now.volume) self.old.stretches ≡ true }
    {
        let was = self.last;
        let begins = extend(&mut self.stretches, noted);
        self.placed += 1;
        self.last = first_of(noted.last, was);
        self.ready = false;
        (was, begins)
    }

    /// After a call on the volume at this place, by which blocks there get that mark.
    pub(crate) fn mark(&mut self, volume: u32, mark: Mark)
        ensures { self.new ≡ record self.old {
          stretches = map (marked_at mark volume) self.old.stretches;
        } }
    {
        mark_each(&mut self.stretches, volume, mark);
    }
}

fn synced_in(stretches: &[Stretch]) -> u64
    requires { sum_by counted stretches.now < 2 ^ 64 }
    ensures { result ≡ sum_by (λ s. s.synced) stretches.now }
{
    let mut synced = 0;
    for one in stretches {
        synced += one.synced;
    }
    synced
}

fn spans_of(alloc: Global, names: &Names, stretches: &[Stretch]) -> Result<Items<Span>, AllocError>
    requires { All (HasName names.now.names) stretches.now }
    ensures { IfOk result (λ spans. spans
        ≡ numbered_from 1 (map (span_of names.now.names) stretches.now)) }
{
    let mut spans = Vec::with_capacity(alloc, stretches.len())?;
    for at in 0..stretches.len() {
        spans.push(stretches[at].span(names, at as u64 + 1))?;
    }
    Ok(Items::from_vec(spans))
}

// Whether a stretch began.
fn extend(stretches: &mut Vec<Stretch>, noted: &Noted) -> bool
    requires end { noted.now.start + noted.now.length < 2 ^ 64 }
    requires room { vec_len stretches.old < vec_capacity stretches.old }
    requires counts { sum_by counted stretches.old.items + 1 < 2 ^ 64 }
    ensures stretches { stretches.new.items ≡ grown_by stretches.old.items noted.now }
    ensures on { result ≡ false
        → list_any (is_on noted.now.volume) stretches.old.items ≡ true }
{
    let count = stretches.len();
    if count > 0 && noted.volume == stretches[count - 1].volume {
        stretches[count - 1].go_on(noted);
        return false;
    }
    stretches.push_reserved(Stretch::begun_by(noted));
    true
}

fn mark_each(stretches: &mut [Stretch], volume: u32, mark: Mark)
    requires { sum_by counted stretches.old < 2 ^ 64 }
    ensures { stretches.new ≡ map (marked_at mark volume) stretches.old }
{
    for at in 0..stretches.len() {
        if volume == stretches[at].volume {
            stretches[at].mark(mark);
        }
    }
}
