// One session's own parts.
ghost use Rattle.std.specs.Prelude.{◌≡◌, ◌≢◌, ◌+◌, ◌-◌, ◌^◌, ◌<◌, ◌≤◌, ◌↔◌, [], length, true, false, None, Some, IfOk, IfErr, IfSome, IfNone, OnOk, OnErr, Ok, IsTrue, MatchOption, ℕ};
ghost use Rattle.sd_base.specs.Limits.{block_header, least_block_limit, most_block};
ghost use Rattle.std.specs.Option.{option_map};
ghost use Rattle.sd_label.specs.Cutting.{Between};
ghost use Rattle.sd_label.specs.Label.{IsSessionLabel, session_label_bytes};
ghost use Rattle.sd_lane.specs.Queue.{WasFull};
ghost use Rattle.sd_pack.specs.Packing.{HasOpen, Packs, bodies_of, all_bytes};
ghost use Rattle.sd_spool.specs.Job.{state_of};
ghost use Rattle.sd_session.specs.Session.{IsRunning, NotRunning, MayTake, status_refusal, start_label, due_of, spooled_in, store_refusal, spooled_count, IsWhole, IsSessionView, StartsSession, StartRefused, TakesRecord, AppendRefused, EndsSession, EndRefused, CancelsSession, FailsSession, PurgesSession, MayClose, ClosesSession, CloseRefused, GivesBack, KeepsStore, HasNoneDue};
ghost use Rattle.sd_session.specs.Spooling.{Spools, SpoolRefused};
ghost use Rattle.sd_session.specs.Sending.{queue_view, IsDueToSend, goes_on, Despools, DespoolRefused};

use crate::answer::{Despooled, Spooling};
use crate::dropping::drop_parts;
use crate::opening::{NotOpened, Opening};
use crate::sending::take_next;
use crate::spooling::put_waiting;
use crate::status::Status;
use sd_base::{JobId, LaneNo, MediaName, PoolName, Rec, Refusal, SessionKey};
use sd_label::{SessionLabel, Totals};
use sd_lane::{Lane, Piece};
use sd_pack::{Body, Packer};
use sd_span::Progress;
use sd_spool::{JobSpool, SpoolStore, SpoolStoreFault};
use std::alloc::{AllocError, Global};
use std::marker::Model;

/// A session: what it took and hasn't sent yet. Its records are cut into bodies. A closed body waits; if the session
/// spools, it then goes into its spool; and the oldest body that the session has goes to the queue before its drive. In
/// a contract a session is a `SessionView`.
#[derive(Drop)]
pub struct Session<S: SpoolStore> {
    key: SessionKey,
    lane: LaneNo,
    job: JobId,
    pool: PoolName,
    media: MediaName,
    status: Status,
    count: u64,
    bytes: u64,
    last: u32,
    sent: u64,
    ready: Option<Body>,
    // The lane's store, if there is no spool on it.
    store: Option<S>,
    spool: Option<JobSpool<S>>,
    // Nothing goes into the spool until it is empty.
    despooling: bool,
    packer: Packer,
}

impl<S: SpoolStore> Model for Session<S> {
    ghost use Rattle.std.specs.Option.{option_map};
    ghost use Rattle.sd_spool.specs.Job.{state_of};
    ghost use Rattle.sd_session.specs.Session.{SessionView, IsSessionView};

    ghost Value = { SessionView };

    ghost view = { λ s. record {
      key = s.key;
      lane = s.lane;
      job = s.job;
      pool = s.pool;
      media = s.media;
      status = s.status;
      count = s.count;
      bytes = s.bytes;
      last = s.last;
      sent = s.sent;
      ready = s.ready;
      store = option_map (λ store. state_of (S.meaning store)) s.store;
      spool = s.spool;
      despooling = s.despooling;
      packer = s.packer;
    } };

    ghost invariant = { λ s. IsSessionView (record {
      key = s.key;
      lane = s.lane;
      job = s.job;
      pool = s.pool;
      media = s.media;
      status = s.status;
      count = s.count;
      bytes = s.bytes;
      last = s.last;
      sent = s.sent;
      ready = s.ready;
      store = option_map (λ store. state_of (S.meaning store)) s.store;
      spool = s.spool;
      despooling = s.despooling;
      packer = s.packer;
    }) };
}

impl<S: SpoolStore + Drop> Session<S> {
    /// A new session, with its start label, for blocks of at most `block` bytes, 1,024 to 1,048,576. It spools on the
    /// store up to a limit of `spool` body bytes, and not at all if that is 0; then the store is not touched. Any other
    /// limit is `block` at least, since a body that passes the limit by itself would wait for ever.
    ///
    /// All room is made first; then the store is cleared for the spool. If that fails, the session is refused with
    /// `SpoolFault`, and the store comes back, as it does if out of memory.
    pub fn open(
        alloc: Global,
        opening: Opening,
        store: S,
        block: usize,
        spool: u64,
    ) -> Result<Self, NotOpened<S>>
        requires least { least_block_limit ≤ block }
        requires most { block ≤ most_block }
        requires spool_least { spool ≢ 0 → block ≤ spool }
        ensures ok { IfOk result
            (λ s. StartsSession opening (block - block_header) spool (state_of (S.meaning store)) s) }
        ensures err { IfErr result
            (λ kept. StartRefused spool (S.meaning store) kept.why (S.meaning kept.store)) }
    {
        let Ok(packer) = start_packer(alloc, &opening, block) else {
            return Err(NotOpened {
                store,
                why: Refusal::Memory,
            });
        };
        if spool == 0 {
            return Ok(begin(opening, Some(store), None, packer));
        }
        match JobSpool::new(alloc, store, spool) {
            Ok(job) => Ok(begin(opening, None, Some(job), packer)),
            Err(kept) => Err(NotOpened {
                store: kept.store,
                why: refusal_of(kept.fault),
            }),
        }
    }

    /// What every session keeps, for the proofs of who holds one.
    pub fn know(&self)
        ensures { IsSessionView self.now }
    {
        let _status = self.status;
    }

    pub fn key(&self) -> SessionKey
        ensures { result ≡ self.now.key }
    {
        self.key
    }

    /// The lane by which it sends.
    pub fn lane(&self) -> LaneNo
        ensures { result ≡ self.now.lane }
    {
        self.lane
    }

    pub fn status(&self) -> Status
        ensures { result ≡ self.now.status }
    {
        self.status
    }

    /// How many records it took.
    pub fn records(&self) -> u64
        ensures { result ≡ self.now.count }
    {
        self.count
    }

    /// How many data bytes its records have.
    pub fn bytes(&self) -> u64
        ensures { result ≡ self.now.bytes }
    {
        self.bytes
    }

    /// The FileIndex of its last record, 0 if it has none.
    pub fn last(&self) -> u32
        ensures { result ≡ self.now.last }
    {
        self.last
    }

    /// How many of its bodies were sent.
    pub fn sent(&self) -> u64
        ensures { result ≡ self.now.sent }
    {
        self.sent
    }

    /// Whether it has a closed body that is not sent yet: one that waits, is in the spool or is ready.
    pub fn has_due(&self) -> bool
        ensures due { IsTrue result ↔ (due_of self.now ≢ []) }
        ensures none { result ≡ false → HasNoneDue self.now }
    {
        if self.ready.is_some() {
            return true;
        }
        if has_bodies(&self.spool) {
            return true;
        }
        self.packer.waiting() > 0
    }

    /// Adds a record to an active session, and says how many it has then. Its index is the last or the
    /// last plus one, and no closed body waits.
    pub fn append(&mut self, rec: &Rec) -> Result<u64, Refusal>
        ensures ok { IfOk result (λ n. TakesRecord self.old rec.now n self.new) }
        ensures why { IfErr result (λ why. AppendRefused self.old rec.now why) }
        ensures err { OnErr result (self.new ≡ self.old) }
    {
        self.active()?;
        let Some(totals) = self.totals_with(rec) else {
            return Err(Refusal::BadFileIndex);
        };
        if self.packer.waiting() > 0 {
            return Err(Refusal::Busy);
        }
        if let Err(AllocError) = self.packer.put(rec) {
            return Err(Refusal::Memory);
        }
        self.count = totals.records;
        self.bytes = totals.bytes;
        self.last = rec.index;
        Ok(totals.records)
    }

    // The counts with the record, if the session may take it.
    fn totals_with(&self, rec: &Rec) -> Option<Totals>
        ensures { MatchOption result
            (MayTake self.now.count self.now.bytes self.now.last rec.now → ⊥)
            (λ totals. MayTake self.now.count self.now.bytes self.now.last rec.now
            × (totals.records ≡ self.now.count + 1)
            × (totals.bytes ≡ self.now.bytes + length rec.now.bytes)) }
    {
        if rec.index != self.last && rec.index - 1 != self.last {
            return None;
        }
        Some(Totals {
            records: self.count.checked_add(1)?,
            bytes: self.bytes.checked_add(rec.bytes.len() as u64)?,
        })
    }

    /// Adds the end label to an active session, and closes its last body.
    pub fn end(&mut self, moment: i64) -> Result<(), Refusal>
        ensures ok { OnOk result (EndsSession self.old moment self.new) }
        ensures why { IfErr result (λ why. EndRefused self.old why) }
        ensures err { OnErr result (self.new ≡ self.old) }
    {
        self.active()?;
        let totals = Totals {
            records: self.count,
            bytes: self.bytes,
        };
        let label = end_label(self.job, &self.pool, &self.media, moment, totals);
        if let Err(AllocError) = self.packer.put_label(&label) {
            return Err(Refusal::Memory);
        }
        self.packer.finish();
        self.status = Status::Ended;
        Ok(())
    }

    /// Gives up a session that goes on: drops what it has not sent, body by body. Takes no memory.
    pub fn cancel(&mut self) -> Result<(), Refusal>
        ensures ok { OnOk result (CancelsSession self.old self.new) }
        ensures why { IfErr result (λ why. NotRunning self.old why) }
        ensures err { OnErr result (self.new ≡ self.old) }
    {
        self.running()?;
        drop_parts(
            &mut self.ready,
            &mut self.store,
            &mut self.spool,
            &mut self.packer,
        );
        self.despooling = false;
        self.status = Status::Cancelled;
        Ok(())
    }

    /// The session fails if it goes on, since a sync of its drive lost a block of it: what it has not sent is dropped.
    /// Takes no memory.
    pub fn fail(&mut self)
        ensures { FailsSession self.old self.new }
    {
        if self.running().is_err() {
            return;
        }
        drop_parts(
            &mut self.ready,
            &mut self.store,
            &mut self.spool,
            &mut self.packer,
        );
        self.despooling = false;
        self.status = Status::Failed;
    }

    /// A session that goes on no more is purged: a volume on which it has a block was. Any other stays as it is.
    pub fn purge(&mut self)
        ensures { PurgesSession self.old self.new }
    {
        if self.running().is_ok() {
            return;
        }
        self.status = Status::Purged;
    }

    /// Whether the session goes on, with its end label or without.
    pub fn running(&self) -> Result<(), Refusal>
        ensures ok { OnOk result (IsRunning self.now.status) }
        ensures why { IfErr result (λ why. NotRunning self.now why) }
    {
        match self.status {
            Status::Active | Status::Ended => Ok(()),
            Status::Closed | Status::Cancelled | Status::Failed | Status::Purged => {
                Err(refusal_for(self.status))
            }
        }
    }

    fn active(&self) -> Result<(), Refusal>
        ensures ok { OnOk result (self.now.status ≡ Status.Active) }
        ensures err { OnErr result (self.now.status ≢ Status.Active) }
        ensures why { IfErr result (λ why. why ≡ status_refusal self.now.status) }
    {
        match self.status {
            Status::Active => Ok(()),
            _ => Err(refusal_for(self.status)),
        }
    }

    /// One step of spooling: the body that has waited longest goes into the spool. If it would pass the limit, the
    /// session despools from then on, and nothing goes in until the spool is empty. A fault of the store fails the
    /// session: what it has not sent is dropped.
    pub fn spool_step(&mut self) -> Result<Spooling, Refusal>
        ensures ok { IfOk result (λ answer. Spools answer self.old self.new) }
        ensures err { IfErr result (λ why. SpoolRefused self.old why self.new) }
    {
        self.running()?;
        let Some(spool) = &mut self.spool else {
            return Ok(Spooling::NoSpool);
        };
        match put_waiting(spool, &mut self.packer, self.despooling) {
            Ok(answer) => {
                self.despooling = self.despooling || answer == Spooling::SpoolFull;
                Ok(answer)
            }
            Err(SpoolStoreFault::Memory) => Err(Refusal::Memory),
            Err(SpoolStoreFault::Device) => {
                drop_parts(
                    &mut self.ready,
                    &mut self.store,
                    &mut self.spool,
                    &mut self.packer,
                );
                self.despooling = false;
                self.status = Status::Failed;
                Err(Refusal::SpoolFault)
            }
        }
    }

    /// One step of sending, by the session's lane: the next body goes to the end of the queue before its drive. That is
    /// the ready one; else the oldest in the spool, or, if the session doesn't spool, the one that has waited longest.
    /// If the queue has no room, the body is ready from then on. A session that spools is due while it despools, and
    /// once it is ended and nothing waits. A fault of the store fails the session: what it has not sent is dropped.
    pub fn despool_step<L: Lane>(&mut self, lane: &mut L) -> Result<Despooled, Refusal>
        requires opens { L.opens lane.old self.old.lane }
        ensures ok { IfOk result (λ answer. Despools answer self.old
            (queue_view (λ other. L.sent lane.old other) (L.alone lane.old) (L.held lane.old)
            (L.capacity lane.old))
            self.new
            (queue_view (λ other. L.sent lane.new other) (L.alone lane.new) (L.held lane.new)
            (L.capacity lane.new))) }
        ensures err { IfErr result (λ why. DespoolRefused self.old why self.new) }
        ensures refused { OnErr result (lane.new ≡ lane.old) }
        ensures nothing { result ≡ Ok Despooled.Nothing → lane.new ≡ lane.old }
        ensures not_due { result ≡ Ok Despooled.NotDue → lane.new ≡ lane.old }
        ensures opens { (other : ℕ) → L.opens lane.old other → L.opens lane.new other }
        ensures alone { L.alone lane.new ≡ L.alone lane.old }
        ensures lanes { L.lanes lane.new ≡ L.lanes lane.old }
        ensures capacity { L.capacity lane.new ≡ L.capacity lane.old }
        ensures place { L.place lane.new ≡ L.place lane.old }
        ensures taken { L.taken lane.new ≡ L.taken lane.old }
        ensures was_full { result ≡ Ok Despooled.LaneFull → WasFull (L.lanes lane.old)
            (L.capacity lane.old) self.old.lane (L.sent lane.old self.old.lane) }
    {
        self.running()?;
        if !self.is_due() {
            return Ok(Despooled::NotDue);
        }
        let body = match take_next(&mut self.ready, &mut self.spool, &mut self.packer) {
            Ok(Some(body)) => body,
            Ok(None) => return Ok(Despooled::Nothing),
            Err(SpoolStoreFault::Memory) => return Err(Refusal::Memory),
            Err(SpoolStoreFault::Device) => {
                drop_parts(
                    &mut self.ready,
                    &mut self.store,
                    &mut self.spool,
                    &mut self.packer,
                );
                self.despooling = false;
                self.status = Status::Failed;
                return Err(Refusal::SpoolFault);
            }
        };
        let seq = self.sent + 1;
        let key = self.key;
        match lane.try_push(self.lane, Piece { key, seq, body }) {
            Ok(()) => {
                self.sent = seq;
                self.despooling = goes_on(&self.spool, self.despooling);
                Ok(Despooled::Sent)
            }
            Err(piece) => {
                self.ready = Some(piece.body);
                Ok(Despooled::LaneFull)
            }
        }
    }

    // Whether a despool step would send what there is.
    fn is_due(&self) -> bool
        ensures { IsTrue result ↔ IsDueToSend self.now }
    {
        self.spool.is_none()
            || self.despooling
            || (self.status == Status::Ended && self.packer.waiting() == 0)
    }

    /// Whether the session may be closed: it has its end label, all that it packed is sent and synced, and its drive
    /// didn't lose any of it.
    pub fn may_close(&self, progress: &Progress) -> Result<(), Refusal>
        ensures ok { OnOk result (MayClose self.now progress.now) }
        ensures why { IfErr result (λ why. CloseRefused self.now progress.now why) }
    {
        let Status::Ended = self.status else {
            return Err(refusal_for(self.status));
        };
        if progress.failed {
            return Err(Refusal::SessionFailed);
        }
        if self.has_due() || progress.synced != self.sent {
            return Err(Refusal::NotYet);
        }
        Ok(())
    }

    /// Closes a session, exactly if it may be closed. Takes no memory.
    pub fn close(&mut self, progress: &Progress) -> Result<(), Refusal>
        ensures ok { OnOk result (ClosesSession self.old progress.now self.new) }
        ensures why { IfErr result (λ why. CloseRefused self.old progress.now why) }
        ensures err { OnErr result (self.new ≡ self.old) }
    {
        self.may_close(progress)?;
        self.status = Status::Closed;
        self.packer.shrink();
        Ok(())
    }

    /// The lane's store, for the lane's next session, from a session that no longer goes on; none if it does, or has
    /// given it back already. All else of the session stays.
    pub fn give_back(&mut self) -> Option<S>
        ensures some { IfSome result (λ store. GivesBack self.old
            (state_of (S.meaning store)) self.new) }
        ensures none { IfNone result (KeepsStore self.old self.new) }
    {
        if self.running().is_ok() {
            return None;
        }
        let unused = self.store.take();
        match self.spool.take() {
            Some(job) => Some(job.into_store()),
            None => unused,
        }
    }
}

// A packer that has the start label of the session in its open body.
fn start_packer(alloc: Global, opening: &Opening, block: usize) -> Result<Packer, AllocError>
    requires least { least_block_limit ≤ block }
    requires most { block ≤ most_block }
    ensures room { IfOk result (λ p. p.room ≡ block - block_header) }
    ensures opens { IfOk result (λ p. HasOpen p) }
    ensures packs { IfOk result (λ p. Packs (block - block_header) (bodies_of p) [] Between) }
    ensures bytes { IfOk result
        (λ p. all_bytes (bodies_of p) ≡ session_label_bytes (start_label opening.now)) }
{
    let mut packer = Packer::new(alloc, block)?;
    packer.put_label(&SessionLabel {
        job: opening.job,
        pool: opening.pool.copy(),
        media: opening.media.copy(),
        moment: opening.moment,
        totals: None,
    })?;
    Ok(packer)
}

// A session that has taken nothing yet.
fn begin<S: SpoolStore>(
    opening: Opening,
    store: Option<S>,
    spool: Option<JobSpool<S>>,
    packer: Packer,
) -> Session<S>
    requires opens { HasOpen packer }
    requires whole { IsWhole spool }
    requires none_spooled { spooled_count spool ≡ 0 }
    requires room { 1000 ≤ packer.room }
    requires packs { Packs packer.room (bodies_of packer) [] Between }
    ensures { result ≡ record {
      key = opening.key;
      lane = opening.lane;
      job = opening.job;
      pool = opening.pool;
      media = opening.media;
      status = Status.Active;
      count = 0;
      bytes = 0;
      last = 0;
      sent = 0;
      ready = None;
      store = option_map (λ s. state_of (S.meaning s)) store;
      spool = spool;
      despooling = false;
      packer = packer;
    } }
{
    let Opening {
        key,
        lane,
        job,
        pool,
        media,
        moment: _,
    } = opening;
    Session {
        key,
        lane,
        job,
        pool,
        media,
        status: Status::Active,
        count: 0,
        bytes: 0,
        last: 0,
        sent: 0,
        ready: None,
        store,
        spool,
        despooling: false,
        packer,
    }
}

// Whether a body is in the spool; if there is none there is no body.
fn has_bodies<S: SpoolStore>(spool: &Option<JobSpool<S>>) -> bool
    ensures bodies { IsTrue result ↔ (spooled_in spool.now ≢ []) }
    ensures none { result ≡ false → spooled_count spool.now ≡ 0 }
{
    match spool {
        None => false,
        Some(spool) => !spool.is_empty(),
    }
}

// Whether despooling goes on with no ready piece: while bodies are in the spool.
fn goes_on<S: SpoolStore>(spool: &Option<JobSpool<S>>, despooling: bool) -> bool
    ensures { result ≡ goes_on spool.now despooling }
{
    match spool {
        None => false,
        Some(spool) if spool.is_empty() => false,
        Some(_) => despooling,
    }
}

// An end label with copies of these names.
fn end_label(
    job: JobId,
    pool: &PoolName,
    media: &MediaName,
    moment: i64,
    totals: Totals,
) -> SessionLabel
    ensures label { result ≡ record {
      job = job;
      pool = pool.now;
      media = media.now;
      moment = moment;
      totals = Some totals;
    } }
    ensures is_label { IsSessionLabel result }
{
    SessionLabel {
        job,
        pool: pool.copy(),
        media: media.copy(),
        moment,
        totals: Some(totals),
    }
}

// Why a session is refused that has this status.
fn refusal_for(status: Status) -> Refusal
    ensures { result ≡ status_refusal status }
{
    match status {
        Status::Active | Status::Ended | Status::Closed | Status::Purged => Refusal::SessionNotOpen,
        Status::Cancelled => Refusal::SessionCancelled,
        Status::Failed => Refusal::SessionFailed,
    }
}

// What a fault of the store is to whoever opens a session.
fn refusal_of(fault: SpoolStoreFault) -> Refusal
    ensures { result ≡ store_refusal fault }
{
    match fault {
        SpoolStoreFault::Device => Refusal::SpoolFault,
        SpoolStoreFault::Memory => Refusal::Memory,
    }
}
