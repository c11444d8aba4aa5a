// What the worker of a drive and the talks of its sessions tell one another, so that none of them has to look again and
// again whether something moved.
use crate::patience::Patience;
use sd_base::VolName;
use std::sync::{Condvar, Mutex, MutexGuard, Wait};
use std::time::{Clock, Duration};

/// How long a talk waits at once, in seconds. Then it tries again, whether something moved or not.
const PIECE_SECONDS: u64 = 1;

// A worker whose queue was empty begins once it has so many pieces, or after so long, or once somebody waits for it: to be
// woken for each piece costs more than to take some at once.
const GATHERED: u64 = 4;

const GATHER_MICROS: u64 = 200;

/// How often something had moved at a drive when that was asked.
#[derive(Clone, Copy, Debug, PartialEq, Eq)]
pub struct Moves(u64);

/// What is on its way to the volumes of a drive, by what its worker and the talks told.
#[derive(Clone, Copy, Debug, PartialEq, Eq)]
pub struct Backlog {
    /// How many pieces lie in the queue.
    pub queued: u64,
    /// Whether a piece is in the drive's hand.
    pub holding: bool,
}

impl Backlog {
    /// Whether nothing is on its way.
    pub fn is_empty(&self) -> bool {
        self.queued == 0 && !self.holding
    }
}

/// What a talk waited for.
#[derive(Clone, Copy, Debug, PartialEq, Eq)]
pub enum Waited {
    /// Something moved at the drive, or may have: what was refused may be tried again.
    Moved,
    /// The drive tried since, and can't place what is in its hand.
    Halted,
}

/// What a worker has to do.
#[derive(Drop)]
pub(crate) enum Task {
    /// A turn of its drive; and a volume is sought, if somebody wishes for one and nothing is in the drive's hand.
    Turn { is_wished: bool },
    /// To tell that the device failed with this volume, while somebody else synced it.
    Tell(VolName),
    /// Nothing more: no talk comes, and all that can be placed is placed and synced.
    Leave,
}

/// What came of a worker's turn.
#[derive(Clone, Copy, Debug, PartialEq, Eq)]
pub(crate) enum Headway {
    /// A piece was placed, or a volume is full or failed, or couldn't be loaded. Whether a piece is in the hand.
    Moved { holding: bool },
    /// A volume was mounted.
    Mounted { holding: bool },
    /// Nothing is in the hand, nothing was queued, and all that was placed is synced.
    AtRest,
    /// What is in the hand can't be placed now; or nothing is, and there is no volume for who wishes for one.
    Halted { holding: bool },
}

// The state of a drive, by what its worker and the talks told.
#[derive(Drop)]
struct Standing {
    // How many pieces were pushed, and how many were taken. One may be taken before its push is told.
    pushed: u64,
    taken: u64,
    // Whether a piece is in the drive's hand.
    holding: bool,
    // Whether it can't be placed until something is done at the drive.
    halted: bool,
    // Whether what was placed is to be synced once the queue is empty.
    rests: bool,
    // Whether somebody wishes for a volume, until the worker seeks one.
    wished: bool,
    // Whether no talk comes any more.
    closing: bool,
    // The volume that failed while it was synced for somebody else, until the worker tells of it.
    failed: Option<VolName>,
    // Whether somebody has waited since the queue was empty.
    awaited: bool,
    // How many pieces are to be taken before talks that wait for room in the queue are woken.
    held_back: u64,
    // How often something moved, and how often the drive halted.
    moves: u64,
    halts: u64,
}

impl Standing {
    fn queued(&self) -> u64 {
        self.pushed.saturating_sub(self.taken)
    }

    fn is_turn_due(&self) -> bool {
        !self.halted && (self.pushed > self.taken || self.holding || self.rests)
    }

    // Whether the worker has something to try.
    fn is_busy(&self) -> bool {
        self.wished || self.is_turn_due()
    }

    fn has_task(&self) -> bool {
        self.closing || self.failed.is_some() || self.is_busy()
    }

    // Whether all that is due are a few pieces, for which nobody waits.
    fn is_gathering(&self) -> bool {
        let is_urged = self.closing
            || self.failed.is_some()
            || self.awaited
            || self.rests
            || self.wished;
        !is_urged && !self.holding && self.queued() < GATHERED
    }

    fn moved(&mut self) {
        self.halted = false;
        self.moves = self.moves.wrapping_add(1);
    }

    // Notes what came of a turn, in which a piece was taken or none. Whether talks that wait for room are to be woken: while
    // pieces are placed, once a part of the queue is free, so that each of them can push several.
    fn turned(&mut self, took: bool, headway: Headway) -> bool {
        if took {
            self.taken = self.taken.wrapping_add(1);
            self.held_back = self.held_back.saturating_sub(1);
        }
        if self.queued() == 0 {
            self.awaited = false;
        }
        match headway {
            Headway::Moved { holding } => {
                self.holding = holding;
                self.moved();
                self.held_back == 0
            }
            // With nothing to place, one turn more is due: by then the desk knows of the volume.
            Headway::Mounted { holding } => {
                self.holding = holding;
                self.rests = self.rests || !holding;
                self.moved();
                true
            }
            Headway::AtRest => {
                self.holding = false;
                self.rests = false;
                self.moved();
                true
            }
            Headway::Halted { holding } => {
                self.holding = holding;
                self.halted = holding;
                self.rests = self.rests && holding;
                self.halts = self.halts.wrapping_add(1);
                // The queue has room for one piece more than before.
                if took {
                    self.moves = self.moves.wrapping_add(1);
                }
                true
            }
        }
    }
}

/// The standing of a drive under a lock of its own, and who waits for a change of it.
#[derive(Drop)]
pub(crate) struct Watch {
    standing: Mutex<Standing>,
    // The worker waits here for a task, talks here for room in the queue, and here for anything that moves.
    due: Condvar,
    room: Condvar,
    changed: Condvar,
}

impl Watch {
    /// Nothing is queued, and nothing in the drive's hand.
    pub(crate) fn new() -> Self {
        let standing = Standing {
            pushed: 0,
            taken: 0,
            holding: false,
            halted: false,
            rests: false,
            wished: false,
            closing: false,
            failed: None,
            awaited: false,
            held_back: 0,
            moves: 0,
            halts: 0,
        };
        Watch {
            standing: Mutex::new(standing),
            due: Condvar::new(),
            room: Condvar::new(),
            changed: Condvar::new(),
        }
    }

    /// Waits until the worker has something to do.
    pub(crate) fn next_task<R: Wait + Clock>(&self, rt: &R) -> Task {
        let standing = self.due.wait_while(
            rt,
            self.standing.lock(rt),
            |standing| !standing.has_task(),
        );
        let time = Duration::from_micros(GATHER_MICROS);
        let (mut standing, _) = self
            .due
            .wait_timeout_while(rt, standing, time, |standing| standing.is_gathering());
        let standing = &mut *standing;
        if let Some(volume) = standing.failed.take() {
            return Task::Tell(volume);
        }
        let is_wished = standing.wished;
        standing.wished = false;
        if is_wished || standing.is_turn_due() {
            Task::Turn { is_wished }
        } else {
            Task::Leave
        }
    }

    /// Has the worker tell that the device failed with this volume.
    pub(crate) fn failed<R: Wait>(&self, rt: &R, volume: VolName) {
        let mut standing = self.standing.lock(rt);
        standing.failed = Some(volume);
        self.due.notify_one();
    }

    /// Tells what came of a turn, in which a piece was taken or none.
    pub(crate) fn turned<R: Wait>(&self, rt: &R, took: bool, headway: Headway) {
        let has_room = self.standing.lock(rt).turned(took, headway);
        // Who is woken finds the lock free.
        self.changed.notify_all();
        if has_room {
            self.room.notify_all();
        }
    }

    /// Tells that a piece was pushed.
    pub(crate) fn pushed<R: Wait>(&self, rt: &R) {
        if self.note_pushed(rt) {
            self.due.notify_one();
        }
    }

    // Whether the worker is to be woken for a piece that was pushed: by the first, so that it waits for more no longer than it
    // may, and once it waits for no more.
    fn note_pushed<R: Wait>(&self, rt: &R) -> bool {
        let mut standing = self.standing.lock(rt);
        standing.pushed = standing.pushed.wrapping_add(1);
        standing.queued() <= 1 || !standing.is_gathering()
    }

    /// Tells that the operator did something at the drive, so that what could not be placed may be placed now. If
    /// nothing changed by it, who waits goes on waiting. If it did, a volume is sought for the sessions that wish for one.
    pub(crate) fn operated<R: Wait>(&self, rt: &R, is_change: bool, has_wishes: bool) {
        let mut standing = self.standing.lock(rt);
        let standing = &mut *standing;
        standing.halted = false;
        if is_change {
            standing.wished = standing.wished || has_wishes;
            standing.moved();
        }
        self.due.notify_one();
        self.room.notify_all();
        self.changed.notify_all();
    }

    /// What is on its way.
    pub(crate) fn backlog<R: Wait>(&self, rt: &R) -> Backlog {
        let standing = self.standing.lock(rt);
        Backlog {
            queued: standing.queued(),
            holding: standing.holding,
        }
    }

    /// Whether what is in the drive's hand can't be placed until something is done at the drive.
    pub(crate) fn is_stuck<R: Wait>(&self, rt: &R) -> bool {
        self.standing.lock(rt).halted
    }

    /// Asks that what was placed is synced once the queue is empty.
    pub(crate) fn rest<R: Wait>(&self, rt: &R) {
        let mut standing = self.standing.lock(rt);
        standing.rests = true;
        self.due.notify_one();
    }

    /// Tells that no talk comes any more. What could not be placed is tried once more.
    pub(crate) fn close<R: Wait>(&self, rt: &R) {
        let mut standing = self.standing.lock(rt);
        let standing = &mut *standing;
        standing.closing = true;
        standing.rests = true;
        standing.halted = false;
        self.due.notify_one();
    }

    /// Waits until no turn is due, and no longer than a piece of time.
    pub(crate) fn wait_for_rest<R: Wait + Clock>(&self, rt: &R) {
        let piece = Duration::from_secs(PIECE_SECONDS);
        let _ = self
            .changed
            .wait_timeout_while(rt, self.standing.lock(rt), piece, |standing| {
                standing.is_busy()
            });
    }

    /// How often something has moved.
    pub(crate) fn moves<R: Wait>(&self, rt: &R) -> Moves {
        Moves(self.standing.lock(rt).moves)
    }

    /// Waits until something has moved since. If the drive halted before, it is told to try once more; if it halts again
    /// before anything moves, that is the answer.
    pub(crate) fn wait<R: Wait + Clock>(&self, rt: &R, since: Moves) -> Waited {
        let standing = self.standing.lock(rt);
        self.wait_at(rt, &self.changed, standing, since)
    }

    /// As `wait`, for a talk that found the queue full. While pieces are placed it is woken once half of the queue is free.
    pub(crate) fn wait_for_room<R: Wait + Clock>(&self, rt: &R, since: Moves) -> Waited {
        let mut standing = self.standing.lock(rt);
        if standing.held_back == 0 {
            standing.held_back = standing.queued() / 2;
        }
        self.wait_at(rt, &self.room, standing, since)
    }

    /// Has the worker seek a volume for a talk that has a body to send, and waits as `wait` does. Nothing is asked if
    /// something has moved since: it may have been a volume that came.
    pub(crate) fn want_volume<R: Wait + Clock>(&self, rt: &R, since: Moves) -> Waited {
        let mut standing = self.standing.lock(rt);
        if standing.moves == since.0 {
            standing.wished = true;
        }
        self.wait_at(rt, &self.changed, standing, since)
    }

    // Waits there until something has moved since.
    fn wait_at<R: Wait + Clock>(
        &self,
        rt: &R,
        place: &Condvar,
        standing: MutexGuard<'_, Standing>,
        since: Moves,
    ) -> Waited {
        let mut standing = standing;
        let halts = try_again(&mut standing, &self.due);
        let piece = Duration::from_secs(PIECE_SECONDS);
        let (standing, _) = place.wait_timeout_while(rt, standing, piece, |standing| {
            standing.moves == since.0 && standing.halts == halts
        });
        if standing.moves == since.0 && standing.halts != halts {
            Waited::Halted
        } else {
            Waited::Moved
        }
    }

    /// Waits until something has moved since, whether the drive halts or not, or until the patience ends, which is asked in
    /// each second. Whether something has moved.
    pub(crate) fn wait_for_change<R: Wait + Clock, P: Patience>(
        &self,
        rt: &R,
        since: Moves,
        patience: &P,
    ) -> bool {
        for pieces in 0..u64::MAX {
            let waited = Duration::from_secs(pieces.saturating_mul(PIECE_SECONDS));
            if !patience.lasts(waited) {
                return false;
            }
            if self.moves_within(rt, since) {
                return true;
            }
        }
        false
    }

    // Waits a piece of time at most until something has moved since. Whether something has.
    fn moves_within<R: Wait + Clock>(&self, rt: &R, since: Moves) -> bool {
        let standing = self.standing.lock(rt);
        let piece = Duration::from_secs(PIECE_SECONDS);
        let (standing, _) = self
            .changed
            .wait_timeout_while(rt, standing, piece, |standing| standing.moves == since.0);
        standing.moves != since.0
    }
}

// Tells the worker that somebody waits, and has a drive that halted try once more. How often it has halted so far.
fn try_again(standing: &mut Standing, due: &Condvar) -> u64 {
    standing.awaited = true;
    standing.halted = false;
    if standing.has_task() {
        due.notify_one();
    }
    standing.halts
}
