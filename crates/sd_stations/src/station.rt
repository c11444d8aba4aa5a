// A drive with its line and its worker.
ghost use Rattle.std.specs.Prelude.{◌≡◌, ◌≢◌, ◌↔◌, List, [], IfErr, IfNone, IfOk, IfSome, IsTrue, Some};
ghost use Rattle.sd_line.specs.Goes.{GoesOn};
ghost use Rattle.sd_journal.specs.Journal.{Entry};
ghost use Rattle.sd_line.specs.Closes.{MayCloseBy};
ghost use Rattle.sd_line.specs.Operates.{MayOperate, Operates, operated_at};
ghost use Rattle.sd_line.specs.Parts.{OpensAt};
ghost use Rattle.sd_line.specs.Tells.{ShowsClose};
ghost use Rattle.sd_session.specs.declared.status.Status.TheVariants.{Ended};
ghost use Rattle.sd_stations.specs.Sends.{DueRefused};
ghost use Rattle.sd_machine.specs.declared.reply.Reply.TheVariants.{Refused};
ghost use Rattle.sd_base.specs.declared.refusal.Refusal.TheVariants.{BadCommand, DeviceFault};

use crate::closing::{Due, due_on};
use crate::meter::{Meter, Metered};
use crate::patience::Patience;
use crate::row::VolumeRow;
use crate::status::{DriveStatus, NextVolume, Reached};
use crate::watch::{Backlog, Headway, Moves, Task, Waited, Watch};
use sd_base::{PoolName, Refusal, SessionKey, VolName};
use sd_drive::{Drive, Placed};
use sd_driver::Driver;
use sd_line::{DriveSide, Gate, Line, Naming, Point, Prepared, SessionPart, Turned};
use sd_machine::{Event, Reply};
use sd_session::{Session, Status};
use sd_spool::SpoolStore;
use std::alloc::{AllocError, Global};
use std::marker::Model;
use std::sync::atomic::{AtomicU64, Ordering};
use std::sync::{Condvar, Mutex, Wait};
use std::time::{Clock, Duration, Instant};

// How long who waits for the drive's pool waits at once, in seconds. Then he looks again, whether he was woken or not.
const PIECE_SECONDS: u64 = 1;

/// A drive that threads share: its line, what its worker and the talks of its sessions tell one another, what is counted of
/// its work, and what others may know of it. In a contract it is the line, a `LineIs`.
///
/// Its locks: the line's, under which the drive is; the status's, which is taken with the line's held, and by whoever asks;
/// and the watch's, which nobody takes with one of the others held. Under the status's lock and the watch's no device is
/// called and no other lock taken; nobody waits under the line's or the status's, but at `settled`, which gives the latter back.
#[derive(Drop)]
pub struct Station<D: Driver, N: Naming, R: Wait + Drop> {
    alloc: Global,
    line: Line<D, N, R>,
    watch: Watch,
    meter: Meter,
    status: Mutex<DriveStatus>,
    // Where those wait who would mount a volume while a session of another pool is about to begin, or number such a session while
    // a volume is being mounted. They are woken when it has begun, and when that has ended.
    settled: Condvar,
    // How many sessions have a body to send, and wait for a volume that takes it.
    wishing: AtomicU64,
}

impl<D: Driver, N: Naming, R: Wait + Drop> Model for Station<D, N, R> {
    ghost use Rattle.sd_line.specs.Side.{LineIs};

    ghost Value = { LineIs };

    ghost view = { λ s. s.line };
}

/// What a worker did, as far as its daemon's desk has to know.
#[derive(Drop)]
pub enum Worked {
    /// It made a turn.
    Turned,
    /// The loaded volume takes no more, since it is full.
    Full(VolName),
    /// The loaded volume takes no more, since its device failed.
    Failed(VolName),
    /// It mounted this volume, which its drive needed.
    Mounted(VolName),
    /// This volume, which its drive needed, couldn't be loaded: it isn't there (3930), or the device failed (3940). It is
    /// passed over until an operator mounts it.
    LoadFailed { volume: VolName, why: Refusal },
    /// Its drive needs a volume of this pool, and has none.
    NeedsVolume(PoolName),
    /// Nobody needs a volume any more that it told was needed.
    NeedsNone,
    /// No talk comes any more, and all that can be placed is placed and synced.
    Left,
}

// A gate that holds nobody.
struct NoGate;

impl Gate for NoGate {
    fn at(&self, _point: Point, _key: SessionKey) {}
}

// Whether a reply tells of a change at the drive, in which a volume was loaded or none, that may matter to who waits for a
// volume.
fn is_change(was_loaded: bool, reply: &Reply) -> bool {
    match reply {
        Reply::Refused(refusal) => *refusal == Refusal::DeviceFault,
        Reply::Unmounted => was_loaded,
        Reply::Synced => false,
        _ => true,
    }
}

// Whether an event looks at the drive's pool, and mounts a volume.
fn is_mount(event: &Event) -> bool {
    matches!(event, Event::Mount { .. } | Event::Seek { .. })
}

// Notes an event's reply in what is published. The volume that was loaded, if the device failed with it.
fn failed_by<D: Driver>(
    status: &mut DriveStatus,
    drive: &Drive<D>,
    was_loaded: Option<usize>,
    reply: &Reply,
) -> Option<VolName> {
    match reply {
        Reply::Mounted { name } => {
            status.pass_over(name, false);
            None
        }
        Reply::Refused(Refusal::DeviceFault) => {
            status.look_for_failed(drive);
            status.has_failed(was_loaded)
        }
        _ => None,
    }
}

// Whether an event has the loaded volume synced, if blocks await that.
fn is_sync(event: &Event) -> bool {
    matches!(event, Event::Sync { .. } | Event::Unmount { .. })
}

// The state of a drive before a turn or an event of the operator.
#[derive(Clone, Copy)]
struct Before {
    // The place of the loaded volume.
    loaded: Option<usize>,
    // Whether blocks of it await a sync.
    awaits_sync: bool,
}

impl Before {
    fn of<D: Driver>(drive: &Drive<D>) -> Self {
        Before {
            loaded: drive.loaded(),
            awaits_sync: drive.awaits_sync(),
        }
    }
}

// Whether by an event with this reply a sync failed for which blocks waited, or may have failed: a mount whose device failed
// does not tell whether that was the sync or the load.
fn may_have_torn(was: Before, reply: &Reply) -> bool
    ensures { IsTrue result ↔ (IsTrue was.awaits_sync × (reply.now ≡ Refused DeviceFault)) }
{
    was.awaits_sync && matches!(reply, Reply::Refused(Refusal::DeviceFault))
}

// The name of the volume at this place of a drive.
fn name_at<D: Driver>(drive: &Drive<D>, place: Option<usize>) -> Option<VolName> {
    Some(drive.volumes().get(place?)?.name().copy())
}

// What came of a worker's turn, for the talks and for the desk.
#[derive(Drop)]
struct Came {
    headway: Headway,
    worked: Worked,
}

impl Came {
    fn turned(headway: Headway) -> Self {
        Came {
            headway,
            worked: Worked::Turned,
        }
    }
}

// Whether a volume can't be loaded for this cause: it isn't there, or the device failed.
fn is_load_fault(why: Refusal) -> bool {
    why == Refusal::VolumeNotOnShelf || why == Refusal::DeviceFault
}

// What a worker loads next.
#[derive(Drop)]
enum Next {
    Volume(NextVolume),
    Nothing,
    // A session of another pool is about to begin. So none goes on at the drive, and nobody needs a volume of the drive's pool.
    Unsettled,
}

// What came of an event.
#[derive(Drop)]
struct Operated {
    reply: Reply,
    is_change: bool,
    // The volume that was loaded, if the device failed with it.
    failed: Option<VolName>,
}

// What came of a turn in which the sync of the loaded volume failed.
fn failed_sync(place: &Result<Placed, AllocError>, loaded: Option<VolName>) -> Came {
    let headway = match place {
        Ok(Placed::NeedVolume) => Headway::Moved { holding: true },
        _ => Headway::AtRest,
    };
    Came {
        headway,
        worked: match loaded {
            Some(volume) => Worked::Failed(volume),
            None => Worked::Turned,
        },
    }
}

// What came of a turn in which the loaded volume became full.
fn came_full(loaded: Option<VolName>) -> Came {
    Came {
        headway: Headway::Moved { holding: true },
        worked: match loaded {
            Some(volume) => Worked::Full(volume),
            None => Worked::Turned,
        },
    }
}

// What came of a turn in which the device failed with the loaded volume.
fn came_failed(loaded: Option<VolName>) -> Came {
    Came {
        headway: Headway::Moved { holding: true },
        worked: match loaded {
            Some(volume) => Worked::Failed(volume),
            None => Worked::Turned,
        },
    }
}

impl<D: Driver, N: Naming, R: Wait + Clock + Drop> Station<D, N, R> {
    /// The station of a line of which nothing was pushed, and whose drive has no volume yet, or has those that `publish` is to
    /// publish. Takes no memory.
    pub fn new(alloc: Global, line: Line<D, N, R>) -> Self
        ensures { result ≡ line }
    {
        Station {
            alloc,
            line,
            watch: Watch::new(),
            meter: Meter::new(),
            status: Mutex::new(DriveStatus::new(alloc)),
            settled: Condvar::new(),
            wishing: AtomicU64::new(0),
        }
    }

    pub fn line(&self) -> &Line<D, N, R>
        ensures { result.now ≡ self.now }
    {
        &self.line
    }

    /// The line, for who has the station alone.
    pub fn into_line(self) -> Line<D, N, R>
        ensures { result ≡ self }
    {
        let Station {
            alloc: _,
            line,
            watch: _,
            meter: _,
            status: _,
            settled: _,
            wishing: _,
        } = self;
        line
    }

    pub(crate) fn alloc(&self) -> Global {
        self.alloc
    }

    /// Publishes the volumes that the drive was given before this station was made. Each was labelled or adopted, so the disk has
    /// all of it. Comes before all that changes the drive. If out of memory, none is published.
    pub fn publish(&self, rt: &R) -> Result<(), AllocError> {
        let mut side = self.line.lock();
        let side: &mut DriveSide<D, N> = &mut side;
        let mut status = self.status.lock(rt);
        let status: &mut DriveStatus = &mut status;
        status.publish(self.alloc, side.drive())
    }

    /// A session that was prepared begins: the drive notes it, with its lock held.
    pub fn begin<S: SpoolStore + Drop>(&self, rt: &R, prepared: Prepared<N, S>) -> SessionPart<N, S>
        requires { prepared.end.seat.no ≡ self.now.no }
        ensures { OpensAt prepared.limits prepared.opening prepared.end result }
    {
        let mut side = self.line.lock();
        let side: &mut DriveSide<D, N> = &mut side;
        self.note_begun(rt, &prepared);
        prepared.begin_on(side)
    }

    // Publishes a session that begins.
    fn note_begun<S: SpoolStore + Drop>(&self, rt: &R, prepared: &Prepared<N, S>) {
        let opening = prepared.opening();
        let settles = {
            let mut status = self.status.lock(rt);
            let status: &mut DriveStatus = &mut status;
            let was_settled = status.is_settled();
            status.begins(opening.key, opening.lane, &opening.pool);
            !was_settled && status.is_settled()
        };
        if settles {
            self.settled.notify_all();
        }
    }

    /// A session of this pool is to get its number, for who has the desk's lock. From then on no volume is mounted for another
    /// pool, until the session has begun, or `was_numbered` takes that back. The answer is no while one is being mounted.
    pub fn numbers(&self, rt: &R, pool: &PoolName) -> bool {
        self.status.lock(rt).numbers(pool)
    }

    /// The session that got its number last is of this pool, for who has the desk's lock.
    pub fn was_numbered(&self, rt: &R, pool: Option<PoolName>) {
        self.status.lock(rt).was_numbered(pool);
        self.settled.notify_all();
    }

    /// Waits until no volume is being mounted, and no longer than a second.
    pub fn wait_for_mount(&self, rt: &R) {
        let piece = Duration::from_secs(PIECE_SECONDS);
        let _ = self.settled.wait_timeout_while(
            rt,
            self.status.lock(rt),
            piece,
            |status| status.is_mounting(),
        );
    }

    // Waits until each session that has a number has begun, if its pool is another than that of those before, and no longer than a
    // second. No lock is held meanwhile. It takes no longer than others hold the drive's lock: a session that has its number waits
    // for nothing else, can't be refused any more, and no other of another pool gets one before it has begun and is over.
    fn wait_to_settle(&self, rt: &R) {
        let piece = Duration::from_secs(PIECE_SECONDS);
        let _ = self.settled.wait_timeout_while(
            rt,
            self.status.lock(rt),
            piece,
            |status| !status.is_settled(),
        );
    }

    /// Waits until the worker has something to do, and does it.
    pub fn work(&self, rt: &R) -> Worked {
        match self.watch.next_task(rt) {
            Task::Turn { is_wished } => self.turn(rt, is_wished),
            Task::Tell(volume) => Worked::Failed(volume),
            Task::Leave => Worked::Left,
        }
    }

    // A turn; and if the drive needs a volume, or somebody wishes for one, it seeks one. The drive's lock is held once.
    fn turn(&self, rt: &R, is_wished: bool) -> Worked {
        let (took, came) = {
            let mut side = self.line.lock();
            let side: &mut DriveSide<D, N> = &mut side;
            self.turn_on(rt, side, is_wished)
        };
        let Came { headway, worked } = came;
        self.watch.turned(rt, took, headway);
        worked
    }

    // A turn with the drive's lock held. Whether a piece was taken, and what came of it.
    fn turn_on(&self, rt: &R, side: &mut DriveSide<D, N>, is_wished: bool) -> (bool, Came)
        requires { side.old.no ≡ self.now.no }
    {
        let was = Before::of(side.drive());
        let begun = Instant::now(rt).ok();
        let turned = side.turn_on(self.line.queue(), &NoGate);
        self.meter.turned(rt, begun, was.awaits_sync, &turned);
        self.publish_turn(rt, side.drive(), was.loaded, &turned);
        let Turned { took, place, sync } = turned;
        if let Some(Err(_)) = sync {
            return (took, failed_sync(&place, name_at(side.drive(), was.loaded)));
        }
        let came = match place {
            Ok(Placed::Idle) if is_wished && self.has_wishes() => self.seek(rt, side, false),
            Ok(Placed::Idle) => self.rest_at(rt),
            Ok(Placed::At(_)) => Came::turned(Headway::Moved { holding: false }),
            Ok(Placed::VolumeFull) => came_full(name_at(side.drive(), was.loaded)),
            Ok(Placed::VolumeError) => came_failed(name_at(side.drive(), was.loaded)),
            // The loaded volume is synced before another is sought.
            Ok(Placed::NeedVolume) => self.seek(rt, side, true),
            // Out of memory; there may be some once somebody else has given some back.
            Err(_) => Came::turned(Headway::Halted { holding: true }),
        };
        (took, came)
    }

    // Whether a session waits for a volume that takes a body of it.
    fn has_wishes(&self) -> bool {
        self.wishing.load(Ordering::SeqCst) > 0
    }

    // Publishes what came of a turn, before which the volume at this place was loaded.
    fn publish_turn(&self, rt: &R, drive: &Drive<D>, was_loaded: Option<usize>, turned: &Turned) {
        let mut status = self.status.lock(rt);
        let status: &mut DriveStatus = &mut status;
        if let Ok(Placed::At(placement)) = &turned.place {
            status.placed(placement.key);
        }
        let has_failed = matches!(turned.sync, Some(Err(_)));
        status.look(drive, was_loaded, has_failed);
        if has_failed {
            status.look_for_failed(drive);
        }
    }

    // The drive is at rest. If it told that it needs a volume, and nobody wishes for one any more, it needs none.
    fn rest_at(&self, rt: &R) -> Came {
        let mut status = self.status.lock(rt);
        let needs_none = status.is_waiting() && !self.has_wishes();
        if needs_none {
            status.rests();
        }
        Came {
            headway: Headway::AtRest,
            worked: if needs_none {
                Worked::NeedsNone
            } else {
                Worked::Turned
            },
        }
    }

    // Seeks a volume for the piece in the drive's hand, or for a session that has a body to send. If one is passed over, the
    // next is mounted.
    fn seek(&self, rt: &R, side: &mut DriveSide<D, N>, holding: bool) -> Came
        requires { side.old.no ≡ self.now.no }
    {
        let Some(pool) = side.drive().wanted_pool() else {
            return Came::turned(Headway::Halted { holding });
        };
        match self.next_volume(rt, &pool) {
            Next::Volume(next) => self.load(rt, side, holding, next),
            Next::Nothing => Came {
                headway: Headway::Halted { holding },
                worked: Worked::NeedsVolume(pool),
            },
            Next::Unsettled => Came::turned(Headway::Halted { holding }),
        }
    }

    // The volume that is loaded next for this pool, which is being mounted from then on. If there is none, that is published.
    fn next_volume(&self, rt: &R, pool: &PoolName) -> Next {
        let mut status = self.status.lock(rt);
        let status: &mut DriveStatus = &mut status;
        let Some(next) = status.next(pool) else {
            status.waits();
            return Next::Nothing;
        };
        if status.mounts() {
            Next::Volume(next)
        } else {
            Next::Unsettled
        }
    }

    // Loads that volume.
    fn load(&self, rt: &R, side: &mut DriveSide<D, N>, holding: bool, next: NextVolume) -> Came
        requires { side.old.no ≡ self.now.no }
    {
        let drive = self.line.no();
        let NextVolume { name, is_sought } = next;
        let event = if is_sought {
            Event::Seek { drive }
        } else {
            Event::Mount {
                drive,
                name: name.copy(),
            }
        };
        let operated = self.operate_on(rt, side, event);
        match operated.reply {
            Reply::Mounted { .. } => Came {
                headway: Headway::Mounted { holding },
                worked: Worked::Mounted(name),
            },
            // Nothing awaited a sync, so a fault of the device was the load's.
            Reply::Refused(why) if is_load_fault(why) => self.pass_over(rt, holding, name, why),
            // Out of memory.
            _ => Came::turned(Headway::Halted { holding }),
        }
    }

    // The worker passes a volume over from now on, and looks for another.
    fn pass_over(&self, rt: &R, holding: bool, volume: VolName, why: Refusal) -> Came {
        self.status.lock(rt).pass_over(&volume, true);
        Came {
            headway: Headway::Moved { holding },
            worked: Worked::LoadFailed { volume, why },
        }
    }

    /// Answers an event of the operator at the drive, as `Line::operate`; the worker and the talks are told of it. For a label
    /// or an adoption there is room in what is published, or it is refused with 3960, after all that is looked at without the
    /// device. A mount waits first until each session that has its number has begun, if that changes the drive's pool.
    pub fn operate(&self, rt: &R, event: Event) -> Reply
        ensures answers { MayOperate (λ d. D.meaning d) self.now.no event result }
        ensures elsewhere { operated_at event ≢ Some self.now.no → result ≡ Refused BadCommand }
    {
        let mut event = event;
        for _look in rt.forever() {
            match self.try_operate(rt, event) {
                Ok(operated) => {
                    self.tell_operated(rt, &operated);
                    return operated.reply;
                }
                Err(waits) => event = waits,
            }
            self.wait_to_settle(rt);
        }
        unreachable!()
    }

    // Answers an event, unless it is a mount, and a session is about to begin that changes the drive's pool.
    fn try_operate(&self, rt: &R, event: Event) -> Result<Operated, Event>
        ensures answers { IfOk result (λ operated.
            MayOperate (λ d. D.meaning d) self.now.no event operated.reply) }
        ensures elsewhere { IfOk result (λ operated. operated_at event ≢ Some self.now.no
            → operated.reply ≡ Refused BadCommand) }
        ensures back { IfErr result (λ back. back ≡ event) }
    {
        let mut side = self.line.lock();
        let side: &mut DriveSide<D, N> = &mut side;
        if is_mount(&event) && !self.status.lock(rt).mounts() {
            return Err(event);
        }
        Ok(self.operate_on(rt, side, event))
    }

    // Tells the worker and the talks of an event.
    fn tell_operated(&self, rt: &R, operated: &Operated) {
        self.watch
            .operated(rt, operated.is_change, self.has_wishes());
        if let Some(volume) = &operated.failed {
            self.watch.failed(rt, volume.copy());
        }
    }

    // Answers an event, with the drive's lock held, and publishes what came of it.
    fn operate_on(&self, rt: &R, side: &mut DriveSide<D, N>, event: Event) -> Operated
        ensures no { side.new.no ≡ side.old.no }
        ensures operates { Operates (λ d. D.meaning d) side.old.no event result.reply
            side.old.drive side.new.drive }
    {
        if !self.has_room(rt, &event) {
            if let Some(reply) = side.refusal_without_room(&event) {
                return Operated {
                    reply,
                    is_change: false,
                    failed: None,
                };
            }
        }
        let was = Before::of(side.drive());
        let syncs = was.awaits_sync && is_sync(&event);
        let begun = Instant::now(rt).ok();
        let reply = side.operate_on(event);
        self.meter.synced(rt, begun, syncs);
        let failed = self.publish_event(rt, side.drive(), was, &reply);
        Operated {
            is_change: is_change(was.loaded.is_some(), &reply),
            reply,
            failed,
        }
    }

    // Whether there is room for the volume that the event may bring.
    fn has_room(&self, rt: &R, event: &Event) -> bool {
        match event {
            Event::Label { .. } | Event::Adopt { .. } => {
                self.status.lock(rt).make_room().is_ok()
            }
            _ => true,
        }
    }

    // Publishes what came of an event, before which the drive was so. The volume that was loaded, if the device failed with it.
    fn publish_event(
        &self,
        rt: &R,
        drive: &Drive<D>,
        was: Before,
        reply: &Reply,
    ) -> Option<VolName> {
        let (has_mounted, failed) = {
            let mut status = self.status.lock(rt);
            let status: &mut DriveStatus = &mut status;
            status.look(drive, was.loaded, may_have_torn(was, reply));
            (
                status.ends_mount(),
                failed_by(status, drive, was.loaded, reply),
            )
        };
        if has_mounted {
            self.settled.notify_all();
        }
        failed
    }

    /// The receipt by which a close of the session is due, and what shows that it was told; none if something of it is
    /// outstanding. If blocks of an ended session await a sync, and all that it sent is placed, the drive is synced first. The
    /// drive's lock is held once.
    pub(crate) fn receipt<S: SpoolStore + Drop>(
        &self,
        rt: &R,
        part: &mut SessionPart<N, S>,
    ) -> Result<Option<Due<D, N>>, Refusal>
        requires { part.old.seat.no ≡ self.now.no }
        ensures goes_on { GoesOn part.old [] part.new }
        ensures ok { IfOk result (λ due. IfSome due (λ d. (part.new ≡ part.old)
            × (journal : List Entry) × MayCloseBy journal part.old.session d.receipt)) }
        ensures shown { IfOk result (λ due. IfSome due
            (λ d. ShowsClose d.token part.old.seat.no part.old.seat.seat.sent d.receipt)) }
        ensures none { IfOk result (λ due. IfNone due ((part.old.session.status ≡ Ended)
            × (part.new ≡ part.old))) }
        ensures err { IfErr result (λ why. DueRefused part.old.session why part.new.session) }
    {
        let (answer, synced) = {
            let mut side = self.line.lock();
            let side: &mut DriveSide<D, N> = &mut side;
            let synced = self.sync_for(rt, side, part.session());
            (due_on(&self.line, side, part), synced)
        };
        if let Some(operated) = synced {
            if operated.is_change {
                self.tell_operated(rt, &operated);
            }
        }
        answer
    }

    // Syncs the drive, if all that the session sent is placed and some of it awaits that.
    fn sync_for<S: SpoolStore + Drop>(
        &self,
        rt: &R,
        side: &mut DriveSide<D, N>,
        session: &Session<S>,
    ) -> Option<Operated>
        ensures { side.new.no ≡ side.old.no }
    {
        let progress = side.drive().progress(session.key());
        let is_placed = progress.placed == session.sent() && session.status() == Status::Ended;
        if !is_placed || progress.failed || progress.synced == progress.placed {
            return None;
        }
        let drive = side.no();
        Some(self.operate_on(rt, side, Event::Sync { drive }))
    }

    /// Whether a close of the session needs the drive: all that it sent is placed, or a block of it was lost.
    pub(crate) fn is_close_due(&self, rt: &R, key: SessionKey, sent: u64) -> bool {
        match self.reached(rt, key) {
            Some(reached) => reached.placed >= sent || reached.has_failed,
            None => true,
        }
    }

    // How far the blocks of a session are.
    fn reached(&self, rt: &R, key: SessionKey) -> Option<Reached> {
        self.status.lock(rt).reached(key)
    }

    /// Whether the drive has placed so many pieces of a session. Of one that sent nothing it has; of one after which another
    /// began at the same lane it isn't known any more, and the answer is no. Takes no drive's lock.
    pub fn has_placed(&self, rt: &R, key: SessionKey, sent: u64) -> bool {
        if sent == 0 {
            return true;
        }
        match self.reached(rt, key) {
            Some(reached) => reached.placed >= sent,
            None => false,
        }
    }

    /// The drive's volumes, in its order. Takes no drive's lock.
    pub fn rows(&self, rt: &R, alloc: Global) -> Result<Vec<VolumeRow>, AllocError> {
        self.status.lock(rt).rows(alloc)
    }

    /// The drive's volumes, and which of them is loaded, as both are at one moment. Takes no drive's lock.
    pub fn volumes(
        &self,
        rt: &R,
        alloc: Global,
    ) -> Result<(Vec<VolumeRow>, Option<VolumeRow>), AllocError> {
        let status = self.status.lock(rt);
        let rows = status.rows(alloc)?;
        Ok((rows, status.loaded()))
    }

    /// The volume that is loaded in the drive. Takes no drive's lock.
    pub fn loaded(&self, rt: &R) -> Option<VolumeRow> {
        self.status.lock(rt).loaded()
    }

    /// Whether the worker found no volume that takes blocks of the drive's pool and none came since, while somebody needs
    /// one. Takes no drive's lock.
    pub fn is_waiting(&self, rt: &R) -> bool {
        self.status.lock(rt).is_waiting()
    }

    /// Whether what is in the drive's hand can't be placed until something is done at the drive. Takes no drive's lock.
    pub fn is_stuck(&self, rt: &R) -> bool {
        self.watch.is_stuck(rt)
    }

    /// Whether a volume takes blocks of the drive's pool that the worker doesn't pass over. Takes no drive's lock.
    pub(crate) fn has_volume(&self, rt: &R) -> bool {
        self.status.lock(rt).takes_own()
    }

    /// Counts one session more that waits for a volume, or one less.
    pub(crate) fn wishes(&self, waits: bool) {
        if waits {
            self.wishing.fetch_add(1, Ordering::SeqCst);
        } else {
            self.wishing.fetch_sub(1, Ordering::SeqCst);
        }
    }

    /// Has the worker seek a volume, unless something has moved since, and waits as `wait` does.
    pub(crate) fn want_volume(&self, rt: &R, since: Moves) -> Waited {
        self.watch.want_volume(rt, since)
    }

    /// What the drive has done so far. Takes no lock.
    pub fn metered(&self) -> Metered {
        self.meter.metered()
    }

    /// What is on its way to the drive's volumes.
    pub fn backlog(&self, rt: &R) -> Backlog {
        self.watch.backlog(rt)
    }

    /// Waits until the drive has tried all that it has, and no longer than a second.
    pub fn wait_for_rest(&self, rt: &R) {
        self.watch.wait_for_rest(rt);
    }

    /// Tells the worker that a piece was pushed.
    pub fn pushed(&self, rt: &R) {
        self.watch.pushed(rt);
    }

    /// Asks that what was placed is synced once nothing is queued.
    pub fn rest(&self, rt: &R) {
        self.watch.rest(rt);
    }

    /// Tells the worker that no talk comes any more.
    pub fn close(&self, rt: &R) {
        self.watch.close(rt);
    }

    /// How often something has moved at the drive, for a wait.
    pub fn moves(&self, rt: &R) -> Moves {
        self.watch.moves(rt)
    }

    /// Waits until something has moved since, or the drive can't place what it has in its hand.
    pub fn wait(&self, rt: &R, since: Moves) -> Waited {
        self.watch.wait(rt, since)
    }

    /// As `wait`, for who found the queue full; while pieces are placed it ends once half of the queue is free.
    pub fn wait_for_room(&self, rt: &R, since: Moves) -> Waited {
        self.watch.wait_for_room(rt, since)
    }

    /// Waits until something has moved since, or until the patience ends. Whether something has moved.
    pub fn wait_for_change<P: Patience>(&self, rt: &R, since: Moves, patience: &P) -> bool {
        self.watch.wait_for_change(rt, since, patience)
    }
}
