// A world.
ghost use Rattle.std.specs.Prelude.{◌≡◌, ◌≤◌, length, IfOk, IfErr, OnErr};
ghost use Rattle.std.specs.List.{AllZip};
ghost use Rattle.sd_base.specs.Limits.{most_number};
ghost use Rattle.sd_machine.specs.Machine.{empty_machine};
ghost use Rattle.sd_events.specs.Noted.{IsTrueAt};
ghost use Rattle.sd_machine.specs.declared.event.Event.TheVariants.{Adopt, Append};
ghost use Rattle.sd_world.specs.Matches.{Matches};
ghost use Rattle.sd_world.specs.Deeds.{IsRead};
ghost use Rattle.sd_world.specs.Rules.{IsWorld};
ghost use Rattle.sd_world.specs.Steps.{IsSound, IsStep, StepsAlong};
ghost use Rattle.sd_events.specs.View.{world_of};
ghost use Rattle.sd_core.specs.Conf.{IsConf, AreQueues, AreStores, limits_of};
ghost use Rattle.sd_core.specs.Fresh.{IsFresh, StaysDevice};
ghost use Rattle.sd_core.specs.View.{status_at, devices_of, running_tickets, view_of};

use crate::conf::{NotMade, WorldConf};
use crate::drivers::take_devices;
use crate::events::{answer_append, answer_event, answer_noted};
use crate::kept::know_drives;
use crate::listing::list_running;
use crate::new_bays::fill_bays;
use crate::reading::read_knowing;
use crate::status::{show_drives, show_sessions, show_volumes};
use sd_base::{DriveNo, Rec, Refusal, SessionKey, Ticket, VolName};
use sd_desk::{Desk, Request};
use sd_drive::Limits;
use sd_driver::Driver;
use sd_events::{Parts, find};
use sd_lane::Lanes;
use sd_machine::{Event, Reply, View};
use sd_note::Note;
use sd_readback::{ReadEnd, Sink};
use sd_session::Status;
use sd_span::Span;
use sd_spool::SpoolStore;
use std::alloc::{AllocError, Global};
use std::marker::Model;

/// The sessions of one run of the daemon, with its drives, each with its lanes and the queue before it, and the
/// operator's desk. In a contract it is a `WorldView`. Its type keeps what `IsWorld` says.
#[derive(Drop)]
pub struct World<D: Driver, Q: Lanes, S: SpoolStore> {
    parts: Parts<D, Q, S>,
}

impl<D: Driver, Q: Lanes, S: SpoolStore> Model for World<D, Q, S> {
    ghost use Rattle.sd_world.specs.World.{WorldView};
    ghost use Rattle.sd_world.specs.Rules.{IsWorld};
    ghost use Rattle.sd_events.specs.View.{world_of};

    ghost Value = { WorldView D };

    ghost view = { λ w. world_of w.parts };

    ghost invariant = { λ w. IsWorld (world_of w.parts) };
}

impl<D: Driver + Drop, Q: Lanes + Drop, S: SpoolStore + Drop> World<D, Q, S> {
    /// A world without sessions, whose drives have no volumes, for the run of this time in seconds. There are as many
    /// devices, queues and lists of stores as the settings have drives; each queue is empty, with its drive's lanes and
    /// the settings' room; there is a store for each lane. Unloads the devices. If out of memory, all of them come
    /// back.
    pub fn new(
        alloc: Global,
        conf: WorldConf,
        time: u32,
        drivers: Vec<D>,
        lanes: Vec<Q>,
        spools: Vec<Vec<S>>,
    ) -> Result<World<D, Q, S>, NotMade<D, Q, S>>
        requires conf { IsConf conf }
        requires time_least { 1 ≤ time }
        requires time_most { time ≤ most_number }
        requires drivers { length drivers.items ≡ length conf.drives.items }
        requires lanes { AreQueues
            (λ q. record { lanes = Q.lanes q; capacity = Q.capacity q; held = Q.held q })
            conf.queue conf.drives.items lanes.items }
        requires spools { AreStores conf.drives.items spools.items }
        ensures fresh { IfOk result (IsFresh (λ d. D.meaning d)
            (λ q. record { lanes = Q.lanes q; capacity = Q.capacity q; held = Q.held q })
            (λ s. S.meaning s) (limits_of conf time) conf.queue conf.drives.items
            drivers.items lanes.items spools.items) }
        ensures matches { IfOk result (λ world. Matches (λ d. D.meaning d) world
            (empty_machine time)) }
        ensures sound { IfOk result (λ world. IsSound (λ d. D.meaning d) world) }
        ensures drivers { IfErr result (λ kept. AllZip (StaysDevice (λ d. D.meaning d))
            drivers.items kept.drivers.items) }
        ensures lanes { IfErr result (λ kept. kept.lanes ≡ lanes) }
        ensures spools { IfErr result (λ kept. kept.spools ≡ spools) }
    {
        let limits = Limits {
            block: conf.block,
            volume: conf.volume,
            spool: conf.spool,
            time,
            host: conf.host,
        };
        let mut drivers = drivers;
        let mut lanes = lanes;
        let mut spools = spools;
        match fill_bays(
            alloc,
            &limits,
            &conf.drives,
            &mut drivers,
            &mut lanes,
            &mut spools,
        ) {
            Ok(bays) => {
                know_drives(&bays);
                Ok(World {
                    parts: Parts {
                        alloc,
                        limits,
                        queue: conf.queue,
                        next: 1,
                        sessions: Vec::new(alloc),
                        bays,
                        desk: Desk::new(alloc),
                    },
                })
            }
            Err(_) => Err(NotMade {
                drivers,
                lanes,
                spools,
            }),
        }
    }

    /// A world of these parts, which keep the rules of worlds.
    pub fn of_parts(parts: Parts<D, Q, S>) -> Self
        requires rules { IsWorld (world_of parts) }
        ensures parts { result ≡ world_of parts }
        ensures sound { IsSound (λ d. D.meaning d) result }
    {
        know_drives(&parts.bays);
        World { parts }
    }

    /// The devices of the drives that are online, by rising number. If out of memory, the world comes back as it was.
    pub fn into_drivers(self) -> Result<Vec<D>, World<D, Q, S>>
        ensures ok { IfOk result (λ drivers. drivers.items ≡ devices_of self.bays) }
        ensures err { IfErr result (λ world. world ≡ self) }
    {
        let Ok(mut drivers) = Vec::with_capacity(self.parts.alloc, self.parts.bays.len()) else {
            return Err(self);
        };
        let World { parts } = self;
        let mut bays = parts.bays;
        take_devices(&mut bays, &mut drivers);
        Ok(drivers)
    }
}

impl<D: Driver + Drop, Q: Lanes, S: SpoolStore + Drop> World<D, Q, S> {
    /// One event. The reply says what came of it, and a refused event changes nothing but what docs/use/REFUSALS.md names.
    /// A step looks at one session and one drive; an open looks at the drives, and at the lanes of the one that it chooses.
    /// Take, Sync, Unmount and Cancel take no memory.
    pub fn step(&mut self, event: Event) -> Reply
        ensures { IsStep (λ d. D.meaning d) self.old event result self.new }
    {
        answer_event(&mut self.parts, event)
    }

    /// The event `Append`, of a record that stays with the caller: who appends again once a body was sent needs no copy.
    pub fn append(&mut self, ticket: Ticket, rec: &Rec) -> Reply
        ensures { IsStep (λ d. D.meaning d) self.old (Append ticket rec.now) result self.new }
    {
        answer_append(&mut self.parts, ticket, rec)
    }

    /// The event `Adopt`, by the volume's note: the drive reads the label, the last block that the note tells of, and on
    /// from there. What the note says is to be true, if the device is honest; then this is the step of that event, and
    /// every theorem of steps holds of it.
    pub fn adopt_noted(&mut self, drive: DriveNo, name: &VolName, note: &Note) -> Reply
        requires known { IsTrueAt (λ d. D.meaning d) self.old drive name.now note.now }
        ensures { IsStep (λ d. D.meaning d) self.old (Adopt drive name.now) result self.new }
    {
        answer_noted(&mut self.parts, drive, name, note)
    }

    /// All the events, in order, with the reply to each; it costs what its steps do. An `Err` comes before the first.
    pub fn run(&mut self, events: Vec<Event>) -> Result<Vec<Reply>, AllocError>
        ensures steps { IfOk result (λ replies. StepsAlong (λ d. D.meaning d)
            self.old events.items replies.items self.new) }
        ensures err { OnErr result (self.new ≡ self.old) }
    {
        let parts = &self.parts;
        let mut replies = Vec::with_capacity(parts.alloc, events.len())?;
        for event in events {
            let reply = self.step(event);
            replies.push(reply).unwrap();
        }
        Ok(replies)
    }
}

impl<D: Driver, Q: Lanes, S: SpoolStore + Drop> World<D, Q, S> {
    /// What every world keeps. Does nothing.
    pub fn know(&self)
        ensures { IsSound (λ d. D.meaning d) self.now }
    {
        let parts = &self.parts;
        know_drives(&parts.bays);
    }

    /// The time of the run, in seconds.
    pub fn time(&self) -> u32
        ensures { result ≡ self.now.limits.time }
    {
        let parts = &self.parts;
        parts.limits.time
    }

    /// How many drives there are, retired ones too: they are numbered from 1.
    pub fn drives(&self) -> usize
        ensures { result ≡ length self.now.bays }
    {
        let parts = &self.parts;
        parts.bays.len()
    }

    /// The tickets of the sessions that are on their way, active or ended, by rising number. It costs what is on its way:
    /// only the sessions that used a lane last are looked at.
    pub fn tickets(&self) -> Result<Vec<Ticket>, AllocError>
        ensures { IfOk result (λ tickets. tickets.items ≡ running_tickets self.now.sessions) }
    {
        let parts = &self.parts;
        list_running(parts.alloc, &parts.sessions, &parts.bays)
    }

    /// The drives, the volumes and the sessions, as they are at this moment.
    pub fn view(&self) -> Result<View, AllocError>
        ensures { IfOk result (λ view. view ≡ view_of self.now) }
    {
        let parts = &self.parts;
        Ok(View {
            drives: show_drives(parts.alloc, &parts.sessions, &parts.bays)?,
            volumes: show_volumes(parts.alloc, &parts.bays)?,
            sessions: show_sessions(parts.alloc, &parts.sessions)?,
        })
    }

    /// The requests for volumes, in the order in which they were asked.
    pub fn requests(&self) -> &[Request]
        ensures { result.now ≡ self.now.desk.requests }
    {
        let parts = &self.parts;
        parts.desk.requests()
    }

    /// How far the session of a ticket is, if there is one. Takes no memory.
    pub fn status(&self, ticket: Ticket) -> Option<Status>
        ensures { result ≡ status_at ticket self.now.sessions }
    {
        let parts = &self.parts;
        let at = find(&parts.sessions, ticket)?;
        let session = &parts.sessions[at].session;
        Some(session.status())
    }

    /// Reads a session back from spans. The records go to the sink one by one; those that were handed over before a
    /// fault stay, and they are the first of the session's, in order. No spans are a bad span; then the first span's
    /// volume must be at a drive, that drive online, what is read not purged, and all spans on its volumes; then comes
    /// what the drive's reader says. Purged is a session with that status; and, of another run's session, what names a
    /// volume that was purged in this one. A closed session's own spans read to all of its records, and a cancelled
    /// one's to the first of them, as long as the devices return what was written; once its drive was retired, either
    /// is answered that the drive is offline. Changes no session, no volume and no list.
    pub fn read<K: Sink>(
        &mut self,
        key: SessionKey,
        spans: &[Span],
        sink: &mut K,
    ) -> Result<ReadEnd, Refusal>
        ensures { IsRead (λ d. D.meaning d) key spans.now (K.got sink.old) (K.got sink.new)
            result self.old self.new }
    {
        read_knowing(&mut self.parts, key, spans, sink)
    }
}
