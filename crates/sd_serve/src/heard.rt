// What the daemon's log is told of a talk.
use crate::connection_table::Seat;
use crate::connections::Connections;
use crate::fault::FaultPlace;
use crate::log::Log;
use crate::log_line::{LogLine, TakenAmount};
use crate::naming_line::NamingLine;
use sd_append::TalkEnd;
use sd_base::{MediaName, PoolName, Refusal, SessionKey};
use sd_machine::{Event, Reply};
use sd_span::Span;
use std::alloc::AllocError;
use std::io::Write;
use std::str;
use std::sync::Wait;
use std::time::Clock;

/// The line of the operator that gives up a session.
const CANCEL: &[u8] = b"cancel ";

/// What an event is about, if the log is told of it.
#[derive(Clone, Copy, Drop)]
pub enum About {
    Open,
    /// A record with so many bytes of data.
    Record(usize),
    Close(u32),
    Cancel(u32),
    Other,
}

/// A session and its drive.
#[derive(Clone, Copy, Drop)]
struct Place {
    ticket: u32,
    drive: u32,
}

/// A job that asks for a session.
#[derive(Drop)]
struct Asked {
    job: u32,
    pool: PoolName,
    media: MediaName,
}

/// A talk by its seat among the connections, and the log; and of the talk the job that asked last, and what was taken so far
/// in the session that was opened last.
#[derive(Drop)]
pub struct Heard<'l, R, L> {
    rt: &'l R,
    log: &'l Log<L>,
    connections: &'l Connections,
    seat: Seat,
    asked: Option<Asked>,
    session: Option<Place>,
    taken: TakenAmount,
}

impl<'l, R, L> Heard<'l, R, L> {
    pub fn new(rt: &'l R, log: &'l Log<L>, connections: &'l Connections, seat: Seat) -> Self {
        Heard {
            rt,
            log,
            connections,
            seat,
            asked: None,
            session: None,
            taken: TakenAmount::default(),
        }
    }

    /// What the event is about.
    pub fn about(&mut self, event: &Event) -> About {
        match event {
            Event::Open {
                job,
                pool,
                media,
                ..
            } => {
                self.asked = Some(Asked {
                    job: job.get(),
                    pool: pool.copy(),
                    media: media.copy(),
                });
                About::Open
            }
            Event::Append { rec, .. } => About::Record(rec.bytes.len()),
            Event::Close { ticket } => About::Close(ticket.get()),
            Event::Cancel { ticket } => About::Cancel(ticket.get()),
            _ => About::Other,
        }
    }
}

impl<R: Wait + Clock, L: Write> Heard<'_, R, L> {
    fn line(&self, line: LogLine<'_>) {
        self.log.line(self.rt, line);
    }

    pub fn begins(&self) {
        self.line(LogLine::Begins {
            talk: self.seat.talk,
        });
    }

    pub fn ended(&self, end: &Result<TalkEnd, AllocError>) {
        let end = match end {
            Ok(end) => Some(*end),
            Err(_) => None,
        };
        self.line(LogLine::Ended {
            talk: self.seat.talk,
            end,
        });
    }

    /// What was asked is answered so.
    pub fn reply(&mut self, about: About, reply: &Reply) {
        match reply {
            Reply::Opened { ticket, drive } => self.opened(about, ticket.get(), drive.get()),
            Reply::Taken { count } => self.took(about, *count),
            Reply::Closed { .. } => self.closed(about),
            Reply::Cancelled => {
                if let About::Cancel(ticket) = about {
                    self.cancelled(ticket);
                }
            }
            Reply::Refused(refusal) => self.refusal(about, *refusal),
            _ => {}
        }
    }

    fn opened(&mut self, about: About, ticket: u32, drive: u32) {
        self.session = Some(Place { ticket, drive });
        self.taken = TakenAmount::default();
        self.has_open(Some(ticket));
        if let (About::Open, Some(asked)) = (about, &self.asked) {
            self.line(LogLine::Opened {
                talk: self.seat.talk,
                ticket,
                job: asked.job,
                drive,
            });
        }
    }

    // The talk has this session open, or none any more.
    fn has_open(&self, session: Option<u32>) {
        self.connections.set_session(self.rt, self.seat, session);
    }

    fn took(&mut self, about: About, count: u64) {
        self.taken.records = count;
        if let About::Record(bytes) = about {
            self.taken.bytes = self.taken.bytes.saturating_add(bytes as u64);
        }
    }

    fn closed(&self, about: About) {
        if let About::Close(ticket) = about {
            self.has_open(None);
            self.line(LogLine::Closed {
                talk: self.seat.talk,
                ticket,
                taken: self.taken,
            });
        }
    }

    // An event is refused: an open, or an event of the session that was opened last.
    fn refusal(&self, about: About, refusal: Refusal) {
        if let About::Open = about {
            self.refused_job(refusal);
            return;
        }
        let place = match self.session {
            Some(Place { ticket, drive }) => FaultPlace::Session { ticket, drive },
            None => FaultPlace::Nowhere,
        };
        self.fault(place, refusal);
    }

    // The job that asked last gets no session.
    fn refused_job(&self, refusal: Refusal) {
        if let Some(asked) = &self.asked {
            self.line(LogLine::RefusedJob {
                talk: self.seat.talk,
                job: asked.job,
                pool: &asked.pool,
                media: &asked.media,
                refusal,
            });
        }
    }

    /// A reading of a session is refused.
    pub fn unread(&self, key: SessionKey, spans: &[Span], refusal: Refusal) {
        let place = match spans.first() {
            Some(span) => FaultPlace::Reading {
                id: key.id,
                volume: &span.volume,
            },
            None => FaultPlace::Nowhere,
        };
        self.fault(place, refusal);
    }

    /// A line of the operator is refused. If it would have named a volume, the log has any refusal of it that the volume or
    /// the drive gave, and else a fault alone.
    pub fn disobeyed(&self, line: &[u8], refusal: Refusal) {
        let place = match str::from_utf8(line) {
            Ok(line) => FaultPlace::Line(line),
            Err(_) => FaultPlace::Nowhere,
        };
        match refusal {
            Refusal::BadCommand | Refusal::BadName => {}
            _ if NamingLine::read(line).is_some() => self.told(place, refusal),
            _ => self.fault(place, refusal),
        }
    }

    // A refusal that tells of a device or a spool that failed.
    fn fault(&self, place: FaultPlace<'_>, refusal: Refusal) {
        match refusal {
            Refusal::DeviceFault | Refusal::SpoolFault | Refusal::SessionFailed => {
                self.told(place, refusal);
            }
            _ => {}
        }
    }

    // The talk was told this refusal.
    fn told(&self, place: FaultPlace<'_>, refusal: Refusal) {
        self.line(LogLine::Fault {
            talk: self.seat.talk,
            place,
            refusal,
        });
    }

    /// A line of the operator was obeyed. If it gave up a session, that is the one that the talk opened last: those
    /// before it have come to their end, and another talk's can't be given up.
    pub fn obeyed(&self, line: &[u8]) {
        if let Some(naming) = NamingLine::read(line) {
            self.named(&naming);
        }
        if !line.starts_with(CANCEL) {
            return;
        }
        if let Some(Place { ticket, .. }) = self.session {
            self.cancelled(ticket);
        }
    }

    // The line named a volume.
    fn named(&self, naming: &NamingLine) {
        self.line(LogLine::Named {
            talk: self.seat.talk,
            act: naming.act,
            drive: naming.drive,
            volume: &naming.volume,
        });
    }

    fn cancelled(&self, ticket: u32) {
        self.has_open(None);
        self.line(LogLine::Cancelled {
            talk: self.seat.talk,
            ticket,
            taken: self.taken,
        });
    }
}
