// Connections, each in a thread of its own.
use crate::connection_table::Seat;
use crate::connections::Connections;
use crate::listener::{Listener, Listening};
use std::net::TcpStream;
use std::sync::Wait;
use std::thread::{Scope, Threads};
use std::time::{Clock, Duration, Instant};
use std::{fs, thread};

/// How long the server waits at most until it looks whether it is to end, in milliseconds.
const LOOK_MILLISECONDS: u64 = 1000;

/// How long the log isn't told again that all connections are taken, in seconds.
const TOLD_SECONDS: u64 = 60;

/// What holds talks over connections.
pub trait TalkHolder: Sync {
    /// Holds the talk with this seat over a connection.
    fn hold(&self, seat: Seat, stream: &TcpStream);

    /// Tells that as many connections are open as there may be.
    fn all_taken(&self);

    /// Tells that no connection is taken any more, since this file is there.
    fn ending(&self, file: &str);
}

/// How many connections a server takes, and until when.
#[derive(Clone, Copy)]
pub struct Serving<'u> {
    pub connections: u64,
    /// The file that ends it once it is there, if any.
    pub until: Option<&'u str>,
}

/// Takes so many connections, or those that come until a file is there, and has a talk held over each, in a thread of its
/// own. The file is looked for about once a second. While `MOST_OPEN` are open none is taken. A connection for which no
/// thread can be made is closed, and counts; one that can't be set up is closed, and doesn't. Ends once all these talks
/// have ended; the port is let go before that.
pub fn serve_each<R: Threads + Wait + Clock + Sync, H: TalkHolder>(
    host: &HostRuntime,
    rt: &R,
    listening: &Listening,
    serving: Serving<'_>,
    connections: &Connections,
    holder: &H,
) {
    let server = Server {
        host,
        rt,
        serving,
        connections,
        holder,
    };
    thread::scope(thread::scope_env(), rt, move |scope| {
        if let Some(mut listener) = listening.take(rt) {
            server.take_all(scope, &mut listener);
        }
    });
}

/// What takes connections.
#[derive(Drop)]
struct Server<'s, R, H> {
    host: &'s HostRuntime,
    rt: &'s R,
    serving: Serving<'s>,
    connections: &'s Connections,
    holder: &'s H,
}

impl<'s, R: Threads + Wait + Clock + Sync, H: TalkHolder> Server<'s, R, H> {
    // Takes the connections, one after the other.
    fn take_all<E>(&self, scope: &Scope<'s, E>, listener: &mut Listener) {
        let (rt, connections, holder) = (self.rt, self.connections, self.holder);
        let mut told = None;
        for _taken in 0..self.serving.connections {
            if !self.has_room(&mut told) {
                return;
            }
            let Some((stream, seat)) = self.next(listener) else {
                return;
            };
            let held = scope.spawn(move || {
                holder.hold(seat, &stream);
                connections.end(rt, seat);
            });
            if held.is_err() {
                connections.end(rt, seat);
            }
        }
    }

    // Whether the file is there that ends this. Then the log is told.
    fn is_over(&self) -> bool {
        let Some(file) = self.serving.until else {
            return false;
        };
        let is_over = fs::exists(self.host, file).unwrap_or(false);
        if is_over {
            self.holder.ending(file);
        }
        is_over
    }

    // Waits until there are fewer connections than there may be, or until this ends; whether there are. The log is told of
    // it, unless that was a short while before.
    fn has_room(&self, told: &mut Option<Instant>) -> bool {
        if self.connections.have_room(self.rt, Duration::ZERO) {
            return true;
        }
        for _waited in self.rt.forever() {
            if self.is_over() {
                return false;
            }
            *told = self.tell_taken(*told);
            let look = Duration::from_millis(LOOK_MILLISECONDS);
            if self.connections.have_room(self.rt, look) {
                return true;
            }
        }
        false
    }

    // Tells that all are taken, unless that was told a short while before. When it was told last.
    fn tell_taken(&self, told: Option<Instant>) -> Option<Instant> {
        let Ok(now) = Instant::now(self.rt) else {
            return told;
        };
        match told {
            Some(before) if now.duration_since(before).as_secs() < TOLD_SECONDS => told,
            _ => {
                self.holder.all_taken();
                Some(now)
            }
        }
    }

    // The next connection that can be had, with its seat; none if this ends.
    fn next(&self, listener: &mut Listener) -> Option<(TcpStream, Seat)> {
        for _looked in self.rt.forever() {
            if self.is_over() {
                return None;
            }
            let look = Duration::from_millis(LOOK_MILLISECONDS);
            if let Some((stream, peer)) = listener.next(self.host, look) {
                let seat = self.connections.begin(self.rt, peer)?;
                return Some((stream, seat));
            }
        }
        None
    }
}
