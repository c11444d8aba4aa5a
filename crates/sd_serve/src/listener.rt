// Where connections come in.
use mio::{Events, Interest, Poll, Token};
use std::io::{self, ErrorKind};
use std::net::{SocketAddr, TcpListener, TcpStream};
use std::sync::{Mutex, Wait};
use std::thread;
use std::time::Duration;

/// How long a client may send nothing, or take nothing of what it is sent, before its talk ends, in seconds.
pub const QUIET_SECONDS: u64 = 300;

/// How long the server waits if a connection can't be taken, in milliseconds.
const PAUSE_MILLISECONDS: u64 = 100;

/// A port that is listened on until whoever takes the connections lets it go.
#[derive(Drop)]
pub struct Listening {
    listener: Mutex<Option<Listener>>,
}

impl Listening {
    /// Listens at this address.
    pub fn at(rt: &HostRuntime, address: SocketAddr) -> io::Result<Self> {
        let listener = Listener::bind(rt, address)?;
        Ok(Listening {
            listener: Mutex::new(Some(listener)),
        })
    }

    /// Gives the listener away.
    pub(crate) fn take<R: Wait>(&self, rt: &R) -> Option<Listener> {
        let mut listener = self.listener.lock(rt);
        let listener: &mut Option<Listener> = &mut listener;
        listener.take()
    }
}

/// A listener that can be waited for so long and no longer.
#[derive(Drop)]
pub(crate) struct Listener {
    listener: TcpListener,
    poll: Poll,
    events: Events,
}

impl Listener {
    fn bind(rt: &HostRuntime, address: SocketAddr) -> io::Result<Self> {
        let listener = TcpListener::bind(rt, address)?;
        listener.set_nonblocking(true)?;
        let poll = Poll::new(rt)?;
        let events = Events::with_capacity(rt.alloc(), 1)?;
        let mut source = mio::net::TcpListener::from_std(listener.try_clone()?);
        poll.registry()
            .register(&mut source, Token(0), Interest::READABLE)?;
        Ok(Listener {
            listener,
            poll,
            events,
        })
    }

    /// The next connection, if one can be had before so long, and its client's address.
    pub(crate) fn next(
        &mut self,
        rt: &HostRuntime,
        most: Duration,
    ) -> Option<(TcpStream, SocketAddr)> {
        match take_connection(&self.listener) {
            Ok(taken) => return Some(taken),
            Err(fault) if fault.kind() == ErrorKind::WouldBlock => {}
            Err(_) => {
                thread::sleep(rt, Duration::from_millis(PAUSE_MILLISECONDS));
                return None;
            }
        }
        // A signal ends this too.
        let _ = self.poll.poll(&mut self.events, Some(most));
        take_connection(&self.listener).ok()
    }
}

// A connection that sends what is written at once, and waits for its client so long and no longer; and the client's
// address.
fn take_connection(listener: &TcpListener) -> io::Result<(TcpStream, SocketAddr)> {
    let (stream, peer) = listener.accept()?;
    let quiet = Some(Duration::from_secs(QUIET_SECONDS));
    stream.set_nodelay(true)?;
    stream.set_read_timeout(quiet)?;
    stream.set_write_timeout(quiet)?;
    Ok((stream, peer))
}
