// Whether a client is still there.
use mio::{Events, Interest, Poll, Token};
use sd_stations::Patience;
use std::io;
use std::net::TcpStream;
use std::time::Duration;

/// The patience of a talk: so long at most, and no longer than its client is there. A client that has ended its side of the
/// connection isn't there any more, even if it still takes what it is sent.
#[derive(Clone, Copy, Drop)]
pub struct ClientPatience<'s> {
    pub rt: &'s HostRuntime,
    pub stream: &'s TcpStream,
    pub most: Duration,
}

impl Patience for ClientPatience<'_> {
    fn lasts(&self, waited: Duration) -> bool {
        waited < self.most && is_there(self.rt, self.stream)
    }
}

// Whether the client hasn't ended its side of the connection, and the connection isn't broken. Bytes of it that wait to
// be read don't matter. If the system doesn't say, the client counts as there.
fn is_there(rt: &HostRuntime, stream: &TcpStream) -> bool {
    !is_ended(rt, stream).unwrap_or(false)
}

// Whether the connection brings no more than what waits to be read. Nobody waits here.
fn is_ended(rt: &HostRuntime, stream: &TcpStream) -> io::Result<bool> {
    let mut poll = Poll::new(rt)?;
    let mut events = Events::with_capacity(rt.alloc(), 1)?;
    let mut source = mio::net::TcpStream::from_std(stream.try_clone()?);
    poll.registry()
        .register(&mut source, Token(0), Interest::READABLE)?;
    poll.poll(&mut events, Some(Duration::ZERO))?;
    Ok(events.iter().any(|event| event.is_read_closed()))
}
