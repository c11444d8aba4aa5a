// A talk over a connection.
ghost use Rattle.std.specs.Prelude.{◌≡◌};
ghost use Rattle.sd_serve.specs.Talks.{HoldsTalk};

use crate::connection::Connection;
use crate::connection_table::Seat;
use crate::connections::Connections;
use sd_append::{SessionPort, TalkEnd, talk};
use std::alloc::{AllocError, Global};
use std::net::TcpStream;

/// How often a talk reads at most, one byte or more each time.
pub const TURNS: u64 = 1_099_511_627_776;

/// Holds a talk over a connection, at the moment that the port is set to, and says how it ended. The bytes that come and go
/// are counted at the connection's seat.
pub fn hold_talk<P: SessionPort>(
    alloc: Global,
    stream: &TcpStream,
    connections: &Connections,
    seat: Seat,
    port: &mut P,
) -> Result<TalkEnd, AllocError>
    ensures { HoldsTalk (P.clock port.old) (P.asked port.old) (P.asked port.new) result }
{
    let mut reader = Connection {
        stream,
        connections,
        seat,
    };
    let writer = Connection {
        stream,
        connections,
        seat,
    };
    talk(alloc, &mut reader, writer, port, TURNS).end
}
