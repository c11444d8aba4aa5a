// A connection as a talk reads and writes it.
use crate::connection_table::Seat;
use crate::connections::Connections;
use std::io::{self, ErrorKind, Read, Write};
use std::net::TcpStream;

/// A connection on which a read or a write that a signal interrupted is made again, and whose bytes are counted.
#[derive(Clone, Copy)]
pub(crate) struct Connection<'s> {
    pub(crate) stream: &'s TcpStream,
    pub(crate) connections: &'s Connections,
    pub(crate) seat: Seat,
}

impl Connection<'_> {
    fn count(&self, moved: &io::Result<usize>) {
        if let Ok(bytes) = moved {
            self.connections.add_bytes(self.seat, *bytes);
        }
    }
}

impl Read for Connection<'_> {
    fn read(&mut self, buf: &mut [u8]) -> io::Result<usize> {
        let mut stream = self.stream;
        for _tried in 0..u64::MAX {
            match stream.read(buf) {
                Err(fault) if fault.kind() == ErrorKind::Interrupted => {}
                answer => {
                    self.count(&answer);
                    return answer;
                }
            }
        }
        Err(ErrorKind::Interrupted.into())
    }
}

impl Write for Connection<'_> {
    fn write(&mut self, buf: &[u8]) -> io::Result<usize> {
        let mut stream = self.stream;
        for _tried in 0..u64::MAX {
            match stream.write(buf) {
                Err(fault) if fault.kind() == ErrorKind::Interrupted => {}
                answer => {
                    self.count(&answer);
                    return answer;
                }
            }
        }
        Err(ErrorKind::Interrupted.into())
    }

    fn flush(&mut self) -> io::Result<()> {
        Ok(())
    }
}
