// Two clients at once. Each sends its part of a conversation, and tells what it heard.
use std::io::{ErrorKind, Read, Write};
use std::net::{Ipv4Addr, SocketAddr, TcpStream};
use std::sync::Wait;
use std::thread::Threads;
use std::time::Duration;
use std::{env, fs, io, thread};

/// A volume is labelled.
static LABEL: &[u8] = b"\x00\x00\x00\x25console label 1 Vol-0001 Default File";

static LABELLED: &[u8] = b"\x00\x00\x00\x0cok labelled\n\xff\xff\xff\xff";

/// A session is opened; and what is heard up to the digit of its ticket.
static OPEN: &[u8] = b"\x00\x00\x00\x33append open session JobId=7 Pool=Default Media=File";

static OPENED: &[u8] = b"\x00\x00\x00\x183000 OK open ticket = ";

/// One record is appended to session 1, which is closed; a poll, and the end of the talk.
static REST: [u8; 101] = *b"\x00\x00\x00\x0dappend data 1\
\x00\x00\x00\x051 2 0\
\x00\x00\x00\x05hello\
\xff\xff\xff\xff\
\xff\xff\xff\xff\
\x00\x00\x00\x14append end session 1\
\x00\x00\x00\x16append close session 1\
\xff\xff\xff\xfb\
\xff\xff\xff\xfc";

/// Where the digits of the session are in it.
const TICKETS: [usize; 3] = [16, 66, 92];

/// What is heard after the ticket, up to the line of the session, which has the time of the run.
static FRONT: &[u8] = b"\n\x00\x00\x00\x0d3000 OK data\n\
\x00\x00\x00\x143000 OK append data\n\
\x00\x00\x00\x0c3000 OK end\n\
\x00\x00\x00\x1a3000 OK close Status = 84\n";

/// What is heard after that, by the place of the session's block: the span, and the answer to the poll.
static FIRST: &[u8] = b"\x00\x00\x00\x1bspan Vol-0001 1 1 1 92 259\n\
\xff\xff\xff\xff\
\xff\xff\xff\xf9";

static SECOND: &[u8] = b"\x00\x00\x00\x1cspan Vol-0001 1 1 1 259 426\n\
\xff\xff\xff\xff\
\xff\xff\xff\xf9";

/// The packet of the session's line, with a time of ten digits.
const SESSION: usize = 25;

/// How often a connection is tried, and how long between, in milliseconds: the daemon may not listen yet.
const TRIES: u32 = 1000;

const PAUSE: u64 = 10;

/// What a client heard of its session: the digit of its ticket, and whether its block is the first on the volume.
#[derive(Clone, Copy)]
struct Told {
    ticket: u8,
    is_first: bool,
}

/// Whether two clients at once are answered as they should be: the one labels a volume, then each backs up a session.
/// The sessions are numbers 1 and 2, and their blocks lie one after the other, in either order.
pub fn play<W: Threads + Wait + Sync>(rt: &HostRuntime, wait: &W) -> io::Result<bool> {
    let one = connect(rt)?;
    if !is_labelled(&one)? {
        return Ok(false);
    }
    let other = connect(rt)?;
    let (one, other) = thread::join(wait, || back_up(rt, &one), || back_up(rt, &other));
    match (one?, other?) {
        (Some(one), Some(other)) => Ok(are_apart(one, other)),
        _ => Ok(false),
    }
}

fn are_apart(one: Told, other: Told) -> bool {
    let tickets = (one.ticket, other.ticket);
    (tickets == (b'1', b'2') || tickets == (b'2', b'1')) && one.is_first != other.is_first
}

fn is_labelled(stream: &TcpStream) -> io::Result<bool> {
    let mut both = stream;
    both.write_all(LABEL)?;
    let mut heard = [0; 20];
    both.read_exact(&mut heard)?;
    Ok(heard.as_slice() == LABELLED)
}

// A session is opened, and by its ticket a record is appended and the session closed. None if anything is answered that
// should not be.
fn back_up(rt: &HostRuntime, stream: &TcpStream) -> io::Result<Option<Told>> {
    let mut both = stream;
    both.write_all(OPEN)?;
    let mut opened = [0; 27];
    both.read_exact(&mut opened)?;
    if !opened.starts_with(OPENED) {
        return Ok(None);
    }
    let ticket = opened[26];
    both.write_all(&rest_of(ticket))?;
    // The daemon ends the talk after its answers.
    let mut heard = Vec::new(rt.alloc());
    both.read_to_end(&mut heard)?;
    Ok(told_by(ticket, heard.as_slice()))
}

fn rest_of(ticket: u8) -> [u8; 101] {
    let mut rest = REST;
    for at in TICKETS {
        rest[at] = ticket;
    }
    rest
}

fn told_by(ticket: u8, heard: &[u8]) -> Option<Told> {
    let behind = heard.strip_prefix(FRONT)?;
    let (session, back) = behind.split_at_checked(SESSION)?;
    if session.get(SESSION - 2) != Some(&ticket) {
        return None;
    }
    let is_first = back == FIRST;
    (is_first || back == SECOND).then_some(Told { ticket, is_first })
}

fn connect(rt: &HostRuntime) -> io::Result<TcpStream> {
    let address = SocketAddr::from((Ipv4Addr::LOCALHOST, 19103));
    for _ in 0..TRIES {
        if let Ok(stream) = TcpStream::connect(rt, address) {
            return Ok(stream);
        }
        thread::sleep(rt, Duration::from_millis(PAUSE));
    }
    Err(ErrorKind::TimedOut.into())
}

/// A new folder, among the system's temporary files: the first of these names that nothing has.
pub fn make_folder(rt: &HostRuntime) -> io::Result<String> {
    let place = env::temp_dir(rt)?;
    for number in 0..1000u32 {
        let path = format!(in rt.alloc(); "{}/sd_serve_{number}", place.as_str())?;
        match fs::create_dir(rt, path.as_str()) {
            Ok(()) => return Ok(path),
            Err(error) if error.kind() == ErrorKind::AlreadyExists => {}
            Err(error) => return Err(error),
        }
    }
    Err(ErrorKind::AlreadyExists.into())
}
