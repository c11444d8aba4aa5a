// A configuration that is read from the input and printed.
ghost use Rattle.std.specs.Prelude.{◌≡◌, IfErr, IfOk};
ghost use Rattle.sd_conf.specs.Conf.{IsWithinLimits};
ghost use Rattle.sd_text.specs.Says.{Says, said_view};
ghost use Rattle.std.specs.Fmt.{decimal};
ghost use Rattle.sd_text.specs.Lines.{line};
ghost use Rattle.sd_conf.specs.Check.{Input, IsOfText, IsPlaced, PrintsCheck, ReadsConf, checked_lines, checked_place, conf_lines, drive_lines, drive_text, fault_line, fault_text, kind_word, status_of};
ghost use Rattle.sd_conf.specs.Place.{place_lines};

use crate::conf::{Conf, DriveConf};
use crate::conf_line::ConfLine;
use crate::fault::{ConfFault, FaultKind};
use crate::place::{Place, place_of};
use crate::read::read_conf;
use crate::text::Text;
use itoa::Buffer;
use sd_base::Refusal;
use sd_text::Printer;
use std::alloc::Global;
use std::io::{ErrorKind, Read, Write};
use std::str;

/// The status of a check whose configuration was printed.
const DONE: u8 = 0;

/// The status of a check that was refused, or could not be printed.
const FAILED: u8 = 1;

/// Why no configuration was read.
#[derive(Drop)]
pub enum CheckFault {
    /// The input can't be read.
    Input,
    /// What it holds is none, for this and, where that is known, at this place.
    Conf {
        fault: ConfFault,
        place: Option<Place>,
    },
}

/// What came of a check.
#[derive(Drop)]
pub struct Checked {
    /// 0 if a configuration was printed, and else 1.
    pub status: u8,
    /// The configuration that was read.
    pub conf: Result<Conf, CheckFault>,
}

/// Reads a configuration, up to the end of the input, and prints its values, a line each, or what is wrong with it; and on
/// `errors` where that is.
pub fn check_conf<R: Read, W: Write, E: Write>(
    alloc: Global,
    reader: &mut R,
    out: &mut Printer<W>,
    errors: &mut Printer<E>,
) -> Checked
    ensures checked { PrintsCheck (R.remaining reader.old)
        (said_view W.contents out.old) (said_view W.contents out.new) result }
    ensures place { Says (said_view E.contents errors.old) (said_view E.contents errors.new)
        (checked_place result.conf) }
{
    let conf = read_input(alloc, reader);
    print_checked(&conf, out);
    out.flush();
    print_checked_place(&conf, errors);
    errors.flush();
    let status = status_of(&conf, out.failed());
    Checked { status, conf }
}

// The status of a check that came to this.
fn status_of(checked: &Result<Conf, CheckFault>, failed: bool) -> u8
    ensures { result ≡ status_of checked.now failed }
{
    if checked.is_err() || failed {
        return FAILED;
    }
    DONE
}

// The configuration that the input holds.
fn read_input<R: Read>(alloc: Global, reader: &mut R) -> Result<Conf, CheckFault>
    ensures { ReadsConf (R.remaining reader.old) result }
{
    let mut bytes = Vec::new(alloc);
    match reader.read_to_end(&mut bytes) {
        Ok(_) => conf_in(alloc, &bytes),
        Err(fault) if fault.kind() == ErrorKind::OutOfMemory => {
            Err(CheckFault::Conf {
                fault: ConfFault::Memory,
                place: None,
            })
        }
        Err(_) => Err(CheckFault::Input),
    }
}

/// The configuration that these bytes are, or why they are none.
pub fn conf_in(alloc: Global, bytes: &[u8]) -> Result<Conf, CheckFault>
    ensures input { Input bytes.now result }
    ensures within { IfOk result IsWithinLimits }
    ensures of_text { IfErr result IsOfText }
{
    let Ok(text) = str::from_utf8(bytes) else {
        return Err(placed(alloc, bytes, ConfFault::Text));
    };
    match read_conf(alloc, text) {
        Ok(conf) => Ok(conf),
        Err(fault) => Err(placed(alloc, bytes, fault)),
    }
}

// The fault of a text, with its place. Where memory ran out, no place is looked for.
fn placed(alloc: Global, bytes: &[u8], fault: ConfFault) -> CheckFault
    ensures { IsPlaced bytes.now fault result }
{
    let place = match &fault {
        ConfFault::Memory => None,
        _ => place_of(alloc, bytes),
    };
    CheckFault::Conf { fault, place }
}

// Prints the values of a configuration, or the line of what is wrong.
fn print_checked<W: Write>(checked: &Result<Conf, CheckFault>, out: &mut Printer<W>)
    ensures { Says (said_view W.contents out.old) (said_view W.contents out.new)
        (checked_lines checked.now) }
{
    match checked {
        Ok(conf) => print_conf(conf, out),
        Err(CheckFault::Input) => out.line(ConfLine::NoInput),
        Err(CheckFault::Conf { fault, place: _ }) => print_conf_fault(fault, out),
    }
}

// Prints where a configuration is at fault, if that is known.
fn print_checked_place<E: Write>(checked: &Result<Conf, CheckFault>, errors: &mut Printer<E>)
    ensures { Says (said_view E.contents errors.old) (said_view E.contents errors.new)
        (checked_place checked.now) }
{
    if let Err(CheckFault::Conf { fault: _, place }) = checked {
        print_place(*place, errors);
    }
}

/// Prints the line of where a configuration is at fault, if that is known.
pub fn print_place<E: Write>(place: Option<Place>, errors: &mut Printer<E>)
    ensures { Says (said_view E.contents errors.old) (said_view E.contents errors.new)
        (place_lines place) }
{
    if let Some(place) = place {
        errors.line(place);
    }
}

/// Prints the line of what is wrong with a configuration.
pub fn print_conf_fault<W: Write>(fault: &ConfFault, out: &mut Printer<W>)
    ensures { Says (said_view W.contents out.old) (said_view W.contents out.new)
        (fault_line fault.now) }
{
    match fault {
        ConfFault::Text => out.line(ConfLine::NoDocument),
        ConfFault::Key { key, kind } => print_fault(key, *kind, out),
        ConfFault::Memory => out.line(ConfLine::Refused(Refusal::Memory)),
    }
}

// Prints the values of a configuration.
fn print_conf<W: Write>(conf: &Conf, out: &mut Printer<W>)
    ensures { Says (said_view W.contents out.old) (said_view W.contents out.new)
        (conf_lines conf.now) }
{
    out.line(ConfLine::Block(conf.block));
    out.line(ConfLine::Volume(conf.volume));
    out.line(ConfLine::Spool(conf.spool));
    out.line(ConfLine::Queue(conf.queue));
    out.line(ConfLine::Port(conf.port));
    out.line(ConfLine::Host(conf.host.copy()));
    print_drives(conf.drives.as_slice(), out);
}

// Prints the lines of the drives 1, 2 and on.
fn print_drives<W: Write>(drives: &[DriveConf], out: &mut Printer<W>)
    ensures { Says (said_view W.contents out.old) (said_view W.contents out.new)
        (drive_lines 1 drives.now) }
{
    let mut number = 0;
    for drive in drives {
        number += 1;
        print_drive(number, drive, out);
    }
}

// Prints the line of a drive, piece by piece: its folder has any length.
fn print_drive<W: Write>(number: usize, drive: &DriveConf, out: &mut Printer<W>)
    ensures { Says (said_view W.contents out.old) (said_view W.contents out.new)
        (line (drive_text number drive.now)) }
{
    out.bytes(b"drive ");
    print_number(number, out);
    out.bytes(b" ");
    out.bytes(drive.media.as_str().as_bytes());
    out.bytes(b" ");
    print_number(drive.lanes as usize, out);
    out.bytes(b" ");
    out.bytes(drive.folder.as_str().as_bytes());
    out.bytes(b"\n");
}

fn print_number<W: Write>(number: usize, out: &mut Printer<W>)
    ensures { Says (said_view W.contents out.old) (said_view W.contents out.new)
        (decimal number) }
{
    let mut digits = Buffer::new();
    out.bytes(digits.format(number).as_bytes());
}

// Prints the line of a key that is wrong, piece by piece: the key has any length.
fn print_fault<W: Write>(key: &Text, kind: FaultKind, out: &mut Printer<W>)
    ensures { Says (said_view W.contents out.old) (said_view W.contents out.new)
        (line (fault_text key.now kind)) }
{
    out.bytes(b"fault ");
    out.bytes(key.as_str().as_bytes());
    out.bytes(b" ");
    out.bytes(kind_word(kind).as_bytes());
    out.bytes(b"\n");
}

/// The word for what is wrong with a key.
fn kind_word(kind: FaultKind) -> &'static str
    ensures { result.now ≡ kind_word kind }
{
    match kind {
        FaultKind::Unknown => "unknown",
        FaultKind::Missing => "missing",
        FaultKind::Kind => "kind",
        FaultKind::Range => "range",
    }
}
