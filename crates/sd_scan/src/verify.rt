// The volumes of a folder, verified.
ghost use Rattle.std.specs.Prelude.{◌≡◌};
ghost use Rattle.sd_scan.specs.Lines.{verify_status};

use crate::chain::Fit;
use crate::expected::{expected_names, is_among};
use crate::labels::Volumes;
use crate::line::ScanLine;
use crate::notes::{NoteFolder, NotedVolume, Notes};
use crate::outcome::Outcome;
use crate::told::{Told, ToldLine};
use crate::volumes::{look, print_done};
use sd_base::{Refusal, VolName};
use sd_files::{Host, ShownProgress};
use sd_text::Printer;
use std::alloc::AllocError;
use std::io::Write;

/// The status if all is sound.
const SOUND: u8 = 0;

/// The status if something is damaged, or not all could be read or told.
const DAMAGED: u8 = 1;

/// The status if nothing is damaged, but a session has no end.
const UNENDED: u8 = 3;

/// The status if there is nothing to read, or not all that is to be there.
const NOT_THERE: u8 = 4;

/// What volumes came to, and whether those are there that are to be.
#[derive(Clone, Copy)]
struct Verified {
    outcome: Outcome,
    all_there: bool,
}

/// Why volumes are not verified: the line of it, and the status.
#[derive(Drop)]
struct Unverified {
    why: ScanLine,
    status: u8,
}

/// Verifies all volumes of a folder, in the order in which `scan_folder` reads them: prints what is damaged, the sessions
/// that are cut, which volumes aren't as the notes beside them say, and which of the volumes that the file `expected` names,
/// one a line, are missing. Answers the status.
pub fn verify_folder<H: Host + NoteFolder + AllocGlobal, W: Write>(
    host: &H,
    folder: &str,
    expected: Option<&str>,
    told: Told,
    out: &mut Printer<W>,
) -> u8 {
    let verified = verify(host, folder, expected, told, out);
    let status = match verified {
        Ok(verified) => status_of(verified.outcome, verified.all_there),
        Err(unverified) => {
            out.line(ToldLine {
                told,
                line: unverified.why,
            });
            unverified.status
        }
    };
    out.flush();
    if out.failed() { DAMAGED } else { status }
}

// The status of volumes that were read to their ends.
fn status_of(outcome: Outcome, all_there: bool) -> u8
    ensures { result ≡ verify_status outcome all_there }
{
    match outcome {
        Outcome::Damaged => DAMAGED,
        Outcome::Unended | Outcome::Sound if !all_there => NOT_THERE,
        Outcome::Unended => UNENDED,
        Outcome::Sound => SOUND,
    }
}

fn verify<H: Host + NoteFolder + AllocGlobal, W: Write>(
    host: &H,
    folder: &str,
    expected: Option<&str>,
    told: Told,
    out: &mut Printer<W>,
) -> Result<Verified, Unverified> {
    let expected = expected_in(host, expected)?;
    let Ok(files) = host.files_in(folder) else {
        return Err(absent(ScanLine::NoFolder));
    };
    let Ok(mut device) = host.open_folder(folder, ShownProgress::Silent) else {
        return Err(given_up(Refusal::Memory));
    };
    let (mut notes, volumes_due) = noted_in(host, folder, &files, &expected)?;
    let labels = Volumes::among(host.alloc(), &mut device, &files, &volumes_due, told, out);
    let volumes = match labels {
        Ok(volumes) => volumes,
        Err(fault) => return Err(given_up(fault.refusal())),
    };
    let missing = print_missing(&expected, &files, told, out);
    let outcome = scan_volumes(host, folder, &volumes, told, &mut notes, out)?;
    Ok(Verified {
        outcome: outcome.or_worse(Outcome::of_volumes(!volumes.label_lost)),
        all_there: !missing && !volumes.volumes.is_empty(),
    })
}

// The notes beside these files of a folder, and the names of those files that are to be volumes: they are expected, or have
// a whole note.
fn noted_in<H: NoteFolder + AllocGlobal>(
    host: &H,
    folder: &str,
    files: &[VolName],
    expected: &[VolName],
) -> Result<(Notes, Vec<VolName>), Unverified> {
    let Ok(notes) = Notes::beside(host, folder, files) else {
        return Err(given_up(Refusal::Memory));
    };
    match notes.names_after(host.alloc(), expected) {
        Ok(names) => Ok((notes, names)),
        Err(AllocError) => Err(given_up(Refusal::Memory)),
    }
}

// Reads the volumes to their ends, and shows how far that has come; then tells how their notes stand to them.
fn scan_volumes<H: Host + AllocGlobal, W: Write>(
    host: &H,
    folder: &str,
    volumes: &Volumes,
    told: Told,
    notes: &mut Notes,
    out: &mut Printer<W>,
) -> Result<Outcome, Unverified> {
    let Ok(names) = volumes.names(host.alloc()) else {
        return Err(given_up(Refusal::Memory));
    };
    let progress = ShownProgress::Of(volumes.total_size());
    let Ok(mut device) = host.open_folder(folder, progress) else {
        return Err(given_up(Refusal::Memory));
    };
    match look(host.alloc(), &mut device, &names, told, notes, out) {
        Ok(scanned) => {
            let noted = print_notes(notes, told, out);
            print_done(&names, &scanned.sessions, told, out);
            Ok(scanned.outcome.or_worse(noted))
        }
        Err(fault) => Err(given_up(fault.refusal())),
    }
}

// Prints a line for each note that counts as none or doesn't fit, and says what they come to.
fn print_notes<W: Write>(notes: &Notes, told: Told, out: &mut Printer<W>) -> Outcome {
    let mut outcome = Outcome::Sound;
    for one in notes.noted.as_slice() {
        print_note(one, told, out);
        outcome = outcome.or_worse(Outcome::of_volumes(!matches!(one.fit, Fit::Unfit(_))));
    }
    outcome
}

// Prints the line of a note that counts as none or doesn't fit.
fn print_note<W: Write>(one: &NotedVolume, told: Told, out: &mut Printer<W>) {
    let volume = one.name.copy();
    match one.fit {
        Fit::Fits => {}
        Fit::OtherLabel => print(ScanLine::OtherLabel(volume), told, out),
        Fit::OtherForm => print(ScanLine::OtherForm(volume), told, out),
        Fit::Unfit(at) => print(ScanLine::Misnoted { volume, at }, told, out),
    }
}

fn print<W: Write>(line: ScanLine, told: Told, out: &mut Printer<W>) {
    out.line(ToldLine { told, line });
}

// The names of the volumes that are to be there; none if no file says them.
fn expected_in<H: Host + AllocGlobal>(
    host: &H,
    path: Option<&str>,
) -> Result<Vec<VolName>, Unverified> {
    let Some(path) = path else {
        return Ok(Vec::new(host.alloc()));
    };
    match expected_names(host, path) {
        Ok(names) => Ok(names),
        Err(why) => Err(absent(why)),
    }
}

// Prints a line for each of these names that no file has, and says whether there is one.
fn print_missing<W: Write>(
    expected: &[VolName],
    files: &[VolName],
    told: Told,
    out: &mut Printer<W>,
) -> bool {
    let mut missing = false;
    for name in expected {
        if !is_among(name, files) {
            missing = true;
            out.line(ToldLine {
                told,
                line: ScanLine::Missing(name.copy()),
            });
        }
    }
    missing
}

fn absent(why: ScanLine) -> Unverified {
    Unverified {
        why,
        status: NOT_THERE,
    }
}

fn given_up(why: Refusal) -> Unverified {
    Unverified {
        why: ScanLine::Refused(why),
        status: DAMAGED,
    }
}
