// What is printed of the sessions that were found.
ghost use Rattle.std.specs.Prelude.{◌≡◌, ◌&&◌, ℕ, List, IfOk, OnOk};
ghost use Rattle.sd_scan.specs.Found.{Found as FoundBlock};
ghost use Rattle.sd_scan.specs.Sessions.{AreReports, Keeps};
ghost use Rattle.sd_scan.specs.declared.report.Report.{Report as SpecReport};
ghost use Rattle.sd_text.specs.Says.{Says, said_view};
ghost use Rattle.sd_scan.specs.Lines.{broken_lines, cut_lines, found_of, of_reports, report_lines, reports_lines, unsound_lines, whole_lines};

use crate::line::{Found, ScanLine};
use crate::outcome::Outcome;
use crate::report::Report;
use crate::sessions::Sessions;
use crate::told::{Told, ToldLine};
use sd_span::put_jobmedia;
use sd_text::Printer;
use std::alloc::{AllocError, Global};
use std::io::Write;

/// Prints what was found of each session, and says what they come to.
pub(crate) fn print_sessions<W: Write>(
    alloc: Global,
    sessions: &Sessions,
    told: Told,
    out: &mut Printer<W>,
) -> Result<Outcome, AllocError>
    ensures { (due : List ℕ)
        × Says (said_view W.contents out.old) (said_view W.contents out.new) due
        × IfOk result (λ outcome. (found : List FoundBlock) → Keeps found sessions.now
        → (reports : List SpecReport) × AreReports found reports
        × (due ≡ reports_lines told reports) × (outcome ≡ of_reports reports)) }
{
    let mut outcome = Outcome::Sound;
    for at in 0..sessions.len() {
        let report = sessions.report(at)?;
        print_report(alloc, &report, told, out)?;
        outcome = outcome.or_worse(Outcome::of_report(&report));
    }
    Ok(outcome)
}

/// Whether the one holds, and the other.
pub(crate) fn both(one: bool, other: bool) -> bool
    ensures { result ≡ (one && other) }
{
    one && other
}

// Prints what was found of a session.
fn print_report<W: Write>(
    alloc: Global,
    report: &Report,
    told: Told,
    out: &mut Printer<W>,
) -> Result<(), AllocError>
    ensures { (due : List ℕ)
        × Says (said_view W.contents out.old) (said_view W.contents out.new) due
        × OnOk result (due ≡ report_lines told report.now) }
{
    match told {
        Told::All => print_whole(alloc, report, out),
        Told::Unsound | Told::UnsoundJson => {
            print_unsound(report, told, out);
            Ok(())
        }
    }
}

// Prints the line of a session, and the text that it is read by.
fn print_whole<W: Write>(
    alloc: Global,
    report: &Report,
    out: &mut Printer<W>,
) -> Result<(), AllocError>
    ensures { (due : List ℕ)
        × Says (said_view W.contents out.old) (said_view W.contents out.new) due
        × OnOk result (due ≡ whole_lines report.now) }
{
    let mut text = String::new(alloc);
    put_jobmedia(&mut text, report.key, report.spans.as_slice())?;
    out.line(ScanLine::Session(Found::of(report)));
    out.bytes(text.as_bytes());
    Ok(())
}

// Prints what is not sound of a session.
fn print_unsound<W: Write>(report: &Report, told: Told, out: &mut Printer<W>)
    ensures { Says (said_view W.contents out.old) (said_view W.contents out.new)
        (unsound_lines told report.now) }
{
    print_cut(report, told, out);
    print_broken(report, told, out);
}

// Prints the line of a session that is cut.
fn print_cut<W: Write>(report: &Report, told: Told, out: &mut Printer<W>)
    ensures { Says (said_view W.contents out.old) (said_view W.contents out.new)
        (cut_lines told report.now.ended (found_of report.now)) }
{
    if report.ended {
        return;
    }
    out.line(ToldLine {
        told,
        line: ScanLine::Session(Found::of(report)),
    });
}

// Prints that a session is broken, if it is.
fn print_broken<W: Write>(report: &Report, told: Told, out: &mut Printer<W>)
    ensures { Says (said_view W.contents out.old) (said_view W.contents out.new)
        (broken_lines told report.now.broken report.now.key) }
{
    if report.broken {
        out.line(ToldLine {
            told,
            line: ScanLine::Broken(report.key),
        });
    }
}
