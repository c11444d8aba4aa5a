// Running the lines of a script over a world.
ghost use Rattle.std.specs.Prelude.{◌≡◌, false, length, IfSome};
ghost use Rattle.sd_text.specs.Says.{Says, said_view};
ghost use Rattle.sd_tool.specs.Run.{RunsFrom, RunsScript};
ghost use Rattle.sd_tool.specs.Script.{script_view};
ghost use Rattle.sd_tool.specs.Settings.{drives_due};
ghost use Rattle.sd_text.specs.Lines.{line};

use crate::lines::{Lines, Next};
use crate::printed::Printed;
use crate::settings::Settings;
use crate::stage::ScriptStage;
use crate::told::Told;
use sd_base::Refusal;
use sd_driver::Driver;
use sd_lane::Lanes;
use sd_script::Part;
use sd_text::Printer;
use std::alloc::Global;
use std::fmt::Display;
use std::io::{BufRead, Write};

/// The status of a run that came to the end of its script.
pub(crate) const DONE: u8 = 0;

/// The status of a run whose settings don't go together, whose input could not be read, whose lines could not be
/// written, or for which there was no memory to begin.
pub(crate) const FAILED: u8 = 1;

/// A run that is over: its status, and what it was printed to.
#[derive(Drop)]
pub struct Ran<W> {
    pub status: u8,
    pub out: Printer<W>,
}

/// A script that is run.
#[derive(Drop)]
pub struct Script<D: Driver, Q: Lanes, W: Write> {
    pub(crate) alloc: Global,
    pub(crate) stage: ScriptStage<D, Q>,
    /// The moment of what happens now, in microseconds.
    pub(crate) moment: i64,
    pub(crate) printed: Printed,
    pub(crate) out: Printer<W>,
}

/// What a line of a script leaves: a script that goes on, or a run that is over.
#[derive(Drop)]
pub enum Came<D: Driver, Q: Lanes, W: Write> {
    On(Script<D, Q, W>),
    Over(Ran<W>),
}

/// Runs the script whose settings were read, and answers the status alone: see `run_script`.
pub fn run_lines<D: Driver + Drop, Q: Lanes + Drop, R: BufRead, W: Write + Drop>(
    alloc: Global,
    settings: Settings,
    drivers: Vec<D>,
    queue: Q,
    reader: &mut R,
    writer: W,
) -> u8
    requires { length drivers.items ≡ drives_due settings.values }
    ensures { (ran : Ran W) × (result ≡ ran.status) × RunsScript Q W.contents (λ d. D.meaning d)
        settings.values drivers.items (settings.first, settings.lines.bytes)
        (record { written = W.contents writer; failed = false }) ran }
{
    let Ran { status, out: _ } = run_script(
        alloc,
        settings,
        drivers,
        queue,
        reader,
        Printer::new(writer),
    );
    status
}

/// Runs the script whose settings were read, from the line that they ended at to the end of the input, and prints what
/// each line comes to. There is a driver for each drive of the settings, and none if they don't go together: then the
/// fault is printed and nothing is run. The queues of its worlds are like the one given. The status is 0 if the script
/// came to its end, whatever was refused in it, and else 1.
pub fn run_script<D: Driver + Drop, Q: Lanes + Drop, R: BufRead, W: Write + Drop>(
    alloc: Global,
    settings: Settings,
    drivers: Vec<D>,
    queue: Q,
    reader: &mut R,
    mut out: Printer<W>,
) -> Ran<W>
    requires { length drivers.items ≡ drives_due settings.values }
    ensures { RunsScript Q W.contents (λ d. D.meaning d) settings.values
        drivers.items (settings.first, settings.lines.bytes) (said_view W.contents out) result }
{
    let Settings {
        values,
        lines,
        first,
    } = settings;
    if let Some(misfit) = values.misfit() {
        return given_up(out, Told::Unfit(misfit));
    }
    let Ok(stage) = ScriptStage::new(alloc, values, drivers, queue) else {
        return given_up(out, Refusal::Memory);
    };
    let script = Script {
        alloc,
        stage,
        moment: 0,
        printed: Printed::new(alloc),
        out,
    };
    run_from(script, first, lines, reader)
}

// Runs a script from the line that came first on.
fn run_from<D: Driver + Drop, Q: Lanes + Drop, R: BufRead, W: Write + Drop>(
    script: Script<D, Q, W>,
    first: Next,
    mut lines: Lines,
    reader: &mut R,
) -> Ran<W>
    ensures { RunsFrom Q W.contents (λ d. D.meaning d) (first, lines.bytes)
        (script_view W.contents script) result }
{
    let mut came = script.come(Part::Head, first, lines.bytes());
    for _ in 0..u64::MAX {
        match came {
            Came::On(script) => {
                let next = lines.read_next(reader);
                came = script.come(Part::Body, next, lines.bytes());
            }
            Came::Over(ran) => return ran,
        }
    }
    match came {
        Came::On(script) => script.over(DONE),
        Came::Over(ran) => ran,
    }
}

/// A run that is given up, with this line.
pub(crate) fn given_up<W: Write, T: Display + Drop>(mut out: Printer<W>, text: T) -> Ran<W>
    ensures says { IfSome (T.output text) (λ said.
        Says (said_view W.contents out) (said_view W.contents result.out) (line said)) }
    ensures status { result.status ≡ 1 }
{
    out.line(text);
    out.flush();
    Ran {
        status: FAILED,
        out,
    }
}
