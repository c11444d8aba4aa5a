// What comes of a line of a script.
ghost use Rattle.std.specs.Prelude.{◌≡◌, ◌≤◌};
ghost use Rattle.sd_base.specs.Limits.{most_number};
ghost use Rattle.sd_tool.specs.Doing.{Acts, LineDoes};
ghost use Rattle.sd_script.specs.Grammar.{IsWithin};
ghost use Rattle.sd_tool.specs.Run.{Comes, LineComes, Refuses, RestartComes, Shown};
ghost use Rattle.sd_tool.specs.Script.{script_view};

use crate::lines::Next;
use crate::restart::{Restart, Restarted};
use crate::run::{Came, DONE, FAILED, Ran, Script, given_up};
use crate::told::Told;
use sd_base::Refusal;
use sd_driver::Driver;
use sd_lane::Lanes;
use sd_script::{Part, ScriptLine, read_line};
use sd_text::Printer;
use std::io::Write;

impl<D: Driver + Drop, Q: Lanes + Drop, W: Write + Drop> Script<D, Q, W> {
    /// Does what came is for, with the line in `bytes` if it is one, and prints what it comes to.
    pub(crate) fn come(self, part: Part, next: Next, bytes: &[u8]) -> Came<D, Q, W>
        ensures { Comes W.contents (λ d. D.meaning d) part next bytes.now
            (script_view W.contents self) result }
    {
        match next {
            Next::Line => self.run(part, bytes),
            Next::TooLong => self.refused(Refusal::BadCommand),
            Next::NoMemory => self.refused(Refusal::Memory),
            Next::Fault => Came::Over(given_up(self.into_out(), Told::NoInput)),
            Next::End => Came::Over(self.over(DONE)),
        }
    }

    fn run(self, part: Part, bytes: &[u8]) -> Came<D, Q, W>
        ensures { Comes W.contents (λ d. D.meaning d) part Next.Line bytes.now
            (script_view W.contents self) result }
    {
        match read_line(part, bytes) {
            Ok(line) => self.come_to(line),
            Err(fault) => self.refused(fault.refusal()),
        }
    }

    fn come_to(self, line: ScriptLine<'_>) -> Came<D, Q, W>
        requires { IsWithin line }
        ensures { LineComes W.contents (λ d. D.meaning d) line.entry
            (script_view W.contents self) result }
    {
        match line {
            ScriptLine::Restart { time, tail } => self.restarted(Restart { time, tail }),
            other => self.obey(other).shown(),
        }
    }

    // What a line comes to is seen at once.
    fn shown(mut self) -> Came<D, Q, W>
        ensures { Shown W.contents (script_view W.contents self) result }
    {
        self.out.flush();
        if self.out.failed() {
            return Came::Over(self.over(FAILED));
        }
        Came::On(self)
    }

    /// The run is over.
    pub(crate) fn over(self, status: u8) -> Ran<W>
        ensures out { result.out ≡ self.out }
        ensures status { result.status ≡ status }
    {
        Ran {
            status,
            out: self.into_out(),
        }
    }

    fn into_out(self) -> Printer<W>
        ensures { result ≡ self.out }
    {
        let Script {
            alloc: _,
            stage: _,
            moment: _,
            printed: _,
            out,
        } = self;
        out
    }

    // The line is refused.
    fn refused(mut self, why: Refusal) -> Came<D, Q, W>
        ensures { Refuses W.contents (script_view W.contents self) why result }
    {
        self.refuse(why);
        self.shown()
    }

    // The script after a line that makes a new world. It is over if there is no memory for that world once the old one
    // is gone.
    fn restarted(self, restart: Restart) -> Came<D, Q, W>
        requires time_least { 1 ≤ restart.time }
        requires time_most { restart.time ≤ most_number }
        ensures { RestartComes W.contents (λ d. D.meaning d) restart
            (script_view W.contents self) result }
    {
        let Script {
            alloc,
            stage,
            moment,
            printed,
            mut out,
        } = self;
        let Ok(Restarted { stage, refused }) = stage.restarted(alloc, restart) else {
            return Came::Over(given_up(out, Refusal::Memory));
        };
        match refused {
            None => out.line(Told::Restarted),
            Some(why) => out.line(why),
        }
        let script = Script {
            alloc,
            stage,
            moment,
            printed,
            out,
        };
        script.shown()
    }

    /// Does what a line does that makes no new world.
    fn obey(self, line: ScriptLine<'_>) -> Self
        ensures { LineDoes (λ d. D.meaning d) line.entry (script_view W.contents self)
            (script_view W.contents result) }
    {
        match line {
            ScriptLine::Read(ticket) => self.read(ticket),
            ScriptLine::Again(key) => self.again(key),
            other => self.acted(other),
        }
    }

    // The script after a line that reads nothing back.
    fn acted(mut self, line: ScriptLine<'_>) -> Self
        ensures { Acts (λ d. D.meaning d) line.entry (script_view W.contents self)
            (script_view W.contents result) }
    {
        self.act(line);
        self
    }
}
