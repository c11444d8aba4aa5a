// The lines of a scan as JSON. No name needs an escape.
use crate::line::{Found, ScanLine, end_word};
use crate::moment::Moment;
use crate::report::Start;
use std::fmt;

/// A line of a scan. Displays it as a JSON object, without the newline.
#[derive(Clone, Copy)]
pub struct JsonLine<'a>(pub &'a ScanLine);

impl fmt::Display for JsonLine<'_> {
    ghost use Rattle.std.specs.Prelude.{Some};
    ghost use Rattle.sd_scan.specs.Json.{json_text};

    ghost output = { λ l. Some (json_text l.0.now) };

    fn fmt<W: fmt::Write>(&self, f: &mut fmt::Formatter<W>) -> fmt::Result {
        match self.0 {
            ScanLine::Foreign(name) => {
                write!(
                    f,
                    "{{\"line\":\"foreign\",\"volume\":\"{}\"}}",
                    name.as_str()
                )
            }
            ScanLine::Volume { name, size } => write!(
                f,
                "{{\"line\":\"volume\",\"volume\":\"{}\",\"bytes\":{size}}}",
                name.as_str()
            ),
            ScanLine::Damage { volume, at, kind } => write!(
                f,
                "{{\"line\":\"damage\",\"volume\":\"{}\",\"place\":{at},\"kind\":\"{kind}\"}}",
                volume.as_str()
            ),
            ScanLine::Behind { volume, at } => write!(
                f,
                "{{\"line\":\"behind\",\"volume\":\"{}\",\"place\":{at}}}",
                volume.as_str()
            ),
            ScanLine::Session(found) => write!(f, "{}", JsonFound(found)),
            ScanLine::Broken(key) => write!(
                f,
                "{{\"line\":\"broken\",\"time\":{},\"id\":{}}}",
                key.time, key.id
            ),
            ScanLine::Unlabelled(name) => write!(
                f,
                "{{\"line\":\"damage\",\"volume\":\"{}\",\"place\":0,\"kind\":\"label\"}}",
                name.as_str()
            ),
            ScanLine::Missing(name) => {
                write!(
                    f,
                    "{{\"line\":\"missing\",\"volume\":\"{}\"}}",
                    name.as_str()
                )
            }
            ScanLine::Misnoted { volume, at } => write!(
                f,
                "{{\"line\":\"damage\",\"volume\":\"{}\",\"place\":{at},\"kind\":\"note\"}}",
                volume.as_str()
            ),
            ScanLine::OtherLabel(name) => write!(
                f,
                "{{\"line\":\"note\",\"volume\":\"{}\",\"kind\":\"label\"}}",
                name.as_str()
            ),
            ScanLine::OtherForm(name) => write!(
                f,
                "{{\"line\":\"note\",\"volume\":\"{}\",\"kind\":\"form\"}}",
                name.as_str()
            ),
            ScanLine::Done { volumes, sessions } => write!(f, "{}", JsonDone(*volumes, *sessions)),
            ScanLine::NoFolder => write!(f, "{{\"line\":\"fault\",\"fault\":\"folder\"}}"),
            ScanLine::NoFile => write!(f, "{{\"line\":\"fault\",\"fault\":\"file\"}}"),
            ScanLine::Refused(why) => {
                write!(f, "{{\"line\":\"refused\",\"refusal\":\"{why}\"}}")
            }
        }
    }
}

/// What a line says of a session, as JSON.
#[derive(Clone, Copy)]
struct JsonFound<'a>(&'a Found);

impl fmt::Display for JsonFound<'_> {
    ghost use Rattle.std.specs.Prelude.{Some};
    ghost use Rattle.sd_scan.specs.Json.{found_json};

    ghost output = { λ l. Some (found_json l.0.now) };

    fn fmt<W: fmt::Write>(&self, f: &mut fmt::Formatter<W>) -> fmt::Result {
        let found = self.0;
        let start = JsonStart(&found.start);
        let (end, size) = (JsonEnd(found), JsonSize(found));
        write!(
            f,
            "{{\"line\":\"session\",\"time\":{},\"id\":{},{start},{end},{size}}}",
            found.key.time, found.key.id
        )
    }
}

/// The job and the pool of a session.
#[derive(Clone, Copy)]
struct JsonStart<'a>(&'a Option<Start>);

impl fmt::Display for JsonStart<'_> {
    ghost use Rattle.std.specs.Prelude.{Some};
    ghost use Rattle.sd_scan.specs.Json.{start_json};

    ghost output = { λ l. Some (start_json l.0.now) };

    fn fmt<W: fmt::Write>(&self, f: &mut fmt::Formatter<W>) -> fmt::Result {
        match self.0 {
            Some(start) => write!(
                f,
                "\"job\":{},\"pool\":\"{}\"",
                start.job.get(),
                start.pool.as_str()
            ),
            None => write!(f, "\"job\":0,\"pool\":\"-\""),
        }
    }
}

/// Whether all of a session is there, and how many whole records were found.
#[derive(Clone, Copy)]
struct JsonEnd<'a>(&'a Found);

impl fmt::Display for JsonEnd<'_> {
    ghost use Rattle.std.specs.Prelude.{Some};
    ghost use Rattle.sd_scan.specs.Json.{end_json};

    ghost output = { λ l. Some (end_json l.0.now) };

    fn fmt<W: fmt::Write>(&self, f: &mut fmt::Formatter<W>) -> fmt::Result {
        let end = EndWord(self.0.ended);
        let records = self.0.records;
        write!(f, "\"end\":\"{end}\",\"records\":{records}")
    }
}

/// Whether all of a session is there, in a word.
#[derive(Clone, Copy)]
struct EndWord(bool);

impl fmt::Display for EndWord {
    ghost use Rattle.std.specs.Prelude.{Some};
    ghost use Rattle.sd_scan.specs.Words.{end_word};

    ghost output = { λ w. Some (end_word w.0) };

    fn fmt<W: fmt::Write>(&self, f: &mut fmt::Formatter<W>) -> fmt::Result {
        f.write_str(end_word(self.0))
    }
}

/// The data bytes of the whole records of a session, and its moment.
#[derive(Clone, Copy)]
struct JsonSize<'a>(&'a Found);

impl fmt::Display for JsonSize<'_> {
    ghost use Rattle.std.specs.Prelude.{Some};
    ghost use Rattle.sd_scan.specs.Json.{size_json};

    ghost output = { λ l. Some (size_json l.0.now) };

    fn fmt<W: fmt::Write>(&self, f: &mut fmt::Formatter<W>) -> fmt::Result {
        let moment = StartMoment(&self.0.start);
        let bytes = self.0.bytes;
        write!(f, "\"bytes\":{bytes},\"moment\":\"{moment}\"")
    }
}

/// The moment of a session.
#[derive(Clone, Copy)]
struct StartMoment<'a>(&'a Option<Start>);

impl fmt::Display for StartMoment<'_> {
    ghost use Rattle.std.specs.Prelude.{Some};
    ghost use Rattle.sd_scan.specs.Json.{start_moment};

    ghost output = { λ l. Some (start_moment l.0.now) };

    fn fmt<W: fmt::Write>(&self, f: &mut fmt::Formatter<W>) -> fmt::Result {
        match self.0 {
            Some(start) => write!(
                f,
                "{}",
                Moment {
                    shown: start.moment
                }
            ),
            None => write!(f, "-"),
        }
    }
}

/// How many volumes and sessions there are.
#[derive(Clone, Copy)]
struct JsonDone(usize, usize);

impl fmt::Display for JsonDone {
    ghost use Rattle.std.specs.Prelude.{Some};
    ghost use Rattle.sd_scan.specs.Json.{done_json};

    ghost output = { λ l. Some (done_json l.0 l.1) };

    fn fmt<W: fmt::Write>(&self, f: &mut fmt::Formatter<W>) -> fmt::Result {
        let (volumes, sessions) = (self.0, self.1);
        write!(
            f,
            "{{\"line\":\"done\",\"volumes\":{volumes},\"sessions\":{sessions}}}"
        )
    }
}
