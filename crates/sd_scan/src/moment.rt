// The moment of a session.
use jiff::civil::DateTime;
use std::fmt;

/// What a clock of UTC shows at a moment. Displays it with the zone, and a moment that none shows as `-`.
#[derive(Clone, Copy)]
pub struct Moment {
    pub shown: Option<DateTime>,
}

impl fmt::Display for Moment {
    ghost use Rattle.std.specs.Prelude.{Some};
    ghost use Rattle.sd_scan.specs.Words.{moment_text};

    ghost output = { λ m. Some (moment_text m) };

    fn fmt<W: fmt::Write>(&self, f: &mut fmt::Formatter<W>) -> fmt::Result {
        match self.shown {
            Some(shown) => write!(f, "{shown}Z"),
            None => write!(f, "-"),
        }
    }
}
