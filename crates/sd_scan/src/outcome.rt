// What a scan comes to.
ghost use Rattle.std.specs.Prelude.{◌≡◌};
ghost use Rattle.sd_scan.specs.Lines.{of_report, of_volumes, worse};

use crate::report::Report;

/// What a scan came to.
#[derive(Clone, Copy, Debug, PartialEq, Eq)]
pub enum Outcome {
    /// Nothing is damaged, and all of each session is there.
    Sound,
    /// Nothing is damaged, but a session has no end: it was cancelled, goes on, or lost its last blocks.
    Unended,
    /// A volume is damaged, or a session has a body that can't follow those before it.
    Damaged,
}

impl Outcome {
    /// The worse of the two.
    pub(crate) fn or_worse(self, other: Outcome) -> Outcome
        ensures { result ≡ worse self other }
    {
        match (self, other) {
            (Outcome::Damaged, _) | (_, Outcome::Damaged) => Outcome::Damaged,
            (Outcome::Unended, _) | (_, Outcome::Unended) => Outcome::Unended,
            (Outcome::Sound, Outcome::Sound) => Outcome::Sound,
        }
    }

    /// What volumes come to by themselves.
    pub(crate) fn of_volumes(undamaged: bool) -> Outcome
        ensures { result ≡ of_volumes undamaged }
    {
        if undamaged {
            Outcome::Sound
        } else {
            Outcome::Damaged
        }
    }

    /// What a session comes to.
    pub(crate) fn of_report(report: &Report) -> Outcome
        ensures { result ≡ of_report report.now }
    {
        if report.broken {
            return Outcome::Damaged;
        }
        if report.ended {
            Outcome::Sound
        } else {
            Outcome::Unended
        }
    }
}
