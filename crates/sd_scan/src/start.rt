// The start label of a session.
ghost use Rattle.std.specs.Prelude.{ℕ, List, IfSome, IfNone};
ghost use Rattle.sd_label.specs.declared.label.SessionLabel.{SessionLabel as SpecLabel};
ghost use Rattle.sd_scan.specs.Found.{BeginsWithStart, IsShownAt};

use crate::fragment::fragment_at;
use jiff::Timestamp;
use jiff::civil::DateTime;
use jiff::tz::Offset;
use sd_label::{SessionLabel, read_session_label};

/// The start label that a body begins with, if it does.
pub fn start_label_in(body: &[u8]) -> Option<SessionLabel>
    ensures some { IfSome result (BeginsWithStart body.now) }
    ensures none { IfNone result ((label : SpecLabel) → ¬ BeginsWithStart body.now label) }
{
    let Some((_, next)) = fragment_at(body, 0) else {
        return None;
    };
    let Ok(label) = read_session_label(&body[..next]) else {
        return None;
    };
    if label.totals.is_some() {
        return None;
    }
    Some(label)
}

/// What a clock of UTC shows at a moment, in microseconds since 1970; none if no date has it.
pub(crate) fn shown_at(moment: i64) -> Option<DateTime>
    ensures { IsShownAt moment result }
{
    match Timestamp::from_microsecond(moment) {
        Ok(instant) => Some(Offset::UTC.to_datetime(instant)),
        Err(_) => None,
    }
}
