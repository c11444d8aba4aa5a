// What the clock says: the time of a run, and the moment of a talk.
ghost use Rattle.std.specs.Prelude.{◌≡◌, ◌≤◌, ◌↔◌, ◌/◌, ◌-◌, ◌^◌, min, pos, IsSome, IfSome};
ghost use Rattle.std.specs.Duration.{as_nanos};
ghost use Rattle.sd_base.specs.Limits.{most_number};

use sd_base::MOST_NUMBER;
use std::time::{Clock, Duration, SystemTime, UNIX_EPOCH};

/// The time of a run that begins so long after 1970 began, in whole seconds; `None` if that is no time of a run.
pub fn time_of(since: Duration) -> Option<u32>
    ensures within { IsSome result ↔ ((1 ≤ as_nanos since / 1_000_000_000)
        × (as_nanos since / 1_000_000_000 ≤ most_number)) }
    ensures value { IfSome result (λ time. time ≡ as_nanos since / 1_000_000_000) }
{
    let seconds = since.as_secs();
    if seconds == 0 || seconds > u64::from(MOST_NUMBER) {
        return None;
    }
    Some(seconds as u32)
}

/// The moment so long after 1970 began, in microseconds; the greatest that 64 bits hold if it is later.
pub fn moment_of(since: Duration) -> i64
    ensures { result ≡ pos (min (as_nanos since / 1_000) (2 ^ 63 - 1)) }
{
    let micros = since.as_micros();
    if micros > i64::MAX as u128 {
        return i64::MAX;
    }
    micros as i64
}

/// How long ago 1970 began; `None` if the clock can't be read, or says a time before that.
pub fn since_1970<C: Clock>(clock: &C) -> Option<Duration> {
    let now = SystemTime::now(clock).ok()?;
    now.duration_since(UNIX_EPOCH).ok()
}

/// The moment now, in microseconds; 0 if the clock can't be read, or says a time before 1970.
pub fn moment_now<C: Clock>(clock: &C) -> i64 {
    match since_1970(clock) {
        Some(since) => moment_of(since),
        None => 0,
    }
}
