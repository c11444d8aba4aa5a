// Numbers with a range of their own: a value of such a type is within it, so no call tests it again.
ghost use Rattle.std.specs.Prelude.{◌≡◌, ◌≤◌, ◌↔◌, IsSome, IfSome};
ghost use Rattle.std.specs.Option.{SomeIff};
ghost use Rattle.sd_base.specs.Limits.{most_number, most_drives, most_lanes};

use crate::limits::{MOST_DRIVES, MOST_LANES};
use std::marker::{Model, PhantomData};

/// The greatest FileIndex, Stream, JobId, VolSessionId and VolSessionTime.
pub const MOST_NUMBER: u32 = 0x7fff_ffff;

/// A number from 1 to `MOST`. `K` says what it numbers. In a contract it is that number.
#[derive(Clone, Copy, Debug, PartialEq, Eq, PartialOrd, Ord, Hash)]
pub struct Number<K, const MOST: u32> {
    value: u32,
    kind: PhantomData<K>,
}

/// What a `JobId` numbers.
#[derive(Clone, Copy, Debug, PartialEq, Eq, PartialOrd, Ord, Hash)]
pub struct Job;

/// What a `Ticket` numbers.
#[derive(Clone, Copy, Debug, PartialEq, Eq, PartialOrd, Ord, Hash)]
pub struct Session;

/// What a `DriveNo` numbers.
#[derive(Clone, Copy, Debug, PartialEq, Eq, PartialOrd, Ord, Hash)]
pub struct Drive;

/// What a `LaneNo` numbers.
#[derive(Clone, Copy, Debug, PartialEq, Eq, PartialOrd, Ord, Hash)]
pub struct Lane;

/// The Director's number of a job.
pub type JobId = Number<Job, MOST_NUMBER>;

/// A session's number in this run of the daemon, which is its VolSessionId.
pub type Ticket = Number<Session, MOST_NUMBER>;

/// A drive of the daemon.
pub type DriveNo = Number<Drive, MOST_DRIVES>;

/// A lane of a drive.
pub type LaneNo = Number<Lane, MOST_LANES>;

impl<K, const MOST: u32> Model for Number<K, MOST> {
    ghost use Rattle.std.specs.Prelude.{ℕ, ◌≤◌};

    ghost Value = { ℕ };

    ghost view = { λ n. n.value };

    ghost invariant = { λ n. (1 ≤ n.value) × (n.value ≤ MOST) };

    ghost inverse = { λ n. record { value = n; kind = record {} } };
}

impl<K, const MOST: u32> Number<K, MOST> {
    /// The number `value`, or `None` if it is outside 1 to `MOST`.
    pub fn new(value: u32) -> Option<Self>
        ensures within { IsSome result ↔ ((1 ≤ value) × (value ≤ MOST)) }
        ensures value { IfSome result (λ number. number ≡ value) }
    {
        if value == 0 || value > MOST {
            return None;
        }
        Some(Number {
            value,
            kind: PhantomData,
        })
    }

    pub fn get(self) -> u32
        ensures value { result ≡ self }
        ensures least { 1 ≤ result }
        ensures most { result ≤ MOST }
    {
        self.value
    }
}

/// What `value` numbers, of each type that has a limit: a job or a session up to 2,147,483,647, a drive
/// up to 8, a lane up to 32.
pub fn number_limits(
    value: u32,
) -> (
    Option<JobId>,
    Option<Ticket>,
    Option<DriveNo>,
    Option<LaneNo>,
)
    ensures job { SomeIff result.0 ((1 ≤ value) × (value ≤ most_number)) value }
    ensures ticket { SomeIff result.1 ((1 ≤ value) × (value ≤ most_number)) value }
    ensures drive { SomeIff result.2 ((1 ≤ value) × (value ≤ most_drives)) value }
    ensures lane { SomeIff result.3 ((1 ≤ value) × (value ≤ most_lanes)) value }
{
    (
        JobId::new(value),
        Ticket::new(value),
        DriveNo::new(value),
        LaneNo::new(value),
    )
}

/// What a block says of its session: the time of the run, in seconds, and the session's number in it
/// (as: Bacula Developer's Guide, VolSessionTime and VolSessionId). A volume's label block has 0 and 0.
#[derive(Clone, Copy, Debug, PartialEq, Eq, PartialOrd, Ord, Hash)]
pub struct SessionKey {
    pub time: u32,
    pub id: u32,
}
