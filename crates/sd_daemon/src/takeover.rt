// Whether a volume is adopted at the start, and how.
ghost use Rattle.std.specs.Prelude.{◌≡◌};
ghost use Rattle.sd_daemon.specs.Takeover.{asked_takeover, damaged_at, noted_takeover, takeover_of, takes_name};

use sd_base::Refusal;
use sd_judge::Judgement;
use sd_note::Note;

/// What becomes of a volume at the start.
#[derive(Clone, Copy, Debug, PartialEq, Eq)]
pub(crate) enum Takeover {
    /// It is adopted by its note.
    ByNote(Note),
    /// It is adopted by reading all of it.
    Whole,
    /// It is adopted by reading all of it though it is damaged, since the operator said so. Its note goes before.
    AsAsked,
    /// It isn't adopted: it is damaged at this place.
    Damaged { at: u64 },
    /// It isn't adopted: a sync of it failed when the disk had so many bytes of it.
    Torn { at: u64 },
    /// It isn't adopted, for this refusal.
    Refused(Refusal),
}

/// What becomes of a volume that was judged so. What is behind the length at which a note says that it is torn may be what the
/// disk never had, also if it reads as whole blocks: so it isn't adopted.
pub(crate) fn takeover_of(judgement: Option<Judgement>) -> Takeover
    ensures { result ≡ takeover_of judgement }
{
    match judgement {
        Some(Judgement::Noted(note)) => by_note(note),
        Some(Judgement::Whole) => Takeover::Whole,
        Some(Judgement::Damaged { at }) => Takeover::Damaged { at },
        Some(Judgement::NotOurs) => Takeover::Refused(Refusal::NotOurVolume),
        Some(Judgement::NotThere) => Takeover::Refused(Refusal::VolumeNotOnShelf),
        None => Takeover::Refused(Refusal::DeviceFault),
    }
}

// What becomes of a volume whose note counts, and at whose noted place the last block stands.
fn by_note(note: Note) -> Takeover
    ensures { result ≡ noted_takeover note note.torn }
{
    match note.torn {
        Some(at) => Takeover::Torn { at },
        None => Takeover::ByNote(note),
    }
}

/// What becomes of a volume of which the operator said that it is to be adopted even if it is damaged.
pub(crate) fn asked_takeover(takeover: Takeover) -> Takeover
    ensures { result ≡ asked_takeover takeover }
{
    match takeover {
        Takeover::Damaged { .. } | Takeover::Torn { .. } => Takeover::AsAsked,
        other => other,
    }
}

/// Whether the name of a volume is its drive's from then on: it was adopted, or is damaged.
pub(crate) fn takes_name(takeover: Takeover) -> bool
    ensures { result ≡ takes_name takeover }
{
    !matches!(takeover, Takeover::Refused(_))
}

/// Where a volume is damaged or torn that isn't adopted for that.
pub(crate) fn damaged_at(takeover: Takeover) -> Option<u64>
    ensures { result ≡ damaged_at takeover }
{
    match takeover {
        Takeover::Damaged { at } | Takeover::Torn { at } => Some(at),
        _ => None,
    }
}
