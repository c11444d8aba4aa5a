// Sessions that have blocks on volumes.
ghost use Rattle.std.specs.Prelude.{◌≡◌, ◌+◌, ◌<◌, ◌≤◌, ◌++◌, ◌∷◌, [], ◌==◌, if◌then◌else◌};
ghost use Rattle.std.specs.List.{list_any};
ghost use Rattle.std.specs.Vec.{vec_len, vec_capacity};
ghost use Rattle.sd_journal.specs.Journal.{is_purged};
ghost use Rattle.sd_journal.specs.Share.{share_of, lies, with_marks};

use crate::mark::Mark;
use crate::shares::Shares;
use sd_base::SessionKey;

/// A session that has blocks on the volume whose name is at this place.
#[derive(Clone, Copy, Drop)]
pub(crate) struct Lying {
    pub(crate) volume: u32,
    pub(crate) key: SessionKey,
}

/// Adds one if it is new, in the room that was made for it. Takes no memory.
pub(crate) fn add_if(all: &mut Vec<Lying>, is_new: bool, one: Lying)
    requires { vec_len all.old < vec_capacity all.old }
    ensures items { all.new.items
        ≡ (if is_new then all.old.items ++ one ∷ [] else all.old.items) }
    ensures count { vec_len all.new ≤ vec_len all.old + 1 }
    ensures capacity { vec_capacity all.new ≡ vec_capacity all.old }
{
    if is_new {
        all.push_reserved(one);
    }
}

/// Adds one unless it is there, in the room that was made for it. Takes no memory.
pub(crate) fn add_unless(all: &mut Vec<Lying>, one: Lying)
    requires { vec_len all.old < vec_capacity all.old }
    ensures items { all.new.items ≡ (if lies one.key one.volume all.old.items
        then all.old.items
        else all.old.items ++ one ∷ []) }
    ensures count { vec_len all.new ≤ vec_len all.old + 1 }
    ensures capacity { vec_capacity all.new ≡ vec_capacity all.old }
{
    if !lies(all, one.key, one.volume) {
        all.push_reserved(one);
    }
}

// Whether the session is among those on the volume at this place.
fn lies(all: &[Lying], key: SessionKey, volume: u32) -> bool
    ensures { result ≡ lies key volume all.now }
{
    all.iter().any(|one| volume == one.volume && key == one.key)
}

/// Whether any session is on the volume at this place.
pub(crate) fn any_lies(all: &[Lying], volume: u32) -> bool
    ensures { result ≡ list_any (λ l. volume == l.volume) all.now }
{
    all.iter().any(|one| volume == one.volume)
}

/// After a call on the volume at this place, by which blocks there get that mark: a purge marks all that are on it, another those
/// that await a sync of it.
pub(crate) fn mark_those(
    on: &[Lying],
    awaiting: &[Lying],
    shares: &mut Shares,
    volume: u32,
    mark: Mark,
)
    ensures { (key : _) → share_of shares.new key
        ≡ (if lies key volume (if is_purged mark then on.now else awaiting.now)
        then with_marks mark volume (share_of shares.old key)
        else share_of shares.old key) }
{
    let those = if mark.is_purged() { on } else { awaiting };
    mark_lying(those, shares, volume, mark);
}

fn mark_lying(all: &[Lying], shares: &mut Shares, volume: u32, mark: Mark)
    ensures { (key : _) → share_of shares.new key
        ≡ (if lies key volume all.now
        then with_marks mark volume (share_of shares.old key)
        else share_of shares.old key) }
{
    for one in all {
        if volume == one.volume {
            shares.mark(one.key, volume, mark);
        }
    }
}
