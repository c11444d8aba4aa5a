// What holds of entries, whatever journal has them.
ghost use Rattle.sd_journal.specs.Laws.{NotingAppends, SettlingMarks, PurgingMarks, SyncsFail, SyncedWithinPlaced};

/// What a placement that is noted changes.
pub fn noting_appends()
    ensures { (entries : _) (p : _) → NotingAppends entries p }
{}

/// What the end of a sync changes, whether it succeeded or failed.
pub fn settling_marks()
    ensures { (mark : _) (volume : _) (entries : _) → SettlingMarks mark volume entries }
{}

/// What purging a volume changes.
pub fn purging_marks()
    ensures { (volume : _) (entries : _) → PurgingMarks volume entries }
{}

/// Which sessions fail by a sync that is over.
pub fn syncs_fail()
    ensures { (volume : _) (entries : _) → SyncsFail volume entries }
{}

/// No session has more synced than placed, and as many exactly if each of its entries is synced; one of which a block
/// is gone has fewer.
pub fn synced_within_placed()
    ensures { (key : _) (entries : _) → SyncedWithinPlaced key entries }
{}
