// Whether a placed block is synced.
ghost use Rattle.std.specs.Prelude.{◌≡◌};
ghost use Rattle.sd_journal.specs.Journal.{is_unsynced, is_synced, is_lost, is_purged};

/// Whether a placed block is synced.
#[derive(Clone, Copy, Debug, PartialEq, Eq)]
pub enum Mark {
    /// Not yet.
    Unsynced,
    Synced,
    /// A sync of its volume failed while it was not: it stays unsynced for good.
    Lost,
    /// Its volume was purged: it is gone.
    Purged,
}

impl Mark {
    pub(crate) fn is_unsynced(self) -> bool
        ensures { result ≡ is_unsynced self }
    {
        matches!(self, Mark::Unsynced)
    }

    pub(crate) fn is_synced(self) -> bool
        ensures { result ≡ is_synced self }
    {
        matches!(self, Mark::Synced)
    }

    pub(crate) fn is_lost(self) -> bool
        ensures { result ≡ is_lost self }
    {
        matches!(self, Mark::Lost)
    }

    pub(crate) fn is_purged(self) -> bool
        ensures { result ≡ is_purged self }
    {
        matches!(self, Mark::Purged)
    }
}
