// What a journal keeps of each session.
ghost use Rattle.std.specs.Prelude.{◌≡◌, ◌+◌, ◌<◌, ◌^◌, None, true, false, OnOk, OnErr};
ghost use Rattle.std.specs.List.{list_any};
ghost use Rattle.std.specs.Option.{option_copied, ForSome};
ghost use Rattle.sd_journal.specs.Share.{share_of, ChangesAt, SameShares, readied, with_noted, with_marks, HasRoom};
ghost use Rattle.sd_journal.specs.Stretch.{is_on};

use crate::mark::Mark;
use crate::noted::Noted;
use crate::share::Share;
use sd_base::SessionKey;
use std::alloc::{AllocError, Global};
use std::collections::HashMap;

/// What a journal keeps of each session, found by its key's hash.
#[derive(Drop)]
pub(crate) struct Shares {
    sessions: HashMap<SessionKey, Share>,
}

impl Shares {
    pub(crate) fn new(alloc: Global) -> Self
        ensures { (key : _) → share_of result key ≡ None }
    {
        Shares {
            sessions: HashMap::new(alloc),
        }
    }

    pub(crate) fn get(&self, key: SessionKey) -> Option<&Share>
        ensures { option_copied result ≡ share_of self.now key }
    {
        self.sessions.get(&key)
    }

    /// Makes room for one stretch more of the session. After an Err all is as before.
    pub(crate) fn ready(&mut self, alloc: Global, key: SessionKey) -> Result<(), AllocError>
        ensures ok { OnOk result (ChangesAt key readied self.old self.new) }
        ensures err { OnErr result (SameShares self.old self.new) }
    {
        if let Some(share) = self.sessions.get_mut(&key) {
            share.ready()?;
            return Ok(());
        }
        let share = Share::new(alloc)?;
        let Ok(_) = self.sessions.insert(key, share) else {
            return Err(AllocError);
        };
        Ok(())
    }

    /// Adds one block more of its session, which has room for it. Returns the session's last FileIndex before, and whether a
    /// stretch began.
    pub(crate) fn note(&mut self, noted: &Noted) -> (u32, bool)
        requires end { noted.now.start + noted.now.length < 2 ^ 64 }
        requires room { HasRoom (share_of self.old noted.now.key) }
        requires fits { ForSome (share_of self.old noted.now.key)
            (λ s. s.placed + 1 < 2 ^ 64) }
        ensures share { ChangesAt noted.now.key (with_noted noted.now) self.old self.new }
        ensures last { ForSome (share_of self.old noted.now.key)
            (λ s. result.0 ≡ s.last) }
        ensures on { ForSome (share_of self.old noted.now.key) (λ s. result.1 ≡ false
            → list_any (is_on noted.now.volume) s.stretches ≡ true) }
    {
        match self.sessions.get_mut(&noted.key) {
            Some(share) => share.note(noted),
            None => (0, true),
        }
    }

    /// After a call on the volume at this place, by which blocks of the session there get that mark.
    pub(crate) fn mark(&mut self, key: SessionKey, volume: u32, mark: Mark)
        ensures { ChangesAt key (with_marks mark volume) self.old self.new }
    {
        if let Some(share) = self.sessions.get_mut(&key) {
            share.mark(volume, mark);
        }
    }
}
