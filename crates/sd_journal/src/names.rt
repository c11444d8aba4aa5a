// The names of the volumes that a journal's entries lie on.
ghost use Rattle.std.specs.Prelude.{◌≡◌, ◌≢◌, ◌↔◌, AllPairs, ◌+◌, ◌<◌, ◌≤◌, [], length, IsTrue, OnOk, OnErr};
ghost use Rattle.sd_journal.specs.Names.{name_at, with_name, IsPlaceOf};

use sd_base::VolName;
use std::alloc::{AllocError, Global};
use std::marker::Model;

/// The names of volumes, each once. An entry tells its volume by its name's place here.
#[derive(Drop)]
pub(crate) struct Names {
    names: Vec<VolName>,
    // For how many names more there is memory, and a place.
    room: u32,
}

impl Model for Names {
    ghost use Rattle.std.specs.Prelude.{◌+◌};
    ghost use Rattle.std.specs.Vec.{vec_len, vec_capacity};
    ghost use Rattle.sd_journal.specs.Names.{NamesView, AreKept};

    ghost Value = { NamesView };

    ghost view = { λ n. record { names = n.names.items; room = n.room } };

    ghost invariant = { λ n. AreKept n.names.items (vec_len n.names) (vec_capacity n.names) n.room };
}

impl Names {
    /// No names, and no room; takes no memory.
    pub(crate) fn new(alloc: Global) -> Self
        ensures { result ≡ record { names = []; room = 0 } }
    {
        Names {
            names: Vec::new(alloc),
            room: 0,
        }
    }

    /// The name at this place.
    pub(crate) fn get(&self, place: u32) -> &VolName
        requires { place < length self.now.names }
        ensures { result.now ≡ name_at self.now.names place }
    {
        &self.names[place as usize]
    }

    /// The place of this name, if it is here. Looks at the place `likely` first.
    pub(crate) fn find(&self, name: &VolName, likely: u32) -> Option<u32>
        ensures { IsPlaceOf self.now.names name.now result }
    {
        let count = self.names.len() as u32;
        if self.is_at(likely, name) {
            return Some(likely);
        }
        for place in 0..count {
            if self.is_at(place, name) {
                return Some(place);
            }
        }
        None
    }

    // Whether this name is at the place.
    fn is_at(&self, place: u32, name: &VolName) -> bool
        ensures { IsTrue result
            ↔ ((place < length self.now.names) × (name_at self.now.names place ≡ name.now)) }
    {
        match self.names.get(place as usize) {
            Some(there) => there.is_same(name),
            None => false,
        }
    }

    /// Makes room for so many names more. After an Err all is as before; it is returned if out of memory,
    /// or if a place would be no `u32` any more.
    pub(crate) fn reserve(&mut self, more: usize) -> Result<(), AllocError>
        ensures names { self.new.names ≡ self.old.names }
        ensures room { self.old.room ≤ self.new.room }
        ensures ok { OnOk result (more ≤ self.new.room) }
        ensures err { OnErr result (self.new ≡ self.old) }
    {
        if more <= self.room as usize {
            return Ok(());
        }
        if more > u32::MAX as usize - self.names.len() {
            return Err(AllocError);
        }
        self.names.reserve(more)?;
        self.room = more as u32;
        Ok(())
    }

    /// The place of this name, which is added after the others if it isn't here yet, in the room that was made for it.
    /// Looks at the place `likely` first. Takes no memory.
    pub(crate) fn index_of(&mut self, name: &VolName, likely: u32) -> u32
        requires { 0 < self.old.room }
        ensures names { self.new.names ≡ with_name name.now self.old.names }
        ensures room { self.old.room ≤ self.new.room + 1 }
        ensures within { result < length self.new.names }
        ensures named { name_at self.new.names result ≡ name.now }
        ensures different { AllPairs (λ a b. a ≢ b) self.new.names }
    {
        if let Some(place) = self.find(name, likely) {
            return place;
        }
        let place = self.names.len() as u32;
        self.names.push_reserved(name.copy());
        self.room -= 1;
        place
    }
}
