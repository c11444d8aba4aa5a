// The collector: the fragments of a session in, its whole records out, past what is lost.
ghost use Rattle.std.specs.Prelude.{◌≡◌, [], ◌∷◌, ◌++◌, List, IfOk, None, Some};
ghost use Rattle.sd_collect.specs.Collect.{Begins, GoesOn, Pends, Takes, due_in, records_in};
ghost use Rattle.sd_collect.specs.Whole.{Gap, Part};
ghost use Rattle.sd_record.specs.Fragment.{Fragment as SpecFragment, IsFragment};
ghost use Rattle.sd_unpack.specs.Damage.{Continues};

use crate::due::{Due, begins, continues};
use sd_base::{Bytes, Rec};
use sd_record::Fragment;
use std::alloc::{AllocError, Global};
use std::marker::Model;
use std::mem;

/// Takes the fragments of a session one after another, and gives each record that they make whole. It is told where some may
/// be lost. It holds one unfinished record at most, with room for all of its data. In a contract it is a `Collecting`.
#[derive(Drop)]
pub struct Collector {
    alloc: Global,
    due: Option<Due>,
    so_far: Vec<u8>,
}

impl Model for Collector {
    ghost use Rattle.std.specs.Prelude.{option_map};
    ghost use Rattle.sd_collect.specs.Collect.{Collecting, IsInRange, due_in};

    ghost Value = { Collecting };

    ghost view = { λ c. record {
      due = option_map due_in c.due;
      so_far = c.so_far.items;
    } };

    ghost invariant = { λ c. IsInRange (option_map due_in c.due) c.so_far.items };
}

impl Collector {
    /// A collector that was given nothing; takes no memory.
    pub fn new(alloc: Global) -> Self
        ensures { result.due ≡ None }
    {
        Collector {
            alloc,
            due: None,
            so_far: Vec::new(alloc),
        }
    }

    /// Takes the next fragment. Gives the record that it makes whole, if it does.
    pub fn take(&mut self, fragment: &Fragment<'_>) -> Result<Option<Rec>, AllocError>
        requires { IsFragment fragment.now }
        ensures { IfOk result (λ rec.
            GoesOn self.old self.new (Part fragment.now ∷ []) (records_in rec)) }
    {
        if begins(fragment) {
            return self.begin(fragment);
        }
        match self.due {
            Some(due) if continues(due, fragment) => self.go_on(due, fragment),
            _ => {
                self.due = None;
                Ok(None)
            }
        }
    }

    /// Goes on after a gap.
    pub fn cut(&mut self)
        ensures goes_on { GoesOn self.old self.new (Gap ∷ []) [] }
        ensures due { self.new.due ≡ None }
    {
        self.due = None;
    }

    // Takes the first fragment of a record.
    fn begin(&mut self, fragment: &Fragment<'_>) -> Result<Option<Rec>, AllocError>
        requires fragment { IsFragment fragment.now }
        requires begins { Begins fragment.now }
        ensures { IfOk result (Takes (fragment.now ∷ []) self.new) }
    {
        let due = Due {
            index: fragment.index as u32,
            stream: fragment.stream as u32,
            left: fragment.size,
        };
        let part = fragment.part;
        if part.len() < due.left as usize {
            self.so_far = begun(self.alloc, part, due.left as usize)?;
            self.due = Some(due.after(part.len()));
            return Ok(None);
        }
        let bytes = Bytes::from_slice(self.alloc, part)?;
        self.due = None;
        Ok(Some(Rec {
            index: due.index,
            stream: due.stream,
            bytes,
        }))
    }

    // Takes a fragment that goes on with the record that is due.
    fn go_on(&mut self, due: Due, fragment: &Fragment<'_>) -> Result<Option<Rec>, AllocError>
        requires due { self.old.due ≡ Some (due_in due) }
        requires fragment { IsFragment fragment.now }
        requires continues { Continues (due_in due) fragment.now }
        ensures { IfOk result (λ rec. (behind : List SpecFragment) → Pends self.old behind
            → Takes (behind ++ fragment.now ∷ []) self.new rec) }
    {
        let part = fragment.part;
        self.so_far.extend_from_slice(part)?;
        if due.left as usize > part.len() {
            self.due = Some(due.after(part.len()));
            return Ok(None);
        }
        self.due = None;
        let bytes = mem::replace(&mut self.so_far, Vec::new(self.alloc));
        Ok(Some(Rec {
            index: due.index,
            stream: due.stream,
            bytes: Bytes::from_vec(bytes),
        }))
    }
}

// The first data of a record of `size` bytes, with room for all of them at once.
fn begun(alloc: Global, part: &[u8], size: usize) -> Result<Vec<u8>, AllocError>
    ensures { IfOk result (λ bytes. bytes.items ≡ part.now) }
{
    let mut bytes = Vec::with_capacity(alloc, size)?;
    bytes.extend_from_slice(part)?;
    Ok(bytes)
}
