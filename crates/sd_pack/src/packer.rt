// The packer: things go in one by one, bodies come out.
ghost use Rattle.std.specs.Prelude.{◌≡◌, ◌≢◌, ◌+◌, ◌-◌, ◌<◌, ◌≤◌, ◌↔◌, [], ◌∷◌, ◌++◌, length, slice_get, IfOk, IfSome, IsSome, OnOk, OnErr};
ghost use Rattle.std.specs.Option.{option_copied, option_to_list};
ghost use Rattle.sd_base.specs.Limits.{block_header, least_block_limit, most_block};
ghost use Rattle.sd_pack.specs.Body.{IsWithin, empty_body};
ghost use Rattle.sd_pack.specs.Packing.{HasOpen, bodies_of, PacksStart, PacksRecord, PacksEnd, AddsRecord, AddsLabel};

use crate::body::Body;
use crate::open_body::OpenBody;
use crate::record_parts::{close_all, first_part, later_bodies};
use sd_base::{BLOCK_HEADER, Rec};
use sd_label::{SessionLabel, session_label_length};
use sd_record::HEADER_LENGTH;
use std::alloc::{AllocError, Global};
use std::collections::VecDeque;
use std::marker::Model;
use std::mem::replace;

/// Packs a session's labels and records into bodies. A body is closed only when the next thing does not
/// go in, or by `finish`. A record's data go on in the next body if they do not fit; a label is never
/// split. In a contract it is a `PackerView`.
#[derive(Drop)]
pub struct Packer {
    alloc: Global,
    room: usize,
    waiting: VecDeque<Body>,
    open_body: OpenBody,
}

impl Model for Packer {
    ghost use Rattle.std.specs.Prelude.{◌-◌};
    ghost use Rattle.std.specs.VecDeque.{deque_len, deque_capacity};
    ghost use Rattle.sd_pack.specs.Packing.{PackerView};
    ghost use Rattle.sd_pack.specs.KeptPacker.{IsPacker};

    ghost Value = { PackerView };

    ghost view = { λ p. record {
      room = p.room;
      waiting = p.waiting.items;
      open_body = p.open_body;
    } };

    ghost invariant = { λ p.
        IsPacker p.room p.waiting.items p.open_body
        (deque_capacity p.waiting - deque_len p.waiting) };
}

impl Packer {
    /// Nothing packed, for blocks of at most `max` bytes, 1,024 to 1,048,576.
    pub fn new(alloc: Global, max: usize) -> Result<Self, AllocError>
        requires least { least_block_limit ≤ max }
        requires most { max ≤ most_block }
        ensures room { IfOk result (λ packer. packer.room ≡ max - block_header) }
        ensures nothing { IfOk result (λ packer. bodies_of packer ≡ []) }
    {
        let room = max - BLOCK_HEADER;
        Ok(Packer {
            alloc,
            room,
            waiting: VecDeque::new(alloc),
            open_body: OpenBody::with_room(alloc, room)?,
        })
    }

    /// Adds a record. With no room for its header the open body is closed; data that do not fit go on in
    /// the next bodies, and none of these is empty. `packs` speaks of a packer with an open body: before
    /// the session's first label, and between `finish` and the next label, there is none, and a record's
    /// bytes are added all the same.
    pub fn put(&mut self, rec: &Rec) -> Result<(), AllocError>
        ensures packs { OnOk result (HasOpen self.old → PacksRecord self.old self.new rec.now) }
        ensures adds { OnOk result (AddsRecord self.old self.new rec.now) }
        ensures opens { OnOk result (HasOpen self.new) }
        ensures room { self.new.room ≡ self.old.room }
        ensures err { OnErr result (self.new ≡ self.old) }
    {
        let free = self.room - self.open_body.len();
        if free < HEADER_LENGTH {
            return self.put_behind(rec);
        }
        let to = rec.bytes.len().min(free - HEADER_LENGTH);
        let later = later_bodies(self.alloc, self.room, rec, to)?;
        self.waiting.reserve(later.len() + 1)?;
        self.open_body.add(&first_part(rec, to))?;
        close_all(&mut self.waiting, &mut self.open_body, later);
        Ok(())
    }

    // The record begins the next body.
    fn put_behind(&mut self, rec: &Rec) -> Result<(), AllocError>
        requires { self.old.room < length self.old.open_body.bytes + 12 }
        ensures packs { OnOk result (HasOpen self.old → PacksRecord self.old self.new rec.now) }
        ensures adds { OnOk result (AddsRecord self.old self.new rec.now) }
        ensures opens { OnOk result (HasOpen self.new) }
        ensures room { self.new.room ≡ self.old.room }
        ensures err { OnErr result (self.new ≡ self.old) }
    {
        let to = rec.bytes.len().min(self.room - HEADER_LENGTH);
        let first = OpenBody::of_fragment(self.alloc, self.room, &first_part(rec, to))?;
        let mut later = later_bodies(self.alloc, self.room, rec, to)?;
        later.push_front(first)?;
        self.waiting.reserve(later.len() + 1)?;
        close_all(&mut self.waiting, &mut self.open_body, later);
        Ok(())
    }

    /// Adds a label, in the next body if the open one has no room for all of it. A session begins with
    /// a label without totals, and ends with one that has those of its records. `ends` speaks of a
    /// packer with an open body, which one has from its first label until `finish`.
    pub fn put_label(&mut self, label: &SessionLabel) -> Result<(), AllocError>
        ensures starts { OnOk result (PacksStart self.old self.new label.now) }
        ensures ends { OnOk result (HasOpen self.old → PacksEnd self.old self.new label.now) }
        ensures adds { OnOk result (AddsLabel self.old self.new label.now) }
        ensures opens { OnOk result (HasOpen self.new) }
        ensures room { self.new.room ≡ self.old.room }
        ensures err { OnErr result (self.new ≡ self.old) }
    {
        let free = self.room - self.open_body.len();
        if free < session_label_length(label) {
            let next = OpenBody::of_label(self.alloc, self.room, label)?;
            self.waiting.reserve(2)?;
            let full = replace(&mut self.open_body, next);
            self.waiting.push_back_reserved(full.close());
            return Ok(());
        }
        self.waiting.reserve(1)?;
        self.open_body.add_label(label)?;
        Ok(())
    }

    /// Closes the open body, if there is one. Takes no memory.
    pub fn finish(&mut self)
        ensures closed { self.new.waiting ≡ bodies_of self.old }
        ensures none_open { self.new.open_body ≡ empty_body }
        ensures room { self.new.room ≡ self.old.room }
    {
        if self.open_body.len() > 0 {
            let last = replace(&mut self.open_body, OpenBody::empty(self.alloc));
            self.waiting.push_back_reserved(last.close());
        }
    }

    /// The closed body that has waited longest.
    pub fn front_body(&self) -> Option<&Body>
        ensures { option_copied result ≡ slice_get self.now.waiting 0 }
    {
        self.waiting.front()
    }

    /// Takes the closed body that has waited longest. Takes no memory.
    pub fn take_body(&mut self) -> Option<Body>
        ensures variant { IsSome result ↔ (self.old.waiting ≢ []) }
        ensures first { self.old.waiting ≡ option_to_list result ++ self.new.waiting }
        ensures size { IfSome result (λ body. IsWithin self.old.room body) }
        ensures open_body { self.new.open_body ≡ self.old.open_body }
        ensures room { self.new.room ≡ self.old.room }
    {
        self.waiting.pop_front()
    }

    /// Gives back the memory that it has for bodies to wait in and that none needs, if no body is open. A record that
    /// is cut into many bodies makes room for all of them.
    pub fn shrink(&mut self)
        ensures { self.new ≡ self.old }
    {
        if self.open_body.len() == 0 {
            self.waiting.shrink_to(0);
        }
    }

    /// The closed bodies that wait.
    pub fn waiting(&self) -> usize
        ensures { result ≡ length self.now.waiting }
    {
        self.waiting.len()
    }
}
