// The blocks of a journal, in few bytes each.
ghost use Rattle.std.specs.Prelude.{◌≡◌, ◌+◌, ◌-◌, ◌<◌, ◌≤◌, ◌^◌, ◌==◌, ◌++◌, ◌∷◌, [], All, map, length, if◌then◌else◌, false, IfOk, OnOk, OnErr};
ghost use Rattle.std.specs.List.{flat_map, fold};
ghost use Rattle.std.specs.Vec.{vec_items, vec_len, vec_capacity};
ghost use Rattle.sd_span.specs.Spans.{placements_of};
ghost use Rattle.sd_journal.specs.Noted.{IsNamed, placement_of, last_index, own_of};
ghost use Rattle.sd_journal.specs.Cells.{told_by, behind, first_by, length_by, gap_by, nothing, HasKey, IsThere};
ghost use Rattle.sd_journal.specs.Walk.{walk_of, walk_step};

use crate::names::Names;
use crate::noted::Noted;
use crate::stretch::first_of;
use sd_base::{Items, MOST_BLOCK, SessionKey};
use sd_span::Placement;
use std::alloc::{AllocError, Global};
use std::marker::Model;
use std::mem::replace;

// How many numbers tell how far the last FileIndex of a block is from its first: in a block of the usual kind, and in a long one.
const GAPS: u32 = 0x4000;

const FEW_GAPS: u32 = 0x400;

// How far a length is told from the greatest one of a block.
const DEFICITS: u32 = 0x800;

// A number of a key is below this, so that its highest bit is left to tell the form of a cell.
const FORM: u32 = 0x8000_0000;

// The code of a block that is kept whole.
const WHOLE: u16 = u16::MAX;

// How a block differs from the one before it, and from the last one of its session. It begins where the one before it ends,
// and its first FileIndex is 0, that with which its session went before, or the next one. `code` says which, and how far its
// last one is from that. The highest bits of `time` and `id` say how the length is told: as it is; of a block longer than 65,535
// bytes with some bits of `code`; or of one of nearly the greatest length by what it lacks of that, with more bits for the
// FileIndexes. If none of that fits, the code is `WHOLE`, and `time` is its place among those that are kept whole.
#[derive(Clone, Copy, Drop)]
pub(crate) struct Cell {
    pub(crate) time: u32,
    pub(crate) id: u32,
    pub(crate) length: u16,
    pub(crate) code: u16,
}

// What a placed block costs.
const _: () = prove!(size_of::<Cell>() == 12);

// Where a block ends: the place of its volume's name, and the byte behind it.
#[derive(Clone, Copy, Drop)]
pub(crate) struct Tail {
    pub(crate) volume: u32,
    pub(crate) end: u64,
}

// So many cells are a chunk, or twice as many as are to be pushed before the next room is made, if that is more: so it takes as many
// more before there is no room for one more of these.
const CHUNK: usize = 4096;

/// The blocks that were noted, in order. A block of a session that goes on takes 12 bytes, whatever the sessions beside it; one
/// that isn't behind the block before it, as the first one on a volume, takes 52. The cells lie in chunks, so that none of them is
/// moved when there are more.
#[derive(Drop)]
pub(crate) struct Cells {
    alloc: Global,
    // The chunks that have no room, and the last one.
    full: Vec<Vec<Cell>>,
    cells: Vec<Cell>,
    whole: Vec<Noted>,
    // How many blocks there are.
    count: u64,
    // Where the last block ends.
    tail: Tail,
    // For how many blocks more there is memory, and a place.
    room: u32,
}

impl Model for Cells {
    ghost use Rattle.std.specs.Prelude.{◌++◌};
    ghost use Rattle.std.specs.List.{flat_map};
    ghost use Rattle.std.specs.Vec.{vec_items, vec_len, vec_capacity};
    ghost use Rattle.sd_journal.specs.Cells.{CellsView, AreCells, told};

    ghost Value = { CellsView };

    ghost view = { λ c. record {
      noted = told c.whole.items (flat_map vec_items c.full.items ++ c.cells.items);
      room = c.room;
    } };

    ghost invariant = { λ c. AreCells (flat_map vec_items c.full.items ++ c.cells.items) c.whole.items c.count c.tail
        (vec_len c.cells) (vec_capacity c.cells) (vec_len c.whole) (vec_capacity c.whole) c.room };
}

impl Cells {
    /// No blocks, and no room; takes no memory.
    pub(crate) fn new(alloc: Global) -> Self
        ensures { result ≡ record { noted = []; room = 0 } }
    {
        Cells {
            alloc,
            full: Vec::new(alloc),
            cells: Vec::new(alloc),
            whole: Vec::new(alloc),
            count: 0,
            tail: Tail { volume: 0, end: 0 },
            room: 0,
        }
    }

    /// The place of the last block's volume; 0 if there is no block.
    pub(crate) fn last_volume(&self) -> u32
        ensures few { length self.now.noted + 1 < 2 ^ 64 }
    {
        self.tail.volume
    }

    /// Makes room for so many blocks more. After an Err all is as before; it is returned if out of memory, or if a block that
    /// is kept whole could have no place that is a `u32`, or their number could be no `u64`.
    pub(crate) fn reserve(&mut self, more: usize) -> Result<(), AllocError>
        ensures noted { self.new.noted ≡ self.old.noted }
        ensures room { self.old.room ≤ self.new.room }
        ensures ok { OnOk result (more ≤ self.new.room) }
        ensures err { OnErr result (self.new ≡ self.old) }
    {
        if more <= self.room as usize {
            return Ok(());
        }
        if more > (u32::MAX as usize).saturating_sub(self.whole.len()) {
            return Err(AllocError);
        }
        if more as u64 >= (u64::MAX - 1).saturating_sub(self.count) {
            return Err(AllocError);
        }
        self.whole.reserve(more)?;
        seal(self.alloc, &mut self.full, &mut self.cells, more)?;
        self.room = more as u32;
        Ok(())
    }

    /// Adds a block, in the room that was made for it; `was` is the last FileIndex of its session before it. Takes no memory.
    pub(crate) fn push(&mut self, noted: Noted, was: u32)
        requires room { 0 < self.old.room }
        requires was { was ≡ last_index noted.key self.old.noted }
        ensures { self.new ≡ record {
          noted = self.old.noted ++ noted ∷ [];
          room = self.old.room - 1;
        } }
    {
        let cell = cell_of(&mut self.whole, noted, was, self.tail);
        self.cells.push_reserved(cell);
        self.count += 1;
        self.tail = behind(&noted);
        self.room -= 1;
    }

    /// The session's own placements, in order. Looks at all blocks.
    pub(crate) fn placements(
        &self,
        alloc: Global,
        names: &Names,
        key: SessionKey,
    ) -> Result<Items<Placement>, AllocError>
        requires { All (IsNamed names.now.names) self.now.noted }
        ensures { IfOk result (λ own. own
            ≡ placements_of key (map (placement_of names.now.names) self.now.noted)) }
    {
        let own = self.own(alloc, key)?;
        placements_of(alloc, names, &own)
    }

    // The session's own blocks, in order.
    fn own(&self, alloc: Global, key: SessionKey) -> Result<Vec<Noted>, AllocError>
        ensures { IfOk result (λ own. own.items ≡ own_of key self.now.noted) }
    {
        let mut walked = Walked {
            own: Vec::new(alloc),
            tail: Tail { volume: 0, end: 0 },
            was: 0,
        };
        for chunk in &self.full {
            walk(&self.whole, chunk, key, &mut walked)?;
        }
        walk(&self.whole, &self.cells, key, &mut walked)?;
        let Walked {
            own,
            tail: _,
            was: _,
        } = walked;
        Ok(own)
    }
}

// What was found of a session, as far as its cells were looked at: its blocks, where the last block ends, and its last FileIndex.
#[derive(Drop)]
pub(crate) struct Walked {
    own: Vec<Noted>,
    tail: Tail,
    was: u32,
}

// Makes room for so many cells more in the last chunk, which else is full, and another is the last one.
fn seal(
    alloc: Global,
    full: &mut Vec<Vec<Cell>>,
    cells: &mut Vec<Cell>,
    more: usize,
) -> Result<(), AllocError>
    ensures all { flat_map vec_items full.new.items ++ cells.new.items
        ≡ flat_map vec_items full.old.items ++ cells.old.items }
    ensures ok { OnOk result (vec_len cells.new + more ≤ vec_capacity cells.new) }
    ensures err { OnErr result (cells.new ≡ cells.old) }
{
    if more <= cells.capacity() - cells.len() {
        return Ok(());
    }
    full.reserve(1)?;
    let next = Vec::with_capacity(alloc, more.saturating_mul(2).max(CHUNK))?;
    full.push_reserved(replace(cells, next));
    Ok(())
}

// The cell that tells a block behind that place, whose session's last FileIndex was that. It is kept whole if no other does.
fn cell_of(whole: &mut Vec<Noted>, noted: Noted, was: u32, tail: Tail) -> Cell
    requires room { vec_len whole.old < vec_capacity whole.old }
    requires place { vec_len whole.old < 2 ^ 32 }
    ensures told { told_by whole.new.items result was tail ≡ noted }
    ensures key { (result.code == 65535) ≡ false → HasKey noted.key result }
    ensures there { IsThere whole.new.items result }
    ensures whole { whole.new.items
        ≡ whole.old.items ++ (if result.code == 65535 then noted ∷ [] else []) }
    ensures count { vec_len whole.new ≤ vec_len whole.old + 1 }
    ensures capacity { vec_capacity whole.new ≡ vec_capacity whole.old }
{
    let near = near(&noted, was);
    if told_by(whole, near, was, tail).is_same(&noted) {
        return near;
    }
    let place = whole.len() as u32;
    whole.push_reserved(noted);
    kept_at(place)
}

// Looks for blocks of the session among these cells, behind those that were looked at.
fn walk(
    whole: &[Noted],
    cells: &[Cell],
    key: SessionKey,
    walked: &mut Walked,
) -> Result<(), AllocError>
    ensures { OnOk result (walk_of walked.new
        ≡ fold (walk_step whole.now key) (walk_of walked.old) cells.now) }
{
    for cell in cells {
        let noted = told_by(whole, *cell, walked.was, walked.tail);
        walked.tail = behind(&noted);
        if key == noted.key {
            walked.own.push(noted)?;
            walked.was = first_of(noted.last, walked.was);
        }
    }
    Ok(())
}

fn placements_of(
    alloc: Global,
    names: &Names,
    own: &[Noted],
) -> Result<Items<Placement>, AllocError>
    requires { All (IsNamed names.now.names) own.now }
    ensures { IfOk result (λ all. all ≡ map (placement_of names.now.names) own.now) }
{
    let mut all = Vec::with_capacity(alloc, own.len())?;
    for noted in own {
        all.push(noted.placement(names))?;
    }
    Ok(Items::from_vec(all))
}

// The cell of a block that is kept whole at this place.
fn kept_at(place: u32) -> Cell
    ensures { result ≡ record { time = place; id = 0; length = 0; code = 65535 } }
{
    Cell {
        time: place,
        id: 0,
        length: 0,
        code: WHOLE,
    }
}

// The cell that may tell a block, if it begins where the one before it ends, and its numbers are near enough.
fn near(noted: &Noted, was: u32) -> Cell
    ensures { result.code < 65535 }
{
    let kind = if noted.first == 0 {
        0
    } else if noted.first == was {
        1
    } else {
        2
    };
    let gap = noted.last.saturating_sub(noted.first);
    let length = noted.length.min(MOST_BLOCK as u64) as u32;
    let (time, id) = (noted.key.time % FORM, noted.key.id % FORM);
    if length <= u16::MAX as u32 {
        return packed(time, id, length, kind, gap);
    }
    if gap < FEW_GAPS {
        let high = (length - 1) / 0x1_0000 * FEW_GAPS;
        return packed(
            time + FORM,
            id,
            (length - 1) % 0x1_0000,
            kind,
            high.saturating_add(gap),
        );
    }
    let high = (gap / GAPS).saturating_mul(DEFICITS);
    packed(
        time,
        id + FORM,
        high.saturating_add(MOST_BLOCK as u32 - length),
        kind,
        gap % GAPS,
    )
}

// A cell of these numbers, each of which is the greatest that it can be if it is too great.
fn packed(time: u32, id: u32, length: u32, kind: u32, gap: u32) -> Cell
    requires { kind < 3 }
    ensures { result.code < 65535 }
{
    Cell {
        time,
        id,
        length: length.min(u16::MAX as u32) as u16,
        code: (kind * GAPS + gap.min(GAPS - 1)) as u16,
    }
}

// The block that a cell tells behind that place, if its session's last FileIndex was that.
fn told_by(whole: &[Noted], cell: Cell, was: u32, tail: Tail) -> Noted
    ensures { result ≡ told_by whole.now cell was tail }
{
    if cell.code == WHOLE {
        return match whole.get(cell.time as usize) {
            Some(noted) => *noted,
            None => nothing(),
        };
    }
    let code = cell.code as u32;
    let first = first_by(code / GAPS, was);
    Noted {
        key: SessionKey {
            time: cell.time % FORM,
            id: cell.id % FORM,
        },
        start: tail.end,
        length: length_by(cell) as u64,
        volume: tail.volume,
        first,
        last: first.wrapping_add(gap_by(cell)),
    }
}

// The length that a cell tells.
fn length_by(cell: Cell) -> u32
    ensures { result ≡ length_by cell }
{
    let length = cell.length as u32;
    if cell.time >= FORM {
        1 + length + cell.code as u32 % GAPS / FEW_GAPS * 0x1_0000
    } else if cell.id >= FORM {
        MOST_BLOCK as u32 - length % DEFICITS
    } else {
        length
    }
}

// How far it tells the last FileIndex from the first.
fn gap_by(cell: Cell) -> u32
    ensures { result ≡ gap_by cell }
{
    let code = cell.code as u32;
    if cell.time >= FORM {
        code % FEW_GAPS
    } else if cell.id >= FORM {
        code % GAPS + cell.length as u32 / DEFICITS * GAPS
    } else {
        code % GAPS
    }
}

// What a place tells at which nothing is kept: there is no such cell.
fn nothing() -> Noted
    ensures { result ≡ nothing }
{
    Noted {
        key: SessionKey { time: 0, id: 0 },
        start: 0,
        length: 0,
        volume: 0,
        first: 0,
        last: 0,
    }
}

// The first FileIndex of a block of this kind, if its session's last one was that.
fn first_by(kind: u32, was: u32) -> u32
    ensures { result ≡ first_by kind was }
{
    if kind == 0 {
        0
    } else if kind == 1 {
        was
    } else {
        was.wrapping_add(1)
    }
}

// Where a block ends.
fn behind(noted: &Noted) -> Tail
    ensures { result ≡ behind noted.now }
{
    Tail {
        volume: noted.volume,
        end: noted.start.wrapping_add(noted.length),
    }
}
