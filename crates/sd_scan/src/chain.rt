// The blocks of a volume, as its note tells of them.
ghost use Rattle.std.specs.Prelude.{◌≡◌, ◌↔◌, ◌+◌, ◌<◌, ◌≤◌, ◌^◌, IsTrue, max};

use sd_block::Head;
use sd_note::Note;
use sd_notes::NoteRead;

/// Where the first blocks of a volume end, and what they come to: where the last of them begins, 0 if there is the label's
/// alone; the number that comes next; and the greatest time of a session among theirs, 0 if there is none.
#[derive(Clone, Copy, Debug, PartialEq, Eq)]
pub struct BlocksEnd {
    pub end: u64,
    pub last: u64,
    pub next_number: u64,
    pub time: u32,
}

impl BlocksEnd {
    // After the label alone.
    fn of_label(first: u64) -> Self
        ensures { result ≡ record { end = first; last = 0; next_number = 1; time = 0 } }
    {
        BlocksEnd {
            end: first,
            last: 0,
            next_number: 1,
            time: 0,
        }
    }

    // After one block more, which comes right there.
    fn after(self, head: &Head) -> Self
        requires { self.end + head.now.size < 2 ^ 64 }
        ensures { result ≡ record {
          end = self.end + head.now.size;
          last = self.end;
          next_number = head.now.number + 1;
          time = max self.time head.now.key.time;
        } }
    {
        BlocksEnd {
            end: self.end + head.size as u64,
            last: self.end,
            next_number: head.number as u64 + 1,
            time: self.time.max(head.key.time),
        }
    }

    // Whether the note says just that. Its time may be greater: it is only said that none is later.
    fn is_noted(self, note: &Note) -> bool
        ensures { IsTrue result ↔ ((self.end ≡ note.now.end) × (self.last ≡ note.now.last)
            × (self.next_number ≡ note.now.next_number) × (self.time ≤ note.now.time)) }
    {
        self.end == note.end
            && self.last == note.last
            && self.next_number == u64::from(note.next_number)
            && self.time <= note.time
    }
}

/// The blocks of a volume, one after another from its label on, as they come; and what those come to that end where a note
/// says.
#[derive(Clone, Copy, Debug, PartialEq, Eq)]
pub struct Chain {
    so_far: BlocksEnd,
    sought: Option<u64>,
    met: Option<BlocksEnd>,
}

/// How a note stands to its volume.
#[derive(Clone, Copy, Debug, PartialEq, Eq)]
pub enum Fit {
    /// What it says is so, or there is none.
    Fits,
    /// It is of another label, and counts as none.
    OtherLabel,
    /// It is of another form, which is passed over.
    OtherForm,
    /// From that byte of the volume on it isn't as the note says.
    Unfit(u64),
}

impl Chain {
    /// The blocks of a volume whose label has that many bytes, none of which has come; with the end that its note says, if it
    /// has one.
    pub(crate) fn new(first: u64, sought: Option<u64>) -> Self
        ensures { result.so_far.end ≡ first }
    {
        let mut chain = Chain {
            so_far: BlocksEnd::of_label(first),
            sought,
            met: None,
        };
        chain.meet();
        chain
    }

    /// With the next block, which lies right behind those that came.
    pub(crate) fn pass(&mut self, head: &Head)
        requires { self.old.so_far.end + head.now.size < 2 ^ 64 }
        ensures { self.new.so_far.end ≡ self.old.so_far.end + head.now.size }
    {
        self.so_far = self.so_far.after(head);
        self.meet();
    }

    // Keeps what the blocks come to, if they end where the note says.
    fn meet(&mut self)
        ensures { self.new.so_far ≡ self.old.so_far }
    {
        if Some(self.so_far.end) == self.sought {
            self.met = Some(self.so_far);
        }
    }

    /// How a note stands to the blocks, all of which came, and to the moment of their label.
    pub(crate) fn fit_of(&self, read: NoteRead, moment: i64) -> Fit {
        match read {
            NoteRead::None => Fit::Fits,
            NoteRead::OtherForm => Fit::OtherForm,
            NoteRead::Damaged | NoteRead::Unreadable => Fit::Unfit(0),
            NoteRead::Note(note) if note.moment != moment => Fit::OtherLabel,
            NoteRead::Note(note) => self.fit_of_own(&note),
        }
    }

    // How a note of the same label stands to the blocks.
    fn fit_of_own(&self, note: &Note) -> Fit {
        let Some(below) = self.met else {
            return Fit::Unfit(note.end.min(self.so_far.end));
        };
        if !below.is_noted(note) {
            return Fit::Unfit(note.end);
        }
        match note.torn {
            Some(length) if length < self.so_far.end => Fit::Unfit(length),
            _ => Fit::Fits,
        }
    }
}
