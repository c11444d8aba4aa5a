// The worked examples, each as the deeds of its sessions, its operator and its drive.

/// The letter that every byte of a session's records is, for its ticket.
const LETTERS: u8 = b'a';

/// A deed of an example. Sessions are named by their tickets, 1 and 2.
#[derive(Clone, Copy)]
pub enum Deed {
    /// The volume Vol-0001 or Vol-0002.
    Label(u32),
    Open(u32),
    /// A record of this ticket, with this index and so many bytes.
    Record(u32, u32, usize),
    Spool(u32),
    Despool(u32),
    Take,
    Place,
    Seek,
    Sync,
    End(u32),
    Close(u32),
}

/// An example: one drive of four lanes, with blocks of 1,024 bytes.
#[derive(Clone, Copy)]
pub struct Row {
    pub name: &'static str,
    /// Whether a volume takes 2,200 bytes and no more.
    pub is_small: bool,
    /// Whether sessions are spooled, up to 2,000 bytes.
    pub is_spooled: bool,
    /// What is done first.
    pub deeds: &'static [Deed],
    /// Who is closed at the end, after the rounds.
    pub closes: &'static [u32],
}

/// A round: what waits is sent, and the drive takes, places and syncs.
pub static ROUND: [Deed; 9] = [
    Deed::Spool(1),
    Deed::Despool(1),
    Deed::Spool(2),
    Deed::Despool(2),
    Deed::Take,
    Deed::Place,
    Deed::Seek,
    Deed::Place,
    Deed::Sync,
];

/// How many rounds each example has: after them all is placed and synced.
pub const ROUNDS: usize = 14;

pub static HELLO: Row = Row {
    name: "hello",
    is_small: false,
    is_spooled: false,
    deeds: &[
        Deed::Label(1),
        Deed::Open(7),
        Deed::Record(1, 1, 5),
        Deed::End(1),
    ],
    closes: &[1],
};

pub static THREE_BLOCKS: Row = Row {
    name: "three_blocks",
    is_small: false,
    is_spooled: false,
    deeds: &[
        Deed::Label(1),
        Deed::Open(7),
        Deed::Record(1, 1, 2000),
        Deed::End(1),
    ],
    closes: &[1],
};

pub static TWO_VOLUMES: Row = Row {
    name: "two_volumes",
    is_small: true,
    is_spooled: false,
    deeds: &[
        Deed::Label(1),
        Deed::Label(2),
        Deed::Open(7),
        Deed::Record(1, 1, 2000),
        Deed::End(1),
    ],
    closes: &[1],
};

pub static INTERLEAVED: Row = Row {
    name: "interleaved",
    is_small: false,
    is_spooled: false,
    deeds: &[
        Deed::Label(1),
        Deed::Open(7),
        Deed::Record(1, 1, 2000),
        Deed::Open(8),
        Deed::Record(2, 1, 1500),
        Deed::End(1),
        Deed::End(2),
    ],
    closes: &[1, 2],
};

pub static SPOOLED: Row = Row {
    name: "spooled",
    is_small: false,
    is_spooled: true,
    deeds: &[
        Deed::Label(1),
        Deed::Open(7),
        Deed::Record(1, 1, 4000),
        Deed::Spool(1),
        Deed::Spool(1),
        Deed::Spool(1),
        Deed::End(1),
    ],
    closes: &[1],
};

/// The byte that the records of a ticket consist of.
pub fn letter_of(ticket: u32) -> u8 {
    LETTERS.wrapping_add((ticket % 26) as u8)
}
