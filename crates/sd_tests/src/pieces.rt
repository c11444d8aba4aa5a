// Pieces with numbers, and how many of them went by.
use sd_base::{LEAST_BODY, LaneNo, SessionKey};
use sd_block::FramedBody;
use sd_lane::Piece;
use sd_pack::Body;
use std::alloc::Global;

/// Of each lane, how many pieces went by.
#[derive(Clone, Copy, Debug, PartialEq)]
pub struct Counts {
    of: [u64; 32],
}

impl Counts {
    pub fn none() -> Self {
        Counts { of: [0; 32] }
    }

    pub fn of(&self, lane: LaneNo) -> u64 {
        self.of[(lane.get() - 1) as usize]
    }

    pub fn add(&mut self, lane: LaneNo, count: u64) {
        let at = (lane.get() - 1) as usize;
        self.of[at] = self.of[at].wrapping_add(count);
    }

    /// Of all lanes.
    pub fn all(&self) -> u64 {
        let mut all = 0u64;
        for count in &self.of {
            all = all.wrapping_add(*count);
        }
        all
    }
}

/// What came by the lanes: how many pieces in order, and how many otherwise.
#[derive(Clone, Copy, Debug, PartialEq)]
pub struct Came {
    pub counts: Counts,
    pub wrong: u64,
}

impl Came {
    pub fn nothing() -> Self {
        Came {
            counts: Counts::none(),
            wrong: 0,
        }
    }

    /// Notes a piece, which is to be the next of its lane.
    pub fn note(&mut self, piece: &Piece) {
        match LaneNo::new(piece.key.id) {
            Some(lane) if is_piece(piece, lane, self.counts.of(lane).wrapping_add(1)) => {
                self.counts.add(lane, 1);
            }
            _ => self.wrong = self.wrong.wrapping_add(1),
        }
    }
}

/// The piece with that number of a lane.
pub fn make_piece(alloc: Global, lane: LaneNo, seq: u64) -> Option<Piece> {
    let bytes = [(seq % 251) as u8; LEAST_BODY];
    let body = Body {
        bytes: FramedBody::from_slice(alloc, &bytes).ok()?,
        first: 0,
        last: 0,
    };
    let id = lane.get();
    let key = SessionKey { time: 1, id };
    Some(Piece { key, seq, body })
}

/// Whether that is what it is.
pub fn is_piece(piece: &Piece, lane: LaneNo, seq: u64) -> bool {
    let bytes = piece.body.bytes.as_slice();
    piece.key.id == lane.get()
        && piece.seq == seq
        && bytes.len() == LEAST_BODY
        && bytes.iter().all(|byte| u64::from(*byte) == seq % 251)
}
