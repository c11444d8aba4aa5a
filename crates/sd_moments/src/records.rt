// The records of a job: drawn, and so always the same.
use sd_base::{Bytes, Rec};
use std::alloc::Global;

/// How many records each job has.
const RECORDS: u32 = 9;

/// Below how many bytes each has.
const MOST: u32 = 3000;

// Draws records: a small xorshift, with the number of the session and of the run as its seed.
#[derive(Drop)]
struct Draw {
    state: u32,
}

impl Draw {
    fn new(run: u32, id: u32) -> Self {
        Draw {
            state: run
                .wrapping_mul(31)
                .wrapping_add(id)
                .wrapping_mul(2_654_435_761)
                | 1,
        }
    }

    // How many bytes the next record has, and which.
    fn next(&mut self) -> (usize, u8) {
        self.state ^= self.state << 13;
        self.state ^= self.state >> 17;
        self.state ^= self.state << 5;
        let size = (self.state >> 8) % MOST;
        (size as usize, (self.state & 0xff) as u8)
    }
}

/// The records of a session.
pub fn draw_records(alloc: Global, run: u32, id: u32) -> Option<Vec<Rec>> {
    let mut draw = Draw::new(run, id);
    let mut recs = Vec::with_capacity(alloc, RECORDS as usize).ok()?;
    for at in 0..RECORDS {
        let (size, byte) = draw.next();
        let bytes = vec![in alloc; byte; size].ok()?;
        recs.push(Rec::new(at.wrapping_add(1), 2, Bytes::from_vec(bytes))?)
            .ok()?;
    }
    Some(recs)
}

/// Whether these are the records of a session: each once, and in order.
pub fn are_drawn(recs: &[Rec], run: u32, id: u32) -> bool {
    let mut draw = Draw::new(run, id);
    for (at, rec) in recs.iter().enumerate() {
        let (size, byte) = draw.next();
        if rec.index as usize != at + 1 || rec.bytes.len() != size || !all_are(rec, byte) {
            return false;
        }
    }
    recs.len() == RECORDS as usize
}

fn all_are(rec: &Rec, byte: u8) -> bool {
    for one in rec.bytes.as_slice() {
        if *one != byte {
            return false;
        }
    }
    true
}
