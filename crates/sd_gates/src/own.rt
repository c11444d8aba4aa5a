// The records of a job: drawn, and so always the same.
use sd_base::{Bytes, Rec};
use std::alloc::Global;

/// Draws records: a small xorshift, with the number of the session as its seed.
#[derive(Drop)]
pub struct Draw {
    state: u32,
    // How many bytes a record has at most.
    most: u32,
}

impl Draw {
    pub fn new(id: u32, most: u32) -> Self {
        Draw {
            state: id.wrapping_mul(2_654_435_761) | 1,
            most,
        }
    }

    /// How many bytes the next record has, and which.
    fn next(&mut self) -> (usize, u8) {
        self.state ^= self.state << 13;
        self.state ^= self.state >> 17;
        self.state ^= self.state << 5;
        let size = (self.state >> 8) % self.most.max(1);
        (size as usize, (self.state & 0xff) as u8)
    }
}

/// The first records of a session, so many.
pub fn draw_records(alloc: Global, id: u32, most: u32, count: u32) -> Option<Vec<Rec>> {
    let mut draw = Draw::new(id, most);
    let mut recs = Vec::with_capacity(alloc, count as usize).ok()?;
    for at in 0..count {
        let (size, byte) = draw.next();
        let bytes = vec![in alloc; byte; size].ok()?;
        recs.push(Rec::new(at.wrapping_add(1), 2, Bytes::from_vec(bytes))?)
            .ok()?;
    }
    Some(recs)
}

/// Whether these are the first records of a session, so many: each once, and in order.
pub fn are_drawn(recs: &[Rec], id: u32, most: u32, count: u32) -> bool {
    let mut draw = Draw::new(id, most);
    for (at, rec) in recs.iter().enumerate() {
        let (size, byte) = draw.next();
        if rec.index as usize != at + 1 || rec.bytes.len() != size || !all_are(rec, byte) {
            return false;
        }
    }
    recs.len() == count as usize
}

fn all_are(rec: &Rec, byte: u8) -> bool {
    for one in rec.bytes.as_slice() {
        if *one != byte {
            return false;
        }
    }
    true
}
