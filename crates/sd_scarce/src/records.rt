// The records of a job.
use sd_base::{Bytes, Rec};
use std::alloc::Global;

/// A record: its FileIndex, its stream, how many bytes it has, and which.
type Row = (u32, u32, usize, u8);

/// Two of them go on over several blocks.
static ROWS: [Row; 8] = [
    (1, 1, 90, 1),
    (1, 2, 2500, 2),
    (2, 1, 0, 3),
    (3, 1, 1, 4),
    (3, 2, 800, 5),
    (4, 1, 3000, 6),
    (5, 1, 5, 7),
    (5, 3, 700, 8),
];

/// The records; made again, if one couldn't be.
pub fn make_again(alloc: Global) -> Option<Vec<Rec>> {
    match make_all(alloc) {
        None => make_all(alloc),
        recs => recs,
    }
}

fn make_all(alloc: Global) -> Option<Vec<Rec>> {
    let mut recs = Vec::new(alloc);
    for row in &ROWS {
        recs.push(make(alloc, row)?).ok()?;
    }
    Some(recs)
}

fn make(alloc: Global, row: &Row) -> Option<Rec> {
    let bytes = vec![in alloc; row.3; row.2].ok()?;
    Rec::new(row.0, row.1, Bytes::from_vec(bytes))
}

/// Whether these are the records: each once, and in order.
pub fn are_all(recs: &[Rec]) -> bool {
    for (rec, row) in recs.iter().zip(ROWS.iter()) {
        if !is_row(rec, row) {
            return false;
        }
    }
    recs.len() == ROWS.len()
}

fn is_row(rec: &Rec, row: &Row) -> bool {
    for byte in rec.bytes.as_slice() {
        if *byte != row.3 {
            return false;
        }
    }
    rec.index == row.0 && rec.stream == row.1 && rec.bytes.len() == row.2
}
