// What a salvage hands over and tells, one after another.
use sd_base::{Rec, VolName};

/// A record that is handed over, or a place from which on some may be lost.
#[derive(Drop)]
pub enum Event {
    Record(Rec),
    Lost { volume: VolName, at: u64 },
}
