// The parts of a world.
use crate::bay::Bay;
use crate::entry::SessionEntry;
use sd_desk::Desk;
use sd_drive::Limits;
use sd_driver::Driver;
use sd_lane::Lanes;
use sd_spool::SpoolStore;
use std::alloc::Global;

/// What a world is made of, before anything is known of how its parts go together. Its fields are free; `world_of` is what contracts say of it.
#[derive(Drop)]
pub struct Parts<D: Driver, Q: Lanes, S: SpoolStore> {
    pub alloc: Global,
    /// The limits of the drives and spools, and the time of the run.
    pub limits: Limits,
    /// How many pieces each drive's queue has room for.
    pub queue: usize,
    /// The number of the next session.
    pub next: u32,
    /// The sessions, in the order in which they were opened, so by rising numbers.
    pub sessions: Vec<SessionEntry<S>>,
    /// The bays of the drives 1, 2 and on.
    pub bays: Vec<Bay<D, Q, S>>,
    pub desk: Desk,
}
