// A session beside the records that it took.
use sd_base::{Rec, Seen};
use sd_session::Session;
use sd_spool::SpoolStore;
use std::marker::Model;

/// A session that used a lane, the records that it took, of which nothing is held, and whether it spools. In a contract it
/// is a `ToldSession`.
#[derive(Drop)]
pub struct Told<S: SpoolStore> {
    pub session: Session<S>,
    pub told: Option<Seen<Rec>>,
    pub spools: bool,
}

impl<S: SpoolStore> Model for Told<S> {
    ghost use Rattle.sd_base.specs.Seen.{seen_of};
    ghost use Rattle.sd_line.specs.Ends.{ToldSession};

    ghost Value = { ToldSession };

    ghost view = { λ s. record { session = s.session; told = seen_of s.told; spools = s.spools } };
}
