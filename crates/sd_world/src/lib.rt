//! A world of sessions and drives, without code: what each event does to it, and what stays of closed sessions. It
//! says too which list machine a world matches, and what is read back of the blocks that a drive placed. The one call
//! here with a body is the reading back itself, which worlds and lines have in common.
#![tactic(auto)]

mod laws;
mod reading;
mod spans;

pub use laws::{
    cancelled_reads, closed_is_countable, closed_is_found, closed_reads, closed_spans_last,
    fresh_matches, going_on_joins, growths_join, journals_grow, leads_join, leads_keep, leads_run,
    moves_are_steps, moves_fail_by_cause, moves_go_on, moves_keep_claims, moves_keep_closed,
    moves_keep_honesty, moves_keep_rules, moves_keep_seats, moves_purge_by_cause,
    moves_want_memory, placed_is_found, reading_keeps_matches, steps_keep_spans, steps_lead,
    told_spans_read,
};
pub use reading::read_drive;
pub use spans::{
    adoption_keeps_lasting, adoption_keeps_spans, kept_spans_end_with_blocks, lasting_spans_kept,
    lasting_spans_mark, lasting_spans_stay, lasting_spans_survive, placed_among_blocks,
    placed_end_with_blocks, placed_read, synced_spans_last,
};
