//! The theorems, as laws without code, and as a caller has them, through public calls alone. The session theorem and
//! the stop theorem: what the daemon acknowledged comes back, once and in order, however many sessions shared a drive
//! and whenever it was stopped; their premises are what a world was made of and what it did since. Both theorems for
//! running threads, whose premises are what settling hands out; and what was told closed while these run, with nothing
//! settled. What a scan of volumes finds of it; and that what is packed comes back. Over folders of files the theorems
//! rest on these folders' honesty alone. The callers are a world over devices in memory or over any honest ones, any
//! world behind a port, a session that was closed before a stop, over devices and over folders in memory, and one that
//! was told closed under the lock of a line.
#![tactic(auto)]

mod given;
mod laws;
mod port;
mod round_trip;
mod running;
mod scanned;
mod stopped;

pub use given::{Told, run_and_read, run_and_read_over};
pub use laws::{
    headline, headline_by_drive, noted_shelf, noted_starts, over_folders, stop_by_drive,
    stop_theorem,
};
pub use port::know_lists;
pub use round_trip::packed_comes_back;
pub use running::{
    shown_closes_come_back, thread_stop_theorem, thread_theorem, told_closes_come_back,
};
pub use scanned::{
    placed_blocks_are_found, placements_say, scan_tells_closed, scan_tells_session,
    scan_tells_spans, scan_tells_told,
};
pub use stopped::{leave, leave_folder, leave_side, read_again, read_again_over, read_told_again};
