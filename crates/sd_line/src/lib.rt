//! A line: a drive under a lock, the queue before it, its worker, and what a thread has of it without the lock. The worker
//! places what the lanes push; an operator's events come to the drive too. What was told of a closed session stands under
//! the lock from then on. A thread has the end of a lane, and the part
//! of the session that uses it; the end has the sessions that used it before.
#![tactic(auto)]

mod closing;
mod counts;
mod gate;
mod lane_end;
mod line;
mod naming;
mod opening;
mod operating;
mod part;
mod prepared;
mod pushing;
mod seat;
mod seat_at;
mod side;
mod stop;
mod tells;
mod told;
mod turning;
mod worker;

pub use closing::Closing;
pub use gate::{Gate, Point};
pub use lane_end::{EndParts, LaneEnd};
pub use line::{Line, LineParts, NotLined};
pub use naming::Naming;
pub use opening::NotParted;
pub use part::SessionPart;
pub use prepared::Prepared;
pub use seat::Seat;
pub use side::DriveSide;
pub use stop::Stop;
pub use tells::{CloseBook, ToldCloses, ToldToken};
pub use told::Told;
pub use turning::Turned;
pub use worker::DriveWorker;
