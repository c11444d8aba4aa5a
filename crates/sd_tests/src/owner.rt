// The queue with one owner.
ghost use Rattle.std.specs.Prelude.{◌≡◌, ◌≤◌};
ghost use Rattle.sd_base.specs.Limits.{most_lanes};

use crate::pieces::{Came, Counts, is_piece, make_piece};
use sd_base::LaneNo;
use sd_lane::{Lane, Lanes};
use sd_ruled::RuledLanes;
use std::alloc::Global;
use std::sync::Wait;

// What came of a push.
#[derive(Clone, Copy, PartialEq)]
enum Pushed {
    WentIn,
    CameBack,
    Otherwise,
}

// Pushes the next piece of a lane.
fn push<R: Wait + Copy + Drop>(
    alloc: Global,
    queue: &mut RuledLanes<R>,
    lane: LaneNo,
    sent: &mut Counts,
) -> Pushed
    requires { lane ≤ queue.old.lanes }
    ensures { queue.new.lanes ≡ queue.old.lanes }
{
    let seq = sent.of(lane).wrapping_add(1);
    let Some(piece) = make_piece(alloc, lane, seq) else {
        return Pushed::Otherwise;
    };
    match queue.try_push(lane, piece) {
        Ok(()) => {
            sent.add(lane, 1);
            Pushed::WentIn
        }
        Err(back) if is_piece(&back, lane, seq) => Pushed::CameBack,
        Err(_) => Pushed::Otherwise,
    }
}

/// Pushes by one lane after another until a piece comes back, as it was. How many went in, of at most so many.
pub fn fill<R: Wait + Copy + Drop>(
    alloc: Global,
    queue: &mut RuledLanes<R>,
    lanes: u32,
    most: usize,
    sent: &mut Counts,
) -> Option<usize>
    requires { (1 ≤ lanes) × (lanes ≤ most_lanes) × (queue.old.lanes ≡ lanes) }
    ensures { queue.new.lanes ≡ queue.old.lanes }
{
    for count in 0..=most {
        let lane = LaneNo::new((count % lanes as usize) as u32 + 1)?;
        match push(alloc, queue, lane, sent) {
            Pushed::WentIn => {}
            Pushed::CameBack => return Some(count),
            Pushed::Otherwise => return None,
        }
    }
    None
}

/// Takes so many pieces, or all that there are. How many came.
pub fn take<R: Wait + Copy + Drop>(queue: &mut RuledLanes<R>, most: usize, came: &mut Came) -> usize
    ensures { queue.new.lanes ≡ queue.old.lanes }
{
    for count in 0..most {
        match queue.try_take() {
            Some(piece) => came.note(&piece),
            None => return count,
        }
    }
    most
}
