// A drive comes to the board.
ghost use Rattle.std.specs.Prelude.{◌≡◌, ◌+◌, ◌≤◌, ◌<◌, [], ◌∷◌, ◌++◌, length, true, IfErr, OnErr, OnOk};
ghost use Rattle.sd_base.specs.Limits.{most_drives, most_lanes};
ghost use Rattle.sd_board.specs.Slots.{AreNew, IsNewAt, new_lanes};

use crate::board::Board;
use crate::lanes::DriveLanes;
use sd_base::{DriveNo, MOST_DRIVES, MOST_LANES, MediaName};
use sd_line::{LaneEnd, Naming};
use sd_spool::SpoolStore;
use std::alloc::AllocError;

/// A drive's media and the ends of its lanes, which did not come to the board because there was no memory.
#[derive(Drop)]
pub struct NotAdded<N: Naming, S: SpoolStore> {
    pub media: MediaName,
    pub ends: Vec<LaneEnd<N, S>>,
}

impl<N: Naming, S: SpoolStore + Drop> Board<N, S> {
    /// The next drive comes to the board, with the ends of its lanes 1, 2 and on, which no session used. If out of
    /// memory, all that was handed in comes back.
    pub fn add_drive(
        &mut self,
        media: MediaName,
        ends: Vec<LaneEnd<N, S>>,
    ) -> Result<(), NotAdded<N, S>>
        requires drives_most { length self.old.drives < most_drives }
        requires lanes_most { length ends.items ≤ most_lanes }
        requires new { AreNew (length self.old.drives + 1) ends.items }
        ensures ok { OnOk result (self.new ≡ record self.old {
          drives = self.old.drives
              ++ new_lanes (length self.old.drives + 1) media ends.items ∷ [];
        }) }
        ensures back { IfErr result (λ back. (back.media ≡ media)
            × (back.ends.items ≡ ends.items)) }
        ensures err { OnErr result (self.new ≡ self.old) }
    {
        if let Err(AllocError) = self.drives.reserve(1) {
            return Err(NotAdded { media, ends });
        }
        let Ok(slots) = Vec::with_capacity(self.alloc, ends.len()) else {
            return Err(NotAdded { media, ends });
        };
        let no = next_number(&self.drives);
        let lanes = DriveLanes::of_ends(no, media, ends, slots);
        self.drives.push_reserved(lanes);
        Ok(())
    }
}

impl<N: Naming, S: SpoolStore + Drop> Board<N, S> {
    /// Whether there may be one drive more, and these are the ends of its lanes 1, 2 and on, which no session used: what
    /// `add_drive` asks for.
    pub fn are_next(&self, ends: &[LaneEnd<N, S>]) -> bool
        ensures drives_most { result ≡ true → length self.now.drives < most_drives }
        ensures lanes_most { result ≡ true → length ends.now ≤ most_lanes }
        ensures new { result ≡ true → AreNew (length self.now.drives + 1) ends.now }
    {
        if self.drives.len() >= MOST_DRIVES as usize || ends.len() > MOST_LANES as usize {
            return false;
        }
        are_new(next_number(&self.drives), ends)
    }
}

// Whether these are the ends of the lanes 1, 2 and on of the drive of this number, which no session used.
fn are_new<N: Naming, S: SpoolStore + Drop>(no: DriveNo, ends: &[LaneEnd<N, S>]) -> bool
    ensures { result ≡ true → AreNew no ends.now }
{
    for at in 0..ends.len() {
        if !is_new(no, at, &ends[at]) {
            return false;
        }
    }
    true
}

// Whether this is the end of the lane at this place of the drive of this number, which no session used.
fn is_new<N: Naming, S: SpoolStore + Drop>(no: DriveNo, at: usize, end: &LaneEnd<N, S>) -> bool
    ensures { result ≡ true → IsNewAt no at end.now }
{
    if end.no().get() != no.get() || end.lane().get() as usize - 1 != at {
        return false;
    }
    end.sessions().is_empty()
}

// The number of the drive after these.
fn next_number<N: Naming, S: SpoolStore>(drives: &[DriveLanes<N, S>]) -> DriveNo
    requires { length drives.now < most_drives }
    ensures { result ≡ length drives.now + 1 }
{
    DriveNo::new(drives.len() as u32 + 1).unwrap()
}
