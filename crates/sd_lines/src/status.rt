// What a daemon with threads shows of itself.
use crate::hub::{Hub, Post};
use sd_base::{DriveNo, Items, LaneNo};
use sd_board::Board;
use sd_driver::Driver;
use sd_line::Naming;
use sd_machine::{DriveLine, Loaded, SessionLine, View, VolumeLine};
use sd_session::Status;
use sd_spool::SpoolStore;
use sd_stations::VolumeRow;
use std::alloc::AllocError;
use std::sync::Wait;
use std::sync::atomic::Ordering;
use std::time::Clock;

/// Of so many sessions lines are made while the desk's lock is held once, so that no status of many holds it for long.
const PIECE: usize = 4096;

/// The drives and their volumes, as they have published, and the sessions, as the desk has them. The desk's lock is held from
/// the first drive to the first sessions: whoever is answered passes it before, so what was answered before something that is
/// shown here is shown too. If there are more sessions than a piece has, the lock is given back between the pieces, and a line
/// of a later one is of a later moment. No drive's lock is taken. Blocks go on being placed meanwhile.
pub(crate) fn view<D: Driver, N: Naming, R: Wait + Clock + Drop, S: SpoolStore + Drop>(
    hub: &Hub<D, N, R, S>,
) -> Result<View, AllocError> {
    let mut drives = Vec::with_capacity(hub.alloc, hub.posts.len())?;
    let mut volumes = Vec::new(hub.alloc);
    let mut sessions = Vec::new(hub.alloc);
    let count = {
        let mut front = hub.front.lock(&hub.rt);
        let board: &mut Board<N, S> = &mut front.board;
        hub.free_arrived(board);
        for post in &hub.posts {
            let (rows, loaded) = post.station.volumes(&hub.rt, hub.alloc)?;
            show_volumes(rows, &mut volumes)?;
            drives.push(drive_line(post, loaded, board))?;
        }
        hub.show_sessions(board, 0, &mut sessions)?;
        board.session_count()
    };
    for piece in 1..count / PIECE + 1 {
        let mut front = hub.front.lock(&hub.rt);
        let board: &mut Board<N, S> = &mut front.board;
        hub.show_sessions(board, piece.saturating_mul(PIECE), &mut sessions)?;
    }
    Ok(View {
        drives: Items::from_vec(drives),
        volumes: Items::from_vec(volumes),
        sessions: Items::from_vec(sessions),
    })
}

// The line of a drive, in which this volume is loaded.
fn drive_line<D: Driver, N: Naming, R: Wait + Clock + Drop, S: SpoolStore + Drop>(
    post: &Post<D, N, R>,
    loaded: Option<VolumeRow>,
    board: &Board<N, S>,
) -> DriveLine {
    let line = post.station.line();
    DriveLine {
        drive: line.no(),
        media: line.media().copy(),
        loaded: match loaded {
            Some(row) => Loaded::Volume(row.name),
            None => Loaded::Nothing,
        },
        sessions: board.busy(line.no()) as usize,
    }
}

impl<D: Driver, N: Naming, R: Wait + Clock + Drop, S: SpoolStore + Drop> Hub<D, N, R, S> {
    // Adds lines for a piece of the sessions, those behind the first `from`.
    fn show_sessions(
        &self,
        board: &Board<N, S>,
        from: usize,
        sessions: &mut Vec<SessionLine>,
    ) -> Result<(), AllocError> {
        let mut lines = board.session_lines(from, PIECE)?.into_vec();
        for line in &mut lines {
            line.records = self.records_of(board, line);
        }
        sessions.reserve(lines.len())?;
        for line in lines {
            sessions.push(line)?;
        }
        Ok(())
    }

    // How many records a session took. Of one that goes on its lane tells that.
    fn records_of(&self, board: &Board<N, S>, line: &SessionLine) -> u64 {
        if line.status != Status::Active {
            return line.records;
        }
        match board.session(line.ticket) {
            Some(posted) => self.counted(posted.drive, posted.lane),
            None => line.records,
        }
    }

    // How many records the session of a lane took.
    fn counted(&self, drive: DriveNo, lane: LaneNo) -> u64 {
        let Some(post) = self.posts.get(drive.get() as usize - 1) else {
            return 0;
        };
        match post.counts.get(lane.get() as usize - 1) {
            Some(count) => count.load(Ordering::SeqCst),
            None => 0,
        }
    }
}

// Adds a line for each volume of a drive.
fn show_volumes(rows: Vec<VolumeRow>, volumes: &mut Vec<VolumeLine>) -> Result<(), AllocError> {
    for row in rows {
        let VolumeRow {
            name,
            pool,
            media,
            status,
            extent,
            synced: _,
            is_torn: _,
        } = row;
        volumes.push(VolumeLine {
            name,
            pool,
            media,
            status,
            end: extent.end,
        })?;
    }
    Ok(())
}
