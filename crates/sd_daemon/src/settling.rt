// The lines of a daemon's drives are settled.
use crate::hub::FileHub;
use sd_base::DriveNo;
use sd_filedrive::FileDrive;
use sd_hub::settle;
use sd_line::Naming;
use sd_lines::{Front, Hub, Post};
use sd_serve::{Log, LogLine};
use sd_spool::FileSpool;
use std::alloc::{AllocError, Global};
use std::io::Write;
use std::sync::Wait;
use std::time::Clock;

type FileFront<N> = Front<N, FileSpool<HostRuntime>>;

type FilePost<N, W> = Post<FileDrive<HostRuntime>, N, W>;

/// Settles the line of each drive, one after another. Those that can't be settled.
pub(crate) fn settle_drives<N: Naming, W: Wait + Clock + Copy + Drop, L: Write>(
    hub: FileHub<N, W>,
    log: &Log<L>,
) -> Result<Vec<DriveNo>, AllocError> {
    let Hub {
        rt,
        alloc,
        posts,
        front,
        ..
    } = hub;
    let mut front = front.into_inner();
    let mut unsettled = Vec::with_capacity(alloc, posts.len())?;
    for post in posts {
        let no = post.station.line().no();
        let drive = no.get();
        if is_settled(alloc, &mut front, post) {
            log.line(&rt, LogLine::Settled { drive });
        } else {
            log.line(&rt, LogLine::Unsettled { drive });
            unsettled.push(no)?;
        }
    }
    Ok(unsettled)
}

// Settles the line of a drive, which becomes a world of it. Whether that can be.
fn is_settled<N: Naming, W: Wait + Clock + Copy + Drop>(
    alloc: Global,
    front: &mut FileFront<N>,
    post: FilePost<N, W>,
) -> bool {
    let Post {
        station,
        receipts,
        ..
    } = post;
    let line = station.into_line();
    let Ok(ends) = front.board.take_ends(line.no()) else {
        return false;
    };
    settle(alloc, line, ends, receipts.into_inner().into_kept()).is_ok()
}
