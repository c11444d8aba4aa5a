// Bodies through a spool in a file.
use crate::volumes::BODY;
use sd_base::{DriveNo, LaneNo, MOST_VOLUME};
use sd_block::FramedBody;
use sd_pack::Body;
use sd_spool::{FileSpool, JobSpool, SpoolStore};
use std::alloc::Global;

/// Puts so many bodies of usual blocks into a spool in a file of the folder, and takes them out again. Whether all
/// came back.
pub fn run(rt: HostRuntime, folder: &str, count: u64) -> bool {
    let (Some(drive), Some(lane)) = (DriveNo::new(1), LaneNo::new(1)) else {
        return false;
    };
    let Ok(store) = FileSpool::new(rt, rt.alloc(), folder, drive, lane) else {
        return false;
    };
    match JobSpool::new(rt.alloc(), store, MOST_VOLUME) {
        Ok(mut spool) => there_and_back(rt.alloc(), &mut spool, count),
        Err(_) => false,
    }
}

fn there_and_back<S: SpoolStore>(alloc: Global, spool: &mut JobSpool<S>, count: u64) -> bool {
    let Ok(bytes) = FramedBody::from_slice(alloc, &BODY) else {
        return false;
    };
    let body = Body {
        bytes,
        first: 1,
        last: 1,
    };
    let mut all = true;
    for _ in 0..count {
        all = all && spool.put_body(&body).is_ok();
    }
    for _ in 0..count {
        all = all && matches!(&spool.next_body(), Ok(Some(_)));
    }
    all
}
