// The workers of a daemon's drives.
use crate::folders::tell_folders;
use crate::talks::FileTalks;
use sd_base::DriveNo;
use sd_line::Naming;
use sd_serve::{Log, LogLine};
use sd_stations::Worked;
use std::io::Write;
use std::sync::Wait;
use std::thread::Scope;
use std::time::Clock;

/// What works for so many drives.
pub(crate) trait DriveWorker: Sync {
    fn drives(&self) -> usize;

    /// Works for the drive at this place until no talk comes any more.
    fn work(&self, at: usize);

    /// Tells that each drive has its worker, so that talks are held from now on.
    fn ready(&self);

    /// Tells that no talk comes any more.
    fn close(&self);
}

/// Starts a worker for each drive. Whether a thread could be made for each.
pub(crate) fn start_workers<'s, E, K: DriveWorker>(scope: &Scope<'s, E>, worker: &'s K) -> bool {
    for at in 0..worker.drives() {
        if scope.spawn(move || worker.work(at)).is_err() {
            return false;
        }
    }
    true
}

impl<N: Naming + Send + Sync, W: Wait + Clock + Sync + Copy + Drop, L: Write + Send> DriveWorker
    for FileTalks<'_, N, W, L> {
    fn drives(&self) -> usize {
        self.hub.posts.len()
    }

    fn work(&self, at: usize) {
        let hub = self.hub;
        let Some(post) = hub.posts.get(at) else {
            return;
        };
        let drive = post.station.line().no();
        for _turn in hub.rt.forever() {
            let worked = hub.work(post);
            if let Worked::Left = worked {
                return;
            }
            tell(&hub.rt, drive, &worked, self.log);
        }
    }

    fn ready(&self) {
        self.log.line(
            &self.wait,
            LogLine::Listening {
                port: self.conf.port,
                time: self.time,
            },
        );
        tell_folders(self.rt, &self.wait, self.conf, self.log);
    }

    fn close(&self) {
        self.hub.close();
    }
}

// Tells the log what a worker met.
fn tell<W: Wait + Clock, L: Write>(rt: &W, drive: DriveNo, worked: &Worked, log: &Log<L>) {
    let drive = drive.get();
    match worked {
        Worked::Full(volume) => log.line(rt, LogLine::Full { drive, volume }),
        Worked::Failed(volume) => log.line(rt, LogLine::Failed { drive, volume }),
        Worked::Mounted(volume) => log.line(rt, LogLine::Mounted { drive, volume }),
        Worked::NeedsVolume(pool) => log.line(rt, LogLine::Waits { drive, pool }),
        Worked::LoadFailed { volume, why } => {
            let refusal = *why;
            log.line(
                rt,
                LogLine::Unloaded {
                    drive,
                    volume,
                    refusal,
                },
            );
        }
        Worked::Turned | Worked::NeedsNone | Worked::Left => {}
    }
}
