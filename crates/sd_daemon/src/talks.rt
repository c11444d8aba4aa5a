// The talks of a daemon over files.
use crate::drives::devices_of;
use crate::hub::FileHub;
use crate::metering::Metering;
use crate::note_keeping::NoteKeeping;
use crate::planning::Plan;
use crate::talk_means::TalkMeans;
use sd_conf::Conf;
use sd_filedrive::FileDrive;
use sd_line::Naming;
use sd_lines::LinePort;
use sd_serve::{
    ClientPatience, Connections, Holder, Log, LogLine, LoggedPort, MOST_OPEN, Seat, ShownPath,
    TalkHolder, hold_talk, moment_now,
};
use std::io::Write;
use std::net::TcpStream;
use std::sync::Wait;
use std::time::{Clock, Duration};

/// How many of those who hold all connections the log and the figures name.
const NAMED_HOLDERS: usize = 5;

/// What holds the talks of a daemon: each by a port of its own, with devices of its own by which sessions are read.
#[derive(Drop)]
pub(crate) struct FileTalks<'d, N: Naming, W: Wait + Drop, L> {
    pub(crate) rt: &'d HostRuntime,
    pub(crate) wait: W,
    pub(crate) conf: &'d Conf,
    // The time of the run.
    pub(crate) time: u32,
    pub(crate) hub: &'d FileHub<N, W>,
    pub(crate) log: &'d Log<L>,
    pub(crate) connections: &'d Connections,
    // How many seconds a record and a close wait for a volume that their drive needs.
    pub(crate) patience: u32,
    pub(crate) metering: &'d Metering<'d>,
    pub(crate) start: &'d Plan,
    pub(crate) notes: &'d NoteKeeping,
}

impl<N: Naming + Send + Sync, W: Wait + Clock + Sync + Copy + Drop, L: Write + Send> TalkHolder
    for FileTalks<'_, N, W, L> {
    fn hold(&self, seat: Seat, stream: &TcpStream) {
        let moment = moment_now(&self.wait);
        let patience = ClientPatience {
            rt: self.rt,
            stream,
            most: Duration::from_secs(u64::from(self.patience)),
        };
        let means = TalkMeans {
            patience,
            rt: self.rt,
            conf: self.conf,
        };
        let port = LinePort::new(self.hub, self.readers(), moment, means);
        let mut port = LoggedPort::begin(port, &self.wait, self.log, self.connections, seat);
        let end = hold_talk(self.rt.alloc(), stream, self.connections, seat, &mut port);
        let _ended = port.end(&end).finish();
    }

    fn all_taken(&self) {
        let oldest = self.oldest_holders();
        self.log.line(
            &self.wait,
            LogLine::AllTaken {
                most: MOST_OPEN as u64,
                oldest: oldest.as_slice(),
            },
        );
    }

    fn ending(&self, file: &str) {
        let open = self.connections.figures(&self.wait).open;
        let file = ShownPath(file);
        self.log.line(&self.wait, LogLine::Ending { file, open });
    }
}

impl<N: Naming, W: Wait + Clock + Drop, L> FileTalks<'_, N, W, L> {
    /// Who has held a connection longest: a few of them, fewer if there is no memory.
    pub(crate) fn oldest_holders(&self) -> Vec<Holder> {
        let mut oldest = Vec::new(self.rt.alloc());
        let mut talk = 0;
        for _named in 0..NAMED_HOLDERS {
            let Some(holder) = self.connections.holder_after(&self.wait, talk) else {
                return oldest;
            };
            talk = holder.talk;
            if oldest.push(holder).is_err() {
                return oldest;
            }
        }
        oldest
    }

    // A device for each drive. If there is no memory for them, sessions are read by the drives themselves.
    fn readers(&self) -> Vec<FileDrive<HostRuntime>> {
        match devices_of(self.rt, self.conf.drives.as_slice()) {
            Ok(devices) => devices,
            Err(_) => Vec::new(self.rt.alloc()),
        }
    }
}
