// The figures of a daemon in the text form that Prometheus reads.
use crate::drive_figure::{DRIVE_FIGURES, DriveFigure};
use crate::note_figures::NoteFigures;
use crate::note_keeping::NoteKeeping;
use crate::planning::Plan;
use sd_lines::{DriveFigures, Figures, RefusedJobs, Tries, VolumeFaults};
use sd_serve::{ConnectionFigures, Holder};
use std::fmt;

/// The figures of a daemon. Displays them: of each its help, its type, and its values.
#[derive(Drop)]
pub(crate) struct FiguresText<'d> {
    pub(crate) figures: Figures,
    /// What was found at the start.
    pub(crate) start: &'d Plan,
    pub(crate) notes: &'d NoteKeeping,
    pub(crate) connections: ConnectionFigures,
    /// Who has held a connection longest, if as many are open as there may be.
    pub(crate) holders: Vec<Holder>,
}

/// Whether a figure only rises, or goes up and down.
#[derive(Clone, Copy)]
pub(crate) enum Kind {
    Counter,
    Gauge,
}

/// What is said of a figure above its values.
#[derive(Clone, Copy)]
pub(crate) struct Heading {
    pub(crate) name: &'static str,
    pub(crate) kind: Kind,
    pub(crate) help: &'static str,
}

impl fmt::Display for Heading {
    fn fmt<W: fmt::Write>(&self, f: &mut fmt::Formatter<W>) -> fmt::Result {
        let (name, help) = (self.name, self.help);
        let kind = match self.kind {
            Kind::Counter => "counter",
            Kind::Gauge => "gauge",
        };
        write!(f, "# HELP {name} {help}\n# TYPE {name} {kind}\n")
    }
}

/// A figure of the daemon with its value.
#[derive(Clone, Copy)]
struct Single {
    heading: Heading,
    value: u64,
}

impl Single {
    fn counter(name: &'static str, help: &'static str, value: u64) -> Self {
        let kind = Kind::Counter;
        Single {
            heading: Heading { name, kind, help },
            value,
        }
    }

    fn gauge(name: &'static str, help: &'static str, value: u64) -> Self {
        let kind = Kind::Gauge;
        Single {
            heading: Heading { name, kind, help },
            value,
        }
    }
}

impl fmt::Display for Single {
    fn fmt<W: fmt::Write>(&self, f: &mut fmt::Formatter<W>) -> fmt::Result {
        let (heading, name, value) = (self.heading, self.heading.name, self.value);
        write!(f, "{heading}{name} {value}\n")
    }
}

/// A figure of each drive.
#[derive(Clone, Copy)]
struct OfDrives<'a> {
    figure: DriveFigure,
    drives: &'a [DriveFigures],
}

impl fmt::Display for OfDrives<'_> {
    fn fmt<W: fmt::Write>(&self, f: &mut fmt::Formatter<W>) -> fmt::Result {
        let heading = self.figure.heading();
        let name = heading.name;
        write!(f, "{heading}")?;
        for figures in self.drives {
            let drive = figures.drive.get();
            let value = self.figure.value(figures);
            write!(f, "{name}{{drive=\"{drive}\"}} {value}\n")?;
        }
        Ok(())
    }
}

/// A figure of each volume with which something failed at a drive.
#[derive(Clone, Copy)]
struct OfVolumes<'a> {
    kind: VolumeFigure,
    drives: &'a [DriveFigures],
}

/// What may fail at a drive with a volume.
#[derive(Clone, Copy)]
enum VolumeFigure {
    /// A write or a sync.
    Device,
    /// A load.
    Load,
}

impl VolumeFigure {
    fn heading(self) -> Heading {
        let kind = Kind::Counter;
        match self {
            VolumeFigure::Device => Heading {
                name: "sdd_device_faults_total",
                kind,
                help: "Times that the device of a drive failed with a volume.",
            },
            VolumeFigure::Load => Heading {
                name: "sdd_load_faults_total",
                kind,
                help: "Times that a drive needed a volume that couldn't be loaded.",
            },
        }
    }

    fn faults(self, figures: &DriveFigures) -> &[VolumeFaults] {
        match self {
            VolumeFigure::Device => figures.faults.as_slice(),
            VolumeFigure::Load => figures.load_faults.as_slice(),
        }
    }
}

impl fmt::Display for OfVolumes<'_> {
    fn fmt<W: fmt::Write>(&self, f: &mut fmt::Formatter<W>) -> fmt::Result {
        let heading = self.kind.heading();
        write!(f, "{heading}")?;
        for figures in self.drives {
            let faults = FaultsOf {
                name: heading.name,
                drive: figures.drive.get(),
                faults: self.kind.faults(figures),
            };
            write!(f, "{faults}")?;
        }
        Ok(())
    }
}

/// How often something failed at a drive, for each volume, without the heading.
#[derive(Clone, Copy)]
struct FaultsOf<'a> {
    name: &'static str,
    drive: u32,
    faults: &'a [VolumeFaults],
}

impl fmt::Display for FaultsOf<'_> {
    fn fmt<W: fmt::Write>(&self, f: &mut fmt::Formatter<W>) -> fmt::Result {
        let (name, drive) = (self.name, self.drive);
        for fault in self.faults {
            let (volume, faults) = (fault.volume.as_str(), fault.faults);
            write!(
                f,
                "{name}{{drive=\"{drive}\",volume=\"{volume}\"}} {faults}\n"
            )?;
        }
        Ok(())
    }
}

/// How many sessions have each status.
#[derive(Clone, Copy)]
struct Sessions {
    standings: sd_lines::Standings,
}

impl fmt::Display for Sessions {
    fn fmt<W: fmt::Write>(&self, f: &mut fmt::Formatter<W>) -> fmt::Result {
        let name = "sdd_sessions";
        let heading = Heading {
            name,
            kind: Kind::Gauge,
            help: "Sessions of this run by where they stand.",
        };
        let standings = self.standings;
        write!(f, "{heading}")?;
        for (status, count) in [
            ("active", standings.active),
            ("ended", standings.ended),
            ("closed", standings.closed),
            ("cancelled", standings.cancelled),
            ("failed", standings.failed),
        ] {
            write!(f, "{name}{{status=\"{status}\"}} {count}\n")?;
        }
        Ok(())
    }
}

/// How many jobs were refused, by why.
#[derive(Clone, Copy)]
struct JobsRefused<'f> {
    jobs: &'f [RefusedJobs],
}

impl fmt::Display for JobsRefused<'_> {
    fn fmt<W: fmt::Write>(&self, f: &mut fmt::Formatter<W>) -> fmt::Result {
        let name = "sdd_refused_jobs_total";
        let heading = Heading {
            name,
            kind: Kind::Counter,
            help: "Jobs that were refused when they asked for a session.",
        };
        write!(f, "{heading}")?;
        for refused in self.jobs {
            let (why, jobs) = (refused.why, refused.jobs);
            write!(f, "{name}{{why=\"{why}\"}} {jobs}\n")?;
        }
        Ok(())
    }
}

/// How many volumes were labelled and adopted, and how often that was refused.
#[derive(Clone, Copy)]
struct Named {
    labels: Tries,
    adoptions: Tries,
}

impl fmt::Display for Named {
    fn fmt<W: fmt::Write>(&self, f: &mut fmt::Formatter<W>) -> fmt::Result {
        let (labels, adoptions) = (self.labels, self.adoptions);
        let labelled = Single::counter("sdd_labels_total", "Volumes labelled.", labels.done);
        let not_labelled = Single::counter(
            "sdd_refused_labels_total",
            "Labels of volumes that were refused.",
            labels.refused,
        );
        let adopted = Single::counter("sdd_adoptions_total", "Volumes adopted.", adoptions.done);
        let not_adopted = Single::counter(
            "sdd_refused_adoptions_total",
            "Adoptions of volumes that were refused.",
            adoptions.refused,
        );
        write!(f, "{labelled}{not_labelled}{adopted}{not_adopted}")
    }
}

/// The connections.
#[derive(Clone, Copy)]
struct Talks {
    connections: ConnectionFigures,
}

impl fmt::Display for Talks {
    fn fmt<W: fmt::Write>(&self, f: &mut fmt::Formatter<W>) -> fmt::Result {
        let connections = self.connections;
        let held = Single::counter("sdd_talks_total", "Talks held so far.", connections.taken);
        let now = Single::gauge("sdd_talks", "Talks held now.", connections.open);
        let with_session = Single::gauge(
            "sdd_talks_with_session",
            "Talks held now that have a session open.",
            connections.with_session,
        );
        let bound = Single::gauge(
            "sdd_talks_bound",
            "Talks that can be held at once.",
            connections.most,
        );
        let oldest = Single::gauge(
            "sdd_oldest_talk_seconds",
            "Seconds since the oldest of the talks held now began.",
            connections.oldest_age,
        );
        write!(f, "{held}{now}{with_session}{bound}{oldest}")
    }
}

/// Who has held a connection longest, while all are taken.
#[derive(Clone, Copy)]
struct Holders<'f> {
    holders: &'f [Holder],
}

impl fmt::Display for Holders<'_> {
    fn fmt<W: fmt::Write>(&self, f: &mut fmt::Formatter<W>) -> fmt::Result {
        let name = "sdd_holding_talk_seconds";
        let heading = Heading {
            name,
            kind: Kind::Gauge,
            help: "Seconds since the oldest talks began, if as many are held as can be.",
        };
        write!(f, "{heading}")?;
        for holder in self.holders {
            let (talk, peer, age) = (holder.talk, holder.peer, holder.age);
            write!(f, "{name}{{talk=\"{talk}\",client=\"{peer}\"}} {age}\n")?;
        }
        Ok(())
    }
}

impl fmt::Display for FiguresText<'_> {
    fn fmt<W: fmt::Write>(&self, f: &mut fmt::Formatter<W>) -> fmt::Result {
        let drives = self.figures.drives.as_slice();
        for figure in DRIVE_FIGURES {
            let of_drives = OfDrives { figure, drives };
            write!(f, "{of_drives}")?;
        }
        let faults = OfVolumes {
            kind: VolumeFigure::Device,
            drives,
        };
        let load_faults = OfVolumes {
            kind: VolumeFigure::Load,
            drives,
        };
        let sessions = Sessions {
            standings: self.figures.sessions,
        };
        let noted = NoteFigures {
            drives,
            start: self.start,
            notes: self.notes,
        };
        write!(f, "{faults}{load_faults}{noted}{sessions}")?;
        let given = self.figures.given;
        let records = Single::counter(
            "sdd_restored_records_total",
            "Records given back in restores.",
            given.records,
        );
        let bytes = Single::counter(
            "sdd_restored_bytes_total",
            "Bytes of the records given back in restores.",
            given.bytes,
        );
        let refused = JobsRefused {
            jobs: &self.figures.refused_jobs,
        };
        let named = Named {
            labels: self.figures.labels,
            adoptions: self.figures.adoptions,
        };
        let talks = Talks {
            connections: self.connections,
        };
        let holders = Holders {
            holders: self.holders.as_slice(),
        };
        write!(f, "{records}{bytes}{refused}{named}{talks}{holders}")
    }
}
