// The figures of what was found at the start, and of the notes.
use crate::figures_text::{Heading, Kind};
use crate::note_keeping::NoteKeeping;
use crate::planning::{Plan, Planned, number_at};
use crate::takeover::damaged_at;
use sd_lines::DriveFigures;
use std::fmt;

/// These figures. Displays them.
#[derive(Clone, Copy)]
pub(crate) struct NoteFigures<'d> {
    pub(crate) drives: &'d [DriveFigures],
    pub(crate) start: &'d Plan,
    pub(crate) notes: &'d NoteKeeping,
}

impl fmt::Display for NoteFigures<'_> {
    fn fmt<W: fmt::Write>(&self, f: &mut fmt::Formatter<W>) -> fmt::Result {
        for figure in [
            NoteFigure::Damaged,
            NoteFigure::Missing,
            NoteFigure::Failures,
        ] {
            let of_drives = OfDrives {
                figure,
                figures: *self,
            };
            write!(f, "{of_drives}")?;
        }
        let places = DamagedPlaces {
            planned: self.start.volumes.as_slice(),
        };
        write!(f, "{places}")
    }
}

/// A figure that each drive has one of.
#[derive(Clone, Copy)]
enum NoteFigure {
    Damaged,
    Missing,
    Failures,
}

impl NoteFigure {
    fn heading(self) -> Heading {
        match self {
            NoteFigure::Damaged => Heading {
                name: "sdd_damaged_volumes",
                kind: Kind::Gauge,
                help: "Volumes that the start found damaged and didn't adopt.",
            },
            NoteFigure::Missing => Heading {
                name: "sdd_missing_volumes",
                kind: Kind::Gauge,
                help: "Volumes that the start missed, whose notes are there.",
            },
            NoteFigure::Failures => Heading {
                name: "sdd_note_failures_total",
                kind: Kind::Counter,
                help: "Times that the note of a volume couldn't be written.",
            },
        }
    }

    // Its value for the drive at this place.
    fn value(self, figures: &NoteFigures<'_>, at: usize) -> u64 {
        match self {
            NoteFigure::Damaged => damaged_of(&figures.start.volumes, at),
            NoteFigure::Missing => match figures.start.missing.get(at) {
                Some(missing) => *missing,
                None => 0,
            },
            NoteFigure::Failures => match figures.notes.drives.get(at) {
                Some(notes) => notes.failures(),
                None => 0,
            },
        }
    }
}

// How many of these volumes are damaged and of the drive at this place.
fn damaged_of(planned: &[Planned], at: usize) -> u64 {
    let mut count = 0_u64;
    for volume in planned {
        if volume.drive == at && damaged_at(volume.takeover).is_some() {
            count = count.saturating_add(1);
        }
    }
    count
}

/// A figure with its values.
#[derive(Clone, Copy)]
struct OfDrives<'d> {
    figure: NoteFigure,
    figures: NoteFigures<'d>,
}

impl fmt::Display for OfDrives<'_> {
    fn fmt<W: fmt::Write>(&self, f: &mut fmt::Formatter<W>) -> fmt::Result {
        let heading = self.figure.heading();
        let name = heading.name;
        write!(f, "{heading}")?;
        let drives = self.figures.drives;
        for at in 0..drives.len() {
            let drive = drives[at].drive.get();
            let value = self.figure.value(&self.figures, at);
            write!(f, "{name}{{drive=\"{drive}\"}} {value}\n")?;
        }
        Ok(())
    }
}

/// Where the damaged volumes are damaged.
#[derive(Clone, Copy)]
struct DamagedPlaces<'d> {
    planned: &'d [Planned],
}

impl fmt::Display for DamagedPlaces<'_> {
    fn fmt<W: fmt::Write>(&self, f: &mut fmt::Formatter<W>) -> fmt::Result {
        let name = "sdd_volume_damaged_at_bytes";
        let heading = Heading {
            name,
            kind: Kind::Gauge,
            help: "Where a volume is damaged that the start didn't adopt.",
        };
        write!(f, "{heading}")?;
        for volume in self.planned {
            if let Some(at) = damaged_at(volume.takeover) {
                let (drive, volume) = (number_at(volume.drive), volume.name.as_str());
                write!(f, "{name}{{drive=\"{drive}\",volume=\"{volume}\"}} {at}\n")?;
            }
        }
        Ok(())
    }
}
