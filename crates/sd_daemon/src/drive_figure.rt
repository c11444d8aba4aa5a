// The figures that each drive has one of.
use crate::figures_text::{Heading, Kind};
use sd_lines::DriveFigures;
use std::fmt;
use std::time::Duration;

/// A figure that each drive has one of.
#[derive(Clone, Copy)]
pub(crate) enum DriveFigure {
    Records,
    Bytes,
    Blocks,
    BlockBytes,
    Syncs,
    SyncSeconds,
    FreeLanes,
    Queued,
    Waits,
    Waiting,
    Full,
}

/// All of them, in the order in which they are written.
pub(crate) const DRIVE_FIGURES: [DriveFigure; 11] = [
    DriveFigure::Records,
    DriveFigure::Bytes,
    DriveFigure::Blocks,
    DriveFigure::BlockBytes,
    DriveFigure::Syncs,
    DriveFigure::SyncSeconds,
    DriveFigure::FreeLanes,
    DriveFigure::Queued,
    DriveFigure::Waits,
    DriveFigure::Waiting,
    DriveFigure::Full,
];

/// The value of such a figure. Displays it.
#[derive(Clone, Copy)]
pub(crate) enum DriveValue {
    Count(u64),
    /// In seconds, to the microsecond.
    Time(Duration),
}

impl fmt::Display for DriveValue {
    fn fmt<W: fmt::Write>(&self, f: &mut fmt::Formatter<W>) -> fmt::Result {
        match self {
            DriveValue::Count(count) => write!(f, "{count}"),
            DriveValue::Time(time) => {
                let (seconds, micros) = (time.as_secs(), time.subsec_micros());
                write!(f, "{seconds}.{micros:06}")
            }
        }
    }
}

impl DriveFigure {
    pub(crate) fn heading(self) -> Heading {
        let kind = match self {
            DriveFigure::FreeLanes | DriveFigure::Queued | DriveFigure::Waiting => Kind::Gauge,
            _ => Kind::Counter,
        };
        let (name, help) = self.words();
        Heading { name, kind, help }
    }

    // Its name and its help.
    fn words(self) -> (&'static str, &'static str) {
        match self {
            DriveFigure::Records => ("sdd_records_total", "Records taken from clients."),
            DriveFigure::Bytes => (
                "sdd_bytes_total",
                "Bytes of the records taken from clients.",
            ),
            DriveFigure::Blocks => ("sdd_blocks_total", "Blocks placed on volumes."),
            DriveFigure::BlockBytes => (
                "sdd_block_bytes_total",
                "Bytes of the blocks placed on volumes.",
            ),
            DriveFigure::Syncs => ("sdd_syncs_total", "Syncs of a volume."),
            DriveFigure::SyncSeconds => ("sdd_sync_seconds_total", "Seconds that syncs took."),
            DriveFigure::FreeLanes => ("sdd_free_lanes", "Lanes that a job can have."),
            DriveFigure::Queued => ("sdd_queued_blocks", "Blocks in the queue before the drive."),
            DriveFigure::Waits => (
                "sdd_volume_waits_total",
                "Times that the drive had to ask for a volume.",
            ),
            DriveFigure::Waiting => (
                "sdd_waits_for_volume",
                "Whether the drive waits for a volume now.",
            ),
            DriveFigure::Full => ("sdd_full_volumes_total", "Volumes that became full."),
        }
    }

    /// Its value among the figures of a drive.
    pub(crate) fn value(self, figures: &DriveFigures) -> DriveValue {
        match self {
            DriveFigure::Records => DriveValue::Count(figures.taken.records),
            DriveFigure::Bytes => DriveValue::Count(figures.taken.bytes),
            DriveFigure::Blocks => DriveValue::Count(figures.metered.blocks),
            DriveFigure::BlockBytes => DriveValue::Count(figures.metered.block_bytes),
            DriveFigure::Syncs => DriveValue::Count(figures.metered.syncs),
            DriveFigure::SyncSeconds => DriveValue::Time(figures.metered.sync_time),
            DriveFigure::FreeLanes => DriveValue::Count(figures.free_lanes),
            DriveFigure::Queued => DriveValue::Count(figures.queued),
            DriveFigure::Waits => DriveValue::Count(figures.waits),
            DriveFigure::Waiting => DriveValue::Count(u64::from(figures.is_waiting)),
            DriveFigure::Full => DriveValue::Count(figures.full),
        }
    }
}
