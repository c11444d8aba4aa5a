// The names of what there is one of.
use sd_base::{JobId, MediaName, PoolName, SessionKey, VolName};
use sd_label::{SessionLabel, Totals, VolumeLabel};
use std::io;

/// The session that all is done for.
pub const KEY: SessionKey = SessionKey { time: 1000, id: 1 };

/// The names that all parts use. They are read once, so that no part has to see to a name that is none.
#[derive(Drop)]
pub struct Names {
    pub job: JobId,
    pub volume: VolName,
    pub pool: PoolName,
    pub media: MediaName,
}

impl Names {
    pub fn new() -> io::Result<Names> {
        let Some(job) = JobId::new(7) else {
            return Err(io::Error::other("a number"));
        };
        let (Ok(volume), Ok(pool), Ok(media)) = (
            VolName::parse("Vol-0001"),
            PoolName::parse("Default"),
            MediaName::parse("File"),
        ) else {
            return Err(io::Error::other("a name"));
        };
        Ok(Names {
            job,
            volume,
            pool,
            media,
        })
    }

    /// The label of the job's session.
    pub fn session_label(&self, totals: Option<Totals>) -> SessionLabel {
        SessionLabel {
            job: self.job,
            pool: self.pool.copy(),
            media: self.media.copy(),
            moment: 0,
            totals,
        }
    }

    /// The label of the volume.
    pub fn volume_label(&self) -> VolumeLabel {
        VolumeLabel {
            name: self.volume.copy(),
            pool: self.pool.copy(),
            media: self.media.copy(),
            moment: 0,
            host: None,
        }
    }
}
