// A drive, its parts, and the piece in its hand.
ghost use Rattle.std.specs.Prelude.{◌≡◌, ◌↔◌, ◌≤◌, ◌<◌, ◌⊎◌, [], None, Some, IfOk, IfErr, OnOk, OnErr, IsTrue, List, ℕ};
ghost use Rattle.std.specs.Option.{option_copied};
ghost use Rattle.sd_driver.specs.Meaning.{IsHonest, SameCounts};
ghost use Rattle.sd_driver.specs.Shelf.{SameShelf, StillLasts};
ghost use Rattle.sd_journal.specs.Journal.{placements, progress_of, with_key};
ghost use Rattle.sd_span.specs.Spans.{spans_of};
ghost use Rattle.sd_drive.specs.Limits.{AreLimits};
ghost use Rattle.sd_drive.specs.Shelf.{Kept, KeepsPieces, LeavesStable};
ghost use Rattle.sd_drive.specs.View.{DriveIs};

use crate::limits::Limits;
use sd_base::{Items, MediaName, PoolName, SessionKey};
use sd_driver::Driver;
use sd_journal::Journal;
use sd_lane::Piece;
use sd_span::{Progress, Span};
use sd_volume::Volume;
use std::alloc::{AllocError, Global};
use std::marker::Model;

// For how many volumes a new drive makes room at once.
const FIRST_VOLUMES: usize = 4;

/// A drive over its device. In a contract it is a `DriveIs`, which holds the device itself beside plain data.
///
/// Its type keeps what `Kept` says, whatever the calls answer: so a core or a lock over it need not know of shelves,
/// volumes and blocks.
#[derive(Drop)]
pub struct Drive<D: Driver> {
    pub(crate) alloc: Global,
    pub(crate) driver: D,
    pub(crate) media: MediaName,
    pub(crate) limits: Limits,
    pub(crate) volumes: Vec<Volume>,
    /// The place of the loaded volume, so that no call looks for it.
    pub(crate) loaded: Option<usize>,
    pub(crate) pool: Option<PoolName>,
    pub(crate) hand: Option<Piece>,
    pub(crate) journal: Journal,
}

/// A device that no drive was made of, because it was out of memory.
#[derive(Drop)]
pub struct NotMade<D> {
    pub driver: D,
}

impl<D: Driver> Model for Drive<D> {
    ghost use Rattle.std.specs.Prelude.{◌≤◌};
    ghost use Rattle.sd_base.specs.Limits.{most_volume};
    ghost use Rattle.sd_drive.specs.View.{DriveIs};
    ghost use Rattle.sd_drive.specs.Shelf.{Kept};

    ghost Value = { DriveIs D };

    ghost view = { λ d. record {
      device = d.driver;
      media = d.media;
      limits = d.limits;
      volumes = d.volumes.items;
      loaded = d.loaded;
      pool = d.pool;
      hand = d.hand;
      journal = d.journal.entries;
      ready = d.journal.ready;
    } };

    ghost invariant = { λ d. record {
      kept : Kept (D.meaning d.driver) d.volumes.items d.loaded d.journal.entries;
      limit : d.limits.volume ≤ most_volume;
    } };
}

impl<D: Driver> Drive<D> {
    /// A drive with no volume, which served no session yet. Unloads the device; what an honest one answers to that shows
    /// that a stop before left what was stable. If out of memory, the device comes back.
    #[tactic(auto, using(crate::proofs::StableLemmas::shown_by_unload))]
    pub fn new(
        alloc: Global,
        driver: D,
        media: MediaName,
        limits: Limits,
    ) -> Result<Drive<D>, NotMade<D>>
        requires { AreLimits limits }
        ensures ok { IfOk result (λ drive. drive ≡ record {
          device = drive.device;
          media = media;
          limits = limits;
          volumes = [];
          loaded = None;
          pool = None;
          hand = None;
          journal = [];
          ready = [];
        }) }
        ensures honest { IfOk result
            (λ drive. (D.meaning drive.device).honest ≡ (D.meaning driver).honest) }
        ensures moment { IfOk result (λ drive.
            (D.meaning driver).shelf.moment ≤ (D.meaning drive.device).shelf.moment) }
        ensures later { IfOk result
            (λ drive. StillLasts (D.meaning driver).shelf (D.meaning drive.device).shelf) }
        ensures same { IfOk result (λ drive. IsHonest (D.meaning driver)
            → SameShelf (D.meaning driver).shelf (D.meaning drive.device).shelf) }
        ensures counts { IfOk result (λ drive. SameCounts (D.meaning driver)
            (D.meaning drive.device)) }
        ensures given_stable { IfOk result (λ drive.
            IsHonest (D.meaning driver) → LeavesStable (D.meaning driver).shelf) }
        ensures err { IfErr result (λ kept. kept.driver ≡ driver) }
    {
        let Ok(volumes) = Vec::with_capacity(alloc, FIRST_VOLUMES) else {
            return Err(NotMade { driver });
        };
        let mut driver = driver;
        driver.unload();
        Ok(Drive {
            alloc,
            driver,
            media,
            limits,
            volumes,
            loaded: None,
            pool: None,
            hand: None,
            journal: Journal::new(alloc),
        })
    }

    /// The device of the drive.
    pub fn into_driver(self) -> D
        ensures { result ≡ self.device }
    {
        let Drive {
            alloc: _,
            driver,
            media: _,
            limits: _,
            volumes: _,
            loaded: _,
            pool: _,
            hand: _,
            journal: _,
        } = self;
        driver
    }

    /// What the drive's type keeps. Does nothing.
    pub fn know(&self)
        ensures { Kept (D.meaning self.now.device) self.now.volumes self.now.loaded
            self.now.journal }
    {
        let _ = &self.journal;
    }

    /// The drive's device.
    pub fn device(&self) -> &D
        ensures { result.now ≡ self.now.device }
    {
        &self.driver
    }

    pub fn media(&self) -> &MediaName
        ensures { result.now ≡ self.now.media }
    {
        &self.media
    }

    pub fn limits(&self) -> &Limits
        ensures { result.now ≡ self.now.limits }
    {
        &self.limits
    }

    /// The drive's volumes, in the order in which they were labelled or adopted.
    pub fn volumes(&self) -> &[Volume]
        ensures { result.now ≡ self.now.volumes }
    {
        &self.volumes
    }

    /// The place of the loaded volume among them.
    pub fn loaded(&self) -> Option<usize>
        ensures { result ≡ self.now.loaded }
    {
        self.loaded
    }

    /// The pool of the session that the drive served last.
    pub fn pool(&self) -> Option<&PoolName>
        ensures { option_copied result ≡ self.now.pool }
    {
        self.pool.as_ref()
    }

    /// The piece that is to be placed next.
    pub fn hand(&self) -> Option<&Piece>
        ensures { option_copied result ≡ self.now.hand }
    {
        self.hand.as_ref()
    }

    /// Makes room for a session's next placement early, so that memory is needed when the session is opened.
    pub fn ready(&mut self, key: SessionKey) -> Result<(), AllocError>
        ensures ok { OnOk result (self.new ≡ record self.old {
          ready = with_key key self.old.ready;
        }) }
        ensures err { OnErr result (self.new ≡ self.old) }
    {
        self.journal.ready(key)
    }

    /// The pool of the session that was reserved at the drive last is this one. Takes no memory.
    pub fn set_pool(&mut self, pool: &PoolName)
        ensures { self.new ≡ record self.old { pool = Some pool.now } }
    {
        self.pool = Some(pool.copy());
    }

    /// Notes a session that was reserved at the drive: its pool is the drive's from then on, and there is room for its
    /// next placement.
    pub fn serve(&mut self, key: SessionKey, pool: &PoolName) -> Result<(), AllocError>
        ensures ok { OnOk result (self.new ≡ record self.old {
          pool = Some pool.now;
          ready = with_key key self.old.ready;
        }) }
        ensures err { OnErr result (self.new ≡ self.old) }
    {
        self.ready(key)?;
        self.set_pool(pool);
        Ok(())
    }

    /// Takes a piece into the empty hand. Takes no memory.
    pub fn give(&mut self, piece: Piece)
        requires { self.old.hand ≡ None }
        ensures { self.new ≡ record self.old { hand = Some piece } }
    {
        self.hand = Some(piece);
    }

    /// How far a session's blocks are. Takes no memory.
    pub fn progress(&self, key: SessionKey) -> Progress
        ensures { result ≡ progress_of key self.now.journal }
    {
        self.journal.progress(key)
    }

    /// The spans of a session, as far as it was placed.
    pub fn spans(&self, key: SessionKey) -> Result<Items<Span>, AllocError>
        ensures { IfOk result (λ spans. spans ≡ spans_of key (placements self.now.journal)) }
    {
        self.journal.spans(key)
    }
}
