// What is known of a volume without reading it.
ghost use Rattle.std.specs.Prelude.{◌≡◌, ◌≤◌, ◌↔◌, IsTrue};

use sd_base::{MediaName, PoolName, VolName};
use std::marker::Model;

/// Whether blocks are added to a volume.
#[derive(Clone, Copy, Debug, PartialEq, Eq)]
pub enum VolumeStatus {
    /// Blocks are added.
    Append,
    /// A block found no room.
    Full,
    /// The device failed a write of it. What comes after its blocks may be anything.
    Error,
}

/// A labelled volume: where its blocks end, and what the next one gets. In a contract it is a `VolumeView`.
#[derive(Drop)]
pub struct Volume {
    pub(crate) name: VolName,
    pub(crate) pool: PoolName,
    pub(crate) media: MediaName,
    pub(crate) status: VolumeStatus,
    pub(crate) end: u64,
    pub(crate) next_number: u32,
    pub(crate) first: u64,
    pub(crate) last: u64,
}

impl Model for Volume {
    ghost use Rattle.sd_volume.specs.Volume.{VolumeView, IsVolumeView};

    ghost Value = { VolumeView };

    ghost view = { λ v. record {
      name = v.name;
      pool = v.pool;
      media = v.media;
      status = v.status;
      end = v.end;
      next_number = v.next_number;
      first = v.first;
      last = v.last;
    } };

    ghost invariant = { λ v. IsVolumeView (record {
      name = v.name;
      pool = v.pool;
      media = v.media;
      status = v.status;
      end = v.end;
      next_number = v.next_number;
      first = v.first;
      last = v.last;
    }) };
}

impl Volume {
    ghost use Rattle.sd_base.specs.Limits.{most_volume};
    ghost use Rattle.sd_volume.specs.declared.volume.VolumeStatus.TheVariants.{Append, Error};
    ghost use Rattle.sd_volume.specs.Purge.{emptied};

    pub fn name(&self) -> &VolName
        ensures { result.now ≡ self.now.name }
    {
        &self.name
    }

    pub fn pool(&self) -> &PoolName
        ensures { result.now ≡ self.now.pool }
    {
        &self.pool
    }

    pub fn media(&self) -> &MediaName
        ensures { result.now ≡ self.now.media }
    {
        &self.media
    }

    pub fn status(&self) -> VolumeStatus
        ensures { result ≡ self.now.status }
    {
        self.status
    }

    /// Where its blocks end, and the next one will begin.
    pub fn end(&self) -> u64
        ensures end { result ≡ self.now.end }
        ensures most { result ≤ most_volume }
    {
        self.end
    }

    /// The number of the next block.
    pub fn next_number(&self) -> u32
        ensures { result ≡ self.now.next_number }
    {
        self.next_number
    }

    /// Where its first block begins.
    pub fn first(&self) -> u64
        ensures first { result ≡ self.now.first }
        ensures most { result ≤ self.now.end }
    {
        self.first
    }

    /// Where its last block begins, 0 if it has its label block alone.
    pub fn last(&self) -> u64
        ensures { result ≡ self.now.last }
    {
        self.last
    }

    /// Whether blocks of the pool are added to it.
    pub fn is_appendable_for(&self, pool: &PoolName) -> bool
        ensures { IsTrue result ↔ ((self.now.status ≡ Append) × (pool.now ≡ self.now.pool)) }
    {
        self.status == VolumeStatus::Append && self.pool.is_same(pool)
    }

    /// It has no block any more: its next one is the first, right after its label block.
    pub(crate) fn empty(&mut self, status: VolumeStatus)
        ensures { self.new ≡ emptied status self.old }
    {
        self.status = status;
        self.end = self.first;
        self.next_number = 1;
        self.last = 0;
    }

    /// No more blocks are added, since the device failed a write of it.
    pub fn fail(&mut self)
        ensures { self.new ≡ record self.old { status = Error } }
    {
        self.status = VolumeStatus::Error;
    }
}
