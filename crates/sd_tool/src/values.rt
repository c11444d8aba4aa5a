// What a script sets.
ghost use Rattle.std.specs.Prelude.{◌≡◌, OnOk, OnErr};
ghost use Rattle.sd_script.specs.Grammar.{IsSettingWithin};
ghost use Rattle.sd_tool.specs.Settings.{usual_values, values_with};

use sd_base::{DriveNo, HostName, MOST_VOLUME, MediaName};
use sd_script::{Fail, Setting};
use std::alloc::{AllocError, Global};
use std::marker::Model;

/// The block limit of a script that sets none, in bytes.
const USUAL_BLOCK: usize = 64_512;

/// How many blocks wait before a drive in a script that doesn't set it.
const USUAL_QUEUE: usize = 8;

/// The time of the run of a script that sets none, in seconds.
const USUAL_TIME: u32 = 1000;

/// What a script sets, within the limits of its lines. A setting that is given twice counts as it was given
/// last; drives and calls that fail add up. In a contract it is a `ValuesView`.
#[derive(Drop)]
pub struct Values {
    /// The limit of a block, in bytes.
    pub block: usize,
    /// The limit of a volume, in bytes.
    pub volume: u64,
    /// The limit of a session's spool, in bytes; 0 for none.
    pub spool: u64,
    /// How many blocks may wait before a drive.
    pub queue: usize,
    /// The time of the run, in seconds.
    pub time: u32,
    /// The host that the labels of new volumes say, if one is set.
    pub host: Option<HostName>,
    /// The media and the number of lanes of each drive, as they were given.
    pub drives: Vec<(MediaName, u32)>,
    /// For how many bytes each volume of a drive has room, as it was given.
    pub capacities: Vec<(DriveNo, u64)>,
    /// The calls of drives that fail, as they were given.
    pub fails: Vec<(DriveNo, Fail)>,
}

impl Model for Values {
    ghost use Rattle.sd_tool.specs.Settings.{AreSettable, ValuesView};

    ghost Value = { ValuesView };

    ghost view = { λ v. record {
      block = v.block;
      volume = v.volume;
      spool = v.spool;
      queue = v.queue;
      time = v.time;
      host = v.host;
      drives = v.drives.items;
      capacities = v.capacities.items;
      fails = v.fails.items;
    } };

    ghost invariant = { λ v. AreSettable (record {
      block = v.block;
      volume = v.volume;
      spool = v.spool;
      queue = v.queue;
      time = v.time;
      host = v.host;
      drives = v.drives.items;
      capacities = v.capacities.items;
      fails = v.fails.items;
    }) };
}

impl Values {
    /// The values of a script that has no settings.
    pub fn usual(alloc: Global) -> Self
        ensures { result ≡ usual_values }
    {
        Values {
            block: USUAL_BLOCK,
            volume: MOST_VOLUME,
            spool: 0,
            queue: USUAL_QUEUE,
            time: USUAL_TIME,
            host: None,
            drives: Vec::new(alloc),
            capacities: Vec::new(alloc),
            fails: Vec::new(alloc),
        }
    }

    /// One setting more. Without memory the values are as before.
    pub fn set(&mut self, setting: Setting) -> Result<(), AllocError>
        requires { IsSettingWithin setting }
        ensures ok { OnOk result (self.new ≡ values_with self.old setting) }
        ensures err { OnErr result (self.new ≡ self.old) }
    {
        match setting {
            Setting::Block(block) => self.block = block,
            Setting::Volume(volume) => self.volume = volume,
            Setting::Spool(spool) => self.spool = spool,
            Setting::Queue(queue) => self.queue = queue,
            Setting::Time(time) => self.time = time,
            Setting::Host(host) => self.host = Some(host),
            Setting::Drive { media, lanes } => self.drives.push((media, lanes))?,
            Setting::Capacity { drive, bytes } => self.capacities.push((drive, bytes))?,
            Setting::Fail { drive, fail } => self.fails.push((drive, fail))?,
        }
        Ok(())
    }
}
