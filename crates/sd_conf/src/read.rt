// A configuration read from its text.
ghost use Rattle.std.specs.Prelude.{◌≡◌, ◌⊎◌, None, Ok, Err, IfOk, ℕ, List};
ghost use Rattle.toml.specs.Parse.{parse_document};
ghost use Rattle.toml.specs.View.{table_view};
ghost use Rattle.sd_conf.specs.Conf.{HasFirstFault, IsConfText, IsWithinLimits, conf_of, own_of};
ghost use Rattle.sd_conf.specs.FirstFault.{FirstFault, OwnFault};
ghost use Rattle.sd_conf.specs.Told.{Tells};
ghost use Rattle.sd_conf.specs.declared.conf.Conf.{Conf as SpecConf};
ghost use Rattle.sd_conf.specs.declared.fault.ConfFault.TheVariants.{Text, Key, Memory};
ghost use Rattle.sd_conf.specs.declared.fault.FaultKind.{FaultKind as SpecKind};

use crate::conf::{Conf, OwnConf};
use crate::drives::drives;
use crate::fault::ConfFault;
use crate::keys::{Level, only_known};
use crate::values::{host, number_at, spool_at, spool_folder};
use sd_base::{LEAST_BLOCK_LIMIT, MOST_BLOCK, MOST_QUEUE, MOST_VOLUME};
use std::alloc::Global;
use toml::Table;

/// The block limit if none is given.
const DEFAULT_BLOCK: u64 = 64_512;

/// How many blocks wait before a drive if none are given.
const DEFAULT_QUEUE: u64 = 8;

/// The port if none is given.
const DEFAULT_PORT: u64 = 9103;

/// The configuration that a TOML text is, or the first fault in it.
pub fn read_conf(alloc: Global, text: &str) -> Result<Conf, ConfFault>
    // What is read is the configuration that the text is, within the limits,
    ensures ok { IfOk result (IsConfText text.now) }
    ensures limits { IfOk result IsWithinLimits }
    // and a configuration is read, if memory lasts.
    ensures found { (conf : SpecConf) → IsConfText text.now conf
        → (result ≡ Ok conf) ⊎ (result ≡ Err Memory) }
    // A key that is refused is the first fault,
    ensures key { (key : List ℕ) (kind : SpecKind) → result ≡ Err (Key key kind)
        → HasFirstFault text.now key kind }
    // and a first fault is refused.
    ensures fault { (key : List ℕ) (kind : SpecKind) → HasFirstFault text.now key kind
        → (result ≡ Err (Key key kind)) ⊎ (result ≡ Err Memory) }
    // A text is refused as such if it is no TOML, and only then.
    ensures text { result ≡ Err Text → parse_document text.now ≡ None }
    ensures no_document { parse_document text.now ≡ None
        → (result ≡ Err Text) ⊎ (result ≡ Err Memory) }
{
    match toml::table_from_str(alloc, text) {
        Ok(table) => conf(alloc, &table),
        Err(error) if error.is_memory() => Err(ConfFault::Memory),
        Err(_) => Err(ConfFault::Text),
    }
}

// The configuration that a table is.
fn conf(alloc: Global, table: &Table) -> Result<Conf, ConfFault>
    ensures { Tells (FirstFault (table_view table.now)) (conf_of (table_view table.now)) result }
{
    let own = own(alloc, table)?;
    let drives = drives(alloc, table)?;
    Ok(Conf {
        block: own.block,
        volume: own.volume,
        spool: own.spool,
        queue: own.queue,
        port: own.port,
        host: own.host,
        spool_folder: own.spool_folder,
        drives,
    })
}

/// What a table says in its own keys, but for the drives.
pub fn own(alloc: Global, table: &Table) -> Result<OwnConf, ConfFault>
    ensures { Tells (OwnFault (table_view table.now)) (own_of (table_view table.now)) result }
{
    only_known(alloc, table, Level::Daemon)?;
    let block_limits = (LEAST_BLOCK_LIMIT as u64, MOST_BLOCK as u64);
    let block = number_at(alloc, table, "block", block_limits, DEFAULT_BLOCK)?;
    let volume = number_at(
        alloc,
        table,
        "volume",
        (2 * block, MOST_VOLUME),
        MOST_VOLUME,
    )?;
    let spool = spool_at(alloc, table, block)?;
    let queue = number_at(alloc, table, "queue", (1, MOST_QUEUE as u64), DEFAULT_QUEUE)?;
    let port = number_at(alloc, table, "port", (1, u16::MAX as u64), DEFAULT_PORT)?;
    let host = host(alloc, table)?;
    let spool_folder = spool_folder(alloc, table, spool)?;
    Ok(OwnConf {
        block: block as usize,
        volume,
        spool,
        queue: queue as usize,
        port: port as u16,
        host,
        spool_folder,
    })
}
