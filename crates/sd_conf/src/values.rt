// The numbers and texts at keys.
ghost use Rattle.std.specs.Prelude.{◌≡◌, ◌≤◌, ◌==◌, ◌⊎◌, if◌then◌else◌, Some, pos, [], codes, unwrap_or, MatchResult, IfOk};
ghost use Rattle.sd_base.specs.Limits.{most_volume};
ghost use Rattle.toml.specs.Data.{as_integer, as_str, get_member};
ghost use Rattle.toml.specs.View.{table_view, view};
ghost use Rattle.sd_conf.specs.FirstFault.{At, HostTest, MediaTest, NameTest, NumberTest};
ghost use Rattle.sd_conf.specs.Limits.{default_host};
ghost use Rattle.sd_conf.specs.Told.{Names, Tells};
ghost use Rattle.sd_conf.specs.Values.{required, optional, is_within, is_spool_limit, number_fault, number_or, text_at, text_fault};

use crate::fault::{ConfFault, FaultKind};
use crate::text::Text;
use sd_base::{HostName, MOST_VOLUME, MediaName, Name};
use std::alloc::Global;
use toml::{Table, Value};

/// The host if none is given.
const DEFAULT_HOST: &str = "localhost";

/// The fault of a key, or `Memory` if none is left for its name.
pub fn fault_at(alloc: Global, key: &str, kind: FaultKind) -> ConfFault
    ensures { Names key.now kind result }
{
    match Text::new(alloc, key) {
        Ok(key) => ConfFault::Key { key, kind },
        Err(_) => ConfFault::Memory,
    }
}

/// The number at a key, or the default if the key is missing.
pub fn number_at(
    alloc: Global,
    table: &Table,
    key: &str,
    limits: (u64, u64),
    default: u64,
) -> Result<u64, ConfFault>
    requires least { limits.0 ≤ default }
    requires most { default ≤ limits.1 }
    ensures told { Tells (NumberTest key.now limits.0 limits.1 (table_view table.now))
        (number_or default (get_member key.now (table_view table.now))) result }
    ensures within { IfOk result (λ n. (limits.0 ≤ n) × (n ≤ limits.1)) }
{
    match table.get(key) {
        None => Ok(default),
        Some(value) => match number(value, limits) {
            Ok(number) => Ok(number),
            Err(kind) => Err(fault_at(alloc, key, kind)),
        },
    }
}

/// The spool limit: 0 for no spooling, which is the default, else a block at least.
pub fn spool_at(alloc: Global, table: &Table, block: u64) -> Result<u64, ConfFault>
    ensures told { let value = get_member (codes "spool") (table_view table.now) in Tells
        (At (codes "spool") (optional (number_fault (is_spool_limit block)) value))
        (number_or 0 value) result }
    ensures within { IfOk result (λ n. (n ≡ 0) ⊎ ((block ≤ n) × (n ≤ most_volume))) }
{
    match table.get("spool") {
        None => Ok(0),
        Some(value) => match spool(value, block) {
            Ok(number) => Ok(number),
            Err(kind) => Err(fault_at(alloc, "spool", kind)),
        },
    }
}

// A spool limit beside this block limit.
fn spool(value: &Value, block: u64) -> Result<u64, FaultKind>
    ensures { MatchResult result
        (λ n. (as_integer (view value.now) ≡ Some (pos n))
        × ((n ≡ 0) ⊎ ((block ≤ n) × (n ≤ most_volume))))
        (λ kind. number_fault (is_spool_limit block) (view value.now) ≡ Some kind) }
{
    if value.as_integer() == Some(0) {
        return Ok(0);
    }
    number(value, (block, MOST_VOLUME))
}

// A number within these limits.
fn number(value: &Value, limits: (u64, u64)) -> Result<u64, FaultKind>
    ensures { MatchResult result
        (λ n. (as_integer (view value.now) ≡ Some (pos n)) × (limits.0 ≤ n) × (n ≤ limits.1))
        (λ kind. number_fault (is_within limits.0 limits.1) (view value.now) ≡ Some kind) }
{
    let Some(signed) = value.as_integer() else {
        return Err(FaultKind::Kind);
    };
    if signed < 0 {
        return Err(FaultKind::Range);
    }
    let number = signed as u64;
    if number < limits.0 || number > limits.1 {
        return Err(FaultKind::Range);
    }
    Ok(number)
}

/// The text at a key that may be missing.
pub fn text_at(alloc: Global, table: &Table, key: &str) -> Result<Option<Text>, ConfFault>
    ensures { let value = get_member key.now (table_view table.now) in
        Tells (At key.now (optional text_fault value)) (text_at value) result }
{
    let Some(value) = table.get(key) else {
        return Ok(None);
    };
    let Some(text) = value.as_str() else {
        return Err(fault_at(alloc, key, FaultKind::Kind));
    };
    match Text::new(alloc, text) {
        Ok(text) => Ok(Some(text)),
        Err(_) => Err(ConfFault::Memory),
    }
}

/// The text at a key that is required.
pub fn required_text(alloc: Global, table: &Table, key: &str) -> Result<Text, ConfFault>
    ensures { let value = get_member key.now (table_view table.now) in
        Tells (At key.now (required text_fault value)) (unwrap_or (text_at value) []) result }
{
    match text_at(alloc, table, key)? {
        Some(text) => Ok(text),
        None => Err(fault_at(alloc, key, FaultKind::Missing)),
    }
}

/// The folder of the spools, which is required with spooling.
pub fn spool_folder(alloc: Global, table: &Table, spool: u64) -> Result<Option<Text>, ConfFault>
    ensures { let value = get_member (codes "spool_folder") (table_view table.now) in
        Tells (At (codes "spool_folder")
        (if spool == 0 then optional text_fault value else required text_fault value))
        (text_at value) result }
{
    let folder = text_at(alloc, table, "spool_folder")?;
    if spool > 0 && folder.is_none() {
        return Err(fault_at(alloc, "spool_folder", FaultKind::Missing));
    }
    Ok(folder)
}

/// The media of a drive, which is required.
pub fn media(alloc: Global, table: &Table) -> Result<MediaName, ConfFault>
    ensures { let value = get_member (codes "media") (table_view table.now) in
        Tells (MediaTest value) (unwrap_or (text_at value) []) result }
{
    let Some(value) = table.get("media") else {
        return Err(fault_at(alloc, "media", FaultKind::Missing));
    };
    name(alloc, "media", value)
}

/// The host, or the default if the key is missing.
pub fn host(alloc: Global, table: &Table) -> Result<HostName, ConfFault>
    ensures { let value = get_member (codes "host") (table_view table.now) in
        Tells (HostTest value) (unwrap_or (text_at value) default_host) result }
{
    let Some(value) = table.get("host") else {
        return Ok(HostName::parse(DEFAULT_HOST).unwrap());
    };
    name(alloc, "host", value)
}

// The name that the value at a key is.
fn name<K>(alloc: Global, key: &str, value: &Value) -> Result<Name<K>, ConfFault>
    ensures { let text = as_str (view value.now) in
        Tells (NameTest key.now text) (unwrap_or text []) result }
{
    let Some(text) = value.as_str() else {
        return Err(fault_at(alloc, key, FaultKind::Kind));
    };
    match Name::parse(text) {
        Ok(name) => Ok(name),
        Err(_) => Err(fault_at(alloc, key, FaultKind::Range)),
    }
}
