// The drives of a configuration.
ghost use Rattle.std.specs.Prelude.{◌≡◌, ◌≤◌, List, length, map, option_map, codes, IfOk};
ghost use Rattle.toml.specs.Data.{get_member};
ghost use Rattle.toml.specs.View.{array_view, table_view};
ghost use Rattle.sd_conf.specs.Conf.{drive_of};
ghost use Rattle.sd_conf.specs.FirstFault.{◌then◌, DriveFault, DriveTest, TablesFault};
ghost use Rattle.sd_conf.specs.Limits.{default_lanes};
ghost use Rattle.sd_conf.specs.Told.{Tells, TellsAs};
ghost use Rattle.sd_conf.specs.Values.{tables_at, tables_of};

use crate::conf::DriveConf;
use crate::fault::{ConfFault, FaultKind};
use crate::keys::{Level, only_known};
use crate::values::{fault_at, media, number_at, required_text};
use sd_base::{Items, MOST_DRIVES, MOST_LANES};
use std::alloc::{AllocError, Global};
use toml::Table;
use toml::value::Array;

/// The lanes of a drive if none are given.
const DEFAULT_LANES: u64 = 4;

/// The drives of the configuration, in the order of their tables.
pub fn drives(alloc: Global, table: &Table) -> Result<Items<DriveConf>, ConfFault>
    ensures { let tables = tables_at (get_member (codes "drive") (table_view table.now)) in
        Tells (DriveTest (table_view table.now) then TablesFault tables) (map drive_of tables)
        result }
{
    let tables = tables(alloc, table)?;
    drives_of(alloc, &tables)
}

/// The tables of the drives, of which there are one at least and not too many.
pub fn tables(alloc: Global, table: &Table) -> Result<Vec<&Table>, ConfFault>
    ensures { TellsAs (λ tables. map (λ t. table_view t.now) tables.items)
        (DriveTest (table_view table.now))
        (tables_at (get_member (codes "drive") (table_view table.now))) result }
{
    let Some(value) = table.get("drive") else {
        return Err(fault_at(alloc, "drive", FaultKind::Missing));
    };
    let Some(array) = value.as_array() else {
        return Err(fault_at(alloc, "drive", FaultKind::Kind));
    };
    let Ok(tables) = tables_of(alloc, array) else {
        return Err(ConfFault::Memory);
    };
    let Some(tables) = tables else {
        return Err(fault_at(alloc, "drive", FaultKind::Kind));
    };
    if tables.is_empty() {
        return Err(fault_at(alloc, "drive", FaultKind::Missing));
    }
    if tables.len() > MOST_DRIVES as usize {
        return Err(fault_at(alloc, "drive", FaultKind::Range));
    }
    Ok(tables)
}

// The tables that the values are, or `None` if one is none.
fn tables_of(alloc: Global, array: &Array) -> Result<Option<Vec<&Table>>, AllocError>
    ensures { IfOk result (λ tables. option_map (λ ts. map (λ t. table_view t.now) ts.items) tables
        ≡ tables_of (array_view array.now)) }
{
    let mut tables = Vec::new(alloc);
    for value in array {
        let Some(table) = value.as_table() else {
            return Ok(None);
        };
        tables.push(table)?;
    }
    Ok(Some(tables))
}

// The drives that the tables say.
fn drives_of(alloc: Global, tables: &[&Table]) -> Result<Items<DriveConf>, ConfFault>
    ensures { Tells (TablesFault (map (λ t. table_view t.now) tables.now))
        (map drive_of (map (λ t. table_view t.now) tables.now)) result }
{
    let mut drives = Vec::new(alloc);
    for table in tables {
        let drive = drive(alloc, table)?;
        let Ok(()) = drives.push(drive) else {
            return Err(ConfFault::Memory);
        };
    }
    Ok(Items::from_vec(drives))
}

/// The drive that a table says.
pub fn drive(alloc: Global, table: &Table) -> Result<DriveConf, ConfFault>
    ensures { Tells (DriveFault (table_view table.now)) (drive_of (table_view table.now)) result }
{
    only_known(alloc, table, Level::Drive)?;
    let media = media(alloc, table)?;
    let folder = required_text(alloc, table, "folder")?;
    let lanes = number_at(
        alloc,
        table,
        "lanes",
        (1, u64::from(MOST_LANES)),
        DEFAULT_LANES,
    )?;
    Ok(DriveConf {
        media,
        folder,
        lanes: lanes as u32,
    })
}
