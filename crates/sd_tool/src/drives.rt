// The drives in memory that a script is run over.
ghost use Rattle.std.specs.Prelude.{◌≡◌, IfOk, length};
ghost use Rattle.sd_tool.specs.MemDrives.{AreSetUp};
ghost use Rattle.sd_tool.specs.Settings.{drives_due};

use crate::values::Values;
use sd_base::DriveNo;
use sd_memdrive::MemDrive;
use std::alloc::{AllocError, Global};

/// A drive in memory for each drive of the settings, in their order; none if the settings don't go together.
pub fn memory_drives(alloc: Global, values: &Values) -> Result<Vec<MemDrive>, AllocError>
    ensures count { IfOk result (λ drives. length drives.items ≡ drives_due values.now) }
    ensures set_up { IfOk result (λ drives. AreSetUp values.now drives.items) }
{
    let mut drives = Vec::new(alloc);
    if values.misfit().is_some() {
        return Ok(drives);
    }
    for number in 1..values.drive_count() as u32 + 1 {
        let drive = DriveNo::new(number).unwrap();
        let plan = values.plan(alloc, drive)?;
        drives.push(MemDrive::new(alloc, values.capacity(drive), &plan)?)?;
    }
    Ok(drives)
}
