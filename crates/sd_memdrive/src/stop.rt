// What a stop in the past leaves of the volumes.
ghost use Rattle.std.specs.Prelude.{◌≡◌, Some, IfOk};
ghost use Rattle.std.specs.List.{filter_map};
ghost use Rattle.sd_driver.specs.Shelf.{stable_bytes};
ghost use Rattle.sd_memdrive.specs.ChangeLog.{undo, left_volume};

use crate::change_log::Change;
use crate::stored::Stored;
use std::alloc::{AllocError, Global};

/// What a stop before these changes leaves of the volumes: those that had stable bytes then, each with a
/// tail.
pub fn left_all(
    alloc: Global,
    volumes: &[Stored],
    later: &[Change],
    tail: &[u8],
) -> Result<Vec<Stored>, AllocError>
    ensures { IfOk result (λ left.
        left.items ≡ filter_map (left_volume later.now tail.now) volumes.now) }
{
    let mut left = Vec::new(alloc);
    for stored in volumes {
        if let Some(volume) = left_by(alloc, stored, later, tail)? {
            left.push(volume)?;
        }
    }
    Ok(left)
}

fn left_by(
    alloc: Global,
    stored: &Stored,
    later: &[Change],
    tail: &[u8],
) -> Result<Option<Stored>, AllocError>
    ensures { IfOk result (λ left. left ≡ left_volume later.now tail.now stored.now) }
{
    let bytes = stable_before(alloc, stored, later)?;
    if bytes.is_empty() {
        return Ok(None);
    }
    Ok(Some(Stored::left(stored.name(), bytes, tail)?))
}

// The stable bytes of a volume before these changes, undone from the last on.
fn stable_before(alloc: Global, stored: &Stored, later: &[Change]) -> Result<Vec<u8>, AllocError>
    ensures { IfOk result (λ bytes.
        bytes.items ≡ undo later.now stored.now.name (stable_bytes (Some stored.now.held))) }
{
    let mut bytes = stored.stable_from(0).to_vec(alloc)?;
    for undone in 0..later.len() {
        let change = &later[later.len() - 1 - undone];
        if stored.is_named(&change.name) {
            bytes.extend_from_slice(change.lost.as_slice())?;
            bytes.truncate(change.stable);
        }
    }
    Ok(bytes)
}
