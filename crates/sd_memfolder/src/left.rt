// What a stop leaves of a folder in memory.
ghost use Rattle.std.specs.Prelude.{◌≡◌, IfOk, map};
ghost use Rattle.std.specs.List.{filter_map};
ghost use Rattle.sd_memfolder.specs.Files.{left_of, left_file};

use crate::stored::Stored;
use sd_base::{Bytes, Items, VolName};
use std::alloc::{AllocError, Global};

/// What a stop leaves of a file: its name, and the bytes that the disk has under it.
#[derive(Drop)]
pub struct Left {
    pub name: VolName,
    pub bytes: Bytes,
}

/// What a stop now leaves of these files.
pub fn left_all(alloc: Global, files: &[Stored]) -> Result<Items<Left>, AllocError>
    ensures { IfOk result (λ left. left ≡ map left_of files.now) }
{
    let mut left = Vec::new(alloc);
    for file in files {
        left.push(file.left(alloc)?)?;
    }
    Ok(Items::from_vec(left))
}

/// The files after a stop that left this, each with a tail: those of which it left a byte.
pub fn files_after(alloc: Global, left: &[Left], tail: &[u8]) -> Result<Vec<Stored>, AllocError>
    ensures { IfOk result (λ files. files.items ≡ filter_map (left_file tail.now) left.now) }
{
    let mut files = Vec::new(alloc);
    for one in left {
        if let Some(file) = file_after(alloc, one, tail)? {
            files.push(file)?;
        }
    }
    Ok(files)
}

fn file_after(alloc: Global, left: &Left, tail: &[u8]) -> Result<Option<Stored>, AllocError>
    ensures { IfOk result (λ file. file ≡ left_file tail.now left.now) }
{
    if left.bytes.is_empty() {
        return Ok(None);
    }
    Ok(Some(Stored::after_stop(alloc, left, tail)?))
}
