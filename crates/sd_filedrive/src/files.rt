// Files that are open, and those of which a sync failed.
ghost use Rattle.std.specs.Prelude.{◌≡◌};
ghost use Rattle.sd_filedrive.specs.Torn.{torn_at};

use sd_base::VolName;

/// The file of the volume that was read last without being loaded.
#[derive(Drop)]
pub(crate) struct Opened<H: Drop> {
    pub name: VolName,
    pub file: H,
}

/// The loaded volume.
#[derive(Drop)]
pub(crate) struct Loaded<H: Drop> {
    pub name: VolName,
    pub file: H,
    // Where it ends. None if that isn't known: after `load`, and after an append or a cut that failed.
    pub end: Option<u64>,
    // Its name was synced since it was created or loaded.
    pub is_named: bool,
    // So many of its bytes, from the front, were synced since then.
    pub synced: u64,
    // A sync of it failed.
    pub is_torn: bool,
}

/// A volume of which a sync failed, and how many of its bytes an earlier sync had shown to last.
#[derive(Drop)]
pub(crate) struct Torn {
    pub name: VolName,
    pub synced: u64,
}

/// How many bytes of this volume may be read if a sync of it failed. Calls itself for those behind the first one.
pub(crate) fn torn_in(torn: &[Torn], name: &VolName) -> Option<u64>
    ensures { result ≡ torn_at torn.now name.now }
{
    let Some((first, rest)) = torn.split_first() else {
        return None;
    };
    match torn_in(rest, name) {
        Some(synced) => Some(synced),
        None if first.name.is_same(name) => Some(first.synced),
        None => None,
    }
}
