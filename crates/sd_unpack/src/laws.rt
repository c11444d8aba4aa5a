// Laws over the definitions of `specs/Unpacking.antt`: each is the contract of a function that does
// nothing, so that it is proved wherever this crate is.
ghost use Rattle.sd_unpack.specs.Unpacking.{UnpackedAreWhole, CuttingIsUnpacked};

/// What an unpacker handed out with what waits are the whole records of its bodies.
pub fn unpacked_are_whole()
    ensures { UnpackedAreWhole }
{}

/// Whoever unpacks the bodies of a cutting, one after another, gets its records.
pub fn cutting_is_unpacked()
    ensures { CuttingIsUnpacked }
{}
