// Laws over the definitions of `specs/Packing.antt`: each is the contract of a function that does
// nothing, so that it is proved wherever this crate is.
ghost use Rattle.sd_pack.specs.Packing.{PackedBodiesHold};

/// Packed bodies hold their session, and tightly: they are a cutting of its records.
pub fn packed_bodies_hold()
    ensures { PackedBodiesHold }
{}
