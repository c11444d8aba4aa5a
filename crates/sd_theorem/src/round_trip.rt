// The law over packer and unpacker, as the contract of a function that does nothing.
ghost use Rattle.sd_theorem.specs.RoundTrip.{PackedComesBack};

/// The unpacker gives the records that the packer was given, once each and in order.
pub fn packed_comes_back()
    ensures { PackedComesBack }
{}
