// Laws over the definitions of `specs/Fragment.antt`: each is the contract of a function that does
// nothing, so that it is proved wherever this crate is.
ghost use Rattle.sd_record.specs.Fragment.{BodyIsOneList, FragmentsAreOfOneRecord};

/// Two lists of fragments never share the bytes of a body.
pub fn body_is_one_list()
    ensures { BodyIsOneList }
{}

/// Two records never share fragments.
pub fn fragments_are_of_one_record()
    ensures { FragmentsAreOfOneRecord }
{}
