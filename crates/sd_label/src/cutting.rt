// Laws over the definitions of `specs/Cutting.antt`: each is the contract of a function that does
// nothing, so that it is proved wherever this crate is.
ghost use Rattle.sd_label.specs.Cutting.{HoldOneList, FrontHoldsFront, HoldingBeginsACutting, BeginningHolds};

/// Bodies hold one list of whole records: so a cutting determines its list and its end.
pub fn bodies_hold_one_list()
    ensures { HoldOneList }
{}

/// The records that the front of some bodies holds whole are the front of those that all of them hold.
pub fn front_holds_front()
    ensures { FrontHoldsFront }
{}

/// Bodies begin a cutting exactly if they hold a session so far.
pub fn holding_begins_a_cutting()
    ensures begins { HoldingBeginsACutting }
    ensures holds { BeginningHolds }
{}
