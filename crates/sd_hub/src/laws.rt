// A settled line is a state of the core.
ghost use Rattle.sd_hub.specs.Laws.{SettledWorld};

/// The world of a settled line keeps what every world keeps, and matches a list machine whose lists are those that the parts
/// were told.
pub fn settled_world<D>()
    ensures { SettledWorld D }
{}
