// Laws of the definitions. Each is a function that does nothing: its contract is the law.
ghost use Rattle.sd_conf.specs.Conf.{FirstFaultIsOne};

/// A table has one first fault, or none.
pub fn first_fault_is_one()
    ensures { FirstFaultIsOne }
{}
