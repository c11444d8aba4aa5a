// What holds of events that are given again, and of all that a port did.
ghost use Rattle.sd_port.specs.Laws.{AnswersLead, PortLeads, GivenUp};

/// All that a world is given for an event, with what it replies, are deeds of the world; the rounds' events are among
/// them.
pub fn answers_lead<D>()
    ensures { AnswersLead D }
{}

/// All that a port did are deeds of its world; the events of rounds and of a console's lines are among them.
pub fn port_leads<D>()
    ensures { PortLeads D }
{}

/// A session whose cancel was given, whatever the answer, is neither active nor ended. So what `talk` gives at its end
/// leaves no session of its own on its way.
pub fn cancels_give_up<D>()
    ensures { GivenUp D }
{}
