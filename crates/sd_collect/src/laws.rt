// What holds of the records that are whole in fragments, whoever collects them.
ghost use Rattle.sd_collect.specs.Whole.{SessionIsWhole, WholeAreOneList};

/// In tokens one list of records is whole.
pub fn whole_are_one_list()
    ensures { WholeAreOneList }
{}

/// Where nothing of a session is lost, the whole records are its records.
pub fn session_is_whole()
    ensures { SessionIsWhole }
{}
