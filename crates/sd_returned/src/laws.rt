// What is read of jobs that are done, once their line is settled.
ghost use Rattle.sd_returned.specs.Listed.{ListsAreRead, ReadingKeepsLists, SettledJobsRead};

/// In the world of a settled line the session of each job that is done has its list: what its part was told to have taken,
/// and then the records of the job.
pub fn settled_jobs_read<D>()
    ensures { SettledJobsRead D }
{}

/// A read leaves every session its list.
pub fn reading_keeps_lists<D>()
    ensures { ReadingKeepsLists D }
{}

/// Who has a list is read to it.
pub fn lists_are_read<D>()
    ensures { ListsAreRead D }
{}
