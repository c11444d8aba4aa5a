// What was asked is read, one session after the other.
ghost use Rattle.std.specs.Prelude.{◌≡◌, ◌≤◌, [], length};
ghost use Rattle.std.specs.List.{AllZip};
ghost use Rattle.std.specs.Vec.{vec_capacity};
ghost use Rattle.sd_memdrive.specs.Drive.{meaning_of};
ghost use Rattle.sd_returned.specs.Backs.{Answers, ReadsAsked, ReadsWanted};
ghost use Rattle.sd_returned.specs.Listed.{KeepsLists};

use crate::asked::{Asked, Wanted};
use crate::back::{JobBack, ReadBack};
use crate::laws::{lists_are_read, reading_keeps_lists};
use sd_core::World;
use sd_lane::Lanes;
use sd_memdrive::MemDrive;
use sd_spool::SpoolStore;
use std::alloc::Global;

/// Reads all that was asked. Room for the answers is there.
pub(crate) fn read_all<Q: Lanes, S: SpoolStore + Drop>(
    alloc: Global,
    world: &mut World<MemDrive, Q, S>,
    all: Vec<Asked>,
    mut backs: Vec<JobBack>,
) -> Vec<JobBack>
    requires { (backs.items ≡ []) × (length all.items ≤ vec_capacity backs) }
    ensures { AllZip (Answers world.old) all.items result.items }
{
    for asked in all {
        backs.push_reserved(answer(alloc, world, asked));
    }
    backs
}

// Answers what was asked of one job.
fn answer<Q: Lanes, S: SpoolStore + Drop>(
    alloc: Global,
    world: &mut World<MemDrive, Q, S>,
    asked: Asked,
) -> JobBack
    ensures answers { Answers world.old asked result }
    ensures keeps { KeepsLists (λ d. meaning_of d) world.old world.new }
{
    let Asked {
        stop,
        taken,
        spools,
        of,
    } = asked;
    JobBack {
        stop,
        taken,
        spools,
        read: read_asked(alloc, world, of),
    }
}

// Reads a session, if that is asked.
fn read_asked<Q: Lanes, S: SpoolStore + Drop>(
    alloc: Global,
    world: &mut World<MemDrive, Q, S>,
    of: Option<Wanted>,
) -> Option<ReadBack>
    ensures reads { ReadsAsked world.old of result }
    ensures keeps { KeepsLists (λ d. meaning_of d) world.old world.new }
{
    match of {
        Some(wanted) => Some(read(alloc, world, &wanted)),
        None => None,
    }
}

// Reads a session.
fn read<Q: Lanes, S: SpoolStore + Drop>(
    alloc: Global,
    world: &mut World<MemDrive, Q, S>,
    wanted: &Wanted,
) -> ReadBack
    ensures reads { ReadsWanted world.old wanted.now result }
    ensures keeps { KeepsLists (λ d. meaning_of d) world.old world.new }
{
    lists_are_read::<MemDrive>();
    reading_keeps_lists::<MemDrive>();
    world.know();
    let mut recs = Vec::new(alloc);
    let end = world.read(wanted.key, wanted.spans.as_slice(), &mut recs);
    ReadBack {
        key: wanted.key,
        end,
        recs,
    }
}
