// The sessions come into the world.
ghost use Rattle.std.specs.Prelude.{◌≡◌, ◌≤◌, [], length};
ghost use Rattle.std.specs.Vec.{vec_capacity};
ghost use Rattle.sd_hub.specs.Worlds.{SettlesEach, SettlesOne};

use crate::numbers::only_drive;
use sd_drive::Drive;
use sd_driver::Driver;
use sd_events::SessionEntry;
use sd_line::Told;
use sd_spool::SpoolStore;

/// Makes of each session one of the world, in their order. Takes no memory.
pub(crate) fn enter_all<D: Driver, S: SpoolStore + Drop>(
    drive: &Drive<D>,
    sessions: Vec<Told<S>>,
    entries: &mut Vec<SessionEntry<S>>,
)
    requires none { entries.old.items ≡ [] }
    requires room { length sessions.items ≤ vec_capacity entries.old }
    ensures { SettlesEach drive.now.journal sessions.items entries.new.items }
{
    for told in sessions {
        entries.push_reserved(enter(drive, told));
    }
}

// A session at the one drive. It fails if it goes on while the drive lost a block of it.
fn enter<D: Driver, S: SpoolStore + Drop>(drive: &Drive<D>, told: Told<S>) -> SessionEntry<S>
    ensures { SettlesOne drive.now.journal told result }
{
    let mut session = told.session;
    if drive.progress(session.key()).failed {
        session.fail();
    }
    SessionEntry {
        session,
        drive: only_drive(),
    }
}
