// A session is read back through a world, and which records its sink got.
ghost use Rattle.std.specs.Prelude.{◌≡◌, ◌++◌, []};
ghost use Rattle.sd_world.specs.Deeds.{IsRead};

use sd_append::Shown;
use sd_base::{Rec, Refusal, SessionKey};
use sd_console::{Before, WatchedSink};
use sd_core::World;
use sd_driver::Driver;
use sd_lane::Lanes;
use sd_readback::{ReadEnd, Sink};
use sd_span::Span;
use sd_spool::SpoolStore;

/// What a reading came to.
#[derive(Drop)]
pub(crate) struct Reading<K> {
    pub(crate) sink: K,
    pub(crate) handed: Shown<Rec>,
    pub(crate) answer: Result<ReadEnd, Refusal>,
}

/// Reads a session back through a world, and tells which records its sink got.
pub(crate) fn read_watched<B: Before, D: Driver, Q: Lanes, S: SpoolStore + Drop, K: Sink>(
    world: &mut World<D, Q, S>,
    key: SessionKey,
    spans: &[Span],
    sink: K,
) -> Reading<K>
    requires { K.got sink ≡ B.before }
    ensures got { K.got result.sink ≡ B.before ++ result.handed }
    ensures reads { IsRead (λ d. D.meaning d) key spans.now [] result.handed result.answer
        world.old world.new }
{
    let mut watched: WatchedSink<B, K> = WatchedSink::new(sink);
    let answer = world.read(key, spans, &mut watched);
    let (sink, handed) = watched.into_parts();
    Reading {
        sink,
        handed,
        answer,
    }
}
