// Which records a sink got while a session was read back.
ghost use Rattle.std.specs.Prelude.{◌≡◌, ◌++◌, List, []};
ghost use Rattle.sd_base.specs.Record.{Record};

use sd_append::Shown;
use sd_base::Rec;
use sd_readback::Sink;
use std::alloc::AllocError;
use std::marker::{Brand, Model, PhantomData};

/// What a sink had got before a reading.
pub trait Before {
    ghost before: { List Record };
}

impl Before for Brand {
    ghost use Rattle.std.specs.Prelude.{[]};

    ghost before = { [] };
}

/// A sink, and the records that were handed over to it since a reading began. Its type keeps that the sink got just
/// those. They are seen by contracts alone, and none is held.
#[derive(Drop)]
pub struct WatchedSink<B: Before, K: Sink> {
    sink: K,
    handed: Shown<Rec>,
    of: PhantomData<B>,
}

impl<B: Before, K: Sink> Model for WatchedSink<B, K> {
    ghost use Rattle.std.specs.Prelude.{◌≡◌, ◌++◌};
    ghost use Rattle.sd_console.specs.Watched.{WatchedIs};

    ghost Value = { WatchedIs K };

    ghost view = { λ w. record { sink = w.sink; handed = w.handed } };

    ghost invariant = { λ w. K.got w.sink ≡ B.before ++ w.handed };
}

impl<B: Before, K: Sink> WatchedSink<B, K> {
    /// A sink to which nothing was handed over yet.
    pub fn new(sink: K) -> Self
        requires { K.got sink ≡ B.before }
        ensures { result ≡ record { sink = sink; handed = [] } }
    {
        WatchedSink {
            sink,
            handed: Shown::nothing(),
            of: PhantomData,
        }
    }

    /// The sink, and the records that were handed over to it.
    pub fn into_parts(self) -> (K, Shown<Rec>)
        ensures parts { self ≡ record { sink = result.0; handed = result.1 } }
        ensures got { K.got result.0 ≡ B.before ++ result.1 }
    {
        let WatchedSink {
            sink,
            handed,
            of: _,
        } = self;
        (sink, handed)
    }
}

impl<B: Before, K: Sink> Sink for WatchedSink<B, K> {
    ghost got = { λ w. w.handed };

    fn put(&mut self, rec: Rec) -> Result<(), AllocError> {
        let handed = self.handed.with(&rec);
        self.sink.put(rec)?;
        self.handed = handed;
        Ok(())
    }
}
