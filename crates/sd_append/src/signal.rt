// What the signals of a client mean.
ghost use Rattle.std.specs.Prelude.{◌≡◌};
ghost use Rattle.sd_append.specs.TalkStage.{meaning_of};

use sd_bnet::SignalNo;

/// What a signal means to a talk (as: Bacula Developer's Guide, network protocol).
#[derive(Clone, Copy)]
pub(crate) enum Meaning {
    /// -1: the data end here.
    EndOfData,
    /// -4: the talk ends here.
    Terminate,
    /// -5, a poll, or -6, a heartbeat: if a command is due, it is answered.
    Poll,
    /// Nothing.
    Other,
}

pub(crate) fn meaning_of(signal: SignalNo) -> Meaning
    ensures { result ≡ meaning_of signal }
{
    match signal.get() {
        -1 => Meaning::EndOfData,
        -4 => Meaning::Terminate,
        -5 | -6 => Meaning::Poll,
        _ => Meaning::Other,
    }
}
