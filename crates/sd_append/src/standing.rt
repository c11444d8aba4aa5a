// Where a talk stands between two reads.
ghost use Rattle.std.specs.Prelude.{◌≡◌, ◌↔◌, IsTrue};
ghost use Rattle.sd_append.specs.Conversation.{IsCommandDue, IsEndedByClient};
ghost use Rattle.sd_append.specs.Standing.{EndsBehind, EndsInput, fault_end, written_end};

use crate::end::TalkEnd;
use crate::outbox::{OutFault, Outbox};
use crate::stage::TalkStage;
use sd_bnet::Feeder;
use std::alloc::AllocError;

/// What a talk keeps from one read to the next.
#[derive(Drop)]
pub(crate) struct Standing<W> {
    pub(crate) feeder: Feeder,
    pub(crate) stage: TalkStage,
    pub(crate) outbox: Outbox<W>,
}

/// Where a talk stands after a read, and how it ended, if it did.
#[derive(Drop)]
pub(crate) struct Turned<W> {
    pub(crate) standing: Standing<W>,
    pub(crate) end: Option<Result<TalkEnd, AllocError>>,
}

/// Whether the client has ended the talk.
fn is_over(stage: &TalkStage) -> bool
    ensures { IsTrue result ↔ IsEndedByClient stage.now }
{
    matches!(stage, TalkStage::Over(_))
}

/// Whether a command is due.
fn is_command_due(stage: &TalkStage) -> bool
    ensures { IsTrue result ↔ IsCommandDue stage.now }
{
    matches!(stage, TalkStage::Command(_))
}

/// How a talk ends after a piece of its input, if it does: the client has ended it, or a length was too
/// great, which is what `failed` says.
pub(crate) fn end_behind(stage: &TalkStage, failed: bool) -> Option<Result<TalkEnd, AllocError>>
    ensures { EndsBehind result failed stage.now }
{
    if is_over(stage) {
        return Some(Ok(TalkEnd::Finished));
    }
    if failed {
        return Some(Ok(TalkEnd::TooLong));
    }
    None
}

/// How a talk ends where its input ends.
pub(crate) fn input_end(feeder: &Feeder, stage: &TalkStage) -> TalkEnd
    ensures { EndsInput result feeder.now stage.now }
{
    if !is_command_due(stage) || feeder.midway() {
        return TalkEnd::Truncated;
    }
    TalkEnd::Finished
}

/// The end of a talk whose writing failed.
pub(crate) fn fault_end(fault: OutFault) -> Result<TalkEnd, AllocError>
    ensures { result ≡ fault_end fault }
{
    match fault {
        OutFault::Write => Ok(TalkEnd::WriteFault),
        OutFault::Memory => Err(AllocError),
    }
}

/// The end of a talk whose end would be this if its writing hadn't failed.
pub(crate) fn written_end(
    fault: Option<OutFault>,
    end: Result<TalkEnd, AllocError>,
) -> Result<TalkEnd, AllocError>
    ensures { result ≡ written_end fault end }
{
    match fault {
        None => end,
        Some(fault) => fault_end(fault),
    }
}
