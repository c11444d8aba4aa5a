// The fragments of a body, collected.
ghost use Rattle.std.specs.Prelude.{◌≡◌, ◌⊎◌, ◌++◌, ◌≤◌, ℕ, List, length, drop, IfOk, IfSome, IfNone};
ghost use Rattle.sd_base.specs.Record.{Record};
ghost use Rattle.sd_collect.specs.Collect.{AreTokensOf, GoesOn, records_in};
ghost use Rattle.sd_collect.specs.Whole.{Token};
ghost use Rattle.sd_record.specs.Fragment.{StandsAt};
ghost use Rattle.sd_unpack.specs.Damage.{BeginsWithNone};

use crate::collector::Collector;
use crate::sink::Salvaged;
use sd_base::Rec;
use sd_record::{Fragment, next_fragment};
use std::alloc::AllocError;

/// Has the collector take the next body of the session, and hands over the records that it makes whole. Says whether all of
/// the body is fragments. If it isn't, the collector was told of a gap after those at its front.
pub fn take_body<S: Salvaged>(
    collector: &mut Collector,
    body: &[u8],
    sink: &mut S,
) -> Result<bool, AllocError>
    ensures { IfOk result (λ sound. (tokens : List Token) × (records : List Record)
        × AreTokensOf body.now sound tokens
        × (S.got sink.new ≡ S.got sink.old ++ records)
        × (S.lost sink.new ≡ S.lost sink.old)
        × GoesOn collector.old collector.new tokens records) }
{
    let mut at = 0;
    while let Some((fragment, next)) = fragment_at(body, at) {
        let rec = collector.take(&fragment)?;
        hand_over(rec, sink)?;
        at = next;
    }
    if at < body.len() {
        collector.cut();
        return Ok(false);
    }
    Ok(true)
}

// Hands over a record, if there is one.
fn hand_over<S: Salvaged>(rec: Option<Rec>, sink: &mut S) -> Result<(), AllocError>
    ensures { IfOk result (λ _. (S.got sink.new ≡ S.got sink.old ++ records_in rec)
        × (S.lost sink.new ≡ S.lost sink.old)) }
{
    match rec {
        Some(rec) => sink.put(rec),
        None => Ok(()),
    }
}

// The fragment at a place of a body and the place after it, if a fragment is there.
fn fragment_at(body: &[u8], at: usize) -> Option<(Fragment<'_>, usize)>
    ensures some { IfSome result (λ found. StandsAt body.now at found.0 found.1) }
    ensures none { IfNone result
        ((length body.now ≤ at) ⊎ BeginsWithNone (drop at body.now)) }
{
    match next_fragment(body, at) {
        Ok(next) => next,
        Err(_) => None,
    }
}
