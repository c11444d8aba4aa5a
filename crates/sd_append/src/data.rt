// What the packets of a data phase come to.
ghost use Rattle.std.specs.Prelude.{◌≡◌, ◌++◌, [], List};
ghost use Rattle.sd_append.specs.Port.{Exchange};
ghost use Rattle.sd_append.specs.TalkStage.{by_reply, refusal_in};
ghost use Rattle.sd_append.specs.Talk.{Drops, TakesHeader, TakesRecordPacket, record_of};

use crate::header::{Header, read_header};
use crate::obey::give_up;
use crate::port::SessionPort;
use crate::stage::{Own, TalkStage, by_reply, is_taken, refusal_in};
use sd_base::{Rec, Refusal};
use sd_bnet::Payload;
use sd_machine::{Event, Reply};

/// Takes a packet where a header is due.
pub(crate) fn take_header<P: SessionPort>(own: Own, bytes: &[u8], port: &mut P) -> TalkStage
    ensures asked { (asked : List Exchange) × TakesHeader own bytes.now asked [] result
        × (P.asked port.new ≡ P.asked port.old ++ asked) }
    ensures clock { P.clock port.new ≡ P.clock port.old }
{
    match read_header(bytes) {
        Some(header) => TalkStage::Records(own, header),
        None => TalkStage::Dropped(give_up(own, port), Refusal::BadFileIndex),
    }
}

/// Takes a packet where a record is due.
pub(crate) fn take_record<P: SessionPort>(
    own: Own,
    header: Header,
    payload: Payload,
    port: &mut P,
) -> TalkStage
    ensures asked { (asked : List Exchange) × TakesRecordPacket own header payload asked [] result
        × (P.asked port.new ≡ P.asked port.old ++ asked) }
    ensures clock { P.clock port.new ≡ P.clock port.old }
{
    let rec = record_of(header, payload);
    let reply = port.step(Event::Append {
        ticket: own.ticket,
        rec,
    });
    if is_taken(&reply) {
        TalkStage::Records(own, header)
    } else {
        drop_rest(own, &reply, port)
    }
}

/// Drops the rest of the phase for a record's reply.
fn drop_rest<P: SessionPort>(own: Own, reply: &Reply, port: &mut P) -> TalkStage
    ensures asked { (asked : List Exchange)
        × Drops (by_reply own reply.now) (refusal_in reply.now) asked [] result
        × (P.asked port.new ≡ P.asked port.old ++ asked) }
    ensures clock { P.clock port.new ≡ P.clock port.old }
{
    let left = give_up(by_reply(own, reply), port);
    TalkStage::Dropped(left, refusal_in(reply))
}

/// The record of a header and a packet.
fn record_of(header: Header, payload: Payload) -> Rec
    ensures { result ≡ record_of header payload }
{
    Rec::new(header.index(), header.stream(), payload.into_bytes()).unwrap()
}
