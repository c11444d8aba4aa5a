// The lines that tell a reply.
ghost use Rattle.sd_console.specs.Told.{TellsReply};

use crate::lines::show;
use crate::reply::reply_text;
use sd_base::{Items, Refusal, SessionKey};
use sd_bnet::Payload;
use sd_machine::Reply;
use std::alloc::Global;

/// Tells all lines of a reply, or its refusal.
pub fn tell(alloc: Global, key: SessionKey, reply: &Reply) -> Result<Items<Payload>, Refusal>
    ensures { TellsReply key reply.now result }
{
    if let Reply::Refused(why) = reply {
        return Err(*why);
    }
    match reply_text(alloc, key, reply) {
        Ok(text) => show(alloc, &text),
        Err(_) => Err(Refusal::Memory),
    }
}
