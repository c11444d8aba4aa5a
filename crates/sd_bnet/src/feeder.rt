// A feeder takes a stream in pieces and hands out its packets.
ghost use Rattle.std.specs.Prelude.{◌≡◌, ◌↔◌, ℕ, List, [], ◌++◌, IsTrue, IfOk, IsOkAnd, OnErr};
ghost use Rattle.sd_bnet.specs.Due.{state_of, IsStillDue};
ghost use Rattle.sd_bnet.specs.Feeder.{Fits, IsMidway};
ghost use Rattle.sd_bnet.specs.Feeder.FeederState.{Waiting, Failed};
ghost use Rattle.sd_bnet.specs.declared.packet.Packet.{Packet};

use crate::due::Due;
use crate::length::LengthBytes;
use crate::packet::Packet;
use crate::stream::{TakenPackets, take_packets, take_whole};
use sd_base::Items;
use std::alloc::{AllocError, Global};
use std::marker::Model;

/// What a piece of the stream completed.
#[derive(Debug, Drop)]
pub struct Fed {
    pub packets: Items<Packet>,
    /// A length above `MOST_DATA` follows the packets, and nothing more comes of this stream.
    pub failed: bool,
}

impl Fed {
    fn nothing(alloc: Global, failed: bool) -> Self
        ensures packets { result.packets ≡ [] }
        ensures failed { result.failed ≡ failed }
    {
        Fed {
            packets: Items::new(alloc),
            failed,
        }
    }
}

/// Finds the packets of a stream that comes in pieces, wherever it was cut. In a contract it is what
/// it keeps of the stream.
#[derive(Debug, Drop)]
pub struct Feeder {
    alloc: Global,
    due: Due,
}

impl Model for Feeder {
    ghost use Rattle.sd_bnet.specs.Feeder.{FeederState};
    ghost use Rattle.sd_bnet.specs.Due.{state_of, IsStillDue};

    ghost Value = { FeederState };

    ghost view = { λ f. state_of f.due };

    ghost invariant = { λ f. IsStillDue f.due };
}

impl Feeder {
    /// A feeder at the start of a stream; takes no memory.
    pub fn new(alloc: Global) -> Self
        ensures { Fits result [] [] }
    {
        Feeder {
            alloc,
            due: Due::Length(LengthBytes::new()),
        }
    }

    /// Takes the next piece of the stream, and hands out the packets that are whole now. An `Err`
    /// changes nothing: the piece may be fed again. Once it has failed, a feeder takes no more.
    pub fn feed(&mut self, piece: &[u8]) -> Result<Fed, AllocError>
        ensures packets { IfOk result (λ fed. (bytes : List ℕ) (packets : List Packet)
            → Fits self.old bytes packets
            → Fits self.new (bytes ++ piece.now) (packets ++ fed.packets)) }

        // A failed feeder fits only a stream with too great a length after its packets.
        ensures failed { IfOk result (λ fed. IsTrue fed.failed ↔ (self.new ≡ Failed)) }
        ensures failed_before { self.old ≡ Failed
            → IsOkAnd result (λ fed. (fed.packets ≡ []) × IsTrue fed.failed) }
        ensures err { OnErr result (self.new ≡ self.old) }
    {
        let alloc = self.alloc;
        match &mut self.due {
            Due::TooLong => Ok(Fed::nothing(alloc, true)),
            Due::Length(begun) => {
                let taken = take_packets(alloc, begun, piece)?;
                Ok(self.hand_out(taken))
            }
            Due::Payload(pending) => {
                if piece.len() < pending.missing() {
                    pending.add(piece)?;
                    return Ok(Fed::nothing(alloc, false));
                }
                let taken = take_whole(alloc, pending, piece)?;
                Ok(self.hand_out(taken))
            }
        }
    }

    fn hand_out(&mut self, taken: TakenPackets) -> Fed
        requires { IsStillDue taken.due }
        ensures due { self.new ≡ state_of taken.due }
        ensures packets { result.packets ≡ taken.packets.items }
        ensures failed { IsTrue result.failed ↔ (self.new ≡ Failed) }
    {
        self.due = taken.due;
        Fed {
            packets: Items::from_vec(taken.packets),
            failed: matches!(self.due, Due::TooLong),
        }
    }

    /// Whether a packet has begun that isn't whole. A feeder that has failed waits for none.
    pub fn midway(&self) -> bool
        ensures { IsTrue result ↔ IsMidway self.now }
    {
        match &self.due {
            Due::Length(begun) => !begun.as_slice().is_empty(),
            Due::Payload(_) => true,
            Due::TooLong => false,
        }
    }
}
