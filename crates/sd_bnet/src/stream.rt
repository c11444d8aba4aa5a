// The packets of a piece, one after another. An error drops what it found and changes nothing.
ghost use Rattle.std.specs.Prelude.{◌≡◌, ◌+◌, ◌<◌, ◌≤◌, pos, [], ◌++◌, length, vec_len, IfOk, OnOk, OnErr};
ghost use Rattle.sd_base.specs.Field.{i32_bytes};
ghost use Rattle.sd_base.specs.Limits.{most_data};
ghost use Rattle.sd_bnet.specs.Due.{state_of, IsStillDue};
ghost use Rattle.sd_bnet.specs.Feeder.{Fits};
ghost use Rattle.sd_bnet.specs.Step.{SplitsOff};

use crate::due::{Due, Pending};
use crate::length::LengthBytes;
use crate::packet::Packet;
use crate::payload::Payload;
use crate::signal::SignalNo;
use sd_base::{Bytes, MOST_DATA, Short, get_i32};
use std::alloc::{AllocError, Global};
use std::mem;

/// What a length and the bytes after it are.
#[derive(Drop)]
pub(crate) enum Step<'a> {
    /// A packet, and what follows it.
    Whole(Packet, &'a [u8]),
    /// What is due, if they are no whole packet.
    Part(Due),
}

/// The packets of a piece, and what is due after them.
#[derive(Drop)]
pub(crate) struct TakenPackets {
    pub(crate) packets: Vec<Packet>,
    pub(crate) due: Due,
}

/// Takes the packets of a length that has begun and of the piece that comes next.
pub(crate) fn take_packets(
    alloc: Global,
    begun: &LengthBytes,
    piece: &[u8],
) -> Result<TakenPackets, AllocError>
    ensures due { IfOk result (λ taken. IsStillDue taken.due) }
    ensures packets { IfOk result (λ taken.
        Fits (state_of taken.due) (begun.now ++ piece.now) taken.packets.items) }
{
    let mut packets = Vec::new(alloc);
    let (mut field, mut rest) = begun.with(piece);
    loop {
        match next_step(alloc, field, rest)? {
            Step::Whole(packet, after) => {
                packets.push(packet)?;
                (field, rest) = LengthBytes::new().with(after);
            }
            Step::Part(due) => return Ok(TakenPackets { packets, due }),
        }
    }
}

/// Completes a payload, and takes the packets after it.
pub(crate) fn take_whole(
    alloc: Global,
    pending: &mut Pending,
    piece: &[u8],
) -> Result<TakenPackets, AllocError>
    requires begun { vec_len pending.old.bytes < pending.old.size }
    requires within { pending.old.size ≤ most_data }
    requires whole { pending.old.size ≤ vec_len pending.old.bytes + length piece.now }
    ensures due { IfOk result (λ taken. IsStillDue taken.due) }
    ensures packets { IfOk result (λ taken.
        let begun = i32_bytes (pos pending.old.size) ++ pending.old.bytes.items in
        Fits (state_of taken.due) (begun ++ piece.now) taken.packets.items) }
    ensures size { pending.new.size ≡ pending.old.size }
    ensures taken { OnOk result (pending.new.bytes.items ≡ []) }
    ensures err { OnErr result (pending.new.bytes.items ≡ pending.old.bytes.items) }
{
    let (end, rest) = piece.split_at(pending.missing());
    let mut taken = take_packets(alloc, &LengthBytes::new(), rest)?;
    // The last growths. `insert` then has its room, so nothing fails once the payload is whole.
    taken.packets.reserve(1)?;
    pending.add(end)?;
    let bytes = mem::replace(&mut pending.bytes, Vec::new(alloc));
    let payload = Payload::within(Bytes::from_vec(bytes));
    taken.packets.insert(0, Packet::Bytes(payload))?;
    Ok(taken)
}

fn next_step(alloc: Global, field: LengthBytes, rest: &[u8]) -> Result<Step<'_>, AllocError>
    requires { length field < 4 → rest.now ≡ [] }
    ensures { IfOk result (λ step. SplitsOff step (field ++ rest.now)) }
{
    match get_i32(field.as_slice(), 0) {
        Ok(number) => step_behind(alloc, number, rest),
        Err(Short) => Ok(Step::Part(Due::Length(field))),
    }
}

fn step_behind(alloc: Global, number: i32, rest: &[u8]) -> Result<Step<'_>, AllocError>
    ensures { IfOk result (λ step. SplitsOff step (i32_bytes number ++ rest.now)) }
{
    if let Some(signal) = SignalNo::new(number) {
        return Ok(Step::Whole(Packet::Signal(signal), rest));
    }
    let size = number as usize;
    if size > MOST_DATA {
        return Ok(Step::Part(Due::TooLong));
    }
    if rest.len() < size {
        let pending = Pending::begin(alloc, size, rest)?;
        return Ok(Step::Part(Due::Payload(pending)));
    }
    let (payload, after) = rest.split_at(size);
    let payload = Payload::within(Bytes::from_slice(alloc, payload)?);
    Ok(Step::Whole(Packet::Bytes(payload), after))
}
