// A packet, and how it is written.
ghost use Rattle.std.specs.Prelude.{◌≡◌, ◌++◌, OnOk, OnErr};
ghost use Rattle.sd_base.specs.Field.{i32_bytes};
ghost use Rattle.sd_bnet.specs.Packet.{packet_bytes, IsPacket};

use crate::payload::Payload;
use crate::signal::SignalNo;
use sd_base::put_i32;
use std::alloc::AllocError;

/// What one end of a connection sends at a time: a payload, or a signal, which has none.
#[derive(Debug, Drop)]
pub enum Packet {
    Bytes(Payload),
    Signal(SignalNo),
}

/// Writes a packet at the end of `out`.
pub fn put_packet(out: &mut Vec<u8>, packet: &Packet) -> Result<(), AllocError>
    ensures ok { OnOk result (out.new.items ≡ out.old.items ++ packet_bytes packet.now) }
    ensures packet { IsPacket packet.now }
    ensures err { OnErr result (out.new.items ≡ out.old.items) }
{
    match packet {
        Packet::Bytes(payload) => put_field(out, payload.len() as i32, payload.as_slice()),
        Packet::Signal(signal) => put_field(out, signal.get(), &[]),
    }
}

fn put_field(out: &mut Vec<u8>, length: i32, payload: &[u8]) -> Result<(), AllocError>
    ensures ok { OnOk result (out.new.items ≡ out.old.items ++ i32_bytes length ++ payload.now) }
    ensures err { OnErr result (out.new.items ≡ out.old.items) }
{
    let mut field = [0; 4];
    put_i32(&mut field, 0, length);
    out.reserve(field.len() + payload.len())?;
    out.extend_from_slice(&field)?;
    out.extend_from_slice(payload)
}
