// Packets written and found again.
use sd_base::Bytes;
use sd_bnet::{Feeder, Packet, Payload, put_packet};
use std::alloc::{AllocError, Global};
use std::io;

/// Writes two packets and feeds them in two pieces.
pub fn run(rt: HostRuntime) -> io::Result<()> {
    let mut stream = Vec::new(rt.alloc());
    put_two(rt.alloc(), &mut stream)?;
    print_fed(rt, &stream)
}

fn put_two(alloc: Global, stream: &mut Vec<u8>) -> io::Result<()> {
    let Some(payload) = Payload::new(Bytes::from_slice(alloc, &[7; 3000])?) else {
        return Err(io::Error::other("a payload"));
    };
    let packet = Packet::Bytes(payload);
    for _ in 0..2 {
        put(stream, &packet)?;
    }
    Ok(())
}

fn put(stream: &mut Vec<u8>, packet: &Packet) -> Result<(), AllocError> {
    match put_packet(stream, packet) {
        Err(_) => put_packet(stream, packet),
        answer => answer,
    }
}

fn print_fed(rt: HostRuntime, stream: &[u8]) -> io::Result<()> {
    let written = stream.len();
    println!(rt; "packets of {written} bytes")?;
    let mut feeder = Feeder::new(rt.alloc());
    let (front, rest) = stream.split_at(written.min(1000));
    feed(rt, &mut feeder, front)?;
    feed(rt, &mut feeder, rest)
}

fn feed(rt: HostRuntime, feeder: &mut Feeder, piece: &[u8]) -> io::Result<()> {
    let fed = match feeder.feed(piece) {
        Ok(fed) => fed,
        Err(_) => feeder.feed(piece)?,
    };
    let packets = fed.packets.len();
    let midway = feeder.midway();
    println!(rt; "fed: {packets} packets, midway {midway}")
}
