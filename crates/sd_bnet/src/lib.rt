//! The packets of the daemon protocol, for the daemon and for its clients (as: Bacula Developer's Guide, network
//! protocol). A packet is a signed big-endian length of four bytes and that many bytes; a negative length is a
//! signal and has no bytes.
#![tactic(auto)]

mod due;
mod feeder;
mod laws;
mod length;
mod packet;
mod payload;
mod signal;
mod stream;

pub use feeder::{Fed, Feeder};
pub use laws::{
    cut_packets_are_unfinished, every_stream_has_packets, packets_are_apart, packets_are_longest,
    packets_are_unique, packets_keep_at_cuts,
};
pub use packet::{Packet, put_packet};
pub use payload::Payload;
pub use signal::SignalNo;
