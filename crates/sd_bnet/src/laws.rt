// What the definition of a stream's packets says of every stream. These functions do nothing: their
// contracts are the laws.
ghost use Rattle.std.specs.Prelude.{◌≡◌, ◌≢◌, ℕ, ◌<◌, List, [], ◌++◌, All};
ghost use Rattle.std.specs.List.{AllByRecursion};
ghost use Rattle.sd_bnet.specs.Packet.{packet_bytes, IsPacket};
ghost use Rattle.sd_bnet.specs.Stream.{stream_of, IsUnfinished, Packets};
ghost use Rattle.sd_bnet.specs.declared.packet.Packet.{Packet};

/// Each stream of bytes has packets, if only none, and something after them, if only nothing.
pub fn every_stream_has_packets()
    ensures { (bytes : List ℕ) → All (λ byte. byte < 256) bytes
        → (packets : List Packet) × (remainder : List ℕ) × Packets bytes packets remainder }
{}

/// The bytes of a stream determine its packets and what remains after them.
pub fn packets_are_unique()
    ensures { (bytes remainder remains : List ℕ) (packets others : List Packet)
        → Packets bytes packets remainder → Packets bytes others remains
        → (packets ≡ others) × (remainder ≡ remains) }
{}

/// No longer list of whole packets begins the stream, and each that begins it begins its packets.
pub fn packets_are_longest()
    ensures { (bytes remainder after : List ℕ) (packets others : List Packet)
        → Packets bytes packets remainder
        → AllByRecursion IsPacket others → bytes ≡ stream_of others ++ after
        → (later : List Packet) × (packets ≡ others ++ later) }
{}

/// Where a stream is cut doesn't matter: after the packets of its front come those of what remained
/// there with what comes after it.
pub fn packets_keep_at_cuts()
    ensures together { (bytes more remainder rest : List ℕ) (packets later : List Packet)
        → Packets bytes packets remainder → Packets (remainder ++ more) later rest
        → Packets (bytes ++ more) (packets ++ later) rest }
    ensures apart { (bytes more remainder rest : List ℕ) (packets whole : List Packet)
        → Packets bytes packets remainder → Packets (bytes ++ more) whole rest
        → (later : List Packet) × (whole ≡ packets ++ later)
        × Packets (remainder ++ more) later rest }
{}

/// No packet begins another, so no two share their bytes.
pub fn packets_are_apart()
    ensures { (packet other : Packet) (after rest : List ℕ) → IsPacket packet → IsPacket other
        → packet_bytes packet ++ after ≡ packet_bytes other ++ rest
        → (packet ≡ other) × (after ≡ rest) }
{}

/// Of a packet that is cut off, there is nothing or its front.
pub fn cut_packets_are_unfinished()
    ensures { (packet : Packet) (front more : List ℕ) → IsPacket packet
        → packet_bytes packet ≡ front ++ more → more ≢ [] → IsUnfinished front }
{}
