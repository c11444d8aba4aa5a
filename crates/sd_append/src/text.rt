// The text of a packet.
ghost use Rattle.std.specs.Prelude.{◌≡◌};
ghost use Rattle.sd_append.specs.Text.{is_end, trimmed};

/// The packet without the newline or the zero byte that may end it.
pub(crate) fn trimmed(packet: &[u8]) -> &[u8]
    ensures { result.now ≡ trimmed packet.now }
{
    match packet.split_last() {
        Some((last, front)) => {
            if ends_text(*last) {
                return front;
            }
            packet
        }
        None => packet,
    }
}

/// Whether a byte at the end of a packet is no part of its text.
fn ends_text(byte: u8) -> bool
    ensures { result ≡ is_end byte }
{
    byte == b'\n' || byte == 0
}
