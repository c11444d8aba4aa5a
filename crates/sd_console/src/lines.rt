// A text, line by line, as packets.
ghost use Rattle.std.specs.Prelude.{◌≡◌, ◌⊎◌, ◌<◌, ◌≤◌, ◌+◌, ◌∷◌, [], length, IfOk, IfErr};
ghost use Rattle.sd_base.specs.Limits.{most_data};
ghost use Rattle.sd_base.specs.declared.refusal.Refusal.TheVariants as refusals;
ghost use Rattle.sd_text.specs.Lines.{line};
ghost use Rattle.sd_console.specs.Lines.{Shows};

use sd_base::{Bytes, Items, Refusal};
use sd_bnet::Payload;
use sd_text::Lines;
use std::alloc::{AllocError, Global};

/// The lines of a text, each a packet of its own that a newline ends.
pub fn show(alloc: Global, text: &str) -> Result<Items<Payload>, Refusal>
    ensures { Shows text.now result }
{
    let mut rest = Lines::new(text);
    let mut lines = Vec::new(alloc);
    while let Some(line) = rest.next_line() {
        let packet = packet_of(alloc, line)?;
        let Ok(()) = lines.push(packet) else {
            return Err(Refusal::Memory);
        };
    }
    Ok(Items::from_vec(lines))
}

/// The packet of a line; it lacks memory, or is too long.
pub(crate) fn packet_of(alloc: Global, text: &str) -> Result<Payload, Refusal>
    ensures ok { IfOk result (λ packet. packet ≡ line text.now) }
    ensures err { IfErr result (λ why. (why ≡ refusals.Memory)
        ⊎ ((why ≡ refusals.PacketTooLong) × (most_data < length (line text.now)))) }
{
    let Ok(bytes) = line_of(alloc, text) else {
        return Err(Refusal::Memory);
    };
    match Payload::new(Bytes::from_vec(bytes)) {
        Some(packet) => Ok(packet),
        None => Err(Refusal::PacketTooLong),
    }
}

// The bytes of a line.
fn line_of(alloc: Global, text: &str) -> Result<Vec<u8>, AllocError>
    ensures { IfOk result (λ bytes. bytes.items ≡ line text.now) }
{
    let mut bytes = Vec::with_capacity(alloc, text.len() + 1)?;
    bytes.extend_from_slice(text.as_bytes())?;
    bytes.push(b'\n')?;
    Ok(bytes)
}

/// One line as an answer.
pub fn one_line(alloc: Global, words: &str) -> Result<Items<Payload>, Refusal>
    requires { length words.now < 100 }
    ensures ok { IfOk result (λ lines. lines ≡ line words.now ∷ []) }
    ensures err { IfErr result (λ why. why ≡ refusals.Memory) }
{
    let packet = packet_of(alloc, words)?;
    let Ok(mut lines) = Vec::with_capacity(alloc, 1) else {
        return Err(Refusal::Memory);
    };
    lines.push_reserved(packet);
    Ok(Items::from_vec(lines))
}
