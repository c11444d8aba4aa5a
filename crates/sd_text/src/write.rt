// Bytes to a writer, all of them or a front of them.
ghost use Rattle.std.specs.Prelude.{OnOk, OnErr};
ghost use Rattle.std.specs.Io.KnownBytes.{Appends};
ghost use Rattle.sd_text.specs.Says.{SendsFront};

use std::io::Write;

/// The writer failed, or took no byte.
#[derive(Drop)]
pub struct WriteFault;

/// Writes bytes, in as many writes as the writer needs. If it fails or takes no byte, a front of them is in it,
/// and the rest is not written.
pub fn write_all<W: Write>(writer: &mut W, bytes: &[u8]) -> Result<(), WriteFault>
    ensures ok { OnOk result (Appends (W.contents writer.old) (W.contents writer.new) bytes.now) }
    ensures err { OnErr result
        (SendsFront (W.contents writer.old) (W.contents writer.new) bytes.now) }
{
    let mut rest = bytes;
    while !rest.is_empty() {
        match writer.write(rest) {
            Ok(0) => return Err(WriteFault),
            Ok(count) => rest = rest.split_at(count).1,
            Err(_) => return Err(WriteFault),
        }
    }
    Ok(())
}
