// A text of ASCII characters alone.
ghost use Rattle.std.specs.Prelude.{◌≡◌, ◌<◌, All, IfSome, IfNone};

use std::str;

/// The bytes as a text, if they are ASCII.
pub fn ascii_text(bytes: &[u8]) -> Option<&str>
    ensures found { IfSome result (λ text.
        (text.now ≡ bytes.now) × All (λ byte. byte < 128) bytes.now) }
    ensures none { IfNone result (All (λ byte. byte < 128) bytes.now → ⊥) }
{
    if !bytes.is_ascii() {
        return None;
    }
    let Ok(text) = str::from_utf8(bytes) else {
        return None;
    };
    Some(text)
}
