// Numbers that stand alone in a text.
ghost use Rattle.std.specs.Prelude.{◌≡◌, ◌↔◌, IsTrue};
ghost use Rattle.sd_text.specs.Reading.{number_in};
ghost use Rattle.sd_append.specs.Text.{IsDecimal};

use sd_base::Number;
use sd_text::Words;

/// The number from 1 to `MOST` that the text spells.
pub(crate) fn number_of<K, const MOST: u32>(text: &str) -> Option<Number<K, MOST>>
    ensures { result ≡ number_in 1 MOST text.now }
{
    match Words::new(text).only() {
        Ok(number) => Some(number),
        Err(_) => None,
    }
}

/// Whether the text is a number in decimal, however great.
pub(crate) fn is_decimal(text: &str) -> bool
    ensures { IsTrue result ↔ IsDecimal text.now }
{
    let bytes = text.as_bytes();
    let digits = !bytes.is_empty() && bytes.iter().all(|byte| byte.is_ascii_digit());
    digits && (bytes[0] != b'0' || bytes.len() == 1)
}
