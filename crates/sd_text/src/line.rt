// A line as it is printed or sent.
ghost use Rattle.std.specs.Prelude.{◌≡◌, IfSome};
ghost use Rattle.sd_text.specs.Lines.{line};

use arrayvec::ArrayString;
use std::fmt::{Display, Write as _};

/// The bytes of a text and a newline, if there is room for them.
pub fn line_of<D: Display + Drop, const ROOM: usize>(text: D) -> Option<ArrayString<ROOM>>
    ensures { IfSome result (λ said. IfSome (D.output text) (λ bytes. said.bytes ≡ line bytes)) }
{
    let mut said = ArrayString::new();
    match said.writeln(text) {
        Ok(()) => Some(said),
        Err(_) => None,
    }
}
