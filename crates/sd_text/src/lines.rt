// The lines of a text, read one after another.
ghost use Rattle.std.specs.Prelude.{◌≡◌, [], ◌∷◌, MatchOption};
ghost use Rattle.sd_text.specs.Lines.{lines_of};

use std::marker::Model;

/// The lines that are left of a text, each without the newline that ends it; the last one may lack that.
/// In a contract they are the list of them.
#[derive(Drop)]
pub struct Lines<'a> {
    rest: &'a str,
}

impl<'a> Model for Lines<'a> {
    ghost use Rattle.std.specs.Prelude.{List, ℕ};
    ghost use Rattle.sd_text.specs.Lines.{lines_of};

    ghost Value = { List (List ℕ) };

    ghost view = { λ l. lines_of l.rest.now };
}

impl<'a> Lines<'a> {
    /// The lines of `text`.
    pub fn new(text: &'a str) -> Self
        ensures { result ≡ lines_of text.now }
    {
        Lines { rest: text }
    }

    /// The next line, or `None` if none is left.
    pub fn next_line(&mut self) -> Option<&'a str>
        ensures { MatchOption result ((self.old ≡ []) × (self.new ≡ []))
            (λ line. self.old ≡ line.now ∷ self.new) }
    {
        let rest = self.rest;
        if rest.is_empty() {
            return None;
        }
        match rest.split_once('\n') {
            Some((line, behind)) => {
                self.rest = behind;
                Some(line)
            }
            None => {
                self.rest = "";
                Some(rest)
            }
        }
    }
}
