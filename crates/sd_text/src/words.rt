// The fields of a line, read one after another. After an Err no more is read.
ghost use Rattle.std.specs.Prelude.{◌≡◌, ◌≢◌, ◌≤◌, ◌↔◌, [], ◌∷◌, Some, None, IfOk, IsTrue, MatchOption, MatchResult};
ghost use Rattle.sd_text.specs.Fields.{Fields, fields_of, joined};
ghost use Rattle.sd_text.specs.Reading.{ReadsFirst, ReadsAll, IsPlain, word_at, number_in, number_at, only_number};

use sd_base::Number;
use std::marker::Model;

/// A field that is not there, one too many, an empty one, or one that is no number within its limits.
#[derive(Clone, Copy, Debug, PartialEq, Eq)]
pub struct BadField;

/// The fields that are left of a line, parted by one blank each. In a contract they are the list of them.
#[derive(Drop)]
pub struct Words<'a> {
    rest: Option<&'a str>,
}

impl<'a> Model for Words<'a> {
    ghost use Rattle.std.specs.Prelude.{List, ℕ};
    ghost use Rattle.sd_text.specs.Fields.{fields_left};

    ghost Value = { List (List ℕ) };

    ghost view = { λ w. fields_left w.rest };
}

impl<'a> Words<'a> {
    /// The fields of `line`.
    pub fn new(line: &'a str) -> Self
        ensures { result ≡ fields_of line.now }
    {
        Words { rest: Some(line) }
    }

    /// The next field, which may be empty.
    fn next(&mut self) -> Option<&'a str>
        ensures { MatchOption result (self.old ≡ []) (λ field. self.old ≡ field.now ∷ self.new) }
    {
        let rest = self.rest?;
        match rest.split_once(' ') {
            Some((field, behind)) => {
                self.rest = Some(behind);
                Some(field)
            }
            None => {
                self.rest = None;
                Some(rest)
            }
        }
    }

    /// Reads the next field if it is `word`.
    pub fn known(&mut self, word: &str) -> Result<(), BadField>
        ensures { MatchResult result (λ _. self.old ≡ word.now ∷ self.new)
            (λ _. (rest : Fields) → self.old ≡ word.now ∷ rest → ⊥) }
    {
        match self.next() {
            Some(field) if field == word => Ok(()),
            _ => Err(BadField),
        }
    }

    /// The next field, which is not empty.
    #[tactic(auto, unfolding(crate::specs::Reading::word_at))]
    pub fn word(&mut self) -> Result<&'a str, BadField>
        ensures { ReadsFirst (λ word. word.now) result self.new (word_at self.old) }
    {
        match self.next() {
            Some(word) if !word.is_empty() => Ok(word),
            _ => Err(BadField),
        }
    }

    /// The next field, a number from `least` to `most`.
    #[tactic(auto, unfolding(crate::specs::Reading::number_at))]
    pub fn number(&mut self, least: u64, most: u64) -> Result<u64, BadField>
        ensures read { ReadsFirst (λ n. n) result self.new (number_at least most self.old) }
        ensures within { IfOk result (λ n. (least ≤ n) × (n ≤ most)) }
    {
        let Some(word) = self.next() else {
            return Err(BadField);
        };
        number_of(word, least, most)
    }

    /// The next field, the number of a drive, a session or a job.
    pub fn numbered<K, const MOST: u32>(&mut self) -> Result<Number<K, MOST>, BadField>
        ensures { ReadsFirst (λ n. n) result self.new (number_at 1 MOST self.old) }
    {
        let value = self.number(1, u64::from(MOST))?;
        let Some(number) = Number::new(value as u32) else {
            return Err(BadField);
        };
        Ok(number)
    }

    /// The only field that is left, a number from `least` to `most`.
    #[tactic(auto, unfolding(crate::specs::Reading::only_number))]
    pub fn only_number(mut self, least: u64, most: u64) -> Result<u64, BadField>
        ensures read { ReadsAll (λ n. n) result (only_number least most self.entry) }
        ensures within { IfOk result (λ n. (least ≤ n) × (n ≤ most)) }
    {
        let number = self.number(least, most)?;
        self.end()?;
        Ok(number)
    }

    /// The only field that is left, the number of a drive or a session.
    #[tactic(auto, unfolding(crate::specs::Reading::only_number))]
    pub fn only<K, const MOST: u32>(mut self) -> Result<Number<K, MOST>, BadField>
        ensures { ReadsAll (λ n. n) result (only_number 1 MOST self.entry) }
    {
        let number = self.numbered()?;
        self.end()?;
        Ok(number)
    }

    /// All that is left, the blanks between fields too.
    pub fn rest(self) -> &'a [u8]
        ensures { result.now ≡ joined self.entry }
    {
        match self.rest {
            Some(rest) => rest.as_bytes(),
            None => b"",
        }
    }

    /// Refuses if a field is left.
    pub fn end(&self) -> Result<(), BadField>
        ensures { MatchResult result (λ _. self.now ≡ []) (λ _. self.now ≢ []) }
    {
        match self.rest {
            Some(_) => Err(BadField),
            None => Ok(()),
        }
    }
}

/// The number from `least` to `most` that `word` spells.
fn number_of(word: &str, least: u64, most: u64) -> Result<u64, BadField>
    ensures read { MatchResult result (λ n. number_in least most word.now ≡ Some n)
        (λ _. number_in least most word.now ≡ None) }
    ensures within { IfOk result (λ n. (least ≤ n) × (n ≤ most)) }
{
    if !is_plain(word) {
        return Err(BadField);
    }
    let Ok(value) = word.parse::<u64>() else {
        return Err(BadField);
    };
    if value < least || value > most {
        return Err(BadField);
    }
    Ok(value)
}

/// Whether a number may begin so: without a sign, and with a zero only if that is all.
fn is_plain(word: &str) -> bool
    ensures { IsTrue result ↔ IsPlain word.now }
{
    let bytes = word.as_bytes();
    match bytes.first() {
        Some(b'+') => false,
        Some(b'0') => bytes.len() == 1,
        _ => true,
    }
}
