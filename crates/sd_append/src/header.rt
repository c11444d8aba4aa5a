// The header before the records of one FileIndex and Stream.
ghost use Rattle.std.specs.Prelude.{◌≡◌, ◌↔◌, ◌≤◌, Some, IfSome, IfOk, IsTrue};
ghost use Rattle.sd_base.specs.Limits.{most_number};
ghost use Rattle.sd_text.specs.Reading.{ReadsAll};
ghost use Rattle.sd_append.specs.Header.{AreWithin, HasHeaderForm, HeaderParts, IsInfo, header_shape, without_minus};

use crate::text::trimmed;
use sd_base::{MOST_NUMBER, Rec};
use sd_text::{BadField, Words, ascii_text};
use std::marker::Model;

/// The greatest FileIndex and Stream, in the width that fields are read in.
const MOST: u64 = MOST_NUMBER as u64;

/// Of which FileIndex and Stream the records are that follow, both 1 to 2,147,483,647.
#[derive(Clone, Copy, Debug, PartialEq, Eq)]
pub struct Header {
    index: u32,
    stream: u32,
}

impl Model for Header {
    ghost use Rattle.sd_append.specs.Header.{HeaderParts, AreWithin};

    ghost Value = { HeaderParts };

    ghost view = { λ h. record { index = h.index; stream = h.stream } };

    ghost invariant = { λ h. AreWithin (record { index = h.index; stream = h.stream }) };

    ghost inverse = { λ p. record { index = p.index; stream = p.stream } };
}

impl Header {
    /// The header of a record.
    pub(crate) fn of(rec: &Rec) -> Self
        ensures index { result.index ≡ rec.now.index }
        ensures stream { result.stream ≡ rec.now.stream }
    {
        Header {
            index: rec.index,
            stream: rec.stream,
        }
    }

    pub fn index(self) -> u32
        ensures index { result ≡ self.index }
        ensures least { 1 ≤ result }
        ensures most { result ≤ most_number }
    {
        self.index
    }

    pub fn stream(self) -> u32
        ensures stream { result ≡ self.stream }
        ensures least { 1 ≤ result }
        ensures most { result ≤ most_number }
    {
        self.stream
    }
}

/// The header of a packet, or `None` if the packet is none, or a number is out of its range.
pub fn read_header(packet: &[u8]) -> Option<Header>
    ensures found { (header : HeaderParts) → HasHeaderForm packet.now header
        → result ≡ Some header }
    ensures form { IfSome result (λ header. HasHeaderForm packet.now header) }
{
    let line = ascii_text(trimmed(packet))?;
    let Ok(spelled) = spelled_in(Words::new(line)) else {
        return None;
    };
    if !is_info(spelled.info) {
        return None;
    }
    Some(Header {
        index: spelled.index,
        stream: spelled.stream,
    })
}

/// The three fields of a header.
#[derive(Drop)]
struct Spelled<'a> {
    index: u32,
    stream: u32,
    info: &'a str,
}

#[tactic(auto, unfolding(crate::specs::Header::header_shape))]
fn spelled_in(mut words: Words<'_>) -> Result<Spelled<'_>, BadField>
    ensures shape { ReadsAll
        (λ s. (record { index = s.index; stream = s.stream }, s.info.now))
        result (header_shape words.entry) }
    ensures within { IfOk result (λ s.
        AreWithin (record { index = s.index; stream = s.stream })) }
{
    let index = words.number(1, MOST)?;
    let stream = words.number(1, MOST)?;
    let info = words.word()?;
    words.end()?;
    Ok(Spelled {
        index: index as u32,
        stream: stream as u32,
        info,
    })
}

/// Whether the word is one to twenty digits, a minus before them allowed.
fn is_info(word: &str) -> bool
    ensures { IsTrue result ↔ IsInfo word.now }
{
    let digits = without_minus(word.as_bytes());
    !digits.is_empty() && digits.len() <= 20 && digits.iter().all(|byte| byte.is_ascii_digit())
}

fn without_minus(word: &[u8]) -> &[u8]
    ensures { result.now ≡ without_minus word.now }
{
    if word.first() == Some(&b'-') {
        &word[1..]
    } else {
        word
    }
}
