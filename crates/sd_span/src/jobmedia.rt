// The JobMedia text read back: what is read is written so, and what is written so is read.
ghost use Rattle.std.specs.Prelude.{◌≡◌, ◌⊎◌, ◌↔◌, List, [], ◌∷◌, ◌++◌, Some, None, Ok, Err, IfOk, MatchOption, MatchResult};
ghost use Rattle.sd_base.specs.declared.number.SessionKey.{SessionKey as SpecKey};
ghost use Rattle.sd_text.specs.Reading.{ReadsAll};
ghost use Rattle.sd_span.specs.JobMedia.{IsJobMedia, KeyFits, SpanFits, jobmedia_refusal, session_text, span_text};
ghost use Rattle.sd_span.specs.Reading.{GivesSpan, key_shape, span_shape};
ghost use Rattle.sd_span.specs.declared.span.Span.{Span as SpecSpan};
ghost use Rattle.sd_span.specs.declared.jobmedia.JobMediaFault.TheVariants.{BadSpan, Memory};

use crate::span::Span;
use sd_base::{Items, Name, Refusal, SessionKey};
use sd_text::{BadField, Lines, Words};
use std::alloc::Global;

/// The greatest number of 32 bits, in the width that fields are read in.
const MOST_U32: u64 = u32::MAX as u64;

/// A session and its spans, as its JobMedia text says them.
#[derive(Drop)]
pub struct SessionSpans {
    pub key: SessionKey,
    pub spans: Items<Span>,
}

/// Why a JobMedia text is not read.
#[derive(Clone, Copy, Debug, PartialEq, Eq)]
pub enum JobMediaFault {
    /// It is no JobMedia text.
    BadSpan,
    /// No memory was left for the spans.
    Memory,
}

impl JobMediaFault {
    /// What the daemon answers for it.
    pub fn refusal(self) -> Refusal
        ensures { result ≡ jobmedia_refusal self }
    {
        match self {
            JobMediaFault::BadSpan => Refusal::BadSpan,
            JobMediaFault::Memory => Refusal::Memory,
        }
    }
}

impl From<BadField> for JobMediaFault {
    ghost from_gives = { λ _ fault. fault ≡ BadSpan };

    fn from(_fault: BadField) -> Self {
        JobMediaFault::BadSpan
    }
}

/// The session and the spans that a JobMedia text says (as: Bacula Developer's Guide, JobMedia); its last
/// newline may lack. A text that says none is refused as such whatever memory is left.
pub fn read_jobmedia(alloc: Global, text: &str) -> Result<SessionSpans, JobMediaFault>
    // What is read is in the text,
    ensures ok { IfOk result (λ read. IsJobMedia text.now read.key read.spans) }
    // and what is in it is read, if memory lasts.
    ensures found { (key : SpecKey) (spans : List SpecSpan) → IsJobMedia text.now key spans
        → (result ≡ Ok (record { key = key; spans = spans })) ⊎ (result ≡ Err Memory) }
    // A bad span: nothing is in it.
    ensures bad_span { (result ≡ Err BadSpan)
        ↔ ((key : SpecKey) (spans : List SpecSpan) → IsJobMedia text.now key spans → ⊥) }
{
    let mut lines = Lines::new(text);
    let Some(first) = lines.next_line() else {
        return Err(JobMediaFault::BadSpan);
    };
    let key = session_of(first)?;
    let mut kept = Some(Items::new(alloc));
    while let Some(line) = lines.next_line() {
        let span = span_of(line)?;
        kept = with_span(kept, span);
    }
    let Some(spans) = kept else {
        return Err(JobMediaFault::Memory);
    };
    Ok(SessionSpans { key, spans })
}

/// Spans with one more at their end, or none any more once memory lacked.
fn with_span(kept: Option<Items<Span>>, span: Span) -> Option<Items<Span>>
    ensures { MatchOption kept (result ≡ None)
        (λ spans. (result ≡ Some (spans ++ span ∷ [])) ⊎ (result ≡ None)) }
{
    let mut spans = kept?.into_vec();
    let Ok(()) = spans.push(span) else {
        return None;
    };
    Some(Items::from_vec(spans))
}

/// The session that a line names, the first of a text.
fn session_of(line: &str) -> Result<SessionKey, BadField>
    ensures { MatchResult result (λ key. KeyFits key × (line.now ≡ session_text key))
        (λ _. (key : SpecKey) → KeyFits key → line.now ≡ session_text key → ⊥) }
{
    let mut words = Words::new(line);
    words.known("session")?;
    key_in(words)
}

#[tactic(auto, unfolding(crate::specs::Reading::key_shape))]
fn key_in(mut words: Words<'_>) -> Result<SessionKey, BadField>
    ensures { ReadsAll (λ key. key) result (key_shape words.entry) }
{
    let time = words.number(0, MOST_U32)?;
    let id = words.only_number(0, MOST_U32)?;
    Ok(SessionKey {
        time: time as u32,
        id: id as u32,
    })
}

/// The span that a line says.
fn span_of(line: &str) -> Result<Span, BadField>
    ensures { MatchResult result (λ span. SpanFits span × (line.now ≡ span_text span))
        (λ _. (span : SpecSpan) → SpanFits span → line.now ≡ span_text span → ⊥) }
{
    let mut words = Words::new(line);
    words.known("span")?;
    span_in(words)
}

#[tactic(auto, unfolding(crate::specs::Reading::span_shape))]
fn span_in(mut words: Words<'_>) -> Result<Span, BadField>
    ensures { GivesSpan result (span_shape words.entry) }
{
    let volume = words.word()?;
    let vol_index = words.number(0, u64::MAX)?;
    let first = words.number(0, MOST_U32)?;
    let last = words.number(0, MOST_U32)?;
    let start = words.number(0, u64::MAX)?;
    let end = words.only_number(0, u64::MAX)?;
    let Ok(volume) = Name::parse(volume) else {
        return Err(BadField);
    };
    Ok(Span {
        volume,
        vol_index,
        first: first as u32,
        last: last as u32,
        start,
        end,
    })
}
