// The spans of a read, as they come.
ghost use Rattle.std.specs.Prelude.{◌≡◌, ◌++◌, List, true, Err, IfOk, OnOk};
ghost use Rattle.sd_base.specs.declared.number.SessionKey.{SessionKey as SpecKey};
ghost use Rattle.sd_span.specs.JobMedia.{IsJobMedia, session_text};
ghost use Rattle.sd_span.specs.declared.span.Span.{Span as SpecSpan};
ghost use Rattle.sd_text.specs.Lines.{line};
ghost use Rattle.sd_append.specs.Talk.{IsSpanLine, is_one_line};

use sd_base::SessionKey;
use sd_span::{JobMediaFault, SessionSpans, read_jobmedia};
use std::alloc::{AllocError, Global};
use std::marker::Model;

/// The JobMedia text of a session, as far as the lines of its spans have come. In a contract it is that text.
#[derive(Drop)]
pub(crate) struct SpanText {
    key: SessionKey,
    lines: String,
}

impl Model for SpanText {
    ghost use Rattle.std.specs.Prelude.{List, ℕ, ◌++◌};
    ghost use Rattle.std.specs.String.{string_bytes};
    ghost use Rattle.sd_span.specs.JobMedia.{session_text};
    ghost use Rattle.sd_text.specs.Lines.{line};

    ghost Value = { List ℕ };

    ghost view = { λ s. line (session_text s.key) ++ string_bytes s.lines };
}

impl SpanText {
    /// No span yet; takes no memory.
    pub(crate) fn new(alloc: Global, key: SessionKey) -> Self
        ensures { result ≡ line (session_text key) }
    {
        SpanText {
            key,
            lines: String::new(alloc),
        }
    }

    /// The text with one line more. If out of memory, it is gone.
    pub(crate) fn with(self, more: &str) -> Result<Self, AllocError>
        ensures { IfOk result (λ text. text ≡ self ++ line more.now) }
    {
        let SpanText { key, mut lines } = self;
        lines.push_str(more)?;
        lines.push('\n')?;
        Ok(SpanText { key, lines })
    }

    /// The session and the spans that the text says.
    pub(crate) fn read(&self, alloc: Global) -> Result<SessionSpans, JobMediaFault>
        ensures ok { IfOk result (λ read. IsJobMedia self.now read.key read.spans) }
        ensures bad_span { result ≡ Err JobMediaFault.BadSpan
            → (key : SpecKey) (spans : List SpecSpan) → IsJobMedia self.now key spans → ⊥ }
    {
        let text = format!(in alloc; "session {} {}\n{}", self.key.time, self.key.id, self.lines);
        match text {
            Ok(whole) => read_jobmedia(alloc, &whole),
            Err(_) => Err(JobMediaFault::Memory),
        }
    }
}

/// Reads a line by itself: whether it says a span. It is read as a text, after the line of some session.
pub(crate) fn read_span(alloc: Global, more: &str) -> Result<(), JobMediaFault>
    requires { is_one_line more.now ≡ true }
    ensures ok { OnOk result (IsSpanLine more.now) }
    ensures bad_span { result ≡ Err JobMediaFault.BadSpan → IsSpanLine more.now → ⊥ }
{
    let some = SessionKey { time: 1, id: 1 };
    let Ok(alone) = SpanText::new(alloc, some).with(more) else {
        return Err(JobMediaFault::Memory);
    };
    match alone.read(alloc) {
        Ok(_spans) => Ok(()),
        Err(fault) => Err(fault),
    }
}
