// The first line of a JobMedia text.
use sd_base::SessionKey;
use std::fmt;

/// Which session the spans after it are of. Displays its line without the newline.
#[derive(Drop)]
pub(crate) struct SessionLine(pub(crate) SessionKey);

impl fmt::Display for SessionLine {
    ghost use Rattle.std.specs.Prelude.{Some};
    ghost use Rattle.sd_span.specs.JobMedia.{session_text};

    ghost output = { λ l. Some (session_text l.0) };

    fn fmt<W: fmt::Write>(&self, f: &mut fmt::Formatter<W>) -> fmt::Result {
        let key = self.0;
        write!(f, "session {} {}", key.time, key.id)
    }
}
