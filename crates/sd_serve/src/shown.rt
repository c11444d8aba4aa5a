// What the log shows of paths and of who holds a connection.
use crate::connections::Holder;
use std::fmt;

/// So many bytes of a path are shown at the most: a line of the log has room for more.
const MOST_SHOWN: usize = 600;

/// A path. Displays it, or its length if it is too long for a line of the log.
#[derive(Clone, Copy)]
pub struct ShownPath<'a>(pub &'a str);

impl fmt::Display for ShownPath<'_> {
    fn fmt<W: fmt::Write>(&self, f: &mut fmt::Formatter<W>) -> fmt::Result {
        let path = self.0;
        if path.len() > MOST_SHOWN {
            let bytes = path.len();
            return write!(f, "(a path of {bytes} bytes)");
        }
        write!(f, "{path}")
    }
}

/// Why there is no folder at a path. Displays it.
#[derive(Clone, Copy, Debug, PartialEq, Eq)]
pub enum NoFolder {
    NotThere,
    OtherKind,
    /// The system doesn't say what is there.
    Unknown,
}

impl fmt::Display for NoFolder {
    fn fmt<W: fmt::Write>(&self, f: &mut fmt::Formatter<W>) -> fmt::Result {
        match self {
            NoFolder::NotThere => write!(f, "isn't there"),
            NoFolder::OtherKind => write!(f, "is no folder"),
            NoFolder::Unknown => write!(f, "can't be looked at"),
        }
    }
}

/// Why the note of a volume isn't heeded. Displays it.
#[derive(Clone, Copy, Debug, PartialEq, Eq)]
pub enum UnheededNote {
    /// A later daemon may have written it.
    OtherForm,
    Damaged,
    Unreadable,
}

impl fmt::Display for UnheededNote {
    fn fmt<W: fmt::Write>(&self, f: &mut fmt::Formatter<W>) -> fmt::Result {
        match self {
            UnheededNote::OtherForm => write!(f, "has another form"),
            UnheededNote::Damaged => write!(f, "is damaged"),
            UnheededNote::Unreadable => write!(f, "can't be read"),
        }
    }
}

impl fmt::Display for Holder {
    fn fmt<W: fmt::Write>(&self, f: &mut fmt::Formatter<W>) -> fmt::Result {
        let (talk, peer, age, bytes) = (self.talk, self.peer, self.age, self.bytes);
        write!(f, "talk {talk} of {peer} for {age} s with {bytes} bytes")?;
        match self.session {
            Some(session) => write!(f, " in session {session}"),
            None => Ok(()),
        }
    }
}
