// Names of volumes, pools, media types and hosts: one rule, four types that the compiler keeps apart.
ghost use Rattle.std.specs.Prelude.{◌≡◌, ◌↔◌, IfOk, IsOk, IsTrue};
ghost use Rattle.sd_base.specs.Name.{IsName, is_name_char};

use arrayvec::ArrayString;
use std::marker::{Model, PhantomData};

/// The most characters of a name.
pub const NAME_LENGTH: usize = 127;

/// A text that is no name: the refusal 'Bad name'.
#[derive(Clone, Copy, Debug, PartialEq, Eq)]
pub struct BadName;

/// A name of 1 to 127 characters out of letters, digits, `-`, `_`, `:` and `.`, other than `.` and
/// `..`, so that it may also name a file. `K` says what it names. In a contract it is the list of its
/// characters. It never takes memory.
#[derive(Drop)]
pub struct Name<K> {
    text: ArrayString<NAME_LENGTH>,
    kind: PhantomData<K>,
}

/// What a `VolName` names.
#[derive(Clone, Copy)]
pub struct Volume;

/// What a `PoolName` names.
#[derive(Clone, Copy)]
pub struct Pool;

/// What a `MediaName` names.
#[derive(Clone, Copy)]
pub struct Media;

/// What a `HostName` names.
#[derive(Clone, Copy)]
pub struct Host;

pub type VolName = Name<Volume>;

pub type PoolName = Name<Pool>;

pub type MediaName = Name<Media>;

/// The name of the machine whose daemon labels a volume.
pub type HostName = Name<Host>;

impl<K> Model for Name<K> {
    ghost use Rattle.std.specs.Prelude.{List, ℕ};
    ghost use Rattle.sd_base.specs.Name.{IsName, is_name_char};

    ghost Value = { List ℕ };

    ghost view = { λ n. n.text.bytes };

    ghost invariant = { λ n. IsName n.text.bytes };
}

impl<K> Name<K> {
    /// The name that `text` spells, or `BadName` if it breaks the rule.
    pub fn parse(text: &str) -> Result<Self, BadName>
        ensures accepted { IsOk result ↔ IsName text.now }
        ensures spelled { IfOk result (λ name. name ≡ text.now) }
    {
        if !is_name(text.as_bytes()) {
            return Err(BadName);
        }
        let mut held = ArrayString::new();
        held.push_str(text);
        Ok(Name {
            text: held,
            kind: PhantomData,
        })
    }

    pub fn as_str(&self) -> &str
        ensures spelled { result.now ≡ self.now }
        ensures rule { IsName result.now }
    {
        self.text.as_str()
    }

    /// A copy of the name; takes no memory.
    pub fn copy(&self) -> Self
        ensures { result ≡ self.now }
    {
        let mut held = ArrayString::new();
        held.push_str(self.text.as_str());
        Name {
            text: held,
            kind: PhantomData,
        }
    }

    /// A copy of the name, if there is one; takes no memory.
    pub fn copy_of(name: &Option<Self>) -> Option<Self>
        ensures { result ≡ name.now }
    {
        let name = name.as_ref()?;
        Some(name.copy())
    }

    /// Whether two names are spelled alike.
    pub fn is_same(&self, other: &Self) -> bool
        ensures { IsTrue result ↔ (self.now ≡ other.now) }
    {
        self.text.as_str() == other.text.as_str()
    }
}

fn is_name(text: &[u8]) -> bool
    ensures { IsTrue result ↔ IsName text.now }
{
    !text.is_empty()
        && text.len() <= NAME_LENGTH
        && text.iter().all(|byte| is_name_character(*byte))
        && text != b".".as_slice()
        && text != b"..".as_slice()
}

fn is_name_character(byte: u8) -> bool
    ensures { result ≡ is_name_char byte }
{
    byte.is_ascii_alphanumeric() || matches!(byte, b'-' | b'_' | b':' | b'.')
}
