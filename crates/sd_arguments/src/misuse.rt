// Words that the parser takes, and that are no command line all the same.
ghost use Rattle.std.specs.Prelude.{◌≡◌};
ghost use Rattle.sd_arguments.specs.Daemon.{misuse_kind};

use clap::error::ErrorKind;
use std::alloc::{AllocError, Global};

/// What is wrong with words that the parser takes.
#[derive(Clone, Copy)]
pub(crate) enum Misuse<'a> {
    /// This is no name of a volume.
    BadName(&'a str),
    /// `--adopt-damaged` is given, and `--adopt` isn't.
    WithoutAdopt,
    /// There was no memory.
    Memory,
}

impl Misuse<'_> {
    /// The kind of its error.
    pub(crate) fn kind(self) -> ErrorKind
        ensures { result ≡ misuse_kind self.entry }
    {
        match self {
            Misuse::BadName(_) => ErrorKind::ValueValidation,
            Misuse::WithoutAdopt => ErrorKind::MissingRequiredArgument,
            Misuse::Memory => ErrorKind::OutOfMemory,
        }
    }

    /// What is told of it.
    pub(crate) fn message(self, alloc: Global) -> Result<String, AllocError> {
        match self {
            Misuse::BadName(word) => {
                format!(in alloc;
                    "invalid value '{word}' for '--adopt-damaged <VOLUME>': no name of a volume"
                )
            }
            Misuse::WithoutAdopt => {
                format!(in alloc;
                    "the argument '--adopt-damaged <VOLUME>' goes with '--adopt' alone"
                )
            }
            Misuse::Memory => Err(AllocError),
        }
    }
}
