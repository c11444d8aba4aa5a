// What a program does that only prints help, its version, or what is wrong with its command line.
ghost use Rattle.std.specs.Prelude.{◌≡◌, ◌≢◌, ◌⊎◌, ◌↔◌, IsTrue};
ghost use Rattle.clap.specs.Values.{kind_of};

use clap::Error;
use clap::error::ErrorKind;

/// The status of a run whose command line was wrong.
const USAGE: u8 = 2;

/// The status of a run that only prints this: 0 for help and the version, 2 if the command line was wrong.
pub fn status_of(told: &Error) -> u8
    ensures shown { (kind_of told.now ≡ ErrorKind.DisplayHelp)
        ⊎ (kind_of told.now ≡ ErrorKind.DisplayVersion) → result ≡ 0 }
    ensures wrong { kind_of told.now ≢ ErrorKind.DisplayHelp
        → kind_of told.now ≢ ErrorKind.DisplayVersion → result ≡ 2 }
{
    if told.use_stderr() { USAGE } else { 0 }
}

/// Whether there was no memory to read a command line.
pub(crate) fn lacks_memory(fault: &Error) -> bool
    ensures { IsTrue result ↔ (kind_of fault.now ≡ ErrorKind.OutOfMemory) }
{
    fault.kind() == ErrorKind::OutOfMemory
}
